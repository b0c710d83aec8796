// Sets of words.
ghost use Rattle.std.specs.List.{All};
ghost use Rattle.std.specs.Prelude.{◌≡◌, ◌<◌, ◌≤◌, IfOk, OnOk, length, option_map, slice_index, take};
ghost use Rattle.value_sets.specs.SetViews.{word_values};
ghost use Rattle.value_sets.specs.ValueSets.{has, is_within, joined, listed_union, single, with_number};
ghost use Rattle.value_sets.specs.ValueSets.{are_among as spelled_all, is_among as spelled_one, only as spelled_only};

use std::alloc::AllocError;

/// The most words that a set lists.
pub const MOST_WORDS: usize = 512;

/// The addresses that a data counter may have: those of a list, or any at all. The list's memory is the caller's.
#[derive(Clone, Debug, Drop)]
pub enum WordSet {
    Any,
    Among(Vec<u16>),
}

/// Whether a word is in a list.
fn is_among(words: &[u16], word: u16) -> bool
    ensures { result ≡ spelled_one words.now word }
{
    words.iter().any(|other| *other == word)
}

/// Whether each word of the lower list is in the upper one.
fn are_among(upper: &[u16], lower: &[u16]) -> bool
    ensures { result ≡ spelled_all upper.now lower.now }
{
    lower.iter().all(|word| is_among(upper, *word))
}

/// The word of a list of one.
fn only(words: &[u16]) -> Option<u16>
    ensures { result ≡ spelled_only words.now }
{
    match words {
        [word] => Some(*word),
        _ => None,
    }
}

/// The place of the first word of a list that is no smaller than this one, or the list's end.
fn place_of(words: &[u16], word: u16) -> usize
    ensures within { result ≤ length words.now }
    ensures before { All (λ own. own < word) (take result words.now) }
    ensures first { result < length words.now → word ≤ slice_index words.now result }
{
    words
        .iter()
        .position(|own| *own >= word)
        .unwrap_or(words.len())
}

/// Adds a word to a list that ascends, unless it is there.
fn add_word(words: &mut Vec<u16>, word: u16) -> Result<(), AllocError>
    ensures { OnOk result (words.new.items ≡ with_number words.old.items word) }
{
    let listed = words.as_slice();
    let place = place_of(listed, word);
    if listed.get(place) != Some(&word) {
        words.insert(place, word)?;
    }
    Ok(())
}

/// A list that ascends with the words of another one, or none where these are more than a list may have.
fn union_of(mut words: Vec<u16>, more: &[u16]) -> Result<Option<Vec<u16>>, AllocError>
    ensures { IfOk result (λ union. option_map (λ union. union.items) union
        ≡ listed_union MOST_WORDS words.items more.now) }
{
    if words.len() > MOST_WORDS {
        return Ok(None);
    }
    for word in more {
        add_word(&mut words, *word)?;
        if words.len() > MOST_WORDS {
            return Ok(None);
        }
    }
    Ok(Some(words))
}

impl WordSet {
    /// Whether the set has a word.
    #[inline]
    pub fn has(&self, word: u16) -> bool
        ensures { result ≡ has (word_values self.now) word }
    {
        match self {
            WordSet::Any => true,
            WordSet::Among(words) => is_among(words.as_slice(), word),
        }
    }

    /// The word of a set that has one alone.
    #[inline]
    pub fn single(&self) -> Option<u16>
        ensures { result ≡ single (word_values self.now) }
    {
        match self {
            WordSet::Any => None,
            WordSet::Among(words) => only(words.as_slice()),
        }
    }

    /// Whether the upper set has all that this one has. A list never has any word at all.
    #[inline]
    pub fn is_within(&self, upper: &WordSet) -> bool
        ensures { result ≡ is_within (word_values self.now) (word_values upper.now) }
    {
        match (self, upper) {
            (_, WordSet::Any) => true,
            (WordSet::Any, WordSet::Among(_)) => false,
            (WordSet::Among(lower), WordSet::Among(words)) => are_among(
                words.as_slice(),
                lower.as_slice(),
            ),
        }
    }

    /// What either set has, and any word at all where that is more than a list may have. Lists that ascend are joined to one that does.
    ///
    /// # Errors
    ///
    /// Memory is missing for the list.
    pub fn joined(self, more: &WordSet) -> Result<WordSet, AllocError>
        ensures { IfOk result (λ set. word_values set
            ≡ joined MOST_WORDS (word_values self) (word_values more.now)) }
    {
        let (WordSet::Among(words), WordSet::Among(others)) = (self, more) else {
            return Ok(WordSet::Any);
        };
        Ok(match union_of(words, others.as_slice())? {
            Some(words) => WordSet::Among(words),
            None => WordSet::Any,
        })
    }
}
