// The parts of an entry that are no sets: the return, the flags, the facts, and the register that is the accumulator's copy.
ghost use Rattle.std.specs.Prelude.{◌≡◌, ◌<◌, IfSome, option_map};
ghost use Rattle.std.specs.Option.{ForSome};
ghost use Rattle.abs_domain.specs.KnownParts.{known_bit};
ghost use Rattle.abs_domain.specs.StateView.{status_of as status_view};
ghost use Rattle.case_text.specs.EntryWords.{fact_of as spelled_fact, facts_of as spelled_facts};
ghost use Rattle.case_text.specs.EntryWords.{flag_of as spelled_flag};
ghost use Rattle.case_text.specs.EntryWords.{return_of as spelled_return, same_of as spelled_same};
ghost use Rattle.case_text.specs.EntryWords.{status_of as spelled_status};

use super::numbers::octals_of;
use abs_domain::Bit;
use line_words::{address_of, is_word};
use value_sets::only;

/// What an entry states of data counters.
#[derive(Clone, Copy)]
pub struct Facts {
    pub s0: bool,
    pub s1: bool,
    pub p0: bool,
    pub p1: bool,
}

/// The return of a word, or any.
pub fn return_of(word: &[u8]) -> Option<Option<u16>>
    ensures { result ≡ spelled_return word.now }
{
    if is_word(word, b"----") {
        return Some(None);
    }
    address_of(word).map(Some)
}

/// The register of a word, or none.
pub fn same_of(word: &[u8]) -> Option<Option<u8>>
    ensures value { result ≡ spelled_same word.now }
    ensures small { IfSome result (λ number. ForSome number (λ number. number < 64)) }
{
    if is_word(word, b"--") {
        return Some(None);
    }
    let number = only(&octals_of(word)?)?;
    Some(Some(number))
}

/// Whether a fact holds.
fn fact_of(byte: u8) -> Option<bool>
    ensures { result ≡ spelled_fact byte }
{
    match byte {
        b'0' => Some(false),
        b'1' => Some(true),
        _ => None,
    }
}

/// The value of a flag, or either.
fn flag_of(byte: u8) -> Option<Bit>
    ensures { option_map known_bit result ≡ spelled_flag byte }
{
    if byte == b'-' {
        return Some(Bit::Any);
    }
    fact_of(byte).map(Bit::Known)
}

/// The five bits of the status word, from bit 0 on.
#[tactic(auto, using(crate::proofs::PartLengths::no_status_of))]
pub fn status_of(word: &[u8]) -> Option<[Bit; 5]>
    ensures { option_map status_view result ≡ spelled_status word.now }
{
    let [sign, carry, zero, overflow, icb] = word else {
        return None;
    };
    Some([
        flag_of(*sign)?,
        flag_of(*carry)?,
        flag_of(*zero)?,
        flag_of(*overflow)?,
        flag_of(*icb)?,
    ])
}

/// The four facts.
#[tactic(auto, using(crate::proofs::PartLengths::no_facts_of))]
pub fn facts_of(word: &[u8]) -> Option<Facts>
    ensures { option_map
        (λ facts. record { s0 = facts.s0; s1 = facts.s1; p0 = facts.p0; p1 = facts.p1 }) result
        ≡ spelled_facts word.now }
{
    let [s0, s1, p0, p1] = word else {
        return None;
    };
    Some(Facts {
        s0: fact_of(*s0)?,
        s1: fact_of(*s1)?,
        p0: fact_of(*p0)?,
        p1: fact_of(*p1)?,
    })
}
