// The two bytes of a word, each known or not.
ghost use Rattle.std.specs.Prelude.{◌≡◌};
ghost use Rattle.abs_step.specs.Known.{known_word};
ghost use Rattle.abs_step.specs.KnownFlow.{pair_of};
ghost use Rattle.abs_step.specs.WorkView.{pair_view};

/// The bytes of a word, the high one first.
#[derive(Clone, Copy)]
pub struct Pair {
    pub high: Option<u8>,
    pub low: Option<u8>,
}

impl Pair {
    /// The bytes of an address.
    pub fn of(at: Option<u16>) -> Pair
        ensures { pair_view result ≡ pair_of at }
    {
        match at {
            Some(at) => Pair {
                high: Some((at / 256) as u8),
                low: Some((at % 256) as u8),
            },
            None => Pair {
                high: None,
                low: None,
            },
        }
    }

    /// The word, where both bytes are known.
    pub fn word(self) -> Option<u16>
        ensures { result ≡ known_word self.high self.low }
    {
        Some(u16::from(self.high?) * 256 + u16::from(self.low?))
    }
}
