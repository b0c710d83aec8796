// A list of the calls of a sink that are to fail, with what goes out first.
ghost use Rattle.std.specs.Prelude.{◌≡◌};
ghost use Rattle.outside.specs.MemorySinks.{sent_at};

use std::marker::Model;

/// A call of a sink that is to fail: its number from 1 on, and how many bytes of its piece go out first. Of a shorter piece all go out.
#[derive(Drop)]
pub struct Cut {
    pub call: u64,
    pub sent: u32,
}

/// The calls of a sink that are to fail. Contracts see the list.
#[derive(Drop)]
pub struct CutList {
    cuts: Vec<Cut>,
}

impl Model for CutList {
    ghost use Rattle.std.specs.Prelude.{List};
    ghost use Rattle.outside.specs.declared.cut_list.Cut.{Cut};

    ghost Value = { List Cut };

    ghost view = { λ c. c.cuts.items };
}

impl CutList {
    /// The calls of a vector, which is kept as it is. Of two entries for one call the first counts.
    pub fn from_vec(cuts: Vec<Cut>) -> CutList
        ensures { result ≡ cuts.items }
    {
        CutList { cuts }
    }

    /// How many bytes of its piece go out first at a call, and `None` where the call isn't to fail.
    pub fn sent_at(&self, call: u64) -> Option<u32>
        ensures { result ≡ sent_at self.now call }
    {
        let cut = self.cuts.iter().find(|cut| cut.call == call)?;
        Some(cut.sent)
    }
}
