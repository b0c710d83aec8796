//! A bus step that wasn't served.
ghost use Rattle.std.specs.Prelude.{◌≡◌};

use super::outcome::StoppedBy;
use data_bus::BusFault;
use romc_table::Romc;

/// A bus step wasn't served; what there is to say of it stands in the `Unserved` for which the caller has a place. So it is throughout,
/// since an `Err` with the fault would be copied at each call that hands it on, and room for it kept where every step is served.
#[derive(Clone, Copy, Debug, PartialEq, Eq)]
pub(crate) struct NotServed;

/// A bus step that wasn't served, and whether it is a long one.
#[derive(Debug, Drop)]
pub(crate) struct Unserved {
    pub(crate) fault: BusFault,
    pub(crate) long: bool,
}

impl Unserved {
    /// A place for one, before a step isn't served. Nobody reads what stands there till then.
    pub(crate) fn place() -> Unserved {
        Unserved {
            fault: BusFault::Undriven {
                romc: Romc::FETCH,
                at: 0,
            },
            long: false,
        }
    }

    /// What it stops a machine with.
    pub(crate) fn to_stopped_by(&self) -> StoppedBy
        ensures { result ≡ StoppedBy.Fault self.now.fault self.now.long }
    {
        StoppedBy::Fault {
            fault: self.fault.copy(),
            long: self.long,
        }
    }
}
