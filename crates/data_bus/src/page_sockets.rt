// The sockets of the chips that hold a page.
ghost use Rattle.std.specs.Prelude.{◌≡◌, ◌<◌, ◌++◌, [], ◌∷◌, true, if◌then◌else◌, slice_set};
ghost use Rattle.std.specs.List.{AllByRecursion};
ghost use Rattle.data_bus.specs.PageIndex.{AreSeveral, listed};

use chip_face::MOST_CHIPS;

/// The sockets of the chips that hold a page, or have RAM there, ascending. Nearly always there is one at most.
#[derive(Clone, Copy, Debug)]
pub(crate) enum Sockets {
    NoOne,
    One(u8),

    /// Two at least: those whose flags are set.
    Several([bool; MOST_CHIPS]),
}

/// The flags with that of one socket set.
fn with_flag(mut flags: [bool; MOST_CHIPS], socket: u8) -> [bool; MOST_CHIPS]
    requires { socket < MOST_CHIPS }
    ensures { result ≡ slice_set flags socket true }
{
    flags[usize::from(socket)] = true;
    flags
}

impl Sockets {
    /// With one more socket, above the others.
    pub(crate) fn with(self, socket: u8) -> Sockets
        requires below { socket < MOST_CHIPS }
        requires several { AreSeveral self }
        requires above { AllByRecursion (λ earlier. earlier < socket) (listed self) }
        ensures listed { listed result ≡ listed self ++ socket ∷ [] }
        ensures several { AreSeveral result }
    {
        match self {
            Sockets::NoOne => Sockets::One(socket),
            Sockets::One(first) => {
                Sockets::Several(with_flag(with_flag([false; MOST_CHIPS], first), socket))
            }
            Sockets::Several(flags) => Sockets::Several(with_flag(flags, socket)),
        }
    }

    /// With one more socket, above the others, where it is one of them.
    pub(crate) fn with_if(self, socket: u8, is_one: bool) -> Sockets
        requires below { socket < MOST_CHIPS }
        requires several { AreSeveral self }
        requires above { AllByRecursion (λ earlier. earlier < socket) (listed self) }
        ensures listed { listed result
            ≡ (if is_one then listed self ++ socket ∷ [] else listed self) }
        ensures several { AreSeveral result }
    {
        if is_one { self.with(socket) } else { self }
    }
}
