// The breaks of a session.
ghost use Rattle.std.specs.Prelude.{◌≡◌};
ghost use Rattle.f8_machine.specs.Rounds.{is_socket};
ghost use Rattle.chip_debug.specs.Breaks.{is_taker as is_taker_of};

use super::command::Command;
use console_spec::Who;
use f8_machine::Heard;
use romc_table::Romc;

/// The chip in the socket drove a byte.
fn is_driver(socket: u8, who: Who) -> bool
    ensures { result ≡ is_socket socket who }
{
    match who {
        Who::Socket(driver) => driver == socket,
        Who::Cpu | Who::Nobody => false,
    }
}

/// The chip in the socket took a byte.
fn is_taker(socket: u8, taker: Option<u8>) -> bool
    ensures { result ≡ is_taker_of socket taker }
{
    match taker {
        Some(taker) => taker == socket,
        None => false,
    }
}

/// The breaks that are set, of each kind one at most. An instruction meets one by the address that comes next, by a bus step of its own with
/// the code or in which the chip in the socket drives or takes, or by a chip's counters behind it.
#[derive(Clone, Copy, Debug, PartialEq, Eq)]
pub(crate) struct Breaks {
    pub(crate) at: Option<u16>,
    pub(crate) romc: Option<u8>,
    pub(crate) chip: Option<u8>,
    pub(crate) apart: bool,
}

impl Breaks {
    ghost use Rattle.std.specs.Prelude.{◌≡◌};
    ghost use Rattle.std.specs.List.{list_any};
    ghost use Rattle.chip_debug.specs.Breaks.{no_breaks, breaks_after, is_wanted, takes_part, meets_step};

    /// No break.
    pub(crate) fn none() -> Breaks
        ensures { result ≡ no_breaks }
    {
        Breaks {
            at: None,
            romc: None,
            chip: None,
            apart: false,
        }
    }

    /// The breaks after a command that sets one, which takes the place of one of its kind, or clears all of them. Any other command leaves
    /// them as they are.
    pub(crate) fn after(self, command: Command) -> Breaks
        ensures { result ≡ breaks_after command self }
    {
        match command {
            Command::BreakAt { at } => Breaks {
                at: Some(at),
                ..self
            },
            Command::BreakRomc { romc } => Breaks {
                romc: Some(romc),
                ..self
            },
            Command::BreakChip { socket } => Breaks {
                chip: Some(socket),
                ..self
            },
            Command::BreakApart => Breaks {
                apart: true,
                ..self
            },
            Command::Clear => Breaks::none(),
            _ => self,
        }
    }

    /// The address comes next at which a break is.
    pub(crate) fn meets_address(self, at: u16) -> bool
        ensures { result ≡ is_wanted self.at at }
    {
        match self.at {
            Some(wanted) => at == wanted,
            None => false,
        }
    }

    fn meets_code(self, romc: Romc) -> bool
        ensures { result ≡ is_wanted self.romc romc }
    {
        match self.romc {
            Some(wanted) => romc.number() == wanted,
            None => false,
        }
    }

    fn meets_chip(self, step: Heard) -> bool
        ensures { result ≡ takes_part self.chip step }
    {
        match self.chip {
            Some(socket) => is_driver(socket, step.who) || is_taker(socket, step.taker),
            None => false,
        }
    }

    /// One of the bus steps has the code of a break, or its chip takes part in it.
    pub(crate) fn meets_steps(self, steps: &[Heard]) -> bool
        ensures { result ≡ list_any (meets_step self) steps.now }
    {
        steps.iter().any(|step| self.meets_code(step.romc) || self.meets_chip(*step))
    }
}
