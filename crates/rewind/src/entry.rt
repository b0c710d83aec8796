// An entry of the replay log.
use console_spec::Event;

/// What was done since power-on: an instruction, or what came from outside between two of them.
#[derive(Clone, Copy, Debug, PartialEq, Eq)]
pub enum Entry {
    /// A key byte or a pulse.
    Happens(Event),

    /// An instruction that was done.
    Instruction,
}
