// What the files of a command are for.
/// What a file is for.
#[derive(Clone, Copy, Debug, PartialEq, Eq)]
pub enum Purpose {
    /// The description of a cartridge.
    Cart,
    /// The script of a run.
    Script,
    /// A certificate of a cartridge.
    Cert,
    /// The list of entries of a cartridge.
    Cases,
    /// The commands of the debugger.
    Commands,
    /// The trace of an audit.
    Trace,
    /// The one file of a command.
    File,
    /// The assembly text of a chip's bytes. Chips are counted from 0, in the order of the description.
    Source(u8),
    /// The plan of some modules.
    Plan,
    /// The text of a module. Modules are counted from 0, in the order of the plan.
    Module(u8),
}
