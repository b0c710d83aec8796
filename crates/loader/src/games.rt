// A run, a session of the debugger, or an audit, that is asked for.
use bus_audit::TraceList;
use cart_data::Cart;
use chip_debug::CommandList;
use pad_script::Script;

/// A run that is asked for.
#[derive(Debug, Drop)]
pub struct Game {
    /// The cartridge: the registers that the checker tracks, and the storage chips in the order of the description.
    pub cart: Cart,
    /// What the run is given.
    pub script: Script,
}

/// A session of the debugger that is asked for.
#[derive(Debug, Drop)]
pub struct Debugging {
    /// The cartridge: the registers that the checker tracks, and the storage chips in the order of the description.
    pub cart: Cart,
    /// The commands.
    pub commands: CommandList,
}

/// An audit that is asked for.
#[derive(Debug, Drop)]
pub struct Auditing {
    /// What the trace is to come from: the cartridge, and the script, of which an audit doesn't use the end.
    pub game: Game,
    /// The trace.
    pub trace: TraceList,
}
