// Why a command does not get what it wants of its files.
use super::purposes::Purpose;
use bus_audit::TraceFault;
use cartridge::CartFault;
use case_text::CasesFault;
use certificate::CertFault;
use chip_debug::DebugFault;
use f8_asm::AsmFault;
use f8_link::{LinkFault, ModFault, PlanFault};
use pad_script::ScriptFault;
use thiserror::Error;

/// What is wrong with a file that is there.
#[derive(Clone, Copy, Debug, PartialEq, Eq, Error)]
pub enum Refusal {
    /// The description isn't a TOML document.
    #[error("the description is no TOML document")]
    Document,
    /// The description is at fault.
    #[error("the description is at fault")]
    Cart(CartFault),
    /// An assembly text is at fault: that of a chip, or the one file of a command.
    #[error("the assembly text is at fault")]
    Assembly { source: Option<u8>, fault: AsmFault },
    /// The script is at fault.
    #[error("the script is at fault")]
    Script(ScriptFault),
    /// The certificate is at fault.
    #[error("the certificate is at fault")]
    Cert(CertFault),
    /// The list of entries is at fault.
    #[error("the list of entries is at fault")]
    Cases(CasesFault),
    /// The debugger's commands are at fault.
    #[error("the commands are at fault")]
    Commands(DebugFault),
    /// The trace is at fault.
    #[error("the trace is at fault")]
    Trace(TraceFault),
    /// The plan of some modules is at fault.
    #[error("the plan is at fault")]
    Plan(PlanFault),
    /// The text of a module is at fault. Modules are counted from 0, in the order of the plan.
    #[error("a module is at fault")]
    Module { number: u8, fault: ModFault },
    /// The modules of a plan don't go together.
    #[error("the modules don't go together")]
    Link(LinkFault),
    /// The file isn't pairs of hexadecimal digits.
    #[error("the file is no hexadecimal digits")]
    Digits,
    /// The file has more bytes than its limit.
    #[error("the file is too long")]
    Long(Purpose),
}

/// Why a command doesn't get what it wants of its files.
#[derive(Clone, Copy, Debug, PartialEq, Eq, Error)]
pub enum Stop {
    /// A file is refused.
    #[error("a file is refused")]
    Refused(Refusal),
    /// The store failed at a file.
    #[error("a file could not be read")]
    Store(Purpose),
    /// Memory was wanting. It says nothing of the files.
    #[error("memory was wanting")]
    Memory,
}
