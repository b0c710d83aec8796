// What the words ask for.
/// What the words ask for. The names are paths of files.
#[derive(Debug, Clone, Copy, PartialEq, Eq)]
pub enum Command<'a> {
    /// A run of the cartridge, by the script.
    Play {
        /// The description of the cartridge.
        cart: &'a str,

        /// The script of the run.
        script: &'a str,

        /// Whether the run shows its trace.
        traced: bool,
    },

    /// The same run on the flat instruction set alone.
    Ref {
        /// The description of the cartridge.
        cart: &'a str,

        /// The script of the run.
        script: &'a str,
    },

    /// A session of the chip-level debugger.
    Debug {
        /// The description of the cartridge.
        cart: &'a str,

        /// The commands of the session.
        commands: &'a str,
    },

    /// The audit of a trace: whether it can come from the cartridge.
    Audit {
        /// The description of the cartridge.
        cart: &'a str,

        /// The script of the run.
        script: &'a str,

        /// The trace.
        trace: &'a str,
    },

    /// The check of a cartridge.
    Check {
        /// The description of the cartridge.
        cart: &'a str,

        /// Whether the certificate is shown.
        certified: bool,
    },

    /// The verdict on a certificate of the cartridge.
    Verify {
        /// The description of the cartridge.
        cart: &'a str,

        /// The certificate.
        cert: &'a str,
    },

    /// What is found of a list of entries of the cartridge.
    Confirm {
        /// The description of the cartridge.
        cart: &'a str,

        /// The list of entries.
        cases: &'a str,
    },

    /// The search for a list of entries that shows the cartridge.
    Prove {
        /// The description of the cartridge.
        cart: &'a str,

        /// Whether the list is shown.
        listed: bool,
    },

    /// The description of the cartridge in the newest format.
    Migrate {
        /// The description of the cartridge.
        cart: &'a str,
    },

    /// The text of a program, to be assembled.
    Asm {
        /// The text.
        file: &'a str,
    },

    /// The modules of a program, to be linked.
    Link {
        /// The plan, which names them.
        plan: &'a str,
    },

    /// The bytes of a program, to be disassembled.
    Dis {
        /// The bytes.
        file: &'a str,
    },

    /// A run of the cartridge that is generated from a number.
    Gen {
        /// The number.
        seed: u32,
    },
}
