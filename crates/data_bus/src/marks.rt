// What is known to be the same in the counters of the chips and of the probe.
ghost use Rattle.std.specs.Prelude.{◌≡◌};

use romc_table::{Counter, Romc};

/// The marks of one counter: each tells that half of the address, a byte, is known to be the probe's in every chip that holds a page.
/// Where a mark isn't set, nothing is known of the half.
#[derive(Clone, Copy, Debug, PartialEq, Eq)]
pub struct Halves {
    /// The low byte is.
    pub low: bool,

    /// The high byte is.
    pub high: bool,
}

impl Halves {
    ghost use Rattle.data_bus.specs.KnownAgreement.{carried as carried_halves, is_known as is_known_by};

    /// Neither half is known.
    const NONE: Halves = Halves {
        low: false,
        high: false,
    };

    /// Both halves are known.
    const BOTH: Halves = Halves {
        low: true,
        high: true,
    };

    /// The whole address is known.
    fn is_known(self) -> bool
        ensures { result ≡ is_known_by self }
    {
        self.low && self.high
    }

    /// What is known after the same number was added everywhere: a carry into the high half comes from the low one.
    fn carried(self) -> Halves
        ensures { result ≡ carried_halves self }
    {
        Halves {
            low: self.low,
            high: self.is_known(),
        }
    }
}

/// What is known of the four counters in the chips that hold a page. Of the second data counter the marks tell what is known in those
/// that have one. That a bus keeps such marks is this project's own.
#[derive(Clone, Copy, Debug, PartialEq, Eq)]
pub struct Marks {
    /// The program counter.
    pub pc0: Halves,

    /// The stack register.
    pub pc1: Halves,

    /// The data counter.
    pub dc0: Halves,

    /// The second data counter, where a chip has one.
    pub dc1: Halves,
}

impl Marks {
    ghost use Rattle.data_bus.specs.KnownAgreement.{knows as knows_by, marks_after, no_marks};

    /// Nothing is known, as at power-on.
    pub fn none() -> Marks
        ensures { result ≡ no_marks }
    {
        Marks {
            pc0: Halves::NONE,
            pc1: Halves::NONE,
            dc0: Halves::NONE,
            dc1: Halves::NONE,
        }
    }

    /// A step with this code was served (Mostek 3851 and 3853 data sheets for what a code does to counters). The byte on the bus reaches
    /// every chip and the probe alike, so a half that it sets is known from then on, whatever was before.
    ///
    /// `is_parted` tells that some chip that holds a page has no second data counter. An exchange of the data counters passes such a chip by.
    #[inline(always)]
    pub fn follow(&mut self, romc: Romc, is_parted: bool)
        ensures { self.new ≡ marks_after is_parted romc self.old }
    {
        match romc {
            Romc::FETCH | Romc::DISPLACEMENT | Romc::OPERAND => self.pc0 = self.pc0.carried(),
            Romc::READ_DATA | Romc::STORE_DATA | Romc::ADD_DATA => self.dc0 = self.dc0.carried(),
            Romc::RETURN => self.pc0 = self.pc1,
            Romc::RESET => {
                self.pc1 = self.pc0;
                self.pc0 = Halves::BOTH;
            }
            Romc::JUMP_LOW | Romc::SET_PROGRAM_LOW => self.pc0.low = true,
            Romc::SAVE_NEXT => self.pc1 = self.pc0.carried(),
            Romc::LOAD_DATA_LOW | Romc::SET_DATA_LOW => self.dc0.low = true,
            Romc::VECTOR_LOW | Romc::CALL_LOW => {
                self.pc1 = self.pc0;
                self.pc0.low = true;
            }
            Romc::LOAD_DATA_HIGH | Romc::SET_DATA_HIGH => self.dc0.high = true,
            Romc::VECTOR_HIGH | Romc::SET_PROGRAM_HIGH => self.pc0.high = true,
            Romc::SET_STACK_HIGH => self.pc1.high = true,
            Romc::SET_STACK_LOW => self.pc1.low = true,
            Romc::EXCHANGE => {
                let dc0 = self.dc0;
                self.dc0 = if is_parted { Halves::NONE } else { self.dc1 };
                self.dc1 = dc0;
            }
            _ => {}
        }
    }

    /// The whole address in a counter is known. Of no counter nothing is.
    pub fn knows(self, counter: Counter) -> bool
        ensures { result ≡ knows_by counter self }
    {
        match counter {
            Counter::Pc0 => self.pc0.is_known(),
            Counter::Pc1 => self.pc1.is_known(),
            Counter::Dc0 => self.dc0.is_known(),
            Counter::NoCounter => false,
        }
    }
}
