// The one set of counters.
/// The one set of counters, each an address: the instruction that comes next, the stack register and the two data counters.
#[derive(Clone, Copy, Default)]
pub struct Flow {
    pub p: u16,
    pub p1: u16,
    pub d0: u16,
    pub d1: u16,
}

impl Flow {
    ghost use Rattle.std.specs.Prelude.{◌≡◌};

    /// The next instruction at another address.
    #[inline]
    pub fn with_next(self, p: u16) -> Flow
        ensures { result ≡ record self { p = p } }
    {
        Flow { p, ..self }
    }

    #[inline]
    pub fn with_stack(self, p1: u16) -> Flow
        ensures { result ≡ record self { p1 = p1 } }
    {
        Flow { p1, ..self }
    }

    #[inline]
    pub fn with_data(self, d0: u16) -> Flow
        ensures { result ≡ record self { d0 = d0 } }
    {
        Flow { d0, ..self }
    }

    /// The two data counters change places.
    #[inline]
    pub fn with_data_exchanged(self) -> Flow
        ensures { result ≡ record self { d0 = self.d1; d1 = self.d0 } }
    {
        Flow {
            d0: self.d1,
            d1: self.d0,
            ..self
        }
    }
}
