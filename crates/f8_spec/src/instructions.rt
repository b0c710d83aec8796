// The instructions, and the rows of their table.
/// An instruction of the F8 without its operand bytes (Fairchild F8 User's Guide, instruction set).
///
/// The field `r` is 0 to 14, where 12 names the register that ISAR points to, and 13 and 14 also step ISAR up and down. `n` is 0
/// to 7 in `Lisu` and `Lisl`, 0 to 15 in `Lis`, and 0, 1 or 4 to 15 in `Ins` and `Outs`. `t` is 0 to 7 in `Bt` and 0 to 15 in `Bf`.
#[derive(Clone, Copy, Debug, PartialEq, Eq)]
pub enum Op {
    LrAKu,
    LrAKl,
    LrAQu,
    LrAQl,
    LrKuA,
    LrKlA,
    LrQuA,
    LrQlA,
    LrKP,
    LrPK,
    LrAIs,
    LrIsA,
    Pk,
    LrP0Q,
    LrQDc,
    LrDcQ,
    LrDcH,
    LrHDc,
    Sr1,
    Sl1,
    Sr4,
    Sl4,
    Lm,
    St,
    Com,
    Lnk,
    Di,
    Ei,
    Pop,
    LrWJ,
    LrJW,
    Inc,
    Li,
    Ni,
    Oi,
    Xi,
    Ai,
    Ci,
    In,
    Out,
    Pi,
    Jmp,
    Dci,
    Nop,
    Xdc,
    Ds { r: u8 },
    LrAR { r: u8 },
    LrRA { r: u8 },
    Lisu { n: u8 },
    Lisl { n: u8 },
    Lis { n: u8 },
    Bt { t: u8 },
    Am,
    Amd,
    Nm,
    Om,
    Xm,
    Cm,
    Adc,
    Br7,
    Bf { t: u8 },
    Ins { n: u8 },
    Outs { n: u8 },
    As { r: u8 },
    Asd { r: u8 },
    Xs { r: u8 },
    Ns { r: u8 },
}

/// A row of the instruction table: the instructions that share a length, a list of bus steps, a rule for the counters and a list
/// of bus accesses.
#[derive(Clone, Copy, Debug, PartialEq, Eq)]
pub enum Row {
    /// The last fetch alone.
    Plain,
    /// The last fetch alone, and that a long one: `DS`.
    PlainLong,
    /// A short step in which the CPU works by itself: `DI`, `EI`, `LR W,J`, `ASD`, and `INS` and `OUTS` of ports 0 and 1.
    Idle,
    /// `LR K,P`.
    StackToK,
    /// `LR P,K`.
    StackFromK,
    /// `PK`.
    CallK,
    /// `LR P0,Q`.
    JumpQ,
    /// `LR Q,DC` and `LR H,DC`.
    DataToPair,
    /// `LR DC,Q`.
    DataFromQ,
    /// `LR DC,H`.
    DataFromH,
    /// A read at the data counter: `LM`, and `AM` to `CM`.
    ReadData,
    /// `ST`.
    StoreData,
    /// `POP`.
    Return,
    /// One operand byte: `LI` to `CI`.
    Immediate,
    /// `IN`.
    PortIn,
    /// `OUT`.
    PortOut,
    /// `PI`.
    Call,
    /// `JMP`.
    Jump,
    /// `DCI`.
    LoadData,
    /// `XDC`.
    Exchange,
    /// `ADC`.
    AddData,
    /// `BT` and `BF`.
    Branch,
    /// `BR7`.
    BranchIsar,
    /// `INS` of the ports 4 to 15.
    ShortIn,
    /// `OUTS` of the ports 4 to 15.
    ShortOut,
}
