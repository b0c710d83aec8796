// The instruction table: rows, lengths, clocks and shielding.
ghost use Rattle.std.specs.Prelude.{◌≡◌, ◌+◌, ◌≤◌, Bool, false};
ghost use Rattle.f8_spec.specs.Instructions.{row_of, row_clocks, length_of, clocks_of, clocks_before_fetch};
ghost use Rattle.f8_spec.specs.Instructions.{has_long_fetch, step_clocks, is_shielding};
ghost use Rattle.f8_spec.specs.MicroSteps.{clocks_along, interrupt_steps, reset_steps};
ghost use Rattle.f8_spec.specs.declared.instructions.Op.{Op};

use f8_spec::{LONG_STEP_PHI, Op, Row, SHORT_STEP_PHI};

/// The clocks of reset, in Φ: those of its three bus steps, 4, 6 and 4 (this project's own, after the Fairchild F8 User's Guide).
pub const RESET_PHI: u64 = 14;

/// The most clocks of an instruction, in Φ: those of `PI` (Fairchild F8 User's Guide).
pub const MOST_PHI: u64 = 26;

/// The clocks of an interrupt, which takes the place of an instruction's last fetch, in Φ (this project's own).
pub const INTERRUPT_PHI: u64 = 26;

/// The most clocks of an instruction with an interrupt at its end, in Φ: those of `DCI` but its last fetch, and the interrupt's.
pub const MOST_INTERRUPTED_PHI: u64 = 46;

/// How many ports are the processor's own: 0 and 1 (Fairchild F8 User's Guide).
pub const OWN_PORTS: u8 = 2;

/// The row of the instruction table that an instruction belongs to: by it go length, bus steps and clocks.
pub fn row_of(op: Op) -> Row
    ensures { result ≡ row_of op }
{
    match op {
        Op::LrKP => Row::StackToK,
        Op::LrPK => Row::StackFromK,
        Op::Pk => Row::CallK,
        Op::LrP0Q => Row::JumpQ,
        Op::LrQDc | Op::LrHDc => Row::DataToPair,
        Op::LrDcQ => Row::DataFromQ,
        Op::LrDcH => Row::DataFromH,
        Op::Lm | Op::Am | Op::Amd | Op::Nm | Op::Om | Op::Xm | Op::Cm => Row::ReadData,
        Op::St => Row::StoreData,
        Op::Pop => Row::Return,
        Op::Li | Op::Ni | Op::Oi | Op::Xi | Op::Ai | Op::Ci => Row::Immediate,
        Op::In => Row::PortIn,
        Op::Out => Row::PortOut,
        Op::Pi => Row::Call,
        Op::Jmp => Row::Jump,
        Op::Dci => Row::LoadData,
        Op::Xdc => Row::Exchange,
        Op::Adc => Row::AddData,
        Op::Ds { .. } => Row::PlainLong,
        Op::Bt { .. } | Op::Bf { .. } => Row::Branch,
        Op::Br7 => Row::BranchIsar,
        Op::Di | Op::Ei | Op::LrWJ | Op::Asd { .. } => Row::Idle,
        Op::Ins { n } | Op::Outs { n } if n < 2 => Row::Idle,
        Op::Ins { .. } => Row::ShortIn,
        Op::Outs { .. } => Row::ShortOut,
        _ => Row::Plain,
    }
}

/// The bytes of an instruction, its opcode counted: 1 to 3 (Fairchild F8 User's Guide, instruction set).
pub fn length(op: Op) -> u8
    ensures { result ≡ length_of op }
{
    match row_of(op) {
        Row::Immediate | Row::PortIn | Row::PortOut | Row::Branch | Row::BranchIsar => 2,
        Row::Call | Row::Jump | Row::LoadData => 3,
        _ => 1,
    }
}

/// The clocks of a bus step, in Φ, by whether it is a long one.
#[inline]
pub fn step_phi(long: bool) -> u8
    ensures value { result ≡ step_clocks long }
    ensures most { result ≤ 6 }
{
    if long { LONG_STEP_PHI } else { SHORT_STEP_PHI }
}

/// The last fetch of an instruction in the row, that of the next opcode, is a long step.
#[inline]
pub fn has_long_fetch(row: Row) -> bool
    ensures { result ≡ has_long_fetch row }
{
    row == Row::PlainLong
}

/// The clocks of an instruction, in Φ, the fetch of the next opcode counted: the sum over its bus steps, whose lists are this
/// project's own, after the Fairchild F8 User's Guide. `taken` says that a branch is taken, and counts at `BT`, `BF` and `BR7`
/// alone.
pub fn phi(op: Op, taken: bool) -> u8
    ensures { result ≡ clocks_of op taken }
{
    row_phi(row_of(op), taken)
}

fn row_phi(row: Row, taken: bool) -> u8
    ensures { result ≡ row_clocks row taken }
{
    match row {
        Row::Plain => SHORT_STEP_PHI,
        Row::PlainLong => LONG_STEP_PHI,
        Row::Idle | Row::Return | Row::Exchange => 8,
        Row::ReadData | Row::StoreData | Row::Immediate | Row::AddData => 10,
        Row::BranchIsar => if taken { 10 } else { 8 },
        Row::Branch => if taken { 14 } else { 12 },
        Row::StackToK
        | Row::StackFromK
        | Row::CallK
        | Row::JumpQ
        | Row::DataToPair
        | Row::DataFromQ
        | Row::DataFromH
        | Row::PortIn
        | Row::PortOut
        | Row::ShortIn
        | Row::ShortOut => 16,
        Row::Jump => 22,
        Row::LoadData => 24,
        Row::Call => 26,
    }
}

/// What the constants of clocks are. Reset's and an interrupt's are those of their bus steps. No instruction takes more than `MOST_PHI`,
/// which `PI` takes; and with an interrupt at its end none takes more than `MOST_INTERRUPTED_PHI`, which `DCI` takes. This call does
/// nothing; its contract is the law.
pub fn clocks_law()
    ensures reset { clocks_along reset_steps ≡ RESET_PHI }
    ensures interrupt { clocks_along interrupt_steps ≡ INTERRUPT_PHI }
    ensures most { (op : Op) (taken : Bool) → clocks_of op taken ≤ MOST_PHI }
    ensures reached { (taken : Bool) → clocks_of Op.Pi taken ≡ MOST_PHI }
    ensures most_interrupted { (op : Op) (taken : Bool) → is_shielding op ≡ false →
        clocks_before_fetch op taken + INTERRUPT_PHI ≤ MOST_INTERRUPTED_PHI }
    ensures reached_interrupted { clocks_before_fetch Op.Dci false + INTERRUPT_PHI
        ≡ MOST_INTERRUPTED_PHI }
{}

/// No interrupt is taken at the end of the instruction: so at `PK`, `PI`, `POP`, `JMP`, `EI`, `LR W,J`, `OUT`, and `OUTS` of the
/// ports from 4 on. The list is this project's own, after the Fairchild F8 User's Guide.
pub fn shields(op: Op) -> bool
    ensures { result ≡ is_shielding op }
{
    match op {
        Op::Pk | Op::Pi | Op::Pop | Op::Jmp | Op::Ei | Op::LrWJ | Op::Out => true,
        Op::Outs { n } => n >= 4,
        _ => false,
    }
}
