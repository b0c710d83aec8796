// What an instruction writes, part by part.
ghost use Rattle.std.specs.Prelude.{◌≡◌, ◌<◌, ◌+◌, ◌∷◌, []};
ghost use Rattle.case_step.specs.Effects.{writes_accumulator as spelled_accumulator, writes_flags as spelled_flags};
ghost use Rattle.case_step.specs.Effects.{writes_isar as spelled_isar, writes_data as spelled_data};
ghost use Rattle.case_step.specs.Effects.{steps_isar as spelled_steps};
ghost use Rattle.case_step.specs.Effects.{registers_written as spelled_registers, copied as spelled_copied};
ghost use Rattle.case_step.specs.Effects.{pair as spelled_pair};

use super::part::Part;
use super::reads::named;
use arrayvec::ArrayVec;
use f8_ops::registers::{H, J, K, Q, STEPPED_DOWN, STEPPED_UP};
use f8_ops::{Op, Row};

/// The registers that an instruction writes: a pair at most.
pub type Written = ArrayVec<Part, 2>;

/// The accumulator is written.
#[tactic(auto, unfolding(crate::specs::Effects::writes_accumulator))]
pub fn writes_accumulator(op: Op) -> bool
    ensures { result ≡ spelled_accumulator op }
{
    match op {
        Op::LrAKu | Op::LrAKl | Op::LrAQu | Op::LrAQl | Op::LrAIs | Op::LrAR { .. } => true,
        Op::Li | Op::Lis { .. } | Op::Lm | Op::In | Op::Ins { .. } | Op::Pi | Op::Jmp => true,
        Op::Sr1 | Op::Sl1 | Op::Sr4 | Op::Sl4 | Op::Com | Op::Lnk | Op::Inc => true,
        Op::Ni | Op::Oi | Op::Xi | Op::Ai => true,
        Op::Am | Op::Amd | Op::Nm | Op::Om | Op::Xm => true,
        Op::As { .. } | Op::Asd { .. } | Op::Xs { .. } | Op::Ns { .. } => true,
        _ => false,
    }
}

/// Sign, carry, zero and overflow are written.
#[tactic(auto, unfolding(crate::specs::Effects::writes_flags))]
pub fn writes_flags(op: Op) -> bool
    ensures { result ≡ spelled_flags op }
{
    match op {
        Op::LrWJ | Op::In | Op::Ins { .. } => true,
        Op::Sr1 | Op::Sl1 | Op::Sr4 | Op::Sl4 | Op::Com | Op::Lnk | Op::Inc | Op::Ds { .. } => true,
        Op::Ni | Op::Oi | Op::Xi | Op::Ai | Op::Ci => true,
        Op::Am | Op::Amd | Op::Nm | Op::Om | Op::Xm | Op::Cm => true,
        Op::As { .. } | Op::Asd { .. } | Op::Xs { .. } | Op::Ns { .. } => true,
        _ => false,
    }
}

/// A field steps ISAR.
fn steps_isar(field: u8) -> bool
    ensures { result ≡ spelled_steps field }
{
    field == STEPPED_UP || field == STEPPED_DOWN
}

/// ISAR is written.
#[tactic(auto, unfolding(crate::specs::Effects::writes_isar))]
pub fn writes_isar(op: Op) -> bool
    ensures { result ≡ spelled_isar op }
{
    match op {
        Op::LrIsA | Op::Lisu { .. } | Op::Lisl { .. } => true,
        Op::Ds { r: field }
        | Op::LrAR { r: field }
        | Op::LrRA { r: field }
        | Op::As { r: field }
        | Op::Asd { r: field }
        | Op::Xs { r: field }
        | Op::Ns { r: field } => steps_isar(field),
        _ => false,
    }
}

/// D0 is written, and the DC0 of every 3851 with it; an exchange isn't told here.
pub fn writes_data(row: Row) -> bool
    ensures { result ≡ spelled_data row }
{
    matches!(
        row,
        Row::DataFromQ
            | Row::DataFromH
            | Row::ReadData
            | Row::StoreData
            | Row::LoadData
            | Row::AddData
    )
}

/// One register.
fn one(part: Part) -> Written
    ensures { result.items ≡ part ∷ [] }
{
    let mut list = Written::new();
    list.push(part);
    list
}

/// A pair of registers, by the number of the high one.
fn pair(high: u8) -> Written
    requires { high < 255 }
    ensures { result.items ≡ spelled_pair high (high + 1) }
{
    let mut list = one(Part::Register(high));
    list.push(Part::Register(high + 1));
    list
}

/// The registers of the scratchpad that are written.
#[tactic(auto, unfolding(crate::specs::Effects::registers_written))]
pub fn registers_written(op: Op) -> Written
    ensures { result.items ≡ spelled_registers op }
{
    match op {
        Op::LrKuA => one(Part::Register(K)),
        Op::LrKlA => one(Part::Register(K + 1)),
        Op::LrQuA => one(Part::Register(Q)),
        Op::LrQlA => one(Part::Register(Q + 1)),
        Op::LrKP => pair(K),
        Op::LrQDc => pair(Q),
        Op::LrHDc => pair(H),
        Op::LrJW => one(Part::Register(J)),
        Op::Ds { r: field } | Op::LrRA { r: field } => one(named(field)),
        _ => Written::new(),
    }
}

/// The register that holds the accumulator's byte after a copy from one to the other.
#[tactic(auto, unfolding(crate::specs::Effects::copied))]
pub fn copied(op: Op) -> Option<Part>
    ensures { result ≡ spelled_copied op }
{
    match op {
        Op::LrAKu | Op::LrKuA => Some(Part::Register(K)),
        Op::LrAKl | Op::LrKlA => Some(Part::Register(K + 1)),
        Op::LrAQu | Op::LrQuA => Some(Part::Register(Q)),
        Op::LrAQl | Op::LrQlA => Some(Part::Register(Q + 1)),
        Op::LrAR { r: field } | Op::LrRA { r: field } => Some(named(field)),
        _ => None,
    }
}
