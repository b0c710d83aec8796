// What an instruction reads, part by part.
ghost use Rattle.std.specs.Prelude.{◌≡◌, ◌≤◌, ◌<◌, ◌+◌, ◌++◌, ◌∷◌, [], length};
ghost use Rattle.case_step.specs.Effects.{chosen_flags as spelled_chosen, field_reads as spelled_field};
ghost use Rattle.case_step.specs.Effects.{named as spelled_named};
ghost use Rattle.case_step.specs.Effects.{pair as spelled_pair, parts_read as spelled_reads, pointer};
ghost use Rattle.case_step.specs.declared.part.Part.TheVariants.{Accumulator};

use super::part::Part;
use arrayvec::ArrayVec;
use f8_ops::Op;
use f8_ops::registers::{H, J, K, POINTED, Q};

/// The most parts that an instruction reads: the five bits of the status word.
pub const MOST_READS: usize = 5;

/// The parts that an instruction reads, in the order in which cases are made by them.
pub type Reads = ArrayVec<Part, MOST_READS>;

/// The register that a field names: from 12 on the one that ISAR points to.
pub fn named(field: u8) -> Part
    ensures { result ≡ spelled_named field }
{
    if field < POINTED {
        Part::Register(field)
    } else {
        Part::Pointed
    }
}

/// Some parts.
fn reads(parts: &[Part]) -> Reads
    requires { length parts.now ≤ MOST_READS }
    ensures { result.items ≡ parts.now }
{
    let mut list = Reads::new();
    for part in parts {
        list.push(*part);
    }
    list
}

/// A pair of registers, by the number of the high one.
fn pair(high: u8) -> Reads
    requires { high < 255 }
    ensures { result.items ≡ spelled_pair high (high + 1) }
{
    reads(&[Part::Register(high), Part::Register(high + 1)])
}

/// The register that a field names, and before it ISAR, where that points to it.
fn field(field: u8) -> Reads
    ensures { result.items ≡ spelled_field field }
{
    if field < POINTED {
        reads(&[Part::Register(field)])
    } else {
        reads(&[Part::Isar, Part::Pointed])
    }
}

/// The same, and the accumulator.
fn field_and_accumulator(number: u8) -> Reads
    ensures { result.items ≡ spelled_field number ++ Accumulator ∷ [] }
{
    let mut list = field(number);
    list.push(Part::Accumulator);
    list
}

/// The accumulator, which is written to the register that a field names.
fn accumulator_to(field: u8) -> Reads
    ensures { result.items ≡ pointer field ++ Accumulator ∷ [] }
{
    if field < POINTED {
        reads(&[Part::Accumulator])
    } else {
        reads(&[Part::Isar, Part::Accumulator])
    }
}

/// The flags that the bits of a branch choose.
fn chosen_flags(bits: u8) -> Reads
    ensures { result.items ≡ spelled_chosen bits }
{
    let mut list = Reads::new();
    if bits % 2 == 1 {
        list.push(Part::Sign);
    }
    if bits / 2 % 2 == 1 {
        list.push(Part::Carry);
    }
    if bits / 4 % 2 == 1 {
        list.push(Part::Zero);
    }
    if bits / 8 % 2 == 1 {
        list.push(Part::Overflow);
    }
    list
}

/// What an instruction reads.
#[tactic(auto, unfolding(crate::specs::Effects::parts_read))]
pub fn parts_read(op: Op) -> Reads
    ensures { result.items ≡ spelled_reads op }
{
    match op {
        Op::LrAKu => reads(&[Part::Register(K)]),
        Op::LrAKl => reads(&[Part::Register(K + 1)]),
        Op::LrAQu => reads(&[Part::Register(Q)]),
        Op::LrAQl => reads(&[Part::Register(Q + 1)]),
        Op::LrPK | Op::Pk => pair(K),
        Op::LrP0Q | Op::LrDcQ => pair(Q),
        Op::LrDcH => pair(H),
        Op::LrWJ => reads(&[Part::Register(J)]),
        Op::LrAIs | Op::Lisu { .. } | Op::Lisl { .. } | Op::Br7 => reads(&[Part::Isar]),
        Op::LrQDc | Op::LrHDc | Op::Lm | Op::St => reads(&[Part::DataCounter]),
        Op::LrKuA | Op::LrKlA | Op::LrQuA | Op::LrQlA | Op::LrIsA => reads(&[Part::Accumulator]),
        Op::Sr1 | Op::Sl1 | Op::Sr4 | Op::Sl4 | Op::Com | Op::Inc => reads(&[Part::Accumulator]),
        Op::Ni | Op::Oi | Op::Xi | Op::Ai | Op::Ci => reads(&[Part::Accumulator]),
        Op::Lnk => reads(&[Part::Accumulator, Part::Carry]),
        Op::LrJW => reads(&[
            Part::Sign,
            Part::Carry,
            Part::Zero,
            Part::Overflow,
            Part::Icb,
        ]),
        Op::Am | Op::Amd | Op::Nm | Op::Om | Op::Xm | Op::Cm | Op::Adc => {
            reads(&[Part::DataCounter, Part::Accumulator])
        },
        Op::Ds { r: number } | Op::LrAR { r: number } => field(number),
        Op::LrRA { r: number } => accumulator_to(number),
        Op::As { r: number }
        | Op::Asd { r: number }
        | Op::Xs { r: number }
        | Op::Ns { r: number } => field_and_accumulator(number),
        Op::Bt { t: bits } | Op::Bf { t: bits } => chosen_flags(bits),
        _ => Reads::new(),
    }
}
