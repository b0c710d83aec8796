// A line of a certificate: a point with the state that holds there.
ghost use Rattle.std.specs.Prelude.{◌≡◌, ◌<◌, ◌≤◌, ◌-◌, Option, Some, None, option_map, IfSome, length, map, codes};
ghost use Rattle.std.specs.Option.{ForSome};
ghost use Rattle.abs_domain.specs.KnownParts.{known_byte, known_digit};
ghost use Rattle.abs_domain.specs.StateView.{status_of, state_of};
ghost use Rattle.certificate.specs.Answers.{Gives};
ghost use Rattle.certificate.specs.Parts.{behind as spelled_behind, bytes_at as spelled_bytes};
ghost use Rattle.certificate.specs.Parts.{values_at as spelled_values};
ghost use Rattle.certificate.specs.Entries.{point_at as spelled_point, isar_at as spelled_isar};
ghost use Rattle.certificate.specs.Entries.{status_at as spelled_status};
ghost use Rattle.certificate.specs.Entries.{counters_at as spelled_counters, entry_of as spelled_entry};
ghost use Rattle.certificate.specs.EntryView.{counters_view};

use super::parts::{
    address_at, behind, bit_at, bytes_at, known_address_at, known_bit_at, known_byte_at,
    known_octal_at,
};
use abs_domain::{Abs, Bit, Digit, MOST_TRACKED, Point, SCRATCHPAD_SIZE, Val, Word};

/// What a state says of the data counters.
#[derive(Clone, Copy)]
pub struct Counters {
    pub d0: Word,
    pub d1: Word,
    pub c: Word,
    pub s0: bool,
    pub s1: bool,
    pub p0: bool,
    pub p1: bool,
}

/// What stands behind a blank.
fn field(text: &[u8]) -> Option<&[u8]>
    ensures { Gives (λ rest. rest.now) result (spelled_behind (codes " ") text.now) }
{
    behind(b" ", text)
}

/// Fills a list with the bytes of tracked registers, which commas part. A full stop stands for none.
#[tactic(auto, unfolding(crate::specs::Parts::values_at))]
fn values_at<'a>(values: &mut [Option<u8>], text: &'a [u8]) -> Option<&'a [u8]>
    ensures { Gives (λ rest. (values.new, rest.now)) result
        (spelled_values (length values.old) text.now) }
{
    if values.is_empty() {
        return behind(b".", text);
    }
    let (first, rest) = known_byte_at(text)?;
    values[0] = first;
    bytes_at(b",", &mut values[1..], rest)
}

/// A point, with the bytes of so many tracked registers.
#[tactic(auto, unfolding(crate::specs::Entries::point_at))]
fn point_at(tracked: usize, text: &[u8]) -> Option<(Point, &[u8])>
    requires { tracked ≤ 8 }
    ensures { Gives (λ x. (x.0, x.1.now)) result (spelled_point tracked text.now) }
{
    let (at, rest) = address_at(text)?;
    let (ret, rest) = known_address_at(field(rest)?)?;
    let mut split = [None; MOST_TRACKED];
    let rest = values_at(&mut split[..tracked], field(rest)?)?;
    Some((Point { at, ret, split }, rest))
}

/// Both digits of ISAR.
#[tactic(auto, unfolding(crate::specs::Entries::isar_at))]
fn isar_at(text: &[u8]) -> Option<((Digit, Digit), &[u8])>
    ensures value { Gives (λ x. ((known_digit x.0.0, known_digit x.0.1), x.1.now)) result
        (spelled_isar text.now) }
    ensures high { IfSome result (λ x. ForSome (known_digit x.0.0) (λ digit. digit < 8)) }
    ensures low { IfSome result (λ x. ForSome (known_digit x.0.1) (λ digit. digit < 8)) }
{
    let (high, rest) = known_octal_at(text)?;
    let (low, rest) = known_octal_at(rest)?;
    Some(((Digit::from(high), Digit::from(low)), rest))
}

/// The five bits of the status word, from bit 0 on.
#[tactic(auto, unfolding(crate::specs::Entries::status_at))]
fn status_at(text: &[u8]) -> Option<([Bit; 5], &[u8])>
    ensures { Gives (λ x. (status_of x.0, x.1.now)) result (spelled_status text.now) }
{
    let (sign, rest) = known_bit_at(text)?;
    let (carry, rest) = known_bit_at(rest)?;
    let (zero, rest) = known_bit_at(rest)?;
    let (overflow, rest) = known_bit_at(rest)?;
    let (icb, rest) = known_bit_at(rest)?;
    let bits = [
        Bit::from(sign),
        Bit::from(carry),
        Bit::from(zero),
        Bit::from(overflow),
        Bit::from(icb),
    ];
    Some((bits, rest))
}

/// The data counters with the facts about them.
#[tactic(auto, unfolding(crate::specs::Entries::counters_at))]
fn counters_at(text: &[u8]) -> Option<(Counters, &[u8])>
    ensures { Gives (λ x. (counters_view x.0, x.1.now)) result (spelled_counters text.now) }
{
    let (d0, rest) = known_address_at(text)?;
    let (d1, rest) = known_address_at(field(rest)?)?;
    let (c, rest) = known_address_at(field(rest)?)?;
    let (s0, rest) = bit_at(field(rest)?)?;
    let (s1, rest) = bit_at(rest)?;
    let (p0, rest) = bit_at(rest)?;
    let (p1, rest) = bit_at(rest)?;
    let counters = Counters {
        d0: Word::from(d0),
        d1: Word::from(d1),
        c: Word::from(c),
        s0,
        s1,
        p0,
        p1,
    };
    Some((counters, rest))
}

/// Registers by their bytes.
fn registers_of(bytes: &[Option<u8>; SCRATCHPAD_SIZE]) -> [Val; SCRATCHPAD_SIZE]
    ensures { map known_byte result ≡ bytes.now }
{
    let mut registers = [Val::Any; SCRATCHPAD_SIZE];
    for number in 0..SCRATCHPAD_SIZE {
        registers[number] = Val::from(bytes[number]);
    }
    registers
}

/// The scratchpad.
fn scratchpad_at(text: &[u8]) -> Option<([Val; SCRATCHPAD_SIZE], &[u8])>
    ensures { Gives (λ x. (map known_byte x.0, x.1.now)) result
        (spelled_bytes (codes "") 64 text.now) }
{
    let mut bytes = [None; SCRATCHPAD_SIZE];
    let rest = bytes_at(b"", &mut bytes, text)?;
    Some((registers_of(&bytes), rest))
}

/// The point and the state of a line without its end, where so many registers are tracked.
#[tactic(auto, unfolding(crate::specs::Entries::entry_of))]
pub fn entry_of(tracked: usize, line: &[u8]) -> Option<(Point, Abs)>
    requires { tracked ≤ 8 }
    ensures { option_map (λ x. (x.0, state_of x.1)) result ≡ spelled_entry tracked line.now }
{
    let (point, rest) = point_at(tracked, line)?;
    let (a, rest) = known_byte_at(field(rest)?)?;
    let ((hi, lo), rest) = isar_at(field(rest)?)?;
    let (w, rest) = status_at(field(rest)?)?;
    let (counters, rest) = counters_at(field(rest)?)?;
    let (regs, rest) = scratchpad_at(field(rest)?)?;
    if !rest.is_empty() {
        return None;
    }
    let state = Abs {
        a: Val::from(a),
        regs,
        hi,
        lo,
        w,
        d0: counters.d0,
        d1: counters.d1,
        c: counters.c,
        s0: counters.s0,
        s1: counters.s1,
        p0: counters.p0,
        p1: counters.p1,
    };
    Some((point, state))
}
