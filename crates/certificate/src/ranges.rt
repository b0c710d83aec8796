// What the types of a point and a state tell of them: all that is known is within its range. The calls do nothing; their contracts are laws.
ghost use Rattle.std.specs.Prelude.{◌<◌, map};
ghost use Rattle.std.specs.Option.{ForSome};
ghost use Rattle.abs_domain.specs.KnownParts.{known_byte, known_word};
ghost use Rattle.abs_domain.specs.StateView.{state_of};
ghost use Rattle.certificate.specs.CertificateLaws.{AreKnownBytes, IsInRange};

use abs_domain::{Abs, Point, SCRATCHPAD_SIZE, Val, Word};

#[inline]
fn byte_law(val: Val)
    ensures { ForSome (known_byte val) (λ byte. byte < 256) }
{}

fn word_law(word: Word)
    ensures { ForSome (known_word word) (λ at. at < 65536) }
{}

fn address_law(at: u16)
    ensures { at < 65536 }
{}

fn return_law(ret: Option<u16>)
    ensures { ForSome ret (λ at. at < 65536) }
{}

#[inline]
fn registers_law(registers: &[Val; SCRATCHPAD_SIZE])
    ensures { AreKnownBytes (map known_byte registers.now) }
{
    for register in registers {
        byte_law(*register);
    }
}

/// All that is known at a point is within its range.
#[inline]
pub fn entry_law(point: &Point, state: &Abs)
    ensures { IsInRange (point.now, state_of state.now) }
{
    address_law(point.at);
    return_law(point.ret);
    byte_law(state.a);
    registers_law(&state.regs);
    word_law(state.d0);
    word_law(state.d1);
    word_law(state.c);
}
