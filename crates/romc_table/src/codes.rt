// The codes of a bus step, each with its name.
ghost use Rattle.std.specs.Prelude.{◌≡◌, ℕ, ◌<◌, SomeIff};

use std::marker::Model;

/// The code of a bus step, ROMC: a number below 32 (Mostek 3850 data sheet, ROMC states). Contracts see the number.
#[derive(Clone, Copy, Debug, PartialEq, Eq)]
pub struct Romc {
    number: u8,
}

impl Model for Romc {
    ghost use Rattle.std.specs.Prelude.{ℕ, ◌<◌};

    ghost Value = { ℕ };

    ghost view = { λ r. r.number };

    ghost invariant = { λ r. r.number < 32 };

    ghost inverse = { λ n. record { number = n } };
}

impl Romc {
    /// Code 00: the fetch of an opcode. The program counter moves on.
    pub const FETCH: Romc = Romc { number: 0x00 };

    /// Code 01: the displacement byte of a branch that is taken, which the program counter gains.
    pub const DISPLACEMENT: Romc = Romc { number: 0x01 };

    /// Code 02: the byte at the data counter, which moves on.
    pub const READ_DATA: Romc = Romc { number: 0x02 };

    /// Code 03: an operand byte. The program counter moves on.
    pub const OPERAND: Romc = Romc { number: 0x03 };

    /// Code 04: the program counter becomes the stack register.
    pub const RETURN: Romc = Romc { number: 0x04 };

    /// Code 05: a store at the data counter, which moves on.
    pub const STORE_DATA: Romc = Romc { number: 0x05 };

    /// Code 06: the high byte of the data counter.
    pub const TELL_DATA_HIGH: Romc = Romc { number: 0x06 };

    /// Code 07: the high byte of the stack register.
    pub const TELL_STACK_HIGH: Romc = Romc { number: 0x07 };

    /// Code 08: reset. The program counter goes to the stack register, and is 0.
    pub const RESET: Romc = Romc { number: 0x08 };

    /// Code 09: the low byte of the data counter.
    pub const TELL_DATA_LOW: Romc = Romc { number: 0x09 };

    /// Code 0A: a signed byte, which the data counter gains.
    pub const ADD_DATA: Romc = Romc { number: 0x0A };

    /// Code 0B: the low byte of the stack register.
    pub const TELL_STACK_LOW: Romc = Romc { number: 0x0B };

    /// Code 0C: the byte at the program counter, which becomes its own low byte.
    pub const JUMP_LOW: Romc = Romc { number: 0x0C };

    /// Code 0D: the stack register becomes the address after the program counter.
    pub const SAVE_NEXT: Romc = Romc { number: 0x0D };

    /// Code 0E: the byte at the program counter, which becomes the low byte of the data counter.
    pub const LOAD_DATA_LOW: Romc = Romc { number: 0x0E };

    /// Code 0F: the low byte of the acknowledged chip's vector. The program counter goes to the stack register, and gains the byte as
    /// its low one.
    pub const VECTOR_LOW: Romc = Romc { number: 0x0F };

    /// Code 10: an interrupt is acknowledged. No counter moves.
    pub const ACKNOWLEDGE: Romc = Romc { number: 0x10 };

    /// Code 11: the byte at the program counter, which becomes the high byte of the data counter.
    pub const LOAD_DATA_HIGH: Romc = Romc { number: 0x11 };

    /// Code 12: the program counter goes to the stack register, and the byte becomes its low one.
    pub const CALL_LOW: Romc = Romc { number: 0x12 };

    /// Code 13: the high byte of the acknowledged chip's vector, which becomes that of the program counter. The request ends.
    pub const VECTOR_HIGH: Romc = Romc { number: 0x13 };

    /// Code 14: the high byte of the program counter.
    pub const SET_PROGRAM_HIGH: Romc = Romc { number: 0x14 };

    /// Code 15: the high byte of the stack register.
    pub const SET_STACK_HIGH: Romc = Romc { number: 0x15 };

    /// Code 16: the high byte of the data counter.
    pub const SET_DATA_HIGH: Romc = Romc { number: 0x16 };

    /// Code 17: the low byte of the program counter.
    pub const SET_PROGRAM_LOW: Romc = Romc { number: 0x17 };

    /// Code 18: the low byte of the stack register.
    pub const SET_STACK_LOW: Romc = Romc { number: 0x18 };

    /// Code 19: the low byte of the data counter.
    pub const SET_DATA_LOW: Romc = Romc { number: 0x19 };

    /// Code 1A: a write to the port that the last byte names.
    pub const WRITE_PORT: Romc = Romc { number: 0x1A };

    /// Code 1B: a read of the port that the last byte names.
    pub const READ_PORT: Romc = Romc { number: 0x1B };

    /// Code 1C: no counter moves. The CPU works by itself, or names a port.
    pub const IDLE: Romc = Romc { number: 0x1C };

    /// Code 1D: the two data counters change places.
    pub const EXCHANGE: Romc = Romc { number: 0x1D };

    /// Code 1E: the low byte of the program counter.
    pub const TELL_PROGRAM_LOW: Romc = Romc { number: 0x1E };

    /// Code 1F: the high byte of the program counter.
    pub const TELL_PROGRAM_HIGH: Romc = Romc { number: 0x1F };

    /// The code with this number, and `None` from 32 on.
    pub fn of(number: u8) -> Option<Romc>
        ensures { SomeIff result (number < 32) number }
    {
        if number < 32 {
            Some(Romc { number })
        } else {
            None
        }
    }

    /// The number of the code, below 32.
    pub fn number(self) -> u8
        ensures value { result ≡ self }
        ensures below { result < 32 }
    {
        self.number
    }
}
