// Opcodes and their instructions, both ways.
ghost use Rattle.std.specs.Prelude.{◌≡◌, ◌↔◌, IsErr, IfErr, IfOk, IfSome, IfNone};
ghost use Rattle.std.specs.Result.{result_ok};
ghost use Rattle.f8_spec.specs.Instructions.{InRange, IsReserved, encoded, decoded};

use f8_spec::Op;
use thiserror::Error;

/// An opcode that no instruction has: 2D, 2E, 2F, 3F, 4F, 5F, A2, A3, B2, B3, CF, DF, EF and FF. The list is this project's own.
#[derive(Clone, Copy, Debug, PartialEq, Eq, Error)]
#[error("the opcode {code:02X} is reserved")]
pub struct Reserved {
    pub code: u8,
}

/// The instruction with the opcode `code`, its fields in their ranges, or [`Reserved`] with that code exactly where no
/// instruction has it (Fairchild F8 User's Guide, instruction set).
#[tactic(auto, using(crate::proofs::OpcodeTable::opcode_laws))]
pub fn decode(code: u8) -> Result<Op, Reserved>
    ensures decoded { result_ok result ≡ decoded code }
    ensures in_range { IfOk result InRange }
    ensures back { IfOk result (λ op. encoded op ≡ code) }
    ensures reserved { IsErr result ↔ IsReserved code }
    ensures which { IfErr result (λ error. error.code ≡ code) }
{
    instruction_of(code).ok_or(Reserved { code })
}

/// The opcode of an instruction whose fields lie in their ranges; `decode` of it gives the instruction back.
#[tactic(auto, using(crate::proofs::OpcodeTable::opcode_laws))]
pub fn encode(op: Op) -> u8
    requires { InRange op }
    ensures code { result ≡ encoded op }
    ensures back { decoded result ≡ Some op }
{
    opcode_of(op)
}

fn instruction_of(code: u8) -> Option<Op>
    ensures in_range { IfSome result InRange }
    ensures back { IfSome result (λ op. encoded op ≡ code) }
    ensures reserved { IfNone result (IsReserved code) }
{
    let op = match code {
        0x00 => Op::LrAKu,
        0x01 => Op::LrAKl,
        0x02 => Op::LrAQu,
        0x03 => Op::LrAQl,
        0x04 => Op::LrKuA,
        0x05 => Op::LrKlA,
        0x06 => Op::LrQuA,
        0x07 => Op::LrQlA,
        0x08 => Op::LrKP,
        0x09 => Op::LrPK,
        0x0A => Op::LrAIs,
        0x0B => Op::LrIsA,
        0x0C => Op::Pk,
        0x0D => Op::LrP0Q,
        0x0E => Op::LrQDc,
        0x0F => Op::LrDcQ,
        0x10 => Op::LrDcH,
        0x11 => Op::LrHDc,
        0x12 => Op::Sr1,
        0x13 => Op::Sl1,
        0x14 => Op::Sr4,
        0x15 => Op::Sl4,
        0x16 => Op::Lm,
        0x17 => Op::St,
        0x18 => Op::Com,
        0x19 => Op::Lnk,
        0x1A => Op::Di,
        0x1B => Op::Ei,
        0x1C => Op::Pop,
        0x1D => Op::LrWJ,
        0x1E => Op::LrJW,
        0x1F => Op::Inc,
        0x20 => Op::Li,
        0x21 => Op::Ni,
        0x22 => Op::Oi,
        0x23 => Op::Xi,
        0x24 => Op::Ai,
        0x25 => Op::Ci,
        0x26 => Op::In,
        0x27 => Op::Out,
        0x28 => Op::Pi,
        0x29 => Op::Jmp,
        0x2A => Op::Dci,
        0x2B => Op::Nop,
        0x2C => Op::Xdc,
        0x30..=0x3E => Op::Ds { r: code - 0x30 },
        0x40..=0x4E => Op::LrAR { r: code - 0x40 },
        0x50..=0x5E => Op::LrRA { r: code - 0x50 },
        0x60..=0x67 => Op::Lisu { n: code - 0x60 },
        0x68..=0x6F => Op::Lisl { n: code - 0x68 },
        0x70..=0x7F => Op::Lis { n: code - 0x70 },
        0x80..=0x87 => Op::Bt { t: code - 0x80 },
        0x88 => Op::Am,
        0x89 => Op::Amd,
        0x8A => Op::Nm,
        0x8B => Op::Om,
        0x8C => Op::Xm,
        0x8D => Op::Cm,
        0x8E => Op::Adc,
        0x8F => Op::Br7,
        0x90..=0x9F => Op::Bf { t: code - 0x90 },
        0xA0..=0xA1 | 0xA4..=0xAF => Op::Ins { n: code - 0xA0 },
        0xB0..=0xB1 | 0xB4..=0xBF => Op::Outs { n: code - 0xB0 },
        0xC0..=0xCE => Op::As { r: code - 0xC0 },
        0xD0..=0xDE => Op::Asd { r: code - 0xD0 },
        0xE0..=0xEE => Op::Xs { r: code - 0xE0 },
        0xF0..=0xFE => Op::Ns { r: code - 0xF0 },
        _ => return None,
    };
    Some(op)
}

fn opcode_of(op: Op) -> u8
    requires { InRange op }
    ensures { result ≡ encoded op }
{
    match op {
        Op::LrAKu => 0x00,
        Op::LrAKl => 0x01,
        Op::LrAQu => 0x02,
        Op::LrAQl => 0x03,
        Op::LrKuA => 0x04,
        Op::LrKlA => 0x05,
        Op::LrQuA => 0x06,
        Op::LrQlA => 0x07,
        Op::LrKP => 0x08,
        Op::LrPK => 0x09,
        Op::LrAIs => 0x0A,
        Op::LrIsA => 0x0B,
        Op::Pk => 0x0C,
        Op::LrP0Q => 0x0D,
        Op::LrQDc => 0x0E,
        Op::LrDcQ => 0x0F,
        Op::LrDcH => 0x10,
        Op::LrHDc => 0x11,
        Op::Sr1 => 0x12,
        Op::Sl1 => 0x13,
        Op::Sr4 => 0x14,
        Op::Sl4 => 0x15,
        Op::Lm => 0x16,
        Op::St => 0x17,
        Op::Com => 0x18,
        Op::Lnk => 0x19,
        Op::Di => 0x1A,
        Op::Ei => 0x1B,
        Op::Pop => 0x1C,
        Op::LrWJ => 0x1D,
        Op::LrJW => 0x1E,
        Op::Inc => 0x1F,
        Op::Li => 0x20,
        Op::Ni => 0x21,
        Op::Oi => 0x22,
        Op::Xi => 0x23,
        Op::Ai => 0x24,
        Op::Ci => 0x25,
        Op::In => 0x26,
        Op::Out => 0x27,
        Op::Pi => 0x28,
        Op::Jmp => 0x29,
        Op::Dci => 0x2A,
        Op::Nop => 0x2B,
        Op::Xdc => 0x2C,
        Op::Ds { r } => 0x30 + r,
        Op::LrAR { r } => 0x40 + r,
        Op::LrRA { r } => 0x50 + r,
        Op::Lisu { n } => 0x60 + n,
        Op::Lisl { n } => 0x68 + n,
        Op::Lis { n } => 0x70 + n,
        Op::Bt { t } => 0x80 + t,
        Op::Am => 0x88,
        Op::Amd => 0x89,
        Op::Nm => 0x8A,
        Op::Om => 0x8B,
        Op::Xm => 0x8C,
        Op::Cm => 0x8D,
        Op::Adc => 0x8E,
        Op::Br7 => 0x8F,
        Op::Bf { t } => 0x90 + t,
        Op::Ins { n } => 0xA0 + n,
        Op::Outs { n } => 0xB0 + n,
        Op::As { r } => 0xC0 + r,
        Op::Asd { r } => 0xD0 + r,
        Op::Xs { r } => 0xE0 + r,
        Op::Ns { r } => 0xF0 + r,
    }
}
