// The names of the instructions.
ghost use Rattle.std.specs.Prelude.{◌≡◌};
ghost use Rattle.f8_spec.specs.Instructions.{mnemonic_of};

use f8_spec::Op;

/// The first word of an instruction as it is written, in capitals, such as `LR` or `BR7` (Fairchild F8 User's Guide, instruction
/// set).
#[tactic(auto, unfolding(f8_spec::specs::Instructions::mnemonic_of))]
pub fn name(op: Op) -> &'static str
    ensures { result.now ≡ mnemonic_of op }
{
    match op {
        Op::LrAKu
        | Op::LrAKl
        | Op::LrAQu
        | Op::LrAQl
        | Op::LrKuA
        | Op::LrKlA
        | Op::LrQuA
        | Op::LrQlA
        | Op::LrKP
        | Op::LrPK
        | Op::LrAIs
        | Op::LrIsA
        | Op::LrP0Q
        | Op::LrQDc
        | Op::LrDcQ
        | Op::LrDcH
        | Op::LrHDc
        | Op::LrWJ
        | Op::LrJW
        | Op::LrAR { .. }
        | Op::LrRA { .. } => "LR",
        Op::Pk => "PK",
        Op::Sr1 | Op::Sr4 => "SR",
        Op::Sl1 | Op::Sl4 => "SL",
        Op::Lm => "LM",
        Op::St => "ST",
        Op::Com => "COM",
        Op::Lnk => "LNK",
        Op::Di => "DI",
        Op::Ei => "EI",
        Op::Pop => "POP",
        Op::Inc => "INC",
        Op::Li => "LI",
        Op::Ni => "NI",
        Op::Oi => "OI",
        Op::Xi => "XI",
        Op::Ai => "AI",
        Op::Ci => "CI",
        Op::In => "IN",
        Op::Out => "OUT",
        Op::Pi => "PI",
        Op::Jmp => "JMP",
        Op::Dci => "DCI",
        Op::Nop => "NOP",
        Op::Xdc => "XDC",
        Op::Ds { .. } => "DS",
        Op::Lisu { .. } => "LISU",
        Op::Lisl { .. } => "LISL",
        Op::Lis { .. } => "LIS",
        Op::Bt { .. } => "BT",
        Op::Am => "AM",
        Op::Amd => "AMD",
        Op::Nm => "NM",
        Op::Om => "OM",
        Op::Xm => "XM",
        Op::Cm => "CM",
        Op::Adc => "ADC",
        Op::Br7 => "BR7",
        Op::Bf { .. } => "BF",
        Op::Ins { .. } => "INS",
        Op::Outs { .. } => "OUTS",
        Op::As { .. } => "AS",
        Op::Asd { .. } => "ASD",
        Op::Xs { .. } => "XS",
        Op::Ns { .. } => "NS",
    }
}
