// Opcodes both ways, clocks and lengths, and shielding.
use f8_ops::{Op, Reserved, Row, decode, encode, length, phi, row_of, shields};

/// The first and the last opcode of ranges beside reserved ones.
const OPCODES: [(u8, Result<Op, Reserved>); 7] = [
    (0x2B, Ok(Op::Nop)),
    (0x3E, Ok(Op::Ds { r: 14 })),
    (0x7F, Ok(Op::Lis { n: 15 })),
    (0x90, Ok(Op::Bf { t: 0 })),
    (0xA4, Ok(Op::Ins { n: 4 })),
    (0xB1, Ok(Op::Outs { n: 1 })),
    (0xA2, Err(Reserved { code: 0xA2 })),
];

/// Instructions, whether a branch is taken, and their clocks and bytes.
const LENGTHS: [(Op, bool, u8, u8); 10] = [
    (Op::Nop, false, 4, 1),
    (Op::Ds { r: 0 }, false, 6, 1),
    (Op::Bf { t: 0 }, true, 14, 2),
    (Op::Bt { t: 0 }, false, 12, 2),
    (Op::Br7, true, 10, 2),
    (Op::Br7, false, 8, 2),
    (Op::Outs { n: 1 }, false, 8, 1),
    (Op::Outs { n: 4 }, false, 16, 1),
    (Op::Dci, false, 24, 3),
    (Op::Pi, false, 26, 3),
];

#[test]
fn opcodes_both_ways(rt: HostRuntime) {
    for (code, decoded) in OPCODES {
        assert!(rt; decode(code) == decoded, "at {code}");
    }
    assert!(rt; encode(Op::Ns { r: 14 }) == 0xFE);
}

#[test]
fn clocks_and_lengths(rt: HostRuntime) {
    for (op, taken, clocks, bytes) in LENGTHS {
        assert!(rt;
            [phi(op, taken), length(op)] == [clocks, bytes],
            "of {op:?}"
        );
    }
    assert!(rt; row_of(Op::Xdc) == Row::Exchange);
}

#[test]
fn shielding_instructions(rt: HostRuntime) {
    assert!(rt; shields(Op::Ei));
    assert!(rt; !shields(Op::Di));
    assert!(rt; !shields(Op::Outs { n: 1 }));
}
