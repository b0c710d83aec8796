// The 3861 in whole runs, on chips that hear: its ports and its interrupt.
use super::calls::{Row, SERVED, Text};
use super::seats::{HI, HP, HS, Seat, check_rows};
use std::test::Fail;

/// LI 0F, OUTS 8, INS 8, and a branch to itself: the 3861 takes the write and answers the read.
const PORT_CART: &str = "format = 2\n\
     [[chip]]\nkind = '3851'\nbase = 0\nports = 4\nrom = '200FB8A890FF'\n\
     [[chip]]\nkind = '3861'\nports = 8\n";

/// The same, and both chips have the port.
const SHARED_CART: &str = "format = 2\n\
     [[chip]]\nkind = '3851'\nbase = 0\nports = 8\nrom = '200FB8A890FF'\n\
     [[chip]]\nkind = '3861'\nports = 8\n";

const PORT_SCRIPT: &str = "at 0 keys 08 30\nsteps 3\n";

/// A pulse to the 3861, which is described first. Its vector leads to EI and POP.
const PULSE_CART: &str = "format = 2\n\
     [[chip]]\nkind = '3861'\nports = 8\nvector = 0x0100\ninterrupt = true\n\
     [[chip]]\nkind = '3851'\nbase = 0\nports = 4\nsource = 'loop.f8'\n";

const PULSE_SOURCE: &str =
    " ORG 0\n DB $71,$BA,$1B,$90,$FF\n ORG $100\n DB $1B,$1C\n ORG $180\n DB $1B,$1C\n";

/// A pulse comes at the end of a branch at Φ 29,834, the 2,131st instruction. In the branch behind it the 3861 alone drives both halves of its vector, of which a pulse sets bit 7.
const PULSE_TRACE_END: &str = "\
     bus 1C S 00 -\nbus 01 L FF 0\n\
     bus 10 L 00 -\nbus 1C S 00 -\nbus 0F L 80 14\nbus 13 L 01 14\nbus 00 S 1B 0\n\
     stop done\n\
     regs P=0180 P1=0003 D0=0000 D1=0000 A=01 IS=00 W=00\n\
     s00 00 00 00 00 00 00 00 00 00 00 00 00 00 00 00 00\n\
     s10 00 00 00 00 00 00 00 00 00 00 00 00 00 00 00 00\n\
     s20 00 00 00 00 00 00 00 00 00 00 00 00 00 00 00 00\n\
     s30 00 00 00 00 00 00 00 00 00 00 00 00 00 00 00 00\n\
     total 2132 instructions 29870 phi\n";

/// A port, a port of two chips, and a pulse without the trace and with it.
static RUNS: [Row; 4] = [
    Row {
        files: &[("cart", PORT_CART), ("script", PORT_SCRIPT)],
        words: &["play", "cart", "script"],
        text: Text::All(
            "verdict whole\n\
             out 40 08 0F\n\
             stop done\n\
             regs P=0004 P1=0000 D0=0000 D1=0000 A=3F IS=00 W=01\n\
             s00 00 00 00 00 00 00 00 00 00 00 00 00 00 00 00 00\n\
             s10 00 00 00 00 00 00 00 00 00 00 00 00 00 00 00 00\n\
             s20 00 00 00 00 00 00 00 00 00 00 00 00 00 00 00 00\n\
             s30 00 00 00 00 00 00 00 00 00 00 00 00 00 00 00 00\n\
             total 3 instructions 56 phi\n",
        ),
        ..SERVED
    },
    Row {
        files: &[("cart", SHARED_CART), ("script", PORT_SCRIPT)],
        words: &["play", "cart", "script"],
        status: 3,
        text: Text::All(
            "verdict none\n\
             stop conflict romc 1A socket 0 at 0008 socket 14 at 0008\n\
             regs P=0002 P1=0000 D0=0000 D1=0000 A=0F IS=00 W=00\n\
             s00 00 00 00 00 00 00 00 00 00 00 00 00 00 00 00 00\n\
             s10 00 00 00 00 00 00 00 00 00 00 00 00 00 00 00 00\n\
             s20 00 00 00 00 00 00 00 00 00 00 00 00 00 00 00 00\n\
             s30 00 00 00 00 00 00 00 00 00 00 00 00 00 00 00 00\n\
             total 1 instructions 24 phi\n",
        ),
        ..SERVED
    },
    Row {
        files: &[
            ("cart", PULSE_CART),
            ("loop.f8", PULSE_SOURCE),
            ("script", "at 1 pulse 0\nframes 2\n"),
        ],
        words: &["play", "cart", "script"],
        text: Text::All(
            "verdict whole\n\
             out 34 0A 01\n\
             stop done\n\
             regs P=0003 P1=0003 D0=0000 D1=0000 A=01 IS=00 W=10\n\
             s00 00 00 00 00 00 00 00 00 00 00 00 00 00 00 00 00\n\
             s10 00 00 00 00 00 00 00 00 00 00 00 00 00 00 00 00\n\
             s20 00 00 00 00 00 00 00 00 00 00 00 00 00 00 00 00\n\
             s30 00 00 00 00 00 00 00 00 00 00 00 00 00 00 00 00\n\
             total 4261 instructions 59664 phi\n",
        ),
        ..SERVED
    },
    Row {
        files: &[
            ("cart", PULSE_CART),
            ("loop.f8", PULSE_SOURCE),
            ("script", "at 1 pulse 0\nsteps 2132\n"),
        ],
        words: &["play", "--trace", "cart", "script"],
        text: Text::Between("verdict whole\n", PULSE_TRACE_END),
        ..SERVED
    },
];

/// As many chips of each kind as in the program's rack, and they hear each of the steps.
static HEARING: [Seat; 16] = [
    HP, HP, HP, HP, HP, HP, HP, HP, HP, HP, HP, HP, HS, HS, HI, HI,
];

#[test]
fn plays_a_3861_on_listeners(rt: HostRuntime) -> Result<(), Fail> {
    check_rows(&rt, rt.alloc(), &HEARING, &RUNS)
}
