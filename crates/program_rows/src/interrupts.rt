// Interrupts on chips that hear, with the trace: that of a timer, and those of two pulses which come at one frame.
use super::calls::{Row, SERVED, Text};
use super::seats::{HP, Seat, check_rows};
use std::test::Fail;

/// The timer expires before EI ends, which shields its own end: the NOP behind it is followed by the vector.
const TIMER_CART: &str = "format = 1\n\
     [[chip]]\nkind = '3851'\nbase = 0\nports = 4\nvector = 0x0180\ninterrupt = true\n\
     rom = '73B6207FB72B2B2B2B2B2B2B1B2B'\n";

const TIMER_SCRIPT: &str = "steps 13\n";

const TIMER_TRACE: &str = "verdict none\n\
     bus 1C S 00 -\nbus 08 L 00 cpu\nbus 00 S 73 0\n\
     bus 00 S B6 0\n\
     bus 1C L 06 cpu\nbus 1A L 03 cpu\nbus 00 S 20 0\n\
     out 34 06 03\n\
     bus 03 L 7F 0\nbus 00 S B7 0\n\
     bus 1C L 07 cpu\nbus 1A L 7F cpu\nbus 00 S 2B 0\n\
     out 60 07 7F\n\
     bus 00 S 2B 0\nbus 00 S 2B 0\nbus 00 S 2B 0\n\
     bus 00 S 2B 0\nbus 00 S 2B 0\nbus 00 S 2B 0\n\
     bus 00 S 1B 0\n\
     bus 1C S 00 -\nbus 00 S 2B 0\n\
     bus 10 L 00 -\nbus 1C S 00 -\nbus 0F L 00 0\nbus 13 L 01 0\nbus 00 S FF 0\n\
     stop done\n\
     regs P=0100 P1=000E D0=0000 D1=0000 A=7F IS=00 W=00\n\
     s00 00 00 00 00 00 00 00 00 00 00 00 00 00 00 00 00\n\
     s10 00 00 00 00 00 00 00 00 00 00 00 00 00 00 00 00\n\
     s20 00 00 00 00 00 00 00 00 00 00 00 00 00 00 00 00\n\
     s30 00 00 00 00 00 00 00 00 00 00 00 00 00 00 00 00\n\
     total 13 instructions 122 phi\n";

/// Both chips ask at one end: the first of the description is taken, and the second behind EI and POP at 0180.
const PULSES_CART: &str = "format = 1\n\
     [[chip]]\nkind = '3851'\nbase = 0\nports = 4\nvector = 0x0100\ninterrupt = true\nsource = 'loop.f8'\n\
     [[chip]]\nkind = '3851'\nbase = 0x400\nports = 8\nvector = 0x0200\ninterrupt = true\nrom = ''\n";

const PULSES_SOURCE: &str =
    " ORG $0000\n DB $71, $B6, $BA, $1B, $90, $FF\n ORG $0180\n DB $1B, $1C\n";

const PULSES_SCRIPT: &str = "at 1 pulse 1\nat 1 pulse 0\nsteps 2135\n";

/// The last four instructions: a branch, EI and POP of the first chip's vector, and the same branch once more.
const PULSES_TRACE_END: &str = "\
     bus 1C S 00 -\nbus 01 L FF 0\n\
     bus 10 L 00 -\nbus 1C S 00 -\nbus 0F L 80 0\nbus 13 L 01 0\nbus 00 S 1B 0\n\
     bus 1C S 00 -\nbus 00 S 1C 0\n\
     bus 04 S 00 -\nbus 00 S 90 0\n\
     bus 1C S 00 -\nbus 01 L FF 0\n\
     bus 10 L 00 -\nbus 1C S 00 -\nbus 0F L 80 1\nbus 13 L 02 1\nbus 00 S FF 0\n\
     stop done\n\
     regs P=0280 P1=0004 D0=0000 D1=0000 A=01 IS=00 W=00\n\
     s00 00 00 00 00 00 00 00 00 00 00 00 00 00 00 00 00\n\
     s10 00 00 00 00 00 00 00 00 00 00 00 00 00 00 00 00\n\
     s20 00 00 00 00 00 00 00 00 00 00 00 00 00 00 00 00\n\
     s30 00 00 00 00 00 00 00 00 00 00 00 00 00 00 00 00\n\
     total 2135 instructions 29924 phi\n";

const TRACED: &[&str] = &["play", "--trace", "cart", "script"];

/// Both cartridges, with the trace.
static ROWS: [Row; 2] = [
    Row {
        files: &[("cart", TIMER_CART), ("script", TIMER_SCRIPT)],
        words: TRACED,
        text: Text::All(TIMER_TRACE),
        ..SERVED
    },
    Row {
        files: &[
            ("cart", PULSES_CART),
            ("loop.f8", PULSES_SOURCE),
            ("script", PULSES_SCRIPT),
        ],
        words: TRACED,
        text: Text::Between("verdict none\n", PULSES_TRACE_END),
        ..SERVED
    },
];

/// Chips that hear each of the steps.
static HEARING: [Seat; 2] = [HP, HP];

#[test]
fn plays_interrupts_on_listeners(rt: HostRuntime) -> Result<(), Fail> {
    check_rows(&rt, rt.alloc(), &HEARING, &ROWS)
}
