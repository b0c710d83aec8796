// Runs that a bus step ends, at each kind of step, on chips that hear. None of them heard the step that wasn't served.
use super::calls::{Has, Row, SERVED, Text, ended};
use super::seats::{HI, HP, HS, LONE, Seat, check_rows};
use std::test::Fail;

/// A fetch, a read at DC0 (four of them), an operand of a jump and a port.
static RUNS: [Row; 7] = [
    Row {
        files: &[
            (
                "cart",
                "format = 1\n\
                 [[chip]]\nkind = '3851'\nbase = 0\nports = 4\nrom = '2B'\n\
                 [[chip]]\nkind = '3851'\nbase = 0\nports = 8\nrom = '2B'\n",
            ),
            ("script", "steps 1\n"),
        ],
        words: &["play", "cart", "script"],
        status: 3,
        text: Text::All(ended!(
            "verdict none\n\
             stop conflict romc 00 socket 0 at 0000 socket 1 at 0000\n\
             regs P=0000 P1=0000 D0=0000 D1=0000 A=00 IS=00 W=00\n",
            "total 0 instructions 0 phi\n"
        )),
        left: &[
            (0, Has::Counters(0, 0, 0, None)),
            (1, Has::Counters(0, 1, 1, None)),
        ],
        ..SERVED
    },
    Row {
        files: &[
            (
                "cart",
                "format = 1\n[[chip]]\nkind = '3851'\nbase = 0\nports = 4\nrom = '2A00052C16'\n",
            ),
            ("script", "steps 9\n"),
        ],
        words: &["play", "cart", "script"],
        status: 3,
        text: Text::All(ended!(
            "verdict none\n\
             stop astray romc 02 socket 0 at 0005 reference 0000\n\
             regs P=0004 P1=0000 D0=0000 D1=0005 A=00 IS=00 W=00\n",
            "total 2 instructions 46 phi\n"
        )),
        left: &[
            (0, Has::Counters(5, 0, 5, None)),
            (12, Has::Counters(5, 12, 12, Some(5))),
        ],
        ..SERVED
    },
    Row {
        files: &[
            (
                "cart",
                "format = 1\n\
                 [[chip]]\nkind = '3851'\nbase = 0\nports = 4\nrom = '2A28002C2A00102C16'\n\
                 [[chip]]\nkind = '3853'\nram_page = 0x28\nram_pages = 1\n",
            ),
            ("script", "steps 9\n"),
        ],
        words: &["play", "cart", "script"],
        status: 3,
        text: Text::All(ended!(
            "verdict none\n\
             stop conflict romc 02 socket 0 at 0010 socket 12 at 2800\n\
             regs P=0008 P1=0000 D0=2800 D1=0010 A=00 IS=00 W=00\n",
            "total 4 instructions 78 phi\n"
        )),
        left: &[
            (0, Has::Counters(9, 0, 0x10, None)),
            (12, Has::Counters(9, 12, 0x2800, Some(0x10))),
        ],
        ..SERVED
    },
    Row {
        files: &[
            (
                "cart",
                "format = 1\n[[chip]]\nkind = '3851'\nbase = 0\nports = 4\nrom = '2A00001690FE'\n",
            ),
            ("script", "frames 1\n"),
        ],
        words: &["play", "cart", "script"],
        status: 3,
        text: Text::All(ended!(
            "verdict agreed\n\
             stop undriven romc 02 at 0400\n\
             regs P=0003 P1=0000 D0=0400 D1=0000 A=FF IS=00 W=00\n",
            "total 2049 instructions 24614 phi\n"
        )),
        left: &[(0, Has::Counters(4, 0, 0x400, None))],
        ..SERVED
    },
    Row {
        files: &[
            (
                "cart",
                "format = 1\n[[chip]]\nkind = '3851'\nbase = 0\nports = 4\nsource = 'jump'\n",
            ),
            ("jump", " JMP $03FE\n ORG $03FE\n DB $29,$08\n"),
            ("script", "steps 9\n"),
        ],
        words: &["play", "cart", "script"],
        status: 3,
        text: Text::All(ended!(
            "verdict none\n\
             stop undriven romc 0C at 0400\n\
             regs P=03FE P1=0000 D0=0000 D1=0000 A=03 IS=00 W=00\n",
            "total 1 instructions 36 phi\n"
        )),
        left: &[(0, Has::Counters(0x400, 0, 0, None))],
        ..SERVED
    },
    Row {
        files: &[
            (
                "cart",
                "format = 1\n[[chip]]\nkind = '3851'\nbase = 0\nports = 4\nrom = '200FB4A42602'\n",
            ),
            ("script", "at 0 keys 04 30\nsteps 4\n"),
        ],
        words: &["play", "cart", "script"],
        status: 3,
        text: Text::All(ended!(
            "verdict none\n\
             out 40 04 0F\n\
             stop undriven romc 1B at 0002\n\
             regs P=0004 P1=0000 D0=0000 D1=0000 A=3F IS=00 W=01\n",
            "total 3 instructions 56 phi\n"
        )),
        left: &[(0, Has::Counters(6, 0, 0, None))],
        ..SERVED
    },
    Row {
        files: &[
            (
                "cart",
                "format = 1\n[[chip]]\nkind = '3851'\nbase = 0\nports = 4\nrom = '2602'\n",
            ),
            ("script", "steps 1\n"),
        ],
        words: &["play", "cart", "script"],
        status: 3,
        text: Text::All(ended!(
            "verdict none\n\
             stop undriven romc 1B at 0002\n\
             regs P=0000 P1=0000 D0=0000 D1=0000 A=00 IS=00 W=00\n",
            "total 0 instructions 14 phi\n"
        )),
        left: &[(0, Has::Counters(2, 0, 0, None))],
        ..SERVED
    },
];

/// Twelve 3851s, and behind them a 3853.
static HEARING: [Seat; 13] = [HP, HP, HP, HP, HP, HP, HP, HP, HP, HP, HP, HP, HS];

/// The same and a 3861, which changes nothing.
static BESIDE_A_3861: [Seat; 14] = [HP, HP, HP, HP, HP, HP, HP, HP, HP, HP, HP, HP, HS, HI];

#[test]
fn ends_runs_on_listeners(rt: HostRuntime) -> Result<(), Fail> {
    check_rows(&rt, rt.alloc(), &HEARING, &RUNS)?;
    check_rows(&rt, rt.alloc(), &BESIDE_A_3861, &RUNS)
}

/// A JMP to OUTS 4, which is the last byte of the only chip: it writes what the JMP left in A, and can't fetch what comes next. The write
/// isn't told, as its instruction isn't done, but the chip has its byte.
static WRITES_AT_THE_END: [Row; 1] = [Row {
    files: &[
        (
            "cart",
            "format = 1\n[[chip]]\nkind = '3851'\nbase = 0\nports = 4\nsource = 'write'\n",
        ),
        ("write", " JMP $03FF\n ORG $03FF\n OUTS 4\n"),
        ("script", "steps 9\n"),
    ],
    words: &["play", "cart", "script"],
    status: 3,
    text: Text::All(ended!(
        "verdict none\n\
         stop undriven romc 00 at 0400\n\
         regs P=03FF P1=0000 D0=0000 D1=0000 A=03 IS=00 W=00\n",
        "total 1 instructions 36 phi\n"
    )),
    left: &[(0, Has::Latch(0x04, 0x03))],
    ..SERVED
}];

#[test]
fn keeps_what_an_instruction_wrote_before_it_failed(rt: HostRuntime) -> Result<(), Fail> {
    check_rows(&rt, rt.alloc(), &LONE, &WRITES_AT_THE_END)
}
