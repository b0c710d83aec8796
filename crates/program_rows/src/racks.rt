// Racks of other chips than blank ones, and racks without a place.
use super::calls::{LOOP_CART, LOOP_SCRIPT, Row, SERVED, Text};
use super::seats::{HP, HS, LONE, P, S, Seat, check_rows};
use std::test::Fail;

/// A cartridge whose read the RAM alone answers, in 22 bus steps.
const RAM_CART: &str = "format = 1\n\
     [[chip]]\nkind = '3851'\nbase = 0\nports = 4\nrom = '2A28002C2A28012C1690FF'\n\
     [[chip]]\nkind = '3853'\nram_page = 0x28\nram_pages = 1\n";

static HEARD: [Row; 1] = [Row {
    files: &[("cart", RAM_CART), ("script", "power 5A\nsteps 6\n")],
    words: &["play", "cart", "script"],
    text: Text::All(
        "verdict whole\n\
         stop done\n\
         regs P=0009 P1=0000 D0=2801 D1=2801 A=5A IS=32 W=00\n\
         s00 5A 5A 5A 5A 5A 5A 5A 5A 5A 5A 5A 5A 5A 5A 5A 5A\n\
         s10 5A 5A 5A 5A 5A 5A 5A 5A 5A 5A 5A 5A 5A 5A 5A 5A\n\
         s20 5A 5A 5A 5A 5A 5A 5A 5A 5A 5A 5A 5A 5A 5A 5A 5A\n\
         s30 5A 5A 5A 5A 5A 5A 5A 5A 5A 5A 5A 5A 5A 5A 5A 5A\n\
         total 6 instructions 102 phi\n",
    ),
    ..SERVED
}];

/// Chips that hear the steps.
static HEARING: [Seat; 2] = [HP, HS];

#[test]
fn plays_on_listeners(rt: HostRuntime) -> Result<(), Fail> {
    check_rows(&rt, rt.alloc(), &HEARING, &HEARD)
}

/// A chip with INC in the place of NOP.
static INC_FOR_NOP: [Seat; 1] = [Seat::Patched(0x0001, 0x1F)];

static INCREASED: [Row; 1] = [Row {
    files: &[("cart", LOOP_CART), ("script", "steps 3\n")],
    words: &["play", "cart", "script"],
    text: Text::All(
        "verdict whole\n\
         stop done\n\
         regs P=0001 P1=0000 D0=0000 D1=0000 A=02 IS=00 W=01\n\
         s00 00 00 00 00 00 00 00 00 00 00 00 00 00 00 00 00\n\
         s10 00 00 00 00 00 00 00 00 00 00 00 00 00 00 00 00\n\
         s20 00 00 00 00 00 00 00 00 00 00 00 00 00 00 00 00\n\
         s30 00 00 00 00 00 00 00 00 00 00 00 00 00 00 00 00\n\
         total 3 instructions 36 phi\n",
    ),
    ..SERVED
}];

/// A chip with a reserved opcode in the place of the first.
static RESERVED_FIRST: [Seat; 1] = [Seat::Patched(0x0000, 0x2D)];

static RESERVED: [Row; 1] = [Row {
    files: &[("cart", LOOP_CART), ("script", "steps 3\n")],
    words: &["play", "cart", "script"],
    status: 8,
    text: Text::All(
        "verdict whole\n\
         stop reserved 2D at 0000\n\
         regs P=0000 P1=0000 D0=0000 D1=0000 A=00 IS=00 W=00\n\
         s00 00 00 00 00 00 00 00 00 00 00 00 00 00 00 00 00\n\
         s10 00 00 00 00 00 00 00 00 00 00 00 00 00 00 00 00\n\
         s20 00 00 00 00 00 00 00 00 00 00 00 00 00 00 00 00\n\
         s30 00 00 00 00 00 00 00 00 00 00 00 00 00 00 00 00\n\
         total 0 instructions 14 phi\n",
    ),
    ..SERVED
}];

/// A chip holds another byte than the description has, and the verdict is that of the description.
#[test]
fn plays_the_bytes_of_patched_chips(rt: HostRuntime) -> Result<(), Fail> {
    check_rows(&rt, rt.alloc(), &INC_FOR_NOP, &INCREASED)?;
    check_rows(&rt, rt.alloc(), &RESERVED_FIRST, &RESERVED)
}

/// The run of the loop with its trace, on the chips of the description.
const LOOP_TRACE: &str = "verdict whole\n\
     bus 1C S 00 -\n\
     bus 08 L 00 cpu\n\
     bus 00 S 71 0\n\
     bus 00 S 2B 0\n\
     bus 00 S 90 0\n\
     bus 1C S 00 -\n\
     bus 01 L FE 0\n\
     bus 00 S 2B 0\n\
     stop done\n\
     regs P=0001 P1=0000 D0=0000 D1=0000 A=01 IS=00 W=00\n\
     s00 00 00 00 00 00 00 00 00 00 00 00 00 00 00 00 00\n\
     s10 00 00 00 00 00 00 00 00 00 00 00 00 00 00 00 00\n\
     s20 00 00 00 00 00 00 00 00 00 00 00 00 00 00 00 00\n\
     s30 00 00 00 00 00 00 00 00 00 00 00 00 00 00 00 00\n\
     total 3 instructions 36 phi\n";

/// The steps of the loop with INC in the place of NOP.
const INCREASED_TRACE: &str = "bus 1C S 00 -\nbus 08 L 00 cpu\nbus 00 S 71 0\n\
     bus 00 S 1F 0\n\
     bus 00 S 90 0\n\
     bus 1C S 00 -\nbus 01 L FE 0\nbus 00 S 1F 0\n";

/// A session that looks at them, and audits of what they drive and of what the description has.
static LOOKED_AT: [Row; 3] = [
    Row {
        files: &[("cart", LOOP_CART), ("commands", "mem 0000 4\n")],
        words: &["debug", "cart", "commands"],
        text: Text::All("mem 0000 71 1F 90 FE\n"),
        ..SERVED
    },
    Row {
        files: &[
            ("cart", LOOP_CART),
            ("script", LOOP_SCRIPT),
            ("trace", INCREASED_TRACE),
        ],
        words: &["audit", "cart", "script", "trace"],
        text: Text::All("accept 3\n"),
        ..SERVED
    },
    Row {
        files: &[
            ("cart", LOOP_CART),
            ("script", LOOP_SCRIPT),
            ("trace", LOOP_TRACE),
        ],
        words: &["audit", "cart", "script", "trace"],
        status: 7,
        text: Text::All("reject line 5\n"),
        ..SERVED
    },
];

/// The debugger and the audit too go by the byte that the chip holds.
#[test]
fn looks_at_the_bytes_of_patched_chips(rt: HostRuntime) -> Result<(), Fail> {
    check_rows(&rt, rt.alloc(), &INC_FOR_NOP, &LOOKED_AT)
}

static NO_PSU: [Row; 2] = [
    Row {
        files: &[("cart", RAM_CART), ("script", "steps 3\n")],
        words: &["play", "cart", "script"],
        status: 2,
        text: Text::All("error sockets 3851 need 1 have 0\n"),
        ..SERVED
    },
    Row {
        files: &[
            ("cart", LOOP_CART),
            ("script", LOOP_SCRIPT),
            ("trace", LOOP_TRACE),
        ],
        words: &["audit", "cart", "script", "trace"],
        status: 2,
        text: Text::All("error sockets 3851 need 1 have 0\n"),
        ..SERVED
    },
];

static NO_SMI: [Row; 1] = [Row {
    files: &[("cart", RAM_CART), ("script", "steps 3\n")],
    words: &["play", "cart", "script"],
    status: 2,
    text: Text::All("error sockets 3853 need 1 have 0\n"),
    ..SERVED
}];

static SEVENTEEN_CHIPS: [Seat; 17] = [P, S, S, S, S, S, S, S, S, S, S, S, S, S, S, S, S];

/// Seventeen chips are too many. The rack isn't looked at where a file isn't there.
static SEVENTEEN: [Row; 3] = [
    Row {
        files: &[("cart", RAM_CART), ("script", "steps 3\n")],
        words: &["play", "cart", "script"],
        status: 2,
        text: Text::All("error rack 17\n"),
        ..SERVED
    },
    Row {
        files: &[
            ("cart", LOOP_CART),
            ("script", LOOP_SCRIPT),
            ("trace", LOOP_TRACE),
        ],
        words: &["audit", "cart", "script", "trace"],
        status: 2,
        text: Text::All("error rack 17\n"),
        ..SERVED
    },
    Row {
        files: &[("cart", RAM_CART)],
        words: &["play", "cart", "script"],
        status: 4,
        text: Text::All("error store script\n"),
        ..SERVED
    },
];

#[test]
fn refuses_racks_without_a_place(rt: HostRuntime) -> Result<(), Fail> {
    check_rows(&rt, rt.alloc(), &[], &NO_PSU)?;
    check_rows(&rt, rt.alloc(), &LONE, &NO_SMI)?;
    check_rows(&rt, rt.alloc(), &SEVENTEEN_CHIPS, &SEVENTEEN)
}
