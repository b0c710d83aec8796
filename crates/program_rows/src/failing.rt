// Stores that fail at a fetch, and sinks that fail in mid-run.
use super::calls::{File, LOOP_CART, LOOP_SCRIPT, Row, SERVED, Text, answered};
use super::seats::{LONE, P, Seat, check_rows_over};
use f8_machine::Rack;
use psu3851::Psu;
use std::alloc::Global;
use std::process::Abort;
use std::test::Fail;

/// The files of all rows.
static FILES: [File; 6] = [
    ("cart", LOOP_CART),
    ("script", LOOP_SCRIPT),
    ("empty", ""),
    ("drawn", "show 1\nframes 1\n"),
    ("code", "LOOP: NOP\nBR LOOP\n"),
    ("digits", "712D"),
];

static ROWS: [Row; 11] = [
    Row {
        words: &["gen", "1"],
        put: Some((2, 0)),
        status: 5,
        text: Text::All("gen 1\n"),
        ..SERVED
    },
    Row {
        words: &["play", "cart", "script"],
        put: Some((1, 0)),
        status: 5,
        text: Text::All(""),
        ..SERVED
    },
    Row {
        words: &["play", "cart", "script"],
        put: Some((3, 0)),
        status: 5,
        text: Text::All("verdict whole\nstop done\n"),
        ..SERVED
    },
    Row {
        words: &["play", "cart", "script"],
        put: Some((3, 1)),
        status: 5,
        text: Text::All("verdict whole\nstop done\nr"),
        ..SERVED
    },
    Row {
        words: &["play", "cart", "script"],
        put: Some((3, 1_000)),
        status: 5,
        text: Text::All(
            "verdict whole\nstop done\nregs P=0001 P1=0000 D0=0000 D1=0000 A=01 IS=00 W=00\n",
        ),
        ..SERVED
    },
    Row {
        words: &["play", "cart", "script"],
        room: 18,
        status: 5,
        text: Text::All("verdict whole\nstop"),
        ..SERVED
    },
    Row {
        words: &["play", "empty", "script"],
        put: Some((1, 0)),
        status: 5,
        text: Text::All(""),
        ..SERVED
    },
    Row {
        words: &["play", "empty", "script"],
        put: Some((1, 7)),
        status: 5,
        text: Text::All("error c"),
        ..SERVED
    },
    Row {
        words: &["play", "empty", "script"],
        put: Some((1, 1_000)),
        status: 5,
        text: Text::All("error cart key format cause 1\n"),
        ..SERVED
    },
    Row {
        words: &["asm", "code"],
        put: Some((2, 0)),
        status: 5,
        text: Text::All("0000 2B90FE\n"),
        ..SERVED
    },
    Row {
        words: &["dis", "digits"],
        put: Some((3, 0)),
        status: 5,
        text: Text::All("ORG $0000\nLIS 1\n"),
        ..SERVED
    },
];

/// Each of the two fetches fails, and the line says so.
static FETCHES: [Row; 2] = [
    Row {
        words: &["play", "cart", "script"],
        fetch: Some(1),
        status: 4,
        text: Text::All("error store cart\n"),
        ..SERVED
    },
    Row {
        words: &["play", "cart", "script"],
        fetch: Some(2),
        status: 4,
        text: Text::All("error store script\n"),
        ..SERVED
    },
];

static TWELVE: [Seat; 12] = [P; 12];

#[test]
fn stops_at_a_failing_sink(rt: HostRuntime) -> Result<(), Fail> {
    check_rows_over(&rt, rt.alloc(), &TWELVE, &FILES, &ROWS)
}

#[test]
fn stops_at_a_failing_store(rt: HostRuntime) -> Result<(), Fail> {
    check_rows_over(&rt, rt.alloc(), &LONE, &FILES, &FETCHES)
}

/// A run with a frame.
static DRAWN: Row = Row {
    words: &["play", "cart", "drawn"],
    ..SERVED
};

/// A call of the sink fails two bytes behind this place, and what was written is that of the whole run, up to there.
fn check_line(
    rt: &impl Abort,
    alloc: Global,
    whole: &[u8],
    call: u64,
    begin: usize,
    rack: &mut Rack,
) -> Result<(), Fail> {
    let row = Row {
        put: Some((call, 2)),
        ..DRAWN
    };
    let (status, sink) = answered(alloc, &row, &FILES, rack)?;
    assert!(rt; status == 5, "{call}");
    assert!(rt; sink.bytes().len() == begin.saturating_add(2), "{call}");
    assert!(rt; whole.starts_with(sink.bytes()), "{call}");
    Ok(())
}

/// The run has 73 lines. The sink fails within each of them.
fn check_lines(rt: &impl Abort, alloc: Global, rack: &mut Rack) -> Result<(), Fail> {
    let (status, whole) = answered(alloc, &DRAWN, &FILES, rack)?;
    assert!(rt; status == 0);
    let mut call: u64 = 0;
    let mut begin: usize = 0;
    let mut place: usize = 0;
    for byte in whole.bytes() {
        place = place.saturating_add(1);
        if *byte == b'\n' {
            call = call.saturating_add(1);
            check_line(rt, alloc, whole.bytes(), call, begin, rack)?;
            begin = place;
        }
    }
    assert!(rt; call == 73);
    Ok(())
}

#[test]
fn stops_at_each_line_of_a_run(rt: HostRuntime) -> Result<(), Fail> {
    let mut rack: Rack = Vec::new(rt.alloc());
    rack.push(Box::new(rt.alloc(), Psu::blank())?)?;
    check_lines(&rt, rt.alloc(), &mut rack)
}
