// The lines of a session (this project's own), each on a buffer of its own.
ghost use Rattle.std.specs.Prelude.{◌≡◌, ◌≤◌, ◌+◌, ◌*◌, ◌++◌, length, map, sum_by};
ghost use Rattle.data_bus.specs.Racks.{views};
ghost use Rattle.chip_debug.specs.Carried.{bytes_held};
ghost use Rattle.chip_debug.specs.DebugText.{ready_line as spelled_ready, ran_line as spelled_ran};
ghost use Rattle.chip_debug.specs.DebugText.{break_line as spelled_break, at_line as spelled_at, stored_text};
ghost use Rattle.chip_debug.specs.DebugText.{stored_line as spelled_stored, second_text, counters_text, own_text};
ghost use Rattle.chip_debug.specs.DebugText.{chip_line as spelled_chip, probe_line as spelled_probe, byte_text};
ghost use Rattle.chip_debug.specs.DebugText.{mem_line as spelled_mem};

use super::sockets::byte_held;
use chip_face::{Chip, ChipKind, Counters, MOST_CHIPS};
use f8_machine::Rack;
use report::{LINE_ROOM, Line, kind_text};

/// `ready`: power-on and reset are done.
#[tactic(auto, unfolding(crate::specs::DebugText::ready_line))]
pub(crate) fn ready_line() -> Line
    ensures { result ≡ spelled_ready }
{
    let mut line = Line::new();
    line.text(b"ready\n");
    line
}

/// `ran`: so many instructions were done.
#[tactic(auto, unfolding(crate::specs::DebugText::ran_line))]
pub(crate) fn ran_line(ran: u32) -> Line
    ensures { result ≡ spelled_ran ran }
{
    let mut line = Line::new();
    line.text(b"ran ");
    line.decimal(u64::from(ran));
    line.text(b"\n");
    line
}

/// `break`: the last instruction met a break.
#[tactic(auto, unfolding(crate::specs::DebugText::break_line))]
pub(crate) fn break_line() -> Line
    ensures { result ≡ spelled_break }
{
    let mut line = Line::new();
    line.text(b"break\n");
    line
}

/// `at`: the session went back to this instruction.
#[tactic(auto, unfolding(crate::specs::DebugText::at_line))]
pub(crate) fn at_line(place: u32) -> Line
    ensures { result ≡ spelled_at place }
{
    let mut line = Line::new();
    line.text(b"at ");
    line.decimal(u64::from(place));
    line.text(b"\n");
    line
}

/// Writes the number of an instruction, or `none`.
fn write_stored(line: &mut Line, place: Option<u32>)
    requires { length line.old + 20 ≤ LINE_ROOM }
    ensures text { line.new ≡ line.old ++ stored_text place }
    ensures len { length line.new ≤ length line.old + 20 }
{
    match place {
        Some(place) => line.decimal(u64::from(place)),
        None => line.text(b"none"),
    }
}

/// `stored`: the instruction that stored last, or that none did.
#[tactic(auto, unfolding(crate::specs::DebugText::stored_line))]
pub(crate) fn stored_line(place: Option<u32>) -> Line
    ensures { result ≡ spelled_stored place }
{
    let mut line = Line::new();
    line.text(b"stored ");
    write_stored(&mut line, place);
    line.text(b"\n");
    line
}

fn write_second(line: &mut Line, dc1: Option<u16>)
    requires { length line.old + 9 ≤ LINE_ROOM }
    ensures text { line.new ≡ line.old ++ second_text dc1 }
    ensures len { length line.new ≤ length line.old + 9 }
{
    if let Some(at) = dc1 {
        line.text(b" DC1=");
        line.hex4(at);
    }
}

/// Writes the counters of a chip or of the probe.
fn write_counters(line: &mut Line, counters: &Counters)
    requires { length line.old + 36 ≤ LINE_ROOM }
    ensures text { line.new ≡ line.old ++ counters_text counters.now }
    ensures len { length line.new ≤ length line.old + 36 }
{
    line.text(b" PC0=");
    line.hex4(counters.pc0);
    line.text(b" PC1=");
    line.hex4(counters.pc1);
    line.text(b" DC0=");
    line.hex4(counters.dc0);
    write_second(line, counters.dc1);
}

/// Writes the counters of a chip, where it has any.
fn write_own(line: &mut Line, counters: Option<Counters>)
    requires { length line.old + 36 ≤ LINE_ROOM }
    ensures text { line.new ≡ line.old ++ own_text counters }
    ensures len { length line.new ≤ length line.old + 36 }
{
    if let Some(counters) = counters {
        write_counters(line, &counters);
    }
}

/// `chip`: a chip by its socket and kind, with its own counters, where it has any.
#[tactic(auto, unfolding(crate::specs::DebugText::chip_line))]
pub(crate) fn chip_line(socket: u8, kind: ChipKind, counters: Option<Counters>) -> Line
    ensures { result ≡ spelled_chip socket kind counters }
{
    let mut line = Line::new();
    line.text(b"chip ");
    line.small(socket);
    line.text(b" ");
    line.text(kind_text(kind));
    write_own(&mut line, counters);
    line.text(b"\n");
    line
}

/// `probe`: the probe's counters.
#[tactic(auto, unfolding(crate::specs::DebugText::probe_line))]
pub(crate) fn probe_line(counters: &Counters) -> Line
    ensures { result ≡ spelled_probe counters.now }
{
    let mut line = Line::new();
    line.text(b"probe");
    write_counters(&mut line, counters);
    line.text(b"\n");
    line
}

/// Writes a byte, or dashes where there is none.
fn write_byte(line: &mut Line, byte: Option<u8>)
    requires { length line.old + 3 ≤ LINE_ROOM }
    ensures text { line.new ≡ line.old ++ byte_text byte }
    ensures len { length line.new ≡ length line.old + 3 }
{
    match byte {
        Some(byte) => {
            line.byte(b' ');
            line.hex2(byte);
        }
        None => line.text(b" --"),
    }
}

/// `mem`: so many bytes from an address on, 16 at most. For each of them each chip is asked once at most.
#[tactic(auto, unfolding(crate::specs::DebugText::mem_line))]
pub(crate) fn mem_line(rack: &mut Rack, at: u16, count: u8) -> Line
    requires few { length rack.old.items ≤ MOST_CHIPS }
    requires count { count ≤ 16 }
    ensures line { result ≡ spelled_mem at
        (bytes_held (views (map state rack.old.items)) at count) }
    ensures stays { map state rack.new.items ≡ map state rack.old.items }
    ensures asked { sum_by queries rack.new.items ≤ sum_by queries rack.old.items
        + count * length rack.old.items }
    ensures chips { length rack.new.items ≡ length rack.old.items }
{
    let mut line = Line::new();
    line.text(b"mem ");
    line.hex4(at);
    for place in 0..count {
        write_byte(
            &mut line,
            byte_held(rack, at.wrapping_add(u16::from(place))),
        );
    }
    line.text(b"\n");
    line
}
