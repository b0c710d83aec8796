// The lines of a run, from its verdict to its total.
ghost use Rattle.std.specs.Prelude.{◌≡◌, ◌<◌, ◌≤◌, length};
ghost use Rattle.console_spec.specs.RunText.{verdict_text as spelled_word, verdict_line as spelled_verdict};
ghost use Rattle.console_spec.specs.RunText.{stop_line as spelled_stop, fault_line as spelled_fault};
ghost use Rattle.console_spec.specs.RunText.{regs_line as spelled_regs, scratch_line as spelled_scratch};
ghost use Rattle.console_spec.specs.RunText.{total_line as spelled_total};
ghost use Rattle.console_spec.specs.Run.{Done, Unserved, Reserved};
ghost use Rattle.console_spec.specs.Services.{Conflict, Undriven, Astray};
ghost use Rattle.f8_machine.specs.Faults.{fault_of};

use super::line_buffer::Line;
use console_spec::{Regs, VerdictWord};
use data_bus::BusFault;
use f8_spec::Party;
use romc_table::Romc;

fn verdict_text(word: VerdictWord) -> &'static [u8]
    ensures text { result.now ≡ spelled_word word }
    ensures size { length result.now ≤ 6 }
{
    match word {
        VerdictWord::Whole => b"whole",
        VerdictWord::Agreed => b"agreed",
        VerdictWord::NoVerdict => b"none",
    }
}

/// `verdict whole`, `verdict agreed` and `verdict none`: what was found before a run.
#[tactic(auto, unfolding(console_spec::specs::RunText::verdict_line))]
pub fn verdict_line(word: VerdictWord) -> Line
    ensures { result ≡ spelled_verdict word }
{
    let mut line = Line::new();
    line.text(b"verdict ");
    line.text(verdict_text(word));
    line.text(b"\n");
    line
}

/// `stop done`: all instructions that were asked for are done.
#[tactic(auto, unfolding(console_spec::specs::RunText::stop_line))]
pub fn stop_done_line() -> Line
    ensures { result ≡ spelled_stop Done }
{
    let mut line = Line::new();
    line.text(b"stop done\n");
    line
}

/// Several chips drive or take in a step with this code, each at its own address or the port.
#[tactic(auto, unfolding(console_spec::specs::RunText::fault_line))]
fn conflict_line(romc: Romc, parties: &[Party]) -> Line
    requires few { length parties.now ≤ 16 }
    ensures { result ≡ spelled_fault (Conflict romc parties.now) }
{
    let mut line = Line::new();
    line.text(b"stop conflict romc ");
    line.hex2(romc.number());
    for party in parties {
        line.text(b" socket ");
        line.small(party.socket);
        line.text(b" at ");
        line.hex4(party.at);
    }
    line.text(b"\n");
    line
}

/// No chip drives a step with this code at this address or port.
#[tactic(auto, unfolding(console_spec::specs::RunText::fault_line))]
fn undriven_line(romc: Romc, at: u16) -> Line
    ensures { result ≡ spelled_fault (Undriven romc at) }
{
    let mut line = Line::new();
    line.text(b"stop undriven romc ");
    line.hex2(romc.number());
    line.text(b" at ");
    line.hex4(at);
    line.text(b"\n");
    line
}

/// In a step with this code the chip in this socket drives or takes at an address, or holds the reference and does neither, and the
/// reference is another.
#[tactic(auto, unfolding(console_spec::specs::RunText::fault_line))]
fn astray_line(romc: Romc, socket: u8, at: u16, reference: u16) -> Line
    ensures { result ≡ spelled_fault (Astray romc socket at reference) }
{
    let mut line = Line::new();
    line.text(b"stop astray romc ");
    line.hex2(romc.number());
    line.text(b" socket ");
    line.small(socket);
    line.text(b" at ");
    line.hex4(at);
    line.text(b" reference ");
    line.hex4(reference);
    line.text(b"\n");
    line
}

/// `stop conflict`, `stop undriven` and `stop astray`: a bus step isn't served, by its code and the sockets and addresses concerned.
#[tactic(auto, unfolding(console_spec::specs::RunText::stop_line))]
pub fn stop_fault_line(fault: &BusFault) -> Line
    ensures { result ≡ spelled_stop (Unserved (fault_of fault.now)) }
{
    match fault {
        BusFault::Conflict { romc, parties } => conflict_line(*romc, parties.as_slice()),
        BusFault::Undriven { romc, at } => undriven_line(*romc, *at),
        BusFault::Astray {
            romc,
            socket,
            at,
            reference,
        } => astray_line(*romc, *socket, *at, *reference),
    }
}

/// `stop reserved`: at this address stands an opcode that no instruction has.
#[tactic(auto, unfolding(console_spec::specs::RunText::stop_line))]
pub fn stop_reserved_line(at: u16, code: u8) -> Line
    ensures { result ≡ spelled_stop (Reserved at code) }
{
    let mut line = Line::new();
    line.text(b"stop reserved ");
    line.hex2(code);
    line.text(b" at ");
    line.hex4(at);
    line.text(b"\n");
    line
}

/// The counters, the accumulator, ISAR in octal digits, and the status word. ISAR is below 64.
#[tactic(auto, unfolding(console_spec::specs::RunText::regs_line))]
pub fn regs_line(regs: &Regs) -> Line
    requires { regs.now.isar < 64 }
    ensures { result ≡ spelled_regs regs.now }
{
    let mut line = Line::new();
    line.text(b"regs P=");
    line.hex4(regs.p);
    line.text(b" P1=");
    line.hex4(regs.p1);
    line.text(b" D0=");
    line.hex4(regs.d0);
    line.text(b" D1=");
    line.hex4(regs.d1);
    line.text(b" A=");
    line.hex2(regs.a);
    line.text(b" IS=");
    line.octal2(regs.isar);
    line.text(b" W=");
    line.hex2(regs.w);
    line.text(b"\n");
    line
}

/// A row of 16 bytes of the scratchpad, by its number, which is below 4.
#[tactic(auto, unfolding(console_spec::specs::RunText::scratch_line))]
pub fn scratch_line(regs: &Regs, row: u8) -> Line
    requires { row < 4 }
    ensures { result ≡ spelled_scratch regs.now row }
{
    let mut line = Line::new();
    line.text(b"s");
    line.byte(b'0' + row);
    line.text(b"0");
    let start = 16 * row as usize;
    for byte in &regs.scratch[start..start + 16] {
        line.byte(b' ');
        line.hex2(*byte);
    }
    line.text(b"\n");
    line
}

/// The instructions done and their clocks, in Φ.
#[tactic(auto, unfolding(console_spec::specs::RunText::total_line))]
pub fn total_line(count: u32, phi: u64) -> Line
    ensures { result ≡ spelled_total count phi }
{
    let mut line = Line::new();
    line.text(b"total ");
    line.decimal(u64::from(count));
    line.text(b" instructions ");
    line.decimal(phi);
    line.text(b" phi\n");
    line
}
