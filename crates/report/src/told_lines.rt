// The lines that are told as a run goes: bus steps, writes to ports, and frames.
ghost use Rattle.std.specs.Prelude.{◌≡◌, ◌≤◌, ◌<◌, ◌+◌, ◌++◌, List, codes, length};
ghost use Rattle.console_spec.specs.RunText.{length_text as spelled_length, who_text as spelled_who};
ghost use Rattle.console_spec.specs.RunText.{bus_line as spelled_bus, bus_fault_line as spelled_bus_fault};
ghost use Rattle.console_spec.specs.RunText.{out_line as spelled_out, frame_line as spelled_frame, picture_row};
ghost use Rattle.console_spec.specs.declared.PortWrite.{PortWrite};
ghost use Rattle.f8_machine.specs.HeardSteps.{step_of};
ghost use Rattle.video.specs.ScreenState.{pixel_in, digits_in, screen_after};

use super::line_buffer::{LINE_ROOM, Line};
use console_board::{PortWrite, Screen};
use console_spec::Who;
use f8_machine::Heard;
use romc_table::Romc;

/// `L` for a long step and `S` for a short one.
fn length_text(long: bool) -> &'static [u8]
    ensures text { result.now ≡ spelled_length long }
    ensures size { length result.now ≡ 1 }
{
    if long { b"L" } else { b"S" }
}

/// Writes `cpu`, the number of a socket, or `-`.
fn write_who(line: &mut Line, who: Who)
    requires { length line.old + 3 ≤ LINE_ROOM }
    ensures text { line.new ≡ line.old ++ spelled_who who }
    ensures len { length line.new ≤ length line.old + 3 }
{
    match who {
        Who::Cpu => line.text(b"cpu"),
        Who::Socket(socket) => line.small(socket),
        Who::Nobody => line.text(b"-"),
    }
}

/// `bus`: a bus step that is served, by its code, whether it's a long one, its byte, and who drove the byte. Who took the byte isn't told.
#[tactic(auto, unfolding(console_spec::specs::RunText::bus_line))]
pub fn bus_line(heard: &Heard) -> Line
    ensures { result ≡ spelled_bus (step_of heard.now) }
{
    let mut line = Line::new();
    line.text(b"bus ");
    line.hex2(heard.romc.number());
    line.text(b" ");
    line.text(length_text(heard.long));
    line.text(b" ");
    line.hex2(heard.byte);
    line.text(b" ");
    write_who(&mut line, heard.who);
    line.text(b"\n");
    line
}

/// `bus`: a bus step that isn't served, by its code and whether it's a long one.
#[tactic(auto, unfolding(console_spec::specs::RunText::bus_fault_line))]
pub fn bus_fault_line(romc: Romc, long: bool) -> Line
    ensures { result ≡ spelled_bus_fault romc long }
{
    let mut line = Line::new();
    line.text(b"bus ");
    line.hex2(romc.number());
    line.text(b" ");
    line.text(length_text(long));
    line.text(b" -- fault\n");
    line
}

/// `out`: a port took a byte, with the clock at the end of the instruction, in Φ.
#[tactic(auto, unfolding(console_spec::specs::RunText::out_line))]
pub fn out_line(wrote: &PortWrite) -> Line
    ensures { result ≡ spelled_out wrote.now }
{
    let mut line = Line::new();
    line.text(b"out ");
    line.decimal(wrote.phi);
    line.text(b" ");
    line.hex2(wrote.port);
    line.text(b" ");
    line.hex2(wrote.byte);
    line.text(b"\n");
    line
}

/// `frame`: a frame that is shown, by its number, the clock at the end of its instruction, in Φ, and the number of the tone. The rows of its
/// picture come behind.
#[tactic(auto, unfolding(console_spec::specs::RunText::frame_line))]
pub fn frame_line(frame: u32, phi: u64, tone: u8) -> Line
    ensures { result ≡ spelled_frame frame phi tone }
{
    let mut line = Line::new();
    line.text(b"frame ");
    line.decimal(u64::from(frame));
    line.text(b" phi ");
    line.decimal(phi);
    line.text(b" tone ");
    line.small(tone);
    line.text(b"\n");
    line
}

/// A row of the picture that a screen shows: the digit of its palette, a blank, and a digit for each of its 128 pixels. `y` is below 64.
pub fn row_line(screen: &Screen, y: u8) -> Line
    requires { y < 64 }
    ensures value { result ≡ digits_in (pixel_in screen.now.rows) y ++ codes "\n" }
    ensures display { (ws : List PortWrite) → screen.now ≡ screen_after ws →
        result ≡ picture_row y ws }
{
    let mut line = Line::new();
    line.text(&screen.row_text(y));
    line.text(b"\n");
    line
}
