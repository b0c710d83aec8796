// The lines of the verdict on a cartridge and on a certificate.
ghost use Rattle.std.specs.Prelude.{◌≡◌, ◌+◌, ◌≤◌, ◌++◌, Option, length};
ghost use Rattle.report.specs.CheckLines.{return_text, value_text, values_text, point_text};
ghost use Rattle.report.specs.CheckLines.{whole_line as spelled_whole, agreed_line as spelled_agreed};
ghost use Rattle.report.specs.CheckLines.{refused_line as spelled_refused, toomany_line as spelled_toomany};
ghost use Rattle.report.specs.CheckLines.{origin_text, point_in, notclosed_line as spelled_notclosed};
ghost use Rattle.report.specs.CheckLines.{unsafe_line as spelled_unsafe};

use super::line_buffer::{LINE_ROOM, Line};
use abs_domain::{Point, Reason};
use cart_data::Split;

/// `whole`: every bus step of every run is served. So many points have a state.
#[tactic(auto, unfolding(crate::specs::CheckLines::whole_line))]
pub fn whole_line(points: u32) -> Line
    ensures { result ≡ spelled_whole points }
{
    let mut line = Line::new();
    line.text(b"whole ");
    line.decimal(u64::from(points));
    line.text(b"\n");
    line
}

/// `agreed`: every bus step of every run is served, but a read at the data counter may find no chip that answers. So many points have a state.
#[tactic(auto, unfolding(crate::specs::CheckLines::agreed_line))]
pub fn agreed_line(points: u32) -> Line
    ensures { result ≡ spelled_agreed points }
{
    let mut line = Line::new();
    line.text(b"agreed ");
    line.decimal(u64::from(points));
    line.text(b"\n");
    line
}

/// The return in four hexadecimal digits, or dashes where it is unset.
fn write_return(line: &mut Line, ret: Option<u16>)
    requires { length line.old + 4 ≤ LINE_ROOM }
    ensures text { line.new ≡ line.old ++ return_text ret }
    ensures len { length line.new ≡ length line.old + 4 }
{
    match ret {
        Some(at) => line.hex4(at),
        None => line.text(b"----"),
    }
}

/// The byte in a tracked register, or dashes where it is unset.
fn write_value(line: &mut Line, value: Option<u8>)
    requires { length line.old + 2 ≤ LINE_ROOM }
    ensures text { line.new ≡ line.old ++ value_text value }
    ensures len { length line.new ≡ length line.old + 2 }
{
    match value {
        Some(byte) => line.hex2(byte),
        None => line.text(b"--"),
    }
}

/// The bytes of all tracked registers, at most 8, with commas between, or a full stop where none is tracked.
fn write_values(line: &mut Line, values: &[Option<u8>])
    requires few { length values.now ≤ 8 }
    requires room { length line.old + 23 ≤ LINE_ROOM }
    ensures text { line.new ≡ line.old ++ values_text values.now }
    ensures len { length line.new ≤ length line.old + 23 }
{
    match values.split_first() {
        Some((first, others)) => {
            write_value(line, *first);
            for value in others {
                line.text(b",");
                write_value(line, *value);
            }
        }
        None => line.text(b"."),
    }
}

/// A point by its address, its return and the bytes of the tracked registers.
#[tactic(auto, unfolding(crate::specs::CheckLines::point_text))]
fn write_point(line: &mut Line, point: &Point, split: &Split)
    requires { length line.old + 33 ≤ LINE_ROOM }
    ensures text { line.new ≡ line.old ++ point_text split.now point.now }
    ensures len { length line.new ≤ length line.old + 33 }
{
    let tracked = split.as_slice().len();
    line.hex4(point.at);
    line.text(b" ");
    write_return(line, point.ret);
    line.text(b" ");
    write_values(line, &point.split[..tracked]);
}

/// `refused`: a state at this point isn't safe, for this reason, told by its number. As many bytes of registers are told as `split` has.
#[tactic(auto, unfolding(crate::specs::CheckLines::refused_line))]
pub fn refused_line(point: &Point, split: &Split, reason: Reason) -> Line
    ensures { result ≡ spelled_refused split.now point.now reason }
{
    let mut line = Line::new();
    line.text(b"refused ");
    write_point(&mut line, point, split);
    line.text(b" ");
    line.small(reason.number());
    line.text(b"\n");
    line
}

/// `toomany`: more than 65,536 points have a state.
#[tactic(auto, unfolding(crate::specs::CheckLines::toomany_line))]
pub fn toomany_line() -> Line
    ensures { result ≡ spelled_toomany }
{
    let mut line = Line::new();
    line.text(b"toomany\n");
    line
}

/// Where states come from: a point, or the start of a run.
fn write_origin(line: &mut Line, from: Option<&Point>, split: &Split)
    requires { length line.old + 33 ≤ LINE_ROOM }
    ensures text { line.new ≡ line.old ++ origin_text split.now (point_in from.entry) }
    ensures len { length line.new ≤ length line.old + 33 }
{
    match from {
        Some(point) => write_point(line, point, split),
        None => line.text(b"start"),
    }
}

/// `notclosed`: a certificate has no state that covers what holds at the point `to`, behind the state at `from`, or at the start of a run. As
/// many bytes of registers are told as `split` has.
#[tactic(auto, unfolding(crate::specs::CheckLines::notclosed_line))]
pub fn notclosed_line(from: Option<&Point>, to: &Point, split: &Split) -> Line
    ensures { result ≡ spelled_notclosed split.now (point_in from.entry) to.now }
{
    let mut line = Line::new();
    line.text(b"notclosed ");
    write_origin(&mut line, from, split);
    line.text(b" to ");
    write_point(&mut line, to, split);
    line.text(b"\n");
    line
}

/// `unsafe`: the state of a certificate at this point isn't safe, for this reason, told by its number. As many bytes of registers are told as
/// `split` has.
#[tactic(auto, unfolding(crate::specs::CheckLines::unsafe_line))]
pub fn unsafe_line(point: &Point, split: &Split, reason: Reason) -> Line
    ensures { result ≡ spelled_unsafe split.now point.now reason }
{
    let mut line = Line::new();
    line.text(b"unsafe ");
    write_point(&mut line, point, split);
    line.text(b" ");
    line.small(reason.number());
    line.text(b"\n");
    line
}
