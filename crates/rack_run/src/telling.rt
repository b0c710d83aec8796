// What is told of a run on its way. Each line is one put.
ghost use Rattle.std.specs.Prelude.{◌≡◌, ◌≤◌, ◌<◌, ◌+◌, ◌^◌, [], ◌∷◌, ◌++◌, List, map, IfOk};
ghost use Rattle.console_spec.specs.Processor.{with_write};
ghost use Rattle.console_spec.specs.Run.{Position, Goes};
ghost use Rattle.console_spec.specs.RunText.{frame_lines, text_of};
ghost use Rattle.console_spec.specs.Telling.{Traced, Wrote, told_turn};
ghost use Rattle.console_spec.specs.declared.PortWrite.{PortWrite};
ghost use Rattle.video.specs.ScreenState.{screen_after};
ghost use Rattle.f8_machine.specs.HeardSteps.{step_of};
ghost use Rattle.pad_script.specs.Reading.{seen};
ghost use Rattle.rack_run.specs.Progressing.{Keeps, frame_at, progress_with};
ghost use Rattle.rack_run.specs.Texts.{Puts, text_told, text_in};
ghost use Rattle.rack_run.specs.Texts.{rows_told, served_told, unserved_told, write_told, frame_told};

use super::detail::Detail;
use super::progress::Progress;
use console_board::{PortWrite, Screen};
use f8_machine::Heard;
use f8_ops::MOST_INTERRUPTED_PHI;
use outside::{Sink, SinkFault};
use pad_script::Script;
use report::{bus_fault_line, bus_line, frame_line, out_line, row_line};
use romc_table::Romc;

/// The rows of a picture.
const ROWS: u8 = 64;

// What puts lines isn't inlined, and what asks whether there are any is: most instructions put none, and nothing is then left of these
// calls but the questions.
#[inline(never)]
fn put_steps<K: Sink>(sink: &mut K, steps: &[Heard]) -> Result<(), SinkFault>
    ensures { Puts result (K.output sink.old) (K.output sink.new)
        (text_told (map (λ h. Traced (step_of h)) steps.now)) }
{
    for step in steps {
        sink.put(bus_line(step).as_bytes())?;
    }
    Ok(())
}

/// The served steps of reset or an instruction, where they are told.
#[inline(always)]
pub(crate) fn tell_steps<K: Sink>(
    sink: &mut K,
    detail: Detail,
    steps: &[Heard],
) -> Result<(), SinkFault>
    ensures { Puts result (K.output sink.old) (K.output sink.new)
        (text_in detail (served_told detail steps.now)) }
{
    if !detail.is_traced() {
        return Ok(());
    }
    put_steps(sink, steps)
}

/// The step that isn't served, where steps are told.
pub(crate) fn tell_fault<K: Sink>(
    sink: &mut K,
    detail: Detail,
    romc: Romc,
    long: bool,
) -> Result<(), SinkFault>
    ensures { Puts result (K.output sink.old) (K.output sink.new)
        (text_in detail (unserved_told detail romc long)) }
{
    if !detail.is_traced() {
        return Ok(());
    }
    sink.put(bus_fault_line(romc, long).as_bytes())
}

/// A write that was taken, as its line.
#[inline(never)]
fn put_write<K: Sink>(sink: &mut K, write: &PortWrite) -> Result<(), SinkFault>
    ensures { Puts result (K.output sink.old) (K.output sink.new)
        (text_told (Wrote write.now ∷ [])) }
{
    sink.put(out_line(write).as_bytes())
}

/// A write that was taken, where writes are told.
#[inline(always)]
fn tell_write<K: Sink>(
    sink: &mut K,
    detail: Detail,
    wrote: Option<PortWrite>,
) -> Result<(), SinkFault>
    ensures { Puts result (K.output sink.old) (K.output sink.new)
        (text_in detail (write_told wrote)) }
{
    let Some(write) = wrote else {
        return Ok(());
    };
    if !detail.is_told() {
        return Ok(());
    }
    put_write(sink, &write)
}

fn put_rows<K: Sink>(sink: &mut K, screen: &Screen) -> Result<(), SinkFault>
    ensures { (ws : List PortWrite) → screen.now ≡ screen_after ws
        → Puts result (K.output sink.old) (K.output sink.new)
        (text_of (rows_told ws)) }
{
    for y in 0..ROWS {
        sink.put(row_line(screen, y).as_bytes())?;
    }
    Ok(())
}

/// A frame, with the clocks at its end.
#[inline(never)]
fn put_frame<K: Sink>(sink: &mut K, screen: &Screen, frame: u32, phi: u64) -> Result<(), SinkFault>
    ensures { (ws : List PortWrite) → screen.now ≡ screen_after ws
        → Puts result (K.output sink.old) (K.output sink.new)
        (text_of (frame_lines frame phi ws)) }
{
    sink.put(frame_line(frame, phi, screen.tone()).as_bytes())?;
    put_rows(sink, screen)
}

/// A frame that falls, with the clocks at its end, where it is shown.
#[inline(always)]
fn tell_frame<K: Sink>(
    sink: &mut K,
    detail: Detail,
    shows: &[u32],
    screen: &Screen,
    fallen: Option<u32>,
    phi: u64,
) -> Result<(), SinkFault>
    ensures { (ws : List PortWrite) → screen.now ≡ screen_after ws
        → Puts result (K.output sink.old) (K.output sink.new)
        (text_in detail (frame_told shows.now fallen phi ws)) }
{
    let Some(frame) = fallen else {
        return Ok(());
    };
    if !detail.is_told() {
        return Ok(());
    }
    if !shows.contains(&frame) {
        return Ok(());
    }
    put_frame(sink, screen, frame, phi)
}

/// What is told at the end of an instruction that is done: its write, and the frame that falls there.
#[inline(always)]
fn tell_turn<K: Sink>(
    sink: &mut K,
    detail: Detail,
    shows: &[u32],
    screen: &Screen,
    wrote: Option<PortWrite>,
    fallen: Option<u32>,
    phi: u64,
) -> Result<(), SinkFault>
    ensures { (ws : List PortWrite) → screen.now ≡ screen_after ws
        → Puts result (K.output sink.old) (K.output sink.new)
        (text_in detail (write_told wrote ++ frame_told shows.now fallen phi ws)) }
{
    tell_write(sink, detail, wrote)?;
    tell_frame(sink, detail, shows, screen, fallen, phi)
}

/// The end of an instruction that is done, told: its write, with the clocks then, and the frame that falls there, which is given.
#[inline(always)]
pub(crate) fn tell_end<K: Sink>(
    sink: &mut K,
    progress: &mut Progress,
    script: &Script,
    detail: Detail,
    wrote: Option<PortWrite>,
    phi: u64,
) -> Result<Option<u32>, SinkFault>
    requires onward { progress.old.phi ≤ phi }
    requires near { phi ≤ progress.old.phi + MOST_INTERRUPTED_PHI }
    requires bounded { phi < 2 ^ 46 }
    requires few { progress.old.count + 1 < 2 ^ 32 }
    ensures puts { (x y : Position) → Keeps progress.old x.flat.state → y.flat.state.phi ≡ phi
        → y.flat.state.writes ≡ with_write wrote x.flat.state.writes
        → Puts result (K.output sink.old) (K.output sink.new)
        (text_in detail (told_turn (seen script.now) x (Goes y))) }
    ensures fallen { IfOk result (λ frame. frame ≡ frame_at progress.old phi) }
    ensures after { progress.new ≡ progress_with wrote phi progress.old }
{
    let fallen = progress.step(wrote, phi);
    tell_turn(
        sink,
        detail,
        script.shows.as_slice(),
        progress.screen(),
        wrote,
        fallen,
        phi,
    )?;
    Ok(fallen)
}
