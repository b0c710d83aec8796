// The lines that sum up the run of a generated cartridge.
ghost use Rattle.std.specs.Prelude.{◌≡◌};
ghost use Rattle.generator.specs.SummaryLines.{gen_line as spelled_gen, writes_line as spelled_writes};
ghost use Rattle.generator.specs.SummaryLines.{scratch_sum_line as spelled_scratch_sum};

use report::Line;

/// `gen`: the seed of the generated cartridge.
#[tactic(auto, unfolding(crate::specs::SummaryLines::gen_line))]
pub fn gen_line(seed: u32) -> Line
    ensures { result ≡ spelled_gen seed }
{
    let mut line = Line::new();
    line.text(b"gen ");
    line.decimal(u64::from(seed));
    line.text(b"\n");
    line
}

/// `writes`: how many bytes were written to ports, and their sum.
#[tactic(auto, unfolding(crate::specs::SummaryLines::writes_line))]
pub fn writes_line(count: u32, sum: u64) -> Line
    ensures { result ≡ spelled_writes count sum }
{
    let mut line = Line::new();
    line.text(b"writes ");
    line.decimal(u64::from(count));
    line.text(b" sum ");
    line.decimal(sum);
    line.text(b"\n");
    line
}

/// `scratch`: the sum of the bytes of the scratchpad.
#[tactic(auto, unfolding(crate::specs::SummaryLines::scratch_sum_line))]
pub fn scratch_sum_line(sum: u32) -> Line
    ensures { result ≡ spelled_scratch_sum sum }
{
    let mut line = Line::new();
    line.text(b"scratch ");
    line.decimal(u64::from(sum));
    line.text(b"\n");
    line
}
