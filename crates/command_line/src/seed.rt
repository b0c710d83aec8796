// The number of `gen`.
ghost use Rattle.std.specs.Prelude.{◌≡◌};
ghost use Rattle.command_line.specs.CommandLine.{seed_of as spelled_seed};

/// The most digits of a seed.
const MOST_DIGITS: usize = 10;

/// The number below 2^32 that one to ten decimal digits write. `None`: the text is something else, as one with a sign.
pub fn seed_of(text: &str) -> Option<u32>
    ensures { result ≡ spelled_seed text.now }
{
    if text.len() > MOST_DIGITS || text.starts_with('+') {
        return None;
    }
    text.parse::<u32>().ok()
}
