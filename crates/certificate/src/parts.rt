// The parts of a line, read from the front of a text.
ghost use Rattle.std.specs.Prelude.{◌≡◌, ◌<◌, ◌≤◌, IfSome, length};
ghost use Rattle.std.specs.Option.{ForSome};
ghost use Rattle.certificate.specs.Answers.{Gives};
ghost use Rattle.certificate.specs.Parts.{behind as spelled_behind, digit_in as spelled_digit};
ghost use Rattle.certificate.specs.Parts.{digit_at as spelled_digit_at};
ghost use Rattle.certificate.specs.Parts.{byte_at as spelled_byte, address_at as spelled_address};
ghost use Rattle.certificate.specs.Parts.{bit_at as spelled_bit};
ghost use Rattle.certificate.specs.Parts.{known_byte_at as spelled_known_byte};
ghost use Rattle.certificate.specs.Parts.{known_address_at as spelled_known_address};
ghost use Rattle.certificate.specs.Parts.{known_octal_at as spelled_known_octal, known_bit_at as spelled_known_bit};
ghost use Rattle.certificate.specs.Parts.{bytes_at as spelled_bytes};

/// What is behind a mark, where a text begins with it.
pub fn behind<'a>(mark: &[u8], text: &'a [u8]) -> Option<&'a [u8]>
    ensures { Gives (λ rest. rest.now) result (spelled_behind mark.now text.now) }
{
    text.strip_prefix(mark)
}

/// The value of a digit in a radix, 2 to 16. Letters may be of either case.
#[tactic(auto, unfolding(crate::specs::Parts::digit_in))]
fn digit_in(radix: u32, byte: u8) -> Option<u8>
    requires least { 2 ≤ radix }
    requires most { radix ≤ 16 }
    ensures value { result ≡ spelled_digit radix byte }
    ensures below { IfSome result (λ digit. digit < radix) }
{
    let digit = char::from(byte).to_digit(radix)?;
    Some(digit as u8)
}

/// A digit in a radix, 2 to 16.
#[tactic(auto, unfolding(crate::specs::Parts::digit_at))]
pub fn digit_at(radix: u32, text: &[u8]) -> Option<(u8, &[u8])>
    requires least { 2 ≤ radix }
    requires most { radix ≤ 16 }
    ensures value { Gives (λ x. (x.0, x.1.now)) result (spelled_digit_at radix text.now) }
    ensures below { IfSome result (λ x. x.0 < radix) }
{
    let (first, rest) = text.split_first()?;
    let digit = digit_in(radix, *first)?;
    Some((digit, rest))
}

/// A byte of two hexadecimal digits.
#[tactic(auto, unfolding(crate::specs::Parts::byte_at))]
pub fn byte_at(text: &[u8]) -> Option<(u8, &[u8])>
    ensures { Gives (λ x. (x.0, x.1.now)) result (spelled_byte text.now) }
{
    let (high, rest) = digit_at(16, text)?;
    let (low, rest) = digit_at(16, rest)?;
    Some((high * 16 + low, rest))
}

/// An address of four hexadecimal digits.
#[tactic(auto, unfolding(crate::specs::Parts::address_at))]
pub fn address_at(text: &[u8]) -> Option<(u16, &[u8])>
    ensures { Gives (λ x. (x.0, x.1.now)) result (spelled_address text.now) }
{
    let (high, rest) = byte_at(text)?;
    let (low, rest) = byte_at(rest)?;
    Some((u16::from(high) * 256 + u16::from(low), rest))
}

/// A bit, `0` or `1`.
#[tactic(auto, unfolding(crate::specs::Parts::bit_at))]
pub fn bit_at(text: &[u8]) -> Option<(bool, &[u8])>
    ensures { Gives (λ x. (x.0, x.1.now)) result (spelled_bit text.now) }
{
    let (digit, rest) = digit_at(2, text)?;
    Some((digit == 1, rest))
}

/// A byte, or two dashes where it is unknown.
#[tactic(auto, unfolding(crate::specs::Parts::known_byte_at))]
pub fn known_byte_at(text: &[u8]) -> Option<(Option<u8>, &[u8])>
    ensures { Gives (λ x. (x.0, x.1.now)) result (spelled_known_byte text.now) }
{
    if let Some(rest) = behind(b"--", text) {
        return Some((None, rest));
    }
    let (byte, rest) = byte_at(text)?;
    Some((Some(byte), rest))
}

/// An address, or four dashes where it is unknown.
#[tactic(auto, unfolding(crate::specs::Parts::known_address_at))]
pub fn known_address_at(text: &[u8]) -> Option<(Option<u16>, &[u8])>
    ensures { Gives (λ x. (x.0, x.1.now)) result (spelled_known_address text.now) }
{
    if let Some(rest) = behind(b"----", text) {
        return Some((None, rest));
    }
    let (at, rest) = address_at(text)?;
    Some((Some(at), rest))
}

/// An octal digit, or a dash where it is unknown.
#[tactic(auto, unfolding(crate::specs::Parts::known_octal_at))]
pub fn known_octal_at(text: &[u8]) -> Option<(Option<u8>, &[u8])>
    ensures value { Gives (λ x. (x.0, x.1.now)) result (spelled_known_octal text.now) }
    ensures below { IfSome result (λ x. ForSome x.0 (λ digit. digit < 8)) }
{
    if let Some(rest) = behind(b"-", text) {
        return Some((None, rest));
    }
    let (digit, rest) = digit_at(8, text)?;
    Some((Some(digit), rest))
}

/// A bit, or a dash where it is unknown.
#[tactic(auto, unfolding(crate::specs::Parts::known_bit_at))]
pub fn known_bit_at(text: &[u8]) -> Option<(Option<bool>, &[u8])>
    ensures { Gives (λ x. (x.0, x.1.now)) result (spelled_known_bit text.now) }
{
    if let Some(rest) = behind(b"-", text) {
        return Some((None, rest));
    }
    let (bit, rest) = bit_at(text)?;
    Some((Some(bit), rest))
}

/// Fills a list with bytes, each known or not and each behind a mark, and gives what is behind them.
pub fn bytes_at<'a>(mark: &[u8], bytes: &mut [Option<u8>], text: &'a [u8]) -> Option<&'a [u8]>
    ensures { Gives (λ rest. (bytes.new, rest.now)) result
        (spelled_bytes mark.now (length bytes.old) text.now) }
{
    let mut rest = text;
    for byte in bytes.iter_mut() {
        let (value, after) = known_byte_at(behind(mark, rest)?)?;
        *byte = value;
        rest = after;
    }
    Some(rest)
}
