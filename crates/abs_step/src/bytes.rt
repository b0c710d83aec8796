// What an instruction makes of bytes that may be unknown.
ghost use Rattle.std.specs.Prelude.{◌≡◌, ◌+◌, ◌-◌, ◌*◌, ◌/◌, ◌%◌, ◌<◌};
ghost use Rattle.std.specs.Prelude.{bit_and, bit_or, bit_xor, false, option_map};
ghost use Rattle.std.specs.Option.{ForSome};
ghost use Rattle.f8_spec.specs.Words.{sum_value, decimal_value};
ghost use Rattle.f8_words.specs.Sums.{sum_of};
ghost use Rattle.abs_step.specs.Known.{lift2, lift3};

use f8_words::{Sum, add9, bcd};

/// Shifted right by one bit.
pub fn half(byte: Option<u8>) -> Option<u8>
    ensures { result ≡ option_map (λ a. a / 2) byte }
{
    Some(byte? >> 1)
}

/// Shifted left by one bit.
pub fn double(byte: Option<u8>) -> Option<u8>
    ensures { result ≡ option_map (λ a. a * 2 % 256) byte }
{
    Some(byte? << 1)
}

/// Shifted right by four bits.
pub fn high_digit(byte: Option<u8>) -> Option<u8>
    ensures { result ≡ option_map (λ a. a / 16) byte }
{
    Some(byte? >> 4)
}

/// Shifted left by four bits.
pub fn low_digit_as_high(byte: Option<u8>) -> Option<u8>
    ensures { result ≡ option_map (λ a. a * 16 % 256) byte }
{
    Some(byte? << 4)
}

/// Each bit turned over.
pub fn complement(byte: Option<u8>) -> Option<u8>
    ensures { result ≡ option_map (λ a. 255 - a) byte }
{
    Some(!byte?)
}

pub fn and(first: Option<u8>, second: Option<u8>) -> Option<u8>
    ensures { result ≡ lift2 bit_and first second }
{
    Some(first? & second?)
}

pub fn or(first: Option<u8>, second: Option<u8>) -> Option<u8>
    ensures { result ≡ lift2 bit_or first second }
{
    Some(first? | second?)
}

pub fn xor(first: Option<u8>, second: Option<u8>) -> Option<u8>
    ensures { result ≡ lift2 bit_xor first second }
{
    Some(first? ^ second?)
}

/// An octal digit moved on, modulo 8.
pub fn moved_digit(digit: Option<u8>, by: u8) -> Option<u8>
    requires octal { ForSome digit (λ digit. digit < 8) }
    requires below { by < 8 }
    ensures value { result ≡ option_map (λ digit. (digit + by) % 8) digit }
    ensures octal { ForSome result (λ digit. digit < 8) }
{
    Some((digit? + by) % 8)
}

/// The sum of two bytes and a carry, where all three are known.
pub fn known_sum(a: Option<u8>, b: Option<u8>, carry: Option<bool>) -> Option<Sum>
    ensures { result ≡ lift3 sum_of a b carry }
{
    Some(add9(a?, b?, carry?))
}

/// The decimal sum of two bytes, where both are known.
pub fn known_decimal_sum(a: Option<u8>, b: Option<u8>) -> Option<u8>
    ensures { result ≡ lift2 decimal_value a b }
{
    let (decimal, _) = bcd(a?, b?);
    Some(decimal)
}

/// The byte of a sum.
pub fn sum_value(sum: Option<Sum>) -> Option<u8>
    ensures { result ≡ option_map (λ s. s.value) sum }
{
    Some(sum?.value)
}

/// One less, which is the sum with 255.
pub fn one_less(byte: Option<u8>) -> Option<u8>
    ensures { result ≡ option_map (λ byte. sum_value byte 255 false) byte }
{
    Some(add9(byte?, 0xFF, false).value)
}
