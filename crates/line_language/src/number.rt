//! Numbers, as they are spelled.
ghost use Rattle.std.specs.Prelude.{◌≡◌, ◌<◌, ◌^◌, true, IfSome};
ghost use Rattle.std.specs.Char.{is_ascii_digit};
ghost use Rattle.std.specs.List.{list_all};
ghost use Rattle.std.specs.Str.Parse.{digits_value};
ghost use Rattle.line_language.specs.Numbers.{is_count, is_numeral, number_of};

use std::str;

/// A digit more leaves a number below this one an `i64`.
const MANY: u64 = 100_000_000_000_000_000;

fn are_digits(bytes: &[u8]) -> bool
    ensures { result ≡ list_all is_ascii_digit bytes.now }
{
    bytes.iter().all(|b| b.is_ascii_digit())
}

// Digits of which the first is not 0.
fn is_count(bytes: &[u8]) -> bool
    ensures { result ≡ is_count bytes.now }
{
    match bytes {
        [] => false,
        [first, ..] => *first != b'0' && are_digits(bytes),
    }
}

fn is_numeral(bytes: &[u8]) -> bool
    ensures { result ≡ is_numeral bytes.now }
{
    match bytes {
        b"0" => true,
        [b'-', digits @ ..] => is_count(digits),
        _ => is_count(bytes),
    }
}

// The number that the bytes spell, by way of their text.
fn number_in_text(bytes: &[u8]) -> Option<i64>
    ensures { result ≡ number_of bytes.now }
{
    if !is_numeral(bytes) {
        return None;
    }
    match str::from_utf8(bytes) {
        Ok(text) => text.parse().ok(),
        Err(_) => None,
    }
}

// The number that the bytes write, where they are digits and it is not large.
fn counted(bytes: &[u8]) -> Option<u64>
    ensures { IfSome result (λ n. (list_all is_ascii_digit bytes.now ≡ true)
        × (n ≡ digits_value 10 bytes.now) × (n < 2 ^ 63)) }
{
    let mut count = 0u64;
    for &byte in bytes {
        if !byte.is_ascii_digit() {
            return None;
        }
        if count >= MANY {
            return None;
        }
        count = count * 10 + u64::from(byte - b'0');
    }
    Some(count)
}

/// The number that the bytes spell, where it is an `i64`: `0`, or digits of which the first is not
/// `0`, with a `-` before them or not. Each number has one spelling. Digits alone, as most are, are
/// read in one pass.
pub fn parse_number(bytes: &[u8]) -> Option<i64>
    ensures { result ≡ number_of bytes.now }
{
    match bytes {
        [b'1'..=b'9', ..] => match counted(bytes) {
            Some(count) => Some(count as i64),
            None => number_in_text(bytes),
        },
        _ => number_in_text(bytes),
    }
}
