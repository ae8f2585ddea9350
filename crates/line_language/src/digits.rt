//! Numbers in digits. Most are small: their digits are bytes of which it is known how many there are, so
//! that a writer that is a buffer takes them by one move.
ghost use Rattle.std.specs.Prelude.{◌≡◌, ◌+◌, ◌<◌, ◌≤◌, decimal};
ghost use Rattle.txn_bytes.specs.Written.{Puts};

use itoa::Buffer;
use txn_bytes::{Sink, WriteFault, put};

#[inline(always)]
fn digit(value: u64) -> u8
    requires { value < 10 }
    ensures { result ≡ 48 + value }
{
    b'0' + value as u8
}

#[inline(always)]
fn one_digit(number: u64) -> [u8; 1]
    requires { number < 10 }
    ensures { result ≡ decimal number }
{
    [digit(number)]
}

#[inline(always)]
fn two_digits(number: u64) -> [u8; 2]
    requires low { 10 ≤ number }
    requires high { number < 100 }
    ensures { result ≡ decimal number }
{
    let (tens, ones) = (digit(number / 10), digit(number % 10));
    [tens, ones]
}

#[inline(always)]
fn three_digits(number: u64) -> [u8; 3]
    requires low { 100 ≤ number }
    requires high { number < 1000 }
    ensures { result ≡ decimal number }
{
    let (front, ones) = (two_digits(number / 10), digit(number % 10));
    [front[0], front[1], ones]
}

// A number of any size.
#[inline(never)]
fn put_long<W: Sink>(out: &mut W, number: u64) -> Result<(), WriteFault>
    ensures { Puts W.Sink out.old out.new (decimal number) result }
{
    let mut buffer = Buffer::new();
    put(out, buffer.format(number).as_bytes())
}

/// Writes the number in digits. After a fault, the only one, the writer has taken a beginning of that.
#[inline(always)]
pub(crate) fn put_digits<W: Sink>(out: &mut W, number: u64) -> Result<(), WriteFault>
    ensures { Puts W.Sink out.old out.new (decimal number) result }
{
    if number < 10 {
        return put(out, &one_digit(number));
    }
    if number < 100 {
        return put(out, &two_digits(number));
    }
    if number < 1000 {
        return put(out, &three_digits(number));
    }
    put_long(out, number)
}
