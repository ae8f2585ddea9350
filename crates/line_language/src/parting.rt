//! Cutting bytes at one of them, and lines off the front of bytes.
ghost use Rattle.std.specs.Prelude.{◌≡◌, ◌<◌, ◌==◌, ◌∷◌, length, position, IfSome};
ghost use Rattle.std.specs.Option.{option_copied};
ghost use Rattle.line_language.specs.Words.{before, behind, cut_at, parts_left};

use memchr::memchr;

fn first_place(bytes: &[u8], at: u8) -> Option<usize>
    ensures { result ≡ position (λ b. b == at) bytes.now }
{
    bytes.iter().position(|b| *b == at)
}

// As `first_place`, of a line feed, which is found many bytes at a time.
fn first_feed(bytes: &[u8]) -> Option<usize>
    ensures { result ≡ position (λ b. b == 10) bytes.now }
{
    memchr(b'\n', bytes)
}

// What stands before the first `at`, whose place this is, and what stands behind it.
fn parted(bytes: &[u8], _at: u8, place: Option<usize>) -> (&[u8], Option<&[u8]>)
    requires { place ≡ position (λ b. b == _at) bytes.now }
    ensures before { result.0.now ≡ before _at bytes.now }
    ensures behind { option_copied result.1 ≡ behind _at bytes.now }
    ensures parts { cut_at _at bytes.now ≡ result.0.now ∷ parts_left _at (option_copied result.1) }
    ensures shorter { IfSome (option_copied result.1) (λ rest. length rest < length bytes.now) }
{
    match place {
        Some(end) => (&bytes[..end], Some(&bytes[end + 1..])),
        None => (bytes, None),
    }
}

/// What stands before the first `at`, and what stands behind it, where there is one. Words are
/// short, so that byte by byte is as quick as any other way.
pub fn cut(bytes: &[u8], at: u8) -> (&[u8], Option<&[u8]>)
    ensures before { result.0.now ≡ before at bytes.now }
    ensures behind { option_copied result.1 ≡ behind at bytes.now }
    ensures parts { cut_at at bytes.now ≡ result.0.now ∷ parts_left at (option_copied result.1) }
    ensures shorter { IfSome (option_copied result.1) (λ rest. length rest < length bytes.now) }
{
    parted(bytes, at, first_place(bytes, at))
}

/// What stands before the first line feed, and what stands behind it, where there is one.
pub fn cut_line(bytes: &[u8]) -> (&[u8], Option<&[u8]>)
    ensures before { result.0.now ≡ before 10 bytes.now }
    ensures behind { option_copied result.1 ≡ behind 10 bytes.now }
    ensures parts { cut_at 10 bytes.now ≡ result.0.now ∷ parts_left 10 (option_copied result.1) }
    ensures shorter { IfSome (option_copied result.1) (λ rest. length rest < length bytes.now) }
{
    parted(bytes, b'\n', first_feed(bytes))
}
