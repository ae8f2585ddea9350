//! Bytes copied to a place of their length.
ghost use Rattle.std.specs.Prelude.{◌≡◌, ◌+◌, ◌≤◌, length};

// Copies the first so many and the last so many, which are all: they meet or lap.
#[inline(always)]
fn copy_ends(to: &mut [u8], from: &[u8], size: usize)
    requires len { length to.old ≡ length from.now }
    requires within { size ≤ length from.now }
    requires whole { length from.now ≤ size + size }
    ensures { to.new ≡ from.now }
{
    to[..size].copy_from_slice(&from[..size]);
    let last = from.len() - size;
    to[last..].copy_from_slice(&from[last..]);
}

/// Copies the bytes. A few, as most parts of lines are, are copied by two moves and without a call,
/// and found by two or three compares.
#[inline(always)]
pub(crate) fn copy(to: &mut [u8], from: &[u8])
    requires { length to.old ≡ length from.now }
    ensures { to.new ≡ from.now }
{
    let len = from.len();
    if len < 4 {
        if len >= 2 {
            copy_ends(to, from, 2);
        } else if len == 1 {
            copy_ends(to, from, 1);
        }
    } else if len < 8 {
        copy_ends(to, from, 4);
    } else if len <= 16 {
        copy_ends(to, from, 8);
    } else {
        to.copy_from_slice(from);
    }
}
