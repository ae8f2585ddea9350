//! Names and keys with numbers in them.
ghost use Rattle.std.specs.Prelude.{◌<◌};

use txn_names::{Key, Name};

/// The bytes of a label, and of the slash behind it.
const LABEL: usize = 8;

/// The greatest depth of a name.
const DEPTH: usize = 8;

fn digit_of(number: u32, place: u32) -> u8
    requires { 0 < place }
{
    b'0' + (number / place % 10) as u8
}

// A letter and the last six digits of the number.
fn label_of(number: u32) -> [u8; 7] {
    [
        b't',
        digit_of(number, 100_000),
        digit_of(number, 10_000),
        digit_of(number, 1_000),
        digit_of(number, 100),
        digit_of(number, 10),
        digit_of(number, 1),
    ]
}

/// The name whose labels have these numbers, of which there are 1 to 8.
pub fn name_of(numbers: &[u32]) -> Option<Name> {
    let mut bytes = [b'/'; LABEL * DEPTH];
    let depth = numbers.len().min(DEPTH);
    for place in 0..depth {
        let label = label_of(numbers[place]);
        for offset in 0..7 {
            bytes[place * LABEL + offset] = label[offset];
        }
    }
    if depth == 0 {
        return None;
    }
    Name::parse(&bytes[..depth * LABEL - 1]).ok()
}

/// The key with this number.
pub fn key_of(number: u32) -> Option<Key> {
    Key::parse(&label_of(number)).ok()
}
