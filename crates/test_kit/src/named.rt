//! Names, labels, keys and groups by their texts. A text that is none of these is a slip of the test
//! that has it, and gets one that no test asks for.
use txn_names::{Group, Key, Label, Name};

fn name_of(bytes: &[u8]) -> Name {
    match Name::parse(bytes) {
        Ok(name) => name,
        Err(_) => Name::of_spelled(b"no/name", 2),
    }
}

/// The name that the text spells, or `no/name` where it spells none.
pub fn name(text: &str) -> Name {
    name_of(text.as_bytes())
}

fn key_of(bytes: &[u8]) -> Key {
    match Key::parse(bytes) {
        Ok(key) => key,
        Err(_) => Key::of(b"no-key"),
    }
}

/// The key that the text is, or `no-key` where it is none.
pub fn key(text: &str) -> Key {
    key_of(text.as_bytes())
}

/// The group that the text is, or `no-group` where it is none.
pub fn group(text: &str) -> Group {
    match Group::parse(text.as_bytes()) {
        Ok(group) => group,
        Err(_) => Group::parse(b"no-group").unwrap(),
    }
}

/// The label that the text is, or `nolabel` where it is none.
pub fn label(text: &str) -> Label {
    match Label::parse(text.as_bytes()) {
        Ok(label) => label,
        Err(_) => Label::parse(b"nolabel").unwrap(),
    }
}

// The two digits of a number below 100. Of a greater one the last two count.
fn digits(number: u8) -> [u8; 2] {
    [b'0' + number / 10 % 10, b'0' + number % 10]
}

/// One of a hundred keys, by its number: `k00` to `k99`, in byte order.
pub fn numbered_key(number: u8) -> Key {
    let [tens, ones] = digits(number);
    key_of(&[b'k', tens, ones])
}

/// One of a hundred keys of the group `g`, by its number: `g.00` to `g.99`.
pub fn grouped_key(number: u8) -> Key {
    let [tens, ones] = digits(number);
    key_of(&[b'g', b'.', tens, ones])
}

/// One of a hundred names at the top, by its number: `t00` to `t99`.
pub fn numbered_name(number: u8) -> Name {
    let [tens, ones] = digits(number);
    name_of(&[b't', tens, ones])
}

/// One of a hundred names below `a`, by its number: `a/00` to `a/99`.
pub fn child_name(number: u8) -> Name {
    let [tens, ones] = digits(number);
    name_of(&[b'a', b'/', tens, ones])
}
