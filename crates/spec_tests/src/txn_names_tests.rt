//! The worked values of names, that each call can succeed, and where a fault of the writer stops a
//! name.
use std::alloc::Global;
use std::hash::{DefaultHasher, Hash, Hasher};
use std::io;
use std::io::{ErrorKind, Write};
use std::process::Abort;
use txn_bytes::WriteFault;
use txn_names::{Change, Group, Key, KeyFault, Label, LabelFault, Name, NameFault, laws};

/// Takes one byte at each of `calls` calls, and then answers an error, or that it took nothing.
#[derive(Drop)]
struct Halting {
    taken: Vec<u8>,
    calls: usize,
    fails: bool,
}

impl Write for Halting {
    fn write(&mut self, bytes: &[u8]) -> io::Result<usize> {
        if self.calls == 0 {
            return if self.fails {
                Err(io::Error::from(ErrorKind::Other))
            } else {
                Ok(0)
            };
        }
        self.calls -= 1;
        let count = bytes.len().min(1);
        self.taken.extend_from_slice(&bytes[..count])?;
        Ok(count)
    }

    fn flush(&mut self) -> io::Result<()> {
        Ok(())
    }
}

fn name(rt: &impl Abort, text: &str) -> Name {
    Name::parse(text.as_bytes()).expect(rt, text)
}

fn label(rt: &impl Abort, text: &str) -> Label {
    Label::parse(text.as_bytes()).expect(rt, text)
}

fn key(rt: &impl Abort, text: &str) -> Key {
    Key::parse(text.as_bytes()).expect(rt, text)
}

fn group(rt: &impl Abort, text: &str) -> Group {
    Group::parse(text.as_bytes()).expect(rt, text)
}

fn hash_of<T: Hash>(value: &T) -> u64 {
    let mut state = DefaultHasher::new();
    value.hash(&mut state);
    state.finish()
}

fn greater<T: Ord + Copy>(a: T, b: T) -> T {
    if a < b { b } else { a }
}

// Whether this is the parent, or the text is empty and there is none.
fn is_parent(rt: &impl Abort, child: &str, parent: &str) -> bool {
    match name(rt, child).parent() {
        Some(found) => !parent.is_empty() && found == name(rt, parent),
        None => parent.is_empty(),
    }
}

// Whether this is the front of so many labels.
fn is_front_of(rt: &impl Abort, whole: &str, depth: usize, front: &str) -> bool {
    let whole = name(rt, whole);
    0 < depth && depth <= whole.depth() && whole.front(depth) == name(rt, front)
}

#[test]
fn refuses_names(rt: HostRuntime) {
    for (text, fault) in [
        ("", NameFault::Empty),
        ("a//b", NameFault::Empty),
        ("/a", NameFault::Empty),
        ("a/", NameFault::Empty),
        ("A", NameFault::BadByte),
        ("a b", NameFault::BadByte),
        ("aaaaaaaaaaaaaaaaa", NameFault::Long),
        ("a/b/c/d/e/f/g/h/i/j/k/l/m/n/o/p/q", NameFault::Deep),
    ] {
        assert!(rt; Name::parse(text.as_bytes()).err() == Some(fault), "{text}");
    }
}

#[test]
fn reads_names(rt: HostRuntime) {
    for (text, depth, parent) in [
        ("a", 1, ""),
        ("a/b", 2, "a"),
        ("a/b/c/d/e/f/g/h/i", 9, "a/b/c/d/e/f/g/h"),
        (
            "0123456789abcdef/b/c/d/e/f/g/h/i/j/k/l/m/n/o/z",
            16,
            "0123456789abcdef/b/c/d/e/f/g/h/i/j/k/l/m/n/o",
        ),
    ] {
        assert!(rt; name(&rt, text).depth() == depth, "{text}");
        assert!(rt; is_parent(&rt, text, parent), "{text}");
        assert!(rt; is_front_of(&rt, text, depth, text), "{text}");
    }
    assert!(rt; is_front_of(&rt, "a/b", 1, "a"));
    assert!(rt; name(&rt, "a/b") != name(&rt, "b/a"));
    assert!(rt; hash_of(&name(&rt, "a/b")) == hash_of(&name(&rt, "a/b")));
    assert!(rt; hash_of(&name(&rt, "a/b")) != hash_of(&name(&rt, "ab")));
}

// How many leading labels two names share.
fn met(rt: &impl Abort, a: &str, b: &str) -> usize {
    Name::meet_depth(&name(rt, a), &name(rt, b))
}

#[test]
fn relates_names(rt: HostRuntime) {
    for (a, b, depth) in [("a/b/c", "a/b/d", 2), ("a", "ab", 0)] {
        assert!(rt; met(&rt, a, b) == depth, "{a} and {b}");
    }
    for (front, whole, want) in [("a", "a/b", true), ("a", "a", true), ("a", "ab", false)] {
        let is_front = name(&rt, front).is_ancestor_or_self(&name(&rt, whole));
        assert!(rt; is_front == want, "{front} of {whole}");
    }
}

// Whether a writer that halts after so many calls has taken just this of the name `ab/c`, and the
// end was told.
fn halts(rt: &impl Abort, alloc: Global, fails: bool, calls: usize, want: &str) -> bool {
    let taken = Vec::new(alloc);
    let mut out = Halting {
        taken,
        calls,
        fails,
    };
    let told = name(rt, "ab/c").write_to(&mut &mut out);
    let wanted = if calls == 4 { Ok(()) } else { Err(WriteFault) };
    told == wanted && out.taken.as_slice() == want.as_bytes()
}

#[test]
fn spells_names(rt: HostRuntime) {
    let deep = name(&rt, "ab/c");
    assert!(rt; deep.spelled() == b"ab/c".as_slice() && deep.is_spelled(b"ab/c"));
    for other in ["ab", "c", "ab/", "ab/c0"] {
        assert!(rt; !deep.is_spelled(other.as_bytes()), "{other}");
    }
}

#[test]
fn writes_names(rt: HostRuntime) {
    let mut all = Vec::new(rt.alloc());
    assert!(rt; name(&rt, "ab/c").write_to(&mut all) == Ok(()));
    assert!(rt; all.as_slice() == b"ab/c".as_slice());
    for (calls, want) in [(0, ""), (1, "a"), (2, "ab"), (3, "ab/"), (4, "ab/c")] {
        for fails in [false, true] {
            assert!(rt;
                halts(&rt, rt.alloc(), fails, calls, want),
                "after {calls} calls"
            );
        }
    }
}

#[test]
fn refuses_labels_and_keys(rt: HostRuntime) {
    for (text, fault) in [
        ("", LabelFault::Empty),
        ("a.b", LabelFault::BadByte),
        ("aaaaaaaaaaaaaaaaa", LabelFault::Long),
    ] {
        assert!(rt;
            Label::parse(text.as_bytes()).err() == Some(fault),
            "{text}"
        );
    }
    for (text, fault) in [
        ("", KeyFault::Empty),
        ("a/b", KeyFault::BadByte),
        ("aaaaaaaaaaaaaaaaaaaaaaaaaaaaaaaaa", KeyFault::Long),
    ] {
        assert!(rt; Key::parse(text.as_bytes()).err() == Some(fault), "{text}");
    }
}

#[test]
fn reads_labels_and_keys(rt: HostRuntime) {
    let (label_read, key_read) = (label(&rt, "s1"), key(&rt, "a.b_c-9"));
    assert!(rt; label_read.as_bytes() == b"s1".as_slice());
    assert!(rt; key_read.as_bytes() == b"a.b_c-9".as_slice());
    assert!(rt; greater(label_read, label(&rt, "s")) == label_read);
    assert!(rt; greater(key_read, key(&rt, "a")) == key_read);
    assert!(rt; hash_of(&label_read) == hash_of(&label(&rt, "s1")));
    assert!(rt; hash_of(&key_read) == hash_of(&key(&rt, "a.b_c-9")));
}

#[test]
fn refuses_groups(rt: HostRuntime) {
    for (text, fault) in [
        ("", KeyFault::Empty),
        ("a/b", KeyFault::BadByte),
        ("aaaaaaaaaaaaaaaaaaaaaaaaaaaaaaaa", KeyFault::Long),
    ] {
        assert!(rt;
            Group::parse(text.as_bytes()).err() == Some(fault),
            "{text}"
        );
    }
}

#[test]
fn groups_have_keys(rt: HostRuntime) {
    for (front, text, has) in [
        ("g", "g.a", true),
        ("g", "g.", true),
        ("g", "g", false),
        ("g", "ga.b", false),
        ("g", "h.g.a", false),
        ("a", "a..b", true),
        ("a.", "a..b", true),
    ] {
        assert!(rt;
            group(&rt, front).has(&key(&rt, text)) == has,
            "{front} and {text}"
        );
    }
}

#[test]
fn finds_the_groups_of_a_key(rt: HostRuntime) {
    let whole = key(&rt, "a..b");
    for (place, front) in [(1, "a"), (2, "a.")] {
        let found = whole.group_before(place);
        assert!(rt; found == Some(group(&rt, front)), "{front}");
    }
    for place in [0, 3, 4] {
        assert!(rt; whole.group_before(place).is_none());
    }
    assert!(rt; key(&rt, ".a").group_before(0).is_none());
    assert!(rt; group(&rt, "a").first_key() == key(&rt, "a."));
    assert!(rt; group(&rt, "a").as_key() == key(&rt, "a"));
}

fn change(key: Key, value: Option<i64>) -> Change {
    Change { key, value }
}

#[test]
fn tells_changes_apart(rt: HostRuntime) {
    let key = key(&rt, "a");
    assert!(rt; change(key, None) != change(key, Some(0)));
    laws::paths_decided();
}
