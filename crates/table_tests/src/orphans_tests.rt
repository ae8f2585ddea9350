//! Which front is the topmost, and that a refused growth leaves the marks: a trial run has each
//! growth refused in turn.
ghost use Rattle.std.specs.Prelude.{◌≤◌};

use orphans::Marks;
use std::process::Abort;
use test_kit::name;
use txn_names::Name;

// Makes room. Where that is refused, what is marked stays, and the call made again succeeds.
fn make_room(rt: &impl Abort, marks: &mut Marks, additional: usize, marked: &Name)
    ensures { additional ≤ marks.new.room }
{
    let top = marks.top_aborted(marked);
    if marks.reserve(additional).is_err() {
        assert!(rt; marks.top_aborted(marked) == top);
        marks.reserve(additional).expect(rt, "memory");
    }
}

fn mark(rt: &impl Abort, marks: &mut Marks, name: &Name) {
    make_room(rt, marks, 1, name);
    marks.mark(name);
}

#[test]
fn answers_the_topmost_mark(rt: HostRuntime) {
    let mut marks = Marks::new(rt.alloc());
    mark(&rt, &mut marks, &name("a/b/c"));
    assert!(rt;
        marks.top_aborted(&name("a/b/c/d")) == Some(name("a/b/c")),
        "one mark"
    );
    make_room(&rt, &mut marks, 1000, &name("a/b/c"));
    for _ in 0..2 {
        mark(&rt, &mut marks, &name("a/b"));
    }
    for (text, top) in [
        ("a/b/c/d", Some(name("a/b"))),
        ("a/b/c", Some(name("a/b"))),
        ("a/b", Some(name("a/b"))),
        ("a", None),
        ("a/bc", None),
        ("b/a/b", None),
    ] {
        assert!(rt; marks.top_aborted(&name(text)) == top, "{text}");
    }
}

// One of a hundred paths of 8 labels to a transaction, by its number.
fn path(rt: &impl Abort, number: u8) -> Name {
    let (tens, ones) = (b'0' + number / 10 % 10, b'0' + number % 10);
    let text = [
        b'a', b'/', b'b', b'/', b'c', b'/', b'd', b'/', b'e', b'/', b'f', b'/', b't', tens, ones,
        b'/', b'h',
    ];
    Name::parse(&text).expect(rt, "a path")
}

#[test]
fn holds_a_hundred_marks(rt: HostRuntime) {
    let mut marks = Marks::new(rt.alloc());
    for number in 0..100 {
        mark(&rt, &mut marks, &path(&rt, number));
    }
    for number in 0..100 {
        let path = path(&rt, number);
        assert!(rt; marks.top_aborted(&path) == Some(path), "{number}");
    }
    for text in ["a/b/c/d/e/f/t100/h", "a/b/c/d/e/f/t99"] {
        assert!(rt; marks.top_aborted(&name(text)).is_none(), "{text}");
    }
}
