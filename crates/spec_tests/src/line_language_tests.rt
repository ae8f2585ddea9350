//! Lines of reports: what is read of some, and that others are refused.
use line_language::{ReportEntry, parse_entry, parse_row};
use serial_spec::{Answer, Event, Op, Refusal, Reply, When};
use std::process::Abort;
use txn_names::{Group, Key, Label, Name};

fn name(rt: &impl Abort, text: &str) -> Name {
    Name::parse(text.as_bytes()).expect(rt, text)
}

fn key(rt: &impl Abort, text: &str) -> Key {
    Key::parse(text.as_bytes()).expect(rt, text)
}

// Whether the text is read as this line's entry.
fn is_line(rt: &impl Abort, text: &str, place: (&str, u32), event: Event, answer: Answer) -> bool {
    let label = Label::parse(place.0.as_bytes()).expect(rt, text);
    let line = place.1;
    let entry = ReportEntry::Line {
        label,
        line,
        event,
        answer,
    };
    parse_entry(text.as_bytes()) == Some(entry)
}

#[test]
fn entries_of_lines(rt: HostRuntime) {
    let (a, below, x) = (name(&rt, "a"), name(&rt, "a/b"), key(&rt, "x-1"));
    let (begin, commit) = (Event::Begin(below), Event::Commit(a));
    let (add, get) = (
        Event::Access(a, x, Op::Add(-4)),
        Event::Access(below, x, Op::Get),
    );
    let orphan = Answer::Refused(Refusal::Orphan(a));
    let new = Answer::Done(Reply::New(-5));
    let store = Answer::Refused(Refusal::Store);
    let after = Event::After(a, When::Done);
    assert!(rt;
        is_line(
            &rt,
            "s 1024 begin a/b -> orphan a",
            ("s", 1024),
            begin,
            orphan
        )
    );
    assert!(rt; is_line(&rt, "s0 2 add a x-1 -4 -> new -5", ("s0", 2), add, new));
    assert!(rt;
        is_line(
            &rt,
            "q 3 get a/b x-1 -> waits",
            ("q", 3),
            get,
            Answer::Waits
        )
    );
    assert!(rt;
        is_line(
            &rt,
            "q 4 commit a -> refused store",
            ("q", 4),
            commit,
            store
        )
    );
    assert!(rt;
        is_line(
            &rt,
            "q 5 after a done -> stuck",
            ("q", 5),
            after,
            Answer::Stuck
        )
    );
    assert!(rt; parse_entry(b"* victim a/b") == Some(ReportEntry::Victim(below)));
    assert!(rt; parse_entry(b"* close a") == Some(ReportEntry::Close(a)));
}

// Whether the text is read as this answer of a sum in line 7.
fn is_sum(rt: &impl Abort, text: &str, answer: Answer) -> bool {
    let group = Group::parse(b"g.h").expect(rt, "g.h");
    is_line(
        rt,
        text,
        ("s", 7),
        Event::Sum(name(rt, "a/b"), group),
        answer,
    )
}

#[test]
fn entries_of_sums(rt: HostRuntime) {
    for (text, reply) in [
        ("s 7 sum a/b g.h -> value 0", Reply::Value(0)),
        ("s 7 sum a/b g.h -> value -1", Reply::Value(-1)),
        ("s 7 sum a/b g.h -> overflow", Reply::Overflow),
    ] {
        assert!(rt; is_sum(&rt, text, Answer::Done(reply)), "{text}");
    }
    assert!(rt; is_sum(&rt, "s 7 sum a/b g.h -> waits", Answer::Waits));
    assert!(rt; is_sum(&rt, "s 7 sum a/b g.h -> stuck", Answer::Stuck));
}

#[test]
fn refusals_of_sums(rt: HostRuntime) {
    let orphan = Refusal::Orphan(name(&rt, "a"));
    for (text, cause) in [
        ("s 7 sum a/b g.h -> refused unknown", Refusal::Unknown),
        ("s 7 sum a/b g.h -> refused done", Refusal::Done),
        ("s 7 sum a/b g.h -> refused waiting", Refusal::Waiting),
        ("s 7 sum a/b g.h -> orphan a", orphan),
    ] {
        assert!(rt; is_sum(&rt, text, Answer::Refused(cause)), "{text}");
    }
}

// No limit refuses a sum, since it makes no key known.
#[test]
fn lines_that_are_no_entries_of_sums(rt: HostRuntime) {
    for text in [
        "s 1 sum a g -> ok",
        "s 1 sum a g -> none",
        "s 1 sum a g -> new 3",
        "s 1 sum a g -> value 9223372036854775808",
        "s 1 sum a g -> refused full",
        "s 1 sum a g -> refused children",
        "s 1 sum a g -> refused store",
        "s 1 sum a G -> value 0",
        "s 1 sum a g h -> value 0",
        "s 1 sum a abcdefghijklmnopqrstuvwxyz012345 -> value 0",
    ] {
        assert!(rt; parse_entry(text.as_bytes()).is_none(), "{text}");
    }
}

#[test]
fn lines_that_are_no_entries(rt: HostRuntime) {
    for text in [
        "",
        "open",
        "x=5",
        "s 1",
        "s 0 begin a -> ok",
        "s 1025 begin a -> ok",
        "s 01 begin a -> ok",
        "S 1 begin a -> ok",
        "s 1 begin a",
        "s 1 begin a ->ok",
        "s 1 begin a-> ok",
        "s 1 begin a -> ok ",
        "s 1  begin a -> ok",
        "s 1 begin a -> waits",
        "s 1 begin a -> refused done",
        "s 1 get a x -> ok",
        "s 1 get a x -> value 05",
        "s 1 set a x 5 -> new 5",
        "s 1 add a x 5 -> value 5",
        "s 1 commit a -> refused full",
        "s 1 abort a -> stuck",
        "s 1 after a begun -> waits",
        "s 1 session q -> ok",
        "* victim",
        "* victim A",
        "* abort a",
        "*  close a",
        "** close a",
    ] {
        assert!(rt; parse_entry(text.as_bytes()).is_none(), "{text}");
    }
}

#[test]
fn rows(rt: HostRuntime) {
    let row = (key(&rt, "g.x"), i64::MIN);
    assert!(rt; parse_row(b"g.x=-9223372036854775808") == Some(row));
    for text in [
        "x",
        "x=",
        "=5",
        "x=5 ",
        "x==5",
        "x=9223372036854775808",
        "X=1",
        "x=+1",
    ] {
        assert!(rt; parse_row(text.as_bytes()).is_none(), "{text}");
    }
}
