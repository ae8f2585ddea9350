//! Texts with the faults that they are due, and what is read of those without one.
use event_lists::{EventView, act_in, name_in};
use line_language::{MOST_COMMAND, put_event};
use serial_spec::{Event, Op, When};
use session_text::{Line, LineKind, Sessions, TextFault, parse_line, parse_number, parse_request};
use std::alloc::Global;
use std::process::Abort;
use txn_bytes::Bytes;
use txn_names::{Group, Key, Label, Name};

fn name(rt: &impl Abort, text: &str) -> Name {
    Name::parse(text.as_bytes()).expect(rt, text)
}

fn key(rt: &impl Abort, text: &str) -> Key {
    Key::parse(text.as_bytes()).expect(rt, text)
}

fn group(rt: &impl Abort, text: &str) -> Group {
    Group::parse(text.as_bytes()).expect(rt, text)
}

fn sessions_of(rt: &impl Abort, alloc: Global, text: &str) -> Sessions {
    match Sessions::parse(alloc, text.as_bytes()) {
        Ok(sessions) => sessions,
        Err(_) => panic!(rt; "{text}"),
    }
}

// Whether this is the first fault of the text, or the text is whole and there is none.
fn is_fault(alloc: Global, text: &[u8], fault: Option<(usize, LineKind)>) -> bool {
    match Sessions::parse(alloc, text) {
        Ok(_) => fault.is_none(),
        Err(TextFault::Bad { line, kind }) => fault == Some((line, kind)),
        Err(TextFault::NoMemory) => false,
    }
}

// Whether the text is that of a line that asks this.
fn is_spelled(event: &EventView<'_>, text: &str) -> bool {
    let mut spelled = Bytes::<MOST_COMMAND>::new();
    put_event(&mut spelled, event).is_ok() && spelled.as_bytes() == text.as_bytes()
}

fn is_text(event: &Event, text: &str) -> bool {
    let (name, act) = (name_in(event), act_in(event));
    is_spelled(&EventView { name, act: &act }, text)
}

// Whether the session has this line, which asks this and is spelled so.
fn is_line(sessions: &Sessions, session: u32, line: u32, event: Event, spelled: &str) -> bool {
    match sessions.line(session, line) {
        Some(found) => found.event() == event && is_spelled(&found, spelled),
        None => false,
    }
}

fn is_label(rt: &impl Abort, sessions: &Sessions, session: u32, text: &str) -> bool {
    match sessions.label(session) {
        Some(found) => *found == Label::parse(text.as_bytes()).expect(rt, text),
        None => false,
    }
}

#[test]
fn texts_and_their_faults(rt: HostRuntime) {
    for (text, fault) in [
        ("", None),
        ("session s\n", None),
        ("session s\nbegin a\nset a x 5\nget a x\ncommit a\n", None),
        ("session s\nbegin a\ncommit a\nget a x\ncommit a\n", None),
        (
            "session s\nbegin a/b/c/d/e/f/g/h/i/j/k/l/m/n/o/p/q\n",
            Some((2, LineKind::Name)),
        ),
        (
            "session s\nbegin aaaaaaaaaaaaaaaaa\n",
            Some((2, LineKind::Name)),
        ),
        ("session s\nset a x -0\n", Some((2, LineKind::Number))),
        (
            "session s\nset a x 9223372036854775808\n",
            Some((2, LineKind::Number)),
        ),
        ("session s\nget a  x\n", Some((2, LineKind::Shape))),
        ("session s\nput a x 1\n", Some((2, LineKind::Word))),
        ("session s\nsum a G\n", Some((2, LineKind::Key))),
        ("session s\nafter a gone\n", Some((2, LineKind::Word))),
        ("session s\n\n", Some((2, LineKind::Empty))),
        ("session s\nsession s\n", Some((2, LineKind::Header))),
        ("session s\nbegin a", Some((2, LineKind::End))),
        ("begin a\n", Some((1, LineKind::Header))),
        ("session\n", Some((1, LineKind::Shape))),
        ("session S\n", Some((1, LineKind::Label))),
        ("session s \n", Some((1, LineKind::Shape))),
        ("\n", Some((1, LineKind::Empty))),
        ("session s\r\n", Some((1, LineKind::Label))),
        (
            "session s\nbegin a\nset b x 01\n",
            Some((3, LineKind::Number)),
        ),
        (
            "session s\nbegin a\nget a x\nput\nget\n",
            Some((4, LineKind::Word)),
        ),
    ] {
        assert!(rt; is_fault(rt.alloc(), text.as_bytes(), fault), "{text}");
    }
}

// A text says what is asked, in any order: what may be done is for the run to answer.
#[test]
fn every_command_is_served(rt: HostRuntime) {
    for text in [
        "session s\nafter a begun\nafter a/b done\n",
        "session s\nsession q\nsession r\nbegin a\nsession t\n",
        "session s\nget a x\n",
        "session s\nbegin a/b/c/d/e/f/g/h/i\n",
        "session s\nbegin a/b/c/d/e/f/g/h/i/j/k/l/m/n/o/p\n",
        "session s\nbegin a\nbegin a\nbegin b\nbegin a/b\n",
        "session s\nbegin a\nget a/b x\nget b x\nset c/d x 1\n",
        "session s\nadd a x 1\ndel b x\nabort a/b\ncommit c\nbegin a\n",
        "session s\nsum a g\nsum a/b g.h\nbegin a\nsum a g\n",
    ] {
        assert!(rt; is_fault(rt.alloc(), text.as_bytes(), None), "{text}");
    }
}

#[test]
fn headers_and_conditions_with_faults(rt: HostRuntime) {
    for (text, fault) in [
        ("session s\nsession Q\n", (2, LineKind::Label)),
        ("session s\nsession q\nsession s\n", (3, LineKind::Header)),
        (
            "session s\nget a x\nsession q\nsession q\n",
            (4, LineKind::Header),
        ),
        ("session s\nsession q r\n", (2, LineKind::Shape)),
        ("session s\nafter a gone\n", (2, LineKind::Word)),
        ("session s\nbegin a\nafter a\n", (3, LineKind::Shape)),
        ("session s\nafter A begun\n", (2, LineKind::Name)),
        ("after a begun\n", (1, LineKind::Header)),
    ] {
        assert!(rt;
            is_fault(rt.alloc(), text.as_bytes(), Some(fault)),
            "{text}"
        );
    }
}

fn headers(rt: &impl Abort, alloc: Global, count: usize) -> String {
    let mut text = String::new(alloc);
    for i in 0..count {
        let header = format!(in alloc; "session s{i}\n").expect(rt, "memory");
        text.push_str(&header).expect(rt, "memory");
    }
    text
}

#[test]
fn many_headers(rt: HostRuntime) {
    for (count, fault) in [(64, None), (65, Some((65, LineKind::Limit)))] {
        let text = headers(&rt, rt.alloc(), count);
        assert!(rt; is_fault(rt.alloc(), text.as_bytes(), fault), "{count}");
    }
}

// A label that is taken is told before the limit, and the lines of each session are counted apart.
#[test]
fn a_text_of_many_sessions(rt: HostRuntime) {
    let mut text = headers(&rt, rt.alloc(), 64);
    text.push_str("get a x\nsession s63\n")
        .expect(&rt, "memory");
    let fault = Some((66, LineKind::Header));
    assert!(rt; is_fault(rt.alloc(), text.as_bytes(), fault));
    let mut text = long_session(&rt, rt.alloc(), 1024, "session q\n");
    text.push_str("get b x\nafter a done\n")
        .expect(&rt, "memory");
    let sessions = sessions_of(&rt, rt.alloc(), &text);
    let (a, b, x) = (name(&rt, "a"), name(&rt, "b"), key(&rt, "x"));
    assert!(rt; sessions.len() == 2);
    assert!(rt; is_label(&rt, &sessions, 0, "s") && is_label(&rt, &sessions, 1, "q"));
    assert!(rt; is_line(&sessions, 0, 1024, Event::Access(a, x, Op::Get), "get a x"));
    assert!(rt; is_line(&sessions, 1, 1, Event::Access(b, x, Op::Get), "get b x"));
    assert!(rt; is_line(&sessions, 1, 2, Event::After(a, When::Done), "after a done"));
    assert!(rt; sessions.line(1, 3).is_none() && sessions.line(2, 1).is_none());
}

// A session of so many lines, and what stands behind them.
fn long_session(rt: &impl Abort, alloc: Global, count: usize, last: &str) -> String {
    let mut text = String::new(alloc);
    text.push_str("session s\nbegin a\n").expect(rt, "memory");
    for _ in 1..count {
        text.push_str("get a x\n").expect(rt, "memory");
    }
    text.push_str(last).expect(rt, "memory");
    text
}

#[test]
fn one_line_too_many(rt: HostRuntime) {
    for (last, fault) in [
        ("", None),
        ("get a x\n", Some((1026, LineKind::Limit))),
        ("after a done\n", Some((1026, LineKind::Limit))),
        ("after a\n", Some((1026, LineKind::Shape))),
        ("set a x 01\n", Some((1026, LineKind::Number))),
        ("session q\n", None),
        ("session s\n", Some((1026, LineKind::Header))),
        ("get a x\nget a x\n", Some((1026, LineKind::Limit))),
    ] {
        let text = long_session(&rt, rt.alloc(), 1024, last);
        assert!(rt; is_fault(rt.alloc(), text.as_bytes(), fault), "{last}");
    }
}

#[test]
fn many_lines_are_looked_up(rt: HostRuntime) {
    let text = long_session(&rt, rt.alloc(), 300, "commit a\n");
    let sessions = sessions_of(&rt, rt.alloc(), &text);
    let (a, x) = (name(&rt, "a"), key(&rt, "x"));
    assert!(rt; is_line(&sessions, 0, 300, Event::Access(a, x, Op::Get), "get a x"));
    assert!(rt; is_line(&sessions, 0, 301, Event::Commit(a), "commit a"));
    assert!(rt; sessions.line(0, 302).is_none());
}

// A text that is cut behind a line feed is one; cut elsewhere it ends too early.
#[test]
fn a_text_cut_at_every_length(rt: HostRuntime) {
    let text = "session s\nbegin a\nset a x 5\nget a x\ncommit a\n".as_bytes();
    for len in 0..=text.len() {
        let front = &text[..len];
        let line = front.iter().filter(|b| **b == b'\n').count() + 1;
        let whole = front.is_empty() || front.ends_with(b"\n");
        let fault = if whole {
            None
        } else {
            Some((line, LineKind::End))
        };
        assert!(rt; is_fault(rt.alloc(), front, fault), "{len}");
    }
}

#[test]
fn lines_are_looked_up(rt: HostRuntime) {
    let (a, x) = (name(&rt, "a"), key(&rt, "x"));
    let text = "session s0\nbegin a\nset a x -9223372036854775808\nget a x\ncommit a\n";
    let sessions = sessions_of(&rt, rt.alloc(), text);
    assert!(rt; sessions.len() == 1 && !sessions.is_empty());
    assert!(rt; is_label(&rt, &sessions, 0, "s0") && sessions.label(1).is_none());
    for (line, event, spelled) in [
        (1, Event::Begin(a), "begin a"),
        (
            2,
            Event::Access(a, x, Op::Set(i64::MIN)),
            "set a x -9223372036854775808",
        ),
        (3, Event::Access(a, x, Op::Get), "get a x"),
        (4, Event::Commit(a), "commit a"),
    ] {
        assert!(rt; is_line(&sessions, 0, line, event, spelled), "{line}");
    }
    for (session, line) in [(0, 0), (0, 5), (1, 1), (u32::MAX, u32::MAX)] {
        assert!(rt; sessions.line(session, line).is_none(), "{session} {line}");
    }
}

#[test]
fn lines_of_several_transactions_are_looked_up(rt: HostRuntime) {
    let (deep, b, x) = (name(&rt, "a/b/c/d/e/f/g/h"), name(&rt, "b"), key(&rt, "x"));
    let text =
        "session s\nadd b x 1\nbegin a/b/c/d/e/f/g/h\ndel a/b/c/d/e/f/g/h x\nabort b\ncommit a/b/c/d/e/f/g/h\n";
    let sessions = sessions_of(&rt, rt.alloc(), text);
    for (line, event, spelled) in [
        (1, Event::Access(b, x, Op::Add(1)), "add b x 1"),
        (2, Event::Begin(deep), "begin a/b/c/d/e/f/g/h"),
        (3, Event::Access(deep, x, Op::Del), "del a/b/c/d/e/f/g/h x"),
        (4, Event::Abort(b), "abort b"),
        (5, Event::Commit(deep), "commit a/b/c/d/e/f/g/h"),
    ] {
        assert!(rt; is_line(&sessions, 0, line, event, spelled), "{line}");
    }
    assert!(rt; sessions.line(0, 6).is_none());
}

// Whether the line is read, asks this, and is spelled as it was read.
fn asks(text: &str, event: Event) -> bool {
    match parse_line(text.as_bytes()) {
        Ok(line) => *line.event() == event && is_text(&event, text),
        Err(_) => false,
    }
}

#[test]
fn every_command(rt: HostRuntime) {
    let (name, key) = (name(&rt, "a/b2"), key(&rt, "x.y_z-0"));
    for (text, event) in [
        ("begin a/b2", Event::Begin(name)),
        ("get a/b2 x.y_z-0", Event::Access(name, key, Op::Get)),
        ("set a/b2 x.y_z-0 0", Event::Access(name, key, Op::Set(0))),
        (
            "add a/b2 x.y_z-0 9223372036854775807",
            Event::Access(name, key, Op::Add(i64::MAX)),
        ),
        (
            "add a/b2 x.y_z-0 -120",
            Event::Access(name, key, Op::Add(-120)),
        ),
        ("del a/b2 x.y_z-0", Event::Access(name, key, Op::Del)),
        ("sum a/b2 x.y_z-0", Event::Sum(name, group(&rt, "x.y_z-0"))),
        ("commit a/b2", Event::Commit(name)),
        ("abort a/b2", Event::Abort(name)),
        ("after a/b2 begun", Event::After(name, When::Begun)),
        ("after a/b2 done", Event::After(name, When::Done)),
    ] {
        assert!(rt; asks(text, event), "{text}");
    }
}

// Whether the line is refused as this.
fn is_refused(text: &str, kind: LineKind) -> bool {
    match parse_line(text.as_bytes()) {
        Ok(_) => false,
        Err(found) => found == kind,
    }
}

#[test]
fn the_first_fault_of_a_line(rt: HostRuntime) {
    for (text, kind) in [
        ("", LineKind::Empty),
        (" ", LineKind::Word),
        (" begin a", LineKind::Word),
        ("Begin a", LineKind::Word),
        ("session s", LineKind::Word),
        ("begin", LineKind::Shape),
        ("begin a ", LineKind::Shape),
        ("begin A b", LineKind::Shape),
        ("get a", LineKind::Shape),
        ("get a x y", LineKind::Shape),
        ("set a x", LineKind::Shape),
        ("sum a", LineKind::Shape),
        ("sum A G x", LineKind::Shape),
        ("sum a  g", LineKind::Shape),
        ("sum a g ", LineKind::Shape),
        ("sum A G", LineKind::Name),
        ("sum a G", LineKind::Key),
        ("sums a g", LineKind::Word),
        ("after a", LineKind::Shape),
        ("set A x! 01", LineKind::Name),
        ("set a/ x! 01", LineKind::Name),
        ("set a x! 01", LineKind::Key),
        ("set a x 01", LineKind::Number),
        ("set a x ", LineKind::Number),
        ("set a x -", LineKind::Number),
        ("set a x +1", LineKind::Number),
        ("set a x -01", LineKind::Number),
        ("set a x --1", LineKind::Number),
        ("set a x 1\t", LineKind::Number),
        ("set a x -9223372036854775809", LineKind::Number),
        ("set a x 18446744073709551616", LineKind::Number),
        ("after A gone", LineKind::Name),
        ("after a Begun", LineKind::Word),
        ("begin a\n", LineKind::Name),
    ] {
        assert!(rt; is_refused(text, kind), "{text}");
    }
}

// A group has at most 31 bytes, and a key one more.
#[test]
fn groups_of_sums(rt: HostRuntime) {
    let name = name(&rt, "a");
    for text in ["g", "g.h", ".", "abcdefghijklmnopqrstuvwxyz01234"] {
        let line = format!(in rt.alloc(); "sum a {text}").expect(&rt, "memory");
        assert!(rt; asks(&line, Event::Sum(name, group(&rt, text))), "{text}");
    }
    for text in ["", "G", "g/h", "abcdefghijklmnopqrstuvwxyz012345"] {
        let line = format!(in rt.alloc(); "sum a {text}").expect(&rt, "memory");
        assert!(rt; is_refused(&line, LineKind::Key), "{text}");
    }
    let longest = key(&rt, "abcdefghijklmnopqrstuvwxyz012345");
    let event = Event::Access(name, longest, Op::Get);
    assert!(rt; asks("get a abcdefghijklmnopqrstuvwxyz012345", event));
}

#[test]
fn numbers_have_one_spelling(rt: HostRuntime) {
    for (text, number) in [
        ("0", Some(0)),
        ("-7", Some(-7)),
        ("9223372036854775807", Some(i64::MAX)),
        ("-9223372036854775808", Some(i64::MIN)),
        ("9223372036854775808", None),
        ("-0", None),
        ("01", None),
        ("+1", None),
        ("", None),
    ] {
        assert!(rt; parse_number(text.as_bytes()) == number, "{text}");
    }
}

// Whether these bytes are the request for this line of the session with this label, or have this
// fault.
fn is_request(text: &str, wanted: Result<(&str, &str), LineKind>) -> bool {
    match (parse_request(text.as_bytes()), wanted) {
        (Ok((label, line)), Ok((name, spelled))) => {
            label.as_bytes() == name.as_bytes() && is_text(line.event(), spelled)
        }
        (Err(kind), Err(due)) => kind == due,
        _ => false,
    }
}

#[test]
fn requests_and_their_faults(rt: HostRuntime) {
    for (text, wanted) in [
        ("s begin a", Ok(("s", "begin a"))),
        ("s add a x -5", Ok(("s", "add a x -5"))),
        ("", Err(LineKind::Empty)),
        ("s", Err(LineKind::Shape)),
        ("s ", Err(LineKind::Empty)),
        (" begin a", Err(LineKind::Label)),
        ("s after a begun", Err(LineKind::Word)),
        ("s session t", Err(LineKind::Word)),
        ("s begin a/", Err(LineKind::Name)),
        ("s begin a b", Err(LineKind::Shape)),
    ] {
        assert!(rt; is_request(text, wanted), "{text}");
    }
}

fn request_of(rt: &impl Abort, text: &str) -> (Label, Line) {
    parse_request(text.as_bytes()).expect(rt, text)
}

#[test]
fn sessions_that_grow(rt: HostRuntime) {
    let alloc = rt.alloc();
    let mut sessions = Sessions::new(alloc);
    let (label, line) = request_of(&rt, "s begin a");
    assert!(rt; sessions.place(&label).is_none());
    sessions.add_session(alloc, label).expect(&rt, "a session");
    sessions.add_line(0, line).expect(&rt, "a line");
    assert!(rt; sessions.place(&label) == Some(0) && sessions.line_count(0) == 1);
    assert!(rt; is_line(&sessions, 0, 1, Event::Begin(name(&rt, "a")), "begin a"));
}
