//! That each call on a history can succeed, over more lines and keys than a table has at first.
ghost use Rattle.std.specs.Prelude.{◌<◌};

use event_lists::{Cause, EntryView, EventView, Said, act_in, name_in};
use serial_spec::{By, Event, Op, PlainTable, Reply};
use std::process::Abort;
use txn_history::{History, LineUse};
use txn_names::{Group, Key, Name};

fn name(rt: &impl Abort) -> Name {
    Name::parse(b"a/l").expect(rt, "a name")
}

// One key for each number below 100.
fn key(rt: &impl Abort, number: u8) -> Key {
    let text = [b'k', b'0' + number / 10 % 10, b'0' + number % 10];
    Key::parse(&text).expect(rt, "a key")
}

fn access(rt: &impl Abort, number: u8) -> Event {
    Event::Access(name(rt), key(rt, number), Op::Get)
}

fn line(session: u32, line: u32) -> By {
    By::Line { session, line }
}

// Makes room for an entry. Where that is refused, the entries stay, and the call made again
// succeeds.
fn make_room(rt: &impl Abort, history: &mut History)
    ensures { 0 < history.new.room }
{
    let len = history.len();
    if history.reserve(1).is_err() {
        assert_eq!(rt; history.len(), len);
        history.reserve(1).expect(rt, "memory");
    }
}

fn add(rt: &impl Abort, history: &mut History, by: By, event: Event, said: Said) {
    make_room(rt, history);
    let (name, act) = (name_in(&event), act_in(&event));
    let entry = EntryView {
        by,
        event: EventView { name, act: &act },
        said,
        top: name,
    };
    // A spot may be told with another key each time.
    match history.len() % 8 {
        0 => history.push(&entry),
        spot => history.push_near(&entry, 4095 * spot),
    }
}

fn use_of(history: &History, by: By, event: &Event) -> LineUse {
    let (name, act) = (name_in(event), act_in(event));
    history.line_use(by, &EventView { name, act: &act })
}

// What the line is to an access of the key with this number.
fn asked(rt: &impl Abort, history: &History, by: By, number: u8) -> LineUse {
    use_of(history, by, &access(rt, number))
}

// Whether the known keys with numbers below 100 are those with numbers below 40.
fn knows_the_first_forty(rt: &impl Abort, history: &History) -> bool {
    for number in 0..100 {
        if history.knows(&key(rt, number)) != (number < 40) {
            return false;
        }
    }
    true
}

#[test]
fn tells_lines_and_keys(rt: HostRuntime) {
    let mut rows = PlainTable::new(rt.alloc());
    for number in 30..40 {
        rows.put(&key(&rt, number), Some(1)).expect(&rt, "memory");
    }
    let mut history = History::new(rt.alloc(), &rows).expect(&rt, "memory");
    assert!(rt; history.is_empty() && history.known() == 10 && history.opening().len() == 10);

    // Fifty lines are answered, and make thirty keys known beside ten of the rows.
    for number in 0..50 {
        let (by, reply) = (line(0, number), Said::Done(Reply::Absent));
        add(
            &rt,
            &mut history,
            by,
            access(&rt, (number % 35) as u8),
            reply,
        );
    }
    let entries = [
        (line(0, 51), 71, Said::Waits),
        (line(0, 52), 72, Said::Waits),
        (line(0, 52), 12, Said::Done(Reply::Absent)),
        (line(0, 53), 73, Said::Refused(Cause::Full)),
        (By::Victim, 74, Said::Stuck),
        (By::Close, 75, Said::Waits),
    ];
    for (by, number, answer) in entries {
        add(&rt, &mut history, by, access(&rt, number), answer);
    }
    assert!(rt; history.known() == 40 && knows_the_first_forty(&rt, &history));
    assert!(rt; history.len() == 56 && history.entries().len() == 56);

    let cases = [
        (line(0, 49), 14, LineUse::Used),
        (line(0, 51), 71, LineUse::Waits),
        (line(0, 51), 72, LineUse::Used),
        (line(0, 52), 72, LineUse::Used),
        (line(0, 53), 73, LineUse::Used),
        (line(0, 54), 71, LineUse::Unused),
        (line(1, 51), 71, LineUse::Unused),
        (By::Victim, 74, LineUse::Used),
        (By::Close, 75, LineUse::Used),
    ];
    for (by, number, wanted) in cases {
        assert!(rt; asked(&rt, &history, by, number) == wanted, "{by:?}");
    }
    assert!(rt; history.into_entries().len() == 56);
}

fn sum(rt: &impl Abort, text: &str) -> Event {
    Event::Sum(name(rt), Group::parse(text.as_bytes()).expect(rt, text))
}

// A waiting sum is answered as that sum alone, and makes no key known.
#[test]
fn tells_lines_of_sums(rt: HostRuntime) {
    let rows = PlainTable::new(rt.alloc());
    let mut history = History::new(rt.alloc(), &rows).expect(&rt, "memory");
    let by = line(0, 1);
    let (asked, other) = (sum(&rt, "k01"), sum(&rt, "k02"));
    assert!(rt; use_of(&history, by, &asked) == LineUse::Unused);
    add(&rt, &mut history, by, asked, Said::Waits);
    assert!(rt; use_of(&history, by, &asked) == LineUse::Waits);
    for event in [other, access(&rt, 1)] {
        assert!(rt; use_of(&history, by, &event) == LineUse::Used);
    }
    let reply = Said::Done(Reply::Value(0));
    add(&rt, &mut history, by, asked, reply);
    assert!(rt; use_of(&history, by, &asked) == LineUse::Used);
    assert!(rt; history.known() == 0 && !history.knows(&key(&rt, 1)));
}
