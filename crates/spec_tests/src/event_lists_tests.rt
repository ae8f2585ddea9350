//! Lists of events and of entries in which names come back.
use event_lists::{Act, Entries, EntryView, EventView, Events, NameWord, Said};
use serial_spec::{By, Reply};
use std::process::Abort;
use txn_names::{Name, NameFault};

// The second is above the third.
const TEXTS: [&str; 10] = ["a", "b", "b/c", "d", "e", "f", "g", "h", "i", "j"];

fn name(rt: &impl Abort, text: &str) -> Name {
    Name::parse(text.as_bytes()).expect(rt, text)
}

fn add(rt: &impl Abort, events: &mut Events, text: &str) {
    match NameWord::parse(text.as_bytes(), Some(events)) {
        Ok(word) => {
            assert!(rt; word.name() == name(rt, text), "{text}");
            events.push(&word, &Act::Commit).expect(rt, "memory");
        }
        Err(_) => panic!(rt; "{text}"),
    }
}

fn is_known(events: &Events, name: &Name) -> bool {
    match events.known(name.spelled()) {
        Some(word) => word.name() == *name,
        None => false,
    }
}

fn is_at(rt: &impl Abort, events: &Events, place: usize, text: &str) -> bool {
    match events.get(place) {
        Some(event) => *event.name == name(rt, text) && *event.act == Act::Commit,
        None => false,
    }
}

#[test]
fn events_of_names_in_turn(rt: HostRuntime) {
    let mut events = Events::new(rt.alloc());
    assert!(rt; events.is_empty());
    for _ in 0..3 {
        for text in TEXTS {
            add(&rt, &mut events, text);
            assert!(rt; is_known(&events, &name(&rt, text)), "{text}");
        }
    }
    assert!(rt; events.len() == 30 && events.get(30).is_none());
    for (place, text) in TEXTS.into_iter().enumerate() {
        assert!(rt; is_at(&rt, &events, place, text), "{text}");
        assert!(rt; is_at(&rt, &events, place.wrapping_add(20), text), "{text}");
    }
    assert!(rt; NameWord::parse(b"a/", Some(&events)).err() == Some(NameFault::Empty));
}

// Whether the name is found in front of these words, which are given then.
fn is_front(events: &Events, line: &str, text: &str) -> bool {
    match events.known_front(line.as_bytes()) {
        Some((word, rest)) => word.bytes == text.as_bytes() && rest == b"x y".as_slice(),
        None => false,
    }
}

#[test]
fn the_likely_name_stands_in_front(rt: HostRuntime) {
    let mut events = Events::new(rt.alloc());
    for text in TEXTS {
        add(&rt, &mut events, text);
        let line = format!(in rt.alloc(); "{text} x y").expect(&rt, "memory");
        assert!(rt; is_front(&events, &line, text), "{text}");
    }
}

// So many that the lists find places for them anew several times.
#[test]
fn events_of_many_names(rt: HostRuntime) {
    let mut events = Events::new(rt.alloc());
    for _ in 0..2 {
        for first in TEXTS {
            for second in TEXTS {
                let text = format!(in rt.alloc(); "{first}/{second}").expect(&rt, "memory");
                add(&rt, &mut events, &text);
                assert!(rt; is_known(&events, &name(&rt, &text)), "{text}");
            }
        }
    }
    assert!(rt; events.len() == 200 && is_at(&rt, &events, 111, "b/b"));
}

fn put(entries: &mut Entries, name: &Name, line: u32) {
    if entries.reserve(1).is_ok() {
        entries.push(&EntryView {
            by: By::Line { session: 0, line },
            event: EventView {
                name,
                act: &Act::Commit,
            },
            said: Said::Done(Reply::Ok),
            top: name,
        });
    }
}

#[test]
fn entries_of_names_in_turn(rt: HostRuntime) {
    let mut entries = Entries::new(rt.alloc());
    for line in 1..4 {
        for text in TEXTS {
            put(&mut entries, &name(&rt, text), line);
        }
    }
    assert!(rt; entries.len() == 30 && !entries.is_empty());
    for (place, text) in TEXTS.into_iter().enumerate() {
        let found = entries
            .get(place.wrapping_add(20))
            .map(|entry| *entry.event.name);
        assert!(rt; found == Some(name(&rt, text)), "{text}");
    }
    let word = NameWord::of(entries.get(0).expect(&rt, "an entry").top);
    assert!(rt; word.bytes == b"a".as_slice() && word.depth == 1);
}
