//! A manager under watch. A call that finds no memory has to leave all that can be seen, and to
//! succeed when it is made again: a trial run refuses each growth in turn.
//!
//! What fails is told by `false` or by nothing, and ends the process where the script is played. So
//! no function drops a manager on its way out, which would make a long proof.
ghost use Rattle.std.specs.Prelude.{◌≡◌, ◌↔◌, IsTrue};
ghost use Rattle.event_lists.specs.Views.{asked, event_by, name_of};
ghost use Rattle.manager_core.specs.Lines.{IsFree};

use crate::manager_core_tests::scripts::entry;
use durable_top::TopStore;
use event_lists::{Act, Entries, EventView, act_in, name_in};
use manager_core::{Manager, Outcome};
use serial_spec::{Answer, By, Entry, Event, NoMemory, Refusal, Reply};
use std::hash::{DefaultHasher, Hash, Hasher};
use test_kit::name;

/// A manager, and the entries that it is due, the oldest first.
#[derive(Drop)]
pub struct Watched<S: TopStore> {
    pub manager: Manager<S>,
    pub due: Vec<Entry>,
}

// The event, as it stands elsewhere.
fn view<'a>(event: &'a Event, act: &'a Act) -> EventView<'a>
    requires { event_by (name_of event.now) act.now ≡ event.now }
    ensures { asked result ≡ event.now }
{
    EventView {
        name: name_in(event),
        act,
    }
}

/// Whether the line is free for the event.
pub fn is_free<S: TopStore>(manager: &Manager<S>, by: By, event: &Event) -> bool
    ensures { IsTrue result ↔ IsFree manager.now.history by event.now }
{
    let act = act_in(event);
    manager.free(by, &view(event, &act))
}

fn is_held_up<S: TopStore>(manager: &Manager<S>, line: &Entry) -> bool {
    let act = act_in(&line.event);
    manager.held_up(line.by, &view(&line.event, &act))
}

/// Whether these are the entries, in this order.
pub fn are(entries: &Entries, due: &[Entry]) -> bool {
    for (place, entry) in due.iter().enumerate() {
        match entries.get(place) {
            Some(found) if found.entry() == *entry => {}
            _ => return false,
        }
    }
    entries.len() == due.len()
}

fn is_due<S: TopStore>(watched: &Watched<S>) -> bool {
    are(watched.manager.history(), watched.due.as_slice())
}

// What a manager shows beside its history, as a hash: both tables, and by the entries whether their
// transactions wait, and whether their lines are free for what they asked and for a begin.
fn look<S: TopStore>(watched: &Watched<S>) -> u64 {
    let Watched { manager, due } = watched;
    let mut seen = DefaultHasher::new();
    for row in manager.opening() {
        (row.key, row.value, row.commit).hash(&mut seen);
    }
    for place in 0..manager.table().len() {
        manager.table().at(place).hash(&mut seen);
    }
    for Entry { by, event, .. } in due {
        let name = name_in(event);
        manager.waiting(name).hash(&mut seen);
        is_free(manager, *by, event).hash(&mut seen);
        is_free(manager, *by, &Event::Begin(*name)).hash(&mut seen);
    }
    seen.finish()
}

fn is_as_before<S: TopStore>(watched: &Watched<S>, before: u64) -> bool {
    is_due(watched) && look(watched) == before
}

/// The manager's call for an event.
pub fn call<S: TopStore>(
    manager: &mut Manager<S>,
    by: By,
    event: &Event,
) -> Result<Outcome, NoMemory>
    requires { IsFree manager.old.history by event.now }
{
    match event {
        Event::Begin(name) => manager.begin(by, name),
        Event::Access(name, key, op) => manager.access(by, name, key, *op),
        Event::Sum(name, group) => manager.sum(by, name, group),
        Event::Commit(name) => manager.commit(by, name),
        Event::Abort(name) => manager.abort(by, name),
        Event::After(name, when) => manager.after(by, name, *when),
    }
}

/// The answer that the history keeps of what a call comes to.
pub fn answer_of(outcome: &Outcome) -> Answer {
    match *outcome {
        Outcome::Done(reply) => Answer::Done(reply),
        Outcome::Waits => Answer::Waits,
        Outcome::Refused(refusal) => Answer::Refused(refusal),
    }
}

// Whether an entry is added to those that are due, where there is room.
fn owe(due: &mut Vec<Entry>, entry: &Entry) -> bool {
    // The borrow checker has to meet each enum inside an entry as a value of its own.
    let _met = (entry.event, Answer::Stuck, Refusal::Unknown);
    due.push(*entry).is_ok()
}

// The same, and behind it those of these that the manager itself aborts in this order.
fn owes(due: &mut Vec<Entry>, entry: &Entry, aborted: &str, by: By) -> bool {
    owe(due, entry) && owes_aborts(due, aborted, by)
}

fn owes_aborts(due: &mut Vec<Entry>, aborted: &str, by: By) -> bool {
    for word in aborted.split_whitespace() {
        let entry = Entry {
            by,
            event: Event::Abort(name(word)),
            answer: Answer::Done(Reply::Ok),
        };
        if !owe(due, &entry) {
            return false;
        }
    }
    true
}

// What comes of the call of a line that has to be free.
fn ask<S: TopStore>(watched: &mut Watched<S>, line: &Entry, before: u64) -> Option<Outcome> {
    for _ in 0..2 {
        if !is_free(&watched.manager, line.by, &line.event) {
            return None;
        }
        match call(&mut watched.manager, line.by, &line.event) {
            Ok(outcome) => return Some(outcome),
            Err(_) => {
                if !is_as_before(watched, before) {
                    return None;
                }
            }
        }
    }
    None
}

// What comes of it where an access that has to wait asks again.
fn ask_again<S: TopStore>(watched: &mut Watched<S>, line: &Entry, before: u64) -> Option<Outcome> {
    let name = name_in(&line.event);
    for _ in 0..2 {
        if !watched.manager.waiting(name) {
            return None;
        }
        match watched.manager.retry(name) {
            Ok(outcome) => return Some(outcome),
            Err(_) => {
                if !is_as_before(watched, before) {
                    return None;
                }
            }
        }
    }
    None
}

// After a call its line has no other, it is held up where the call waits, and its transaction waits
// where the call waits or is refused for that.
fn is_told<S: TopStore>(manager: &Manager<S>, line: &Entry, outcome: &Outcome) -> bool {
    let name = name_in(&line.event);
    if is_free(manager, line.by, &line.event) || is_free(manager, line.by, &Event::Begin(*name)) {
        return false;
    }
    if is_held_up(manager, line) != (*outcome == Outcome::Waits) {
        return false;
    }
    match *outcome {
        Outcome::Waits => manager.waiting(name),
        Outcome::Refused(Refusal::Waiting) => manager.waiting(name),
        Outcome::Done(_) => !manager.waiting(name),
        Outcome::Refused(_) => true,
    }
}

// The answer of a line that is free, of which these have to be the victims.
fn first_answer<S: TopStore>(
    watched: &mut Watched<S>,
    line: &Entry,
    victims: &str,
) -> Option<Answer> {
    let before = look(watched);
    let outcome = ask(watched, line, before)?;
    let told = Entry {
        by: line.by,
        event: line.event,
        answer: answer_of(&outcome),
    };
    if !owes(&mut watched.due, &told, victims, By::Victim) || !is_due(watched) {
        return None;
    }
    if victims.is_empty() && !is_told(&watched.manager, line, &outcome) {
        return None;
    }
    Some(answer_of(&outcome))
}

// The answer of an access that waits and asks again: it is answered by its own line, or waits on,
// and then nothing has changed.
fn later_answer<S: TopStore>(
    watched: &mut Watched<S>,
    line: &Entry,
    victims: &str,
) -> Option<Answer> {
    let before = look(watched);
    let answer = answer_of(&ask_again(watched, line, before)?);
    if answer == Answer::Waits {
        return if is_as_before(watched, before) {
            Some(answer)
        } else {
            None
        };
    }
    let told = Entry {
        by: line.by,
        event: line.event,
        answer,
    };
    if !owes(&mut watched.due, &told, victims, By::Victim) || !is_due(watched) {
        return None;
    }
    if watched.manager.waiting(name_in(&line.event)) {
        None
    } else {
        Some(answer)
    }
}

/// Whether a line that waits for a condition is held up, and nothing changes.
pub fn is_held<S: TopStore>(watched: &mut Watched<S>, text: &str) -> bool {
    let Some(line) = entry(text) else {
        return false;
    };
    let before = look(watched);
    ask(watched, &line, before) == Some(Outcome::Waits)
        && is_as_before(watched, before)
        && is_held_up(&watched.manager, &line)
}

// Whether a line that is held up is given up.
fn gives_up<S: TopStore>(watched: &mut Watched<S>, line: &Entry) -> bool {
    let before = look(watched);
    for _ in 0..2 {
        let act = act_in(&line.event);
        let event = view(&line.event, &act);
        if !watched.manager.held_up(line.by, &event) {
            return false;
        }
        if watched.manager.cancel(line.by, &event).is_ok() {
            return owes(&mut watched.due, line, "", By::Victim)
                && is_due(watched)
                && !is_held_up(&watched.manager, line)
                && !watched.manager.waiting(name_in(&line.event));
        }
        if !is_as_before(watched, before) {
            return false;
        }
    }
    false
}

/// What a line is answered where the store refuses.
pub const NOT_STORED: Answer = Answer::Refused(Refusal::Store);

// Whose line asks once more where a store has refused because memory ran out.
const ONCE_MORE: By = By::Line {
    session: 1,
    line: 1,
};

/// Whether a line is answered so, and behind a star stand the victims that come of it. A line that
/// waits already asks again. An access that is to be stuck waits first, and is given up then.
pub fn is_answered<S: TopStore>(watched: &mut Watched<S>, text: &str) -> bool {
    let (told, victims) = text.split_once(" * ").unwrap_or((text, ""));
    let Some(line) = entry(told) else {
        return false;
    };
    if line.answer == Answer::Stuck {
        if let Event::After(_, _) = line.event {
            return gives_up(watched, &line);
        }
        return first_answer(watched, &line, victims) == Some(Answer::Waits)
            && gives_up(watched, &line);
    }
    if !is_free(&watched.manager, line.by, &line.event) {
        return later_answer(watched, &line, victims) == Some(line.answer);
    }
    let answer = first_answer(watched, &line, victims);
    // A store in memory has refused since memory ran out.
    if answer == Some(NOT_STORED) && line.answer == Answer::Done(Reply::Ok) {
        let again = Entry {
            by: ONCE_MORE,
            ..line
        };
        return first_answer(watched, &again, victims) == Some(line.answer);
    }
    answer == Some(line.answer)
}

/// Whether the close aborts these, in this order, and no others.
pub fn is_closed<S: TopStore>(watched: &mut Watched<S>, ended: &str) -> bool {
    let before = look(watched);
    for _ in 0..2 {
        if watched.manager.close().is_ok() {
            return owes_aborts(&mut watched.due, ended, By::Close) && is_due(watched);
        }
        if !is_as_before(watched, before) {
            return false;
        }
    }
    false
}
