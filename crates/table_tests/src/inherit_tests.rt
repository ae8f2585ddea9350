//! What becomes of locks and values together, and each call once. Under a trial run that refuses a
//! growth the call is made again.
use crate::tools::{are_modes, are_named, begins, is_so, is_value, words};
use inherit::Estate;
use line_language::parse_event;
use serial_spec::{Asked, Event, Left, NoMemory, Op, PlainTable, Reply};
use test_kit::{group, key, name, numbered_key};
use txn_names::{Change, Group, Key, Name};
use txn_tree::{Tree, TxnNo};

/// The name of a script, the script, and how many rows the base has at last.
const SCRIPTS: [(&str, &str, usize); 5] = [
    // What a child wrote goes with it where it is aborted, and the base keeps what it has until the
    // topmost one commits.
    (
        "values and locks nest",
        "
        begin a
        begin a/l
        begin a/r
        begin b
        set a x 1 -> ok
        get a/l x -> 1
        set a/l x 2 -> ok
        get a/r x -> kept-out
        abort a/l
        get a/r x -> 1
        del a/r x -> ok
        get b x -> kept-out
        commit a/r
        only-change a x -> none
        commit a
        get b x -> none
        ",
        0,
    ),
    // An add that overflows writes as any other, though it leaves nothing.
    (
        "an overflow locks to write",
        "
        begin a
        begin b
        set a x 9223372036854775807 -> ok
        commit a
        base a x -> 9223372036854775807
        add b x 1 -> overflow
        modes b x -> write none
        left b x -> nothing
        only-change b x -> 9223372036854775807
        ",
        1,
    ),
    // A sum sees what its ancestors left over the table, keeps others from writing any key of its
    // group, and goes up at a commit.
    (
        "a sum goes up",
        "
        begin o
        begin a
        begin a/l
        begin a/r
        begin b
        set o g.x 1 -> ok
        set o h.x 9 -> ok
        set o g.y 5 -> ok
        commit o
        set a g.y 2 -> ok
        sum a/l g -> 3
        sum b g -> kept-out
        ask set b g.z 4 -> kept-out
        blocks set b g.z 4 -> a/l
        set a/r g.z 4 -> kept-out
        commit a/l
        group-modes a g -> none read
        blockers set b g.z 4 -> a
        set a/r g.z 4 -> ok
        commit a/r
        commit a
        ask sum b g -> 7
        ask set b g.z 4 -> ok
        ",
        4,
    ),
    // What is asked is done by one step, by those who have a place already and by those who have not.
    (
        "one step does what is asked",
        "
        begin a
        begin a/l
        begin b
        take set a g.h.x 1 -> ok
        take get a/l g.h.x -> 1
        take set a/l g.h.x 9 -> ok
        take set a/l g.h.y 4 -> ok
        take get a/l g.h.x -> 9
        take get b g.h.x -> kept-out
        take sum b g.h -> kept-out
        modes a/l g.h.y -> write none
        abort a/l
        take sum a g -> 1
        group-modes a g -> read none
        take del a g.h.x -> ok
        take get a g.h.x -> none
        commit a
        take get b g.h.x -> none
        take sum b g.h -> 0
        ",
        0,
    ),
    // A sum that is not an i64 locks its group all the same. It is one where a part of it is none.
    (
        "a sum that overflows locks",
        "
        begin a
        begin b
        set a g.a 9223372036854775807 -> ok
        set a g.b 1 -> ok
        commit a
        sum b g -> overflow
        group-modes b g -> read none
        may del a g.c -> no
        set b g.c -1 -> ok
        sum b g -> 9223372036854775807
        abort b
        may del a g.c -> yes
        may-remembering del a g.c -> yes
        ",
        2,
    ),
];

fn access_once(
    estate: &mut Estate,
    tree: &Tree,
    name: &Name,
    key: &Key,
    op: Op,
) -> Result<Option<Reply>, NoMemory> {
    estate.reserve_for(tree, &Event::Access(*name, *key, op))?;
    match tree.no_of(name) {
        Some(txn) => Ok(estate.access(tree, txn, key, op)),
        None => Ok(None),
    }
}

fn sum_once(
    estate: &mut Estate,
    tree: &Tree,
    name: &Name,
    group: &Group,
) -> Result<Option<Reply>, NoMemory> {
    estate.reserve_for(tree, &Event::Sum(*name, *group))?;
    match tree.no_of(name) {
        Some(txn) => Ok(estate.sum(tree, txn, group)),
        None => Ok(None),
    }
}

fn commit_once(estate: &mut Estate, tree: &Tree, name: &Name) -> Result<(), NoMemory> {
    estate.reserve_for(tree, &Event::Commit(*name))?;
    if let Some(child) = tree.no_of(name) {
        match name.parent() {
            Some(parent) => {
                if let Some(parent) = tree.no_of(&parent) {
                    estate.commit_child(child, parent);
                }
            }
            None => estate.commit_top(child),
        }
    }
    Ok(())
}

// Whether that is the reply, `kept-out` where a lock keeps the transaction out.
fn is_reply(reply: Option<Reply>, want: &str) -> bool {
    match reply {
        Some(Reply::Ok) => want == "ok",
        Some(Reply::Value(value)) => is_value(Some(value), want),
        Some(Reply::Absent) => is_value(None, want),
        Some(Reply::Overflow) => want == "overflow",
        Some(Reply::New(_)) => false,
        None => want == "kept-out",
    }
}

// Whether an access or a sum is replied to so.
fn is_replied(estate: &mut Estate, tree: &Tree, event: &Event, want: &str) -> bool {
    for _ in 0..2 {
        let reply = match event {
            Event::Access(name, key, op) => access_once(estate, tree, name, key, *op),
            Event::Sum(name, group) => sum_once(estate, tree, name, group),
            _ => Ok(None),
        };
        if let Ok(reply) = reply {
            return is_reply(reply, want);
        }
    }
    false
}

// The same of what is asked of the estate itself.
fn is_granted(estate: &mut Estate, tree: &Tree, txn: TxnNo, asked: &Asked, want: &str) -> bool {
    for _ in 0..2 {
        if let Ok(()) = estate.reserve_asked(txn, asked) {
            return is_reply(estate.ask(tree, txn, asked), want);
        }
    }
    false
}

// The same by one step, where no lock keeps the transaction out.
fn is_taken(estate: &mut Estate, tree: &Tree, txn: TxnNo, asked: &Asked, want: &str) -> bool {
    for _ in 0..2 {
        if !estate.may_ask_remembering(tree, txn, asked) {
            return is_reply(None, want);
        }
        if let Ok(reply) = estate.take(tree, txn, asked) {
            return is_reply(Some(reply), want);
        }
    }
    false
}

// Whether these keep the transaction from what it asks, in this order.
fn is_kept(estate: &Estate, tree: &Tree, txn: TxnNo, asked: &Asked, want: &str) -> bool {
    for _ in 0..2 {
        if let Ok(found) = estate.locks().asked_blockers(tree, txn, asked) {
            return are_named(tree, &found, want);
        }
    }
    false
}

fn changes(estate: &Estate, tree: &Tree, txn: TxnNo) -> Option<Vec<Change>> {
    for _ in 0..2 {
        if let Ok(found) = estate.changes(tree, txn) {
            return Some(found);
        }
    }
    None
}

// Who asks by an access or a sum, and what.
fn asked_by(event: &Event) -> Option<(Name, Asked)> {
    match event {
        Event::Access(name, key, op) => Some((*name, Asked::At(*key, *op))),
        Event::Sum(name, group) => Some((*name, Asked::Over(*group))),
        _ => None,
    }
}

// Whether it holds, by the first word of a line, what the transaction asks.
fn is_asked_by(
    estate: &mut Estate,
    tree: &Tree,
    verb: &str,
    txn: TxnNo,
    asked: &Asked,
    want: &str,
) -> bool {
    match verb {
        "ask" => is_granted(estate, tree, txn, asked, want),
        "take" => is_taken(estate, tree, txn, asked, want),
        "may" => is_so(estate.locks().may_ask(tree, txn, asked), want),
        "may-remembering" => is_so(estate.may_ask_remembering(tree, txn, asked), want),
        "blocks" => match tree.no_of(&name(want)) {
            Some(holder) => estate.locks().blocks_asked(tree, holder, txn, asked),
            None => false,
        },
        "blockers" => is_kept(estate, tree, txn, asked, want),
        _ => false,
    }
}

// Whether a line holds that asks about an access or a sum, behind its first word.
fn is_asked(estate: &mut Estate, tree: &Tree, text: &str, want: &str) -> bool {
    let (verb, text) = text.split_once(' ').unwrap_or((text, ""));
    let event = &parse_event(text.as_bytes());
    let Ok(event) = event else {
        return false;
    };
    let Some((who, asked)) = asked_by(event) else {
        return false;
    };
    match tree.no_of(&who) {
        Some(txn) => is_asked_by(estate, tree, verb, txn, &asked, want),
        None => false,
    }
}

// Whether a line holds that looks at what a transaction has.
fn is_seen(estate: &mut Estate, tree: &Tree, text: &str) -> bool {
    let (verb, who, what, want) = words(text);
    let (txn, key) = (
        tree.no_of(&name(who)).unwrap_or(TxnNo::new(u32::MAX)),
        key(what),
    );
    match verb {
        "modes" => are_modes(estate.locks().modes_of(txn, &key), want),
        "group-modes" => are_modes(estate.locks().group_modes_of(txn, &group(what)), want),
        "left" => want == "nothing" && estate.versions().left(txn, &key) == Left::Nothing,
        "base" => is_value(estate.versions().base().get(&key), want),
        "only-change" => match changes(estate, tree, txn) {
            Some(found) => {
                let value = want.parse().ok();
                found.as_slice() == [Change { key, value }].as_slice()
            }
            None => false,
        },
        _ => false,
    }
}

// Whether a line of a script holds.
fn holds(tree: &mut Tree, estate: &mut Estate, text: &str) -> bool {
    let (asked, want) = text.split_once(" -> ").unwrap_or((text, ""));
    match &parse_event(asked.as_bytes()) {
        Ok(Event::Begin(name)) => begins(tree, name),
        Ok(Event::Commit(name)) => {
            commit_once(estate, tree, name).is_ok() || commit_once(estate, tree, name).is_ok()
        }
        Ok(Event::Abort(name)) => match tree.no_of(name) {
            Some(txn) => {
                estate.abort(tree, txn);
                true
            }
            None => false,
        },
        Ok(event) => is_replied(estate, tree, event, want),
        Err(_) => is_asked(estate, tree, asked, want) || is_seen(estate, tree, text),
    }
}

#[test]
fn scripts_hold(rt: HostRuntime) {
    for (what, script, rows) in SCRIPTS {
        let base = PlainTable::new(rt.alloc());
        let (mut tree, mut estate) = (Tree::new(rt.alloc()), Estate::new(rt.alloc(), base));
        for text in script.trim().lines() {
            let text = text.trim();
            assert!(rt; holds(&mut tree, &mut estate, text), "{what}: {text}");
        }
        assert!(rt; estate.into_base().len() == rows, "{what}: the base");
    }
}

const KEYS: u8 = 40;

// Whether these are the keys that were written, in byte order.
fn are_written(found: &[Change]) -> bool {
    for index in 0..found.len().min(20) {
        let key = numbered_key((index as u8).wrapping_mul(2).wrapping_add(1));
        let value = Some(7);
        if found[index] != (Change { key, value }) {
            return false;
        }
    }
    found.len() == 20
}

// Every second key is written, from the last to the first, and the others are read. The changes are
// the keys in byte order, and none that was read alone.
#[test]
fn changes_stand_in_byte_order(rt: HostRuntime) {
    let (mut tree, base) = (Tree::new(rt.alloc()), PlainTable::new(rt.alloc()));
    let mut estate = Estate::new(rt.alloc(), base);
    let a = name("a");
    assert!(rt; begins(&mut tree, &a), "begin");
    for index in 0..KEYS {
        let (op, want) = if index % 2 == 0 {
            (Op::Set(7), "ok")
        } else {
            (Op::Get, "none")
        };
        let event = Event::Access(a, numbered_key((KEYS - 1).wrapping_sub(index)), op);
        assert!(rt; is_replied(&mut estate, &tree, &event, want), "{index}");
    }
    let found = changes(&estate, &tree, TxnNo::new(0)).expect(&rt, "memory");
    assert!(rt; are_written(&found));
}
