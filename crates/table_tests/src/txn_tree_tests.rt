//! The worked values of the tree, and each refusal once.
use crate::tools::words;
use serial_spec::Refusal;
use std::process::Abort;
use test_kit::{child_name, greater, hash_of, name};
use txn_names::Name;
use txn_tree::{MOST_TRANSACTIONS, Status, Tree, TreeFault, TxnNo};

/// Behind `links` stands a number, and wanted are those of its first child and of its next sibling.
const SCRIPTS: [(&str, &str); 6] = [
    (
        "numbers in order of beginning",
        "
        empty
        begin a -> 0
        begin b -> 1
        begin a/l -> 2
        begin b/l -> 3
        count tree -> 4
        lacks c 4
        ",
    ),
    // Also once a child in the middle has ended, and past the last number.
    (
        "goes over children",
        "
        first tree -> none
        begin a -> 0
        begin a/l -> 1
        begin b -> 2
        begin a/m -> 3
        begin a/m/x -> 4
        begin a/r -> 5
        abort a/m -> 2
        first tree -> 0
        links 0 -> 1 2
        links 1 -> none 3
        links 2 -> none none
        links 3 -> 4 5
        links 4 -> none none
        links 5 -> none none
        links 6 -> none none
        ",
    ),
    // Own states stay below the aborted one.
    (
        "aborts what is live",
        "
        begin a -> 0
        begin a/l -> 1
        begin a/r -> 2
        commit a/l -> ok
        children a -> 1
        abort a -> 2
        status a -> aborted
        status a/l -> committed
        status a/r -> live
        status b -> absent
        children a -> 1
        ",
    ),
    (
        "aborts no orphan twice",
        "
        begin a -> 0
        begin a/b -> 1
        begin a/b/c -> 2
        begin a/d -> 3
        begin ab -> 4
        abort a/b -> 2
        abort a -> 2
        abort ab -> 1
        ",
    ),
    // Of the aborted ones the topmost is named, and not the nearest.
    (
        "refuses by the first cause",
        "
        begin a -> 0
        begin a/b -> 1
        begin a/b/c -> 2
        begin d -> 3
        begin e -> 4
        begin e/f -> 5
        commit e -> refused children
        commit d -> ok
        begin d -> refused used
        begin d/a -> refused no-parent
        begin x/a -> refused no-parent
        commit x -> refused unknown
        commit d -> refused done
        abort x -> refused unknown
        abort d -> refused done
        abort a/b -> 2
        abort a -> 1
        commit a/b/c -> orphan a
        abort a/b -> orphan a
        begin a/b/d -> orphan a
        begin a/b -> refused used
        top 0 -> a
        top 2 -> a
        top 3 -> none
        top 6 -> none
        ",
    ),
    // A chain of the greatest depth, aborted in the middle. Each is the one child of the one above.
    (
        "goes up a chain",
        "
        begin a -> 0
        begin a/a -> 1
        begin a/a/a -> 2
        begin a/a/a/a -> 3
        begin a/a/a/a/a -> 4
        begin a/a/a/a/a/a -> 5
        begin a/a/a/a/a/a/a -> 6
        begin a/a/a/a/a/a/a/a -> 7
        begin a/a/a/a/a/a/a/a/a -> 8
        begin a/a/a/a/a/a/a/a/a/a -> 9
        begin a/a/a/a/a/a/a/a/a/a/a -> 10
        begin a/a/a/a/a/a/a/a/a/a/a/a -> 11
        begin a/a/a/a/a/a/a/a/a/a/a/a/a -> 12
        begin a/a/a/a/a/a/a/a/a/a/a/a/a/a -> 13
        begin a/a/a/a/a/a/a/a/a/a/a/a/a/a/a -> 14
        begin a/a/a/a/a/a/a/a/a/a/a/a/a/a/a/a -> 15
        only-child 0 -> 1
        only-child 1 -> 2
        only-child 2 -> 3
        only-child 3 -> 4
        only-child 4 -> 5
        only-child 5 -> 6
        only-child 6 -> 7
        only-child 7 -> 8
        only-child 8 -> 9
        only-child 9 -> 10
        only-child 10 -> 11
        only-child 11 -> 12
        only-child 12 -> 13
        only-child 13 -> 14
        only-child 14 -> 15
        abort a/a/a/a -> 13
        abort a/a/a/a/a -> orphan a/a/a/a
        children a/a/a -> 0
        abort a -> 3
        tops tree -> 0
        ",
    ),
];

// Whether that is the cause, spelled as in a report.
fn is_cause(cause: Refusal, want: &str) -> bool {
    match cause {
        Refusal::Unknown => want == "refused unknown",
        Refusal::Used => want == "refused used",
        Refusal::NoParent => want == "refused no-parent",
        Refusal::Done => want == "refused done",
        Refusal::Children => want == "refused children",
        Refusal::Full => want == "refused full",
        Refusal::Orphan(top) => match want.strip_prefix("orphan ") {
            Some(text) => top == name(text),
            None => false,
        },
        Refusal::Waiting | Refusal::Store => false,
    }
}

fn is_status(status: Status, want: &str) -> bool {
    match status {
        Status::Absent => want == "absent",
        Status::Live => want == "live",
        Status::Committed => want == "committed",
        Status::Aborted => want == "aborted",
    }
}

fn is_number(number: u32, want: &str) -> bool {
    want.parse().ok() == Some(number)
}

// Whether that is the number of a transaction, or `none`.
fn is_place(number: Option<TxnNo>, want: &str) -> bool {
    match number {
        Some(number) => is_number(number.place(), want),
        None => want == "none",
    }
}

// Whether that is the name, or `none`.
fn is_name(found: Option<&Name>, want: &str) -> bool {
    match found {
        Some(found) => *found == name(want),
        None => want == "none",
    }
}

// A begin gives this number, the next one, by which the name is found.
fn begins_at(tree: &mut Tree, name: &Name, place: u32) -> bool {
    match tree.begin(name) {
        Ok(number) => {
            number.place() == place
                && tree.len() == place as usize + 1
                && tree.no_of(name) == Some(number)
                && tree.no_by_hint(name, number) == Some(number)
                && tree.no_by_hint(name, TxnNo::new(0)) == Some(number)
                && tree.name_of(number).copied() == Some(*name)
        }
        Err(_) => false,
    }
}

// A refused begin leaves the tree.
fn begins(tree: &mut Tree, name: &Name, want: &str) -> bool {
    if let Ok(place) = want.parse() {
        return begins_at(tree, name, place);
    }
    let count = tree.len();
    match tree.begin(name) {
        Err(TreeFault::Refused(cause)) => is_cause(cause, want) && tree.len() == count,
        _ => false,
    }
}

// Whether the second is the one child of the first, and both are live.
fn is_only_child(tree: &Tree, above: TxnNo, below: TxnNo) -> bool {
    tree.parent_of(below) == Some(above)
        && tree.is_under(above, below)
        && !tree.is_under(below, above)
        && tree.live_children_at(above) == 1
        && tree.status_at(below) == Status::Live
}

// The number of a transaction that a word is. Of a word that is none nothing has begun.
fn number(word: &str) -> TxnNo {
    TxnNo::new(word.parse().unwrap_or(u32::MAX))
}

// Whether a line holds that looks at the tree.
fn is_seen(tree: &Tree, text: &str) -> bool {
    let (verb, who, what, want) = words(text);
    let txn = number(who);
    match verb {
        "empty" => tree.is_empty(),
        "count" => want.parse().ok() == Some(tree.len()),
        "lacks" => { tree.no_of(&name(who)).is_none() && tree.name_of(number(what)).is_none() }
        "first" => is_place(tree.first_top(), want),
        "tops" => is_number(tree.live_tops(), want),
        "links" => {
            let (child, next) = want.split_once(' ').unwrap_or((want, ""));
            is_place(tree.first_child(txn), child) && is_place(tree.next_sibling(txn), next)
        }
        "only-child" => is_only_child(tree, txn, number(want)),
        "top" => is_name(tree.top_aborted_at(txn), want),
        "children-at" => is_number(tree.live_children_at(txn), want),
        _ => false,
    }
}

// Whether a line of a script holds.
fn holds(tree: &mut Tree, text: &str) -> bool {
    let (verb, who, _, want) = words(text);
    let name = name(who);
    match verb {
        "begin" => begins(tree, &name, want),
        "commit" => match tree.commit(&name) {
            Ok(()) => want == "ok",
            Err(cause) => is_cause(cause, want),
        },
        "abort" => match tree.abort(&name) {
            Ok(ended) => is_number(ended, want),
            Err(cause) => is_cause(cause, want),
        },
        "children" => is_number(tree.live_children(&name), want),
        "status" => is_status(tree.status(&name), want),
        _ => is_seen(tree, text),
    }
}

// What fails ends the process, so that no tree is dropped on the way.
fn play(rt: &impl Abort, tree: &mut Tree, what: &str, script: &str) {
    for text in script.trim().lines() {
        let text = text.trim();
        assert!(rt; holds(tree, text), "{what}: {text}");
    }
}

#[test]
fn scripts_hold(rt: HostRuntime) {
    for (what, script) in SCRIPTS {
        play(&rt, &mut Tree::new(rt.alloc()), what, script);
    }
}

#[test]
fn compares_numbers(rt: HostRuntime) {
    let (early, late) = (TxnNo::new(1), TxnNo::new(2));
    assert!(rt; greater(late, early) == late);
    assert!(rt; hash_of(&early) != hash_of(&late));
}

// Names of three letters or digits: 46,656 of them.
fn name_at(rt: &impl Abort, place: usize) -> Name {
    let letters = b"0123456789abcdefghijklmnopqrstuvwxyz";
    let (high, low) = (place / 36 % 36, place % 36);
    let bytes = [letters[place / 1296 % 36], letters[high], letters[low]];
    Name::parse(&bytes).expect(rt, "a name")
}

// The first name is 000.
#[test]
fn refuses_past_the_limit(rt: HostRuntime) {
    let mut tree = Tree::new(rt.alloc());
    for place in 0..MOST_TRANSACTIONS {
        let name = name_at(&rt, place);
        assert!(rt; begins_at(&mut tree, &name, place as u32), "{place}");
    }
    let script = "
        begin last -> refused full
        begin x/last -> refused no-parent
        commit 000 -> ok
        begin last -> refused full
    ";
    play(&rt, &mut tree, "past the limit", script);
}

#[test]
fn counts_a_hundred_children(rt: HostRuntime) {
    let mut tree = Tree::new(rt.alloc());
    play(&rt, &mut tree, "the parent", "begin a -> 0");
    for place in 0..100 {
        let name = child_name(place);
        assert!(rt; begins_at(&mut tree, &name, place as u32 + 1), "{place}");
    }
    play(&rt, &mut tree, "all", "children-at 0 -> 100");
    for place in 0..50 {
        assert!(rt; tree.commit(&child_name(place)).is_ok(), "{place}");
    }
    let script = "
        abort a/70 -> 1
        children a -> 49
        commit a -> refused children
        abort a -> 50
    ";
    play(&rt, &mut tree, "half of them committed", script);
}
