//! The worked values of versions, and each call once. Under a trial run that refuses a growth the
//! call is made again.
use crate::tools::{begins, check, is_value, words};
use serial_spec::{Left, PlainTable};
use test_kit::{child_name, key, name, numbered_key};
use txn_names::Key;
use txn_tree::{Tree, TxnNo};
use version_stack::Versions;

/// A child sees what its parent left until it writes itself; what it wrote goes with it where it is
/// undone, and up where it commits. Behind `see` stand the values that all see, in the order of
/// their beginning.
const SCRIPT: &str = "
    begin a
    begin a/l
    begin a/r
    begin b
    put b x 9
    store b
    see a x -> 9 9 9 9
    put a x 1
    put a/l x 2
    see a x -> 1 2 1 9
    drop a/l
    put a/r x none
    see a x -> 1 1 none 9
    up a/r
    left a x -> absent
    left a/r x -> nothing
    see a x -> none none none 9
    store a
    see a x -> none none none none
    put b x 4
    store b
    base b x -> 4
";

// Whether the transaction leaves the value at the key.
fn is_put(versions: &mut Versions, txn: TxnNo, key: &Key, value: Option<i64>) -> bool {
    for _ in 0..2 {
        if let Ok(()) = versions.reserve(txn, key) {
            versions.put(txn, key, value);
            return true;
        }
    }
    false
}

// Whether the values go up to the parent.
fn goes_up(versions: &mut Versions, child: TxnNo, parent: TxnNo) -> bool {
    for _ in 0..2 {
        if let Ok(()) = versions.reserve_for_parent(child, parent) {
            versions.hand_up(child, Some(parent));
            return true;
        }
    }
    false
}

// Whether the values go into the base.
fn is_stored(versions: &mut Versions, top: TxnNo) -> bool {
    for _ in 0..2 {
        if let Ok(()) = versions.reserve_for_base(top) {
            versions.hand_up(top, None);
            return true;
        }
    }
    false
}

// Whether all see these values at the key.
fn see(versions: &Versions, tree: &Tree, key: &Key, want: &str) -> bool {
    let mut number: u32 = 0;
    for word in want.split_whitespace() {
        if !is_value(versions.value_for(tree, TxnNo::new(number), key), word) {
            return false;
        }
        number = number.wrapping_add(1);
    }
    tree.len() == number as usize
}

// Whether a line holds of a transaction that has begun.
fn holds(tree: &Tree, versions: &mut Versions, txn: TxnNo, text: &str) -> bool {
    let (verb, _, what, want) = words(text);
    let (what, value) = what.split_once(' ').unwrap_or((what, ""));
    let key = key(what);
    match verb {
        "put" => is_put(versions, txn, &key, value.parse().ok()),
        "up" => match tree.parent_of(txn) {
            Some(parent) => goes_up(versions, txn, parent),
            None => false,
        },
        "store" => is_stored(versions, txn),
        "drop" => {
            versions.drop_under(tree, txn);
            true
        }
        "see" => see(versions, tree, &key, want),
        "left" => match versions.left(txn, &key) {
            Left::Absent => want == "absent",
            Left::Nothing => want == "nothing",
            Left::Value(value) => is_value(Some(value), want),
        },
        "base" => is_value(versions.base().get(&key), want),
        _ => false,
    }
}

#[test]
fn values_nest(rt: HostRuntime) {
    let base = PlainTable::new(rt.alloc());
    let (mut tree, mut versions) = (Tree::new(rt.alloc()), Versions::new(rt.alloc(), base));
    for text in SCRIPT.trim().lines() {
        let text = text.trim();
        let who = name(words(text).1);
        let answered = match tree.no_of(&who) {
            Some(txn) => holds(&tree, &mut versions, txn, text),
            None => words(text).0 == "begin" && begins(&mut tree, &who),
        };
        assert!(rt; answered, "{text}");
    }
    assert!(rt; versions.into_base().len() == 1);
}

const CHILDREN: u8 = 29;

const KEYS: u8 = 40;

// What a child leaves at a key: the numbers of both.
fn value_of(index: u8, child: u8) -> Option<i64> {
    Some(100 * index as i64 + child as i64)
}

fn puts_all(versions: &mut Versions, txn: TxnNo, child: u8) -> bool {
    for index in 0..KEYS {
        if !is_put(versions, txn, &numbered_key(index), value_of(index, child)) {
            return false;
        }
    }
    true
}

// Whether the transaction sees at each key what the child left.
fn sees_all(versions: &Versions, tree: &Tree, txn: TxnNo, child: u8) -> bool {
    for index in 0..KEYS {
        let value = versions.value_for(tree, txn, &numbered_key(index));
        if value != value_of(index, child) {
            return false;
        }
    }
    true
}

// What the last child left at each of many keys comes into the base.
#[test]
fn the_last_child_counts(rt: HostRuntime) {
    let base = PlainTable::new(rt.alloc());
    let (mut tree, mut versions) = (Tree::new(rt.alloc()), Versions::new(rt.alloc(), base));
    let top = TxnNo::new(0);
    assert!(rt; begins(&mut tree, &name("a")), "begin");
    for child in 0..CHILDREN {
        let txn = TxnNo::new(1 + child as u32);
        check(&rt, begins(&mut tree, &child_name(child)), "begin", child);
        check(&rt, puts_all(&mut versions, txn, child), "put by", child);
        check(
            &rt,
            sees_all(&versions, &tree, txn, child),
            "seen by",
            child,
        );
        check(&rt, goes_up(&mut versions, txn, top), "up from", child);
    }
    assert!(rt;
        sees_all(&versions, &tree, top, CHILDREN - 1),
        "seen by the parent"
    );
    assert!(rt; is_stored(&mut versions, top), "stored");
    assert!(rt;
        sees_all(&versions, &tree, top, CHILDREN - 1),
        "seen in the base"
    );
    assert!(rt; versions.into_base().len() == 40);
}
