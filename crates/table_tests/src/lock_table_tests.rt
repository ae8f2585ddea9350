//! The worked values of the table, and each call once. Under a trial run that refuses a growth the
//! call is made again.
use crate::tools::{are_modes, are_named, begins, check, is_so, words};
use lock_table::Locks;
use serial_spec::Kind;
use std::process::Abort;
use test_kit::{key, name, numbered_key, numbered_name};
use txn_names::Key;
use txn_tree::{Tree, TxnNo};

const SCRIPTS: [(&str, &str); 2] = [
    // Two readers, one of them below a parent, and a third who would write.
    (
        "readers share",
        "
        begin a
        begin a/l
        begin b
        begin c
        read b x
        read a/l x
        kept-from-write c x -> a/l b
        kept-from-write a/l x -> b
        kept-from-write b x -> a/l
        modes a x -> none none
        modes a/l x -> read none
        may-read c x -> yes
        may-write c x -> no
        blocks-write c x b -> yes
        blocks-write b x b -> no
        holders a x -> a/l b
        ",
    ),
    // A child's locks go up, held and retained apart, and keep others out, but no inferior of the
    // parent.
    (
        "a parent inherits",
        "
        begin a
        begin a/l
        begin a/r
        begin b
        write a/l x
        read a/l y
        write a y
        up a/l
        modes a x -> none write
        modes a y -> write read
        modes a/l x -> none none
        may-write a/r x -> yes
        may-read b x -> no
        drop a
        may-write b x -> yes
        ",
    ),
];

// Whether the transaction gets a lock on the key.
fn is_held(locks: &mut Locks, txn: TxnNo, key: &Key, kind: Kind) -> bool {
    for _ in 0..2 {
        if let Ok(()) = locks.reserve(txn, key) {
            locks.hold(txn, key, kind);
            return true;
        }
    }
    false
}

// Whether the locks go up to the parent.
fn goes_up(locks: &mut Locks, child: TxnNo, parent: TxnNo) -> bool {
    for _ in 0..2 {
        if let Ok(()) = locks.reserve_for_parent(child, parent) {
            locks.hand_up(child, Some(parent));
            return true;
        }
    }
    false
}

// Whether these keep the transaction from a write of the key, in this order.
fn is_kept(locks: &Locks, tree: &Tree, txn: TxnNo, key: &Key, want: &str) -> bool {
    for _ in 0..2 {
        if let Ok(found) = locks.blockers(tree, txn, key, Kind::Write) {
            return are_named(tree, &found, want);
        }
    }
    false
}

// Whether a line holds of a transaction that has begun.
fn holds(tree: &Tree, locks: &mut Locks, txn: TxnNo, text: &str) -> bool {
    let (verb, _, what, want) = words(text);
    let (what, holder) = what.split_once(' ').unwrap_or((what, ""));
    let key = key(what);
    match verb {
        "read" => is_held(locks, txn, &key, Kind::Read),
        "write" => is_held(locks, txn, &key, Kind::Write),
        "up" => match tree.parent_of(txn) {
            Some(parent) => goes_up(locks, txn, parent),
            None => false,
        },
        "drop" => {
            locks.drop_under(tree, txn);
            true
        }
        "modes" => {
            are_modes(locks.modes_of(txn, &key), want)
                && are_modes(locks.modes_listed(txn, 0, &key), want)
        }
        "may-read" => is_so(locks.may(tree, txn, &key, Kind::Read), want),
        "may-write" => is_so(locks.may(tree, txn, &key, Kind::Write), want),
        "kept-from-write" => is_kept(locks, tree, txn, &key, want),
        "blocks-write" => match tree.no_of(&name(holder)) {
            Some(holder) => is_so(locks.blocks(tree, holder, txn, &key, Kind::Write), want),
            None => false,
        },
        "holders" => are_named(tree, locks.holders(&key), want),
        _ => false,
    }
}

fn play(rt: &impl Abort, tree: &mut Tree, locks: &mut Locks, what: &str, script: &str) {
    for text in script.trim().lines() {
        let text = text.trim();
        let who = name(words(text).1);
        let answered = match tree.no_of(&who) {
            Some(txn) => holds(tree, locks, txn, text),
            None => words(text).0 == "begin" && begins(tree, &who),
        };
        assert!(rt; answered, "{what}: {text}");
    }
}

#[test]
fn scripts_hold(rt: HostRuntime) {
    for (what, script) in SCRIPTS {
        let (mut tree, mut locks) = (Tree::new(rt.alloc()), Locks::new(rt.alloc()));
        play(&rt, &mut tree, &mut locks, what, script);
    }
}

const READERS: u8 = 30;

const KEYS: u8 = 40;

/// All readers but the first.
const OTHERS: &str = "t01 t02 t03 t04 t05 t06 t07 t08 t09 t10 t11 t12 t13 t14 t15 \
t16 t17 t18 t19 t20 t21 t22 t23 t24 t25 t26 t27 t28 t29";

#[test]
fn many_share_many_keys(rt: HostRuntime) {
    let (mut tree, mut locks) = (Tree::new(rt.alloc()), Locks::new(rt.alloc()));
    for reader in 0..READERS {
        let txn = TxnNo::new(reader as u32);
        check(
            &rt,
            begins(&mut tree, &numbered_name(reader)),
            "begin",
            reader,
        );
        for index in 0..KEYS {
            let key = numbered_key(index);
            assert!(rt;
                is_held(&mut locks, txn, &key, Kind::Read),
                "{index} by {reader}"
            );
        }
        check(&rt, locks.keys(txn).len() == 40, "the keys of", reader);
    }
    let first = TxnNo::new(0);
    for index in 0..KEYS {
        let key = numbered_key(index);
        check(
            &rt,
            is_kept(&locks, &tree, first, &key, OTHERS),
            "a write of",
            index,
        );
        check(
            &rt,
            locks.may(&tree, first, &key, Kind::Read),
            "a read of",
            index,
        );
    }
}
