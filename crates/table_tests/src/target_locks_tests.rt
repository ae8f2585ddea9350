//! Sums over groups beside accesses of their keys, and each call once. Under a trial run that
//! refuses a growth the call is made again.
use crate::tools::{are_modes, are_named, begins, check, is_held, is_so, words};
use lock_table::TargetLocks;
use serial_spec::{Kind, Target};
use std::process::Abort;
use test_kit::{group, grouped_key, key, name, numbered_name};
use txn_names::{Group, Key};
use txn_tree::{Tree, TxnNo};

const SCRIPTS: [(&str, &str); 4] = [
    // A sum keeps others from writing any key of its group, present or not, and goes up at a
    // commit.
    (
        "sums nest",
        "
        begin a
        begin a/l
        begin a/r
        begin b
        sum a/l g.h
        may-write b g.h.x -> no
        may-write a/r g.h.y -> no
        may-write a/l g.h.x -> yes
        may-write b g.hxx -> yes
        may-write b g.x.h -> yes
        remembering-read b g.h.x -> yes
        remembering-write b g.h.x -> no
        may-sum b g.h -> yes
        may-sum b g -> yes
        up a/l
        group-modes a g.h -> none read
        group-modes a/l g.h -> none none
        may-write a/r g.h.x -> yes
        may-write b g.h.x -> no
        drop a
        may-write b g.h.x -> yes
        ",
    ),
    // A written key keeps others from a sum over each of its groups, and goes on to do so once its
    // writer has committed.
    (
        "writers keep sums out",
        "
        begin a
        begin a/l
        begin a/r
        begin b
        read b g.x
        may-sum a g -> yes
        write a/l g.h.x
        read a/l g.h.x
        may-sum b g.h -> no
        may-sum b g.i -> yes
        may-sum b h.x -> yes
        may-sum a/r g.h -> no
        may-sum a/l g.h -> yes
        may-sum b g -> no
        kept-from-sum b g -> a/l
        blocks-sum b g a/l -> yes
        up a/l
        modes a g.h.x -> none write
        may-sum a/r g -> yes
        may-sum b g -> no
        kept-from-sum b g.h -> a
        only-key a g.h.x
        end a
        may-sum b g -> yes
        kept-from-sum b g.h -> none
        ",
    ),
    // Of a write those are found that read the key and those that sum over a group of it, each
    // once, the first begun first.
    (
        "each is found once",
        "
        begin a
        begin b
        begin c
        begin d
        sum d g
        sum a g.h
        sum c g.h
        read b g.h.x
        read d g.h.x
        kept-from-write a g.h.x -> b c d
        kept-from-write d g.h.x -> a b c
        kept-from-write b g.h.x -> a c d
        kept-from-write a g.i.x -> d
        blocks-write a g.h.x c -> yes
        blocks-read a g.h.x c -> no
        blocks-write a g.i.x c -> no
        key-list a g.h.x 0 -> b d
        key-list a g.h.x 1 -> d
        key-list a g.h.x 2 -> none
        key-list a g.h.x 3 -> a c
        key-list a g.h.x 5 -> none
        key-lists a g.h.x 5
        group-list a g 0 -> none
        group-lists a g 1
        write b g.h.x
        group-list a g 0 -> b
        group-list a g 1 -> none
        ",
    ),
    // A lock is taken by one step, also where the transaction has written in the group before, or
    // in one of the key's groups alone.
    (
        "places and locks at once",
        "
        begin a
        begin b
        lock-read b g.h.x
        may-sum a g.h -> yes
        lock-write b g.y
        may-sum a g -> no
        may-sum a g.h -> yes
        lock-write b g.h.i.x
        kept-from-sum a g.h -> b
        kept-from-sum a g.h.i -> b
        lock-write b g.h.i.y
        modes b g.h.i.y -> write none
        modes b g.h.x -> read none
        lock-sum a f
        group-modes a f -> read none
        may-write b f.x -> no
        ",
    ),
];

// Whether the transaction gets a lock on the group.
fn is_summed(locks: &mut TargetLocks, txn: TxnNo, group: &Group) -> bool {
    for _ in 0..2 {
        if let Ok(()) = locks.reserve_group(txn, group) {
            locks.hold_group(txn, group);
            return true;
        }
    }
    false
}

// Whether the transaction takes a lock on the key by one step.
fn is_locked(locks: &mut TargetLocks, txn: TxnNo, key: &Key, kind: Kind) -> bool {
    locks.lock(txn, key, kind).is_ok() || locks.lock(txn, key, kind).is_ok()
}

// Whether it takes one on the group.
fn is_group_locked(locks: &mut TargetLocks, txn: TxnNo, group: &Group) -> bool {
    locks.lock_group(txn, group).is_ok() || locks.lock_group(txn, group).is_ok()
}

// Whether the locks go up to the parent.
fn goes_up(locks: &mut TargetLocks, child: TxnNo, parent: TxnNo) -> bool {
    for _ in 0..2 {
        if let Ok(()) = locks.reserve_for_parent(child, parent) {
            locks.hand_up(child, Some(parent));
            return true;
        }
    }
    false
}

// Whether these keep the transaction from a write of the key, in this order.
fn is_kept(locks: &TargetLocks, tree: &Tree, txn: TxnNo, key: &Key, want: &str) -> bool {
    for _ in 0..2 {
        if let Ok(found) = locks.blockers(tree, txn, key, Kind::Write) {
            return are_named(tree, &found, want);
        }
    }
    false
}

// Whether these keep the transaction from a sum over the group, in this order.
fn is_kept_from_sum(
    locks: &TargetLocks,
    tree: &Tree,
    txn: TxnNo,
    group: &Group,
    want: &str,
) -> bool {
    for _ in 0..2 {
        if let Ok(found) = locks.group_blockers(tree, txn, group) {
            return are_named(tree, &found, want);
        }
    }
    false
}

// Whether what is asked of a key is answered so, behind the key may stand a holder or a
// place.
fn is_key_so(tree: &Tree, locks: &mut TargetLocks, txn: TxnNo, text: &str) -> bool {
    let (verb, _, what, want) = words(text);
    let (what, holder) = what.split_once(' ').unwrap_or((what, ""));
    let (key, place) = (key(what), holder.parse().unwrap_or(0));
    let holder = tree.no_of(&name(holder)).unwrap_or(txn);
    match verb {
        "read" => is_held(locks, txn, &key, Kind::Read),
        "write" => is_held(locks, txn, &key, Kind::Write),
        "lock-read" => is_locked(locks, txn, &key, Kind::Read),
        "lock-write" => is_locked(locks, txn, &key, Kind::Write),
        "modes" => {
            are_modes(locks.modes_of(txn, &key), want)
                && are_modes(locks.modes_listed(txn, 0, &key), want)
        }
        "may-read" => is_so(locks.may(tree, txn, &key, Kind::Read), want),
        "may-write" => is_so(locks.may(tree, txn, &key, Kind::Write), want),
        "remembering-read" => is_so(locks.may_remembering(tree, txn, &key, Kind::Read), want),
        "remembering-write" => is_so(locks.may_remembering(tree, txn, &key, Kind::Write), want),
        "blocks-read" => is_so(locks.blocks(tree, holder, txn, &key, Kind::Read), want),
        "blocks-write" => is_so(locks.blocks(tree, holder, txn, &key, Kind::Write), want),
        "kept-from-write" => is_kept(locks, tree, txn, &key, want),
        "only-key" => locks.keys(txn) == [key].as_slice(),
        "key-list" => are_named(tree, locks.list_at(&Target::Key(key), place), want),
        "key-lists" => locks.lists(&Target::Key(key)) == place,
        _ => false,
    }
}

// Whether a line holds of a transaction that has begun.
fn holds(tree: &Tree, locks: &mut TargetLocks, txn: TxnNo, text: &str) -> bool {
    let (verb, _, what, want) = words(text);
    let (what, holder) = what.split_once(' ').unwrap_or((what, ""));
    let (group, place) = (group(what), holder.parse().unwrap_or(0));
    let holder = tree.no_of(&name(holder)).unwrap_or(txn);
    match verb {
        "sum" => is_summed(locks, txn, &group),
        "lock-sum" => is_group_locked(locks, txn, &group),
        "up" => match tree.parent_of(txn) {
            Some(parent) => goes_up(locks, txn, parent),
            None => false,
        },
        "end" => {
            locks.hand_up(txn, None);
            true
        }
        "drop" => {
            locks.drop_under(tree, txn);
            true
        }
        "group-modes" => are_modes(locks.group_modes_of(txn, &group), want),
        "may-sum" => is_so(locks.may_group(tree, txn, &group), want),
        "blocks-sum" => is_so(locks.blocks_group(tree, holder, txn, &group), want),
        "kept-from-sum" => is_kept_from_sum(locks, tree, txn, &group, want),
        "group-list" => are_named(tree, locks.list_at(&Target::Group(group), place), want),
        "group-lists" => locks.lists(&Target::Group(group)) == place,
        _ => is_key_so(tree, locks, txn, text),
    }
}

fn play(rt: &impl Abort, tree: &mut Tree, locks: &mut TargetLocks, what: &str, script: &str) {
    for text in script.trim().lines() {
        let text = text.trim();
        let who = name(words(text).1);
        let answered = match tree.no_of(&who) {
            Some(txn) => holds(tree, locks, txn, text),
            None => words(text).0 == "begin" && begins(tree, &who),
        };
        assert!(rt; answered, "{what}: {text}");
    }
}

#[test]
fn scripts_hold(rt: HostRuntime) {
    for (what, script) in SCRIPTS {
        let (mut tree, mut locks) = (Tree::new(rt.alloc()), TargetLocks::new(rt.alloc()));
        play(&rt, &mut tree, &mut locks, what, script);
    }
}

const READERS: u8 = 24;

/// All readers but the first.
const OTHERS: &str = "t01 t02 t03 t04 t05 t06 t07 t08 t09 t10 t11 t12 \
t13 t14 t15 t16 t17 t18 t19 t20 t21 t22 t23";

#[test]
fn many_sum_over_a_group(rt: HostRuntime) {
    let (mut tree, mut locks) = (Tree::new(rt.alloc()), TargetLocks::new(rt.alloc()));
    let g = group("g");
    for reader in 0..READERS {
        let txn = TxnNo::new(reader as u32);
        let key = grouped_key(reader);
        check(
            &rt,
            begins(&mut tree, &numbered_name(reader)),
            "begin",
            reader,
        );
        check(&rt, is_summed(&mut locks, txn, &g), "sum", reader);
        check(
            &rt,
            is_held(&mut locks, txn, &key, Kind::Read),
            "read",
            reader,
        );
    }
    let first = TxnNo::new(0);
    for index in 0..READERS {
        let key = grouped_key(index);
        check(
            &rt,
            is_kept(&locks, &tree, first, &key, OTHERS),
            "a write of",
            index,
        );
        check(
            &rt,
            locks.may(&tree, first, &key, Kind::Read),
            "a read of",
            index,
        );
    }
    assert!(rt; locks.may_group(&tree, first, &g), "a sum");
}
