//! Each call at many transactions and keys, at a value that a child leaves in place of its
//! parent's. Under a trial run that refuses a growth the call is made again.
ghost use Rattle.std.specs.Prelude.{◌≡◌, false};

use crate::tools::{begins, check};
use test_kit::{child_name, name, numbered_key};
use txn_cells::{CellTable, Inherit};
use txn_names::Key;
use txn_tree::{Tree, TxnNo};

const CHILDREN: u8 = 29;

const KEYS: u8 = 40;

#[derive(Clone, Copy)]
struct Latest(u32);

impl Inherit for Latest {
    ghost inherited = { λ child own. child };

    ghost joined = { λ added own. added };

    ghost outstanding = { λ value. false };

    fn inherit(child: Latest, _own: Option<Latest>) -> Latest
        ensures { result ≡ child }
    {
        child
    }

    fn join(added: Latest, _own: Option<Latest>) -> Latest
        ensures { result ≡ added }
    {
        added
    }

    fn stands_out(self) -> bool
        ensures { result ≡ false }
    {
        false
    }
}

// Whether that is the value; 0 where there is none.
fn is_value(value: Option<Latest>, want: u32) -> bool {
    match value {
        Some(Latest(value)) => value == want,
        None => want == 0,
    }
}

// Whether the transaction has the value at the key from now on, set or joined to what it had.
fn is_set(table: &mut CellTable<Latest>, txn: TxnNo, key: &Key, value: u32, joined: bool) -> bool {
    for _ in 0..2 {
        if let Ok(()) = table.reserve(txn, key) {
            if joined {
                table.join(txn, key, Latest(value));
            } else {
                table.set(txn, key, Latest(value));
            }
            return true;
        }
    }
    false
}

// Whether the values go up to the parent.
fn goes_up(table: &mut CellTable<Latest>, child: TxnNo, parent: TxnNo) -> bool {
    for _ in 0..2 {
        if let Ok(()) = table.reserve_for_parent(child, parent) {
            table.hand_up(child, Some(parent));
            return true;
        }
    }
    false
}

// Whether the transaction has the value at each key from now on.
fn sets_all(table: &mut CellTable<Latest>, txn: TxnNo, value: u32) -> bool {
    for index in 0..KEYS {
        if !is_set(table, txn, &numbered_key(index), value, false) {
            return false;
        }
    }
    true
}

fn has_all(table: &CellTable<Latest>, txn: TxnNo, value: u32) -> bool {
    for index in 0..KEYS {
        if !is_value(table.get(txn, &numbered_key(index)), value) {
            return false;
        }
    }
    true
}

// The last child to commit is the one whose values stand.
#[test]
fn a_parent_has_what_its_children_left(rt: HostRuntime) {
    let (mut tree, mut table) = (Tree::new(rt.alloc()), CellTable::new(rt.alloc()));
    let (top, last) = (TxnNo::new(0), numbered_key(39));
    assert!(rt; begins(&mut tree, &name("a")), "begin");
    for child in 0..CHILDREN {
        let (txn, value) = (TxnNo::new(1 + child as u32), 1 + child as u32);
        check(&rt, begins(&mut tree, &child_name(child)), "begin", child);
        check(&rt, sets_all(&mut table, txn, value), "set by", child);
        if child % 2 == 0 {
            check(&rt, goes_up(&mut table, txn, top), "up from", child);
            check(&rt, has_all(&table, top, value), "left by", child);
            check(
                &rt,
                table.keys(txn).is_empty() && table.keys(top).len() == 40,
                "the keys of",
                child,
            );
        }
    }
    assert!(rt; table.holders(&last).len() == 15 && table.standing_out(&last).is_empty());
    table.drop_under(&tree, TxnNo::new(2));
    for (number, value) in [(2, 0), (4, 4)] {
        assert!(rt;
            has_all(&table, TxnNo::new(number), value),
            "{number} beside a dropped one"
        );
    }
    table.drop_under(&tree, top);
    assert!(rt; has_all(&table, TxnNo::new(4), 0) && table.keys(top).is_empty());
}

// Whether one look at the first key, also one at the key that was looked at last, tells what each
// of the first three has there.
fn tells(table: &mut CellTable<Latest>, values: [u32; 3]) -> bool {
    let key = numbered_key(0);
    let Some(seen) = table.at(&key) else {
        return false;
    };
    for (number, value) in [(0, values[0]), (1, values[1]), (2, values[2])] {
        if !is_value(seen.get(TxnNo::new(number)), value) {
            return false;
        }
    }
    if seen.holders().len() != 2 {
        return false;
    }
    table.remember(&key);
    let Some(seen) = table.at_remembered(&key) else {
        return false;
    };
    is_value(seen.get(TxnNo::new(0)), values[0]) && is_value(seen.get(TxnNo::new(1)), values[1])
}

// One look at a key tells what each of two has there, before and after an access of one of them.
#[test]
fn one_look_tells_what_all_have(rt: HostRuntime) {
    let (mut tree, mut table) = (Tree::new(rt.alloc()), CellTable::new(rt.alloc()));
    let (top, child) = (TxnNo::new(0), TxnNo::new(1));
    assert!(rt;
        begins(&mut tree, &name("a")) && begins(&mut tree, &child_name(0)),
        "begin"
    );
    assert!(rt;
        sets_all(&mut table, top, 1) && sets_all(&mut table, child, 2),
        "set"
    );
    assert!(rt; tells(&mut table, [1, 2, 0]), "before");
    assert!(rt;
        table.at(&numbered_key(KEYS)).is_none(),
        "a key that nobody has"
    );
    assert!(rt;
        is_set(&mut table, child, &numbered_key(0), 3, true),
        "joined"
    );
    assert!(rt; tells(&mut table, [1, 3, 0]), "behind");
    for (txn, value) in [(child, 4), (TxnNo::new(2), 5)] {
        let key = numbered_key(KEYS);
        assert!(rt;
            table.take(txn, &key, Latest(value)).is_ok()
                || table.take(txn, &key, Latest(value)).is_ok(),
            "taken"
        );
        assert!(rt; is_value(table.get(txn, &key), value), "what was taken");
    }
    assert!(rt;
        is_value(table.get_listed(child, 1, &numbered_key(1)), 2),
        "listed"
    );
}
