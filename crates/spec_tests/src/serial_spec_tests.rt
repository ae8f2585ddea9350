//! The worked values of operations, that each call can succeed, and a run of nested items.
ghost use Rattle.std.specs.Prelude.{◌≡◌, IsTrue};
ghost use Rattle.std.specs.Ordering.{nat_cmp};
ghost use Rattle.std.specs.Cmp.Lexicographic.{slice_cmp};
ghost use Rattle.std.specs.declared.cmp.Ordering.TheVariants.{Less};

use serial_spec::{
    Asked, Item, Kind, Left, Mode, NoMemory, Op, PlainTable, Reply, Target, act, act_sum,
    run_items, sum_of,
};
use std::alloc::Global;
use std::process::Abort;
use txn_names::{Change, Group, Key, Name};

fn key(rt: &impl Abort, text: &str) -> Key {
    Key::parse(text.as_bytes()).expect(rt, text)
}

fn group(rt: &impl Abort, text: &str) -> Group {
    Group::parse(text.as_bytes()).expect(rt, text)
}

// The keys k100, k101, ..
fn key_of(rt: &impl Abort, alloc: Global, number: i64) -> Key {
    let text = format!(in alloc; "k{number}").expect(rt, "memory");
    key(rt, &text)
}

fn put(rt: &impl Abort, table: &mut PlainTable, text: &str, value: Option<i64>) {
    table.put(&key(rt, text), value).expect(rt, text);
}

// Puts by falling keys, so that each row goes before all others.
fn put_hundred(rt: &impl Abort, alloc: Global, table: &mut PlainTable) {
    for number in 100..200 {
        let key = key_of(rt, alloc, 299_i64.wrapping_sub(number));
        table.put(&key, Some(number)).expect(rt, "memory");
    }
}

fn copy_of(rt: &impl Abort, table: &PlainTable) -> PlainTable {
    table.copy().expect(rt, "memory")
}

fn get(rt: &impl Abort, table: &PlainTable, text: &str) -> Option<i64> {
    table.get(&key(rt, text))
}

// Whether the row at this place has the key and the value.
fn is_at(rt: &impl Abort, table: &PlainTable, place: usize, text: &str, value: i64) -> bool {
    match table.at(place) {
        Some((found, held)) => *found == key(rt, text) && held == value,
        None => false,
    }
}

fn access(key: &Key, op: Op, reply: Reply) -> Item {
    Item::Access {
        key: *key,
        op,
        reply,
    }
}

// An access, a block of two with a block of one between them, and another access.
fn nested(alloc: Global, x: &Key, y: &Key, inner: Reply) -> Result<Vec<Item>, NoMemory> {
    let innermost = vec![in alloc; access(y, Op::Add(4), inner)]?;
    let block = vec![in alloc;
        access(x, Op::Get, Reply::Value(1)),
        Item::Block(innermost),
        access(x, Op::Del, Reply::Ok),
    ]?;
    let items = vec![in alloc;
        access(x, Op::Set(1), Reply::Ok),
        Item::Block(block),
        access(x, Op::Get, Reply::Absent),
    ]?;
    Ok(items)
}

// A key that is set, and read back in a block within the block.
fn set_and_got(alloc: Global, key: &Key, value: i64) -> Result<Item, NoMemory> {
    let inner = vec![in alloc; access(key, Op::Get, Reply::Value(value))]?;
    let block = vec![in alloc; access(key, Op::Set(value), Reply::Ok), Item::Block(inner)]?;
    Ok(Item::Block(block))
}

// A hundred such blocks, and behind them an access with this reply.
fn hundred_blocks(rt: &impl Abort, alloc: Global, last: Reply) -> Vec<Item> {
    let mut items = Vec::new(alloc);
    for number in 100..200 {
        let item = set_and_got(alloc, &key_of(rt, alloc, number), number).expect(rt, "memory");
        items.push(item).expect(rt, "memory");
    }
    items
        .push(access(&key(rt, "k199"), Op::Get, last))
        .expect(rt, "memory");
    items
}

fn run(rt: &impl Abort, table: &mut PlainTable, items: &[Item]) -> Option<usize> {
    run_items(table, items).expect(rt, "memory")
}

#[test]
fn acts(rt: HostRuntime) {
    let least = Some(i64::MIN);
    let cases = [
        (None, Op::Add(4), (Some(4), Reply::New(4))),
        (least, Op::Add(-1), (least, Reply::Overflow)),
        (None, Op::Del, (None, Reply::Ok)),
        (Some(7), Op::Get, (Some(7), Reply::Value(7))),
        (None, Op::Get, (None, Reply::Absent)),
        (Some(7), Op::Set(8), (Some(8), Reply::Ok)),
    ];
    for (old, op, want) in cases {
        assert!(rt; act(old, &op) == want, "{op:?} at {old:?}");
    }
    assert!(rt; Op::Get.kind() == Kind::Read && Op::Add(0).kind() == Kind::Write);
}

#[test]
fn leaves_what_the_reply_tells(rt: HostRuntime) {
    for (op, reply, left) in [
        (Op::Get, Reply::Value(7), Left::Nothing),
        (Op::Set(8), Reply::Ok, Left::Value(8)),
        (Op::Add(4), Reply::New(11), Left::Value(11)),
        (Op::Add(4), Reply::Overflow, Left::Nothing),
        (Op::Del, Reply::Ok, Left::Absent),
    ] {
        assert!(rt; op.leaves(reply) == left, "{op:?}");
    }
}

#[test]
fn modes_keep_out(rt: HostRuntime) {
    let kinds = [Kind::Read, Kind::Write];
    for (mode, out) in [
        (Mode::None, [false, false]),
        (Mode::of(Kind::Read), [false, true]),
        (Mode::of(Kind::Write), [true, true]),
    ] {
        assert!(rt; kinds.map(|kind| mode.conflicts(kind)) == out, "{mode:?}");
    }
    assert!(rt; Mode::Read.greater(Mode::Write) == Mode::Write);
    assert!(rt; Mode::Read.greater(Mode::None) == Mode::Read);
}

#[test]
fn keeps_rows_in_order(rt: HostRuntime) {
    let mut table = PlainTable::new(rt.alloc());
    assert!(rt; table.is_empty());
    for (text, value) in [
        ("c", Some(3)),
        ("a", Some(1)),
        ("b", Some(2)),
        ("a", Some(-1)),
        ("b", None),
    ] {
        put(&rt, &mut table, text, value);
    }
    for (text, value) in [("a", Some(-1)), ("b", None), ("c", Some(3))] {
        assert!(rt; get(&rt, &table, text) == value, "{text}");
    }
    let copy = copy_of(&rt, &table);
    put(&rt, &mut table, "c", None);
    assert!(rt; table.len() == 1 && copy.len() == 2 && copy.at(2).is_none());
    assert!(rt; is_at(&rt, &copy, 0, "a", -1) && is_at(&rt, &copy, 1, "c", 3));
}

#[test]
fn holds_a_hundred_rows(rt: HostRuntime) {
    let mut table = PlainTable::new(rt.alloc());
    put_hundred(&rt, rt.alloc(), &mut table);
    let copy = copy_of(&rt, &table);
    put(&rt, &mut table, "k150", None);
    assert!(rt; table.len() == 99 && copy.len() == 100);
    assert!(rt; is_at(&rt, &copy, 0, "k100", 199) && is_at(&rt, &copy, 99, "k199", 100));
    assert!(rt; get(&rt, &table, "k150").is_none() && get(&rt, &copy, "k150") == Some(149));
}

fn change_of(rt: &impl Abort, text: &str, value: Option<i64>) -> Change {
    Change {
        key: key(rt, text),
        value,
    }
}

fn is_below(first: &Change, second: &Change) -> bool
    ensures { IsTrue result → slice_cmp nat_cmp first.now.key second.now.key ≡ Less }
{
    first.key < second.key
}

// Makes three rising changes in room for them.
fn change_three(rt: &impl Abort, table: &mut PlainTable, a: Change, b: Change, c: Change) {
    table.reserve(3).expect(rt, "memory");
    assert!(rt; is_below(&a, &b) && is_below(&a, &c) && is_below(&b, &c));
    table.change(&[a, b, c]);
}

#[test]
fn changes_in_one_pass(rt: HostRuntime) {
    let mut table = table_of(&rt, rt.alloc(), &[("b", 2), ("d", 4), ("f", 6)]);
    let (first, gone) = (change_of(&rt, "a", Some(1)), change_of(&rt, "d", None));
    change_three(&rt, &mut table, first, gone, change_of(&rt, "e", Some(5)));
    for (place, text, value) in [(0, "a", 1), (1, "b", 2), (2, "e", 5), (3, "f", 6)] {
        assert!(rt; is_at(&rt, &table, place, text, value), "{text}");
    }
    let (set, between) = (change_of(&rt, "b", Some(-2)), change_of(&rt, "c", Some(3)));
    change_three(&rt, &mut table, set, between, change_of(&rt, "g", Some(7)));
    for (place, text, value) in [(1, "b", -2), (2, "c", 3), (3, "e", 5), (5, "g", 7)] {
        assert!(rt; is_at(&rt, &table, place, text, value), "{text}");
    }
    assert!(rt; table.len() == 6 && get(&rt, &table, "d").is_none());
}

// A table of these rows.
fn table_of(rt: &impl Abort, alloc: Global, rows: &[(&str, i64)]) -> PlainTable {
    let mut table = PlainTable::new(alloc);
    for (text, value) in rows {
        put(rt, &mut table, text, Some(*value));
    }
    table
}

#[test]
fn sums_the_rows_of_a_group(rt: HostRuntime) {
    let rows = [
        ("f.a", 1),
        ("g", 2),
        ("g-a", 4),
        ("g.", 8),
        ("g.a", 16),
        ("g.a.b", 32),
        ("ga", 64),
        ("h.g.a", 128),
    ];
    let table = table_of(&rt, rt.alloc(), &rows);
    for (text, sum) in [("g", 56), ("g.a", 32), ("a", 0), ("h", 128), ("i", 0)] {
        let group = group(&rt, text);
        assert!(rt; act_sum(&table, &group) == Reply::Value(sum), "{text}");
        assert!(rt; sum_of(&table, &group) == i128::from(sum), "{text}");
    }
}

#[test]
fn sums_past_an_i64(rt: HostRuntime) {
    let rows = [("g.a", i64::MAX), ("g.b", 1)];
    let mut table = table_of(&rt, rt.alloc(), &rows);
    let group = group(&rt, "g");
    assert!(rt; act_sum(&table, &group) == Reply::Overflow);
    assert!(rt; sum_of(&table, &group) == 9_223_372_036_854_775_808);
    put(&rt, &mut table, "g.c", Some(-1));
    assert!(rt; act_sum(&table, &group) == Reply::Value(i64::MAX));
}

#[test]
fn asks_of_targets(rt: HostRuntime) {
    let (key, group) = (key(&rt, "g.a"), group(&rt, "g"));
    let (at, over) = (Asked::At(key, Op::Del), Asked::Over(group));
    assert!(rt; at.target() == Target::Key(key) && at.kind() == Kind::Write);
    assert!(rt; over.target() == Target::Group(group) && over.kind() == Kind::Read);
    assert!(rt; at.target().meets(&over.target()) && over.target().meets(&at.target()));
    assert!(rt; at.target().meets(&at.target()) && !over.target().meets(&over.target()));
    assert!(rt; at.target() != over.target() && at != over);
}

#[test]
fn puts_into_room(rt: HostRuntime) {
    let mut table = PlainTable::new(rt.alloc());
    table.reserve(100).expect(&rt, "memory");
    assert!(rt; table.is_empty());
    put_hundred(&rt, rt.alloc(), &mut table);
    assert!(rt; table.len() == 100 && get(&rt, &table, "k101") == Some(198));
}

#[test]
fn runs_nested_items(rt: HostRuntime) {
    let (x, y) = (key(&rt, "x"), key(&rt, "y"));
    for (inner, want) in [(Reply::New(14), None), (Reply::New(4), Some(2))] {
        let mut table = PlainTable::new(rt.alloc());
        put(&rt, &mut table, "y", Some(10));
        let items = nested(rt.alloc(), &x, &y, inner).expect(&rt, "memory");
        assert!(rt; run(&rt, &mut table, &items) == want);
        assert!(rt; table.len() == 1 && table.get(&y) == Some(14));
    }
}

fn sum(group: &Group, reply: Reply) -> Item {
    Item::Sum {
        group: *group,
        reply,
    }
}

// Three sums over the group, the second one in a block behind a key that is taken out of it.
fn summed(rt: &impl Abort, alloc: Global, inner: Reply) -> Result<Vec<Item>, NoMemory> {
    let (group, gone, new) = (group(rt, "g"), key(rt, "g.a"), key(rt, "g.c"));
    let block = vec![in alloc; access(&gone, Op::Del, Reply::Ok), sum(&group, inner)]?;
    let items = vec![in alloc;
        sum(&group, Reply::Value(3)),
        access(&new, Op::Add(4), Reply::New(4)),
        Item::Block(block),
        sum(&group, Reply::Value(6)),
    ]?;
    Ok(items)
}

#[test]
fn runs_sums_among_items(rt: HostRuntime) {
    let rows = [("g.a", 1), ("g.b", 2), ("gx", 9)];
    for (inner, want) in [
        (Reply::Value(6), None),
        (Reply::Value(7), Some(3)),
        (Reply::Overflow, Some(3)),
    ] {
        let mut table = table_of(&rt, rt.alloc(), &rows);
        let items = summed(&rt, rt.alloc(), inner).expect(&rt, "memory");
        assert!(rt; run(&rt, &mut table, &items) == want, "{inner:?}");
        assert!(rt; table.len() == 3 && is_at(&rt, &table, 0, "g.b", 2));
        assert!(rt; is_at(&rt, &table, 1, "g.c", 4) && is_at(&rt, &table, 2, "gx", 9));
    }
}

#[test]
fn runs_sums_past_an_i64(rt: HostRuntime) {
    let (group, key) = (group(&rt, "g"), key(&rt, "g.c"));
    let rows = [("g.a", i64::MAX), ("g.b", 1)];
    for (first, want) in [(Reply::Overflow, None), (Reply::Value(i64::MIN), Some(0))] {
        let mut table = table_of(&rt, rt.alloc(), &rows);
        let items = vec![in rt.alloc();
            sum(&group, first),
            access(&key, Op::Set(-1), Reply::Ok),
            sum(&group, Reply::Value(i64::MAX)),
        ]
        .expect(&rt, "memory");
        assert!(rt; run(&rt, &mut table, &items) == want, "{first:?}");
        assert!(rt; table.len() == 3 && is_at(&rt, &table, 2, "g.c", -1));
    }
}

#[test]
fn runs_many_items(rt: HostRuntime) {
    for (last, want) in [(Reply::Value(199), None), (Reply::Absent, Some(200))] {
        let mut table = PlainTable::new(rt.alloc());
        let items = hundred_blocks(&rt, rt.alloc(), last);
        assert!(rt; run(&rt, &mut table, &items) == want);
        assert!(rt; table.len() == 100 && is_at(&rt, &table, 99, "k199", 199));
    }
}
