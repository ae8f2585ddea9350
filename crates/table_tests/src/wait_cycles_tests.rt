//! The worked values of the finder, and each call on waits once. Under a trial run that refuses a
//! growth the call is made again.
use crate::tools::{adds, begins, is_so, words};
use serial_spec::{Asked, By, NoMemory, Op, Target};
use std::alloc::Global;
use std::process::Abort;
use test_kit::{group, key, name};
use txn_tree::{Tree, TxnNo};
use wait_cycles::{Cycle, Wait, Waits, Work, find_cycle, victim};

fn pair(waiting: u32, other: u32) -> (TxnNo, TxnNo) {
    (TxnNo::new(waiting), TxnNo::new(other))
}

// How many lie on a cycle, and who of them is the victim.
fn told(cycle: Option<Cycle>) -> Option<(usize, u32)> {
    match cycle {
        Some(cycle) => Some((cycle.members().len(), victim(&cycle).place())),
        None => None,
    }
}

// The victim that a search with memory made before finds.
fn searched(rt: &impl Abort, alloc: Global, pairs: &[(TxnNo, TxnNo)]) -> Option<TxnNo> {
    let mut work = Work::new(alloc);
    match work.reserve(pairs.len()) {
        Ok(()) => work.victim(pairs),
        Err(_) => {
            work.reserve(pairs.len()).expect(rt, "memory");
            work.victim(pairs)
        }
    }
}

// Whether so many lie on the cycle found, and this is the victim, also of a search with memory made
// before.
fn is_found(
    rt: &impl Abort,
    alloc: Global,
    pairs: &[(TxnNo, TxnNo)],
    want: Option<(usize, u32)>,
) -> bool {
    let found = match find_cycle(alloc, pairs) {
        Ok(found) => found,
        Err(_) => find_cycle(alloc, pairs).expect(rt, "memory"),
    };
    let last = match want {
        Some((_, last)) => Some(TxnNo::new(last)),
        None => None,
    };
    told(found) == want && searched(rt, alloc, pairs) == last
}

// Among them sixty-four that wait behind each other, each for the one begun after it or before it,
// without the last, who waits for the first, and with it.
#[test]
fn worked_values(rt: HostRuntime) {
    let two = [pair(0, 3), pair(3, 0), pair(1, 2), pair(2, 1)];
    let neighbours = [pair(0, 1), pair(1, 0), pair(2, 3), pair(3, 2)];
    let itself = [pair(7, 2), pair(2, 2), pair(5, 7)];
    let open = [pair(0, 1), pair(1, 2), pair(0, 2)];
    let two_ways = [pair(4, 1), pair(4, 2), pair(1, 3), pair(2, 3), pair(3, 4)];
    let mut up = [pair(63, 0); 64];
    let mut down = [pair(0, 63); 64];
    for place in 0..63 {
        up[place as usize] = pair(place, place + 1);
        down[place as usize] = pair(place + 1, place);
    }
    let table: [(&str, &[(TxnNo, TxnNo)], Option<(usize, u32)>); 11] = [
        ("nobody", &[], None),
        ("two cycles", &two, Some((2, 3))),
        ("two neighbours", &neighbours, Some((2, 3))),
        ("itself", &itself, Some((1, 2))),
        ("open", &open, None),
        ("two ways, open", &two_ways[..4], None),
        ("two ways", &two_ways, Some((3, 4))),
        ("up, open", &up[..63], None),
        ("down, open", &down[..63], None),
        ("up", &up, Some((64, 63))),
        ("down", &down, Some((64, 63))),
    ];
    for (what, pairs, want) in table {
        assert!(rt; is_found(&rt, rt.alloc(), pairs, want), "{what}");
    }
}

const SCRIPTS: [(&str, &str); 5] = [
    // A wait is found until it is cancelled, and its transaction may wait again.
    (
        "waits come and go",
        "
        empty -> yes
        wait 4 1
        empty -> no
        wait 9 2
        waits 4 1 -> yes
        waits 9 2 -> yes
        cancel 4
        none 4 -> yes
        wait 4 3
        waits 4 3 -> yes
        waits 9 2 -> yes
        ",
    ),
    // A sum waits as an access to a key does, and is told from the read of the key that has the
    // bytes of its group.
    (
        "sum waits",
        "
        wait 4 1
        wait-to-sum 9 2
        waits 4 1 -> yes
        waits-to-sum 9 2 -> yes
        waits 9 2 -> no
        cancel 9
        none 9 -> yes
        waits 4 1 -> yes
        ",
    ),
    // A wait may meet its key, and not another one. A sum may meet any key, and each wait any group.
    (
        "what waits may meet",
        "
        meets x -> no
        meets-group x -> no
        wait 4 3
        meets x -> yes
        meets y -> no
        meets-group y -> yes
        wait-to-sum 9 2
        meets y -> yes
        cancel 9
        cancel 4
        meets x -> no
        ",
    ),
    // The next place that may meet a key. The last wait stands at the place of one that is gone.
    (
        "where waits may meet",
        "
        next x 0 -> none
        wait 4 3
        next x 0 -> 0
        next x 1 -> none
        next y 0 -> none
        wait-to-sum 9 2
        next y 0 -> 1
        wait 7 4
        next x 2 -> 2
        cancel 4
        next x 0 -> 0
        next x 1 -> 1
        cancel 9
        next x 0 -> 0
        next y 0 -> none
        ",
    ),
    // A transaction and its child wait no more, and its neighbour waits on.
    (
        "those below wait no more",
        "
        empty -> yes
        begin a
        begin b
        begin a/l
        wait-in-room 0 1
        wait-in-room 1 2
        wait-in-room 2 3
        drop 0
        only 1 2 -> yes
        ",
    ),
];

// A wait to read the key x, or to sum over the group x.
fn wait(txn: TxnNo, line: u32, sums: bool) -> Wait {
    Wait {
        txn,
        asked: if sums {
            Asked::Over(group("x"))
        } else {
            Asked::At(key("x"), Op::Get)
        },
        by: By::Line { session: 0, line },
    }
}

fn stands(waits: &Waits, wait: &Wait) -> bool {
    waits.of(wait.txn).copied() == Some(*wait)
}

fn add_into_room_once(waits: &mut Waits, wait: &Wait) -> Result<(), NoMemory> {
    waits.reserve(1)?;
    waits.cancel(wait.txn);
    waits.add_reserved(wait.txn, &wait.asked, wait.by);
    Ok(())
}

// Whether the line of a script holds.
fn holds(tree: &mut Tree, waits: &mut Waits, text: &str) -> bool {
    let (verb, who, line, want) = words(text);
    let txn = TxnNo::new(who.parse().unwrap_or(u32::MAX));
    let line = line.parse().unwrap_or(0);
    let (read, sum) = (wait(txn, line, false), wait(txn, line, true));
    match verb {
        "begin" => begins(tree, &name(who)),
        "empty" => is_so(waits.is_empty(), want),
        "wait" => adds(waits, &read),
        "wait-to-sum" => adds(waits, &sum),
        "wait-in-room" => {
            add_into_room_once(waits, &read).is_ok() || add_into_room_once(waits, &read).is_ok()
        }
        "waits" => is_so(stands(waits, &read), want),
        "waits-to-sum" => is_so(stands(waits, &sum), want),
        "only" => is_so(waits.len() == 1 && stands(waits, &read), want),
        "none" => is_so(waits.of(txn).is_none(), want),
        "meets" => is_so(waits.may_meet(&Target::Key(key(who))), want),
        "meets-group" => is_so(waits.may_meet(&Target::Group(group(who))), want),
        "next" => waits.next_met(&Target::Key(key(who)), line as usize) == want.parse().ok(),
        "cancel" => {
            waits.cancel(txn);
            true
        }
        "drop" => {
            waits.drop_under(tree, txn);
            true
        }
        _ => false,
    }
}

#[test]
fn scripts_hold(rt: HostRuntime) {
    for (what, script) in SCRIPTS {
        let (mut tree, mut waits) = (Tree::new(rt.alloc()), Waits::new(rt.alloc()));
        for text in script.trim().lines() {
            let text = text.trim();
            assert!(rt; holds(&mut tree, &mut waits, text), "{what}: {text}");
        }
    }
}

// A hundred wait, then those of odd numbers are cancelled: those of even numbers wait and no
// others, each met at a place.
#[test]
fn half_of_a_hundred(rt: HostRuntime) {
    let mut waits = Waits::new(rt.alloc());
    for number in 0..100 {
        assert!(rt;
            adds(&mut waits, &wait(TxnNo::new(number), number, false)),
            "{number}"
        );
    }
    for half in 0..50 {
        waits.cancel(TxnNo::new(2 * half + 1));
    }
    for half in 0..50 {
        let (even, odd) = (TxnNo::new(2 * half), TxnNo::new(2 * half + 1));
        assert!(rt;
            waits.of(even).is_some() && waits.of(odd).is_none(),
            "{half}"
        );
        assert!(rt; waits.at(half as usize).is_some(), "at {half}");
    }
    assert!(rt; waits.len() == 50 && waits.at(50).is_none());
}
