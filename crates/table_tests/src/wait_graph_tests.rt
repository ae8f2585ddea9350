//! The search over small graphs of waits. Under a trial run that refuses a growth the call is made
//! again.
use crate::tools::{adds, are_named, begins, is_held, is_so, words};
use lock_table::TargetLocks;
use serial_spec::{Asked, By, Kind, Op, Target};
use std::alloc::Global;
use std::process::Abort;
use test_kit::{key, name};
use txn_tree::{Tree, TxnNo};
use wait_cycles::{Wait, Waits};
use wait_graph::{CycleSearch, any_edge_by_way_of};

const SCRIPTS: [(&str, &str); 3] = [
    // Each of two waits for what the other has written, so that the last begun is the victim.
    (
        "two that wait for each other",
        "
        begin a
        begin b
        hold a x
        hold b y
        wait a y
        last-through a -> none
        victim a -> none
        wait b x
        last-through b -> b
        victim a -> b
        ",
    ),
    // Who waits for one on a cycle is not on it itself.
    (
        "a third waits for two on a cycle",
        "
        begin a
        begin b
        begin c
        hold a x
        hold b y
        wait a y
        wait b x
        wait c x
        last-through c -> none
        last-through a -> b
        victim a -> b
        any-edge a x -> yes
        any-edge a z -> no
        any-edge c x -> no
        ",
    ),
    // Who waits for what a parent has written waits for the parent's child too, which waits for the
    // other.
    (
        "one waits by way of a branch",
        "
        begin a
        begin a/c
        begin b
        hold a x
        hold b y
        wait b x
        wait a/c y
        last-through a/c -> b
        victim a -> b
        ",
    ),
];

// Transactions that lock keys to write and wait for them.
#[derive(Drop)]
struct Graph {
    tree: Tree,
    locks: TargetLocks,
    waits: Waits,
    search: CycleSearch,
}

// Whether the search finds this one, in room that is made for it: the last begun of those on a
// cycle through the transaction, or of those on any cycle.
fn finds(graph: &mut Graph, through: Option<TxnNo>, want: &str) -> bool {
    let Graph {
        tree,
        locks,
        waits,
        search,
    } = graph;
    for _ in 0..2 {
        if let Ok(()) = search.reserve(waits.len()) {
            let found = match through {
                Some(txn) => search.last_through(tree, locks, waits, txn),
                None => search.victim(tree, locks, waits),
            };
            return match found {
                Some(found) => are_named(tree, &[found], want),
                None => want == "none",
            };
        }
    }
    false
}

// Whether a line holds of a transaction that has begun.
fn holds(graph: &mut Graph, txn: TxnNo, text: &str) -> bool {
    let (verb, _, what, want) = words(text);
    let key = key(what);
    match verb {
        "hold" => is_held(&mut graph.locks, txn, &key, Kind::Write),
        "wait" => {
            let wait = Wait {
                txn,
                asked: Asked::At(key, Op::Set(1)),
                by: By::Line {
                    session: txn.place(),
                    line: 1,
                },
            };
            adds(&mut graph.waits, &wait)
        }
        "last-through" => finds(graph, Some(txn), want),
        "victim" => finds(graph, None, want),
        "any-edge" => {
            let (tree, locks, waits) = (&graph.tree, &graph.locks, &graph.waits);
            is_so(
                any_edge_by_way_of(tree, locks, waits, txn, &Target::Key(key)),
                want,
            )
        }
        _ => false,
    }
}

fn play(rt: &impl Abort, graph: &mut Graph, what: &str, script: &str) {
    for text in script.trim().lines() {
        let text = text.trim();
        let who = name(words(text).1);
        let answered = match graph.tree.no_of(&who) {
            Some(txn) => holds(graph, txn, text),
            None => words(text).0 == "begin" && begins(&mut graph.tree, &who),
        };
        assert!(rt; answered, "{what}: {text}");
    }
}

fn new_graph(alloc: Global) -> Graph {
    Graph {
        tree: Tree::new(alloc),
        locks: TargetLocks::new(alloc),
        waits: Waits::new(alloc),
        search: CycleSearch::new(alloc),
    }
}

#[test]
fn scripts_hold(rt: HostRuntime) {
    for (what, script) in SCRIPTS {
        play(&rt, &mut new_graph(rt.alloc()), what, script);
    }
}
