//! Stores that take the changes, and some that do not.
use crate::manager_core_tests::scripts::{Case, entry};
use crate::manager_core_tests::watched::{answer_of, call, is_free};
use durable_top::{MemStore, StoreFault, TopStore};
use manager_core::{Manager, OpenFault};
use std::alloc::Global;

pub const TAKEN: Case = (
    "one transaction",
    "z=7",
    "
    s 1 begin a -> ok
    s 2 set a y 5 -> ok
    s 3 get a y -> value 5
    s 4 get a x -> none
    s 5 get a z -> value 7
    s 6 del a z -> ok
    s 7 get a z -> none
    s 8 add a x -3 -> new -3
    s 9 add a x -9223372036854775808 -> overflow
    s 10 commit a -> ok
    s 11 get a x -> refused done
    s 12 commit a -> refused done
    close
    ",
    "x=-3 y=5",
);

/// Over a store that refuses its first commit.
pub const REFUSED: Case = (
    "a store that refuses",
    "",
    "
    s 1 begin a -> ok
    s 2 set a x 1 -> ok
    s 3 commit a -> refused store
    s 4 get a x -> value 1
    table
    s 5 commit a -> ok
    table x=1
    ",
    "x=1",
);

// Whether each call of a session is answered as it has to be, without a refused growth.
fn is_served<S: TopStore>(manager: &mut Manager<S>) -> bool {
    for text in [
        "s 1 begin a -> ok",
        "s 2 begin a/l -> ok",
        "s 3 set a/l x 1 -> ok",
        "s 4 abort a/l -> ok",
        "s 5 set a x 2 -> ok",
        "s 6 commit a -> ok",
    ] {
        let Some(line) = entry(text) else {
            return false;
        };
        if !is_free(manager, line.by, &line.event) {
            return false;
        }
        match call(manager, line.by, &line.event) {
            Ok(outcome) => {
                if answer_of(&outcome) != line.answer {
                    return false;
                }
            }
            Err(_) => return false,
        }
    }
    manager.close().is_ok()
}

fn is_served_at_once(alloc: Global) -> bool {
    let Ok(store) = MemStore::new(alloc, &[]) else {
        return false;
    };
    let Ok(mut manager) = Manager::open(alloc, store) else {
        return false;
    };
    let served = is_served(&mut manager);
    // A manager that is let go on one way alone costs the prover much.
    let faults = manager.into_store().faults();
    served && faults == 0
}

// Beside a watch each call may want memory once, and a store refuse once. A trial run refuses one
// growth, and so one of the two.
#[test]
fn one_of_two_sessions_is_served_at_once(rt: HostRuntime) {
    let first = is_served_at_once(rt.alloc());
    let second = is_served_at_once(rt.alloc());
    assert!(rt; first || second);
}

#[test]
fn a_store_without_its_rows(rt: HostRuntime) {
    let mut store = MemStore::failing(rt.alloc(), &[], 1).expect(&rt, "memory");
    assert!(rt; store.commit(&[]).is_err());
    let fault = Manager::open(rt.alloc(), store).err();
    assert!(rt; fault == Some(OpenFault::Store(StoreFault::Failed)));
}
