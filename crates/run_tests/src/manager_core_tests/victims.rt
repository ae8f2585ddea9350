//! Cycles of waits, and who is aborted to break them.
use crate::manager_core_tests::scripts::Case;

pub const CASES: [Case; 6] = [
    // Two that write two keys in opposite order: the one that began later is the victim.
    (
        "two in opposite order",
        "",
        "
        s 1 begin a -> ok
        s 5 begin b -> ok
        s 2 set a x 1 -> ok
        s 6 set b y 3 -> ok
        s 3 set a y 2 -> waits
        s 7 set b x 4 -> waits * b
        s 3 set a y 2 -> ok
        s 7 set b x 4 -> orphan b
        s 4 commit a -> ok
        s 8 commit b -> orphan b
        ",
        "x=1 y=2",
    ),
    // An answered access closes the cycle: u's read keeps t from writing, and t is what u's child
    // waits for. A growth of it that is refused leaves nine entries and both waits.
    (
        "an answered access closes a cycle",
        "",
        "
        s 1 begin t -> ok
        s 2 set t y 1 -> ok
        s 11 begin r -> ok
        s 12 get r k -> none
        s 21 begin u -> ok
        s 22 begin u/c -> ok
        s 3 set t k 2 -> waits
        s 23 get u/c y -> waits
        s 31 after u begun -> ok
        stand 9 t u/c
        s 32 get u k -> none * u/c
        stand 11 t
        s 13 commit r -> ok
        s 23 get u/c y -> orphan u/c
        s 33 after u/c done -> ok
        s 24 commit u/c -> orphan u/c
        s 34 commit u -> ok
        s 3 set t k 2 -> ok
        s 4 commit t -> ok
        ",
        "k=2 y=1",
    ),
    // The access that is asked again and answered closes the cycle.
    (
        "a retried access closes a cycle",
        "",
        "
        s 1 begin w -> ok
        s 2 set w k 1 -> ok
        s 3 begin t -> ok
        s 4 set t y 1 -> ok
        s 5 begin u -> ok
        s 6 begin u/c -> ok
        s 7 begin u/d -> ok
        s 8 get u/d k -> waits
        s 9 get u/c y -> waits
        s 10 set t k 2 -> waits
        s 11 commit w -> ok
        s 8 get u/d k -> value 1 * u/c
        s 10 set t k 2 -> waits
        s 12 commit u/d -> ok
        s 13 commit u -> ok
        s 10 set t k 2 -> ok
        s 14 commit t -> ok
        ",
        "k=2 y=1",
    ),
    // One wait closes two cycles, and the first victim breaks one of them alone.
    (
        "two cycles take two victims",
        "",
        "
        s 1 begin a -> ok
        s 2 begin b -> ok
        s 3 begin c -> ok
        s 4 set a x 1 -> ok
        s 5 get b y -> none
        s 6 get c y -> none
        s 7 set b x 2 -> waits
        s 8 set c x 3 -> waits
        s 9 set a y 4 -> waits * c b
        s 9 set a y 4 -> ok
        s 10 commit a -> ok
        s 7 set b x 2 -> orphan b
        s 8 set c x 3 -> orphan c
        ",
        "x=1 y=4",
    ),
    // The requester is on the cycle, and another that began later is the victim.
    (
        "the victim need not ask",
        "",
        "
        s 1 begin a -> ok
        s 2 begin b -> ok
        s 3 set a x 1 -> ok
        s 4 set b y 2 -> ok
        s 5 set b x 3 -> waits
        s 6 set a y 4 -> waits * b
        s 6 set a y 4 -> ok
        s 7 commit a -> ok
        ",
        "x=1 y=4",
    ),
    // Whoever waits for a descendant of a victim goes on, and the victim's siblings stay.
    (
        "only the part is undone",
        "",
        "
        s 1 begin a -> ok
        s 2 begin b -> ok
        s 3 begin b/l -> ok
        s 4 begin b/r -> ok
        s 5 set a x 1 -> ok
        s 6 set b/l y 2 -> ok
        s 7 set b/r z 3 -> ok
        s 8 get b/l x -> waits
        s 9 get a y -> waits * b/l
        s 9 get a y -> none
        s 10 commit b/r -> ok
        s 11 commit a -> ok
        s 12 commit b -> ok
        ",
        "x=1 z=3",
    ),
];
