//! Sums over groups: who waits for whom, and which value is told.
use crate::manager_core_tests::scripts::Case;

pub const CASES: [Case; 10] = [
    (
        "a sum waits for whoever wrote in its group",
        "",
        "
        s 1 begin a -> ok
        s 2 set a g.x 1 -> ok
        s 3 begin b -> ok
        s 4 sum b g -> waits
        stand 4 b
        s 5 commit a -> ok
        s 4 sum b g -> value 1
        s 6 commit b -> ok
        ",
        "g.x=1",
    ),
    // Another commits into the group while the sum waits.
    (
        "a sum has the values of its answer",
        "g.z=9 gx=5",
        "
        s 1 begin a -> ok
        s 2 set a g.x 1 -> ok
        s 3 begin b -> ok
        s 4 sum b g -> waits
        s 5 begin c -> ok
        s 6 set c g.y 4 -> ok
        s 7 commit c -> ok
        s 4 sum b g -> waits
        s 8 add a g.x 2 -> new 3
        s 9 commit a -> ok
        s 4 sum b g -> value 16
        s 10 commit b -> ok
        ",
        "g.x=3 g.y=4 g.z=9 gx=5",
    ),
    (
        "a summed group is kept from writers",
        "g.x=7",
        "
        s 1 begin a -> ok
        s 2 begin b -> ok
        s 3 sum a g -> value 7
        s 4 sum b g -> value 7
        s 5 get b g.x -> value 7
        s 6 set b g.new 1 -> stuck
        s 7 del b g.x -> stuck
        s 8 set b g 2 -> ok
        s 9 set b gx 3 -> ok
        s 10 commit a -> ok
        s 11 set b g.new 1 -> ok
        s 12 sum b g -> value 8
        s 13 commit b -> ok
        ",
        "g=2 g.new=1 g.x=7 gx=3",
    ),
    // An own child that has written keeps the parent's sum waiting, and a child's sum goes up at
    // its commit.
    (
        "a parent retains its childs sum",
        "",
        "
        s 1 begin a -> ok
        s 2 begin a/l -> ok
        s 3 set a/l g.x 2 -> ok
        s 4 sum a g -> stuck
        s 5 sum a/l g -> value 2
        s 6 begin b -> ok
        s 7 commit a/l -> ok
        s 8 sum a g -> value 2
        s 9 set b g.y 1 -> stuck
        s 10 abort a -> ok
        s 11 set b g.y 1 -> ok
        s 12 sum b g -> value 1
        close b
        ",
        "",
    ),
    (
        "a sum that is no value is a read",
        "g.x=9223372036854775807 g.y=1",
        "
        s 1 begin a -> ok
        s 2 sum a g -> overflow
        s 3 begin b -> ok
        s 4 set b g.y 1 -> stuck
        s 5 sum b g -> overflow
        s 6 get b g.y -> value 1
        s 7 set a g.y 0 -> stuck
        s 8 commit b -> ok
        s 9 set a g.y 0 -> ok
        s 10 sum a g -> value 9223372036854775807
        s 11 commit a -> ok
        ",
        "g.x=9223372036854775807 g.y=0",
    ),
    (
        "the first cause refuses a sum",
        "",
        "
        s 1 sum a g -> refused unknown
        s 2 begin a -> ok
        s 3 set a g.x 1 -> ok
        s 4 begin b -> ok
        s 5 sum b g -> waits
        s 6 sum b h -> refused waiting
        s 7 abort b -> ok
        s 8 sum b g -> orphan b
        s 9 commit a -> ok
        s 10 sum a g -> refused done
        s 5 sum b g -> orphan b
        ",
        "g.x=1",
    ),
    // A sum and a write wait for each other.
    (
        "a sum closes a cycle",
        "",
        "
        s 1 begin a -> ok
        s 2 begin b -> ok
        s 3 set a g.x 1 -> ok
        s 4 set b k 2 -> ok
        s 5 set a k 3 -> waits
        s 6 sum b g -> waits * b
        s 5 set a k 3 -> ok
        s 6 sum b g -> orphan b
        s 7 commit a -> ok
        ",
        "g.x=1 k=3",
    ),
    // Two that have summed wait for each other's sum.
    (
        "two sums on a cycle",
        "",
        "
        s 1 begin a -> ok
        s 2 begin b -> ok
        s 3 sum a g -> value 0
        s 4 sum b g -> value 0
        s 5 set a g.x 1 -> waits
        s 6 set b g.y 2 -> waits * b
        s 5 set a g.x 1 -> ok
        s 7 commit a -> ok
        ",
        "g.x=1",
    ),
    // An answered sum closes the cycle: it keeps t from writing, and t is what u's child waits for.
    (
        "an answered sum closes a cycle",
        "",
        "
        s 1 begin t -> ok
        s 2 set t y 1 -> ok
        s 11 begin r -> ok
        s 12 get r g.k -> none
        s 21 begin u -> ok
        s 22 begin u/c -> ok
        s 3 set t g.k 2 -> waits
        s 23 get u/c y -> waits
        stand 8 t u/c
        s 32 sum u g -> value 0 * u/c
        stand 10 t
        s 13 commit r -> ok
        s 23 get u/c y -> orphan u/c
        s 34 commit u -> ok
        s 3 set t g.k 2 -> ok
        s 4 commit t -> ok
        ",
        "g.k=2 y=1",
    ),
    // An answered write closes the cycle by way of a sum that waits.
    (
        "a write closes a cycle of a sum",
        "",
        "
        s 1 begin t -> ok
        s 2 set t y 1 -> ok
        s 3 begin r -> ok
        s 4 set r g.k 5 -> ok
        s 5 begin u -> ok
        s 6 begin u/c -> ok
        s 7 begin u/d -> ok
        s 8 sum t g -> waits
        s 9 get u/c y -> waits
        s 10 set u/d g.j 3 -> ok * u/c
        s 8 sum t g -> waits
        s 11 commit r -> ok
        s 12 commit u/d -> ok
        s 13 commit u -> ok
        s 8 sum t g -> value 8
        s 14 commit t -> ok
        ",
        "g.j=3 g.k=5 y=1",
    ),
];
