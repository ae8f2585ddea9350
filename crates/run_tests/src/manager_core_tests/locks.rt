//! Who waits for whom, and how long.
use crate::manager_core_tests::scripts::Case;

pub const CASES: [Case; 11] = [
    // The line that waited is answered when its transaction waits no more.
    (
        "one that waits asks nothing else",
        "",
        "
        s 1 begin a -> ok
        s 2 set a x 1 -> ok
        s 3 begin b -> ok
        s 4 get b x -> waits
        s 5 get b y -> refused waiting
        s 6 get a x -> value 1
        s 7 commit a -> ok
        s 8 commit b -> refused waiting
        s 9 abort b -> ok
        s 4 get b x -> orphan b
        ",
        "x=1",
    ),
    (
        "reads are shared",
        "x=9",
        "
        s 1 begin a -> ok
        s 2 begin b -> ok
        s 3 begin c -> ok
        s 4 get a x -> value 9
        s 5 get b x -> value 9
        s 6 set c x 5 -> stuck
        s 7 commit a -> ok
        s 8 del c x -> stuck
        s 9 set b x 6 -> ok
        s 10 abort b -> ok
        s 11 set c x 5 -> ok
        s 12 commit c -> ok
        ",
        "x=5",
    ),
    (
        "a parent retains its childs locks",
        "y=4",
        "
        s 1 begin a -> ok
        s 2 begin a/l -> ok
        s 3 set a/l x 2 -> ok
        s 4 get a/l y -> value 4
        s 5 begin b -> ok
        s 6 get b x -> stuck
        s 7 commit a/l -> ok
        s 8 get b x -> stuck
        s 9 set b y 1 -> stuck
        s 10 get b y -> value 4
        s 11 commit a -> ok
        s 12 get b x -> value 2
        s 13 set b y 1 -> ok
        s 14 commit b -> ok
        ",
        "x=2 y=1",
    ),
    (
        "only ancestors share a lock",
        "",
        "
        s 1 begin a -> ok
        s 2 set a x 1 -> ok
        s 3 begin a/l -> ok
        s 4 begin a/r -> ok
        s 5 set a/l x 2 -> ok
        s 6 get a x -> stuck
        s 7 get a/r x -> stuck
        s 8 commit a/l -> ok
        s 9 get a/r x -> value 2
        s 10 set a x 3 -> stuck
        s 11 commit a/r -> ok
        s 12 set a x 3 -> ok
        s 13 commit a -> ok
        ",
        "x=3",
    ),
    // An add whose sum is no value has written.
    (
        "an overflow keeps readers out",
        "x=9",
        "
        s 1 begin a -> ok
        s 2 add a x 9223372036854775807 -> overflow
        s 3 begin b -> ok
        s 4 get b x -> stuck
        s 5 abort a -> ok
        s 6 get b x -> value 9
        ",
        "x=9",
    ),
    // A child's commit does not let its locks go: whoever waits for them waits for the parent.
    (
        "a wait outlasts the childs commit",
        "",
        "
        s 1 begin a -> ok
        s 2 begin a/l -> ok
        s 3 set a/l x 7 -> ok
        s 4 begin b -> ok
        s 5 get b x -> waits
        s 6 commit a/l -> ok
        s 5 get b x -> waits
        s 7 commit a -> ok
        s 5 get b x -> value 7
        s 8 commit b -> ok
        ",
        "x=7",
    ),
    (
        "whoever comes after the childs commit waits",
        "",
        "
        s 1 begin a -> ok
        s 2 begin a/l -> ok
        s 3 set a/l x 7 -> ok
        s 4 commit a/l -> ok
        s 5 begin b -> ok
        s 6 get b x -> waits
        s 7 commit a -> ok
        s 6 get b x -> value 7
        s 8 commit b -> ok
        ",
        "x=7",
    ),
    (
        "a parent waits for its live child",
        "",
        "
        s 1 begin a -> ok
        s 2 begin a/l -> ok
        s 3 get a/l x -> none
        s 4 set a x 3 -> waits
        s 5 commit a/l -> ok
        s 4 set a x 3 -> ok
        s 6 commit a -> ok
        ",
        "x=3",
    ),
    (
        "a reader that writes waits for the other alone",
        "",
        "
        s 1 begin a -> ok
        s 2 begin b -> ok
        s 3 get a x -> none
        s 4 get b x -> none
        s 5 set a x 1 -> waits
        s 6 commit b -> ok
        s 5 set a x 1 -> ok
        s 7 commit a -> ok
        ",
        "x=1",
    ),
    (
        "another line of one that waits is refused",
        "",
        "
        s 1 begin b -> ok
        s 2 set b x 1 -> ok
        s 3 begin a -> ok
        s 4 get a x -> waits
        s 5 get a y -> refused waiting
        s 6 commit a -> refused waiting
        s 4 get a x -> waits
        s 7 commit b -> ok
        s 4 get a x -> value 1
        s 8 abort a -> ok
        s 9 commit a -> orphan a
        ",
        "x=1",
    ),
    // Two wait for one, and one for both.
    (
        "several wait",
        "",
        "
        s 1 begin a -> ok
        s 2 begin b -> ok
        s 3 begin c -> ok
        s 4 set a x 1 -> ok
        s 5 get b x -> waits
        s 6 set c x 2 -> waits
        s 7 abort a -> ok
        s 5 get b x -> none
        s 6 set c x 2 -> waits
        s 8 commit b -> ok
        s 6 set c x 2 -> ok
        s 9 commit c -> ok
        ",
        "x=2",
    ),
];
