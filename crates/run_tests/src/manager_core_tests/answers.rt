//! What ends with what, and which refusal a line gets.
use crate::manager_core_tests::scripts::Case;

pub const CASES: [Case; 7] = [
    (
        "an abort takes all below",
        "x=9",
        "
        s 1 begin a -> ok
        s 2 set a x 1 -> ok
        s 3 begin a/l -> ok
        s 4 set a/l x 2 -> ok
        s 5 commit a/l -> ok
        s 6 get a x -> value 2
        s 7 abort a -> ok
        s 8 begin b -> ok
        s 9 get b x -> value 9
        s 10 get a/l x -> orphan a
        s 11 commit b -> ok
        ",
        "x=9",
    ),
    (
        "an aborted child leaves nothing",
        "",
        "
        s 1 begin a -> ok
        s 2 set a x 1 -> ok
        s 3 begin a/l -> ok
        s 4 set a/l x 2 -> ok
        s 5 abort a/l -> ok
        s 6 begin a/r -> ok
        s 7 get a/r x -> value 1
        s 8 commit a/r -> ok
        s 9 commit a -> ok
        ",
        "x=1",
    ),
    (
        "an orphan is told the topmost",
        "",
        "
        s 1 begin a -> ok
        s 2 begin a/l -> ok
        s 3 begin a/l/m -> ok
        s 4 abort a/l -> ok
        s 5 get a/l/m x -> orphan a/l
        s 6 abort a/l/m -> orphan a/l
        s 7 abort a -> ok
        s 8 get a/l/m x -> orphan a
        s 9 commit a/l -> orphan a
        s 10 begin a/l/n -> orphan a
        close
        ",
        "",
    ),
    (
        "the first cause refuses",
        "",
        "
        s 1 begin a -> ok
        s 2 begin a/l -> ok
        s 3 commit a -> refused children
        s 4 begin a -> refused used
        s 5 begin q/r -> refused no-parent
        s 6 get z x -> refused unknown
        s 7 commit a/l -> ok
        s 8 get a/l x -> refused done
        s 9 begin a/l/m -> refused no-parent
        s 10 commit a -> ok
        s 11 abort a -> refused done
        s 12 abort z -> refused unknown
        ",
        "",
    ),
    (
        "a close ends the live",
        "x=9",
        "
        s 1 begin c -> ok
        s 2 begin a -> ok
        s 3 begin b -> ok
        s 4 begin d -> ok
        s 5 begin a/l -> ok
        s 6 begin e -> ok
        s 7 set a/l x 1 -> ok
        s 8 commit a/l -> ok
        s 9 begin a/r -> ok
        s 10 abort b -> ok
        s 11 commit d -> ok
        close c a e
        close
        ",
        "x=9",
    ),
    (
        "eight levels",
        "",
        "
        s 1 begin a -> ok
        s 2 begin a/b -> ok
        s 3 begin a/b/c -> ok
        s 4 begin a/b/c/d -> ok
        s 5 begin a/b/c/d/e -> ok
        s 6 begin a/b/c/d/e/f -> ok
        s 7 begin a/b/c/d/e/f/g -> ok
        s 8 begin a/b/c/d/e/f/g/h -> ok
        s 9 set a/b/c/d/e/f/g/h x 1 -> ok
        s 10 commit a/b/c/d/e/f/g/h -> ok
        s 11 get a/b/c/d/e/f x -> stuck
        s 12 commit a/b/c/d/e/f/g -> ok
        s 13 add a/b/c/d/e/f x 2 -> new 3
        s 14 abort a/b/c/d -> ok
        s 15 get a x -> none
        close a
        ",
        "",
    ),
    // Calls of each kind, so that a trial run refuses the growths of each.
    (
        "growths of each call",
        "x=9",
        "
        s 1 begin a -> ok
        s 2 begin a/l -> ok
        s 3 get a/l x -> value 9
        s 4 set a/l y 2 -> ok
        s 5 begin b -> ok
        s 6 get b y -> stuck
        s 7 commit a/l -> ok
        s 8 commit a -> ok
        s 9 begin b/l -> ok
        s 10 set b/l x 3 -> ok
        s 11 abort b/l -> ok
        s 12 get b x -> value 9
        close b
        ",
        "x=9 y=2",
    ),
];
