//! Lines that wait for a condition, and lines that are given up.
use crate::manager_core_tests::scripts::Case;

pub const CASES: [Case; 2] = [
    // What has begun is told at once, what has come to its end once it has, by its commit or by an
    // abort above it.
    (
        "conditions come",
        "",
        "
        held s 1 after a begun -> ok
        s 2 begin a -> ok
        s 1 after a begun -> ok
        s 3 begin a/l -> ok
        held s 4 after a/l done -> ok
        s 5 begin a/r -> ok
        held s 6 after a/r done -> ok
        s 7 set a/l x 1 -> ok
        s 8 commit a/l -> ok
        s 4 after a/l done -> ok
        s 9 abort a -> ok
        s 6 after a/r done -> ok
        s 10 after a/l done -> ok
        ",
        "",
    ),
    // A line whose condition does not hold is given up like an access that is kept out.
    (
        "lines are given up",
        "",
        "
        s 1 begin a -> ok
        s 2 begin b -> ok
        s 3 set a x 1 -> ok
        s 4 get b x -> stuck
        held s 5 after c begun -> stuck
        s 5 after c begun -> stuck
        s 6 after a done -> stuck
        s 7 commit b -> ok
        close a
        ",
        "",
    ),
];
