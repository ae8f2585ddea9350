//! Sessions line by line, over stores that take the changes and over some that do not.
mod answers;
mod groups;
mod locks;
mod parked;
mod scripts;
mod stores;
mod victims;
mod watched;

use scripts::play;

#[test]
fn scripts_are_played(rt: HostRuntime) {
    for cases in [
        answers::CASES.as_slice(),
        groups::CASES.as_slice(),
        locks::CASES.as_slice(),
        parked::CASES.as_slice(),
        victims::CASES.as_slice(),
        [stores::TAKEN].as_slice(),
    ] {
        for case in cases {
            play(&rt, rt.alloc(), 0, case);
        }
    }
    play(&rt, rt.alloc(), 1, &stores::REFUSED);
}
