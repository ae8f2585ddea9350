//! Texts of 64 sessions and about 4,096 lines, of the shapes that `bench_texts` times, by workers:
//! each report is judged.
use crate::session_runs_tests::calls::judged_by;
use crate::session_runs_tests::scripts::Script;
use std::alloc::Global;
use std::process::Abort;
use std::rt::HostRuntime;

/// Top-level transactions, one after another, over keys of the session's own.
const FLAT: &str = "\
all 1 begin t#x0
all 14 ? t#x0 k#.%=
all 1 commit t#x0
all 1 begin t#x1
all 14 ? t#x1 k#.%=
all 1 commit t#x1
all 1 begin t#x2
all 14 ? t#x2 k#.%=
all 1 commit t#x2
all 1 begin t#x3
all 14 ? t#x3 k#.%=
all 1 commit t#x3
";

/// Transactions eight deep, of which every fourth is aborted.
const DEEP: &str = "\
all 1 begin t#
all 3 ? t# k#.%=
all 1 begin t#/d
all 3 ? t#/d k#.%=
all 1 begin t#/d/d
all 3 ? t#/d/d k#.%=
all 1 begin t#/d/d/d
all 3 ? t#/d/d/d k#.%=
all 1 begin t#/d/d/d/d
all 3 ? t#/d/d/d/d k#.%=
all 1 begin t#/d/d/d/d/d
all 3 ? t#/d/d/d/d/d k#.%=
all 1 begin t#/d/d/d/d/d/d
all 3 ? t#/d/d/d/d/d/d k#.%=
all 1 begin t#/d/d/d/d/d/d/d
all 3 ? t#/d/d/d/d/d/d/d k#.%=
all 3 ? t#/d/d/d/d/d/d/d k#.%=
all 1 ! t#/d/d/d/d/d/d/d
all 3 ? t#/d/d/d/d/d/d k#.%=
all 1 ! t#/d/d/d/d/d/d
all 3 ? t#/d/d/d/d/d k#.%=
all 1 ! t#/d/d/d/d/d
all 3 ? t#/d/d/d/d k#.%=
all 1 ! t#/d/d/d/d
all 3 ? t#/d/d/d k#.%=
all 1 ! t#/d/d/d
all 3 ? t#/d/d k#.%=
all 1 ! t#/d/d
all 3 ? t#/d k#.%=
all 1 ! t#/d
all 3 ? t# k#.%=
all 1 ! t#
";

/// As flat, over eight keys that all sessions share.
const HOT: &str = "\
all 1 begin t#x0
all 14 ? t#x0 hot^=
all 1 commit t#x0
all 1 begin t#x1
all 14 ? t#x1 hot^=
all 1 commit t#x1
all 1 begin t#x2
all 14 ? t#x2 hot^=
all 1 commit t#x2
all 1 begin t#x3
all 14 ? t#x3 hot^=
all 1 commit t#x3
";

/// Transactions that all begin before the first reads.
const READERS: &str = "\
all 3 begin r#x~
all 58 get r#x~ shared$
all 3 commit r#x~
";

/// One that writes first, and 63 that read what it wrote.
const BEHIND: &str = "\
all 1 begin b#
first 1 set b# x 1
rest 1 after b0 begun
rest 1 get b# x
all 60 add b# own# 1
all 1 commit b#
";

/// Children of one parent, by all sessions.
const CHILDREN: &str = "\
first 1 begin t@
rest 1 after t@ begun
all 1 begin t@/c#x0
all 14 ? t@/c#x0 k#.%=
all 1 ! t@/c#x0
all 1 begin t@/c#x1
all 14 ? t@/c#x1 k#.%=
all 1 ! t@/c#x1
all 1 begin t@/c#x2
all 14 ? t@/c#x2 k#.%=
all 1 ! t@/c#x2
first 1 commit t@
";

/// Children of eight parents, by eight sessions each.
const TREES: &str = "\
first 1 begin t@
rest 1 after t@ begun
all 1 begin t@/c#x0
all 14 ? t@/c#x0 k@.%=
all 1 ! t@/c#x0
all 1 begin t@/c#x1
all 14 ? t@/c#x1 k@.%=
all 1 ! t@/c#x1
all 1 begin t@/c#x2
all 14 ? t@/c#x2 k@.%=
all 1 ! t@/c#x2
first 1 commit t@
";

// The text of 64 sessions by this script. The owner of a tree is the first of eight sessions, and
// else the first of all.
fn text_by(rt: &impl Abort, alloc: Global, script: &str, has_trees: bool) -> Vec<u8> {
    let mut text = Script::new(alloc);
    for session in 0..64 {
        text.session = session;
        text.owner = if has_trees { session & !7 } else { 0 };
        text.line(rt, "session s#");
        for row in script.lines() {
            text.row(rt, row);
        }
    }
    text.text
}

// All transactions of the flat workload commit, so that the judge tells its report from one with
// another reply.
#[test]
fn workloads_by_workers(rt: HostRuntime) {
    for (name, script, has_trees, all_commit) in [
        ("flat", FLAT, false, true),
        ("deep", DEEP, false, false),
        ("hot", HOT, false, false),
        ("readers", READERS, false, false),
        ("behind", BEHIND, false, false),
        ("children", CHILDREN, false, false),
        ("trees", TREES, true, false),
    ] {
        let text = text_by(&rt, rt.alloc(), script, has_trees);
        for workers in [1, 2, 4, 16] {
            let (is_serial, is_serial_spoiled) = judged_by(
                &rt,
                rt.alloc(),
                text.as_slice(),
                workers,
                all_commit,
            );
            assert!(rt; is_serial, "{name} by {workers}");
            assert!(rt; !is_serial_spoiled, "{name} by {workers}, spoiled");
        }
    }
}
