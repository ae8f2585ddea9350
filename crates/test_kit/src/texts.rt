//! Worked texts, with their reports.

/// One transaction that reads its own write: `examples/first.tx`.
pub const FIRST: &[u8] = b"session s\nbegin a\nset a x 5\nget a x\ncommit a\n";

/// Its report: `examples/first.report`.
pub const FIRST_REPORT: &[u8] =
    b"open\ns 1 begin a -> ok\ns 2 set a x 5 -> ok\ns 3 get a x -> value 5\ns 4 commit a -> ok\ntable\nx=5\nend\n";

/// The same lines as requests.
pub const FIRST_REQUESTS: &[u8] = b"s begin a\ns set a x 5\ns get a x\ns commit a\n";

/// The report of the empty text.
pub const EMPTY_REPORT: &[u8] = b"open\ntable\nend\n";

/// What a committed transaction is answered.
pub const DONE: &[u8] = b"session s\nbegin a\ncommit a\nget a x\ncommit a\n";

/// Its report.
pub const DONE_REPORT: &[u8] =
    b"open\ns 1 begin a -> ok\ns 2 commit a -> ok\ns 3 get a x -> refused done\ns 4 commit a -> refused done\ntable\nend\n";

/// Siblings side by side, the first begun of which commits last: the sum of one is on what the other
/// committed. The table is x=1 and y=3, in every order.
pub const SIBLINGS: &[u8] =
    b"session p\nbegin a\nbegin a/l\nset a/l x 1\nafter a/r done\nadd a/l y 1\ncommit a/l\ncommit a\n\
session q\nafter a begun\nbegin a/r\nset a/r y 2\ncommit a/r\n";

/// A parent that retains its child's lock, which keeps another top-level transaction out. The table
/// is x=7, in every order.
pub const RETAINED: &[u8] =
    b"session p\nbegin a\nbegin a/l\nset a/l x 7\ncommit a/l\nafter b begun\ncommit a\n\
session q\nafter a/l done\nbegin b\nget b x\ncommit b\n";

/// Eight sessions that each add 1 to one key. The table is x=8, in every order.
pub const EIGHT: &[u8] =
    b"session s0\nbegin t0\nadd t0 x 1\ncommit t0\nsession s1\nbegin t1\nadd t1 x 1\ncommit t1\n\
session s2\nbegin t2\nadd t2 x 1\ncommit t2\nsession s3\nbegin t3\nadd t3 x 1\ncommit t3\n\
session s4\nbegin t4\nadd t4 x 1\ncommit t4\nsession s5\nbegin t5\nadd t5 x 1\ncommit t5\n\
session s6\nbegin t6\nadd t6 x 1\ncommit t6\nsession s7\nbegin t7\nadd t7 x 1\ncommit t7\n";

/// Two that wait for each other, the last begun of which is the victim: `examples/cycle.report`. The
/// sessions are p and q.
pub const CYCLE_REPORT: &str = "\
open
p 1 begin a -> ok
q 1 begin b -> ok
p 2 set a x 1 -> ok
q 2 set b y 3 -> ok
p 3 set a y 2 -> waits
q 3 set b x 4 -> waits
* victim b
p 3 set a y 2 -> ok
q 3 set b x 4 -> orphan b
p 4 commit a -> ok
q 4 commit b -> orphan b
table
x=1
y=2
end
";

/// A read that is granted closes a cycle: `examples/granted.report`. The sessions s0 to s3 go by the
/// schedule 0,0,1,1,2,2,0,2,3,3.
pub const GRANTED_REPORT: &str = "\
open
s0 1 begin t -> ok
s0 2 set t y 1 -> ok
s1 1 begin r -> ok
s1 2 get r k -> none
s2 1 begin u -> ok
s2 2 begin u/c -> ok
s0 3 set t k 2 -> waits
s2 3 get u/c y -> waits
s3 1 after u begun -> ok
s3 2 get u k -> none
* victim u/c
s1 3 commit r -> ok
s2 3 get u/c y -> orphan u/c
s3 3 after u/c done -> ok
s2 4 commit u/c -> orphan u/c
s3 4 commit u -> ok
s0 3 set t k 2 -> ok
s0 4 commit t -> ok
table
k=2
y=1
end
";

/// Another session's lines on a transaction that waits: `examples/waiting.report`. The sessions p, q
/// and r go by the schedule 0,0,1,1,2,2.
pub const WAITING_REPORT: &str = "\
open
p 1 begin b -> ok
p 2 set b x 1 -> ok
q 1 begin a -> ok
q 2 get a x -> waits
r 1 get a y -> refused waiting
r 2 commit a -> refused waiting
p 3 commit b -> ok
q 2 get a x -> value 1
r 3 abort a -> ok
q 3 commit a -> orphan a
table
x=1
end
";

/// A line that has to wait while nobody else can go on is given up, and its transaction goes on:
/// `examples/given_up.report`. The session is s.
pub const GIVEN_UP_REPORT: &str = "\
open
s 1 begin a -> ok
s 2 set a x 1 -> ok
s 3 begin b -> ok
s 4 get b x -> waits
s 4 get b x -> stuck
s 5 commit b -> ok
s 6 commit a -> ok
table
x=1
end
";

/// Two sessions that work on one job, a part of which is undone and done again:
/// `examples/deadlock.report`.
pub const JOB_REPORT: &str = "\
open
left 1 begin job -> ok
right 1 after job begun -> ok
left 2 begin job/debit -> ok
right 2 begin job/credit -> ok
left 3 set job/debit debit 5 -> ok
right 3 set job/credit credit 5 -> ok
left 4 get job/debit credit -> waits
right 4 get job/credit debit -> waits
* victim job/credit
left 4 get job/debit credit -> none
right 4 get job/credit debit -> orphan job/credit
left 5 commit job/debit -> ok
right 5 commit job/credit -> orphan job/credit
left 6 after job/credit done -> ok
right 6 after job/debit done -> ok
left 7 begin job/debit2 -> ok
right 7 begin job/credit2 -> ok
left 8 set job/debit2 debit 5 -> ok
right 8 set job/credit2 credit 5 -> ok
left 9 commit job/debit2 -> ok
right 9 commit job/credit2 -> ok
left 10 after job/credit2 done -> ok
left 11 commit job -> ok
table
credit=5
debit=5
end
";

/// A committed part that is undone with its parent: `examples/undone.report`.
pub const UNDONE_REPORT: &str = "\
open
s 1 begin a -> ok
s 2 set a x 1 -> ok
s 3 begin a/l -> ok
s 4 set a/l x 2 -> ok
s 5 commit a/l -> ok
s 6 get a x -> value 2
s 7 abort a -> ok
s 8 get a/l x -> orphan a
s 9 begin b -> ok
s 10 get b x -> none
s 11 commit b -> ok
table
end
";

/// A transaction that is left open: `examples/left_open.report`.
pub const LEFT_OPEN_REPORT: &str = "\
open
s 1 begin job -> ok
s 2 set job x 1 -> ok
s 3 get job y -> none
* close job
table
end
";
