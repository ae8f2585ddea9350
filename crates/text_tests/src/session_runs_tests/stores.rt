//! Reports over stores that refuse and fail, and over databases that have rows or are used again.

/// As `reports` reads them.
pub const CASES: &str = "\
#s|none|refused|The store refuses its first commit. One without changes is not put to it.
open
s 1 begin b -> ok
s 2 get b y -> none
s 3 commit b -> ok
s 4 begin a -> ok
s 5 set a x 1 -> ok
s 6 commit a -> refused store
s 7 get a x -> value 1
s 8 commit a -> ok
table
x=1
end
#s|none|failed|The store fails at its first commit, and stays so.
open
s 1 begin a -> ok
s 2 set a x 1 -> ok
s 3 commit a -> refused store
s 4 begin b -> ok
s 5 get b y -> none
s 6 commit b -> ok
s 7 commit a -> refused store
* close a
table
end
#s|none|made|A row is removed.
open
x=1
s 1 begin a -> ok
s 2 del a x -> ok
s 3 get a x -> none
s 4 del a x -> ok
s 5 add a x -3 -> new -3
s 6 del a x -> ok
s 7 commit a -> ok
table
end
";

/// The empty text.
pub const EMPTY_REPORT: &str = "\
open
table
end
";

/// One transaction that reads its own write.
pub const FIRST_REPORT: &str = "\
open
s 1 begin a -> ok
s 2 set a x 5 -> ok
s 3 get a x -> value 5
s 4 commit a -> ok
table
x=5
end
";

/// A committed child is undone with its parent: over the row x=9.
pub const UNDONE_WITH_PARENT: &str = "\
open
x=9
s 1 begin a -> ok
s 2 set a x 1 -> ok
s 3 begin a/l -> ok
s 4 set a/l x 2 -> ok
s 5 commit a/l -> ok
s 6 get a x -> value 2
s 7 abort a -> ok
s 8 begin b -> ok
s 9 get b x -> value 9
s 10 get a/l x -> orphan a
s 11 commit b -> ok
table
x=9
end
";

/// A row is removed: over the row x=1.
pub const REMOVED_AGAIN: &str = "\
open
x=1
s 1 begin a -> ok
s 2 del a x -> ok
s 3 get a x -> none
s 4 del a x -> ok
s 5 add a x -3 -> new -3
s 6 del a x -> ok
s 7 commit a -> ok
table
end
";

/// One commit adds 23 rows: by a statement of 16, one of 4, and three of one. The next changes a
/// row, takes one away and adds 5.
pub const ADDED_AT_ONCE: &str = "\
open
s 1 begin a -> ok
s 2 set a k00 0 -> ok
s 3 set a k01 1 -> ok
s 4 set a k02 2 -> ok
s 5 set a k03 3 -> ok
s 6 set a k04 4 -> ok
s 7 set a k05 5 -> ok
s 8 set a k06 6 -> ok
s 9 set a k07 7 -> ok
s 10 set a k08 8 -> ok
s 11 set a k09 9 -> ok
s 12 set a k10 10 -> ok
s 13 set a k11 11 -> ok
s 14 set a k12 12 -> ok
s 15 set a k13 13 -> ok
s 16 set a k14 14 -> ok
s 17 set a k15 15 -> ok
s 18 set a k16 16 -> ok
s 19 set a k17 17 -> ok
s 20 set a k18 18 -> ok
s 21 set a k19 19 -> ok
s 22 set a k20 20 -> ok
s 23 set a k21 21 -> ok
s 24 set a k22 22 -> ok
s 25 commit a -> ok
s 26 begin b -> ok
s 27 set b k05 7 -> ok
s 28 del b k06 -> ok
s 29 set b k23 23 -> ok
s 30 set b k24 24 -> ok
s 31 set b k25 25 -> ok
s 32 set b k26 26 -> ok
s 33 set b k27 27 -> ok
s 34 commit b -> ok
table
k00=0
k01=1
k02=2
k03=3
k04=4
k05=7
k07=7
k08=8
k09=9
k10=10
k11=11
k12=12
k13=13
k14=14
k15=15
k16=16
k17=17
k18=18
k19=19
k20=20
k21=21
k22=22
k23=23
k24=24
k25=25
k26=26
k27=27
end
";

/// The store refuses every commit.
pub const NEVER_STORED: &str = "\
open
s 1 begin a -> ok
s 2 set a x 1 -> ok
s 3 commit a -> refused store
s 4 commit a -> refused store
s 5 abort a -> ok
s 6 begin b -> ok
s 7 del b x -> ok
s 8 commit b -> refused store
* close b
table
end
";

/// A database gets the row x=1.
pub const ONE_STORED: &str = "\
open
s 1 begin a -> ok
s 2 set a x 1 -> ok
s 3 commit a -> ok
table
x=1
end
";

/// A database gets the row x=9.
pub const NINE_STORED: &str = "\
open
s 1 begin a -> ok
s 2 set a x 9 -> ok
s 3 commit a -> ok
table
x=9
end
";

/// What a second text finds that the first left.
pub const SECOND_REPORT: &str = "\
open
x=5
s 1 begin b -> ok
s 2 add b x 2 -> new 7
s 3 set b y 1 -> ok
s 4 commit b -> ok
table
x=7
y=1
end
";
