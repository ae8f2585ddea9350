//! Reports of runs of one session.

/// As `reports` reads them.
pub const CASES: &str = "\
#|none|made|The empty text.
open
table
end
#s|none|made|One transaction that reads its own write.
open
s 1 begin a -> ok
s 2 set a x 5 -> ok
s 3 get a x -> value 5
s 4 commit a -> ok
table
x=5
end
#s|none|made|What a committed transaction is answered.
open
s 1 begin a -> ok
s 2 commit a -> ok
s 3 get a x -> refused done
s 4 commit a -> refused done
table
end
#s|none|made|A transaction that is left open.
open
s 1 begin a -> ok
s 2 set a x 1 -> ok
* close a
table
end
#s|none|made|A committed child is undone with its parent.
open
x=9
s 1 begin a -> ok
s 2 set a x 1 -> ok
s 3 begin a/l -> ok
s 4 set a/l x 2 -> ok
s 5 commit a/l -> ok
s 6 get a x -> value 2
s 7 abort a -> ok
s 8 begin b -> ok
s 9 get b x -> value 9
s 10 get a/l x -> orphan a
s 11 commit b -> ok
table
x=9
end
#s|none|made|The parent's own version lies beneath the aborted child's.
open
s 1 begin a -> ok
s 2 set a x 1 -> ok
s 3 begin a/l -> ok
s 4 set a/l x 2 -> ok
s 5 abort a/l -> ok
s 6 begin a/r -> ok
s 7 get a/r x -> value 1
s 8 commit a/r -> ok
s 9 commit a -> ok
table
x=1
end
#s|none|made|The topmost aborted ancestor, not the nearest.
open
s 1 begin a -> ok
s 2 begin a/l -> ok
s 3 begin a/l/m -> ok
s 4 abort a/l -> ok
s 5 get a/l/m x -> orphan a/l
s 6 abort a -> ok
s 7 get a/l/m x -> orphan a
s 8 begin a/l/n -> orphan a
table
end
#s|none|made|What is refused.
open
s 1 begin a -> ok
s 2 begin a/l -> ok
s 3 commit a -> refused children
s 4 begin a -> refused used
s 5 begin q/r -> refused no-parent
s 6 get z x -> refused unknown
s 7 commit a/l -> ok
s 8 get a/l x -> refused done
s 9 begin a/l/m -> refused no-parent
s 10 commit a -> ok
s 11 abort a -> refused done
table
end
#s|none|made|A line that has to wait while nobody else can go on is given up; its transaction goes on.
open
s 1 begin a -> ok
s 2 set a x 1 -> ok
s 3 begin b -> ok
s 4 get b x -> waits
s 4 get b x -> stuck
s 5 commit b -> ok
s 6 commit a -> ok
table
x=1
end
#s|none|made|A parent retains its child's lock until it ends itself.
open
s 1 begin a -> ok
s 2 begin a/l -> ok
s 3 set a/l x 7 -> ok
s 4 commit a/l -> ok
s 5 begin b -> ok
s 6 get b x -> waits
s 6 get b x -> stuck
s 7 begin a/r -> ok
s 8 add a/r x 1 -> new 8
s 9 commit a/r -> ok
s 10 commit a -> ok
s 11 get b x -> value 8
s 12 commit b -> ok
table
x=8
end
#s|none|made|A live child keeps its own parent out, and a parent no child.
open
s 1 begin a -> ok
s 2 set a y 1 -> ok
s 3 begin a/l -> ok
s 4 add a/l y 1 -> new 2
s 5 get a/l x -> none
s 6 get a x -> none
s 7 set a x 3 -> waits
s 7 set a x 3 -> stuck
s 8 get a y -> waits
s 8 get a y -> stuck
s 9 commit a/l -> ok
s 10 set a x 3 -> ok
s 11 get a y -> value 2
s 12 commit a -> ok
table
x=3
y=2
end
#s|none|made|Several readers, and a writer among them.
open
s 1 begin a -> ok
s 2 begin b -> ok
s 3 get a x -> none
s 4 get b x -> none
s 5 set b x 1 -> waits
s 5 set b x 1 -> stuck
s 6 abort a -> ok
s 7 set b x 1 -> ok
s 8 commit b -> ok
table
x=1
end
#s|none|made|What is live at the end is aborted in the order of beginning; an inferior has no entry of its own.
open
s 1 begin a -> ok
s 2 begin b -> ok
s 3 begin b/c -> ok
s 4 set b/c y 1 -> ok
s 5 begin d -> ok
s 6 commit d -> ok
s 7 begin e -> ok
s 8 abort e -> ok
s 9 commit b/c -> ok
* close a
* close b
table
end
#s|none|made|An overflow is a write that leaves the value, and a removal leaves none.
open
x=9
s 1 begin a -> ok
s 2 add a x 9223372036854775807 -> overflow
s 3 del a x -> ok
s 4 get a x -> none
s 5 commit a -> ok
s 6 begin b -> ok
s 7 get b x -> none
s 8 commit b -> ok
table
end
#s|none|made|Names at their bounds, and the least number.
open
s 1 begin aaaaaaaaaaaaaaaa/aaaaaaaaaaaaaaaa/aaaaaaaaaaaaaaaa/aaaaaaaaaaaaaaaa/aaaaaaaaaaaaaaaa/aaaaaaaaaaaaaaaa/aaaaaaaaaaaaaaaa/aaaaaaaaaaaaaaaa/aaaaaaaaaaaaaaaa/aaaaaaaaaaaaaaaa/aaaaaaaaaaaaaaaa/aaaaaaaaaaaaaaaa/aaaaaaaaaaaaaaaa/aaaaaaaaaaaaaaaa/aaaaaaaaaaaaaaaa/aaaaaaaaaaaaaaaa -> refused no-parent
s 2 begin a/b/c/d/e/f/g/h/i -> refused no-parent
s 3 set a x -9223372036854775808 -> refused unknown
table
end
";
