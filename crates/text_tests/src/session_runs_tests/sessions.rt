//! Reports of runs of several sessions.

/// As `reports` reads them.
pub const CASES: &str = "\
#p q|none|made|Siblings side by side, the sums of one on what the other committed.
open
p 1 begin a -> ok
q 1 after a begun -> ok
p 2 begin a/l -> ok
q 2 begin a/r -> ok
p 3 set a/l x 1 -> ok
q 3 set a/r y 2 -> ok
q 4 commit a/r -> ok
p 4 after a/r done -> ok
p 5 add a/l y 1 -> new 3
p 6 commit a/l -> ok
p 7 commit a -> ok
table
x=1
y=3
end
#p q|none|made|A lock that is retained keeps another top-level transaction out.
open
p 1 begin a -> ok
p 2 begin a/l -> ok
p 3 set a/l x 7 -> ok
p 4 commit a/l -> ok
q 1 after a/l done -> ok
q 2 begin b -> ok
p 5 after b begun -> ok
q 3 get b x -> waits
p 6 commit a -> ok
q 3 get b x -> value 7
q 4 commit b -> ok
table
x=7
end
#p q|none|made|A parent waits for its own child.
open
p 1 begin a -> ok
q 1 after a begun -> ok
q 2 begin a/l -> ok
p 2 after a/l begun -> ok
q 3 get a/l x -> none
p 3 set a x 3 -> waits
q 4 commit a/l -> ok
p 3 set a x 3 -> ok
p 4 commit a -> ok
table
x=3
end
#p q|none|made|Two that wait for each other: the last begun is the victim.
open
p 1 begin a -> ok
q 1 begin b -> ok
p 2 set a x 1 -> ok
q 2 set b y 3 -> ok
p 3 set a y 2 -> waits
q 3 set b x 4 -> waits
* victim b
p 3 set a y 2 -> ok
q 3 set b x 4 -> orphan b
p 4 commit a -> ok
q 4 commit b -> orphan b
table
x=1
y=2
end
#p q|none|made|A reader that wants to write waits for the other readers.
open
p 1 begin a -> ok
q 1 begin b -> ok
p 2 get a x -> none
q 2 get b x -> none
p 3 set a x 1 -> waits
q 3 commit b -> ok
p 3 set a x 1 -> ok
p 4 commit a -> ok
table
x=1
end
#p q|none|made|Each waits for what only the other can do: the line of the lowest session is given up.
open
p 1 begin a -> ok
q 1 begin b -> ok
p 2 set a x 1 -> ok
q 2 get b x -> waits
p 3 after b done -> stuck
p 4 commit a -> ok
q 2 get b x -> value 1
q 3 commit b -> ok
table
x=1
end
#p q|none|made|A session that ends leaves its transaction open, and its locks keep another out until that one is given up.
open
p 1 begin a -> ok
q 1 begin b -> ok
p 2 set a x 1 -> ok
q 2 get b x -> waits
q 2 get b x -> stuck
q 3 add b y 4 -> new 4
q 4 commit b -> ok
* close a
table
y=4
end
#q p|none|made|Conditions across sessions, the second label first in the text.
open
q 1 begin b -> ok
p 1 begin a -> ok
p 2 begin a/l -> ok
p 3 get a/l x -> none
p 4 commit a/l -> ok
q 2 after a/l done -> ok
p 5 after b begun -> ok
q 3 set b x 1 -> waits
p 6 get a x -> none
p 7 commit a -> ok
q 3 set b x 1 -> ok
q 4 commit b -> ok
table
x=1
end
#s0 s1 s2 s3|0,0,1,1,2,2,0,2,3,3|made|A read that is granted closes a cycle.
open
s0 1 begin t -> ok
s0 2 set t y 1 -> ok
s1 1 begin r -> ok
s1 2 get r k -> none
s2 1 begin u -> ok
s2 2 begin u/c -> ok
s0 3 set t k 2 -> waits
s2 3 get u/c y -> waits
s3 1 after u begun -> ok
s3 2 get u k -> none
* victim u/c
s1 3 commit r -> ok
s2 3 get u/c y -> orphan u/c
s3 3 after u/c done -> ok
s2 4 commit u/c -> orphan u/c
s3 4 commit u -> ok
s0 3 set t k 2 -> ok
s0 4 commit t -> ok
table
k=2
y=1
end
#p q r|0,0,1,1,2,2|made|Another session's lines on a transaction that waits.
open
p 1 begin b -> ok
p 2 set b x 1 -> ok
q 1 begin a -> ok
q 2 get a x -> waits
r 1 get a y -> refused waiting
r 2 commit a -> refused waiting
p 3 commit b -> ok
q 2 get a x -> value 1
r 3 abort a -> ok
q 3 commit a -> orphan a
table
x=1
end
#p q|0,1,0,1,0,1|made|Two that wait for each other: the last begun is the victim.
open
p 1 begin a -> ok
q 1 begin b -> ok
p 2 set a x 1 -> ok
q 2 set b y 3 -> ok
p 3 set a y 2 -> waits
q 3 set b x 4 -> waits
* victim b
p 3 set a y 2 -> ok
q 3 set b x 4 -> orphan b
p 4 commit a -> ok
q 4 commit b -> orphan b
table
x=1
y=2
end
#p q|0|made|Two sessions by a list: the first begins first.
open
p 1 begin a -> ok
q 1 begin b -> ok
* close a
* close b
table
end
#p q|1,1,0,1,0|made|The same by a list that has the second begin first, and more items than there are lines.
open
q 1 begin b -> ok
p 1 begin a -> ok
* close b
* close a
table
end
#p q|none|made|An overflow is a write, and keeps readers out.
open
x=9223372036854775807
p 1 begin a -> ok
q 1 begin b -> ok
p 2 add a x 1 -> overflow
q 2 get b x -> waits
p 3 get a x -> value 9223372036854775807
p 4 commit a -> ok
q 2 get b x -> value 9223372036854775807
q 3 commit b -> ok
table
x=9223372036854775807
end
#p q|none|refused|Over a store that refuses its first commit.
open
p 1 begin a -> ok
q 1 begin b -> ok
p 2 set a x 1 -> ok
q 2 get b x -> waits
p 3 commit a -> refused store
p 4 get a x -> value 1
p 5 commit a -> ok
q 2 get b x -> value 1
q 3 commit b -> ok
table
x=1
end
";
