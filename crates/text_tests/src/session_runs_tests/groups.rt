//! Reports of runs with sums over groups.

/// As `reports` reads them.
pub const CASES: &str = "\
#s|none|made|A sum sees what its transaction and those above it left, and not what an aborted child left.
open
g.a=1
g.b=2
gx=9
s 1 begin a -> ok
s 2 sum a g -> value 3
s 3 add a g.c 4 -> new 4
s 4 begin a/l -> ok
s 5 del a/l g.a -> ok
s 6 sum a/l g -> value 6
s 7 abort a/l -> ok
s 8 sum a g -> value 7
s 9 commit a -> ok
table
g.a=1
g.b=2
g.c=4
gx=9
end
#s|none|made|A sum that is no value, and one more key that makes it a value.
open
g.a=9223372036854775807
g.b=1
s 1 begin a -> ok
s 2 sum a g -> overflow
s 3 set a g.c -1 -> ok
s 4 sum a g -> value 9223372036854775807
s 5 commit a -> ok
table
g.a=9223372036854775807
g.b=1
g.c=-1
end
#s|none|made|A parent retains the lock of its child's sum until it ends itself.
open
s 1 begin a -> ok
s 2 begin a/l -> ok
s 3 sum a/l g -> value 0
s 4 commit a/l -> ok
s 5 begin b -> ok
s 6 set b g.x 1 -> waits
s 6 set b g.x 1 -> stuck
s 7 get b g.x -> none
s 8 set b gx 3 -> ok
s 9 commit b -> ok
s 10 set a g.x 2 -> ok
s 11 sum a g -> value 2
s 12 commit a -> ok
table
g.x=2
gx=3
end
#s|none|made|A sum that has to wait while nobody else can go on is given up; its transaction goes on.
open
s 1 begin a -> ok
s 2 set a g.x 1 -> ok
s 3 begin b -> ok
s 4 sum b g -> waits
s 4 sum b g -> stuck
s 5 sum b g.x -> value 0
s 6 commit a -> ok
s 7 sum b g -> value 1
s 8 commit b -> ok
s 9 sum b g -> refused done
s 10 sum c g -> refused unknown
table
g.x=1
end
#p q|none|made|A key that nobody has yet is locked by a sum over its group.
open
p 1 begin a -> ok
q 1 begin b -> ok
p 2 sum a g -> value 0
q 2 set b g.new 5 -> waits
p 3 sum a g -> value 0
p 4 commit a -> ok
q 2 set b g.new 5 -> ok
q 3 commit b -> ok
table
g.new=5
end
#p q|none|made|A sum waits for whoever wrote a key of its group.
open
p 1 begin a -> ok
q 1 after a begun -> ok
p 2 set a g.x 1 -> ok
q 2 begin b -> ok
p 3 after b begun -> ok
q 3 sum b g -> waits
p 4 commit a -> ok
q 3 sum b g -> value 1
q 4 commit b -> ok
table
g.x=1
end
#p q r|none|made|A sum that waited has the values of the moment of its answer: another wrote a key of the group meanwhile, and committed.
open
p 1 begin a -> ok
q 1 begin b -> ok
r 1 begin c -> ok
p 2 set a g.x 1 -> ok
q 2 sum b g -> waits
r 2 set c g.y 4 -> ok
p 3 add a g.x 2 -> new 3
r 3 commit c -> ok
p 4 commit a -> ok
q 2 sum b g -> value 7
q 3 commit b -> ok
table
g.x=3
g.y=4
end
#p q|none|made|A sum and a write wait for each other: the last begun is the victim.
open
p 1 begin a -> ok
q 1 begin b -> ok
p 2 set a g.x 1 -> ok
q 2 set b k 2 -> ok
p 3 set a k 3 -> waits
q 3 sum b g -> waits
* victim b
p 3 set a k 3 -> ok
q 3 sum b g -> orphan b
p 4 commit a -> ok
q 4 commit b -> orphan b
table
g.x=1
k=3
end
#p q|none|made|Two that have summed over a group wait for each other's sum where both write into it.
open
p 1 begin a -> ok
q 1 begin b -> ok
p 2 sum a g -> value 0
q 2 sum b g -> value 0
p 3 set a g.x 1 -> waits
q 3 set b g.y 2 -> waits
* victim b
p 3 set a g.x 1 -> ok
q 3 set b g.y 2 -> orphan b
p 4 sum a g -> value 1
q 4 commit b -> orphan b
p 5 commit a -> ok
table
g.x=1
end
";
