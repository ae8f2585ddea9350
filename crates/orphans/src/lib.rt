//! The marks of aborted transactions, by which orphans are found.
#![tactic(auto)]

ghost use Rattle.std.specs.Prelude.{◌≡◌, ◌+◌, ◌<◌, ◌≤◌, ◌||◌, [], IsOk, OnOk};
ghost use Rattle.txn_names.specs.Path.{Path, path_eq, top_of};

use indexmap::IndexSet;
use std::alloc::{AllocError, Global};
use std::marker::Model;
use txn_names::Name;

/// The names of aborted transactions. A transaction is an orphan where a front of its name is
/// marked: its own or an ancestor's.
#[derive(Drop)]
pub struct Marks {
    names: IndexSet<Name>,
}

impl Model for Marks {
    ghost use Rattle.indexmap.specs.IndexSet.{spare};
    ghost use Rattle.orphans.specs.Marked.{Marked};

    ghost Value = { Marked };

    ghost view = { λ m. record { names = m.names.keys; room = spare m.names } };
}

impl Marks {
    ghost use Rattle.orphans.specs.Marked.{is_marked};

    /// No marks, without memory.
    pub fn new(alloc: Global) -> Self
        ensures { result.names ≡ [] }
    {
        Marks {
            names: IndexSet::new(alloc),
        }
    }

    /// Makes room for so many more marks. Its one error is `NoMemory`, which is `AllocError`: no
    /// mark changes then either.
    pub fn reserve(&mut self, additional: usize) -> Result<(), AllocError>
        ensures names { self.new.names ≡ self.old.names }
        ensures ok { OnOk result (additional ≤ self.new.room) }
        ensures succeeds { additional ≤ self.old.room → IsOk result }
        ensures room { self.old.room ≤ self.new.room }
    {
        self.names.reserve(additional)
    }

    /// Marks a name, which may be marked already, and takes no memory.
    pub fn mark(&mut self, name: &Name)
        requires { 0 < self.old.room }
        ensures marked { (t : Path) →
            is_marked self.new t ≡ (path_eq name.now t || is_marked self.old t) }
        ensures room { self.old.room ≤ self.new.room + 1 }
    {
        self.names.insert(*name).unwrap();
    }

    // Whether the name is marked itself.
    fn is_marked(&self, name: &Name) -> bool
        ensures { result ≡ is_marked self.now name.now }
    {
        self.names.contains(name)
    }

    /// The topmost aborted one among a transaction and its ancestors: the shortest marked front of
    /// its name. It takes no memory.
    pub fn top_aborted(&self, name: &Name) -> Option<Name>
        ensures { result ≡ top_of (is_marked self.now) name.now }
    {
        // As long as nobody has aborted nothing is marked, and no front need be hashed.
        if self.names.is_empty() {
            return None;
        }
        for depth in 1..name.depth() {
            let front = name.front(depth);
            if self.is_marked(&front) {
                return Some(front);
            }
        }
        // The longest front is the name itself, and need not be made.
        if self.is_marked(name) {
            Some(*name)
        } else {
            None
        }
    }
}
