//! Lists of numbers of transactions in memory of their own.
ghost use Rattle.std.specs.Prelude.{◌≡◌, ◌≤◌, ◌<◌, [], length, OnErr, OnOk};
ghost use Rattle.std.specs.List.{insert, remove};

use serial_spec::NoMemory;
use std::alloc::Global;
use std::marker::Model;
use txn_tree::TxnNo;

/// Numbers of transactions, the first of which is taken out without moving the others: those that
/// were first and are taken out stay before the front, until they are more than the others.
#[derive(Drop)]
pub(crate) struct ManyNumbers {
    items: Vec<TxnNo>,
    front: usize,
}

impl Model for ManyNumbers {
    ghost use Rattle.std.specs.Prelude.{◌≤◌, List, drop, length, ℕ};

    ghost Value = { List ℕ };

    ghost view = { λ n. drop n.front n.items.items };

    ghost invariant = { λ n. n.front ≤ length n.items.items };
}

impl ManyNumbers {
    /// No numbers. It takes no memory yet.
    pub(crate) fn new(alloc: Global) -> Self
        ensures { result ≡ [] }
    {
        ManyNumbers {
            items: Vec::new(alloc),
            front: 0,
        }
    }

    /// The numbers in their order.
    pub(crate) fn as_slice(&self) -> &[TxnNo]
        ensures { result.now ≡ self.now }
    {
        &self.items[self.front..]
    }

    /// How many there are.
    pub(crate) fn len(&self) -> usize
        ensures { result ≡ length self.now }
    {
        self.items.len() - self.front
    }

    /// Puts the number in at this place. The only error is that memory runs out, and then nothing
    /// changes.
    pub(crate) fn insert(&mut self, place: usize, txn: TxnNo) -> Result<(), NoMemory>
        requires { place ≤ length self.old }
        ensures ok { OnOk result (self.new ≡ insert self.old place txn) }
        ensures err { OnErr result (self.new ≡ self.old) }
    {
        self.items.reserve(1)?;
        self.items.insert(self.front + place, txn).unwrap();
        Ok(())
    }

    /// Fills the list, in which there is nothing, with these numbers, and puts the number in at
    /// this place. The only error is that memory runs out, and then nothing changes.
    pub(crate) fn fill(&mut self, few: &[TxnNo], place: usize, txn: TxnNo) -> Result<(), NoMemory>
        requires { place ≤ length few.now }
        ensures ok { OnOk result (self.new ≡ insert few.now place txn) }
        ensures err { OnErr result (self.new ≡ self.old) }
    {
        let mut items = Vec::with_capacity(*self.items.allocator(), 8)?;
        items.extend_from_slice(few)?;
        items.insert(place, txn)?;
        self.items = items;
        self.front = 0;
        Ok(())
    }

    /// Takes out the number at this place. It takes no memory.
    pub(crate) fn remove(&mut self, place: usize)
        requires { place < length self.old }
        ensures { self.new ≡ remove self.old place }
    {
        if place > 0 {
            self.items.remove(self.front + place);
            return;
        }
        self.front += 1;
        if self.front > self.len() {
            self.let_go();
        }
    }

    // Lets go of those before the front.
    fn let_go(&mut self)
        ensures { self.new ≡ self.old }
    {
        let len = self.len();
        self.items.copy_within(self.front.., 0);
        self.items.truncate(len);
        self.front = 0;
    }
}
