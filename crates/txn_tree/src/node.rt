//! What is kept of a transaction beside its name and its state.
ghost use Rattle.std.specs.Prelude.{◌≡◌, ◌+◌, ◌<◌, ◌^◌};
ghost use Rattle.txn_tree.specs.Linked.{no_children, with_child, with_one_ended};

use crate::number::TxnNo;

/// The children of a transaction, or of the root.
#[derive(Clone, Copy)]
pub(crate) struct Children {
    /// How many are live.
    pub(crate) live: u32,
    /// The one that began first.
    pub(crate) first: Option<TxnNo>,
    /// The one that began last.
    pub(crate) last: Option<TxnNo>,
}

impl Children {
    pub(crate) fn none() -> Self
        ensures { result ≡ no_children }
    {
        Children {
            live: 0,
            first: None,
            last: None,
        }
    }

    // The child has just begun. It gives who was the last one before.
    pub(crate) fn add(&mut self, child: TxnNo) -> Option<TxnNo>
        requires fits { self.old.live + 1 < 2 ^ 32 }
        ensures last { result ≡ self.old.last }
        ensures children { self.new ≡ with_child child self.old }
    {
        let last = self.last;
        self.live += 1;
        self.first = self.first.or(Some(child));
        self.last = Some(child);
        last
    }

    // A live child has ended.
    pub(crate) fn end_one(&mut self)
        requires some { 0 < self.old.live }
        ensures { self.new ≡ with_one_ended self.old }
    {
        self.live -= 1;
    }
}

/// Where a transaction stands in the tree.
#[derive(Clone, Copy)]
pub(crate) struct Node {
    /// The parent's number. A top-level transaction has none.
    pub(crate) parent: Option<TxnNo>,
    /// The sibling that began next.
    pub(crate) next: Option<TxnNo>,
    pub(crate) children: Children,
}
