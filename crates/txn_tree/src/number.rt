//! Numbers of transactions.
ghost use Rattle.std.specs.Prelude.{◌≡◌};

use std::marker::Model;

/// The place of a transaction in the order of beginning, from 0: the later begun has the greater
/// number.
#[derive(Clone, Copy, Debug, Default, PartialEq, Eq, PartialOrd, Ord, Hash)]
pub struct TxnNo {
    place: u32,
}

impl Model for TxnNo {
    ghost use Rattle.std.specs.Prelude.{ℕ};

    ghost Value = { ℕ };

    ghost view = { λ n. n.place };

    ghost inverse = { λ place. record { place = place } };
}

impl TxnNo {
    /// The number for a place. Whether a transaction has it is for the tree to say.
    pub fn new(place: u32) -> Self
        ensures { result ≡ place }
    {
        TxnNo { place }
    }

    /// The place, from 0.
    pub fn place(self) -> u32
        ensures { result ≡ self }
    {
        self.place
    }
}
