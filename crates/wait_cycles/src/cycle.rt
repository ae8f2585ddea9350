//! A cycle and who of it is undone.
ghost use Rattle.std.specs.Prelude.{◌≡◌, ◌≢◌, []};
ghost use Rattle.wait_cycles.specs.Cycles.{IsGreatest};

use std::marker::Model;
use txn_tree::TxnNo;

/// The members of a cycle, each waiting for the next and the last for the first.
#[derive(Drop)]
pub struct Cycle {
    pub(crate) members: Vec<TxnNo>,
}

impl Model for Cycle {
    ghost use Rattle.std.specs.Prelude.{◌≢◌, ℕ, List, []};

    ghost Value = { List ℕ };

    ghost view = { λ c. c.members.items };

    ghost invariant = { λ c. c.members.items ≢ [] };
}

impl Cycle {
    /// The members, each waiting for the next and the last for the first.
    pub fn members(&self) -> &[TxnNo]
        ensures members { result.now ≡ self.now }
        ensures some { self.now ≢ [] }
    {
        self.members.as_slice()
    }
}

/// Who of the cycle is to be undone: the last begun, which has the greatest number.
pub fn victim(cycle: &Cycle) -> TxnNo
    ensures { IsGreatest result cycle.now }
{
    let members = cycle.members();
    let mut last = members[0];
    for member in members {
        if *member > last {
            last = *member;
        }
    }
    last
}
