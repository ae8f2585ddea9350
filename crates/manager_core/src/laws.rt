//! The laws of the numbered table that a history leaves, each as the contract of a function that
//! does nothing.
ghost use Rattle.manager_core.specs.StoredNumbers.{NumberedOnce, NumberedValues};

/// Without its numbers it is the stored table.
pub fn numbered_values()
    ensures { NumberedValues }
{}

/// There is one at most.
#[tactic(auto, using(crate::proofs::StoredNumbers::numbered_once))]
pub fn numbered_once()
    ensures { NumberedOnce }
{}
