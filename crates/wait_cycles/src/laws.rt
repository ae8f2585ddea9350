//! The law of cycles, as the contract of a function that does nothing.
ghost use Rattle.wait_cycles.specs.Agreement.{CyclesAgree};

/// Where each number is the place of its transaction in the order of beginning, and the pairs are
/// those of which the first waits for the second, whoever lies on a cycle of pairs lies on a cycle
/// of waits, and the other way round. The greatest number on any cycle is that of the victim.
#[tactic(auto, using(crate::proofs::Agreement::cycles_agree))]
pub fn cycles_agree()
    ensures { CyclesAgree }
{}
