//! What a top-level commit hands to the store.
ghost use Rattle.std.specs.Prelude.{◌≡◌, ◌≢◌, [], IsTrue, IsFalse};
ghost use Rattle.serial_spec.specs.Changes.{AreRising};
ghost use Rattle.manager_core.specs.Asked.{IsAsked, IsLater, Refuses, Takes};

use durable_top::TopStore;
use txn_names::Change;

/// Whether the store took the changes. It is not asked where there are none.
pub(crate) fn are_taken<S: TopStore>(store: &mut S, changes: &[Change]) -> bool
    requires { AreRising changes.now }
    ensures took { IsTrue result → Takes S.TopStore store.old store.new changes.now }
    ensures refused { IsFalse result → Refuses S.TopStore store.old store.new × (changes.now ≢ []) }
    ensures asked { changes.now ≢ [] → IsAsked S.TopStore store.old store.new changes.now result }
    ensures unasked { changes.now ≡ [] → store.new ≡ store.old }
    ensures later { IsLater S.TopStore store.old store.new }
{
    if changes.is_empty() {
        return true;
    }
    match store.commit(changes) {
        Ok(()) => true,
        Err(_) => false,
    }
}
