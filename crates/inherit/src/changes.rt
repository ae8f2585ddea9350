//! What a transaction would put into the table.
ghost use Rattle.std.specs.Prelude.{◌≡◌, ℕ, List, IfOk, IsFalse, IsOk};
ghost use Rattle.std.specs.List.{list_any};
ghost use Rattle.txn_names.specs.Path.{label_eq};
ghost use Rattle.serial_spec.specs.Rows.{AreRisingKeys};
ghost use Rattle.inherit.specs.Changes.{AreChangesOf, writes};

use crate::estate::Estate;
use serial_spec::{Mode, NoMemory};
use std::collections::BTreeSet;
use txn_names::{Change, Key};
use txn_tree::{Tree, TxnNo};

impl Estate {
    // Whether the transaction locks the key to write. The key mostly is the one at this index among
    // those where it has a place.
    fn writes(&self, txn: TxnNo, index: usize, key: &Key) -> bool
        ensures { result ≡ writes self.now txn key.now }
    {
        let (held, retained) = self.locks.modes_listed(txn, index, key);
        held.greater(retained) == Mode::Write
    }

    // The keys that the transaction locks to write, in byte order.
    fn written_keys(&self, txn: TxnNo) -> Result<BTreeSet<Key>, NoMemory>
        ensures rising { IfOk result (λ keys. AreRisingKeys keys.keys) }
        ensures each { IfOk result (λ keys. (k : List ℕ) →
            list_any (label_eq k) keys.keys ≡ writes self.now txn k) }
        ensures succeeds { ((k : List ℕ) → IsFalse (writes self.now txn k)) → IsOk result }
    {
        let mut written = BTreeSet::new(self.alloc);
        let reserved = self.locks.keys(txn);
        for index in 0..reserved.len() {
            let key = &reserved[index];
            if self.writes(txn, index, key) {
                written.insert(*key)?;
            }
        }
        Ok(written)
    }

    /// The keys that the transaction locks to write, in byte order, each with the value that it
    /// sees there. Where it locks none to write it takes no memory. The only error is that memory
    /// runs out.
    pub fn changes(&self, tree: &Tree, txn: TxnNo) -> Result<Vec<Change>, NoMemory>
        ensures ok { IfOk result (λ changes.
            AreChangesOf tree.now self.now txn changes.items) }
        ensures succeeds { ((k : List ℕ) → IsFalse (writes self.now txn k)) → IsOk result }
    {
        let written = self.written_keys(txn)?;
        let mut changes = Vec::new(self.alloc);
        for key in &written {
            let value = self.versions.value_for(tree, txn, key);
            changes.push(Change { key: *key, value })?;
        }
        Ok(changes)
    }
}
