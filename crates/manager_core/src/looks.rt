//! Accesses that were seen kept out, by session.
ghost use Rattle.std.specs.Prelude.{◌≡◌, ◌⊎◌, ℕ, true, false, IfSome, IsTrue};
ghost use Rattle.txn_tree.specs.Numbered.{is_under};
ghost use Rattle.serial_spec.specs.declared.entry.By.{By};
ghost use Rattle.std.specs.Int.{bit_at};
ghost use Rattle.manager_core.specs.Looked.{HasSeen, IsApart, IsLast, SomeStands};

use serial_spec::{By, MOST_SESSIONS};
use session_sets::{first_from, has, with, without};
use txn_tree::{Tree, TxnNo};

/// An access that was seen kept out: by the number of its transaction, that of its line in the
/// session, and that of somebody who keeps it out. Lines count from 1, so that where there was none
/// the line is 0.
#[derive(Clone, Copy)]
pub(crate) struct Look {
    pub(crate) txn: TxnNo,
    pub(crate) line: u32,
    pub(crate) keeper: TxnNo,
}

/// For each session, of `MOST_SESSIONS` at most, the access of it that was last seen kept out.
/// Locks only rise until a transaction ends (Moss 1981), so that it is kept out still, and stands,
/// as long as it waits and neither its own transaction nor the keeper has ended since.
#[derive(Drop)]
pub(crate) struct Looks {
    pub(crate) last: [Look; MOST_SESSIONS],
    // The sessions whose last one stands.
    pub(crate) stands: u64,
}

impl Looks {
    /// Nothing was seen.
    pub(crate) fn new() -> Looks
        ensures { (by : By) (n m : ℕ) → HasSeen result by n m → ⊥ }
    {
        let none = Look {
            txn: TxnNo::new(0),
            line: 0,
            keeper: TxnNo::new(0),
        };
        Looks {
            last: [none; MOST_SESSIONS],
            stands: 0,
        }
    }

    /// The access that was last seen kept out by this line, whether or not it stands.
    #[inline(always)]
    pub(crate) fn last_at(&self, by: By) -> Option<Look>
        ensures { IfSome result (λ look. IsLast self.now by look.txn look.keeper) }
    {
        let By::Line { session, line } = by else {
            return None;
        };
        match self.last.get(session as usize) {
            Some(look) if look.line == line => Some(*look),
            _ => None,
        }
    }

    /// The access by this line that was seen kept out and stands.
    #[inline(always)]
    pub(crate) fn at(&self, by: By) -> Option<Look>
        ensures { IfSome result (λ look. HasSeen self.now by look.txn look.keeper) }
    {
        let By::Line { session, .. } = by else {
            return None;
        };
        if session as usize >= MOST_SESSIONS || !has(self.stands, session) {
            return None;
        }
        self.last_at(by)
    }

    /// The sessions whose last access that was seen kept out stands.
    #[inline(always)]
    pub(crate) fn standing(&self) -> u64
        ensures { (s : ℕ) → bit_at result s ≡ 1 → SomeStands self.now s }
    {
        // So the prover knows how many places there are.
        if self.last.as_slice().len() < MOST_SESSIONS {
            return 0;
        }
        self.stands
    }

    /// Keeps that the transaction's access by this line was seen kept out by the keeper.
    pub(crate) fn put(&mut self, by: By, txn: TxnNo, keeper: TxnNo)
        ensures { (b : By) (n m : ℕ) → HasSeen self.new b n m
            → HasSeen self.old b n m ⊎ ((b ≡ by) × (n ≡ txn) × (m ≡ keeper)) }
    {
        if let By::Line { session, line } = by {
            let place = session as usize;
            if place < MOST_SESSIONS {
                self.last[place] = Look { txn, line, keeper };
                self.stands = with(self.stands, session);
            }
        }
    }

    /// Forgets what was seen of this line, which waits no more.
    pub(crate) fn forget(&mut self, by: By)
        ensures { (b : By) (n m : ℕ) → HasSeen self.new b n m →
            HasSeen self.old b n m × (b ≡ by → ⊥) }
    {
        if let By::Line { session, .. } = by {
            if (session as usize) < MOST_SESSIONS {
                self.stands = without(self.stands, session);
            }
        }
    }

    /// Forgets who waits at or below the transaction, which ends, and whom one at or below it keeps
    /// out, since that lock may be let go. Where nobody waits nothing stands.
    pub(crate) fn forget_under(&mut self, tree: &Tree, txn: TxnNo, nobody_waits: bool)
        ensures { (by : By) (n m : ℕ) → HasSeen self.new by n m →
            HasSeen self.old by n m × IsApart tree.now txn n m }
    {
        if nobody_waits {
            self.stands = 0;
            return;
        }
        let is_leaf = has_nobody_below(tree, txn);
        let mut from = 0;
        while let Some(session) = first_from(self.stands, from) {
            if !still_stands(&self.last[session as usize], tree, txn, is_leaf) {
                self.stands = without(self.stands, session);
            }
            from = session + 1;
        }
    }
}

// Whether it is seen at once that nobody has begun below the transaction.
fn has_nobody_below(tree: &Tree, txn: TxnNo) -> bool
    ensures { IsTrue result → (u : ℕ) → is_under tree.now txn u ≡ true → u ≡ txn }
{
    tree.first_child(txn).is_none()
}

// Whether the other is neither the transaction, which may have nobody below it, nor below it.
#[inline(always)]
fn is_apart(tree: &Tree, txn: TxnNo, other: TxnNo, is_leaf: bool) -> bool
    requires { IsTrue is_leaf → (u : ℕ) → is_under tree.now txn u ≡ true → u ≡ txn }
    ensures { IsTrue result → is_under tree.now txn other ≡ false }
{
    if is_leaf {
        other != txn
    } else {
        !tree.is_under(txn, other)
    }
}

// Whether a look that stood stands still: neither the one who waits nor the one who keeps it out is at
// or below the transaction.
#[inline(always)]
fn still_stands(look: &Look, tree: &Tree, txn: TxnNo, is_leaf: bool) -> bool
    requires { IsTrue is_leaf → (u : ℕ) → is_under tree.now txn u ≡ true → u ≡ txn }
    ensures { IsTrue result → IsApart tree.now txn look.now.txn look.now.keeper }
{
    is_apart(tree, txn, look.keeper, is_leaf) && is_apart(tree, txn, look.txn, is_leaf)
}
