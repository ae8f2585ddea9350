//! Which transaction a session is likely to name next.

use serial_spec::{By, MOST_SESSIONS};
use std::alloc::Global;
use txn_tree::TxnNo;

/// Room is made for the followers of at least so many transactions at once.
const LEAST_ROOM: usize = 64;

/// For each session, of `MOST_SESSIONS` at most, the number of the transaction that began or accessed
/// for it last, and for each transaction the one that did so next when it was the last one before: it
/// itself, or another where a session goes through many in turn. It tells where to look first, so that
/// any numbers would do. Where there was no memory for a transaction's it is told to follow itself.
#[derive(Drop)]
pub(crate) struct Hints {
    last: [TxnNo; MOST_SESSIONS],
    followers: Vec<TxnNo>,
}

impl Hints {
    /// Nothing is known. It takes no memory yet.
    pub(crate) fn new(alloc: Global) -> Hints {
        Hints {
            last: [TxnNo::new(0); MOST_SESSIONS],
            followers: Vec::new(alloc),
        }
    }

    // The one that followed this one last.
    #[inline(always)]
    fn follower(&self, txn: TxnNo) -> TxnNo {
        match self.followers.get(txn.place() as usize) {
            Some(follower) => *follower,
            None => txn,
        }
    }

    // Keeps that the second one followed the first.
    #[inline(always)]
    fn follow(&mut self, txn: TxnNo, follower: TxnNo) {
        if let Some(there) = self.followers.get_mut(txn.place() as usize) {
            *there = follower;
        }
    }

    // Makes room for the follower of the transaction at this place, if there is memory for it.
    #[inline(never)]
    fn grow(&mut self, place: usize) {
        let count = place.saturating_mul(2).max(LEAST_ROOM);
        let _ = self.followers.resize(count, TxnNo::new(0));
    }

    /// The number that the line's transaction is likely to have.
    #[inline(always)]
    pub(crate) fn of(&self, by: By) -> TxnNo {
        let By::Line { session, .. } = by else {
            return TxnNo::new(0);
        };
        match self.last.get(session as usize) {
            Some(txn) => self.follower(*txn),
            None => TxnNo::new(0),
        }
    }

    /// Keeps that the transaction with this number accessed by the line.
    #[inline(always)]
    pub(crate) fn note(&mut self, by: By, txn: TxnNo) {
        if let By::Line { session, .. } = by {
            let place = session as usize;
            if place < MOST_SESSIONS {
                let last = self.last[place];
                self.follow(last, txn);
                self.last[place] = txn;
            }
        }
    }

    /// Keeps that it began by the line. It is likely to follow itself.
    pub(crate) fn note_begun(&mut self, by: By, txn: TxnNo) {
        self.note(by, txn);
        let place = txn.place() as usize;
        if place >= self.followers.len() {
            self.grow(place);
        }
        self.follow(txn, txn);
    }
}
