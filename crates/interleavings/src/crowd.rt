//! Sessions whose lines wait at one key.
ghost use Rattle.std.specs.Prelude.{◌<◌, ℕ, length, IsTrue};
ghost use Rattle.interleavings.specs.Crowds.{AreJoinedBy, IsCrowdAt, IsGathered, IsStillIn};

use session_sets::{has, with, without};
use txn_names::{Key, Name};

/// Sessions whose next lines wait for accesses at one key, by transactions of one depth. None of
/// these is an ancestor of another one, so that a write of one keeps all others out.
#[derive(Clone, Copy)]
pub(crate) struct Crowd {
    // All other sessions.
    pub(crate) apart: u64,
    // Where they wait.
    pub(crate) key: Option<Key>,
    // How many labels the names of their transactions have.
    pub(crate) depth: usize,
}

impl Crowd {
    /// Of no session.
    #[inline(always)]
    pub(crate) fn none() -> Crowd
        ensures { (u : ℕ) → u < 64 → IsGathered result u → ⊥ }
    {
        Crowd {
            apart: u64::MAX,
            key: None,
            depth: 0,
        }
    }

    /// Whether the session is of the crowd.
    #[inline(always)]
    pub(crate) fn has(&self, session: u32) -> bool
        requires { session < 64 }
        ensures { IsTrue result → IsGathered self.now session }
    {
        !has(self.apart, session)
    }

    /// The session is no more of the crowd.
    #[inline(always)]
    pub(crate) fn leave(&mut self, session: u32)
        requires { session < 64 }
        ensures { (u : ℕ) → IsGathered self.new u → IsStillIn self.old self.new session u }
    {
        self.apart = with(self.apart, session);
    }

    // Whether it is of those that wait at this key by transactions as deep as this.
    fn is_at(&self, name: &Name, key: &Key) -> bool
        ensures { IsTrue result → IsCrowdAt self.now key.now (length name.now) }
    {
        match &self.key {
            Some(own) => own == key && self.depth == name.depth(),
            None => false,
        }
    }

    // Whether all of the crowd wait at this key by transactions as deep as this.
    fn takes(&self, name: &Name, key: &Key) -> bool
        ensures { IsTrue result → (u : ℕ) → u < 64 → IsGathered self.now u →
            IsCrowdAt self.now key.now (length name.now) }
    {
        if self.apart == u64::MAX {
            return true;
        }
        self.is_at(name, key)
    }

    /// The session's line waits at this key by this transaction: it is of the crowd where the others
    /// wait there too.
    pub(crate) fn join(&mut self, session: u32, name: &Name, key: &Key)
        requires { session < 64 }
        ensures { AreJoinedBy self.old self.new session key.now (length name.now) }
    {
        self.leave(session);
        if self.takes(name, key) {
            self.key = Some(*key);
            self.depth = name.depth();
            self.apart = without(self.apart, session);
        }
    }
}
