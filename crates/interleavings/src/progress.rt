//! What a run keeps beside its sessions, so that these can grow between two attempts.
ghost use Rattle.std.specs.Prelude.{◌≡◌, ◌<◌, ◌++◌, ◌∷◌, [], reverse, slice_get, OnErr, OnOk};
ghost use Rattle.durable_top.specs.Store.{plain};
ghost use Rattle.manager_core.specs.Sound.{IsSound};
ghost use Rattle.interleavings.specs.LeftOut.{IsWoken};

use crate::ready::Ready;
use durable_top::{Row, TopStore};
use event_lists::Entries;
use manager_core::Manager;
use serial_spec::NoMemory;
use std::alloc::Global;
use std::marker::Model;

/// The manager, the number of each session's next line, and which sessions are held up. `Turns` are
/// made of it and of the sessions, and give it back.
#[derive(Drop)]
pub struct Progress<S: TopStore> {
    pub(crate) alloc: Global,
    // On the heap, so that it is handed on without being copied.
    pub(crate) manager: Box<Manager<S>>,
    // One past its last where all lines of the session are answered.
    pub(crate) next: Vec<u32>,
    // The session that was answered last, or any.
    pub(crate) lead: u32,
    // Of the others no attempt does anything.
    pub(crate) ready: Ready,
}

impl<S: TopStore> Model for Progress<S> {
    ghost use Rattle.interleavings.specs.Progressing.{Going};

    ghost Value = { Going S };

    ghost view = { λ p. record {
      core = p.manager.value;
      next = p.next.items;
      ready = p.ready;
    } };
}

impl<S: TopStore> Progress<S> {
    /// The number of the session's next line, where there is such a session.
    pub fn next(&self, session: u32) -> Option<u32>
        ensures { result ≡ slice_get self.now.next session }
    {
        self.next.get(session as usize).copied()
    }

    /// The opening rows, in byte order.
    pub fn opening(&self) -> &[Row]
        ensures rows { plain result.now ≡ self.now.core.rows }
        ensures given { result.now ≡ self.now.core.opened.given.items }
    {
        self.manager.opening()
    }

    /// The entries, the oldest first.
    pub fn history(&self) -> &Entries
        ensures { reverse result.now.entries ≡ self.now.core.history }
    {
        self.manager.history()
    }

    /// The manager is sound. The call does nothing: it tells the prover so.
    pub fn has_sound_manager(&self)
        ensures { IsSound S.TopStore self.now.core }
    {
        self.manager.table();
    }

    /// Gives the store up, as a run does that ends without a report. The store is asked nothing.
    pub fn give_up(self) -> S
        ensures { result ≡ self.core.store }
    {
        let Progress { manager, .. } = self;
        Box::into_inner(manager).into_store()
    }

    /// One session more, none of whose lines is answered. If memory runs out, the only error,
    /// nothing has changed.
    pub fn add_session(&mut self) -> Result<(), NoMemory>
        ensures core { self.new.core ≡ self.old.core }
        ensures ok { OnOk result (self.new.next ≡ self.old.next ++ 1 ∷ []) }
        ensures ready { self.new.ready ≡ self.old.ready }
        ensures err { OnErr result (self.new ≡ self.old) }
    {
        self.next.push(1)?;
        Ok(())
    }

    /// The session has got a line more: it is attempted again, also where it was left out.
    pub fn wake(&mut self, session: u32)
        requires { session < 64 }
        ensures core { self.new.core ≡ self.old.core }
        ensures next { self.new.next ≡ self.old.next }
        ensures ready { IsWoken self.old.ready self.new.ready session }
    {
        self.ready.wake(session);
    }
}
