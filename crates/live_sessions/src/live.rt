//! Sessions under way that take a request at a time.
ghost use Rattle.std.specs.Prelude.{◌≡◌, [], None, reverse, IfErr, IfOk, OnErr, OnOk};
ghost use Rattle.session_text.specs.Growing.{place_of};
ghost use Rattle.growing_sessions.specs.Growing.{labels_in};
ghost use Rattle.durable_top.specs.Store.{plain};
ghost use Rattle.manager_core.specs.Opening.{HasCause};
ghost use Rattle.interleavings.specs.Scheduled.{BreaksOff, Goes, LetsGo, RunsOut, Stands};
ghost use Rattle.interleavings.specs.Turning.{IsStart};
ghost use Rattle.live_sessions.specs.Requested.{fault_at};
ghost use Rattle.live_sessions.specs.Handling.{Attempted, BreaksAt, Breaks, Grows, Handled};

use crate::growing::{grow, refusal};
use durable_top::{Row, TopStore};
use event_lists::Entries;
use interleavings::{Progress, Turns, run_opened, settle};
use manager_core::OpenFault;
use run_reports::Report;
use serial_spec::NoMemory;
use session_text::{Line, LineKind, Sessions, parse_request};
use std::alloc::Global;
use std::marker::Model;
use txn_names::Label;

/// Sessions over a manager, to which requests add lines. The history is always legal, without a
/// cycle of waits, and an interleaving of the sessions' lines as far as they are answered; no line
/// is given up before `finish`. A value is let go by `finish` or by `give_up`.
pub struct Live<S: TopStore> {
    alloc: Global,
    sessions: Sessions,
    labels: Vec<Label>,
    progress: Progress<S>,
}

impl<S: TopStore> Model for Live<S> {
    ghost use Rattle.interleavings.specs.Turning.{Turning};
    ghost use Rattle.interleavings.specs.Progressing.{turning};
    ghost use Rattle.live_sessions.specs.Handling.{IsLive};

    ghost Value = { Turning S };

    ghost view = { λ l. turning l.sessions l.progress };

    ghost invariant = { λ l. IsLive l.sessions l.labels.items l.progress };
}

// An attempt of the session's next line, and then of all that wait, until none of them goes on.
fn attempt_all<S: TopStore>(turns: &mut Turns<S>, session: u32) -> Result<(), NoMemory>
    ensures ok { OnOk result (Attempted S.TopStore session turns.old turns.new) }
    ensures err { OnErr result (Goes S.TopStore turns.old turns.new) }
{
    turns.step(session)?;
    settle(turns)
}

impl<S: TopStore> Live<S> {
    /// No sessions, over this store. On an error the store is dropped.
    pub fn open(alloc: Global, store: S) -> Result<Live<S>, OpenFault>
        ensures ok { IfOk result (λ live. IsStart S.TopStore [] store live) }
        ensures err { IfErr result (λ fault. HasCause S.TopStore store fault) }
    {
        let sessions = Sessions::new(alloc);
        let turns = Turns::open(alloc, &sessions, store)?;
        let progress = turns.into_progress();
        Ok(Live {
            alloc,
            sessions,
            labels: Vec::new(alloc),
            progress,
        })
    }

    /// The opening rows, in byte order.
    pub fn opening(&self) -> &[Row]
        ensures rows { plain result.now ≡ self.now.core.rows }
        ensures given { result.now ≡ self.now.core.opened.given.items }
    {
        self.progress.opening()
    }

    /// The sessions' labels, in the order in which they were first used.
    pub fn labels(&self) -> &[Label]
        ensures { result.now ≡ labels_in self.now.sessions }
    {
        &self.labels
    }

    /// The entries, the oldest first.
    pub fn history(&self) -> &Entries
        ensures { reverse result.now.entries ≡ self.now.core.history }
    {
        self.progress.history()
    }

    /// The sessions are under way, and the manager is sound. The call does nothing: it tells the
    /// prover so.
    pub fn has_legal_history(&self)
        ensures { Stands S.TopStore self.now }
    {
        self.progress.has_sound_manager();
    }

    // Adds the line to its session and attempts it.
    fn take(self, label: Label, line: Line) -> Result<Live<S>, S>
        requires welcome { fault_at self.sessions self.core.history (place_of label self.sessions) ≡
            None }
        ensures ok { IfOk result (λ live. Grows S.TopStore self label line live) }
        ensures err { IfErr result (BreaksAt S.TopStore self label line) }
    {
        let Live {
            alloc,
            mut sessions,
            mut labels,
            mut progress,
        } = self;
        progress.has_sound_manager();
        let session = match grow(
            alloc,
            &mut sessions,
            &mut labels,
            &mut progress,
            label,
            line,
        ) {
            Ok(session) => session,
            Err(_) => return Err(progress.give_up()),
        };
        let mut turns = Turns::from_progress(progress, &sessions);
        let attempted = attempt_all(&mut turns, session);
        turns.has_legal_history();
        let progress = turns.into_progress();
        match attempted {
            Ok(()) => Ok(Live {
                alloc,
                sessions,
                labels,
                progress,
            }),
            Err(_) => Err(progress.give_up()),
        }
    }

    /// Takes a request, which is a line `LABEL LINE` without its line feed: the line is put behind
    /// the others of the session with that label, which is a new one where none has it, and is
    /// attempted. Then the sessions whose line waits are attempted, in order, again and again until
    /// none of them goes on. What was not taken changes nothing, and is told by a kind: what
    /// `parse_request` tells; `Turn`, where the session has a line that is not answered; `Limit`,
    /// where it has 1,024 lines or there are 64 sessions and a new one is named. The only error is
    /// that memory runs out, and the store comes back then, as it was left.
    pub fn request(self, bytes: &[u8]) -> Result<(Live<S>, Option<LineKind>), S>
        ensures ok { IfOk result (λ r. Handled S.TopStore self bytes.now r.0 r.1) }
        ensures err { IfErr result (Breaks S.TopStore self bytes.now) }
    {
        let (label, line) = match parse_request(bytes) {
            Ok(request) => request,
            Err(kind) => return Ok((self, Some(kind))),
        };
        if let Some(kind) = refusal(&self.sessions, &self.progress, &label) {
            return Ok((self, Some(kind)));
        }
        match self.take(label, line) {
            Ok(live) => Ok((live, None)),
            Err(left) => Err(left),
        }
    }

    /// Runs the sessions to their end, which take no line any more: rounds with the stuck rule
    /// until no line is left, and the close. It gives the report and the store. The only error is
    /// that memory runs out, and the store comes back then, as it was left.
    pub fn finish(self) -> Result<(Report, S), S>
        ensures ok { IfOk result (λ run. RunsOut S.TopStore [] self run.0 run.1) }
        ensures err { IfErr result (BreaksOff S.TopStore self) }
    {
        let Live {
            alloc: _alloc,
            sessions,
            labels: _labels,
            progress,
        } = self;
        run_opened(Turns::from_progress(progress, &sessions), &[])
    }

    /// Lets the sessions go without a report, and gives the store back, which is asked nothing.
    /// What was committed stands in it.
    pub fn give_up(self) -> S
        ensures { LetsGo S.TopStore self result }
    {
        let Live {
            alloc: _alloc,
            sessions: _sessions,
            labels: _labels,
            progress,
        } = self;
        progress.has_sound_manager();
        progress.give_up()
    }
}
