//! A whole run by workers.
ghost use Rattle.std.specs.Prelude.{◌≡◌, ◌<◌, ◌≤◌, IfErr, IfOk, IfSome, IsErrOf};
ghost use Rattle.interleavings.specs.Served.{HasServeCause, IsServed, IsServedFrom, IsUnservedFrom};
ghost use Rattle.worker_pool.specs.Openings.{IsAsOpened};
ghost use Rattle.worker_pool.specs.inner.Working.{IsAfterOpening};

use crate::desk::{Desk, Opening};
use crate::workers::{Gate, MOST_WORKERS, count_of, work_through};
use durable_top::TopStore;
use interleavings::ServeFault;
use run_reports::Report;
use session_text::Sessions;
use shared_book::Book;
use std::alloc::Global;
use std::marker::Brand;
use std::sync::{Mutex, Wait};
use std::thread::Threads;
use std::time::Clock;

// Serves the sessions of a book on which nothing was done yet. The store comes back beside a fault.
fn serve_book<
    J: Opening<S> + Send,
    R: Threads + Wait + Clock + Sync,
    S: TopStore + Send,
    G: Gate + Sync,
>(
    rt: &R,
    alloc: Global,
    sessions: &Sessions,
    book: Book<'_, S>,
    workers: u32,
    gate: &G,
) -> Result<(Report, S), (ServeFault, S)>
    requires opened { IsAsOpened J.first book }
    requires few { workers ≤ MOST_WORKERS }
    ensures ok { IfOk result (λ run.
        IfSome J.first (λ first. IsServedFrom S.TopStore first run.0 run.1)) }
    ensures err { IfErr result (λ u. IsAfterOpening workers u.0) }
    ensures off { IfErr result (λ u.
        IfSome J.first (λ first. IsUnservedFrom S.TopStore first u.0 u.1)) }
{
    let desk: Mutex<Desk<'_, S, J>> = Mutex::new(Desk::new(book, count_of(sessions)));
    let worked = work_through(rt, alloc, sessions, &desk, workers, gate);
    desk.into_inner().into_report(worked)
}

// Drops the store.
fn let_go<S: TopStore>(fault: ServeFault, left: S) -> ServeFault
    ensures { result ≡ fault }
{
    drop(left);
    fault
}

/// Serves the sessions by so many workers over one lock, and gives the report and the store. Lines
/// that are left by the workers, of whom there may be none, are tried by the calling thread. Where
/// it answers, the report is that of a legal history that takes all lines of the sessions in turn;
/// which one is the threads' choice.
#[tactic(auto, using(crate::proofs::Kept::as_opened, crate::proofs::Reported::thread_behind, crate::proofs::Reported::run_is_no_thread, crate::proofs::Reported::open_is_no_thread))]
pub fn serve<R: Threads + Wait + Clock + Sync, S: TopStore + Send, G: Gate + Sync>(
    rt: &R,
    alloc: Global,
    sessions: Sessions,
    store: S,
    workers: u32,
    gate: &G,
) -> Result<(Report, S), ServeFault>
    requires { workers ≤ MOST_WORKERS }
    ensures ok { IfOk result (λ run. IsServed S.TopStore sessions store run.0 run.1) }
    ensures err { IfErr result (HasServeCause S.TopStore sessions store) }
    ensures thread { IsErrOf result ServeFault.Thread → 0 < workers }
{
    match Book::open(alloc, &sessions, store) {
        Ok(book) => match serve_book::<Brand, R, S, G>(rt, alloc, &sessions, book, workers, gate) {
            Ok(run) => Ok(run),
            Err((fault, left)) => Err(let_go(fault, left)),
        },
        Err(fault) => Err(ServeFault::Open(fault)),
    }
}
