//! What an entry did, by the numbers of those that have begun with it.
ghost use Rattle.std.specs.Prelude.{◌≡◌};
ghost use Rattle.report_marks.specs.Marks.{abort_deed, access_deed, begin_deed, commit_deed, deed_of, done_deed, is_ok, wait_deed, waiting_deed};

use crate::deeds::Deed;
use crate::numbering::{number_if, number_of};
use indexmap::IndexSet;
use line_language::cause_of;
use serial_spec::{Answer, Event, Reply};
use txn_names::Name;

fn begin_deed(number: Option<usize>) -> Deed
    ensures { result ≡ begin_deed number }
{
    match number {
        Some(number) => Deed::Began(number),
        None => Deed::Other,
    }
}

fn access_deed(number: Option<usize>) -> Deed
    ensures { result ≡ access_deed number }
{
    match number {
        Some(number) => Deed::Accessed(number),
        None => Deed::Other,
    }
}

fn commit_deed(number: Option<usize>) -> Deed
    ensures { result ≡ commit_deed number }
{
    match number {
        Some(number) => Deed::Committed(number),
        None => Deed::Other,
    }
}

/// The deed of an abort of the transaction with this number, if it has one.
pub(crate) fn abort_deed(number: Option<usize>) -> Deed
    ensures { result ≡ abort_deed number }
{
    match number {
        Some(number) => Deed::Aborted(number),
        None => Deed::Other,
    }
}

fn wait_deed(number: Option<usize>) -> Deed
    ensures { result ≡ wait_deed number }
{
    match number {
        Some(number) => Deed::Waits(number),
        None => Deed::Other,
    }
}

fn is_ok(reply: &Reply) -> bool
    ensures { result ≡ is_ok reply.now }
{
    matches!(reply, Reply::Ok)
}

// What a line did that was done.
fn done_deed(names: &IndexSet<Name>, event: &Event, reply: &Reply) -> Deed
    ensures { result ≡ done_deed names.now.keys event.now reply.now }
{
    match event {
        Event::Begin(name) => begin_deed(number_if(is_ok(reply), names, name)),
        Event::Access(name, _, _) => access_deed(number_of(names, name)),
        Event::Sum(name, _) => access_deed(number_of(names, name)),
        Event::Commit(name) => commit_deed(number_if(is_ok(reply), names, name)),
        Event::Abort(name) => abort_deed(number_if(is_ok(reply), names, name)),
        Event::After(_, _) => Deed::Other,
    }
}

// What a line did that waits.
fn waiting_deed(names: &IndexSet<Name>, event: &Event) -> Deed
    ensures { result ≡ waiting_deed names.now.keys event.now }
{
    match event {
        Event::Access(name, _, _) => wait_deed(number_of(names, name)),
        Event::Sum(name, _) => wait_deed(number_of(names, name)),
        Event::Begin(_) => Deed::Other,
        Event::Commit(_) => Deed::Other,
        Event::Abort(_) => Deed::Other,
        Event::After(_, _) => Deed::Other,
    }
}

/// What a line did that asked this and was answered so.
pub(crate) fn deed_of(names: &IndexSet<Name>, event: &Event, answer: &Answer) -> Deed
    ensures { result ≡ deed_of names.now.keys event.now answer.now }
{
    match answer {
        Answer::Done(reply) => done_deed(names, event, reply),
        Answer::Waits => waiting_deed(names, event),
        Answer::Stuck => Deed::Stuck,
        Answer::Refused(refusal) => Deed::Refused(cause_of(refusal)),
    }
}
