//! Numbers of sessions and of transactions, in the order in which they come.
ghost use Rattle.std.specs.Prelude.{◌≡◌, position, IfOk, OnOk};
ghost use Rattle.txn_names.specs.Path.{path_eq};
ghost use Rattle.report_check.specs.Passing.{session_of, with_label};
ghost use Rattle.report_marks.specs.Marks.{is_done_ok, number_if, with_begun, with_name};

use indexmap::IndexSet;
use serial_spec::{Answer, Event, NoMemory, Reply};
use std::alloc::AllocError;
use txn_names::{Label, Name};

/// The number of the session with this label, which a new label is given. The only error is that
/// memory runs out.
pub(crate) fn session_of(labels: &mut IndexSet<Label>, label: &Label) -> Result<usize, NoMemory>
    ensures number { IfOk result (λ n. n ≡ session_of labels.old.keys label.now) }
    ensures labels { OnOk result (labels.new.keys ≡ with_label labels.old.keys label.now) }
{
    if let Some(number) = labels.get_index_of(label) {
        return Ok(number);
    }
    let number = labels.len();
    match labels.insert(*label) {
        Ok(_) => Ok(number),
        Err(_) => Err(AllocError),
    }
}

// The name has a number afterwards: its own, or the next one.
fn add_name(names: &mut IndexSet<Name>, name: &Name) -> Result<(), NoMemory>
    ensures { OnOk result (names.new.keys ≡ with_name names.old.keys name.now) }
{
    match names.insert(*name) {
        Ok(_) => Ok(()),
        Err(_) => Err(AllocError),
    }
}

fn is_done_ok(answer: &Answer) -> bool
    ensures { result ≡ is_done_ok answer.now }
{
    matches!(answer, Answer::Done(Reply::Ok))
}

/// Gives the transaction that a line began its number. The only error is that memory runs out.
pub(crate) fn number_begun(
    names: &mut IndexSet<Name>,
    event: &Event,
    answer: &Answer,
) -> Result<(), NoMemory>
    ensures { OnOk result (names.new.keys ≡ with_begun names.old.keys event.now answer.now) }
{
    if !is_done_ok(answer) {
        return Ok(());
    }
    match event {
        Event::Begin(name) => add_name(names, name),
        Event::Access(_, _, _) => Ok(()),
        Event::Sum(_, _) => Ok(()),
        Event::Commit(_) => Ok(()),
        Event::Abort(_) => Ok(()),
        Event::After(_, _) => Ok(()),
    }
}

/// The number of the transaction, if it has one.
pub(crate) fn number_of(names: &IndexSet<Name>, name: &Name) -> Option<usize>
    ensures { result ≡ position (path_eq name.now) names.now.keys }
{
    names.get_index_of(name)
}

/// The same where something was done.
pub(crate) fn number_if(done: bool, names: &IndexSet<Name>, name: &Name) -> Option<usize>
    ensures { result ≡ number_if done names.now.keys name.now }
{
    if done { number_of(names, name) } else { None }
}
