//! The report of a finished run.
ghost use Rattle.std.specs.Prelude.{◌≡◌, ◌≤◌, ℕ, length, List, [], ◌∷◌, map, IfOk, IsFalse, IsOk};
ghost use Rattle.std.specs.List.{AllByRecursion};
ghost use Rattle.serial_spec.specs.History.{is_live};
ghost use Rattle.serial_spec.specs.Interleaving.{IsFinished, IsInterleaving};
ghost use Rattle.durable_top.specs.Store.{plain};
ghost use Rattle.manager_core.specs.Opening.{most_rows};
ghost use Rattle.manager_core.specs.Sound.{IsSound};
ghost use Rattle.run_reports.specs.Reports.{IsRow};

use durable_top::{Row, TopStore};
use manager_core::Manager;
use run_reports::Report;
use serial_spec::NoMemory;
use session_text::Sessions;
use std::alloc::Global;
use txn_names::Label;

/// The labels of the sessions. Where there are none it takes no memory.
pub(crate) fn labels_of(alloc: Global, sessions: &Sessions) -> Result<Vec<Label>, NoMemory>
    ensures ok { IfOk result (λ labels. labels.items ≡ map (λ s. s.label) sessions.now) }
    ensures none { sessions.now ≡ [] → IsOk result }
{
    let mut labels = Vec::new(alloc);
    // What is known of a text comes with its length: here that it has few sessions.
    let _count = sessions.len();
    let mut session = 0;
    while let Some(label) = sessions.label(session) {
        labels.push(*label)?;
        session += 1;
    }
    Ok(labels)
}

// The keys are such, and so are the values. The call does nothing: it tells the prover so.
fn know_rows(rows: &[Row])
    ensures { AllByRecursion IsRow (plain rows.now) }
{
    for row in rows {
        let _key = row.key.as_bytes();
        let _value = row.value;
    }
}

/// The report of a manager that answered all lines of these sessions and whose top-level
/// transactions have ended, and its store.
pub(crate) fn report_of<S: TopStore>(
    manager: Manager<S>,
    sessions: &Sessions,
    labels: Vec<Label>,
) -> (Report, S)
    requires sound { IsSound S.TopStore manager }
    requires few { length manager.rows ≤ most_rows }
    requires labels { labels.items ≡ map (λ s. s.label) sessions.now }
    requires in_turn { IsInterleaving manager.rows sessions.now manager.history }
    requires finished { IsFinished sessions.now manager.history }
    requires ended { (l : List ℕ) → IsFalse (is_live manager.history (l ∷ [])) }
    ensures report { result.0 ≡
        record {
          opening = manager.rows;
          labels = labels.items;
          history = manager.history;
          table = manager.table;
        } }
    ensures store { result.1 ≡ manager.store }
{
    // As in `labels_of`: what is known of the sessions.
    let _count = sessions.len();
    let parts = manager.into_parts();
    // What is known of a table comes with its length: that its keys rise.
    let _rows = parts.table.len();
    know_rows(&parts.opening);
    let report = Report::of(parts.opening, labels, parts.history, parts.table);
    (report, parts.store)
}
