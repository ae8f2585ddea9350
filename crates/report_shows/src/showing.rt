//! The lines of a report.
ghost use Rattle.std.specs.Prelude.{IfOk};
ghost use Rattle.report_check.specs.Verdicts.{HasVerdict};
ghost use Rattle.report_check.specs.declared.verdict.Verdict.TheVariants.{Yes};
ghost use Rattle.report_shows.specs.Shown.{IsShow};

use crate::doing::is_all_done;
use report_marks::notes_of;
use report_trees::tree_of;
use serial_spec::NoMemory;
use std::alloc::Global;
use tree_lines::{Choice, show_of};

/// What is shown of a report.
#[derive(Drop)]
pub struct Show {
    /// One line for each transaction that is chosen, and the summary.
    pub lines: Vec<u8>,
    /// Whether each transaction committed for good, and no line was refused or given up.
    pub all_done: bool,
}

/// What is shown of these bytes, where they are a report with the verdict yes. The only error is
/// that memory runs out.
pub fn show_report(alloc: Global, report: &[u8], choice: Choice) -> Result<Show, NoMemory>
    ensures { IfOk result (λ s. HasVerdict report.now Yes
        → IsShow choice report.now s.lines.items s.all_done) }
{
    let notes = notes_of(alloc, report)?;
    let tree = tree_of(alloc, &notes)?;
    let lines = show_of(alloc, &notes, &tree, choice)?;
    let all_done = is_all_done(&tree.shown, &notes.marks);
    Ok(Show { lines, all_done })
}
