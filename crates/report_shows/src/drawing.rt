//! The picture of a report.
ghost use Rattle.std.specs.Prelude.{IfOk};
ghost use Rattle.report_check.specs.Verdicts.{HasVerdict};
ghost use Rattle.report_check.specs.declared.verdict.Verdict.TheVariants.{Yes};
ghost use Rattle.report_shows.specs.Shown.{IsDrawing};

use report_marks::notes_of;
use report_trees::tree_of;
use serial_spec::NoMemory;
use std::alloc::Global;
use tree_pictures::picture_of;

/// The picture of these bytes, where they are a report with the verdict yes. The only error is that
/// memory runs out.
pub fn draw_report(alloc: Global, report: &[u8]) -> Result<Vec<u8>, NoMemory>
    ensures { IfOk result (λ picture. HasVerdict report.now Yes
        → IsDrawing report.now picture.items) }
{
    let notes = notes_of(alloc, report)?;
    let tree = tree_of(alloc, &notes)?;
    let picture = picture_of(alloc, &notes, &tree)?;
    Ok(picture)
}
