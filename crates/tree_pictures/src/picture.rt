//! The whole picture.
ghost use Rattle.std.specs.Prelude.{◌≡◌, ◌++◌, ◌+◌, ◌<◌, ◌^◌, length, IfOk, OnOk};
ghost use Rattle.tree_pictures.specs.Picture.{all_parts, below_bars, marks_of, over_bars, parts_of, picture};

use crate::accesses::put_accesses;
use crate::bars::put_bars;
use crate::crowds::put_waits_of;
use crate::frame::{put_head, put_legend, put_notes, put_times};
use crate::scale::{Scale, plus};
use crate::victims::put_crosses;
use indexmap::IndexSet;
use report_marks::{Mark, Notes};
use report_trees::{Shown, Tree, Wait};
use serial_spec::NoMemory;
use std::alloc::Global;
use tree_lines::{put_bytes, put_summary};
use txn_names::Name;

// Adds what stands on the bars: waits, accesses and the ends of victims.
fn put_marks(
    out: &mut Vec<u8>,
    scale: &Scale,
    marks: &[Mark],
    shown: &[Shown],
    waits: &[Wait],
) -> Result<(), NoMemory>
    requires marks { length marks.now < 2 ^ 63 }
    requires shown { length shown.now < 2 ^ 63 }
    requires waits { length waits.now < 2 ^ 63 }
    ensures { OnOk result
        (out.new.items ≡ out.old.items ++ over_bars scale.now marks.now shown.now waits.now) }
{
    put_waits_of(out, scale, marks, shown, waits)?;
    put_accesses(out, scale, shown, marks)?;
    put_crosses(out, scale, waits, 0, shown)
}

// Adds the same where each transaction has a row of its own.
fn put_marks_if(
    out: &mut Vec<u8>,
    scale: &Scale,
    marks: &[Mark],
    shown: &[Shown],
    waits: &[Wait],
) -> Result<(), NoMemory>
    requires marks { length marks.now < 2 ^ 63 }
    requires shown { length shown.now < 2 ^ 63 }
    requires waits { length waits.now < 2 ^ 63 }
    ensures { OnOk result
        (out.new.items ≡ out.old.items ++ marks_of scale.now marks.now shown.now waits.now) }
{
    if scale.together == 1 {
        put_marks(out, scale, marks, shown, waits)
    } else {
        Ok(())
    }
}

// Adds the legend, the summary and the end of the picture.
fn put_below(
    alloc: Global,
    out: &mut Vec<u8>,
    scale: &Scale,
    shown: &[Shown],
    marks: &[Mark],
) -> Result<(), NoMemory>
    requires shown { length shown.now < 2 ^ 63 }
    requires marks { length marks.now < 2 ^ 63 }
    ensures { OnOk result
        (out.new.items ≡ out.old.items ++ below_bars scale.now shown.now marks.now) }
{
    let mut summary = Vec::new(alloc);
    put_summary(&mut summary, shown, marks)?;
    put_legend(out, scale)?;
    put_notes(out, plus(scale.bottom(), 750), &summary)?;
    put_bytes(out, b"</svg>\n")
}

// Adds all parts of a picture with this scale.
fn put_parts(
    alloc: Global,
    out: &mut Vec<u8>,
    names: &IndexSet<Name>,
    scale: &Scale,
    marks: &[Mark],
    shown: &[Shown],
    waits: &[Wait],
) -> Result<(), NoMemory>
    requires marks { length marks.now < 2 ^ 63 }
    requires shown { length shown.now < 2 ^ 63 }
    requires waits { length waits.now < 2 ^ 63 }
    ensures { OnOk result (out.new.items ≡ out.old.items
        ++ all_parts scale.now names.now.keys marks.now shown.now waits.now) }
{
    put_head(out, scale, shown.len())?;
    put_times(out, scale)?;
    put_bars(alloc, out, names, scale, shown)?;
    put_marks_if(out, scale, marks, shown, waits)?;
    put_below(alloc, out, scale, shown, marks)
}

// Adds the picture of a report with so many opening rows.
fn put_picture(
    alloc: Global,
    out: &mut Vec<u8>,
    names: &IndexSet<Name>,
    rows: usize,
    marks: &[Mark],
    shown: &[Shown],
    waits: &[Wait],
) -> Result<(), NoMemory>
    requires marks { length marks.now < 2 ^ 63 }
    requires shown { length shown.now < 2 ^ 63 }
    requires waits { length waits.now < 2 ^ 63 }
    ensures { OnOk result (out.new.items ≡ out.old.items
        ++ parts_of names.now.keys rows marks.now shown.now waits.now) }
{
    let scale = Scale::new(shown.len(), marks.len(), rows.saturating_add(2));
    put_parts(alloc, out, names, &scale, marks, shown, waits)
}

/// The picture of a report with these notes and this tree, as bytes of SVG. The only error is that
/// memory runs out.
pub fn picture_of(alloc: Global, notes: &Notes, tree: &Tree) -> Result<Vec<u8>, NoMemory>
    ensures { IfOk result (λ out. out.items ≡ picture notes.now tree.now) }
{
    let mut out = Vec::new(alloc);
    put_picture(
        alloc,
        &mut out,
        &notes.names,
        notes.rows,
        &notes.marks,
        &tree.shown,
        &tree.telling.waits,
    )?;
    Ok(out)
}
