//! The accesses, which stand on the bars.
ghost use Rattle.std.specs.Prelude.{◌≡◌, ◌++◌, ◌+◌, ◌<◌, ◌^◌, length, OnOk};
ghost use Rattle.tree_pictures.specs.Marks.{tick_at, tick_in, tick_path, ticks};

use crate::scale::{Scale, plus};
use crate::text::put_point;
use crate::waits::place_of;
use report_marks::{Deed, Mark};
use report_trees::Shown;
use serial_spec::NoMemory;
use tree_lines::put_bytes;

// Adds a tick at the lower edge of the bar in this row.
fn put_tick(out: &mut Vec<u8>, scale: &Scale, entry: usize, row: usize) -> Result<(), NoMemory>
    ensures { OnOk result (out.new.items ≡ out.old.items ++ tick_at scale.now entry row) }
{
    put_bytes(out, b"M")?;
    put_point(out, scale.x(entry), plus(scale.y(row), 110))?;
    put_bytes(out, b"v4")
}

// Adds a tick where the entry is an access of a transaction that is shown.
fn put_tick_in(
    out: &mut Vec<u8>,
    scale: &Scale,
    shown: &[Shown],
    entry: usize,
    deed: Deed,
) -> Result<(), NoMemory>
    ensures { OnOk result
        (out.new.items ≡ out.old.items ++ tick_in scale.now shown.now entry deed) }
{
    match deed {
        Deed::Accessed(number) => match place_of(shown, number) {
            Some(row) => put_tick(out, scale, entry, row),
            None => Ok(()),
        },
        Deed::Began(_) => Ok(()),
        Deed::Committed(_) => Ok(()),
        Deed::Aborted(_) => Ok(()),
        Deed::Waits(_) => Ok(()),
        Deed::Stuck => Ok(()),
        Deed::Refused(_) => Ok(()),
        Deed::Other => Ok(()),
    }
}

// Adds the ticks of these entries, the first of which has this number.
fn put_ticks(
    out: &mut Vec<u8>,
    scale: &Scale,
    shown: &[Shown],
    entry: usize,
    marks: &[Mark],
) -> Result<(), NoMemory>
    requires { entry + length marks.now < 2 ^ 64 }
    ensures { OnOk result
        (out.new.items ≡ out.old.items ++ ticks scale.now shown.now entry marks.now) }
{
    let mut at = entry;
    let mut rest = marks;
    while let [first, behind @ ..] = rest {
        put_tick_in(out, scale, shown, at, first.deed)?;
        at += 1;
        rest = behind;
    }
    Ok(())
}

/// Adds the accesses, all as one path. The only error is that memory runs out.
pub(crate) fn put_accesses(
    out: &mut Vec<u8>,
    scale: &Scale,
    shown: &[Shown],
    marks: &[Mark],
) -> Result<(), NoMemory>
    requires { length marks.now < 2 ^ 63 }
    ensures { OnOk result
        (out.new.items ≡ out.old.items ++ tick_path scale.now shown.now marks.now) }
{
    put_bytes(out, b"<path class=\"tick\" d=\"M0 0")?;
    put_ticks(out, scale, shown, 0, marks)?;
    put_bytes(out, b"\"/>\n")
}
