//! More waits than can each be an element of the picture.
ghost use Rattle.std.specs.Prelude.{◌≡◌, ◌++◌, ◌<◌, ◌^◌, length, OnOk};
ghost use Rattle.std.specs.List.{flat_map};
ghost use Rattle.tree_pictures.specs.Waits.{many_waits, waits_of, wait_shape, wait_shape_in};

use crate::scale::{Scale, plus};
use crate::text::{put_point, put_tenths};
use crate::waits::{place_of, put_waits, wait_over};
use report_marks::Mark;
use report_trees::{Shown, Wait};
use serial_spec::NoMemory;
use tree_lines::put_bytes;

/// More waits than these are drawn as one element, with no titles and no arrows.
const MOST_WAITS: usize = 2_000;

// Adds the outline of a wait in this row, between these entries.
fn put_wait_shape(
    out: &mut Vec<u8>,
    scale: &Scale,
    row: usize,
    from: usize,
    to: usize,
) -> Result<(), NoMemory>
    ensures { OnOk result (out.new.items ≡ out.old.items ++ wait_shape scale.now row from to) }
{
    let x = scale.x(from);
    let width = scale.x(to).saturating_sub(x).max(10);
    put_bytes(out, b"M")?;
    put_point(out, x, plus(scale.y(row), 30))?;
    put_bytes(out, b"h")?;
    put_tenths(out, width)?;
    put_bytes(out, b"v11h-")?;
    put_tenths(out, width)?;
    put_bytes(out, b"z")
}

// Adds the outline of the wait, where its transaction is shown.
fn put_wait_shape_in(
    out: &mut Vec<u8>,
    scale: &Scale,
    shown: &[Shown],
    wait: &Wait,
) -> Result<(), NoMemory>
    ensures { OnOk result
        (out.new.items ≡ out.old.items ++ wait_shape_in scale.now shown.now wait.now) }
{
    match place_of(shown, wait.number) {
        Some(row) => put_wait_shape(out, scale, row, wait.from, wait_over(shown, row, wait.to)),
        None => Ok(()),
    }
}

// Adds the outlines of these waits.
fn put_wait_shapes(
    out: &mut Vec<u8>,
    scale: &Scale,
    shown: &[Shown],
    waits: &[Wait],
) -> Result<(), NoMemory>
    ensures { OnOk result (out.new.items
        ≡ out.old.items ++ flat_map (wait_shape_in scale.now shown.now) waits.now) }
{
    let mut rest = waits;
    while let [first, behind @ ..] = rest {
        put_wait_shape_in(out, scale, shown, first)?;
        rest = behind;
    }
    Ok(())
}

// Adds the waits as one path.
fn put_many_waits(
    out: &mut Vec<u8>,
    scale: &Scale,
    shown: &[Shown],
    waits: &[Wait],
) -> Result<(), NoMemory>
    ensures { OnOk result
        (out.new.items ≡ out.old.items ++ many_waits scale.now shown.now waits.now) }
{
    put_bytes(out, b"<path class=\"wait\" d=\"M0 0")?;
    put_wait_shapes(out, scale, shown, waits)?;
    put_bytes(out, b"\"/>\n")
}

/// Adds the waits, each as an element where they are not too many. The only error is that memory
/// runs out.
pub(crate) fn put_waits_of(
    out: &mut Vec<u8>,
    scale: &Scale,
    marks: &[Mark],
    shown: &[Shown],
    waits: &[Wait],
) -> Result<(), NoMemory>
    requires { length marks.now < 2 ^ 63 }
    ensures { OnOk result
        (out.new.items ≡ out.old.items ++ waits_of scale.now marks.now shown.now waits.now) }
{
    if waits.len() <= MOST_WAITS {
        put_waits(out, scale, marks, shown, waits)
    } else {
        put_many_waits(out, scale, shown, waits)
    }
}
