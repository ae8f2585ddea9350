//! The bars of transactions.
ghost use Rattle.std.specs.Prelude.{◌≡◌, ◌++◌, ◌<◌, ◌^◌, drop, length, take, OnOk};
ghost use Rattle.tree_pictures.specs.Bars.{all_bars, bar, entries_title, joint_bar, joint_class, joint_label, joint_title, own_bar, own_counts, own_label, own_title, row_bar};

use crate::elements::{put_rect, put_text_at};
use crate::naming::{put_label_text, put_name_text};
use crate::scale::{INDENT, ROW, Scale, plus, product};
use crate::spans::{class_of, earliest, latest, starts_at, stops_at, undone_in};
use indexmap::IndexSet;
use report_trees::Shown;
use serial_spec::NoMemory;
use std::alloc::Global;
use tree_lines::{outcome_words, put_bytes, put_counted, put_number};
use txn_names::Name;

// Adds the label of a row up to where it is closed. It is indented by the level.
fn put_own_label(
    alloc: Global,
    out: &mut Vec<u8>,
    names: &IndexSet<Name>,
    scale: &Scale,
    row: usize,
    shown: &Shown,
) -> Result<(), NoMemory>
    ensures { OnOk result
        (out.new.items ≡ out.old.items ++ own_label names.now.keys row shown.now) }
{
    let x = plus(product(shown.level as u64, INDENT), 100);
    put_text_at(out, b"label", x, plus(scale.y(row), 125))?;
    put_label_text(alloc, out, names, shown.number)
}

// Adds the bar from this entry to that one, up to what a pointer shows of it.
fn put_bar(
    out: &mut Vec<u8>,
    scale: &Scale,
    class: &[u8],
    row: usize,
    from: usize,
    to: usize,
) -> Result<(), NoMemory>
    ensures { OnOk result
        (out.new.items ≡ out.old.items ++ bar scale.now class.now row from to) }
{
    let x = scale.x(from);
    let width = scale.x(to).saturating_sub(x).max(15);
    put_rect(out, class, x, plus(scale.y(row), 20), width, ROW - 50)?;
    put_bytes(out, b"<title>")
}

/// Adds the lines of the report of these entries. The only error is that memory runs out.
pub(crate) fn put_entries(
    out: &mut Vec<u8>,
    scale: &Scale,
    from: usize,
    to: usize,
) -> Result<(), NoMemory>
    ensures { OnOk result (out.new.items ≡ out.old.items ++ entries_title scale.now from to) }
{
    put_counted(out, b"; lines ", scale.line(from))?;
    put_counted(out, b" to ", scale.line(to))
}

// Adds what a pointer shows of a transaction: its name, what became of it, its lines and its
// counts.
fn put_own_title(
    alloc: Global,
    out: &mut Vec<u8>,
    names: &IndexSet<Name>,
    scale: &Scale,
    shown: &Shown,
) -> Result<(), NoMemory>
    ensures { OnOk result
        (out.new.items ≡ out.old.items ++ own_title names.now.keys scale.now shown.now) }
{
    put_name_text(alloc, out, names, shown.number)?;
    put_bytes(out, b": ")?;
    put_bytes(out, outcome_words(shown.outcome))?;
    put_entries(out, scale, starts_at(shown), stops_at(scale.entries, shown))?;
    put_counts(out, shown)
}

// Adds the counts of a transaction, and the end of its bar.
fn put_counts(out: &mut Vec<u8>, shown: &Shown) -> Result<(), NoMemory>
    ensures { OnOk result (out.new.items ≡ out.old.items ++ own_counts shown.now) }
{
    put_counted(out, b"; accesses ", shown.accesses)?;
    put_counted(out, b"; waits ", shown.waits)?;
    put_counted(out, b" over ", shown.waited)?;
    put_bytes(out, b" entries</title></rect>\n")
}

// Adds the row of one transaction.
fn put_own_bar(
    alloc: Global,
    out: &mut Vec<u8>,
    names: &IndexSet<Name>,
    scale: &Scale,
    row: usize,
    shown: &Shown,
) -> Result<(), NoMemory>
    ensures { OnOk result
        (out.new.items ≡ out.old.items ++ own_bar names.now.keys scale.now row shown.now) }
{
    let from = starts_at(shown);
    let to = stops_at(scale.entries, shown);
    put_own_label(alloc, out, names, scale, row, shown)?;
    put_bytes(out, b"</text>\n")?;
    put_bar(out, scale, class_of(shown.outcome), row, from, to)?;
    put_own_title(alloc, out, names, scale, shown)
}

// Adds the label of a row of several transactions: that of the first, and how many more there are.
fn put_joint_label(
    alloc: Global,
    out: &mut Vec<u8>,
    names: &IndexSet<Name>,
    scale: &Scale,
    row: usize,
    first: &Shown,
    more: usize,
) -> Result<(), NoMemory>
    ensures { OnOk result
        (out.new.items ≡ out.old.items ++ joint_label names.now.keys row first.now more) }
{
    put_own_label(alloc, out, names, scale, row, first)?;
    put_counted(out, b" and ", more as u64)?;
    put_bytes(out, b" more</text>\n")
}

// Adds what a pointer shows of so many transactions: how many they are, how many of them are undone,
// and their lines.
fn put_joint_title(
    out: &mut Vec<u8>,
    scale: &Scale,
    count: usize,
    undone: usize,
    from: usize,
    to: usize,
) -> Result<(), NoMemory>
    ensures { OnOk result
        (out.new.items ≡ out.old.items ++ joint_title scale.now count undone from to) }
{
    put_number(out, count as u64)?;
    put_counted(
        out,
        b" transactions, drawn together; undone ",
        undone as u64,
    )?;
    put_entries(out, scale, from, to)?;
    put_bytes(out, b"</title></rect>\n")
}

// The class of a row of which so many are undone.
fn joint_class(undone: usize) -> &'static [u8]
    ensures { result.now ≡ joint_class undone }
{
    if undone == 0 {
        b"together".as_slice()
    } else {
        b"mixed".as_slice()
    }
}

// Adds the row of several transactions, of which this one is the first.
fn put_joint_bar(
    alloc: Global,
    out: &mut Vec<u8>,
    names: &IndexSet<Name>,
    scale: &Scale,
    row: usize,
    first: &Shown,
    shown: &[Shown],
) -> Result<(), NoMemory>
    requires { length shown.now < 2 ^ 63 }
    ensures { OnOk result (out.new.items
        ≡ out.old.items ++ joint_bar names.now.keys scale.now row first.now shown.now) }
{
    let undone = undone_in(shown);
    let from = earliest(starts_at(first), shown);
    let to = latest(scale.entries, stops_at(scale.entries, first), shown);
    let more = shown.len().saturating_sub(1);
    put_joint_label(alloc, out, names, scale, row, first, more)?;
    put_bar(out, scale, joint_class(undone), row, from, to)?;
    put_joint_title(out, scale, shown.len(), undone, from, to)
}

// Adds the row of these transactions.
fn put_row(
    alloc: Global,
    out: &mut Vec<u8>,
    names: &IndexSet<Name>,
    scale: &Scale,
    row: usize,
    shown: &[Shown],
) -> Result<(), NoMemory>
    requires { length shown.now < 2 ^ 63 }
    ensures { OnOk result
        (out.new.items ≡ out.old.items ++ row_bar names.now.keys scale.now row shown.now) }
{
    match shown {
        [] => Ok(()),
        [first, behind @ ..] => {
            if behind.is_empty() {
                put_own_bar(alloc, out, names, scale, row, first)
            } else {
                put_joint_bar(alloc, out, names, scale, row, first, shown)
            }
        }
    }
}

// So many of them, and those behind.
fn parted(shown: &[Shown], count: usize) -> (&[Shown], &[Shown])
    ensures front { result.0.now ≡ take count shown.now }
    ensures back { result.1.now ≡ drop count shown.now }
{
    shown.split_at(count.min(shown.len()))
}

/// Adds the bars of all transactions, row by row. The only error is that memory runs out.
pub(crate) fn put_bars(
    alloc: Global,
    out: &mut Vec<u8>,
    names: &IndexSet<Name>,
    scale: &Scale,
    shown: &[Shown],
) -> Result<(), NoMemory>
    requires { length shown.now < 2 ^ 63 }
    ensures { OnOk result
        (out.new.items ≡ out.old.items ++ all_bars names.now.keys scale.now shown.now) }
{
    let mut rest = shown;
    for row in 0..scale.rows {
        let (group, behind) = parted(rest, scale.together);
        put_row(alloc, out, names, scale, row, group)?;
        rest = behind;
    }
    Ok(())
}
