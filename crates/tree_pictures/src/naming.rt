//! The labels and the names of transactions.
ghost use Rattle.std.specs.Prelude.{◌≡◌, ◌++◌, OnOk};
ghost use Rattle.std.specs.List.{flat_map};
ghost use Rattle.txn_names.specs.Text.{spelled_name};
ghost use Rattle.tree_lines.specs.Lines.{label_at};
ghost use Rattle.tree_pictures.specs.Bars.{name_at};
ghost use Rattle.tree_pictures.specs.Elements.{escaped};

use crate::text::put_text;
use indexmap::IndexSet;
use serial_spec::NoMemory;
use std::alloc::{AllocError, Global};
use tree_lines::put_label;
use txn_names::Name;

// Adds the label of the transaction with this number.
fn put_label_at(
    alloc: Global,
    out: &mut Vec<u8>,
    names: &IndexSet<Name>,
    number: usize,
) -> Result<(), NoMemory>
    ensures { OnOk result (out.new.items ≡ out.old.items ++ label_at names.now.keys number) }
{
    match names.get_index(number) {
        Some(name) => put_label(alloc, out, name),
        None => Ok(()),
    }
}

/// Adds the label of the transaction with this number as text. The only error is that memory runs
/// out.
pub(crate) fn put_label_text(
    alloc: Global,
    out: &mut Vec<u8>,
    names: &IndexSet<Name>,
    number: usize,
) -> Result<(), NoMemory>
    ensures { OnOk result
        (out.new.items ≡ out.old.items ++ flat_map escaped (label_at names.now.keys number)) }
{
    let mut label = Vec::new(alloc);
    put_label_at(alloc, &mut label, names, number)?;
    put_text(out, &label)
}

fn put_name(out: &mut Vec<u8>, name: &Name) -> Result<(), NoMemory>
    ensures { OnOk result (out.new.items ≡ out.old.items ++ spelled_name name.now) }
{
    match name.write_to(out) {
        Ok(()) => Ok(()),
        Err(_) => Err(AllocError),
    }
}

// Adds the name of the transaction with this number.
fn put_name_at(out: &mut Vec<u8>, names: &IndexSet<Name>, number: usize) -> Result<(), NoMemory>
    ensures { OnOk result (out.new.items ≡ out.old.items ++ name_at names.now.keys number) }
{
    match names.get_index(number) {
        Some(name) => put_name(out, name),
        None => Ok(()),
    }
}

/// Adds the name of the transaction with this number as text. The only error is that memory runs
/// out.
pub(crate) fn put_name_text(
    alloc: Global,
    out: &mut Vec<u8>,
    names: &IndexSet<Name>,
    number: usize,
) -> Result<(), NoMemory>
    ensures { OnOk result
        (out.new.items ≡ out.old.items ++ flat_map escaped (name_at names.now.keys number)) }
{
    let mut name = Vec::new(alloc);
    put_name_at(&mut name, names, number)?;
    put_text(out, &name)
}
