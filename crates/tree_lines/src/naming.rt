//! The labels of transactions.
ghost use Rattle.std.specs.Prelude.{◌≡◌, ◌++◌, OnOk};
ghost use Rattle.line_language.specs.Words.{cut_at};
ghost use Rattle.txn_names.specs.Text.{spelled_name};
ghost use Rattle.tree_lines.specs.Lines.{label_of, last_part};

use line_language::cut;
use serial_spec::NoMemory;
use std::alloc::{AllocError, Global};
use txn_names::Name;

// What stands behind the last slash.
fn behind_slashes(bytes: &[u8]) -> &[u8]
    ensures { result.now ≡ last_part (cut_at 47 bytes.now) }
{
    let mut rest = bytes;
    'parts: loop {
        let (part, behind) = cut(rest, b'/');
        match behind {
            Some(next) => rest = next,
            None => return part,
        }
    }
}

fn put_name(out: &mut Vec<u8>, name: &Name) -> Result<(), NoMemory>
    ensures { OnOk result (out.new.items ≡ out.old.items ++ spelled_name name.now) }
{
    match name.write_to(out) {
        Ok(()) => Ok(()),
        Err(_) => Err(AllocError),
    }
}

/// Adds the last label of the name. The only error is that memory runs out.
pub fn put_label(alloc: Global, out: &mut Vec<u8>, name: &Name) -> Result<(), NoMemory>
    ensures { OnOk result (out.new.items ≡ out.old.items ++ label_of name.now) }
{
    let mut spelled = Vec::new(alloc);
    put_name(&mut spelled, name)?;
    out.extend_from_slice(behind_slashes(&spelled))
}
