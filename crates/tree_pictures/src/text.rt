//! Text and numbers in SVG.
ghost use Rattle.std.specs.Prelude.{◌≡◌, ◌++◌, OnOk};
ghost use Rattle.std.specs.List.{flat_map};
ghost use Rattle.tree_pictures.specs.Elements.{attribute, escaped, point, tenths};

use serial_spec::NoMemory;
use tree_lines::{put_bytes, put_number};

// Adds what stands for the byte where it could be read as markup, and the byte where not.
fn put_escaped(out: &mut Vec<u8>, byte: u8) -> Result<(), NoMemory>
    ensures { OnOk result (out.new.items ≡ out.old.items ++ escaped byte) }
{
    match byte {
        b'&' => put_bytes(out, b"&amp;"),
        b'<' => put_bytes(out, b"&lt;"),
        b'>' => put_bytes(out, b"&gt;"),
        b'"' => put_bytes(out, b"&quot;"),
        b'\'' => put_bytes(out, b"&#39;"),
        other => put_bytes(out, &[other]),
    }
}

/// Adds the bytes as text: none of them is read as markup. The only error is that memory runs out.
pub(crate) fn put_text(out: &mut Vec<u8>, bytes: &[u8]) -> Result<(), NoMemory>
    ensures { OnOk result (out.new.items ≡ out.old.items ++ flat_map escaped bytes.now) }
{
    let mut rest = bytes;
    while let [first, behind @ ..] = rest {
        put_escaped(out, *first)?;
        rest = behind;
    }
    Ok(())
}

/// Adds a number of tenths of a unit. The only error is that memory runs out.
pub(crate) fn put_tenths(out: &mut Vec<u8>, number: u64) -> Result<(), NoMemory>
    ensures { OnOk result (out.new.items ≡ out.old.items ++ tenths number) }
{
    put_number(out, number / 10)?;
    put_bytes(out, b".")?;
    put_number(out, number % 10)
}

/// Adds a point: two numbers of tenths of a unit. The only error is that memory runs out.
pub(crate) fn put_point(out: &mut Vec<u8>, x: u64, y: u64) -> Result<(), NoMemory>
    ensures { OnOk result (out.new.items ≡ out.old.items ++ point x y) }
{
    put_tenths(out, x)?;
    put_bytes(out, b" ")?;
    put_tenths(out, y)
}

/// Adds an attribute whose value is a number of tenths of a unit. The only error is that memory runs
/// out.
pub(crate) fn put_at(out: &mut Vec<u8>, name: &[u8], number: u64) -> Result<(), NoMemory>
    ensures { OnOk result (out.new.items ≡ out.old.items ++ attribute name.now number) }
{
    put_bytes(out, b" ")?;
    put_bytes(out, name)?;
    put_bytes(out, b"=\"")?;
    put_tenths(out, number)?;
    put_bytes(out, b"\"")
}
