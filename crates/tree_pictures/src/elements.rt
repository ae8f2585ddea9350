//! The elements that a picture consists of, each up to where it is closed.
ghost use Rattle.std.specs.Prelude.{◌≡◌, ◌++◌, OnOk};
ghost use Rattle.tree_pictures.specs.Elements.{opened, opened_line, opened_rect, opened_text, place_xy};

use crate::text::put_at;
use serial_spec::NoMemory;
use tree_lines::put_bytes;

// Adds the beginning of an element with its class.
fn put_opened(out: &mut Vec<u8>, name: &[u8], class: &[u8]) -> Result<(), NoMemory>
    ensures { OnOk result (out.new.items ≡ out.old.items ++ opened name.now class.now) }
{
    put_bytes(out, b"<")?;
    put_bytes(out, name)?;
    put_bytes(out, b" class=\"")?;
    put_bytes(out, class)?;
    put_bytes(out, b"\"")
}

// Adds where an element stands.
fn put_place(out: &mut Vec<u8>, x: u64, y: u64) -> Result<(), NoMemory>
    ensures { OnOk result (out.new.items ≡ out.old.items ++ place_xy x y) }
{
    put_at(out, b"x", x)?;
    put_at(out, b"y", y)
}

/// Adds the beginning of a rectangle. The only error is that memory runs out.
pub(crate) fn put_rect(
    out: &mut Vec<u8>,
    class: &[u8],
    x: u64,
    y: u64,
    width: u64,
    height: u64,
) -> Result<(), NoMemory>
    ensures { OnOk result
        (out.new.items ≡ out.old.items ++ opened_rect class.now x y width height) }
{
    put_opened(out, b"rect", class)?;
    put_place(out, x, y)?;
    put_at(out, b"width", width)?;
    put_at(out, b"height", height)?;
    put_bytes(out, b">")
}

/// Adds the beginning of a text. The only error is that memory runs out.
pub(crate) fn put_text_at(out: &mut Vec<u8>, class: &[u8], x: u64, y: u64) -> Result<(), NoMemory>
    ensures { OnOk result (out.new.items ≡ out.old.items ++ opened_text class.now x y) }
{
    put_opened(out, b"text", class)?;
    put_place(out, x, y)?;
    put_bytes(out, b">")
}

/// Adds an upright line. The only error is that memory runs out.
pub(crate) fn put_upright(
    out: &mut Vec<u8>,
    class: &[u8],
    x: u64,
    from: u64,
    to: u64,
) -> Result<(), NoMemory>
    ensures { OnOk result (out.new.items ≡ out.old.items ++ opened_line class.now x from to) }
{
    put_opened(out, b"line", class)?;
    put_at(out, b"x1", x)?;
    put_at(out, b"y1", from)?;
    put_at(out, b"x2", x)?;
    put_at(out, b"y2", to)?;
    put_bytes(out, b"/>\n")
}
