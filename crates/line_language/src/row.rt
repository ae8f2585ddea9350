//! Rows of a report, read and spelled.
ghost use Rattle.std.specs.Prelude.{◌≡◌, ◌++◌, OnErr, codes};
ghost use Rattle.txn_bytes.specs.Written.{IsStopped, PutsAll, PutsFront};
ghost use Rattle.line_language.specs.Printing.{spelled_number};
ghost use Rattle.line_language.specs.Reading.{row_of};

use crate::number::parse_number;
use crate::parting::cut;
use crate::spelling::put_number;
use txn_bytes::{Sink, WriteFault, put};
use txn_names::Key;

/// The row that the bytes spell, a line of a report without its line feed: `K=V`, a key and a
/// value.
pub fn parse_row(bytes: &[u8]) -> Option<(Key, i64)>
    ensures { result ≡ row_of bytes.now }
{
    let (key, rest) = cut(bytes, b'=');
    let key = Key::parse(key).ok()?;
    let value = parse_number(rest?)?;
    Some((key, value))
}

/// Writes a row as a line of a report without its line feed: the key, an equals sign and the value.
/// It takes no memory. After a fault, the only one, the writer has taken a beginning of that.
pub fn put_row<W: Sink>(out: &mut W, key: &Key, value: i64) -> Result<(), WriteFault>
    ensures ok { PutsAll W.Sink out.old out.new (key.now ++ codes "=" ++ spelled_number value)
        result }
    ensures err { PutsFront W.Sink out.old out.new (key.now ++ codes "=" ++ spelled_number value)
        result }
    ensures asked { OnErr result (IsStopped W.Sink out.new) }
{
    put(out, key.as_bytes())?;
    put(out, b"=")?;
    put_number(out, value)
}
