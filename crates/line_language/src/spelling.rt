//! How numbers, events and answers are spelled, one spelling each. After a fault the writer has
//! taken a beginning of the spelling.
ghost use Rattle.std.specs.Prelude.{◌++◌, codes, decimal, OnErr};
ghost use Rattle.txn_bytes.specs.Written.{IsStopped, PutsAll, PutsFront};
ghost use Rattle.txn_names.specs.Text.{spelled_name};
ghost use Rattle.event_lists.specs.Views.{answer_by, asked, refusal_by};
ghost use Rattle.line_language.specs.Printing.{spelled_access, spelled_answer, spelled_event, spelled_number, spelled_refusal, spelled_reply, spelled_when};

use crate::digits::put_digits;
use crate::refusals::refused;
use crate::verbs::{lead, operand};
use event_lists::{Act, Cause, EventView, Said};
use itoa::Buffer;
use serial_spec::{Op, Reply, When};
use txn_bytes::{Sink, WriteFault, put};
use txn_names::{Group, Key, Name};

// A number below 0, or any.
#[inline(never)]
fn put_signed<W: Sink>(out: &mut W, number: i64) -> Result<(), WriteFault>
    ensures ok { PutsAll W.Sink out.old out.new (spelled_number number) result }
    ensures err { PutsFront W.Sink out.old out.new (spelled_number number) result }
    ensures asked { OnErr result (IsStopped W.Sink out.new) }
{
    let mut buffer = Buffer::new();
    put(out, buffer.format(number).as_bytes())
}

/// Writes the number as it is spelled. After a fault, the only one, the writer has taken a beginning
/// of that.
#[inline(always)]
pub fn put_number<W: Sink>(out: &mut W, number: i64) -> Result<(), WriteFault>
    ensures ok { PutsAll W.Sink out.old out.new (spelled_number number) result }
    ensures err { PutsFront W.Sink out.old out.new (spelled_number number) result }
    ensures asked { OnErr result (IsStopped W.Sink out.new) }
{
    match u64::try_from(number) {
        Ok(count) => put_digits(out, count),
        Err(_) => put_signed(out, number),
    }
}

#[inline(always)]
pub(crate) fn put_count<W: Sink>(out: &mut W, count: u32) -> Result<(), WriteFault>
    ensures ok { PutsAll W.Sink out.old out.new (decimal count) result }
    ensures err { PutsFront W.Sink out.old out.new (decimal count) result }
    ensures asked { OnErr result (IsStopped W.Sink out.new) }
{
    put_digits(out, u64::from(count))
}

/// Writes the size in digits. After a fault, the only one, the writer has taken a beginning of that.
pub fn put_size<W: Sink>(out: &mut W, size: usize) -> Result<(), WriteFault>
    ensures ok { PutsAll W.Sink out.old out.new (decimal size) result }
    ensures err { PutsFront W.Sink out.old out.new (decimal size) result }
    ensures asked { OnErr result (IsStopped W.Sink out.new) }
{
    let mut buffer = Buffer::new();
    put(out, buffer.format(size).as_bytes())
}

// A word with its space, and a name.
#[inline(always)]
pub(crate) fn put_named<W: Sink>(out: &mut W, word: &[u8], name: &Name) -> Result<(), WriteFault>
    ensures ok { PutsAll W.Sink out.old out.new (word.now ++ spelled_name name.now) result }
    ensures err { PutsFront W.Sink out.old out.new (word.now ++ spelled_name name.now) result }
    ensures asked { OnErr result (IsStopped W.Sink out.new) }
{
    put(out, word)?;
    name.write_to(out)
}

// A word with its space, a name and the bytes of a key or a group.
#[inline(always)]
fn put_spaced<W: Sink>(
    out: &mut W,
    word: &[u8],
    name: &Name,
    bytes: &[u8],
) -> Result<(), WriteFault>
    ensures ok { PutsAll W.Sink out.old out.new (word.now ++ spelled_name name.now ++ codes " " ++
        bytes.now) result }
    ensures err { PutsFront W.Sink out.old out.new (word.now ++ spelled_name name.now ++ codes " "
        ++ bytes.now) result }
    ensures asked { OnErr result (IsStopped W.Sink out.new) }
{
    put_named(out, word, name)?;
    put(out, b" ")?;
    put(out, bytes)
}

// A word with its space, a name and a key.
#[inline(always)]
fn put_keyed<W: Sink>(out: &mut W, word: &[u8], name: &Name, key: &Key) -> Result<(), WriteFault>
    ensures ok { PutsAll W.Sink out.old out.new (word.now ++ spelled_name name.now ++ codes " " ++
        key.now) result }
    ensures err { PutsFront W.Sink out.old out.new (word.now ++ spelled_name name.now ++ codes " "
        ++ key.now) result }
    ensures asked { OnErr result (IsStopped W.Sink out.new) }
{
    put_spaced(out, word, name, key.as_bytes())
}

// A word with its space, a name, a key and a number.
fn put_valued<W: Sink>(
    out: &mut W,
    word: &[u8],
    name: &Name,
    key: &Key,
    number: i64,
) -> Result<(), WriteFault>
    // Wide: a line of three operands.
    ensures ok { PutsAll W.Sink out.old out.new (word.now ++ spelled_name name.now ++ codes " " ++
        key.now ++ codes " " ++ spelled_number number) result }
    // Wide: the same.
    ensures err { PutsFront W.Sink out.old out.new (word.now ++ spelled_name name.now ++ codes " "
        ++ key.now ++ codes " " ++ spelled_number number) result }
    ensures asked { OnErr result (IsStopped W.Sink out.new) }
{
    put_keyed(out, word, name, key)?;
    put(out, b" ")?;
    put_number(out, number)
}

#[inline(always)]
fn put_access<W: Sink>(out: &mut W, name: &Name, key: &Key, op: Op) -> Result<(), WriteFault>
    ensures ok { PutsAll W.Sink out.old out.new (spelled_access name.now key.now op) result }
    ensures err { PutsFront W.Sink out.old out.new (spelled_access name.now key.now op) result }
    ensures asked { OnErr result (IsStopped W.Sink out.new) }
{
    match operand(op) {
        Some(number) => put_valued(out, lead(op), name, key, number),
        None => put_keyed(out, lead(op), name, key),
    }
}

fn put_sum<W: Sink>(out: &mut W, name: &Name, group: &Group) -> Result<(), WriteFault>
    ensures ok { PutsAll W.Sink out.old out.new (codes "sum " ++ spelled_name name.now ++ codes " "
        ++ group.now) result }
    ensures err { PutsFront W.Sink out.old out.new (codes "sum " ++ spelled_name name.now ++ codes
        " " ++ group.now) result }
    ensures asked { OnErr result (IsStopped W.Sink out.new) }
{
    put_spaced(out, b"sum ", name, group.as_bytes())
}

fn put_when<W: Sink>(out: &mut W, when: When) -> Result<(), WriteFault>
    ensures ok { PutsAll W.Sink out.old out.new (spelled_when when) result }
    ensures err { PutsFront W.Sink out.old out.new (spelled_when when) result }
    ensures asked { OnErr result (IsStopped W.Sink out.new) }
{
    match when {
        When::Begun => put(out, b"begun"),
        When::Done => put(out, b"done"),
    }
}

fn put_after<W: Sink>(out: &mut W, name: &Name, when: When) -> Result<(), WriteFault>
    ensures ok { PutsAll W.Sink out.old out.new (codes "after " ++ spelled_name name.now ++ codes " "
        ++ spelled_when when) result }
    ensures err { PutsFront W.Sink out.old out.new (codes "after " ++ spelled_name name.now ++
        codes " " ++ spelled_when when) result }
    ensures asked { OnErr result (IsStopped W.Sink out.new) }
{
    put_named(out, b"after ", name)?;
    put(out, b" ")?;
    put_when(out, when)
}

/// Writes an event as the command line that asks it, without its line feed: the one text of such a
/// line, of at most 329 bytes. It takes no memory. After a fault, the only one, the writer has taken
/// a beginning of that.
pub fn put_event<W: Sink>(out: &mut W, event: &EventView<'_>) -> Result<(), WriteFault>
    ensures ok { PutsAll W.Sink out.old out.new (spelled_event (asked event.now)) result }
    ensures err { PutsFront W.Sink out.old out.new (spelled_event (asked event.now)) result }
    ensures asked { OnErr result (IsStopped W.Sink out.new) }
{
    let name = event.name;
    match event.act {
        Act::Begin => put_named(out, b"begin ", name),
        Act::Access(key, op) => put_access(out, name, key, *op),
        Act::Sum(group) => put_sum(out, name, group),
        Act::Commit => put_named(out, b"commit ", name),
        Act::Abort => put_named(out, b"abort ", name),
        Act::After(when) => put_after(out, name, *when),
    }
}

fn put_reply<W: Sink>(out: &mut W, reply: Reply) -> Result<(), WriteFault>
    ensures ok { PutsAll W.Sink out.old out.new (spelled_reply reply) result }
    ensures err { PutsFront W.Sink out.old out.new (spelled_reply reply) result }
    ensures asked { OnErr result (IsStopped W.Sink out.new) }
{
    match reply {
        Reply::Ok => put(out, b"ok"),
        Reply::Value(value) => put_told(out, b"value ", value),
        Reply::Absent => put(out, b"none"),
        Reply::New(sum) => put_told(out, b"new ", sum),
        Reply::Overflow => put(out, b"overflow"),
    }
}

// A word with its space, and a number.
fn put_told<W: Sink>(out: &mut W, word: &[u8], number: i64) -> Result<(), WriteFault>
    ensures ok { PutsAll W.Sink out.old out.new (word.now ++ spelled_number number) result }
    ensures err { PutsFront W.Sink out.old out.new (word.now ++ spelled_number number) result }
    ensures asked { OnErr result (IsStopped W.Sink out.new) }
{
    put(out, word)?;
    put_number(out, number)
}

fn put_refusal<W: Sink>(out: &mut W, cause: Cause, top: &Name) -> Result<(), WriteFault>
    ensures ok { PutsAll W.Sink out.old out.new (spelled_refusal (refusal_by cause top.now)) result }
    ensures err { PutsFront W.Sink out.old out.new (spelled_refusal (refusal_by cause top.now))
        result }
    ensures asked { OnErr result (IsStopped W.Sink out.new) }
{
    match cause {
        Cause::Orphan => put_named(out, b"orphan ", top),
        _ => put(out, refused(cause)),
    }
}

pub(crate) fn put_answer<W: Sink>(out: &mut W, said: Said, top: &Name) -> Result<(), WriteFault>
    ensures ok { PutsAll W.Sink out.old out.new (spelled_answer (answer_by said top.now)) result }
    ensures err { PutsFront W.Sink out.old out.new (spelled_answer (answer_by said top.now)) result }
    ensures asked { OnErr result (IsStopped W.Sink out.new) }
{
    match said {
        Said::Done(reply) => put_reply(out, reply),
        Said::Waits => put(out, b"waits"),
        Said::Stuck => put(out, b"stuck"),
        Said::Refused(cause) => put_refusal(out, cause, top),
    }
}
