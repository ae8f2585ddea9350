//! The first pass: the lines of a report one by one, each of which may stand where it stands.

ghost use Rattle.std.specs.Prelude.{◌≡◌, ◌∷◌, ◌+◌, ◌-◌, ℕ, List, codes, length, option_map, slice_get, suc, false, true, None, Some, if◌then◌else◌, IfOk, OnOk};
ghost use Rattle.std.specs.Str.{bytes_eq};
ghost use Rattle.indexmap.specs.IndexMap.{index_map_len, keys};
ghost use Rattle.serial_spec.specs.History.{Accesses, History, effect_of};
ghost use Rattle.serial_spec.specs.Places.{is_below};
ghost use Rattle.serial_spec.specs.Rows.{IsRising, Rows};
ghost use Rattle.line_language.specs.Events.{IsEvent};
ghost use Rattle.line_language.specs.Entries.{IsReportEntry};
ghost use Rattle.line_language.specs.Reading.{entry_of, row_of};
ghost use Rattle.report_check.specs.Passing.{Ended, Final, Opening, Read, Start, at_part, entry_next, has_ended, may_end, middle_next, next, next_at, opening_next, unread};
ghost use Rattle.report_judge.specs.Kept.{AddsRow, Follows, FollowsAt, IsKept, IsMiddle, IsSeen, Opens, Steps, StepsIn, StepsInMiddle, final_row, is_access, is_done_ok, line_of, may_come, opened, opening_row, part_of};
ghost use Rattle.serial_spec.specs.declared.target.Asked.TheVariants.{At, Over};
ghost use Rattle.report_tables.specs.Chained.{Known, known_by};
ghost use Rattle.report_tables.specs.Told.{AreTransactionsOf, Comes};
ghost use Rattle.report_tables.specs.Valued.{value_at};

use crate::lines::MOST_BYTES;
use indexmap::IndexMap;
use line_language::{MOST_ENTRY, ReportEntry, parse_row, read_entry};
use report_tables::{
    Access, ByNumber, Groups, Sessions, Transactions, Values, abort, access, begin, commit,
    group_number, none_waits, number_of, session_number, take_line,
};
use serial_spec::{Answer, Event, MOST_ROWS, NoMemory, Op, Reply};
use std::alloc::{AllocError, Global};
use txn_names::{Group, Key, Label, Name};

// There is room for each line that may stand in a report.
const _: () = prove!(MOST_BYTES == MOST_ENTRY);

/// Which part of a report the next line is of.
#[derive(Clone, Copy, Debug, PartialEq, Eq)]
pub(crate) enum Part {
    Start,
    Opening,
    Entries,
    Final,
    Ended,
}

/// What is kept of the lines so far.
#[derive(Drop)]
pub(crate) struct Seen {
    pub(crate) part: Part,
    /// Every key that was named, with its value in the opening rows.
    pub(crate) values: Values,
    /// Every group that was summed. Its sum is made in the second pass.
    pub(crate) groups: Groups,
    pub(crate) sessions: Sessions,
    pub(crate) transactions: Transactions,
    /// Whether an abort of the close has been told.
    pub(crate) closing: bool,
    /// The final rows.
    pub(crate) table: Vec<(Key, i64)>,
}

impl Seen {
    /// Of no lines. The only error is that memory runs out.
    pub(crate) fn new(alloc: Global) -> Result<Seen, NoMemory>
        ensures { IfOk result (IsSeen unread) }
    {
        let transactions = Transactions::new(alloc)?;
        Ok(Seen {
            part: Part::Start,
            values: IndexMap::new(alloc),
            groups: IndexMap::new(alloc),
            sessions: IndexMap::new(alloc),
            transactions,
            closing: false,
            table: Vec::new(alloc),
        })
    }

    /// Whether the line `end` has come.
    pub(crate) fn has_ended(&self) -> bool
        ensures { result ≡ has_ended (part_of self.now.part) }
    {
        matches!(self.part, Part::Ended)
    }
}

fn is_below(one: &Key, other: &Key) -> bool
    ensures { result ≡ is_below one.now other.now }
{
    *one < *other
}

// Whether a row with this key may come behind so many rows, of which this is the key of the last
// one.
fn may_come(rows: usize, last: Option<Key>, key: &Key) -> bool
    ensures { result ≡ may_come rows last key.now }
{
    if rows >= MOST_ROWS {
        return false;
    }
    match last {
        Some(last) => is_below(&last, key),
        None => true,
    }
}

// The key that was named last.
fn last_named(values: &Values) -> Option<Key>
    ensures { result ≡ slice_get (keys values.now) (index_map_len values.now - 1) }
{
    match values.get_index(values.len().saturating_sub(1)) {
        Some((key, _)) => Some(*key),
        None => None,
    }
}

// An opening row, if it may come next.
fn add_opening(values: &mut Values, key: &Key, value: i64) -> Result<bool, NoMemory>
    // Wide: it is over all rows that the values may be of.
    ensures { IfOk result (λ ok. (rows : Rows) → values.old.entries ≡ opened rows → IsRising rows
        → Opens ok rows key.now value values.new.entries) }
{
    if !may_come(values.len(), last_named(values), key) {
        return Ok(false);
    }
    match values.insert(*key, Some(value)) {
        Ok(_) => Ok(true),
        Err(_) => Err(AllocError),
    }
}

// The key of the last row.
fn last_of(table: &[(Key, i64)]) -> Option<Key>
    ensures { result ≡ option_map (λ r. r.0) (slice_get table.now (length table.now - 1)) }
{
    match table.get(table.len().saturating_sub(1)) {
        Some(row) => Some(row.0),
        None => None,
    }
}

// A final row, if it may come next.
fn add_final(table: &mut Vec<(Key, i64)>, key: &Key, value: i64) -> Result<bool, NoMemory>
    ensures { IfOk result (λ ok. AddsRow ok table.old.items key.now value table.new.items) }
{
    if !may_come(table.len(), last_of(table), key) {
        return Ok(false);
    }
    table.push((*key, value))?;
    Ok(true)
}

fn is_done_ok(answer: &Answer) -> bool
    ensures { result ≡ is_done_ok answer.now }
{
    matches!(answer, Answer::Done(Reply::Ok))
}

// An access to a key, if it may be made where it stands.
fn take_access(
    transactions: &mut Transactions,
    values: &mut Values,
    line: usize,
    name: &Name,
    key: &Key,
    op: Op,
    reply: Reply,
) -> Result<bool, NoMemory>
    // Wide: it is over every history that the transactions may be of.
    ensures effect { IfOk result (λ ok. (base : ℕ) (groups : List (List ℕ)) (h : History)
        → AreTransactionsOf base (known_by (keys values.old) groups) h transactions.old
        → line ≡ base + suc (length h) → Comes ok h (Accesses name.now (At key.now op) reply)
        (λ e. AreTransactionsOf base (known_by (keys values.new) groups) (e ∷ h)
        transactions.new)) }
    ensures same { OnOk result
        ((k : List ℕ) → value_at values.new.entries k ≡ value_at values.old.entries k) }
{
    let key = number_of(values, key)?;
    let made = Access {
        line,
        asked: ByNumber::At(key, op),
        reply,
        next: None,
    };
    access(transactions, name, made)
}

// A sum over a group, if it may be made where it stands.
fn take_sum(
    transactions: &mut Transactions,
    groups: &mut Groups,
    line: usize,
    name: &Name,
    group: &Group,
    reply: Reply,
) -> Result<bool, NoMemory>
    // Wide: it is over every history that the transactions may be of.
    ensures { IfOk result (λ ok. (base : ℕ) (ks : List (List ℕ)) (h : History)
        → AreTransactionsOf base (known_by ks (keys groups.old)) h transactions.old
        → line ≡ base + suc (length h) → Comes ok h (Accesses name.now (Over group.now) reply)
        (λ e. AreTransactionsOf base (known_by ks (keys groups.new)) (e ∷ h) transactions.new)) }
{
    let group = group_number(groups, group)?;
    let made = Access {
        line,
        asked: ByNumber::Over(group),
        reply,
        next: None,
    };
    access(transactions, name, made)
}

// What an entry did, if it may be done where it stands.
fn take_effect(
    transactions: &mut Transactions,
    values: &mut Values,
    groups: &mut Groups,
    line: usize,
    event: &Event,
    answer: &Answer,
) -> Result<bool, NoMemory>
    // Wide: it is over every history that the transactions may be of.
    ensures effect { IfOk result (λ ok. (base : ℕ) (h : History)
        → AreTransactionsOf base (known_by (keys values.old) (keys groups.old)) h transactions.old
        → line ≡ base + suc (length h) → Comes ok h (effect_of event.now answer.now)
        (λ e. AreTransactionsOf base (known_by (keys values.new) (keys groups.new)) (e ∷ h)
        transactions.new)) }
    ensures same { OnOk result
        ((k : List ℕ) → value_at values.new.entries k ≡ value_at values.old.entries k) }
{
    match event {
        Event::Access(name, key, op) => match answer {
            Answer::Done(reply) => take_access(transactions, values, line, name, key, *op, *reply),
            _ => Ok(true),
        },
        Event::Sum(name, group) => match answer {
            Answer::Done(reply) => take_sum(transactions, groups, line, name, group, *reply),
            _ => Ok(true),
        },
        _ => take_end(transactions, event, answer),
    }
}

// A begin, a commit or an abort, if it may be done where it stands.
fn take_end(
    transactions: &mut Transactions,
    event: &Event,
    answer: &Answer,
) -> Result<bool, NoMemory>
    // Wide: it is over every history that the transactions may be of.
    ensures { IfOk result (λ ok. (base : ℕ) (known : Known) (h : History)
        → AreTransactionsOf base known h transactions.old → is_access event.now ≡ false
        → Comes ok h (effect_of event.now answer.now)
        (λ e. AreTransactionsOf base known (e ∷ h) transactions.new)) }
{
    if !is_done_ok(answer) {
        return Ok(true);
    }
    match event {
        Event::Begin(name) => begin(transactions, name),
        Event::Commit(name) => Ok(commit(transactions, name)),
        Event::Abort(name) => Ok(abort(transactions, name)),
        Event::Access(_, _, _) => Ok(true),
        Event::Sum(_, _) => Ok(true),
        Event::After(_, _) => Ok(true),
    }
}

// A line's answer or wait.
fn take_answer(
    seen: &mut Seen,
    at: usize,
    label: &Label,
    line: u32,
    event: &Event,
    answer: &Answer,
) -> Result<bool, NoMemory>
    ensures kept { IfOk result (FollowsAt (IsEvent event.now) at
        (ReportEntry.Line label.now line event.now answer.now) seen.old seen.new) }
    ensures part { seen.new.part ≡ seen.old.part }
{
    if seen.closing {
        return Ok(false);
    }
    let Some(number) = session_number(&mut seen.sessions, label)? else {
        return Ok(false);
    };
    if !take_line(&mut seen.sessions, number, line, event, answer) {
        return Ok(false);
    }
    take_effect(
        &mut seen.transactions,
        &mut seen.values,
        &mut seen.groups,
        at,
        event,
        answer,
    )
}

fn take_victim(seen: &mut Seen, name: &Name) -> bool
    ensures kept { (r : Read) → IsKept r seen.old
        → Follows result r (ReportEntry.Victim name.now) seen.new }
    ensures part { seen.new.part ≡ seen.old.part }
{
    !seen.closing && abort(&mut seen.transactions, name)
}

fn take_close(seen: &mut Seen, name: &Name) -> bool
    ensures kept { (r : Read) → IsKept r seen.old
        → Follows result r (ReportEntry.Close name.now) seen.new }
    ensures part { seen.new.part ≡ seen.old.part }
{
    seen.closing = true;
    name.depth() == 1 && abort(&mut seen.transactions, name)
}

fn take_entry(seen: &mut Seen, at: usize, entry: &ReportEntry) -> Result<bool, NoMemory>
    ensures kept { IfOk result (FollowsAt (IsReportEntry entry.now) at entry.now seen.old seen.new) }
    ensures part { seen.new.part ≡ seen.old.part }
{
    match entry {
        ReportEntry::Line {
            label,
            line,
            event,
            answer,
        } => take_answer(seen, at, label, *line, event, answer),
        ReportEntry::Victim(name) => Ok(take_victim(seen, name)),
        ReportEntry::Close(name) => Ok(take_close(seen, name)),
    }
}

// The line of an entry.
fn take_told(seen: &mut Seen, at: usize, bytes: &[u8]) -> Result<bool, NoMemory>
    ensures { IfOk result
        (StepsInMiddle at (λ r. entry_next r (entry_of bytes.now)) seen.old seen.new) }
{
    seen.part = Part::Entries;
    let mut entry = None;
    read_entry(bytes, &mut entry);
    match &entry {
        Some(entry) => take_entry(seen, at, entry),
        None => Ok(false),
    }
}

// The line `table`.
fn take_table(seen: &mut Seen) -> bool
    ensures { (r : Read) → IsSeen r seen.old → IsMiddle r.part
        → Steps result (if may_end r then Some (at_part Final r) else None) seen.new }
{
    seen.part = Part::Final;
    seen.transactions.tree.has_distinct_names();
    seen.transactions.tree.live_tops() == 0 && none_waits(&seen.sessions)
}

// An entry, or the line `table`.
fn take_middle(seen: &mut Seen, at: usize, bytes: &[u8]) -> Result<bool, NoMemory>
    ensures { IfOk result
        (StepsInMiddle at (λ r. middle_next r bytes.now) seen.old seen.new) }
{
    if bytes == b"table".as_slice() {
        Ok(take_table(seen))
    } else {
        take_told(seen, at, bytes)
    }
}

fn is_start(bytes: &[u8]) -> bool
    ensures { result ≡ bytes_eq bytes.now (codes "open") }
{
    bytes == b"open".as_slice()
}

// The first line.
fn take_start(seen: &mut Seen, bytes: &[u8]) -> bool
    ensures { (r : Read) → IsSeen r seen.old → r.part ≡ Start
        → Steps result (next_at Start r bytes.now) seen.new }
{
    seen.part = Part::Opening;
    is_start(bytes)
}

// An opening row.
fn take_row(seen: &mut Seen, key: &Key, value: i64) -> Result<bool, NoMemory>
    ensures { IfOk result
        (StepsIn Opening (opening_row key.now value) seen.old seen.new) }
{
    add_opening(&mut seen.values, key, value)
}

// An opening row, or what may stand behind the opening rows.
fn take_opening(seen: &mut Seen, at: usize, bytes: &[u8]) -> Result<bool, NoMemory>
    // Wide: it is of the opening rows and of the number of the line.
    ensures { IfOk result (λ ok. (r : Read) → IsSeen r seen.old → r.part ≡ Opening → at ≡ line_of r
        → Steps ok (opening_next r bytes.now (row_of bytes.now)) seen.new) }
{
    match parse_row(bytes) {
        Some((key, value)) => take_row(seen, &key, value),
        None => take_middle(seen, at, bytes),
    }
}

// The line `end`.
fn take_last(seen: &mut Seen) -> bool
    ensures { (r : Read) → IsSeen r seen.old → Steps result (Some (at_part Ended r)) seen.new }
{
    seen.part = Part::Ended;
    true
}

// A final row.
fn take_final_row(seen: &mut Seen, key: &Key, value: i64) -> Result<bool, NoMemory>
    ensures { IfOk result (StepsIn Final (final_row key.now value) seen.old seen.new) }
{
    add_final(&mut seen.table, key, value)
}

// A final row, or the line `end`.
fn take_final(seen: &mut Seen, bytes: &[u8]) -> Result<bool, NoMemory>
    ensures { IfOk result (λ ok. (r : Read) → IsSeen r seen.old → r.part ≡ Final
        → Steps ok (next_at Final r bytes.now) seen.new) }
{
    if bytes == b"end".as_slice() {
        return Ok(take_last(seen));
    }
    match parse_row(bytes) {
        Some((key, value)) => take_final_row(seen, &key, value),
        None => Ok(false),
    }
}

/// Takes the next line, which is the one with the number `at`, if it may stand where it stands.
/// The only error is that memory runs out. Where it may not stand there, or after an error, what
/// is seen has no meaning.
pub(crate) fn take(seen: &mut Seen, at: usize, bytes: &[u8]) -> Result<bool, NoMemory>
    ensures { IfOk result (λ ok.
        (r : Read) → IsSeen r seen.old → at ≡ line_of r → Steps ok (next r bytes.now) seen.new) }
{
    match seen.part {
        Part::Start => Ok(take_start(seen, bytes)),
        Part::Opening => take_opening(seen, at, bytes),
        Part::Entries => take_middle(seen, at, bytes),
        Part::Final => take_final(seen, bytes),
        Part::Ended => Ok(false),
    }
}
