//! Bytes that come piece by piece, judged line by line.
ghost use Rattle.std.specs.Prelude.{◌≡◌, ◌≤◌, ◌<◌, ◌+◌, ◌-◌, ◌^◌, ◌∷◌, ◌++◌, [], ℕ, List, length, slice_get, IfOk, IfSome, IsNone, OnOk};
ghost use Rattle.report_check.specs.Passing.{Ended, Read};
ghost use Rattle.report_check.specs.Verdicts.{HasVerdict, IsRun, first_wrong};
ghost use Rattle.report_check.specs.declared.verdict.Verdict.TheVariants.{No};
ghost use Rattle.report_tables.specs.Chained.{chain_in};
ghost use Rattle.report_judge.specs.Judging.{IsComparedBy, IsDue, IsLine, IsSettled, Stands, WantsMore, is_over};
ghost use Rattle.report_judge.specs.Kept.{IsSeen, line_of, part_of};

use crate::seen::{Part, Seen, take};
use report_check::Verdict;
use report_tables::{Transactions, Values, compare, serve_all};
use serial_spec::NoMemory;
use session_text::cut_line;
use std::alloc::Global;
use txn_bytes::Bytes;
use txn_names::Key;

/// How many bytes the longest line of a report has, without its line feed: a label, the number of
/// a line, the longest line of a session, and the answer `orphan` with the longest name, with what
/// stands between them.
pub const MOST_BYTES: usize = 633;

/// What the lines so far came to.
#[derive(Drop)]
pub(crate) struct Standing {
    pub(crate) seen: Seen,
    /// The number of the line that is being read, or of the first fault.
    pub(crate) line: usize,
    /// Whether a fault was found.
    pub(crate) faulty: bool,
}

/// What the bytes so far came to.
#[derive(Drop)]
pub(crate) struct Judge {
    pub(crate) standing: Standing,
    /// The bytes of a line that has not ended.
    pub(crate) kept: Bytes<MOST_BYTES>,
}

impl Judge {
    /// Of no bytes. The only error is that memory runs out.
    pub(crate) fn new(alloc: Global) -> Result<Judge, NoMemory>
        ensures stands { IfOk result (λ j. Stands [] j) }
        ensures line { IfOk result (λ j. j.standing.line ≡ 1) }
    {
        let seen = Seen::new(alloc)?;
        Ok(Judge {
            standing: Standing {
                seen,
                line: 1,
                faulty: false,
            },
            kept: Bytes::new(),
        })
    }
}

// Takes a line that has ended.
fn take_line(standing: &mut Standing, line: &[u8]) -> Result<(), NoMemory>
    requires { standing.old.line + 1 < 2 ^ 64 }
    ensures due { OnOk result
        ((bs : List ℕ) → IsLine line.now → IsDue bs line.now standing.old
        → IsDue (bs ++ 10 ∷ []) [] standing.new) }
    ensures line { standing.new.line ≤ standing.old.line + 1 }
{
    if standing.faulty {
        return Ok(());
    }
    if take(&mut standing.seen, standing.line, line)? {
        standing.line += 1;
    } else {
        standing.faulty = true;
    }
    Ok(())
}

// Keeps bytes of a line that has not ended. Where they are more than a line may have, the line is
// a fault.
fn keep(judge: &mut Judge, bytes: &[u8])
    ensures stands { (bs : List ℕ) → IsLine bytes.now → Stands bs judge.old
        → Stands (bs ++ bytes.now) judge.new }
    ensures line { judge.new.standing.line ≡ judge.old.standing.line }
{
    if !judge.kept.extend(bytes) {
        judge.standing.faulty = true;
    }
}

// Takes the line that is kept, which has ended.
fn take_kept(judge: &mut Judge) -> Result<(), NoMemory>
    requires { judge.old.standing.line + 1 < 2 ^ 64 }
    ensures stands { OnOk result
        ((bs : List ℕ) → Stands bs judge.old → Stands (bs ++ 10 ∷ []) judge.new) }
    ensures line { judge.new.standing.line ≤ judge.old.standing.line + 1 }
{
    take_line(&mut judge.standing, judge.kept.as_bytes())?;
    judge.kept.clear();
    Ok(())
}

// Takes the end of a line, without its line feed.
fn end_line(judge: &mut Judge, bytes: &[u8]) -> Result<(), NoMemory>
    requires { judge.old.standing.line + 1 < 2 ^ 64 }
    ensures stands { OnOk result
        ((bs : List ℕ) → IsLine bytes.now → Stands bs judge.old
        → Stands (bs ++ (bytes.now ++ 10 ∷ [])) judge.new) }
    ensures line { judge.new.standing.line ≤ judge.old.standing.line + 1 }
{
    if judge.kept.is_empty() {
        return take_line(&mut judge.standing, bytes);
    }
    keep(judge, bytes);
    take_kept(judge)
}

/// Takes the next bytes. The only error is that memory runs out.
pub(crate) fn take_bytes(judge: &mut Judge, bytes: &[u8]) -> Result<(), NoMemory>
    requires { judge.old.standing.line + length bytes.now < 2 ^ 63 }
    ensures stands { OnOk result
        ((bs : List ℕ) → Stands bs judge.old → Stands (bs ++ bytes.now) judge.new) }
    ensures line { OnOk result
        (judge.new.standing.line ≤ judge.old.standing.line + length bytes.now) }
{
    let mut rest = bytes;
    'lines: loop {
        let (line, behind) = cut_line(rest);
        match behind {
            Some(next) => {
                end_line(judge, line)?;
                rest = next;
            }
            None => {
                keep(judge, rest);
                return Ok(());
            }
        }
    }
}

// The verdict of the third pass, on the final rows before the line with this number.
fn last_pass(values: &mut Values, table: &[(Key, i64)], after: usize) -> Result<Verdict, NoMemory>
    ensures { IfOk result (λ v.
        IsComparedBy values.old.entries table.now (after - (1 + length table.now)) v) }
{
    values.sort_keys()?;
    let first = after.saturating_sub(1 + table.len());
    Ok(compare(values, table, first))
}

// Where the first access of the root stands, if there is one.
fn first_access(transactions: &Transactions) -> Option<usize>
    ensures { result ≡ (chain_in (slice_get transactions.now.chains.items 0)).first }
{
    match transactions.chains.first() {
        Some(chain) => chain.first,
        None => None,
    }
}

// The verdict of the second and the third pass.
fn passes(seen: &mut Seen, after: usize) -> Result<Verdict, NoMemory>
    ensures { IfOk result (λ v.
        (r : Read) → IsSeen r seen.old → r.part ≡ Ended → after ≡ line_of r
        → IsRun r (first_wrong r) v) }
{
    let first = first_access(&seen.transactions);
    match serve_all(
        &mut seen.values,
        &mut seen.groups,
        &seen.transactions.accesses,
        first,
    ) {
        Some(wrong) => Ok(Verdict::No(wrong)),
        None => last_pass(&mut seen.values, &seen.table, after),
    }
}

// Whether the report has ended with the bytes so far.
fn is_over(judge: &Judge) -> bool
    ensures { result ≡ is_over judge.now.standing.faulty judge.now.kept
        (part_of judge.now.standing.seen.part) }
{
    !judge.standing.faulty && (judge.kept.is_empty() && judge.standing.seen.has_ended())
}

/// The line of the first fault, where the verdict is settled whatever bytes come.
pub(crate) fn settled(judge: &Judge) -> Option<usize>
    ensures settled { IfSome result (λ n.
        (bs : List ℕ) → Stands bs judge.now → IsSettled bs (No n)) }
    ensures wanted { IsNone result → (bs : List ℕ) → Stands bs judge.now → WantsMore bs }
{
    if judge.standing.faulty {
        Some(judge.standing.line)
    } else {
        None
    }
}

/// The verdict on the bytes. Afterwards what is seen has no meaning. The only error is that memory
/// runs out.
pub(crate) fn finish(judge: &mut Judge) -> Result<Verdict, NoMemory>
    ensures { IfOk result (λ v. (bs : List ℕ) → Stands bs judge.old → HasVerdict bs v) }
{
    let line = judge.standing.line;
    if is_over(judge) {
        passes(&mut judge.standing.seen, line)
    } else {
        Ok(Verdict::No(line))
    }
}
