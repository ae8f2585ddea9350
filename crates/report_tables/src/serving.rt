//! The second pass: the committed top-level transactions are run over one plain map.
ghost use Rattle.std.specs.Prelude.{◌≡◌, ◌≤◌, length, Some, None};
ghost use Rattle.indexmap.specs.IndexMap.{keys};
ghost use Rattle.serial_spec.specs.declared.target.Asked.TheVariants.{At, Over};
ghost use Rattle.serial_spec.specs.Flat.{same_reply};
ghost use Rattle.serial_spec.specs.Sums.{reply_of_sum};
ghost use Rattle.report_check.specs.Serving.{or_least};
ghost use Rattle.report_tables.specs.Chained.{known_by};
ghost use Rattle.report_tables.specs.Served.{IsServed, ServesAccess, ServesFrom, ServesOne, TellsAccess, is_due};
ghost use Rattle.report_tables.specs.inner.Tallied.{AreTallied};
ghost use Rattle.report_tables.specs.Valued.{Values as Valued, AtPlace};

use crate::chains::{Access, ByNumber};
use crate::tallies::{set_value, tally};
use crate::values::{Groups, Values};
use serial_spec::{Op, Reply, act};

// The smaller of a line and one that may have been found.
fn or_least(line: usize, found: Option<usize>) -> usize
    ensures { result ≡ or_least line found }
{
    match found {
        Some(other) => line.min(other),
        None => line,
    }
}

fn is_same_reply(one: &Reply, other: &Reply) -> bool
    ensures { result ≡ same_reply one.now other.now }
{
    match (one, other) {
        (Reply::Ok, Reply::Ok) => true,
        (Reply::Value(v), Reply::Value(w)) => v == w,
        (Reply::Absent, Reply::Absent) => true,
        (Reply::New(v), Reply::New(w)) => v == w,
        (Reply::Overflow, Reply::Overflow) => true,
        _ => false,
    }
}

// What a sum is replied.
fn reply_over(sum: i128) -> Reply
    ensures { result ≡ reply_of_sum sum }
{
    match i64::try_from(sum) {
        Ok(sum) => Reply::Value(sum),
        Err(_) => Reply::Overflow,
    }
}

// Does the access to the key with this number, whatever its reply, and tells whether that was the
// one due.
fn serve_at_key(
    values: &mut Values,
    groups: &mut Groups,
    number: usize,
    op: &Op,
    reply: &Reply,
) -> bool
    requires { AreTallied values.old.entries groups.old.entries }
    ensures keys { keys groups.new ≡ keys groups.old }
    ensures tallied { AreTallied values.new.entries groups.new.entries }
    ensures served { AtPlace (keys values.old) number
        (λ k. IsServed (At k op.now) reply.now values.old.entries values.new.entries result) }
{
    let Some((_, value)) = values.get_index(number) else {
        return true;
    };
    let (after, due) = act(*value, op);
    set_value(values, groups, number, after);
    is_same_reply(reply, &due)
}

// Whether the reply is that of a sum over the group with this number.
fn is_due_over(groups: &Groups, number: usize, reply: &Reply) -> bool
    ensures { (es : Valued) → AreTallied es groups.now.entries → AtPlace (keys groups.now) number
        (λ g. result ≡ is_due es (Over g) reply.now) }
{
    match groups.get_index(number) {
        Some((_, sum)) => is_same_reply(reply, &reply_over(*sum)),
        None => true,
    }
}

// Does the access, whatever its reply, and tells whether that was the one due.
fn serve(values: &mut Values, groups: &mut Groups, access: &Access) -> bool
    requires { AreTallied values.old.entries groups.old.entries }
    ensures keys { keys groups.new ≡ keys groups.old }
    ensures tallied { AreTallied values.new.entries groups.new.entries }
    ensures served { ServesAccess access.now (known_by (keys values.old) (keys groups.old))
        values.old.entries values.new.entries result }
{
    match &access.asked {
        ByNumber::At(number, op) => serve_at_key(values, groups, *number, op, &access.reply),
        ByNumber::Over(number) => is_due_over(groups, *number, &access.reply),
    }
}

// Does the access, and tells the least of the lines that were wrong.
fn serve_one(
    values: &mut Values,
    groups: &mut Groups,
    access: &Access,
    wrong: Option<usize>,
) -> Option<usize>
    requires { AreTallied values.old.entries groups.old.entries }
    ensures keys { keys groups.new ≡ keys groups.old }
    ensures tallied { AreTallied values.new.entries groups.new.entries }
    ensures told { TellsAccess access.now (known_by (keys values.old) (keys groups.old))
        values.old.entries values.new.entries wrong result }
{
    if serve(values, groups, access) {
        wrong
    } else {
        Some(or_least(access.line, wrong))
    }
}

// Does the access at this place, if there is one, and tells where the next one stands and the least
// of the lines that were wrong.
fn serve_at(
    values: &mut Values,
    groups: &mut Groups,
    accesses: &[Access],
    at: Option<usize>,
    wrong: Option<usize>,
) -> (Option<usize>, Option<usize>)
    requires { AreTallied values.old.entries groups.old.entries }
    ensures keys { keys groups.new ≡ keys groups.old }
    ensures tallied { AreTallied values.new.entries groups.new.entries }
    ensures told { ServesOne accesses.now (known_by (keys values.old) (keys groups.old)) at
        values.old.entries values.new.entries wrong result }
{
    let Some(place) = at else {
        return (None, wrong);
    };
    match accesses.get(place) {
        Some(access) => {
            let told = serve_one(values, groups, access, wrong);
            (access.next, told)
        }
        None => (None, wrong),
    }
}

// Does the accesses from this one on, and tells the least of the lines that were wrong.
fn run(
    values: &mut Values,
    groups: &mut Groups,
    accesses: &[Access],
    first: Option<usize>,
) -> Option<usize>
    requires { AreTallied values.old.entries groups.old.entries }
    ensures { ServesFrom accesses.now (known_by (keys values.old) (keys groups.old)) first
        values.old.entries values.new.entries result }
{
    let mut wrong = None;
    let mut next = first;
    for _turn in 0..accesses.len() {
        let (after, told) = serve_at(values, groups, accesses, next, wrong);
        next = after;
        wrong = told;
    }
    wrong
}

/// Does the accesses from this one on, one after the other, whatever their replies. It gives the
/// least line of one whose reply was not the one due, if there is one. A sum costs a look at it,
/// and each change of a value a look for each dot of its key.
pub fn serve_all(
    values: &mut Values,
    groups: &mut Groups,
    accesses: &[Access],
    first: Option<usize>,
) -> Option<usize>
    ensures { ServesFrom accesses.now (known_by (keys values.old) (keys groups.old)) first
        values.old.entries values.new.entries result }
{
    tally(groups, values);
    run(values, groups, accesses, first)
}
