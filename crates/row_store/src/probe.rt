//! A search over rows in order, from a place on that is likely to be near.

ghost use Rattle.std.specs.Prelude.{◌≡◌, ◌≢◌, ◌<◌, ◌≤◌, ◌/◌, not, IfSome};
ghost use Rattle.std.specs.Ordering.{is_eq, is_gt, is_lt};
ghost use Rattle.sqlite_value.specs.Value.{owned};
ghost use Rattle.sqlite_value.specs.declared.value.Value.TheVariants as value;
ghost use Rattle.sqlite_value.specs.Order.{column, value_cmp};
ghost use Rattle.sqlite_value.specs.Keys.{entry_cmp, prefix_cmp};
ghost use Rattle.sqlite_trees.specs.Tree.{rowid, IsTable};
ghost use Rattle.sqlite_trees.specs.Probe.{IsCutBy, IsPlaceOf, IsTestAt};
ghost use Rattle.row_store.specs.inner.Passes.{IsFirstIn};

use slot_list::SlotList;
use sqlite_value::keys::Order;
use sqlite_value::order::compare;
use sqlite_value::row::Row;
use sqlite_value::value::ValueRef;
use std::cmp::Ordering;
use txn_bytes::compare_texts;

/// A search that reaches as far as this is not near the place where it began.
const FAR: usize = 1 << 24;

/// A test that the rows of a tree pass up to some place, and fail from there on.
#[derive(Clone, Copy)]
pub(crate) enum Probe<'a> {
    BelowKey(Order, &'a Row),
    UpToKey(Order, &'a Row),
    BelowRowid(ValueRef<'a>),
    BelowEntry(Order, &'a Row),
}

impl<'a> Probe<'a> {
    ghost use Rattle.row_store.specs.inner.Passes.{passes, IsFirst};

    // By whole rows, which few looks need.
    #[inline(never)]
    fn passes(&self, entry: &Row) -> bool
        ensures { result ≡ passes self.now entry.now }
    {
        match *self {
            Probe::BelowKey(order, key) => entry.cmp_prefix(order, key).is_lt(),
            Probe::UpToKey(order, key) => !entry.cmp_prefix(order, key).is_gt(),
            Probe::BelowRowid(id) => compare(entry.get(0), id).is_lt(),
            Probe::BelowEntry(order, other) => entry.cmp_entry(order, other).is_lt(),
        }
    }

    // The first value of what is looked for, where rows ascend by its bytes. NULL tells nothing.
    fn first(self) -> ValueRef<'a>
        ensures { IsFirst self.entry (owned result) }
    {
        match self {
            Probe::BelowKey(order, key) => first_in(order, key),
            Probe::UpToKey(order, key) => first_in(order, key),
            Probe::BelowRowid(id) => id,
            Probe::BelowEntry(order, other) => first_in(order, other),
        }
    }

    // Whether the row passes, told by its first value alone where that can tell.
    #[inline(always)]
    fn passes_by(&self, first: ValueRef<'_>, row: &Row) -> bool
        requires { IsFirst self.now (owned first) }
        ensures { result ≡ passes self.now row.now }
    {
        match compare_first(row, first) {
            None => self.passes(row),
            Some(Ordering::Less) => true,
            Some(Ordering::Greater) => false,
            Some(Ordering::Equal) => match *self {
                Probe::BelowKey(_, key) if key.len() == 1 => false,
                Probe::UpToKey(_, key) if key.len() == 1 => true,
                Probe::BelowRowid(_) => false,
                _ => self.passes(row),
            },
        }
    }

    // The place of the first row that does not pass, or the end, by the first value of what is
    // looked for.
    #[inline(always)]
    fn search(&self, first: ValueRef<'_>, rows: &SlotList<Row>, near: &mut usize) -> usize
        requires first { IsFirst self.now (owned first) }
        requires cut { IsCutBy (passes self.now) rows.now.items }
        ensures { IsPlaceOf (passes self.now) rows.now.items result }
    {
        let mut low = 0;
        let mut high = rows.len();
        let mut next = nearest(*near, high);
        let mut reach = 0;
        while low < high {
            let far = reach;
            reach = wider(far);
            if self.passes_by(first, rows.at(next)) {
                low = next + 1;
                next = low + step(far, high - low);
            } else {
                high = next;
                next = high.saturating_sub(1 + step(far, high - low));
            }
        }
        *near = low;
        low
    }

    /// The place of the first row that does not pass, or the end. The search begins near a place,
    /// and leaves there what it found: one that is far away costs time alone.
    #[inline(always)]
    pub(crate) fn place(self, rows: &SlotList<Row>, near: &mut usize) -> usize
        requires { IsCutBy (passes self) rows.now.items }
        ensures { IsPlaceOf (passes self.entry) rows.now.items result }
    {
        // Each arm has a search of its own, since most rows begin with a text or an integer.
        match self.first() {
            ValueRef::Text(text) => self.search(ValueRef::Text(text), rows, near),
            ValueRef::Int(number) => self.search(ValueRef::Int(number), rows, near),
            other => self.search(other, rows, near),
        }
    }
}

// The row's first value, where the order has the first column ascend by its bytes.
fn first_in(order: Order, row: &Row) -> ValueRef<'_>
    ensures { IsFirstIn order row.now (owned result) }
{
    if order.digits % 8 == 0 {
        row.get(0)
    } else {
        ValueRef::Null
    }
}

// How the row's first value compares with this one, where both are texts or both are integers.
#[inline(always)]
fn compare_first(row: &Row, first: ValueRef<'_>) -> Option<Ordering>
    ensures told { IfSome result (λ o. o ≡ value_cmp (column row.now 0) (owned first.entry)) }
    ensures some { IfSome result (λ _. owned first.entry ≢ value.Null) }
{
    match (row.get(0), first) {
        (ValueRef::Text(ours), ValueRef::Text(theirs)) => Some(compare_texts(ours, theirs)),
        (ValueRef::Int(ours), ValueRef::Int(theirs)) => Some(ours.cmp(&theirs)),
        _ => None,
    }
}

// The place of a row, of which there are so many, that is nearest to this one.
fn nearest(at: usize, len: usize) -> usize
    ensures { 0 < len → result < len }
{
    if at < len { at } else { len.saturating_sub(1) }
}

// How far the next look is from the last one: not past the middle of the rows that are left.
fn step(reach: usize, left: usize) -> usize
    ensures { result ≤ left / 2 }
{
    if reach < left / 2 { reach } else { left / 2 }
}

// From the place where it begins a search looks at the next row, and then ever farther.
fn wider(reach: usize) -> usize {
    if reach < FAR { 8 * reach + 8 } else { reach }
}

/// The place behind the rows that are not above the key. Behind an empty key stand no rows, so that
/// none is looked at.
pub(crate) fn place_up_to_key(
    order: Order,
    key: &Row,
    rows: &SlotList<Row>,
    near: &mut usize,
) -> usize
    requires { IsCutBy (λ e. not (is_gt (prefix_cmp order e key.now))) rows.now.items }
    ensures { IsPlaceOf (λ e. not (is_gt (prefix_cmp order e key.now))) rows.now.items result }
{
    if key.is_empty() {
        *near = rows.len();
        return rows.len();
    }
    Probe::UpToKey(order, key).place(rows, near)
}

/// The place of the row that has this rowid, or of the first one above it, or the end. A row that
/// stands at the near place is found by one look.
#[inline(never)]
pub(crate) fn place_of_rowid(rows: &SlotList<Row>, near: &mut usize, id: ValueRef<'_>) -> usize
    requires { IsTable rows.now.items }
    ensures { IsPlaceOf (λ r. is_lt (value_cmp (rowid r) (owned id.entry))) rows.now.items result }
{
    if has_rowid_at(rows, *near, id) {
        return *near;
    }
    Probe::BelowRowid(id).place(rows, near)
}

/// Whether the row at the place has this rowid.
pub(crate) fn has_rowid_at(rows: &SlotList<Row>, at: usize, id: ValueRef<'_>) -> bool
    ensures { IsTestAt (λ r. is_eq (value_cmp (rowid r) (owned id.entry))) rows.now.items at result }
{
    at < rows.len() && compare(rows.at(at).get(0), id).is_eq()
}

/// Whether the entry at the place is this one, in this order.
pub(crate) fn has_entry_at(order: Order, rows: &SlotList<Row>, at: usize, entry: &Row) -> bool
    ensures { IsTestAt (λ e. is_eq (entry_cmp order e entry.now)) rows.now.items at result }
{
    at < rows.len() && is_same_entry(order, rows.at(at), entry)
}

// Whether two entries are alike in this order: most differ in their first values.
fn is_same_entry(order: Order, row: &Row, entry: &Row) -> bool
    ensures { result ≡ is_eq (entry_cmp order row.now entry.now) }
{
    match compare_first(row, first_in(order, entry)) {
        Some(Ordering::Less) => false,
        Some(Ordering::Greater) => false,
        _ => row.cmp_entry(order, entry).is_eq(),
    }
}
