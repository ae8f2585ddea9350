//! Where entries and rows stand in a picture, in tenths of a unit.
ghost use Rattle.std.specs.Prelude.{◌≡◌, ◌<◌, ◌^◌};
ghost use Rattle.tree_pictures.specs.Scale.{bottom_of, line_of, plus, product, row_count, scale_of, x_of, y_of};

/// How wide a picture is.
pub(crate) const WIDTH: u64 = 12_000;

/// Where the first entry stands. Labels stand before it.
pub(crate) const LEFT: u64 = 2_700;

/// How far the label of a transaction stands to the right of its parent's.
pub(crate) const INDENT: u64 = 50;

/// How wide the entries are together.
pub(crate) const SPAN: u64 = 9_100;

/// Where the first row begins.
pub(crate) const TOP: u64 = 560;

/// How high a row is.
pub(crate) const ROW: u64 = 180;

/// How many rows there are at most: more transactions than these are drawn together.
pub(crate) const MOST_SHOWN: usize = 2_000;

/// How a report is laid out.
#[derive(Clone, Copy, Debug, PartialEq, Eq)]
pub(crate) struct Scale {
    /// How many entries there are.
    pub(crate) entries: usize,
    /// How many transactions are drawn in one row, at least one.
    pub(crate) together: usize,
    /// How many rows there are.
    pub(crate) rows: usize,
    /// In which line of the report the first entry is.
    pub(crate) first_line: usize,
}

/// The sum, as far as 64 bits go.
pub(crate) fn plus(left: u64, right: u64) -> u64
    ensures { result ≡ plus left right }
{
    left.saturating_add(right)
}

/// The product, as far as 64 bits go.
pub(crate) fn product(left: u64, right: u64) -> u64
    ensures { result ≡ product left right }
{
    left.saturating_mul(right)
}

// How many rows there are of so many transactions, with so many in each.
fn row_count(transactions: usize, together: usize) -> usize
    requires few { transactions < 2 ^ 63 }
    requires some { 0 < together }
    requires fits { together < 2 ^ 63 }
    ensures { result ≡ row_count transactions together }
{
    (transactions + (together - 1)) / together
}

impl Scale {
    /// Of so many transactions and entries, the first of them in this line.
    pub(crate) fn new(transactions: usize, entries: usize, first_line: usize) -> Scale
        requires { transactions < 2 ^ 63 }
        ensures { result ≡ scale_of transactions entries first_line }
    {
        let together = transactions / MOST_SHOWN + 1;
        Scale {
            entries,
            together,
            rows: row_count(transactions, together),
            first_line,
        }
    }

    /// Where the entry stands.
    pub(crate) fn x(&self, entry: usize) -> u64
        ensures { result ≡ x_of self.now entry }
    {
        let entries = self.entries.max(1) as u64;
        let at = (entry as u64).min(entries);
        plus(LEFT, product(at, SPAN) / entries)
    }

    /// Where the row begins.
    pub(crate) fn y(&self, row: usize) -> u64
        ensures { result ≡ y_of row }
    {
        plus(TOP, product(row as u64, ROW))
    }

    /// Where the rows end.
    pub(crate) fn bottom(&self) -> u64
        ensures { result ≡ bottom_of self.now }
    {
        plus(TOP, product(self.rows as u64, ROW))
    }

    /// The line of the report of this entry.
    pub(crate) fn line(&self, entry: usize) -> u64
        ensures { result ≡ line_of self.now entry }
    {
        plus(self.first_line as u64, entry as u64)
    }
}
