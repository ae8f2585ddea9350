//! The accesses of transactions, one behind the other. A commit puts those of the child behind
//! those of its parent.
ghost use Rattle.std.specs.Prelude.{◌≡◌, ◌++◌, ◌∷◌, [], slice_get, OnErr, OnOk};
ghost use Rattle.txn_tree.specs.Linked.{update_at};
ghost use Rattle.report_tables.specs.Chained.{chain_in, joined, leading_to, led, no_chain, one_access};

use serial_spec::{Op, Reply};

/// What an access asks, its key or its group by number.
#[derive(Clone, Copy)]
pub enum ByNumber {
    At(usize, Op),
    Over(usize),
}

/// An access that was answered, and where the next of its transaction stands, if there is one.
#[derive(Clone, Copy)]
pub struct Access {
    /// The line of the report that tells of it.
    pub line: usize,
    pub asked: ByNumber,
    pub reply: Reply,
    /// Where the next access of the transaction stands.
    pub next: Option<usize>,
}

/// Where the first and the last access of a transaction stand, if it has made any, or a part of it
/// that has committed.
#[derive(Clone, Copy)]
pub struct Chain {
    pub first: Option<usize>,
    pub last: Option<usize>,
}

impl Chain {
    /// Of one that has made no access.
    pub fn none() -> Chain
        ensures { result ≡ no_chain }
    {
        Chain {
            first: None,
            last: None,
        }
    }

    /// Of one that has made this access alone.
    pub fn one(place: usize) -> Chain
        ensures { result ≡ one_access place }
    {
        Chain {
            first: Some(place),
            last: Some(place),
        }
    }

    // This one, and the other behind it.
    fn joined(self, more: Chain) -> Chain
        ensures { result ≡ joined self more }
    {
        Chain {
            first: self.first.or(more.first),
            last: more.last.or(self.last),
        }
    }
}

// The access at this place, if there is one, leads to another.
fn lead_at(accesses: &mut [Access], place: usize, to: Option<usize>)
    ensures { accesses.new ≡ update_at accesses.old place (leading_to to) }
{
    if place < accesses.len() {
        accesses[place].next = to;
    }
}

// The one access leads to the other, where there are both.
fn lead(accesses: &mut [Access], from: Option<usize>, to: Option<usize>)
    ensures { accesses.new ≡ led accesses.old from to }
{
    if let Some(place) = from {
        if to.is_some() {
            lead_at(accesses, place, to);
        }
    }
}

/// The chain at this place, none if there is no such place.
pub fn chain_at(chains: &[Chain], place: usize) -> Chain
    ensures { result ≡ chain_in (slice_get chains.now place) }
{
    match chains.get(place) {
        Some(chain) => *chain,
        None => Chain::none(),
    }
}

/// Puts a chain behind the one at this place.
pub fn append_at(accesses: &mut [Access], chains: &mut [Chain], place: usize, more: Chain)
    ensures accesses { accesses.new ≡
        led accesses.old (chain_in (slice_get chains.old place)).last more.first }
    ensures chains { chains.new ≡ update_at chains.old place (λ c. joined c more) }
{
    let own = chain_at(chains, place);
    if place < chains.len() {
        chains[place] = own.joined(more);
    }
    lead(accesses, own.last, more.first);
}
