//! The transactions that a report tells of: the state of each, and its accesses.
ghost use Rattle.std.specs.Prelude.{◌≡◌, ◌++◌, ◌+◌, [], ℕ, List, nat_lt, slice_get, false, true, None, Some, IfNone, IfOk, IfSome};
ghost use Rattle.txn_names.specs.Text.{IsName};
ghost use Rattle.txn_tree.specs.States.{IsTree, names};
ghost use Rattle.txn_tree.specs.Asked.{is_active_in};
ghost use Rattle.txn_tree.specs.Numbered.{IsClosed, live_children_at};
ghost use Rattle.serial_spec.specs.History.{Aborts, Begins, Commits};
ghost use Rattle.report_tables.specs.Chained.{Known};
ghost use Rattle.report_tables.specs.Told.{AreTransactionsOf, AboveAt, TakesAccess, TakesEffect};

use crate::chains::{Access, Chain, append_at, chain_at};
use serial_spec::NoMemory;
use std::alloc::{AllocError, Global};
use txn_names::Name;
use txn_tree::{Tree, TreeFault, TxnNo};

/// The transactions, and their accesses that were answered.
#[derive(Drop)]
pub struct Transactions {
    pub tree: Tree,
    /// The root's chain, and behind it that of each transaction, by its number.
    pub chains: Vec<Chain>,
    pub accesses: Vec<Access>,
}

fn has_live_child_at(tree: &Tree, txn: TxnNo) -> bool
    ensures { result ≡ nat_lt 0 (live_children_at tree.now txn) }
{
    tree.live_children_at(txn) > 0
}

// The transaction's number, if it is live and no orphan.
fn active_number(tree: &Tree, name: &Name) -> Option<TxnNo>
    ensures number { IfSome result (λ n. slice_get (names tree.now) n ≡ Some name.now) }
    ensures active { IfSome result (λ n. is_active_in tree.now name.now ≡ true) }
    ensures none { IfNone result (is_active_in tree.now name.now ≡ false) }
    ensures name { IsName name.now }
    ensures tree { IsTree tree.now }
{
    name.has_labels();
    tree.has_distinct_names();
    tree.active_no_of(name)
}

// Where the chain of a transaction stands.
fn place_of(txn: TxnNo) -> usize
    ensures { result ≡ txn + 1 }
{
    txn.place() as usize + 1
}

// Where the chain of a transaction's parent stands, which may be the root.
fn place_above(tree: &Tree, txn: TxnNo) -> usize
    ensures place { AboveAt tree.now txn result }
    ensures closed { IsClosed tree.now }
{
    match tree.parent_of(txn) {
        Some(parent) => place_of(parent),
        None => 0,
    }
}

impl Transactions {
    /// None. The only error is that memory runs out.
    pub fn new(alloc: Global) -> Result<Transactions, NoMemory>
        ensures { IfOk result (λ x. (base : ℕ) (known : Known) →
            AreTransactionsOf base known [] x) }
    {
        let mut chains = Vec::new(alloc);
        chains.push(Chain::none())?;
        Ok(Transactions {
            tree: Tree::new(alloc),
            chains,
            accesses: Vec::new(alloc),
        })
    }
}

/// A transaction begins, if it may. The only error is that memory runs out.
pub fn begin(transactions: &mut Transactions, name: &Name) -> Result<bool, NoMemory>
    ensures { IfOk result (TakesEffect (Begins name.now) transactions.old transactions.new) }
{
    name.has_labels();
    transactions.tree.has_distinct_names();
    match transactions.tree.begin(name) {
        Ok(_) => {
            transactions.chains.push(Chain::none())?;
            Ok(true)
        }
        Err(TreeFault::Refused(_)) => Ok(false),
        Err(TreeFault::NoMemory) => Err(AllocError),
    }
}

/// A transaction has made an access, if it may. The only error is that memory runs out.
pub fn access(
    transactions: &mut Transactions,
    name: &Name,
    access: Access,
) -> Result<bool, NoMemory>
    requires { access.next ≡ None }
    ensures { IfOk result (TakesAccess name.now access transactions.old transactions.new) }
{
    let Some(txn) = active_number(&transactions.tree, name) else {
        return Ok(false);
    };
    let place = transactions.accesses.len();
    transactions.accesses.push(access)?;
    append_at(
        &mut transactions.accesses,
        &mut transactions.chains,
        place_of(txn),
        Chain::one(place),
    );
    Ok(true)
}

/// A transaction commits, if it may. It takes no memory.
pub fn commit(transactions: &mut Transactions, name: &Name) -> bool
    ensures { TakesEffect (Commits name.now) transactions.old transactions.new result }
{
    let Some(txn) = active_number(&transactions.tree, name) else {
        return false;
    };
    if has_live_child_at(&transactions.tree, txn) {
        return false;
    }
    let own = chain_at(&transactions.chains, place_of(txn));
    let above = place_above(&transactions.tree, txn);
    append_at(
        &mut transactions.accesses,
        &mut transactions.chains,
        above,
        own,
    );
    transactions.tree.commit_at(txn);
    true
}

/// A transaction aborts, if it may. It takes no memory.
pub fn abort(transactions: &mut Transactions, name: &Name) -> bool
    ensures { TakesEffect (Aborts name.now) transactions.old transactions.new result }
{
    let Some(txn) = active_number(&transactions.tree, name) else {
        return false;
    };
    let _ = transactions.tree.abort_at(txn);
    true
}
