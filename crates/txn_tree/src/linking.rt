//! Where the transactions stand in the tree: what is kept of parents, siblings and children.
ghost use Rattle.std.specs.Prelude.{◌≡◌, ◌<◌, ◌+◌, ◌^◌, [], ◌∷◌, ◌++◌, length, slice_get, IfSome, OnErr, OnOk};
ghost use Rattle.txn_tree.specs.Linked.{begun_node, below, children_in, followed, kept_next, kept_parent, top_with, with_below, with_child, with_one_ended, appended};

use crate::node::{Children, Node};
use crate::number::TxnNo;
use std::alloc::AllocError;

/// The kept number of the parent.
pub(crate) fn parent_in(nodes: &Vec<Node>, txn: TxnNo) -> Option<TxnNo>
    ensures { result ≡ kept_parent (slice_get nodes.now.items txn) }
{
    nodes.get(txn.place() as usize)?.parent
}

/// The kept number of the next sibling.
pub(crate) fn next_in(nodes: &Vec<Node>, txn: TxnNo) -> Option<TxnNo>
    ensures { result ≡ kept_next (slice_get nodes.now.items txn) }
{
    nodes.get(txn.place() as usize)?.next
}

/// What is kept of the children of a transaction.
pub(crate) fn children_at(nodes: &Vec<Node>, txn: TxnNo) -> Children
    ensures { result ≡ children_in (slice_get nodes.now.items txn) }
{
    match nodes.get(txn.place() as usize) {
        Some(node) => node.children,
        None => Children::none(),
    }
}

/// A node for a transaction that begins.
pub(crate) fn add_node(nodes: &mut Vec<Node>, parent: Option<TxnNo>) -> Result<(), AllocError>
    ensures ok { OnOk result (nodes.new.items ≡ nodes.old.items ++ begun_node parent ∷ []) }
    ensures err { OnErr result (nodes.new.items ≡ nodes.old.items) }
{
    let children = Children::none();
    nodes.push(Node {
        parent,
        next: None,
        children,
    })?;
    Ok(())
}

// A child more, of the parent or of the root. It gives who was the last one before.
fn add_child(
    nodes: &mut [Node],
    tops: &mut Children,
    parent: Option<TxnNo>,
    child: TxnNo,
) -> Option<TxnNo>
    requires within { IfSome parent (λ p. p < length nodes.old) }
    requires fits { (below nodes.old tops.old parent).live + 1 < 2 ^ 32 }
    ensures last { result ≡ (below nodes.old tops.old parent).last }
    ensures nodes { nodes.new
        ≡ with_below nodes.old parent (with_child child (below nodes.old tops.old parent)) }
    ensures tops { tops.new
        ≡ top_with tops.old parent (with_child child (below nodes.old tops.old parent)) }
{
    match parent {
        Some(txn) => nodes[txn.place() as usize].children.add(child),
        None => tops.add(child),
    }
}

// Who was last has a next sibling.
fn put_next(nodes: &mut [Node], last: Option<TxnNo>, child: TxnNo)
    requires within { IfSome last (λ l. l < length nodes.old) }
    ensures { nodes.new ≡ followed nodes.old last child }
{
    if let Some(txn) = last {
        nodes[txn.place() as usize].next = Some(child);
    }
}

/// Puts the child behind the others of the parent or of the root.
pub(crate) fn append_child(
    nodes: &mut [Node],
    tops: &mut Children,
    parent: Option<TxnNo>,
    child: TxnNo,
)
    requires within { IfSome parent (λ p. p < length nodes.old) }
    requires last { IfSome (below nodes.old tops.old parent).last (λ l. l < length nodes.old) }
    requires fits { (below nodes.old tops.old parent).live + 1 < 2 ^ 32 }
    ensures nodes { nodes.new ≡ appended nodes.old tops.old parent child }
    ensures tops { tops.new
        ≡ top_with tops.old parent (with_child child (below nodes.old tops.old parent)) }
{
    let last = add_child(nodes, tops, parent, child);
    put_next(nodes, last, child);
}

/// A live child less, of the parent or of the root.
pub(crate) fn end_child(nodes: &mut [Node], tops: &mut Children, parent: Option<TxnNo>)
    requires within { IfSome parent (λ p. p < length nodes.old) }
    requires some { 0 < (below nodes.old tops.old parent).live }
    ensures nodes { nodes.new
        ≡ with_below nodes.old parent (with_one_ended (below nodes.old tops.old parent)) }
    ensures tops { tops.new
        ≡ top_with tops.old parent (with_one_ended (below nodes.old tops.old parent)) }
{
    match parent {
        Some(txn) => nodes[txn.place() as usize].children.end_one(),
        None => tops.end_one(),
    }
}
