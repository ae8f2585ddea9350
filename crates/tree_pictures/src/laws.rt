//! What the rows of a picture have, each as the contract of a function that does nothing.
ghost use Rattle.tree_pictures.specs.Laws.{RowsAreFew, RowsHaveAll};

/// Read row by row, the bars are the transactions that are shown: each once, and in the order of
/// the tree.
pub fn rows_have_all()
    ensures { RowsHaveAll }
{}

/// There are 2,000 rows at most.
pub fn rows_are_few()
    ensures { RowsAreFew }
{}
