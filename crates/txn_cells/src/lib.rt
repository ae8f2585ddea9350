//! A cell for each transaction and key, made beforehand, so that what a transaction has at a key is
//! set, inherited and dropped without memory.
#![tactic(auto)]

mod cells;
mod few_cells;
mod few_contents;
mod inherit;
mod key_cells;
mod key_lists;
mod many_cells;
mod many_numbers;
mod marks;
mod numbers;
mod places;
mod table;
mod taking;

pub use inherit::Inherit;
pub use key_cells::KeyCells;
pub use table::CellTable;
