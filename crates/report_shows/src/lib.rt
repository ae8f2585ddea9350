//! What is printed of what became of a report's transactions: as lines, or as a picture. A report
//! is given by its bytes.
#![tactic(auto)]

mod doing;
mod drawing;
mod showing;

pub use drawing::draw_report;
pub use showing::{Show, show_report};
pub use tree_lines::Choice;
