//! A list whose members keep their slots in memory. A member that comes or goes moves no other one,
//! but only the numbers that give the order.
#![tactic(auto)]

mod list;
mod slots;

pub use list::SlotList;
