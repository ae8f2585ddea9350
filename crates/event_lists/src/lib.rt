//! Lists of events and of entries, which mostly keep a name once for all that have it.
//! An event has room for a name of 274 bytes, and an entry for two: that of its transaction, and
//! that of an aborted ancestor. A list has their numbers instead, and whoever looks at an event or
//! an entry of it sees the names where they stand.
#![tactic(auto)]

mod entries;
mod events;
mod index;
mod names;
mod view;
mod word;

pub use entries::Entries;
pub use events::Events;
pub use view::{Act, Cause, EntryView, EventView, Said, act_in, cause_of, is_same, name_in};
pub use word::NameWord;
