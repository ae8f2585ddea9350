//! Bytes: held in a value, handed to a writer, and given by a reader.
#![tactic(auto)]

mod bytes;
mod call;
mod copy;
mod held;
mod same;
mod sink;
mod sinks;
mod source;
mod texts;

pub use bytes::Bytes;
pub use call::Sink;
pub use held::Held;
pub use same::are_same;
pub use sink::{WriteFault, put};
pub use source::{MOST_READS, ReadFault, Source};
pub use texts::compare_texts;
