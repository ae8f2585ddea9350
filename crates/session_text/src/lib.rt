//! Session texts: which bytes are a list of sessions, and for all others the line and the kind of
//! their first fault.
//!
//! A text is lines, each with a line feed behind it. A header `session LABEL` starts a session, and
//! the command lines up to the next header are its lines: `begin N`, `get N K`, `set N K V`,
//! `add N K V`, `del N K`, `sum N G`, `commit N`, `abort N`, `after N begun` and `after N done`,
//! where N is a name, K a key, V a number and G a group. Words stand one space apart. Each line has
//! one spelling. There are at most 64 sessions, each with a label of its own and at most 1,024
//! lines.
//!
//! Sessions also grow while they run: `Sessions` takes one more session or one more line of a
//! session. A request `LABEL LINE` asks for such a line of the session with this label.
#![tactic(auto)]

mod fault;
mod header;
pub mod laws;
mod request;
mod sessions;

pub use fault::TextFault;
pub use line_language::{Line, LineKind, cut, cut_line, parse_event, parse_line, parse_number};
pub use request::parse_request;
pub use sessions::Sessions;
