//! Sessions run over a manager, and the report of a finished run.
//!
//! `Turns` are sessions under way: any session's next line may be attempted at any time.
//! `run_schedule` runs sessions from the store to the report: by a list of attempts first, and then
//! in rounds until no line is left. `Progress` is what is kept beside the sessions where these
//! grow.
#![tactic(auto)]

mod attempt;
mod crowd;
mod noting;
mod progress;
mod ready;
mod report;
mod run;
mod schedule;
mod served;
mod turns;

pub use progress::Progress;
pub use run::{RunFault, run_opened, run_schedule};
pub use schedule::settle;
pub use served::ServeFault;
pub use turns::{Turn, Turns};
