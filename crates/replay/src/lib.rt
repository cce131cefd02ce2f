//! The program `replay`: runs a layout and a recorded schedule over a simulated disk, and prints each answer
//! and when each request took effect; or audits such a text, of whatever origin, under a layout.
//!
//! The program `trace` takes its input from here: how it is read, what ends a run of it, and with which status.
#![tactic(auto)]

mod audits;
mod endings;
mod heads;
mod makes;
mod programs;
mod schedules;
mod spellings;
mod texts;
mod turns;

pub use endings::{Halt, RunResult, status_of};
pub use heads::{Head, read_head};
pub use programs::{is_word, replay};
pub use schedules::is_memory;
pub use turns::{MOST_LINES, next, write};
