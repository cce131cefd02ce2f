//! An audit of a text that claims to be what a run of the disk printed: whether its marks are well formed and fit the layout, and whether
//! its happenings make each stripe's blocks plain registers. Nothing is run.
//!
//! The definitions are those that `reg_model::check` decides: `IsWellFormed` and `IsStrict`. The time is that of a sort of the marks and
//! the happenings, where `check` looks through the marks for each.
#![tactic(auto)]

mod crashes;
mod examining;
mod findings;
mod judging;
mod lasts;
mod operations;
mod reviews;
mod sweeps;
mod walks;

pub use examining::{AuditResult, examine};
pub use findings::Finding;
pub use judging::judge;
