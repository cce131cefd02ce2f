//! The storage protocol as a machine: what a member does with a request, what a coordinator does with a
//! reply, and what a schedule of such steps makes of the whole disk.
#![tactic(auto)]

pub mod phases;
pub mod tellings;

pub use phases::{Counted, Dropper, FullMember, Mover, Phase, Refuser};
pub use tellings::{Answered, Report, ScrubAnswer, SyncAnswer, Told, ViewAnswer};
