//! Schedules that are drawn: each line by a generator that a seed begins, and by how many messages were sent before it.
#![tactic(auto)]

pub mod disks;
pub mod makers;

pub use disks::{DISK, made_disk};
pub use makers::Maker;
