//! The durable state of a brick: per group its views and ballots, and per group, view and stripe an order stamp and a log of
//! versions (Frølund et al., "A Decentralized Algorithm for Erasure-Coded Virtual Disks", DSN 2004).
//!
//! Each change is one crash-atomic change: at each moment a crash leaves the state before it or the one after it.
#![tactic(auto)]

mod additions;
mod appends;
mod block_tables;
mod bringing_over;
mod caches;
mod commits;
pub mod faults;
pub mod formats;
mod fresh_lists;
mod index_steps;
mod loading;
pub mod lookups;
mod old_readings;
pub mod openings;
mod readings;
mod rewrites;
mod starts;
mod starts_over;
pub mod states;
pub mod stores;
mod taking_up;

pub use faults::{OpenFault, StoreFault};
pub use formats::{format, format_one};
pub use openings::open_store;
pub use states::State;
pub use stores::BrickStore;
