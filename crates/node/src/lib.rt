//! One brick over its durable store: its parts of stripes, the operations that it coordinates, its proposal of a view's successor, its synchronisation of a view,
//! and its scrub of a stripe. Each step computes exactly what the protocol's machine says, from the brick's own state and the message alone, and what it keeps is kept before it
//! answers.
#![tactic(auto)]

pub mod call_sources;
pub mod faults;
pub mod jobs;
mod learnt_views;
mod movers;
pub mod nodes;
mod numbered;
pub mod open_calls;
pub mod open_work;
pub mod operations;
pub mod outs;
pub mod proposals;
mod refusals;
pub mod scrubs;
mod sending;
pub mod tasks;
mod teaching;

pub use faults::NodeFault;
pub use nodes::Node;
pub use operations::Operation;
pub use outs::{Begun, Outs, Tellings};
