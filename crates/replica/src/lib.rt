//! What a brick does as a member of groups, over its durable store: with a request to its part of a stripe (Frølund et al., "A Decentralized
//! Algorithm for Erasure-Coded Virtual Disks", DSN 2004, the storage replica); with a ballot for the successor of a group's view, as an
//! acceptor of the Synod; with a view that it is taught; and once it hears that all stripes are kept in that.
//!
//! A reply is given only once what it promises is kept: at each moment a crash leaves the state before the request, or the one after it.
#![tactic(auto)]

mod courses;
pub mod faults;
pub mod handling;
mod members;
mod plans;
mod seats;
pub mod views;
mod votes;

pub use faults::ReplicaFault;
pub use handling::handle;
pub use views::learn;
