//! What the coordinators of all operations share: who is asked and how a stripe is coded, which replies count in a phase, the
//! messages of a phase, and how one phase follows another (Frølund et al., "A Decentralized Algorithm for Erasure-Coded Virtual
//! Disks", DSN 2004).
#![tactic(auto)]

mod counting;
mod deciding;
mod forgetting;
pub mod kinds;
pub mod operations;
pub mod replies;
mod reports;
mod sending;
mod stages;
mod versions;

pub use deciding::Decide;
pub use kinds::Coordinated;
pub use operations::{News, Operation, Stage};
pub use stages::MOST_ROUNDS;
pub use versions::told_stamp;
