//! The synchronisation of a group's view: a brick reads each stripe of the group in that view, one after another, and a read stores in the view what it finds in
//! the view before alone (Saito et al., "FAB: Building Distributed Enterprise Disk Arrays from Commodity Components", ASPLOS 2004, section 5). Then the view
//! before is needed no more.
//!
//! A job says which stripe is read next, and how all of it ends. The reads are its brick's.
#![tactic(auto)]

pub mod answers;
pub mod jobs;

pub use answers::{JobEnd, JobNext, SyncAnswer};
pub use jobs::Job;
