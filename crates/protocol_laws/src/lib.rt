//! The laws that every run of the storage protocol keeps, and their proofs.
#![tactic(auto)]

pub mod laws;

pub use laws::{every_run_keeps_the_laws, no_event_lowers, no_lost_version_surfaces};
