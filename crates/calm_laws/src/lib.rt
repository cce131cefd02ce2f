//! The laws of an operation that runs alone, and their proofs: it is answered, its Collects leave one version, and a scrub
//! is clean, or has repaired.
#![tactic(auto)]

pub mod laws;

pub use laws::{calm_operations_end, collects_leave_one, scrubs_end_alone};
