//! The coordinator of a stripe's recovery: it orders its stamp at a quorum and reads back the greatest version below it that enough
//! blocks are told of, and then stores that version again under its own stamp (Frølund et al., "A Decentralized Algorithm for
//! Erasure-Coded Virtual Disks", DSN 2004, recover). Where nothing is found in the operation's view, it reads back what the members of the
//! view before kept.
#![tactic(auto)]

pub mod recoveries;

pub use recoveries::{Recovering, Recovery, follow};
