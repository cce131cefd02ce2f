//! What a brick keeps, as plain data: how often its store was opened, the views and ballots of each group, and the order stamp
//! and the log of each stripe (Frølund et al., "A Decentralized Algorithm for Erasure-Coded Virtual Disks", DSN 2004); the
//! records that change it, one at a time; and the records that bring it back from nothing.
//!
//! Of a version's block it keeps the slot that the block lies in. It knows no disk.
#![tactic(auto)]

pub mod groups;
pub mod indexes;
mod log_changes;
pub mod records;
mod rewrites;
mod slot_tables;
mod stripe_maps;
mod stripe_tables;
pub mod stripes;
mod top_times;
mod view_stripes;
mod view_tables;

pub use groups::{Group, MOST_GROUPS};
pub use indexes::Index;
pub use records::Record;
pub use stripes::{Entry, FIRST_ENTRY, Place, Stripe, ZERO_SLOT};
