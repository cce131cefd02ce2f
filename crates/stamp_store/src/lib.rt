//! What a brick keeps besides its blocks: the count of its store's openings, views, ballots and order stamps, and the
//! changes of its logs, as bytes; and where its new stamps come from.
#![tactic(auto)]

pub mod kept_records;
pub mod log_records;
pub mod stamp_sources;

pub use kept_records::Kept;
pub use log_records::{LogChange, Logged};
pub use stamp_sources::{StampSource, stamps_differ};
