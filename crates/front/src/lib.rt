//! A client's view of a volume: a run of its bytes is read or written by operations on stripes and on single data blocks.
#![tactic(auto)]

mod pieces;
pub mod ranges;
pub mod steps;

pub use ranges::Range;
pub use steps::{RangeAnswer, RangeStep, Why};
