//! The whole disk over simulated bricks: a schedule's lines are run one after another, and each tells what it
//! marks.
#![tactic(auto)]

mod bricks;
mod call_numbers;
mod calms;
mod deliveries;
mod histories;
mod sendings;
mod simulations;
mod stripe_entries;
mod texts;
mod trails;
mod walks;
mod worlds;

pub use stripe_entries::StripeEntries;
pub use worlds::{StepFault, World};
