//! The law of agreement on one value by ballots, promises and votes, and its proof. It speaks of no message. `view_synod` cites it.
#![tactic(auto)]

pub mod laws;

pub use laws::two_chosen_agree;
