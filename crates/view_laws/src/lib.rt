//! The laws of views: what the members of a view choose to follow it, and what that closes; and their proofs. They speak of bricks, of their messages and of what
//! they accepted, and of no version. `protocol_laws` cites them.
#![tactic(auto)]

pub mod laws;

pub use laws::{
    a_closed_view_stays_closed, a_followed_view_is_said_synced, a_view_has_one_successor,
    every_run_follows_its_views, proposals_show_their_ends,
};
