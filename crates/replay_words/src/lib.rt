//! The words of the program `replay`: what they ask for.
#![tactic(auto)]

pub mod requests;

pub use requests::{Request, request_of};
