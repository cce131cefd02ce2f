//! A client's session over NBD, served by the bricks that a process hosts.
#![tactic(auto)]

mod sessions;

pub use sessions::serve_session;
