//! Bricks of a layout, hosted by one process, and a client that runs commands over them.
#![tactic(auto)]

mod answers;
mod clients;
mod commands;
mod faults;
mod hosted_bricks;
mod hosts;
mod reading;
mod replies;
mod rooms;
mod rounds;

pub use clients::ClientEnd;
pub use commands::{Access, Command, Line, parse};
pub use faults::HostFault;
pub use hosted_bricks::{HostedBricks, TimedBricks};
pub use hosts::{host, write};
pub use rooms::Room;
pub use rounds::{Bricks, HostedClient};
