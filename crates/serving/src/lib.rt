//! A running brick over a link and a clock: each turn looks for a datagram and reads the clock, and does what the protocol's machine says of
//! what came. Clients are answered when their operations end.
#![tactic(auto)]

mod clients;
mod faults;
mod incomings;
mod looking;
mod ports;
mod sending;
mod servers;
mod serving_turns;
mod spellings;
mod turns;

pub use clients::Client;
pub use faults::ServeFault;
pub use incomings::Incoming;
pub use looking::MOST_BYTES;
pub use ports::Ports;
pub use servers::Server;
pub use spellings::has_spelling;
pub use turns::serve;
