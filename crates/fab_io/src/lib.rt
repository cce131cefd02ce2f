//! The ends of a program: where its bytes come from and where they go, the link over which it sends and receives datagrams,
//! and its clock.
//!
//! [`Source`], [`Sink`], [`Link`] and [`Clock`] are what a program asks of them. [`Source`] and [`Sink`] have each a kind in
//! memory, which tells what it holds and fails where it is told to, and an adapter over the readers and writers of std,
//! as standard input and output.
#![tactic(auto)]

mod calls;
mod clocks;
mod commands;
mod ends;
mod fault;
mod links;
mod memory;
mod scripts;
mod standard;
mod system;

pub use calls::Calls;
pub use clocks::Clock;
pub use commands::{NO_MEMORY, command_words};
pub use ends::{Sink, Source};
pub use fab_base::IoFault;
pub use fault::raise;
pub use links::{Datagram, Link};
pub use memory::{MemSink, MemSource};
pub use scripts::{MemClock, MemLink};
pub use standard::{BufferedSource, StdSink, StdSource};
pub use system::{FileSource, MOST_WAIT, SystemClock, UdpLink};
