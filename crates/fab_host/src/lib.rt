//! Hosts: what opens the sources, disks, links, sessions and clocks of a program, and takes them back before it ends.
//!
//! [`Host`] is what a program asks of one. [`MemHost`] is one in memory, whose links and clock follow scripts; it tells what
//! it holds. [`OsHost`] opens files, UDP and TCP ports and the clock of the system.
#![tactic(auto)]

mod asking;
mod hosts;
mod mem_host;
mod os_host;
mod os_links;
mod slots;

pub use hosts::{Asked, Connection, Host};
pub use mem_host::MemHost;
pub use os_host::{OsHost, OsSource};
pub use os_links::OsLink;
