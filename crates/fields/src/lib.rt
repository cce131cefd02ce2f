//! One language for the fields of messages and records: numbers from the high byte on, and what is made of them, each with
//! one spelling.
#![tactic(auto)]

pub mod codecs;
pub mod contents;
mod numbers;
pub mod readers;
mod values;

pub use codecs::Field;
pub use contents::{put_block, put_content, take_block, take_content};
pub use readers::{Malformed, ReadFault, Reader};
