//! The lines of a schedule: what each says, and how they are read one after another from a source of bytes.
#![tactic(auto)]

mod brick_lists;
mod contents;
mod forms;
mod reader;
mod tokens;

pub use brick_lists::BrickList;
pub use contents::{content_of, is_layout_end};
pub use forms::{Access, Fault, LINE_LIMIT, Line, parse};
pub use reader::{LineReader, NextLine, READ_LEN};
pub use tokens::{parse_hex, parse_number, split};
