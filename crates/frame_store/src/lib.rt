//! A store over a disk: a list of frames, each appended whole or not at all, and slots for blocks. A store of the old format, which
//! has blocks among its frames, is read, and brought over.
//!
//! The index, which is the list of frames, stands in one of two halves. An append writes a frame behind a closed gate, syncs,
//! opens the gate and syncs. A rewrite writes a new list in the other half, and then opens that half's header. So whatever a
//! crash leaves at whatever moment opens as the list from before the call or as the one after it.
#![tactic(auto)]

mod buffers;
mod collected;
mod faults;
mod frames;
mod listings;
mod lists;
mod reading;
mod shapes;
mod staging;
mod steps;
mod stores;
mod takers;

pub use collected::Collected;
pub use faults::{FrameFault, OpenFault};
pub use frames::Frame;
pub use lists::FrameList;
pub use shapes::{Form, Half, Shape};
pub use stores::{FrameStore, format, format_one, open_store};
pub use takers::TakesFrames;
