//! An erasure code: a stripe of m data blocks is kept as n coded blocks, any m of which give the stripe back (I. S. Reed,
//! G. Solomon, "Polynomial codes over certain finite fields", 1960; `encode`, `decode` and `modify` of S. Frølund et al.,
//! "A decentralized algorithm for erasure-coded virtual disks", 2004).
//!
//! Per byte place the m data bytes are the values, at the points 0 to m - 1, of one polynomial of degree below m over the
//! field of 256 elements, and byte k of the codeword is its value at k. So blocks 0 to m - 1 are the data blocks. No call
//! takes memory.
#![tactic(auto)]

mod code;
mod decoding;
mod encoders;
mod writing;

pub use code::{Code, MAX_BLOCKS, MAX_DATA_BLOCKS};
pub use encoders::Encoder;
