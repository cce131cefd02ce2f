//! Frames.

use fab_base::Bytes;

/// One entry of a store's list: a kind, and a body of bytes.
#[derive(Drop)]
pub struct Frame {
    /// What the body says is the caller's affair.
    pub kind: u8,
    /// The bytes.
    pub body: Bytes,
}
