//! A list of frames that is held as its bytes.

ghost use Rattle.std.specs.Prelude.{◌≡◌, ◌+◌, ◌^◌, ◌<◌, ◌≤◌, ◌++◌, ◌∷◌, [], length, vec_capacity, IfOk, OnOk, IsOk};
ghost use Rattle.frame_store.specs.Listed.{closed_list, size_of};

use crate::buffers::{OPEN, put_rest};
use crate::frames::Frame;
use crate::listings::Listing;
use fab_base::NoMem;
use std::alloc::{AllocError, Global};
use std::marker::Model;

/// A list of frames that is spelled as it grows: it takes no more memory than its bytes do, and a frame that was added can go.
///
/// A clause sees the frames.
#[derive(Drop)]
pub struct FrameList {
    bytes: Vec<u8>,
    count: usize,
    listing: Listing,
}

impl Model for FrameList {
    ghost use Rattle.std.specs.Prelude.{List};
    ghost use Rattle.frame_store.specs.declared.frames.Frame.{Frame};

    ghost Value = { List Frame };

    ghost view = { λ list. list.listing.frames };

    ghost use Rattle.std.specs.Prelude.{◌≡◌, length};
    ghost use Rattle.frame_store.specs.Listed.{spelled};

    ghost invariant = { λ list. (list.bytes.items ≡ spelled list.listing.frames) × (list.count ≡ length list.listing.frames) };
}

impl FrameList {
    /// No frame yet.
    pub fn new(alloc: Global) -> FrameList
        ensures { result ≡ [] }
    {
        FrameList {
            bytes: Vec::new(alloc),
            count: 0,
            listing: Listing::new(),
        }
    }

    /// No frame yet, and room for so many bytes.
    pub fn with_room(alloc: Global, bytes: usize) -> Result<FrameList, NoMem>
        ensures { IfOk result (λ list. list ≡ []) }
    {
        Ok(FrameList {
            bytes: Vec::with_capacity(alloc, bytes)?,
            count: 0,
            listing: Listing::new(),
        })
    }

    /// Adds a frame.
    pub fn push(&mut self, frame: &Frame) -> Result<(), NoMem>
        requires { length frame.now.body < 2 ^ 32 }
        ensures { OnOk result (self.new ≡ self.old ++ frame.now ∷ []) }
    {
        let body = frame.body.as_slice();
        self.bytes.reserve(body.len() + 6)?;
        self.bytes.push(OPEN).unwrap();
        put_rest(&mut self.bytes, frame.kind, body);
        self.count += 1;
        self.listing = Listing::with(&self.listing, &frame.kind, body);
        Ok(())
    }

    /// How many frames it has.
    pub(crate) fn len(&self) -> usize
        ensures { result ≡ length self.now }
    {
        self.count
    }

    // How many bytes the frames are, with their gates.
    pub(crate) fn size(&self) -> usize
        ensures { result ≡ size_of self.now }
    {
        self.bytes.len()
    }

    // The frames with open gates, and a closed gate.
    pub(crate) fn put(&self, line: &mut Vec<u8>) -> Result<(), AllocError>
        requires short { size_of self.now < 2 ^ 32 }
        ensures made { OnOk result (line.new.items ≡ closed_list self.now) }
        ensures enough { size_of self.now + 1 ≤ vec_capacity line.old → IsOk result }
        ensures capacity { vec_capacity line.old ≤ vec_capacity line.new }
    {
        line.clear();
        line.reserve(self.bytes.len() + 1)?;
        line.extend_from_slice(&self.bytes).unwrap();
        line.push(0).unwrap();
        Ok(())
    }

    // The frames alone, as proofs see them: the bytes are given back.
    pub(crate) fn into_listing(self) -> Listing
        ensures { result.frames ≡ self }
    {
        let FrameList {
            bytes: _,
            count: _,
            listing,
        } = self;
        listing
    }
}
