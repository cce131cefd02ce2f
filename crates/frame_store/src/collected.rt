//! A list of frames that is kept in memory.

use crate::frames::Frame;
use crate::takers::TakesFrames;
use fab_base::{Bytes, NoMem};
use std::alloc::Global;

/// Keeps each frame that it takes.
#[derive(Drop)]
pub struct Collected {
    alloc: Global,
    frames: Vec<Frame>,
}

impl Collected {
    ghost use Rattle.std.specs.Prelude.{◌≡◌, []};

    /// No frame yet.
    pub fn new(alloc: Global) -> Collected
        ensures { result.frames.items ≡ [] }
    {
        Collected {
            alloc,
            frames: Vec::new(alloc),
        }
    }

    /// The frames so far.
    pub fn frames(&self) -> &[Frame]
        ensures { result.now ≡ self.now.frames.items }
    {
        self.frames.as_slice()
    }
}

impl TakesFrames for Collected {
    ghost use Rattle.std.specs.Prelude.{◌≡◌, ◌++◌};

    ghost makes = { λ first old frames now. now.frames.items ≡ first.frames.items ++ frames };

    fn begin(&mut self, _old: bool) -> Result<(), NoMem> {
        Ok(())
    }

    fn take(&mut self, kind: u8, body: &[u8]) -> Result<(), NoMem> {
        let body = Bytes::from_slice(self.alloc, body)?;
        self.frames.push(Frame { kind, body })?;
        Ok(())
    }
}
