//! Volumes.

ghost use Rattle.std.specs.Prelude.{◌≡◌, IfOk, string_bytes};

use fab_base::{NoMem, Segment};
use std::alloc::Global;
use std::marker::Model;

/// A volume: stripes that a client sees as one run of bytes.
#[derive(Drop)]
pub struct Volume {
    name: String,
    segments: Vec<Segment>,
}

impl Model for Volume {
    ghost use Rattle.std.specs.Prelude.{string_bytes};
    ghost use Rattle.fab_base.specs.Layouts.{Volume};

    ghost Value = { Volume };

    ghost view = { λ volume. record { name = string_bytes volume.name; segments = volume.segments.items } };
}

impl Volume {
    // A volume of this name and these stripes.
    pub(crate) fn new(name: String, segments: Vec<Segment>) -> Volume
        ensures { result ≡ record { name = string_bytes name; segments = segments.items } }
    {
        Volume { name, segments }
    }

    /// The name, in letters `a` to `z`, digits and `-`.
    pub fn name(&self) -> &str
        ensures { result.now ≡ self.now.name }
    {
        self.name.as_str()
    }

    /// The stripes that hold the volume's bytes, in order.
    pub fn segments(&self) -> &[Segment]
        ensures { result.now ≡ self.now.segments }
    {
        self.segments.as_slice()
    }

    /// An equal value.
    ///
    /// # Errors
    ///
    /// `NoMemory` where no memory was left.
    pub fn copy(&self, alloc: Global) -> Result<Volume, NoMem>
        ensures { IfOk result (λ made. made ≡ self.now) }
    {
        Ok(Volume {
            name: String::from_str(alloc, self.name.as_str())?,
            segments: Vec::from_slice(alloc, &self.segments)?,
        })
    }
}
