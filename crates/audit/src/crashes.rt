//! The crashes of a brick.

ghost use Rattle.std.specs.Prelude.{◌≡◌, ◌++◌, ◌∷◌, [], OnOk, length, slice_get};

use fab_base::NoMem;
use std::alloc::Global;
use std::marker::Model;

/// The positions of a brick's crashes, seen as a list.
#[derive(Drop)]
pub(crate) struct CrashList {
    positions: Vec<u64>,
}

impl Model for CrashList {
    ghost use Rattle.std.specs.Prelude.{List, ℕ};

    ghost Value = { List ℕ };

    ghost view = { λ list. list.positions.items };
}

impl CrashList {
    /// No crash so far.
    pub(crate) fn new(alloc: Global) -> CrashList
        ensures { result ≡ [] }
    {
        CrashList {
            positions: Vec::new(alloc),
        }
    }

    /// How many there are.
    pub(crate) fn len(&self) -> usize
        ensures { result ≡ length self.now }
    {
        self.positions.len()
    }

    /// The crash of this place, if there is one.
    pub(crate) fn get(&self, place: usize) -> Option<u64>
        ensures { result ≡ slice_get self.now place }
    {
        self.positions.as_slice().get(place).copied()
    }

    /// Adds one behind the others.
    pub(crate) fn push(&mut self, position: u64) -> Result<(), NoMem>
        ensures { OnOk result (self.new ≡ self.old ++ position ∷ []) }
    {
        self.positions.push(position)?;
        Ok(())
    }
}
