//! The numbers of the operations of bricks' calls.

ghost use Rattle.std.specs.Prelude.{◌≡◌};

use fab_base::{BrickId, NoMem};
use std::alloc::Global;

/// For each brick that is up, by number, the operations of its calls since it started: the number of each, in the order of the calls, and 0 of a call
/// of no operation. A brick past the end has made no call.
#[derive(Drop)]
pub struct CallNumbers {
    pub rows: Vec<Vec<u64>>,
}

impl CallNumbers {
    ghost use Rattle.std.specs.Prelude.{◌≡◌, ◌++◌, [], ◌∷◌, ℕ, OnOk};
    ghost use Rattle.protocol.specs.Nodes.{put};
    ghost use Rattle.world.specs.CallNumbers.{calls_in, call_at, HasCallRoom};

    /// No brick has made a call.
    pub fn new(alloc: Global) -> CallNumbers
        ensures { (i : ℕ) → calls_in result i ≡ [] }
    {
        CallNumbers {
            rows: Vec::new(alloc),
        }
    }

    /// Makes room for one call more of a brick.
    pub fn reserve(&mut self, alloc: Global, brick: BrickId) -> Result<(), NoMem>
        ensures room { OnOk result (HasCallRoom self.new brick.0) }
        ensures same { (i : ℕ) → calls_in self.new i ≡ calls_in self.old i }
    {
        let place = brick.0 as usize;
        while self.rows.len() <= place {
            self.rows.push(Vec::new(alloc))?;
        }
        let row = &mut self.rows[place];
        row.reserve(1)?;
        Ok(())
    }

    /// A brick's next call is of the operation of this number, or of none if it is 0. There is room for it.
    pub fn add(&mut self, brick: BrickId, number: u64)
        requires { HasCallRoom self.old brick.0 }
        ensures { (i : ℕ) → calls_in self.new i ≡ put (calls_in self.old) brick.0 (calls_in self.old brick.0 ++ number ∷ []) i }
    {
        let row = &mut self.rows[brick.0 as usize];
        row.push_reserved(number);
    }

    /// A brick stops: it has made no call since it started.
    pub fn clear(&mut self, brick: BrickId)
        ensures { (i : ℕ) → calls_in self.new i ≡ put (calls_in self.old) brick.0 [] i }
    {
        let place = brick.0 as usize;
        if place < self.rows.len() {
            let row = &mut self.rows[place];
            row.clear();
        }
    }

    /// The number of the operation of a brick's call, 0 if it is of none. None where there is no such call.
    pub fn number(&self, brick: BrickId, seq: u64) -> Option<u64>
        ensures { result ≡ call_at (calls_in self.now brick.0) seq }
    {
        let place = brick.0 as usize;
        if place < self.rows.len() && seq > 0 {
            let row = &self.rows[place];
            row.get((seq - 1) as usize).copied()
        } else {
            None
        }
    }
}
