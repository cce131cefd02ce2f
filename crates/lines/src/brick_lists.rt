// The bricks that a line names.
ghost use Rattle.std.specs.Prelude.{◌≡◌};

use std::marker::Model;

/// The numbers of bricks, in the order in which a line names them, seen as a list.
#[derive(Drop)]
pub struct BrickList {
    items: Vec<u64>,
}

impl Model for BrickList {
    ghost use Rattle.std.specs.Prelude.{List, ℕ};

    ghost Value = { List ℕ };

    ghost view = { λ list. list.items.items };
}

impl BrickList {
    /// The bricks of these numbers.
    pub fn from_vec(items: Vec<u64>) -> BrickList
        ensures { result ≡ items.items }
    {
        BrickList { items }
    }

    /// The numbers of the bricks, to read.
    pub fn as_slice(&self) -> &[u64]
        ensures { result.now ≡ self.now }
    {
        self.items.as_slice()
    }
}
