// The happenings that a line names.
ghost use Rattle.std.specs.Prelude.{◌≡◌};

use reg_model::Happening;
use std::marker::Model;

/// Happenings in the order in which a line names them, seen as a list.
#[derive(Drop)]
pub struct HappeningList {
    items: Vec<Happening>,
}

impl Model for HappeningList {
    ghost use Rattle.std.specs.Prelude.{List};
    ghost use Rattle.reg_model.specs.declared.marks.Happening.{Happening};

    ghost Value = { List Happening };

    ghost view = { λ list. list.items.items };
}

impl HappeningList {
    /// These happenings.
    pub fn from_vec(items: Vec<Happening>) -> HappeningList
        ensures { result ≡ items.items }
    {
        HappeningList { items }
    }

    /// The happenings, to read.
    pub fn as_slice(&self) -> &[Happening]
        ensures { result.now ≡ self.now }
    {
        self.items.as_slice()
    }
}
