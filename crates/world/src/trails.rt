//! How far a simulation has come. It stands in proofs alone, and takes no memory.

ghost use Rattle.std.specs.Prelude.{List};
ghost use Rattle.std.specs.Borrow.{ftrue};
ghost use Rattle.std.specs.Coded.{coded_list};
ghost use Rattle.fab_disk.specs.declared.mem_disk.MemDisk.{MemDisk};
ghost use Rattle.fab_disk.specs.contracts.mem_disk.MemDisk as disk;
ghost use Rattle.world.specs.Runs.{Course};

use crate::simulations::{Outcome, Simulation};
use layout::Layout;
use lines::Line;
use std::marker::Model;

/// How far a simulation has come. It has no bytes.
#[derive(Drop)]
pub struct Trail {
    pub ghost course: { Course },
}

impl Model for Trail {
    // It owns nothing. A struct whose ghost field is no fact has to say so.
    ghost also_owns = { λ _. ftrue };
}

/// What disks there were at a moment. It has no bytes.
#[derive(Drop)]
pub struct Shelf {
    pub ghost disks: { List MemDisk } by { coded_list disk.the_row.coded },
}

impl Model for Shelf {
    // It owns nothing, as above.
    ghost also_owns = { λ _. ftrue };
}

impl Shelf {
    ghost use Rattle.std.specs.Prelude.{◌≡◌};
    ghost use Rattle.world.specs.Shown.{disks_of};

    /// The disks of this state.
    pub fn of(_state: &Simulation) -> Shelf
        ensures { result.disks ≡ disks_of _state.now.bricks.items }
    {
        Shelf {}
    }
}

impl Trail {
    ghost use Rattle.std.specs.Prelude.{◌≡◌, [], ◌∷◌, ◌++◌};
    ghost use Rattle.protocol.specs.Worlds.{Event};
    ghost use Rattle.world.specs.Runs.{with_events, world_at};
    ghost use Rattle.world.specs.Shown.{Comes, ComesTo};

    /// No step yet.
    pub fn new() -> Trail
        ensures { result.course ≡ record { steps = []; events = [] } }
    {
        Trail {}
    }

    /// The events more that a line is: which they are was decided by the disks.
    pub fn with(
        _before: &Trail,
        _shelf: &Shelf,
        _layout: &Layout,
        _line: &Line,
        _outcome: &Outcome,
        _state: &Simulation,
    ) -> Trail
        requires { Comes _layout.now (world_at _layout.now _before.now.course) _shelf.now.disks _state.now _line.now _outcome.now }
        ensures { (events : List Event)
            × ComesTo _layout.now (world_at _layout.now _before.now.course) _shelf.now.disks _state.now _line.now _outcome.now events
            × (result.course ≡ with_events _before.now.course events) }
    {
        Trail {}
    }

    /// A line was run, to its end or as far as memory lasted: its events are a step.
    pub fn ended(_before: &Trail, _line: &Line) -> Trail
        ensures { result.course
            ≡ record { steps = _before.now.course.steps ++ record { line = _line.now; events = _before.now.course.events } ∷ []; events = [] } }
    {
        Trail {}
    }
}
