//! A line of a schedule that is run, with what it did.

ghost use Rattle.std.specs.Prelude.{IfOk};
ghost use Rattle.trace_runs.specs.LineRuns.{StepsTo, IsLineRun};

use crate::journals::Journal;
use crate::line_effects::{Before, LineEffects};
use fab_base::{Bytes, NoMem};
use std::alloc::Global;
use world::{StepFault, World};

/// A line that was run.
pub struct LineRun {
    /// What it did.
    pub effects: LineEffects,
    /// What `replay` prints for it.
    pub printed: Bytes,
}

impl Drop for LineRun {
    fn drop(self) {
        let Self {
            effects: _,
            printed: _,
        } = self;
    }
}

/// Runs a line, and answers what `replay` prints for it. None where it is no line.
fn step(world: &mut World, content: &[u8]) -> Result<Option<Bytes>, NoMem>
    ensures { IfOk result (StepsTo world.old world.new content.now) }
{
    match world.step(content) {
        Ok(printed) => Ok(Some(printed)),
        Err(StepFault::BadLine) => Ok(None),
        Err(StepFault::NoMemory) => Err(NoMem::NoMemory),
    }
}

/// Whether `replay` prints for a line that it did nothing.
fn is_idle(printed: &Bytes) -> bool {
    printed.as_slice() == b"idle\n".as_slice()
}

/// Runs a line, and answers what it did. None where it is no line.
pub fn take_line(
    alloc: Global,
    world: &mut World,
    journal: &mut Journal,
    content: &[u8],
) -> Result<Option<LineRun>, NoMem>
    ensures { IfOk result (IsLineRun world.old world.new content.now) }
{
    let before = Before::of(world);
    match step(world, content)? {
        Some(printed) => {
            let is_idle = is_idle(&printed);
            let effects = LineEffects::of(alloc, world, journal, before, content, is_idle)?;
            Ok(Some(LineRun { effects, printed }))
        }
        None => Ok(None),
    }
}
