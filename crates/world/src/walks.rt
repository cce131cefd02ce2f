//! The walk along a stripe's effective versions, and the happenings that it gives.

ghost use Rattle.std.specs.Prelude.{◌≡◌, IfOk, reverse, option_map, option_copied, option_to_list};
ghost use Rattle.protocol.specs.Worlds.{own_mark};
ghost use Rattle.protocol.specs.Happenings.{ascending, effect_of, was_answered, is_told, base_of, needs};
ghost use Rattle.world.specs.Walks.{HasSwept, operation_of, operations_of, begin_at, placed, happenings_from};

use crate::histories::OperationRecord;
use fab_base::{NoMem, Stamp};
use reg_model::{Entry, Happening};
use std::alloc::Global;
use std::collections::BTreeSet;

/// How far a sweep has come, from a stripe's greatest entry down.
#[derive(Drop)]
pub struct Sweep {
    /// The entries whose operations are told.
    pub told: Vec<Entry>,
    /// The versions that an effective entry reads, or that its own was made on.
    pub needed: BTreeSet<Stamp>,
}

/// What is kept of the operation of a number.
fn kept_of(operations: &[OperationRecord], number: u64) -> Option<&OperationRecord>
    ensures { option_map operation_of (option_copied result) ≡ operations_of operations.now number }
{
    let place = number.checked_sub(1)?;
    operations.get(place as usize)
}

/// Whether the operation of a number has marks, and was answered and not aborted.
fn was_answered(operations: &[OperationRecord], number: u64) -> bool
    ensures { result ≡ was_answered (operations_of operations.now number) }
{
    kept_of(operations, number).is_some_and(|kept| kept.mark > 0 && kept.answered)
}

/// Whether the operation of a number, where it is effective, is told: it has marks, and it was answered, or it writes.
fn is_told(operations: &[OperationRecord], number: u64) -> bool
    ensures { result ≡ is_told (operations_of operations.now number) }
{
    kept_of(operations, number).is_some_and(|kept| kept.mark > 0 && (kept.answered || kept.writes))
}

/// The version that the version of the operation of a number was made on.
fn base_of(operations: &[OperationRecord], number: u64) -> Option<Stamp>
    ensures { result ≡ base_of (operations_of operations.now number) }
{
    kept_of(operations, number)?.base
}

/// The number of the marks of the operation of a number: its own number where there is no such operation.
fn mark_of(operations: &[OperationRecord], number: u64) -> u64
    ensures { result ≡ own_mark number (operations_of operations.now number) }
{
    kept_of(operations, number).map_or(number, |kept| kept.mark)
}

/// Where the operation of a number begins.
fn begin_of(operations: &[OperationRecord], number: u64) -> u64
    ensures { result ≡ begin_at (operations_of operations.now number) }
{
    kept_of(operations, number).map_or(0, |kept| kept.begin)
}

/// The version that an effective entry makes effective: the one that it reads, or that its own was made on.
fn needed_by(operations: &[OperationRecord], entry: Entry) -> Option<Stamp>
    ensures { option_to_list result ≡ needs (operations_of operations.now entry.operation) entry }
{
    if entry.reader {
        Some(entry.stamp)
    } else {
        base_of(operations, entry.operation)
    }
}

impl Sweep {
    ghost use Rattle.std.specs.Prelude.{◌≡◌, ◌||◌, ◌++◌, [], ◌∷◌, OnOk, if◌then◌else◌};
    ghost use Rattle.protocol.specs.Happenings.{Effect, was_answered, is_told, is_among, needs, with_entry};
    ghost use Rattle.world.specs.Walks.{HasSwept, Holds, operations_of};

    /// Nothing swept yet.
    fn new(alloc: Global) -> Sweep
        ensures { HasSwept result (record { told = []; versions = []; needed = [] }) }
    {
        Sweep {
            told: Vec::new(alloc),
            needed: BTreeSet::new(alloc),
        }
    }

    /// Whether an entry above needs this version.
    fn needs(&self, stamp: Stamp) -> bool
        ensures { (above : Effect) → HasSwept self.now above → result ≡ is_among stamp above.needed }
    {
        self.needed.contains(&stamp)
    }

    /// Tells an effective entry, where its operation is told.
    fn tell(&mut self, operations: &[OperationRecord], entry: Entry) -> Result<(), NoMem>
        ensures told { OnOk result ((told : _) → self.old.told.items ≡ reverse told
            → self.new.told.items ≡ reverse (if is_told (operations_of operations.now entry.operation) then entry ∷ told else told)) }
        ensures needed { self.new.needed ≡ self.old.needed }
    {
        if is_told(operations, entry.operation) {
            self.told.push(entry)?;
        }
        Ok(())
    }

    /// Notes the version that an effective entry makes effective.
    fn need(&mut self, operations: &[OperationRecord], entry: Entry) -> Result<(), NoMem>
        ensures needed { OnOk result ((needed : _) → Holds self.old.needed needed
            → Holds self.new.needed (needs (operations_of operations.now entry.operation) entry ++ needed)) }
        ensures told { self.new.told ≡ self.old.told }
    {
        match needed_by(operations, entry) {
            Some(stamp) => {
                self.needed.insert(stamp)?;
                Ok(())
            }
            None => Ok(()),
        }
    }

    /// Takes the entry below those so far. It is effective where its operation was answered, or where its
    /// version is needed.
    fn take(&mut self, operations: &[OperationRecord], entry: Entry) -> Result<(), NoMem>
        ensures { OnOk result ((above : Effect) → HasSwept self.old above
            → HasSwept self.new (with_entry (operations_of operations.now entry.operation) entry above)) }
    {
        if was_answered(operations, entry.operation) || self.needs(entry.stamp) {
            self.tell(operations, entry)?;
            self.need(operations, entry)?;
        }
        Ok(())
    }
}

/// Entries, as they ascend.
fn rising(alloc: Global, entries: &[Entry]) -> Result<Vec<Entry>, NoMem>
    ensures { IfOk result (λ rising. rising.items ≡ ascending entries.now) }
{
    let mut rising = Vec::from_slice(alloc, entries)?;
    rising.sort()?;
    Ok(rising)
}

/// The sweep of entries that ascend, from the greatest down.
fn sweep_down(
    alloc: Global,
    operations: &[OperationRecord],
    entries: &[Entry],
) -> Result<Sweep, NoMem>
    ensures { IfOk result (λ sweep. HasSwept sweep (effect_of (operations_of operations.now) entries.now)) }
{
    let mut sweep = Sweep::new(alloc);
    for entry in entries.iter().rev() {
        sweep.take(operations, *entry)?;
    }
    Ok(sweep)
}

/// The walk along the effective versions of a stripe's entries.
fn walk(
    alloc: Global,
    operations: &[OperationRecord],
    entries: &[Entry],
) -> Result<Vec<Entry>, NoMem>
    ensures { IfOk result (λ walk. walk.items ≡ (effect_of (operations_of operations.now) (ascending entries.now)).told) }
{
    let rising = rising(alloc, entries)?;
    let mut walk = sweep_down(alloc, operations, &rising)?.told;
    walk.reverse();
    Ok(walk)
}

/// The happenings along a walk, by the numbers of marks: each at the greatest begin so far.
fn along(
    alloc: Global,
    operations: &[OperationRecord],
    walk: &[Entry],
) -> Result<Vec<Happening>, NoMem>
    ensures { IfOk result (λ happenings. happenings.items ≡ placed (operations_of operations.now) 0 walk.now) }
{
    let mut happenings = Vec::new(alloc);
    let mut position = 0;
    for entry in walk {
        position = begin_of(operations, entry.operation).max(position);
        happenings.push(Happening {
            operation: mark_of(operations, entry.operation),
            position,
        })?;
    }
    Ok(happenings)
}

/// The happenings of the stripe whose entries these are: along its effective versions by rising stamp, the
/// maker, where it writes or was answered, and then the reads that answered it at once, by number, each at
/// the greatest begin so far.
pub fn happenings(
    alloc: Global,
    operations: &[OperationRecord],
    entries: &[Entry],
) -> Result<Vec<Happening>, NoMem>
    ensures { IfOk result (λ happenings. happenings.items ≡ happenings_from operations.now entries.now) }
{
    let walk = walk(alloc, operations, entries)?;
    along(alloc, operations, &walk)
}
