//! Who made or read which version of each stripe, gathered in one pass over the operations.

use crate::histories::OperationRecord;
use fab_base::{GroupId, NoMem, StripeNo};
use reg_model::Entry;
use std::alloc::Global;
use std::collections::BTreeMap;

/// The entries of all stripes' operations, by group and stripe, and each stripe's by number.
#[derive(Drop)]
pub struct StripeEntries {
    entries: BTreeMap<(u32, u32), Vec<Entry>>,
}

impl StripeEntries {
    ghost use Rattle.std.specs.Prelude.{◌≡◌, ◌<◌, ◌≤◌, ◌++◌, ℕ, IfOk, OnOk, IfSome, IfNone, Some, length, [], ◌∷◌, nat_eq, ◌&&◌, if◌then◌else◌};
    ghost use Rattle.protocol.specs.Happenings.{entry_at, entries_to};
    ghost use Rattle.world.specs.Walks.{entries_at, operation_of, operations_of};

    /// Gathers the entries of operations, number n at place n - 1.
    pub(crate) fn gather(
        alloc: Global,
        operations: &[OperationRecord],
    ) -> Result<StripeEntries, NoMem>
        ensures { IfOk result (λ gathered. (g s : ℕ)
            → entries_at gathered g s ≡ entries_to (operations_of operations.now) g s (length operations.now)) }
    {
        let mut gathered = StripeEntries {
            entries: BTreeMap::new(alloc),
        };
        for (place, kept) in operations.iter().enumerate() {
            gathered.note(alloc, place as u64 + 1, kept)?;
        }
        Ok(gathered)
    }

    /// Adds the entry of the operation of a number, where it made or read a version.
    fn note(&mut self, alloc: Global, number: u64, kept: &OperationRecord) -> Result<(), NoMem>
        ensures { OnOk result ((g s : ℕ)
            → entries_at self.new g s ≡ entries_at self.old g s ++ entry_at g s number (Some (operation_of kept.now))) }
    {
        match kept.version {
            Some(stamp) => {
                let entry = Entry {
                    stamp,
                    reader: !kept.made,
                    operation: number,
                };
                self.add(alloc, kept.group, kept.stripe, entry)
            }
            None => Ok(()),
        }
    }

    /// Adds an entry behind those of its stripe.
    fn add(
        &mut self,
        alloc: Global,
        group: GroupId,
        stripe: StripeNo,
        entry: Entry,
    ) -> Result<(), NoMem>
        ensures { OnOk result ((g s : ℕ) → entries_at self.new g s
            ≡ entries_at self.old g s ++ (if nat_eq group.0 g && nat_eq stripe.0 s then entry ∷ [] else [])) }
    {
        let place = (group.0, stripe.0);
        let mut entries = self.entries.remove(&place).unwrap_or(Vec::new(alloc));
        entries.push(entry)?;
        self.entries.insert(place, entries)?;
        Ok(())
    }

    /// The entries of a stripe.
    pub(crate) fn of(&self, group: GroupId, stripe: StripeNo) -> &[Entry]
        ensures { result.now ≡ entries_at self.now group.0 stripe.0 }
    {
        match self.entries.get(&(group.0, stripe.0)) {
            Some(entries) => entries.as_slice(),
            None => &[],
        }
    }

    /// The first stripe of a group that has entries, from this number on and below the other.
    pub(crate) fn next_stripe(&self, group: GroupId, from: u32, end: u32) -> Option<StripeNo>
        requires { from ≤ end }
        ensures none { IfNone result ((s : ℕ) → from ≤ s → s < end → entries_at self.now group.0 s ≡ []) }
        ensures some { IfSome result (λ stripe. (from ≤ stripe.0) × (stripe.0 < end)
            × ((s : ℕ) → from ≤ s → s < stripe.0 → entries_at self.now group.0 s ≡ [])) }
    {
        match self.entries.range((group.0, from)..(group.0, end)).next() {
            Some((place, _)) => Some(StripeNo(place.1)),
            None => None,
        }
    }
}
