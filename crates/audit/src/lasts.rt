//! The last mark of each stripe.

use crate::operations::Operation;
use fab_base::NoMem;
use std::alloc::Global;
use std::collections::BTreeMap;
use transcript::ParsedMark;

/// One past the last mark of each stripe, and one past the last crash, which is a mark of every stripe.
#[derive(Drop)]
pub(crate) struct LastMarks {
    stripes: BTreeMap<(u64, u64), u64>,
    crash: u64,
}

impl LastMarks {
    ghost use Rattle.std.specs.Prelude.{◌≡◌, ℕ, ◌+◌, ◌≤◌, OnOk, max, nat_eq, ◌&&◌, if◌then◌else◌, slice_get};
    ghost use Rattle.audit.specs.Lasts.{last_at, is_of, touches};

    /// Before any mark.
    pub(crate) fn new(alloc: Global) -> LastMarks
        ensures { (g s : ℕ) → last_at result g s ≡ 0 }
    {
        LastMarks {
            stripes: BTreeMap::new(alloc),
            crash: 0,
        }
    }

    /// One past the last mark of a stripe; 0 where it has none.
    pub(crate) fn past(&self, group: u64, stripe: u64) -> u64
        ensures { result ≡ last_at self.now group stripe }
    {
        match self.stripes.get(&(group, stripe)) {
            Some(past) => (*past).max(self.crash),
            None => self.crash,
        }
    }

    /// A mark of a stripe has come, this being one past it.
    fn touch(&mut self, group: u64, stripe: u64, past: u64) -> Result<(), NoMem>
        ensures { OnOk result ((g s : ℕ) → last_at self.new g s
            ≡ (if nat_eq group g && nat_eq stripe s then max past self.old.crash else last_at self.old g s)) }
    {
        self.stripes.insert((group, stripe), past)?;
        Ok(())
    }

    /// A mark has come, of the operations that were found by then, this being one past it.
    pub(crate) fn take(
        &mut self,
        found: &[Operation],
        claim: &ParsedMark,
        past: u64,
    ) -> Result<(), NoMem>
        requires { (g s : ℕ) → last_at self.old g s ≤ past }
        ensures { OnOk result ((g s : ℕ) → last_at self.new g s ≡ (if touches found.now claim.now g s then past else last_at self.old g s)) }
    {
        match claim {
            ParsedMark::Begin { group, stripe, .. } => self.touch(*group, *stripe, past),
            ParsedMark::End { operation, .. } => match operation.checked_sub(1) {
                Some(at) => self.touch_of(found, at as usize, past),
                None => self.touch_of(found, 0, past),
            },
            ParsedMark::Crash { .. } => {
                self.crash = past;
                Ok(())
            }
        }
    }

    /// A mark of the stripe of the operation at a place has come.
    fn touch_of(&mut self, found: &[Operation], at: usize, past: u64) -> Result<(), NoMem>
        ensures { OnOk result ((g s : ℕ) → last_at self.new g s
            ≡ (if is_of g s (slice_get found.now at) then max past self.old.crash else last_at self.old g s)) }
    {
        match found.get(at) {
            Some(operation) => self.touch(operation.group, operation.stripe, past),
            None => Ok(()),
        }
    }
}
