//! How many versions name each slot, and which slot is the least that none names.

ghost use Rattle.std.specs.Prelude.{◌≡◌, ◌≢◌, ℕ, [], ◌+◌, ◌-◌, ◌*◌, ◌<◌, ◌≤◌, IfOk, OnOk, length, slice_set, slice_index_or, nat_lt};
ghost use Rattle.brick_state.specs.SlotTrees.{IsTree, IsTreeOf, IsLeastUnused, leaf};

use fab_base::NoMem;
use std::alloc::Global;
use std::marker::Model;

// What a node has where none of its slots is free.
const NONE: u32 = 4294967295;

/// A count for each slot below the table's length. Changing one takes logarithmic time, finding the least slot with the count 0 takes constant time, and
/// neither takes memory.
#[derive(Drop)]
pub struct SlotTable {
    counts: Vec<u32>,
    least: Vec<u32>,
}

impl Model for SlotTable {
    ghost use Rattle.std.specs.Prelude.{List, ℕ};
    ghost use Rattle.brick_state.specs.SlotTrees.{IsTreeOf};

    ghost Value = { List ℕ };

    ghost view = { λ table. table.counts.items };

    ghost invariant = { λ table. IsTreeOf table.least.items table.counts.items };
}

impl SlotTable {
    /// A table of no slots. It takes no memory.
    pub fn new(alloc: Global) -> SlotTable
        ensures { result ≡ [] }
    {
        SlotTable {
            counts: Vec::new(alloc),
            least: Vec::new(alloc),
        }
    }

    /// How many slots there are.
    pub fn len(&self) -> usize
        ensures value { result ≡ length self.now }
        ensures few { length self.now ≤ 4294967295 }
    {
        self.counts.len()
    }

    /// Makes it a table of so many slots: no version names those that are new.
    pub fn grow(&mut self, alloc: Global, slots: usize) -> Result<(), NoMem>
        requires more { length self.old ≤ slots }
        requires few { slots ≤ 4294967295 }
        ensures same { (slot : ℕ) → slice_index_or self.new slot 0 ≡ slice_index_or self.old slot 0 }
        ensures longer { length self.old ≤ length self.new }
        ensures most { length self.new ≤ slots }
        ensures slots { OnOk result (length self.new ≡ slots) }
    {
        let more = slots - self.counts.len();
        self.counts.reserve(more)?;
        let least = build(alloc, &self.counts, slots)?;
        let _ = self.counts.resize(slots, 0);
        self.least = least;
        Ok(())
    }

    /// Whether there is such a slot.
    pub fn has(&self, slot: u32) -> bool
        ensures { result ≡ nat_lt slot (length self.now) }
    {
        (slot as usize) < self.counts.len()
    }

    /// Whether a version names the slot.
    pub fn is_taken(&self, slot: u32) -> bool
        ensures { result ≡ nat_lt 0 (slice_index_or self.now slot 0) }
    {
        (slot as usize) < self.counts.len() && self.counts[slot as usize] > 0
    }

    /// Counts a version more for a slot, where there is such a slot.
    pub fn take(&mut self, slot: u32)
        requires { slice_index_or self.old slot 0 < 4294967295 }
        ensures { self.new ≡ slice_set self.old slot (slice_index_or self.old slot 0 + 1) }
    {
        if (slot as usize) < self.counts.len() {
            let count = self.counts[slot as usize];
            self.set(slot as usize, count + 1);
        }
    }

    /// Counts a version less for a slot, where there is such a slot.
    pub fn release(&mut self, slot: u32)
        ensures { self.new ≡ slice_set self.old slot (slice_index_or self.old slot 0 - 1) }
    {
        if (slot as usize) < self.counts.len() {
            let count = self.counts[slot as usize];
            self.set(slot as usize, count.saturating_sub(1));
        }
    }

    /// The least slot with the count 0, or the length where there is none.
    pub fn first_free(&self) -> u32
        ensures { IsLeastUnused self.now result }
    {
        if self.counts.is_empty() {
            return 0;
        }
        first_in(self.least[1], self.counts.len())
    }

    fn set(&mut self, slot: usize, count: u32)
        requires { slot < length self.old }
        ensures { self.new ≡ slice_set self.old slot count }
    {
        let slots = self.counts.len();
        self.counts[slot] = count;
        put_leaf(&mut self.least, slots, slot, leaf(slot, count));
    }
}

// Writes the node of a slot, and those above it.
fn put_leaf(least: &mut Vec<u32>, slots: usize, slot: usize, value: u32)
    requires tree { IsTree slots least.old.items }
    requires within { slot < slots }
    ensures tree { IsTree slots least.new.items }
    ensures leaves { (i : ℕ) → slots ≤ i → slice_index_or least.new.items i 0 ≡ slice_index_or (slice_set least.old.items (slots + slot) value) i 0 }
{
    least[slots + slot] = value;
    let mut node = slots + slot;
    while node > 1 {
        node /= 2;
        least[node] = least[2 * node].min(least[2 * node + 1]);
    }
}

// What the node of a slot has.
fn leaf(slot: usize, count: u32) -> u32
    requires { slot ≤ 4294967295 }
    ensures { result ≡ leaf slot count }
{
    if count == 0 { slot as u32 } else { NONE }
}

// The slot that the first node tells, or the number of slots where that has none.
fn first_in(root: u32, slots: usize) -> u32
    requires { slots ≤ 4294967295 }
    ensures none { root ≡ 4294967295 → result ≡ slots }
    ensures one { root ≢ 4294967295 → result ≡ root }
{
    if root == NONE { slots as u32 } else { root }
}

fn count_of(counts: &[u32], slot: usize) -> u32
    ensures { result ≡ slice_index_or counts.now slot 0 }
{
    counts.get(slot).copied().unwrap_or(0)
}

// The tree of so many slots with these counts, where those past the end have none.
fn build(alloc: Global, counts: &[u32], slots: usize) -> Result<Vec<u32>, NoMem>
    requires few { slots ≤ 4294967295 }
    ensures tree { IfOk result (λ least. IsTree slots least.items) }
    ensures leaves { IfOk result (λ least. (slot : ℕ) → slot < slots
        → slice_index_or least.items (slots + slot) 0 ≡ leaf slot (slice_index_or counts.now slot 0)) }
{
    let mut least = vec![in alloc; 0u32; 2 * slots]?;
    let mut node = 2 * slots;
    while node > 1 {
        node -= 1;
        least[node] = if node < slots {
            least[2 * node].min(least[2 * node + 1])
        } else {
            leaf(node - slots, count_of(counts, node - slots))
        };
    }
    Ok(least)
}
