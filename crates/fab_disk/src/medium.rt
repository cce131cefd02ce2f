// Bytes in memory that remember each change, so that it can be undone.
ghost use Rattle.std.specs.Prelude.{◌≡◌, ◌+◌, ◌≤◌, ◌^◌, ◌++◌, [], length, slice_range, reverse, vec_len, vec_capacity, false, ◌&&◌, nat_le, nat_lt, IsTrue, OnOk, OnErr};
ghost use Rattle.fab_disk.specs.Past.{past_in, Fits, Fits-prop};
ghost use Rattle.fab_disk.specs.Held.{KeepsPages, KeepsPages-prop, KeepsEdge, KeepsEdge-prop};
ghost use Rattle.fab_disk.specs.Stored.{shown};

use crate::pages::Pages;
use crate::scattering::scatter_all;
use std::alloc::{AllocError, Global};

// A write: its range, how many bytes stood in the range before, and how long the content was.
#[derive(Clone, Copy)]
pub struct Overwrite {
    pub at: usize,
    pub len: usize,
    pub kept: usize,
    pub length_before: usize,
}

impl Overwrite {
    // Whether the place lies in the range.
    pub fn covers(&self, place: usize) -> bool
        ensures { result ≡ (nat_le self.now.at place && nat_lt place (self.now.at + self.now.len)) }
    {
        self.at <= place && place - self.at < self.len
    }
}

#[derive(Clone, Copy)]
pub enum Step {
    Wrote(Overwrite),
    Synced,
}

#[derive(Drop)]
pub struct Medium {
    pub content: Pages,
    pub steps: Vec<Step>,
    // What stood in the written ranges before, one after the other.
    pub saved: Vec<u8>,
    ghost fits: { Fits (past_in steps.items saved.items) content.len } by { Fits-prop (past_in steps.items saved.items) content.len },
    ghost written: { KeepsPages content (past_in steps.items saved.items) } by { KeepsPages-prop content (past_in steps.items saved.items) },
    ghost seam: { KeepsEdge content (past_in steps.items saved.items) } by { KeepsEdge-prop content (past_in steps.items saved.items) },
}

impl Medium {
    ghost use Rattle.std.specs.Prelude.{ℕ, List, ◌≤◌, ◌<◌, ◌+◌, ◌∷◌, [], take, drop, length};
    ghost use Rattle.fab_disk.specs.Disk.{written, KeepsRoom};
    ghost use Rattle.fab_disk.specs.Past.{wrote, synced, IsImage, IsSettled};
    ghost use Rattle.fab_disk.specs.Settled.{rolled_back, settled_at};
    ghost use Rattle.fab_disk.specs.Medium.{past, HasRoom, IsWrittenOver};

    pub fn new(alloc: Global, content: Vec<u8>) -> Self
        ensures content { shown result.content ≡ content.items }
        ensures past { past result ≡ [] }
    {
        Medium {
            content: Pages::new(alloc, content),
            steps: Vec::new(alloc),
            saved: Vec::new(alloc),
        }
    }

    // Room for so many calls, with so many bytes in all and ends at most `end`.
    pub fn reserve(&mut self, calls: usize, bytes: usize, end: usize) -> Result<(), AllocError>
        ensures made { OnOk result (HasRoom self.new calls bytes end) }
        ensures room { (c b e : ℕ) → HasRoom self.old c b e → HasRoom self.new c b e }
        ensures enough { OnErr result (HasRoom self.old calls bytes end → ⊥) }
        ensures content { shown self.new.content ≡ shown self.old.content }
        ensures past { past self.new ≡ past self.old }
    {
        self.steps.reserve(calls)?;
        self.saved.reserve(bytes)?;
        self.content.reserve(calls, bytes, end)
    }

    // Writes over what is there. A gap behind the old end is filled with zeros.
    pub fn overwrite(&mut self, at: usize, from: &[u8])
        requires reach { at + length from.now ≤ 2 ^ 48 }
        requires room { HasRoom self.old 1 (length from.now) (at + length from.now) }
        ensures content { shown self.new.content ≡ written at from.now (shown self.old.content) }
        ensures past { IsWrittenOver at (length from.now) (past self.old) (past self.new) (shown self.old.content) (shown self.new.content) }
        ensures room { (c b e : ℕ) → at + length from.now ≤ e → HasRoom self.old (c + 1) (b + length from.now) e → HasRoom self.new c b e }
    {
        let length_before = self.content.len;
        let start = at.min(length_before);
        let kept = (at + from.len()).min(length_before) - start;
        save(&mut self.saved, &self.content, start, kept);
        self.content.write(at, from);
        // Where nothing was written, the place may lie past the end.
        let step = Step::Wrote(Overwrite {
            at: at.min(self.content.len),
            len: from.len(),
            kept,
            length_before,
        });
        self.steps.push(step).unwrap();
    }

    // From now on a crash leaves what stands here.
    pub fn commit(&mut self)
        requires room { vec_len self.old.steps < vec_capacity self.old.steps }
        ensures content { shown self.new.content ≡ shown self.old.content }
        ensures past { past self.new ≡ synced ∷ past self.old }
        ensures room { (c b e : ℕ) → HasRoom self.old (c + 1) b e → HasRoom self.new c b e }
    {
        self.steps.push(Step::Synced).unwrap();
    }

    // Forgets the past, where nothing that was written may still be lost.
    pub fn forget(&mut self)
        ensures content { shown self.new.content ≡ shown self.old.content }
        ensures crash { (image : List ℕ) → IsImage (past self.new) (shown self.new.content) image
            → IsImage (past self.old) (shown self.old.content) image }
        ensures settled { IsSettled (past self.old) → past self.new ≡ [] }
        ensures certain { rolled_back (past self.new) (shown self.new.content) ≡ rolled_back (past self.old) (shown self.old.content) }
        ensures room { KeepsRoom (HasRoom self.old) (HasRoom self.new) }
    {
        if let Some((Step::Wrote(_), _)) = self.steps.split_last() {
            return;
        }
        self.steps.clear();
        self.saved.clear();
    }

    // Undoes the newest call. Whether it was a write.
    fn undo_newest(&mut self) -> bool
        ensures undone { IsTrue result → rolled_back (past self.new) (shown self.new.content) ≡ rolled_back (past self.old) (shown self.old.content) }
        ensures ended { result ≡ false → shown self.new.content ≡ rolled_back (past self.old) (shown self.old.content) }
        ensures fewer { IsTrue result → vec_len self.new.steps < vec_len self.old.steps }
        ensures room { KeepsRoom (HasRoom self.old) (HasRoom self.new) }
    {
        let Some((Step::Wrote(write), older)) = self.steps.split_last() else {
            return false;
        };
        let write = *write;
        let calls = older.len();
        let from = self.saved.len().saturating_sub(write.kept);
        self.content.put(write.at, &self.saved[from..]);
        self.content.truncate(write.length_before);
        self.saved.truncate(from);
        self.steps.truncate(calls);
        true
    }

    fn choose(&mut self, pick: u64)
        ensures content { shown self.new.content ≡ settled_at pick (past self.old) (shown self.old.content) }
        ensures room { KeepsRoom (HasRoom self.old) (HasRoom self.new) }
    {
        if pick == 0 {
            self.roll_back();
            return;
        }
        if pick == 1 {
            return;
        }
        scatter_all(&mut self.content, &self.steps, pick);
    }

    // Undoes each write since the last sync.
    fn roll_back(&mut self)
        ensures content { shown self.new.content ≡ rolled_back (past self.old) (shown self.old.content) }
        ensures room { KeepsRoom (HasRoom self.old) (HasRoom self.new) }
    {
        while self.undo_newest() {}
    }

    // Chooses one of the images that a crash may leave: at 0 what the last sync left, at 1 what was written, above 1 bytes
    // drawn by this number.
    pub fn settle(&mut self, pick: u64)
        ensures content { shown self.new.content ≡ settled_at pick (past self.old) (shown self.old.content) }
        ensures past { past self.new ≡ [] }
        ensures room { KeepsRoom (HasRoom self.old) (HasRoom self.new) }
    {
        self.choose(pick);
        self.steps.clear();
        self.saved.clear();
    }
}

// Adds a part of the content to what is saved.
fn save(saved: &mut Vec<u8>, content: &Pages, start: usize, count: usize)
    requires within { start + count ≤ content.now.len }
    requires room { vec_len saved.old + count ≤ vec_capacity saved.old }
    ensures items { saved.new.items ≡ saved.old.items ++ slice_range (shown content.now) start (start + count) }
    ensures capacity { vec_capacity saved.old ≤ vec_capacity saved.new }
    ensures len { vec_len saved.new ≡ vec_len saved.old + count }
{
    let seam = saved.len();
    saved.resize(seam + count, 0).unwrap();
    content.read(start, &mut saved[seam..]);
}
