// Bytes in memory, of which only the pages that were written take room.
ghost use Rattle.std.specs.Prelude.{◌≡◌, ◌+◌, ◌*◌, ◌/◌, ◌≤◌, ◌<◌, ◌++◌, ℕ, List, false, min, max, ◌^◌, length, take, drop, slice_range, vec_len, vec_capacity, IsTrue, IsOk, IfOk, OnOk, OnErr, replicate, ◌-◌};
ghost use Rattle.fab_disk.specs.Draws.{drawn, skipped};

use rand_core::utils::NextWord;
use rand_pcg::Pcg32;
use std::alloc::{AllocError, Global};
use std::mem;

// How many bytes a page has.
pub const PAGE: usize = 4096;

// The memory of a page.
#[derive(Drop)]
pub struct Sheet {
    pub bytes: Vec<u8>,
    ghost whole: { length bytes.items ≡ 4096 },
}

// A page: zeros, or the bytes that a generator draws, or bytes in memory of its own.
#[derive(Drop)]
pub enum Page {
    Zero,
    Drawn(Pcg32),
    Held(Sheet),
}

// Another generator that goes on as this one does.
pub fn copied(random: &Pcg32) -> Pcg32
    ensures { result ≡ random.now }
{
    let copy: Result<_, _> = random.clone();
    copy.unwrap()
}

// Draws bytes, after so many that are passed over.
fn draw(random: &Pcg32, passed: usize, into: &mut [u8])
    ensures { into.new ≡ drawn (length into.old) (skipped passed random.now) }
{
    let mut source = copied(random);
    source.advance(passed as u64);
    for place in 0..into.len() {
        into[place] = (source.next_word() % 256) as u8;
    }
}

fn blank(into: &mut [u8])
    ensures { into.new ≡ replicate (length into.old) 0 }
{
    into.fill(0);
}

impl Page {
    ghost use Rattle.fab_disk.specs.Disk.{overlaid};
    ghost use Rattle.fab_disk.specs.Pages.{page_bytes, is_held};

    fn read(&self, within: usize, into: &mut [u8])
        requires { within + length into.old ≤ 4096 }
        ensures { into.new ≡ slice_range (page_bytes self.now) within (within + length into.old) }
    {
        match self {
            Page::Zero => blank(into),
            Page::Drawn(random) => draw(random, within, into),
            Page::Held(sheet) => into.copy_from_slice(&sheet.bytes[within..within + into.len()]),
        }
    }

    // Gives it memory of its own.
    fn hold(&mut self, spare: &mut Vec<Sheet>)
        requires { 1 ≤ vec_len spare.old }
        ensures same { page_bytes self.new ≡ page_bytes self.old }
        ensures held { IsTrue (is_held self.new) }
        ensures spare { vec_len spare.old ≤ vec_len spare.new + 1 }
    {
        if let Page::Held(_) = self {
            return;
        }
        let mut sheet = spare.pop().unwrap();
        self.read(0, &mut sheet.bytes);
        let _ = mem::replace(self, Page::Held(sheet));
    }

    // Makes its bytes zero from a place on.
    fn clear(&mut self, within: usize)
        requires within { within ≤ 4096 }
        requires held { IsTrue (is_held self.old) }
        ensures bytes { page_bytes self.new ≡ take within (page_bytes self.old) ++ replicate (4096 - within) 0 }
        ensures held { IsTrue (is_held self.new) }
    {
        if let Page::Held(sheet) = self {
            sheet.bytes[within..].fill(0);
        }
    }

    fn put(&mut self, within: usize, from: &[u8])
        requires within { within + length from.now ≤ 4096 }
        requires held { IsTrue (is_held self.old) }
        ensures bytes { page_bytes self.new ≡ overlaid within from.now (page_bytes self.old) }
        ensures held { IsTrue (is_held self.new) }
    {
        if let Page::Held(sheet) = self {
            sheet.bytes[within..within + from.len()].copy_from_slice(from);
        }
    }
}

// Bytes of which those below `front.len()` lie in one piece, and the others in pages. What lies behind the end is not shown.
#[derive(Drop)]
pub struct Pages {
    alloc: Global,
    pub front: Vec<u8>,
    pub pages: Vec<Page>,
    // Memory for pages that have none yet.
    pub spare: Vec<Sheet>,
    pub len: usize,
    ghost within: { len ≤ length front.items + 4096 * length pages.items },
}

impl Pages {
    ghost use Rattle.std.specs.Prelude.{replicate, get_or};
    ghost use Rattle.fab_disk.specs.Disk.{overlaid, padded, written};
    ghost use Rattle.fab_disk.specs.Pages.{page_bytes, spread, held_at};
    ghost use Rattle.fab_disk.specs.Stored.{stored, shown, HoldsRange, KeepsHeld, HoldsEnd, CanHold};

    pub fn new(alloc: Global, front: Vec<u8>) -> Self
        ensures content { shown result ≡ front.items }
    {
        let len = front.len();
        Pages {
            alloc,
            front,
            pages: Vec::new(alloc),
            spare: Vec::new(alloc),
            len,
        }
    }

    pub fn len(&self) -> usize
        ensures { result ≡ length (shown self.now) }
    {
        self.len
    }

    // Room for so many writes, with so many bytes in all and ends at most `end`.
    pub fn reserve(&mut self, calls: usize, bytes: usize, end: usize) -> Result<(), AllocError>
        ensures made { OnOk result (CanHold self.new calls bytes end) }
        ensures room { (c b e : ℕ) → CanHold self.old c b e → CanHold self.new c b e }
        ensures enough { OnErr result (CanHold self.old calls bytes end → ⊥) }
        ensures len { self.new.len ≡ self.old.len }
        ensures front { self.new.front ≡ self.old.front }
        ensures pages { self.new.pages.items ≡ self.old.pages.items }
    {
        let pages = end.saturating_sub(self.front.len()).div_ceil(PAGE);
        self.pages.reserve(pages.saturating_sub(self.pages.len()))?;
        let sheets = calls.saturating_mul(3).saturating_add(bytes / PAGE + 1);
        while self.spare.len() < sheets {
            let bytes = vec![in self.alloc; 0; PAGE]?;
            self.spare.push(Sheet { bytes })?;
        }
        Ok(())
    }

    // Reads what lies in one piece of memory. How many bytes.
    fn read_piece(&self, at: usize, into: &mut [u8]) -> usize
        requires some { 1 ≤ length into.old }
        requires within { at + length into.old ≤ self.now.len }
        ensures some { (1 ≤ result) × (result ≤ length into.old) }
        ensures bytes { into.new ≡ take result (drop at (stored self.now)) ++ drop result into.old }
    {
        if at < self.front.len() {
            let size = into.len().min(self.front.len() - at);
            into[..size].copy_from_slice(&self.front[at..at + size]);
            return size;
        }
        let place = at - self.front.len();
        let within = place % PAGE;
        let size = into.len().min(PAGE - within);
        self.pages[place / PAGE].read(within, &mut into[..size]);
        size
    }

    pub fn read(&self, at: usize, into: &mut [u8])
        requires { at + length into.old ≤ self.now.len }
        ensures { into.new ≡ slice_range (shown self.now) at (at + length into.old) }
    {
        let mut done = 0;
        while done < into.len() {
            done += self.read_piece(at + done, &mut into[done..]);
        }
    }

    // Puts what lies in one piece of memory. How many bytes.
    fn put_piece(&mut self, at: usize, from: &[u8]) -> usize
        requires some { 1 ≤ length from.now }
        requires within { at + length from.now ≤ self.old.len }
        requires held { HoldsRange (length self.old.front.items) self.old.pages.items at (at + length from.now) }
        ensures some { (1 ≤ result) × (result ≤ length from.now) }
        ensures bytes { stored self.new ≡ overlaid at (take result from.now) (stored self.old) }
        ensures held { (k : ℕ) → held_at self.new.pages.items k ≡ held_at self.old.pages.items k }
        ensures len { self.new.len ≡ self.old.len }
        ensures front { length self.new.front.items ≡ length self.old.front.items }
        ensures room { (c b e : ℕ) → CanHold self.old c b e → CanHold self.new c b e }
    {
        if at < self.front.len() {
            let size = from.len().min(self.front.len() - at);
            self.front[at..at + size].copy_from_slice(&from[..size]);
            return size;
        }
        let place = at - self.front.len();
        let within = place % PAGE;
        let size = from.len().min(PAGE - within);
        self.pages[place / PAGE].put(within, &from[..size]);
        size
    }

    // Puts bytes in the place of others, in pages that have memory.
    pub fn put(&mut self, at: usize, from: &[u8])
        requires within { at + length from.now ≤ self.old.len }
        requires held { HoldsRange (length self.old.front.items) self.old.pages.items at (at + length from.now) }
        ensures bytes { shown self.new ≡ overlaid at from.now (shown self.old) }
        ensures held { (k : ℕ) → held_at self.new.pages.items k ≡ held_at self.old.pages.items k }
        ensures len { self.new.len ≡ self.old.len }
        ensures front { length self.new.front.items ≡ length self.old.front.items }
        ensures room { (c b e : ℕ) → CanHold self.old c b e → CanHold self.new c b e }
    {
        let mut done = 0;
        while done < from.len() {
            done += self.put_piece(at + done, &from[done..]);
        }
    }

    // Gives memory to the pages of a range.
    fn hold(&mut self, at: usize, end: usize)
        requires some { at < end }
        requires within { end ≤ self.old.len }
        requires spare { (end - at) / 4096 + 2 ≤ vec_len self.old.spare }
        ensures same { stored self.new ≡ stored self.old }
        ensures range { HoldsRange (length self.old.front.items) self.new.pages.items at end }
        ensures keeps { KeepsHeld (length self.old.front.items) self.old.len self.old.pages.items self.new.pages.items }
        ensures len { self.new.len ≡ self.old.len }
        ensures front { length self.new.front.items ≡ length self.old.front.items }
        ensures capacity { vec_capacity self.old.pages ≤ vec_capacity self.new.pages }
        ensures spare { vec_len self.old.spare ≤ vec_len self.new.spare + ((end - at) / 4096 + 2) }
    {
        let first = at.saturating_sub(self.front.len()) / PAGE;
        let last = end.saturating_sub(self.front.len()).div_ceil(PAGE);
        for page in first..last {
            self.pages[page].hold(&mut self.spare);
        }
    }

    // Makes zero what lies behind the end.
    fn clear_tail(&mut self)
        requires spare { 1 ≤ vec_len self.old.spare }
        ensures bytes { stored self.new ≡ shown self.old ++ replicate (length (stored self.new) - self.old.len) 0 }
        ensures keeps { KeepsHeld (length self.old.front.items) self.old.len self.old.pages.items self.new.pages.items }
        ensures edge { HoldsEnd (length self.old.front.items) self.old.len self.new.pages.items }
        ensures len { self.new.len ≡ self.old.len }
        ensures front { length self.new.front.items ≡ length self.old.front.items }
        ensures capacity { vec_capacity self.old.pages ≤ vec_capacity self.new.pages }
        ensures spare { vec_len self.old.spare ≤ vec_len self.new.spare + 1 }
    {
        let front = self.front.len();
        if self.len < front {
            self.front[self.len..].fill(0);
            self.pages.clear();
            return;
        }
        let place = self.len - front;
        self.pages.truncate(place.div_ceil(PAGE));
        if place % PAGE > 0 {
            self.pages[place / PAGE].hold(&mut self.spare);
            self.pages[place / PAGE].clear(place % PAGE);
        }
    }

    // Makes the content at least so long, by zeros.
    fn grow(&mut self, end: usize)
        requires spare { 1 ≤ vec_len self.old.spare }
        requires room { end ≤ length self.old.front.items + 4096 * vec_capacity self.old.pages }
        ensures bytes { shown self.new ≡ padded end (shown self.old) }
        ensures keeps { KeepsHeld (length self.old.front.items) self.old.len self.old.pages.items self.new.pages.items }
        ensures edge { self.old.len < end → HoldsEnd (length self.old.front.items) self.old.len self.new.pages.items }
        ensures len { self.new.len ≡ max end self.old.len }
        ensures front { length self.new.front.items ≡ length self.old.front.items }
        ensures capacity { vec_capacity self.old.pages ≤ vec_capacity self.new.pages }
        ensures spare { vec_len self.old.spare ≤ vec_len self.new.spare + 1 }
    {
        if end <= self.len {
            return;
        }
        self.clear_tail();
        let pages = end.saturating_sub(self.front.len()).div_ceil(PAGE);
        while self.pages.len() < pages {
            self.pages.push(Page::Zero).unwrap();
        }
        self.len = end;
    }

    // Writes over what is there. A gap behind the old end is filled with zeros.
    pub fn write(&mut self, at: usize, from: &[u8])
        requires reach { at + length from.now ≤ 2 ^ 48 }
        requires room { CanHold self.old 1 (length from.now) (at + length from.now) }
        ensures bytes { shown self.new ≡ written at from.now (shown self.old) }
        ensures range { HoldsRange (length self.old.front.items) self.new.pages.items at (at + length from.now) }
        ensures keeps { KeepsHeld (length self.old.front.items) self.old.len self.old.pages.items self.new.pages.items }
        ensures edge { self.old.len < self.new.len → HoldsEnd (length self.old.front.items) self.old.len self.new.pages.items }
        ensures longer { self.old.len ≤ self.new.len }
        ensures reach { 1 ≤ length from.now → at + length from.now ≤ self.new.len }
        ensures front { length self.new.front.items ≡ length self.old.front.items }
        ensures room { (c b e : ℕ) → CanHold self.old (c + 1) (b + length from.now) e → CanHold self.new c b e }
    {
        if from.is_empty() {
            return;
        }
        let end = at + from.len();
        self.grow(end);
        self.hold(at, end);
        self.put(at, from);
    }

    // Leaves out what lies behind this end.
    pub fn truncate(&mut self, len: usize)
        ensures bytes { shown self.new ≡ take len (shown self.old) }
        ensures held { self.new.pages ≡ self.old.pages }
        ensures len { self.new.len ≡ min len self.old.len }
        ensures front { self.new.front ≡ self.old.front }
        ensures room { (c b e : ℕ) → CanHold self.old c b e → CanHold self.new c b e }
    {
        self.len = self.len.min(len);
    }
}
