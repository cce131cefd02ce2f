// What a crash may change, drawn by a number.
ghost use Rattle.std.specs.Prelude.{◌≡◌, ◌+◌, ◌*◌, ◌≤◌, ◌<◌, ℕ, [], false, ◌++◌, length, take, drop, min, ◌-◌, reverse};
ghost use Rattle.fab_disk.specs.Past.{past_of};
ghost use Rattle.fab_disk.specs.Pages.{page_bytes, is_held, held_at};
ghost use Rattle.fab_disk.specs.Settled.{is_uncertain, filled, left_over, seeded};
ghost use Rattle.fab_disk.specs.Stored.{shown, CanHold};
ghost use Rattle.fab_disk.specs.Uncertain.{IsSameWithin};

use crate::medium::Step;
use crate::pages::{PAGE, Page, Pages, copied};
use rand_core::SeedableRng;
use rand_core::utils::NextWord;
use rand_pcg::Pcg32;
use std::mem;

// Draws each byte that a crash may change.
pub fn scatter_all(content: &mut Pages, steps: &[Step], pick: u64)
    requires whole { (k : ℕ) → held_at content.old.pages.items k ≡ false → IsSameWithin (is_uncertain (past_of (reverse steps.now) []) content.old.len)
        (length content.old.front.items + 4096 * k) content.old.len }
    ensures bytes { shown content.new ≡ filled (is_uncertain (past_of (reverse steps.now) []) content.old.len) (seeded pick) 0 (shown content.old) }
    ensures held { (k : ℕ) → held_at content.new.pages.items k ≡ held_at content.old.pages.items k }
    ensures len { content.new.len ≡ content.old.len }
    ensures front { length content.new.front.items ≡ length content.old.front.items }
    ensures room { (c b e : ℕ) → CanHold content.old c b e → CanHold content.new c b e }
{
    let mut source = Pcg32::seed_from_u64(pick);
    let size = content.len;
    let front = content.front.len();
    scatter(
        &mut content.front,
        front.min(size),
        steps,
        size,
        0,
        &mut source,
    );
    for page in 0..size.saturating_sub(front).div_ceil(PAGE) {
        let start = front + page * PAGE;
        scatter_page(&mut content.pages[page], steps, size, start, &mut source);
    }
}

// Draws each byte of a page, which begins at `start` in a content of this size, that a crash may change.
fn scatter_page(page: &mut Page, steps: &[Step], size: usize, start: usize, source: &mut Pcg32)
    requires below { start < size }
    requires whole { is_held page.old ≡ false → IsSameWithin (is_uncertain (past_of (reverse steps.now) []) size) start size }
    ensures bytes { take (min (size - start) 4096) (page_bytes page.new) ≡ filled (is_uncertain (past_of (reverse steps.now) []) size) source.old start
        (take (min (size - start) 4096) (page_bytes page.old)) }
    ensures source { source.new ≡ left_over (is_uncertain (past_of (reverse steps.now) []) size) source.old start (min (size - start) 4096) }
    ensures held { is_held page.new ≡ is_held page.old }
{
    let count = (size - start).min(PAGE);
    if let Page::Held(sheet) = page {
        scatter(&mut sheet.bytes, count, steps, size, start, source);
        return;
    }
    if is_uncertain(steps, size, start) {
        let drawn = copied(source);
        source.advance(count as u64);
        let _ = mem::replace(page, Page::Drawn(drawn));
    }
}

// Draws each of the first bytes of a piece of memory, which begins at `start` in a content of this size, that a crash may change.
fn scatter(
    bytes: &mut Vec<u8>,
    count: usize,
    steps: &[Step],
    size: usize,
    start: usize,
    source: &mut Pcg32,
)
    requires within { start + count ≤ size }
    requires few { count ≤ length bytes.old.items }
    ensures items { bytes.new.items ≡ filled (is_uncertain (past_of (reverse steps.now) []) size) source.old start (take count bytes.old.items)
        ++ drop count bytes.old.items }
    ensures source { source.new ≡ left_over (is_uncertain (past_of (reverse steps.now) []) size) source.old start count }
{
    for place in 0..count {
        if is_uncertain(steps, size, start + place) {
            bytes[place] = (source.next_word() % 256) as u8;
        }
    }
}

// Whether a crash may change the byte at this place, in a content of this size.
fn is_uncertain(steps: &[Step], size: usize, place: usize) -> bool
    ensures { result ≡ is_uncertain (past_of (reverse steps.now) []) size place }
{
    let mut end = size;
    let mut newer = steps;
    while let Some((step, older)) = newer.split_last() {
        match step {
            Step::Synced => return end <= place,
            Step::Wrote(write) => {
                if write.covers(place) {
                    return true;
                }
                end = write.length_before;
                newer = older;
            }
        }
    }
    end <= place
}
