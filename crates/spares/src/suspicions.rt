//! What each brick suspects, and the members that it would replace.

ghost use Rattle.std.specs.Prelude.{◌≡◌, ◌+◌, ◌<◌, ◌≤◌, ◌↔◌, [], ◌∷◌, true, false, IsTrue, IsNone, IfOk, IfSome, length, map, replicate, vec_len};
ghost use Rattle.std.specs.List.{range_with_len};
ghost use Rattle.quorum.specs.Memberships.{stands_in};
ghost use Rattle.spares.specs.Suspicions.{HasBoth, is_spare, suspects, unsuspecting, with_opinion};
ghost use Rattle.spares.specs.Replacements.{AreBricks, IsReplacement, is_left, left_from, list_for, replaced, with_spares};

use fab_base::{BrickId, Members, NoMem, View};
use layout::Layout;
use std::alloc::Global;
use std::marker::Model;

/// The most bricks of a layout.
const MOST_BRICKS: usize = 64;

/// The most members of a view.
const MOST_MEMBERS: usize = 32;

/// The pool of a disk's spares, and what each of its bricks suspects.
#[derive(Drop)]
pub struct Spares {
    /// How many bricks the disk has.
    bricks: u16,
    /// By brick, whether it is of the pool.
    pool: Vec<bool>,
    /// By brick, which bricks it suspects.
    rows: Vec<[bool; MOST_BRICKS]>,
}

impl Model for Spares {
    ghost use Rattle.std.specs.Prelude.{◌≡◌, ◌≤◌, vec_len};
    ghost use Rattle.spares.specs.Suspicions.{Suspicions};

    ghost Value = { Suspicions };

    ghost view = { λ spares. record { bricks = spares.bricks; pool = spares.pool.items; rows = spares.rows.items } };

    ghost invariant = { λ spares. (spares.bricks ≤ 64) × (vec_len spares.rows ≡ spares.bricks) };
}

impl Spares {
    /// No brick suspects another, and the pool is the layout's.
    ///
    /// # Errors
    ///
    /// `NoMemory` where no memory was left.
    pub fn new(alloc: Global, layout: &Layout) -> Result<Spares, NoMem>
        ensures { IfOk result (λ made. made ≡ unsuspecting layout.now) }
    {
        let bricks = layout.bricks();
        let pool = flags_of(alloc, bricks, layout.spares())?;
        let rows = blank_rows(alloc, bricks)?;
        Ok(Spares { bricks, pool, rows })
    }

    /// A brick suspects another from now on. False, and nothing changes, where the disk lacks one of them.
    pub fn suspect(&mut self, by: BrickId, brick: BrickId) -> bool
        ensures both { IsTrue result ↔ HasBoth self.old by brick }
        ensures noted { IsTrue result → self.new ≡ with_opinion self.old by brick true }
        ensures idle { result ≡ false → self.new ≡ self.old }
    {
        self.note(by, brick, true)
    }

    /// A brick no longer suspects another. False, and nothing changes, where the disk lacks one of them.
    pub fn trust(&mut self, by: BrickId, brick: BrickId) -> bool
        ensures both { IsTrue result ↔ HasBoth self.old by brick }
        ensures noted { IsTrue result → self.new ≡ with_opinion self.old by brick false }
        ensures idle { result ≡ false → self.new ≡ self.old }
    {
        self.note(by, brick, false)
    }

    /// The members of a view, each that the brick suspects replaced, from seat 0 on, by the least brick of the pool that is left: that
    /// it does not suspect, that is no member, and that was not taken for an earlier seat. Where none is left, the others stay. None
    /// exactly where no seat changes.
    pub fn list(&self, by: BrickId, view: &View) -> Option<Members>
        ensures list { result ≡ list_for self.now by view.now.members }
        ensures none { IsNone result ↔ (replaced self.now by view.now.members ≡ view.now.members) }
        ensures sound { AreBricks self.now.bricks view.now.members
            → IfSome result (λ next. IsReplacement self.now by view.now.members next) }
    {
        self.proposal(by, view.members.as_slice())
    }

    /// The list that the brick proposes in place of these members, if a seat changes.
    fn proposal(&self, by: BrickId, members: &[BrickId]) -> Option<Members>
        requires { length members.now ≤ 32 }
        ensures { result ≡ list_for self.now by members.now }
    {
        let mut room = [BrickId(0); MOST_MEMBERS];
        let seats = &mut room[..members.len()];
        seats.copy_from_slice(members);
        self.replace(by, members, seats);
        if *seats == *members {
            return None;
        }
        Members::new(seats)
    }

    /// Notes whether a brick suspects another. False, and nothing changes, where the disk lacks one of them.
    fn note(&mut self, by: BrickId, brick: BrickId, suspected: bool) -> bool
        ensures both { IsTrue result ↔ HasBoth self.old by brick }
        ensures noted { IsTrue result → self.new ≡ with_opinion self.old by brick suspected }
        ensures idle { result ≡ false → self.new ≡ self.old }
    {
        if by.0 >= self.bricks || brick.0 >= self.bricks {
            return false;
        }
        let by = usize::from(by.0);
        let mut row = self.rows[by];
        row[usize::from(brick.0)] = suspected;
        self.rows[by] = row;
        true
    }

    /// Whether a brick is of the pool.
    fn is_spare(&self, brick: BrickId) -> bool
        ensures { result ≡ is_spare self.now brick }
    {
        self.pool
            .get(usize::from(brick.0))
            .copied()
            .unwrap_or(false)
    }

    /// Whether one brick suspects another.
    pub fn suspects(&self, by: BrickId, brick: BrickId) -> bool
        ensures { result ≡ suspects self.now by brick }
    {
        match self.rows.get(usize::from(by.0)) {
            None => false,
            Some(row) => row.get(usize::from(brick.0)).copied().unwrap_or(false),
        }
    }

    /// Whether a brick is left to replace one of these members.
    fn is_left(&self, by: BrickId, members: &[BrickId], brick: BrickId) -> bool
        ensures { result ≡ is_left self.now by members.now brick }
    {
        self.is_spare(brick) && !self.suspects(by, brick) && !stands_in(members, brick)
    }

    /// The least brick from this one on that is left to replace one of these members.
    fn next_left(&self, by: BrickId, members: &[BrickId], first: u16) -> Option<BrickId>
        ensures none { IsNone result → left_from self.now by members.now first ≡ [] }
        ensures least { IfSome result (λ spare. left_from self.now by members.now first
            ≡ spare ∷ left_from self.now by members.now (spare.0 + 1)) }
        ensures small { IfSome result (λ spare. spare.0 < 64) }
    {
        for brick in first..self.bricks {
            let spare = BrickId(brick);
            if self.is_left(by, members, spare) {
                return Some(spare);
            }
        }
        None
    }

    /// Replaces each suspected brick at these seats, from the first on, by the least that is left to replace one of the members.
    fn replace(&self, by: BrickId, members: &[BrickId], seats: &mut [BrickId])
        ensures { seats.new
            ≡ with_spares (suspects self.now by) (left_from self.now by members.now 0) seats.old }
    {
        let mut first = 0;
        for seat in seats.iter_mut() {
            if self.suspects(by, *seat) {
                let Some(spare) = self.next_left(by, members, first) else {
                    return;
                };
                *seat = spare;
                first = spare.0 + 1;
            }
        }
    }
}

/// Whether each brick of a disk of so many is one of these.
fn flags_of(alloc: Global, bricks: u16, spares: &[BrickId]) -> Result<Vec<bool>, NoMem>
    ensures { IfOk result (λ flags. flags.items
        ≡ map (λ brick. stands_in spares.now (record { 0 = brick })) (range_with_len 0 bricks)) }
{
    let flags = (0..bricks).map(|brick| stands_in(spares, BrickId(brick)));
    Ok(flags.collect(alloc)?)
}

/// Rows of bricks that suspect none.
fn blank_rows(alloc: Global, bricks: u16) -> Result<Vec<[bool; MOST_BRICKS]>, NoMem>
    ensures rows { IfOk result (λ rows. rows.items ≡ replicate bricks (replicate 64 false)) }
    ensures many { IfOk result (λ rows. vec_len rows ≡ bricks) }
{
    let mut rows = Vec::new(alloc);
    for _brick in 0..bricks {
        rows.push([false; MOST_BRICKS])?;
    }
    Ok(rows)
}

/// Whether a brick is one of these.
fn stands_in(bricks: &[BrickId], brick: BrickId) -> bool
    ensures { result ≡ stands_in bricks.now brick }
{
    bricks.iter().any(|other| brick.0 == other.0)
}
