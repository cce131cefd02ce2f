//! The operations that begin in the marks of a text, found by number.

ghost use Rattle.std.specs.Prelude.{◌≡◌, IfOk, if◌then◌else◌, Some, None, length, slice_get, option_copied};
ghost use Rattle.audit.specs.Operations.{access_of, outcome_of, access_or, access_fits, group_fits, begin_fits, is_write, word_fits};

use crate::crashes::CrashList;
use fab_base::NoMem;
use layout::{Group, Layout};
use lines::Access;
use std::alloc::Global;
use std::marker::Model;
use transcript::{ParsedAnswer, ParsedMark};

/// An operation. Places are those of marks in the text, which are their positions.
#[derive(Clone, Copy)]
pub(crate) struct Operation {
    /// The place of its Begin.
    pub begin: usize,
    /// Its coordinator.
    pub brick: usize,
    /// The group.
    pub group: u64,
    /// The stripe within the group.
    pub stripe: u64,
    /// How many crashes of its brick stand before its Begin.
    pub crashes: usize,
    /// The place of its End.
    pub end: Option<usize>,
}

/// The operations that begin, number n at place n - 1, and the crashes of each brick.
#[derive(Drop)]
pub(crate) struct Operations {
    found: Vec<Operation>,
    crashes: Vec<CrashList>,
}

impl Model for Operations {
    ghost use Rattle.audit.specs.Operations.{Index};

    ghost Value = { Index };

    ghost view = { λ o. record { found = o.found.items; crashes = o.crashes.items } };
}

/// What the Begin at a place asks.
pub(crate) fn access_at(claims: &[ParsedMark], place: usize) -> Option<&Access>
    ensures { option_copied result ≡ access_of (slice_get claims.now place) }
{
    match claims.get(place) {
        Some(claim) => access_in(claim),
        None => None,
    }
}

/// What a Begin asks.
fn access_in(claim: &ParsedMark) -> Option<&Access>
    ensures { option_copied result ≡ access_of (Some claim.now) }
{
    match claim {
        ParsedMark::Begin { access, .. } => Some(access),
        ParsedMark::End { .. } | ParsedMark::Crash { .. } => None,
    }
}

/// What the End at a place answers.
pub(crate) fn outcome_at(claims: &[ParsedMark], place: usize) -> Option<&ParsedAnswer>
    ensures { option_copied result ≡ outcome_of (slice_get claims.now place) }
{
    match claims.get(place) {
        Some(claim) => outcome_in(claim),
        None => None,
    }
}

/// What an End answers.
fn outcome_in(claim: &ParsedMark) -> Option<&ParsedAnswer>
    ensures { option_copied result ≡ outcome_of (Some claim.now) }
{
    match claim {
        ParsedMark::End { outcome, .. } => Some(outcome),
        ParsedMark::Begin { .. } | ParsedMark::Crash { .. } => None,
    }
}

/// Whether what is asked fits a stripe of m data blocks.
fn access_fits(access: &Access, m: u8, block: u16) -> bool
    ensures { result ≡ access_fits m block access.now }
{
    match access {
        Access::ReadBlock(j) => *j < u64::from(m),
        Access::WriteBlock(j, bytes) => *j < u64::from(m) && bytes.len() == usize::from(block),
        Access::ReadStripe => true,
        Access::WriteStripe(bytes) => bytes.len() == usize::from(m) * usize::from(block),
    }
}

/// Whether what is asked fits a group.
fn group_fits(group: Option<&Group>, block: u16, stripe: u64, access: &Access) -> bool
    ensures { result ≡ group_fits (option_copied group.entry) block stripe access.now }
{
    match group {
        Some(found) => {
            stripe < u64::from(found.stripes()) && access_fits(access, found.m(), block)
        }
        None => false,
    }
}

/// Whether what is asked names a brick, a group, a stripe, a block and a length that the layout has.
fn begin_fits(layout: &Layout, brick: u64, group: u64, stripe: u64, access: &Access) -> bool
    ensures { result ≡ begin_fits layout.now brick group stripe access.now }
{
    brick < u64::from(layout.bricks())
        && group_fits(
            layout.groups().get(group as usize),
            layout.block(),
            stripe,
            access,
        )
}

/// Whether it is a write.
fn is_write(access: Option<&Access>) -> bool
    ensures { result ≡ is_write (access_or (option_copied access.entry)) }
{
    match access {
        Some(Access::WriteBlock(..)) | Some(Access::WriteStripe(_)) => true,
        Some(Access::ReadBlock(_)) | Some(Access::ReadStripe) | None => false,
    }
}

/// Whether an answer's word is that of what was asked.
fn word_fits(access: Option<&Access>, outcome: &ParsedAnswer) -> bool
    ensures { result ≡ word_fits (access_or (option_copied access.entry)) outcome.now }
{
    match outcome {
        ParsedAnswer::Data(_) => !is_write(access),
        ParsedAnswer::Done => is_write(access),
        ParsedAnswer::Aborted(_) => true,
    }
}

impl Operations {
    ghost use Rattle.audit.specs.Operations.{crashes_of, crash_after, is_open, may_end, after_claim, begins_next, ends_at, crashes_at, IsFirst};

    /// Before any mark, over a layout.
    pub(crate) fn new(alloc: Global, layout: &Layout) -> Result<Operations, NoMem>
        ensures { IfOk result (λ made. IsFirst made layout.now.bricks) }
    {
        let bricks = usize::from(layout.bricks());
        let mut crashes = Vec::new(alloc);
        while crashes.len() < bricks {
            crashes.push(CrashList::new(alloc))?;
        }
        Ok(Operations {
            found: Vec::new(alloc),
            crashes,
        })
    }

    /// How many crashes a brick had.
    fn crash_count(&self, brick: usize) -> usize
        ensures { result ≡ length (crashes_of self.now.crashes brick) }
    {
        match self.crashes.as_slice().get(brick) {
            Some(list) => list.len(),
            None => 0,
        }
    }

    /// The first crash of an operation's brick after its Begin.
    pub(crate) fn crash_after(&self, operation: &Operation) -> Option<u64>
        ensures { result ≡ crash_after self.now.crashes operation.now }
    {
        match self.crashes.as_slice().get(operation.brick) {
            Some(list) => list.get(operation.crashes),
            None => None,
        }
    }

    /// The operations, number n at place n - 1.
    pub(crate) fn as_slice(&self) -> &[Operation]
        ensures { result.now ≡ self.now.found }
    {
        self.found.as_slice()
    }

    /// Whether an operation has neither ended nor been interrupted.
    fn is_open(&self, operation: &Operation) -> bool
        ensures { result ≡ is_open self.now.crashes operation.now }
    {
        operation.end.is_none() && self.crash_after(operation).is_none()
    }

    /// Whether the operation at a place may end so.
    fn may_end(&self, claims: &[ParsedMark], place: usize, outcome: &ParsedAnswer) -> bool
        ensures { result ≡ may_end claims.now self.now.crashes (slice_get self.now.found place) outcome.now }
    {
        match self.found.as_slice().get(place) {
            Some(operation) => {
                self.is_open(operation) && word_fits(access_at(claims, operation.begin), outcome)
            }
            None => false,
        }
    }

    /// Takes the mark at a place, and answers whether it is in its place. After another answer than `true`, what is kept says nothing.
    #[tactic(auto, unfolding(crate::specs::Operations::after_claim))]
    pub(crate) fn take(
        &mut self,
        layout: &Layout,
        claims: &[ParsedMark],
        place: usize,
        claim: &ParsedMark,
    ) -> Result<bool, NoMem>
        ensures { IfOk result (λ taken. after_claim layout.now claims.now self.old place claim.now ≡ (if taken then Some self.new else None)) }
    {
        match claim {
            ParsedMark::Begin {
                position,
                operation,
                brick,
                group,
                stripe,
                access,
            } => {
                if *position != place as u64
                    || !begin_fits(layout, *brick, *group, *stripe, access)
                {
                    return Ok(false);
                }
                self.begin(place, *operation, *brick as usize, *group, *stripe)
            }
            ParsedMark::End {
                position,
                operation,
                outcome,
            } => {
                if *position != place as u64 {
                    return Ok(false);
                }
                Ok(self.end(claims, place, *operation, outcome))
            }
            ParsedMark::Crash { position, brick } => {
                if *position != place as u64 {
                    return Ok(false);
                }
                self.crash(*brick as usize, place as u64)
            }
        }
    }

    /// An operation begins, and answers whether its number is the next.
    #[tactic(auto, unfolding(crate::specs::Operations::begins_next))]
    fn begin(
        &mut self,
        place: usize,
        operation: u64,
        brick: usize,
        group: u64,
        stripe: u64,
    ) -> Result<bool, NoMem>
        ensures { IfOk result (λ taken. begins_next self.old place operation brick group stripe ≡ (if taken then Some self.new else None)) }
    {
        if operation != self.found.len() as u64 + 1 {
            return Ok(false);
        }
        let crashes = self.crash_count(brick);
        self.found.push(Operation {
            begin: place,
            brick,
            group,
            stripe,
            crashes,
            end: None,
        })?;
        Ok(true)
    }

    /// An operation ends, and answers whether it may.
    #[tactic(auto, unfolding(crate::specs::Operations::ends_at))]
    fn end(
        &mut self,
        claims: &[ParsedMark],
        place: usize,
        operation: u64,
        outcome: &ParsedAnswer,
    ) -> bool
        ensures { ends_at claims.now self.old place operation outcome.now ≡ (if result then Some self.new else None) }
    {
        if operation == 0 {
            return false;
        }
        let at = operation as usize - 1;
        if at >= self.found.len() || !self.may_end(claims, at, outcome) {
            return false;
        }
        self.found[at].end = Some(place);
        true
    }

    /// A brick crashes.
    #[tactic(auto, unfolding(crate::specs::Operations::crashes_at), using(crate::proofs::Lists::set_past))]
    fn crash(&mut self, brick: usize, position: u64) -> Result<bool, NoMem>
        ensures { IfOk result (λ taken. crashes_at self.old brick position ≡ (if taken then Some self.new else None)) }
    {
        if brick < self.crashes.len() {
            self.crashes[brick].push(position)?;
        }
        Ok(true)
    }
}
