//! A walk along the happenings of a stripe.

ghost use Rattle.std.specs.Prelude.{◌≡◌, ℕ, ◌*◌, ◌≤◌, ◌↔◌, IsTrue, Some, length, option_copied, option_map};
ghost use Rattle.reg_model.specs.Registers.{after_op, read_of};
ghost use Rattle.reg_model.specs.Strict.{IsRead};
ghost use Rattle.reg_model.specs.Fits.{FitsRegisters};
ghost use Rattle.transcript.specs.Marks.{op_of};
ghost use Rattle.audit.specs.Operations.{access_or, access_at, crash_after, data_at, life_in, reach};
ghost use Rattle.audit.specs.Walks.{LifeFits, life_among, lives_of, walk_from, TakesHappening, WalksAlong};

use crate::operations::{Operation, Operations, access_at, outcome_at};
use lines::Access;
use reg_model::Happening;
use transcript::{ParsedAnswer, ParsedMark};

/// Whether these bytes are what a read gives: the data block, or all of them. A write gives nothing that could differ.
fn reads(access: Option<&Access>, block: usize, registers: &[u8], bytes: &[u8]) -> bool
    requires { FitsRegisters block registers.now (op_of (access_or (option_copied access))) }
    ensures { IsTrue result ↔ IsRead (read_of block (op_of (access_or (option_copied access.entry))) registers.now) (Some bytes.now) }
{
    match access {
        Some(Access::ReadBlock(j)) => {
            let start = *j as usize * block;
            bytes == &registers[start..start + block]
        }
        Some(Access::ReadStripe) | None => bytes == registers,
        Some(Access::WriteBlock(..)) | Some(Access::WriteStripe(_)) => true,
    }
}

/// Changes the registers as the operation does.
fn apply(access: Option<&Access>, block: usize, registers: &mut [u8])
    requires { FitsRegisters block registers.old (op_of (access_or (option_copied access))) }
    ensures { registers.new ≡ after_op block (op_of (access_or (option_copied access.entry))) registers.old }
{
    match access {
        Some(Access::WriteBlock(j, bytes)) => {
            let start = *j as usize * block;
            registers[start..start + block].copy_from_slice(bytes.as_slice());
        }
        Some(Access::WriteStripe(bytes)) => registers.copy_from_slice(bytes.as_slice()),
        Some(Access::ReadBlock(_)) | Some(Access::ReadStripe) | None => {}
    }
}

/// A stripe whose happenings are looked at.
#[derive(Clone, Copy)]
pub(crate) struct Stripe<'a> {
    /// The marks of the text.
    pub claims: &'a [ParsedMark],
    /// The operations that begin in them.
    pub operations: &'a Operations,
    /// The group.
    pub group: u64,
    /// The stripe within the group.
    pub stripe: u64,
    /// As late as here an operation may happen that is still open.
    pub past: u64,
    /// How many data blocks the stripe has.
    pub m: u8,
    /// How many bytes a block has.
    pub block: usize,
}

/// Whether an operation may happen at this position.
fn is_in_time(operations: &Operations, operation: &Operation, past: u64, position: u64) -> bool
    ensures { IsTrue result ↔ ((operation.now.begin ≤ position)
        × (position ≤ reach operation.now.end (crash_after operations.now.crashes operation.now) past)) }
{
    if position < operation.begin as u64 {
        return false;
    }
    match operation.end {
        Some(place) => position <= place as u64,
        None => match operations.crash_after(operation) {
            Some(crash) => position <= crash,
            None => position <= past,
        },
    }
}

/// Whether an operation is no answered read, or was answered what the registers hold.
fn is_read_right(
    claims: &[ParsedMark],
    operation: &Operation,
    block: usize,
    registers: &[u8],
) -> bool
    requires { FitsRegisters block registers.now (op_of (access_at claims.now operation.now.begin)) }
    ensures { IsTrue result ↔ IsRead (read_of block (op_of (access_at claims.now operation.now.begin)) registers.now) (data_at claims.now operation.now.end) }
{
    match operation.end {
        Some(place) => match outcome_at(claims, place) {
            Some(ParsedAnswer::Data(bytes)) => reads(
                access_at(claims, operation.begin),
                block,
                registers,
                bytes.as_slice(),
            ),
            Some(ParsedAnswer::Done) | Some(ParsedAnswer::Aborted(_)) | None => true,
        },
        None => true,
    }
}

impl Stripe<'_> {
    /// The operation of a number, where it is of this stripe.
    fn find(&self, operation: u64) -> Option<Operation>
        ensures { option_map (life_in self.now.claims.now self.now.operations.now.crashes self.now.past) result
            ≡ life_among self.now.claims.now self.now.operations.now self.now.past self.now.group self.now.stripe operation }
    {
        if operation == 0 {
            return None;
        }
        let found = self
            .operations
            .as_slice()
            .get(operation as usize - 1)
            .copied()?;
        if found.group == self.group && found.stripe == self.stripe {
            Some(found)
        } else {
            None
        }
    }

    /// Takes a happening after the last one, and answers whether it goes on.
    fn take(
        &self,
        happening: Happening,
        last: u64,
        happened: &mut [bool],
        registers: &mut [u8],
    ) -> bool
        requires fits { (n : ℕ) → LifeFits self.now.m self.now.block (lives_of self.now n) }
        requires room { length registers.old ≡ self.now.m * self.now.block }
        requires marks { length happened.old ≡ length self.now.operations.now.found }
        ensures { TakesHappening self.now.block (lives_of self.now) last happened.old registers.old happening happened.new registers.new result }
    {
        if happening.position < last {
            return false;
        }
        let Some(found) = self.find(happening.operation) else {
            return false;
        };
        let at = happening.operation as usize - 1;
        if happened[at] || !is_in_time(self.operations, &found, self.past, happening.position) {
            return false;
        }
        if !is_read_right(self.claims, &found, self.block, registers) {
            return false;
        }
        apply(access_at(self.claims, found.begin), self.block, registers);
        happened[at] = true;
        true
    }

    /// Walks along happenings, and answers whether all go on. The registers are zero before. Where one does not go on, `happened` says
    /// nothing of this stripe's operations.
    pub(crate) fn walk(
        &self,
        happenings: &[Happening],
        happened: &mut [bool],
        registers: &mut [u8],
    ) -> bool
        requires fits { (n : ℕ) → LifeFits self.now.m self.now.block (lives_of self.now n) }
        requires room { length registers.old ≡ self.now.m * self.now.block }
        requires marks { length happened.old ≡ length self.now.operations.now.found }
        ensures { WalksAlong self.now.block (lives_of self.now) (walk_from happened.old registers.old) happenings.now happened.new result }
    {
        let mut last = 0;
        for happening in happenings {
            if !self.take(*happening, last, happened, registers) {
                return false;
            }
            last = happening.position;
        }
        true
    }
}
