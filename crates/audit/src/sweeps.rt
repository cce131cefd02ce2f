//! The stripes of a text, one after another.

ghost use Rattle.std.specs.Prelude.{◌≡◌, IfOk, length, option_copied, replicate};
ghost use Rattle.fab_base.specs.Layouts.{group_of};
ghost use Rattle.audit.specs.Reviews.{Reviews};
ghost use Rattle.audit.specs.Sweeps.{AnswersLine, LinesStop, none_happened, happened_along, happened_in, is_missing, was_answered, name_before, earlier, with_missing, first_missing};

use crate::operations::{Operation, outcome_at};
use crate::reviews::Review;
use crate::walks::Stripe;
use fab_base::NoMem;
use layout::{Group, Layout};
use reg_model::Happening;
use std::alloc::Global;
use transcript::{ParsedAnswer, ParsedMark, StripeLine};

/// A stripe, by its group and its number there.
#[derive(Clone, Copy)]
pub(crate) struct StripeName {
    /// The group.
    pub group: u64,
    /// The stripe within the group.
    pub stripe: u64,
}

/// The group of a number, if there is one.
fn find_group(layout: &Layout, group: u64) -> Option<&Group>
    ensures { option_copied result ≡ group_of layout.now group }
{
    layout.groups().get(group as usize)
}

/// So many zeros.
fn zeros(alloc: Global, count: usize) -> Result<Vec<u8>, NoMem>
    ensures { IfOk result (λ made. made.items ≡ replicate count 0) }
{
    Ok(vec![in alloc; 0; count]?)
}

/// Of so many operations none has happened.
fn none_happened(alloc: Global, count: usize) -> Result<Vec<bool>, NoMem>
    ensures { IfOk result (λ made. made.items ≡ none_happened count) }
{
    Ok(vec![in alloc; false; count]?)
}

/// Whether the happenings that a line says go on, from zero, in a group that has the stripe. `happened` tells of each operation whether
/// it has happened.
fn line_goes(
    alloc: Global,
    layout: &Layout,
    claims: &[ParsedMark],
    review: &Review,
    line: &StripeLine,
    happened: &mut [bool],
) -> Result<bool, NoMem>
    requires review { Reviews layout.now claims.now review.now }
    requires marks { length happened.old ≡ length review.now.operations.found }
    ensures { IfOk result (λ goes. AnswersLine layout.now claims.now review.now happened.old happened.new line.now goes) }
{
    let Some(group) = find_group(layout, line.group) else {
        return Ok(false);
    };
    if line.stripe >= u64::from(group.stripes()) {
        return Ok(false);
    }
    let m = group.m();
    let block = usize::from(layout.block());
    let mut registers = zeros(alloc, usize::from(m) * block)?;
    let stripe = Stripe {
        claims,
        operations: &review.operations,
        group: line.group,
        stripe: line.stripe,
        past: review.lasts.past(line.group, line.stripe),
        m,
        block,
    };
    Ok(stripe.walk(
        line.happenings.as_slice(),
        happened,
        registers.as_mut_slice(),
    ))
}

/// The place of the first line whose happenings do not go on.
fn stop_among(
    alloc: Global,
    layout: &Layout,
    claims: &[ParsedMark],
    review: &Review,
    lines: &[StripeLine],
    happened: &mut [bool],
) -> Result<Option<usize>, NoMem>
    requires review { Reviews layout.now claims.now review.now }
    requires marks { length happened.old ≡ length review.now.operations.found }
    ensures { IfOk result (λ stop. LinesStop layout.now claims.now review.now happened.old lines.now stop) }
{
    for (place, line) in lines.iter().enumerate() {
        if !line_goes(alloc, layout, claims, review, line, happened)? {
            return Ok(Some(place));
        }
    }
    Ok(None)
}

/// The same, where no operation has happened before.
pub(crate) fn first_stop(
    alloc: Global,
    layout: &Layout,
    claims: &[ParsedMark],
    review: &Review,
    lines: &[StripeLine],
) -> Result<Option<usize>, NoMem>
    requires { Reviews layout.now claims.now review.now }
    ensures { IfOk result (λ stop. LinesStop layout.now claims.now review.now (none_happened (length review.now.operations.found)) lines.now stop) }
{
    let count = review.operations.as_slice().len();
    let mut happened = none_happened(alloc, count)?;
    stop_among(
        alloc,
        layout,
        claims,
        review,
        lines,
        happened.as_mut_slice(),
    )
}

/// Marks the operations of these happenings.
fn mark(happened: &mut [bool], happenings: &[Happening])
    ensures { happened.new ≡ happened_along happened.old happenings.now }
{
    for happening in happenings {
        let at = happening.operation.saturating_sub(1) as usize;
        if at < happened.len() {
            happened[at] = true;
        }
    }
}

/// Which of so many operations have happened along lines.
pub(crate) fn happened_in(
    alloc: Global,
    count: usize,
    lines: &[StripeLine],
) -> Result<Vec<bool>, NoMem>
    ensures { IfOk result (λ happened. happened.items ≡ happened_in (none_happened count) lines.now) }
{
    let mut happened = none_happened(alloc, count)?;
    for line in lines {
        mark(happened.as_mut_slice(), line.happenings.as_slice());
    }
    Ok(happened)
}

/// Whether an operation was answered by data or as done.
fn was_answered(claims: &[ParsedMark], operation: &Operation) -> bool
    ensures { result ≡ was_answered claims.now operation.now.end }
{
    match operation.end {
        Some(place) => match outcome_at(claims, place) {
            Some(ParsedAnswer::Aborted(_)) => false,
            Some(ParsedAnswer::Data(_)) | Some(ParsedAnswer::Done) | None => true,
        },
        None => false,
    }
}

/// The earlier of two stripes.
fn earlier(first: Option<StripeName>, name: StripeName) -> Option<StripeName>
    ensures { result ≡ earlier first name }
{
    match first {
        None => Some(name),
        Some(found) => {
            if is_before(name, found) {
                Some(name)
            } else {
                Some(found)
            }
        }
    }
}

/// Whether a stripe is before another, by group and then by number.
fn is_before(name: StripeName, other: StripeName) -> bool
    ensures { result ≡ name_before name other }
{
    name.group < other.group || (name.group == other.group && name.stripe < other.stripe)
}

/// The earlier of this stripe, where there is one, and that of the operation, where it was answered and did not happen.
fn with_missing(
    claims: &[ParsedMark],
    operation: &Operation,
    happened: bool,
    first: Option<StripeName>,
) -> Option<StripeName>
    ensures { result ≡ with_missing claims.now operation.now happened first }
{
    if happened || !was_answered(claims, operation) {
        return first;
    }
    let name = StripeName {
        group: operation.group,
        stripe: operation.stripe,
    };
    earlier(first, name)
}

/// The first of this stripe, where there is one, and the stripes of answered operations that did not happen.
pub(crate) fn first_missing(
    claims: &[ParsedMark],
    operations: &[Operation],
    happened: &[bool],
    first: Option<StripeName>,
) -> Option<StripeName>
    requires { length happened.now ≡ length operations.now }
    ensures { result ≡ first_missing claims.now operations.now happened.now first }
{
    let mut found = first;
    for (place, operation) in operations.iter().enumerate() {
        found = with_missing(claims, operation, happened[place], found);
    }
    found
}
