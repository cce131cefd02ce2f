//! The marks of a text, gone through once.

ghost use Rattle.std.specs.Prelude.{IfOk, MatchOption};
ghost use Rattle.transcript.specs.Marks.{marks_of};
ghost use Rattle.audit.specs.Checks.{MarksHold};
ghost use Rattle.audit.specs.Reviews.{Reviews};

use crate::lasts::LastMarks;
use crate::operations::Operations;
use fab_base::NoMem;
use layout::Layout;
use std::alloc::Global;
use transcript::ParsedMark;

/// What is kept of marks that hold.
#[derive(Drop)]
pub(crate) struct Review {
    /// The operations that begin in them.
    pub operations: Operations,
    /// The last mark of each stripe.
    pub lasts: LastMarks,
}

/// Goes through the marks of a text. None exactly where they do not hold.
pub(crate) fn go_through(
    alloc: Global,
    layout: &Layout,
    claims: &[ParsedMark],
) -> Result<Option<Review>, NoMem>
    ensures { IfOk result (λ found. MatchOption found (MarksHold layout.now (marks_of claims.now) → ⊥) (Reviews layout.now claims.now)) }
{
    let mut operations = Operations::new(alloc, layout)?;
    let mut lasts = LastMarks::new(alloc);
    for (place, claim) in claims.iter().enumerate() {
        if !operations.take(layout, claims, place, claim)? {
            return Ok(None);
        }
        lasts.take(operations.as_slice(), claim, place as u64 + 1)?;
    }
    Ok(Some(Review { operations, lasts }))
}
