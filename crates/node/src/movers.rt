//! Members that told a later view, and the operations that end upon it.

ghost use Rattle.std.specs.Prelude.{◌≡◌, [], ◌∷◌, ◌++◌, Some, option_map};
ghost use Rattle.fab_base.specs.declared.answers.Answer.TheVariants.{Aborted};
ghost use Rattle.fab_base.specs.declared.answers.Cause as cause;
ghost use Rattle.protocol.specs.declared.phases.Counted.{Counted};
ghost use Rattle.protocol.specs.Coordinators.{mover_of, lowest_mover};
ghost use Rattle.node.specs.Operations.{EndsOrWaits};

use coord_phase::Operation;
use fab_base::{BrickId, Cause, ViewNo};
use messages::Reply;
use protocol::{Counted, Mover};

/// The member that told a later view, where this reply tells one.
fn mover_of(counted: &Counted) -> Option<Mover>
    ensures { result ≡ mover_of counted.now }
{
    match &counted.reply {
        Reply::Moved { view, .. } => Some(Mover {
            seat: counted.seat,
            brick: counted.brick,
            view: *view,
        }),
        _ => None,
    }
}

/// The member of the lowest seat that told a later view, of those whose replies count and of one that tells it last.
fn lowest_mover(counted: &[Counted], last: Mover) -> Mover
    ensures { (c : Counted) → mover_of c ≡ Some last → lowest_mover (counted.now ++ (c ∷ [])) ≡ Some result }
{
    let Some((first, others)) = counted.split_first() else {
        return last;
    };
    let later = lowest_mover(others, last);
    match mover_of(first) {
        Some(mover) if later.seat >= mover.seat => mover,
        _ => later,
    }
}

/// By which cause an operation is aborted on a member's reply that counts and tells this later view: by the mover of the lowest seat. None where it waits for more
/// replies.
pub(crate) fn moved_cause(op: &Operation, from: BrickId, view: ViewNo) -> Option<Cause>
    ensures { EndsOrWaits op.now.state from view (option_map (λ (cause : cause.Cause). Aborted cause) result) }
{
    let Some(seat) = op.asked().seat_of(from) else {
        return None;
    };
    let counted = op.counted();
    if counted.len() + 1 < op.needed() {
        return None;
    }
    let last = Mover {
        seat,
        brick: from,
        view,
    };
    let Mover { brick, view, .. } = lowest_mover(counted, last);
    Some(Cause::Moved { brick, view })
}
