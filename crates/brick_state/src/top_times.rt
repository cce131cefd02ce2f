//! The greatest time that is kept.
//!
//! The stripes of a view are walked for it only if its stamp goes for one of an earlier time. No event of the protocol's
//! machine puts an order stamp back to an earlier time (`orders` of `protocol_laws::no_event_lowers`). What a Collect drops
//! is below a version that stays, and not of a later time if the two are of one view: that they are, no clause says.

ghost use Rattle.std.specs.Prelude.{◌≡◌, ◌≤◌, ℕ, IfSome, IsSome};
ghost use Rattle.brick_state.specs.TopTimes.{IsReplaced};

/// The greatest of some times after one of them is lost and another one comes. None where the greatest one is lost for an
/// earlier one: then another one may be the greatest.
pub fn replaced(top: u64, lost: u64, come: u64) -> Option<u64>
    ensures greatest { (after : ℕ) → IsReplaced top lost come after → IfSome result (λ time. time ≡ after) }
    ensures known { lost ≤ come → IsSome result }
{
    if come >= top {
        Some(come)
    } else if lost < top {
        Some(top)
    } else {
        None
    }
}
