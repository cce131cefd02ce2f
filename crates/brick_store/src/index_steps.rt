//! The change of a record in the index.

ghost use Rattle.std.specs.Prelude.{◌≡◌, IsSome, Some};
ghost use Rattle.brick_state.specs.Indexes.{state_of, limits_of, IsReady};
ghost use Rattle.brick_state.specs.Folds.{applied};
ghost use Rattle.brick_store.specs.Blocks.{adds_stamp, accepted_of, learnt_view};
ghost use Rattle.brick_store.specs.Steps.{changed};

use brick_state::{Group, Index, Record};
use fab_base::{Ballot, Members, Stamp, View};

/// Whether an order stamp in the place of another one is one live record more.
pub fn adds_stamp(stamp: Stamp, order: Stamp) -> bool
    ensures { result ≡ adds_stamp stamp order }
{
    order.is_same(Stamp::FIRST) && !stamp.is_same(Stamp::FIRST)
}

/// What was accepted as the successor of the learnt view of a group.
pub fn accepted_of(group: &Group) -> Option<(Ballot, Members)>
    ensures { result ≡ accepted_of group.now }
{
    match &group.ballots {
        Some((_, Some((ballot, members)))) => Some((*ballot, members.copy())),
        Some((_, None)) => None,
        None => None,
    }
}

/// The view that a group learnt.
pub fn learnt_view(group: &Group) -> View
    requires { IsSome group.now.known }
    ensures { learnt_view group.now ≡ Some result }
{
    match &group.known {
        Some((view, _)) => view.copy(),
        None => unreachable!(),
    }
}

/// Makes the change of a record that can be, for which there is room.
pub fn apply(index: &mut Index, item: &Record)
    requires ready { IsReady index.old item.now }
    requires can { IsSome (applied (limits_of index.old) item.now (state_of index.old)) }
    ensures made { state_of index.new ≡ changed (limits_of index.old) item.now (state_of index.old) }
    ensures limits { limits_of index.new ≡ limits_of index.old }
{
    let _ = index.apply(item);
}
