//! What goes first of what the replies of a phase tell: the greatest version, the refuser of the greatest stamp, and the full member, the
//! mover and the dropper of the lowest seat.

ghost use Rattle.std.specs.Prelude.{◌≡◌, Bool, Option, length, nat_lt};
ghost use Rattle.protocol.specs.declared.phases.Counted.{Counted};
ghost use Rattle.fab_base.specs.Stamps.{stamp_below};
ghost use Rattle.protocol.specs.Coordinators.{refuser_of, full_member_of, mover_of, dropper_of, is_behind};
ghost use Rattle.coord_phase.specs.Foremost.{foremost, foremost_of, told_version, yields_refuser, yields_full, yields_mover, yields_dropper};

use crate::operations::Operation;
use crate::versions::told_stamp;
use fab_base::Stamp;
use messages::Reply;
use protocol::{Counted, Dropper, FullMember, Mover, Refuser};

/// What a reply may tell; of two that are told one goes first.
trait Report: Copy {
    // what a reply tells
    ghost told: { Counted → Option Self };

    // the second goes before the first
    ghost yields: { Self → Self → Bool };

    /// What this reply tells, if it tells such a thing.
    fn told(counted: &Counted) -> Option<Self>
        ensures { result ≡ told counted.now };

    /// Whether another goes before this one.
    fn yields_to(self, other: Self) -> bool
        ensures { result ≡ yields self other };
}

/// The one of two that goes first, where there are some.
fn foremost_of<T: Report>(left: Option<T>, right: Option<T>) -> Option<T>
    ensures { result ≡ foremost_of T.yields left right }
{
    match (left, right) {
        (None, right) => right,
        (Some(left), None) => Some(left),
        (Some(left), Some(right)) => {
            if left.yields_to(right) {
                Some(right)
            } else {
                Some(left)
            }
        }
    }
}

/// What goes first of what these replies tell, if they tell one.
fn foremost<T: Report>(counted: &[Counted]) -> Option<T>
    ensures { result ≡ foremost T.told T.yields counted.now }
{
    match counted.split_first() {
        None => None,
        Some((first, others)) => foremost_of(T::told(first), foremost(others)),
    }
}

/// The stamp of a version that a reply found; the greater goes first.
impl Report for Stamp {
    ghost told = { told_version };

    ghost yields = { stamp_below };

    fn told(counted: &Counted) -> Option<Stamp> {
        told_stamp(&counted.reply)
    }

    fn yields_to(self, other: Stamp) -> bool {
        self.is_below(other)
    }
}

/// A member that told a later stamp; the greater stamp goes first, and of equals the lower seat.
impl Report for Refuser {
    ghost told = { refuser_of };

    ghost yields = { yields_refuser };

    fn told(counted: &Counted) -> Option<Refuser> {
        match &counted.reply {
            Reply::Later { stamp } => Some(Refuser {
                seat: counted.seat,
                brick: counted.brick,
                stamp: *stamp,
            }),
            _ => None,
        }
    }

    fn yields_to(self, other: Refuser) -> bool {
        self.stamp.is_below(other.stamp)
            || !other.stamp.is_below(self.stamp) && other.seat < self.seat
    }
}

/// A member that told that its store is full; the lower seat goes first.
impl Report for FullMember {
    ghost told = { full_member_of };

    ghost yields = { yields_full };

    fn told(counted: &Counted) -> Option<FullMember> {
        match &counted.reply {
            Reply::Full { live } => Some(FullMember {
                seat: counted.seat,
                brick: counted.brick,
                live: *live,
            }),
            _ => None,
        }
    }

    fn yields_to(self, other: FullMember) -> bool {
        other.seat < self.seat
    }
}

/// A member that told a later view; the lower seat goes first, whichever view it told.
impl Report for Mover {
    ghost told = { mover_of };

    ghost yields = { yields_mover };

    fn told(counted: &Counted) -> Option<Mover> {
        match &counted.reply {
            Reply::Moved { view, .. } => Some(Mover {
                seat: counted.seat,
                brick: counted.brick,
                view: *view,
            }),
            _ => None,
        }
    }

    fn yields_to(self, other: Mover) -> bool {
        other.seat < self.seat
    }
}

/// A member that told that it has dropped its versions of the view before; the lower seat goes first.
impl Report for Dropper {
    ghost told = { dropper_of };

    ghost yields = { yields_dropper };

    fn told(counted: &Counted) -> Option<Dropper> {
        match &counted.reply {
            Reply::Retired => Some(Dropper {
                seat: counted.seat,
                brick: counted.brick,
            }),
            _ => None,
        }
    }

    fn yields_to(self, other: Dropper) -> bool {
        other.seat < self.seat
    }
}

/// Whether a member's newest version is another than the one that was to be modified.
fn is_behind(reply: &Reply) -> bool
    ensures { result ≡ is_behind reply.now }
{
    matches!(reply, Reply::Behind { .. })
}

impl Operation {
    ghost use Rattle.std.specs.Prelude.{◌≡◌};
    ghost use Rattle.protocol.specs.Coordinators.{greatest_refuser, lowest_full, lowest_mover, lowest_dropper, greatest_found, some_behind};

    /// The member that told the greatest later stamp, if one did; of equals, the one of the lowest seat.
    #[tactic(auto, using(crate::proofs::Foremost::greatest_refuser_is))]
    pub fn refuser(&self) -> Option<Refuser>
        ensures { result ≡ greatest_refuser self.now.state.counted }
    {
        foremost(self.counted())
    }

    /// The member of the lowest seat that told that its store is full, if one did.
    #[tactic(auto, using(crate::proofs::Foremost::lowest_full_is))]
    pub(crate) fn full_member(&self) -> Option<FullMember>
        ensures { result ≡ lowest_full self.now.state.counted }
    {
        foremost(self.counted())
    }

    /// The member of the lowest seat that told a later view, if one did.
    #[tactic(auto, using(crate::proofs::Foremost::lowest_mover_is))]
    pub fn mover(&self) -> Option<Mover>
        ensures { result ≡ lowest_mover self.now.state.counted }
    {
        foremost::<Mover>(self.counted())
    }

    /// The member of the lowest seat that told that it has dropped its versions of the view before, if one did.
    #[tactic(auto, using(crate::proofs::Foremost::lowest_dropper_is))]
    pub(crate) fn dropper(&self) -> Option<Dropper>
        ensures { result ≡ lowest_dropper self.now.state.counted }
    {
        foremost::<Dropper>(self.counted())
    }

    /// The stamp of the greatest version that the replies tell, if they tell one.
    #[tactic(auto, using(crate::proofs::Foremost::greatest_found_is))]
    pub fn greatest_version(&self) -> Option<Stamp>
        ensures { result ≡ greatest_found self.now.state.counted }
    {
        foremost(self.counted())
    }

    /// Whether a member's newest version is another than the one that was to be modified.
    pub fn some_behind(&self) -> bool
        ensures { result ≡ some_behind self.now.state.counted }
    {
        for reply in self.counted() {
            if is_behind(&reply.reply) {
                return true;
            }
        }
        false
    }
}
