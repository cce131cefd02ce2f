//! Operations on whole stripes.

ghost use Rattle.std.specs.Prelude.{◌≡◌, ◌-◌, ◌<◌, ◌≤◌, ◌^◌, true, IfOk, IfSome, OnOk, OnErr, length};
ghost use Rattle.protocol.specs.declared.phases.Phase.TheVariants.{Looks, Orders, Stores};
ghost use Rattle.protocol.specs.Coordinators.{fast_version, in_phase, greatest_refuser, once_ordered, answered_fast, Makes};
ghost use Rattle.stripe_code.specs.Codes.{block_code};
ghost use Rattle.coord_phase.specs.Operations.{StaysAsked};
ghost use Rattle.coord_phase.specs.Decisions.{SendsPhase, NeverRecovers, decision};
ghost use Rattle.coord_stripe.specs.StripeOps.{is_of_stripe};

use coord_phase::{Coordinated, Decide, Operation};
use fab_base::{NoMem, Stamp};
use messages::{Next, Turn};
use protocol::Phase;
use std::alloc::Global;

/// How an operation on a whole stripe goes on.
pub struct Stripe;

/// An open operation on a whole stripe.
pub type StripeOp = Coordinated<Stripe>;

/// Answers a read whose version all replies tell, and has the stripe of another read recovered.
fn end_look(op: &mut Operation, alloc: Global) -> Result<Next, NoMem>
    requires phase { op.old.state.phase ≡ Looks }
    requires enough { op.old.state.group.m ≤ length op.old.state.counted }
    ensures next { IfOk result (λ next. decision op.new next ≡ answered_fast (block_code op.old.block) op.old.state
        (fast_version op.old.state.counted)) }
    ensures sent { IfOk result (λ next. SendsPhase op.new next) }
    ensures stays { OnOk result (StaysAsked op.old op.new) }
    ensures state { OnOk result (op.new.state ≡ op.old.state) }
    ensures err { OnErr result (op.new ≡ op.old) }
{
    let Some(version) = op.fast_version() else {
        return Ok(op.recover(Turn::Order));
    };
    let content = op.content_of(alloc, version)?;
    Ok(op.end_look(version, content))
}

/// Goes on to store, or to another round of ordering where a member told a later stamp.
fn end_order(op: &mut Operation, alloc: Global, fresh: Option<Stamp>) -> Result<Next, NoMem>
    requires phase { op.old.state.phase ≡ Orders }
    requires few { op.old.state.call.phase < 2 ^ 32 - 1 }
    requires fresh { IfSome fresh (λ stamp. stamp.view ≡ op.old.state.stamp.view) }
    ensures next { IfOk result (λ next. decision op.new next ≡ once_ordered fresh op.old.state (greatest_refuser op.old.state.counted)
        (Makes (in_phase op.old.state Stores))) }
    ensures sent { IfOk result (λ next. SendsPhase op.new next) }
    ensures stays { OnOk result (StaysAsked op.old op.new) }
    ensures own { OnOk result (is_of_stripe op.new.state.phase ≡ true) }
    ensures never { IfOk result NeverRecovers }
    ensures err { OnErr result (op.new ≡ op.old) }
{
    match op.refuser() {
        Some(refuser) => op.order_again(alloc, fresh, refuser),
        None => Ok(Next::Send(op.make(alloc)?)),
    }
}

impl Decide for Stripe {
    ghost is_own = { is_of_stripe };

    ghost may_recover = { true };

    /// What a quorum of replies decides, by the phase.
    #[tactic(auto, unfolding(protocol::specs::Coordinators::decided))]
    fn decide(op: &mut Operation, alloc: Global, fresh: Option<Stamp>) -> Result<Next, NoMem> {
        match op.stage().phase {
            Phase::Looks => end_look(op, alloc),
            Phase::Orders => end_order(op, alloc, fresh),
            Phase::Stores => op.end_store(alloc),
            Phase::LooksAt(_)
            | Phase::OrdersAt(_)
            | Phase::Recovers
            | Phase::Descends(_)
            | Phase::LooksBack(_)
            | Phase::Modifies { .. }
            | Phase::Bases(_) => unreachable!(),
        }
    }
}
