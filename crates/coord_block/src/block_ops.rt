//! Operations on one data block.

ghost use Rattle.std.specs.Prelude.{◌≡◌, ◌-◌, ◌<◌, ◌^◌, true, IfOk, IfSome, OnOk, OnErr};
ghost use Rattle.protocol.specs.declared.phases.Phase.TheVariants.{LooksAt, OrdersAt, Modifies, Bases};
ghost use Rattle.protocol.specs.Coordinators.{fast_version_at, common_version_at, greatest_refuser, once_ordered, unless_refused, answered_fast_at, modified_if, once_modified, rebuilt};
ghost use Rattle.stripe_code.specs.Codes.{block_code};
ghost use Rattle.coord_phase.specs.Operations.{StaysAsked};
ghost use Rattle.coord_phase.specs.Decisions.{SendsPhase, NeverRecovers, AsksRecovery, decision};
ghost use Rattle.coord_block.specs.BlockOps.{is_of_block};

use coord_phase::{Coordinated, Decide, Operation};
use fab_base::{Answer, Bytes, NoMem, Stamp};
use messages::{Next, Turn};
use protocol::Phase;
use std::alloc::Global;

/// How an operation on one data block goes on.
pub struct Block;

/// An open operation on one data block.
pub type BlockOp = Coordinated<Block>;

/// Answers a read of data block `j` whose version all replies tell, where the block's seat has replied, with the bytes that it tells; has the
/// stripe of another read recovered.
fn end_look(op: &mut Operation, alloc: Global, j: u8) -> Result<Next, NoMem>
    requires few { op.old.state.call.phase < 2 ^ 32 - 1 }
    ensures next { IfOk result (λ next. decision op.new next ≡ answered_fast_at op.old.state j (fast_version_at j op.old.state.counted)) }
    ensures sent { IfOk result (λ next. SendsPhase op.new next) }
    ensures stays { OnOk result (StaysAsked op.old op.new) }
    ensures state { OnOk result (op.new.state ≡ op.old.state) }
    ensures recovery { IfOk result (λ next. AsksRecovery true op.old.block next op.old.state op.new.state) }
    ensures err { OnErr result (op.new ≡ op.old) }
{
    let Some(version) = op.fast_version_at(j) else {
        return Ok(op.recover(Turn::Order));
    };
    let block = Bytes::from_slice(alloc, op.bytes_at(j))?;
    Ok(op.end_look(version, block))
}

/// Has each member modify the version that all replies find, where there is one and the seat of data block `j` has replied; else looks for
/// the greatest version below its stamp. Another round of ordering begins where a member told a later stamp.
fn end_order(op: &mut Operation, alloc: Global, j: u8, fresh: Option<Stamp>) -> Result<Next, NoMem>
    requires phase { op.old.state.phase ≡ OrdersAt j }
    requires few { op.old.state.call.phase < 2 ^ 32 - 1 }
    requires fresh { IfSome fresh (λ stamp. stamp.view ≡ op.old.state.stamp.view) }
    ensures next { IfOk result (λ next. decision op.new next ≡ once_ordered fresh op.old.state (greatest_refuser op.old.state.counted)
        (modified_if (block_code op.old.block) op.old.state j (common_version_at j op.old.state.counted))) }
    ensures sent { IfOk result (λ next. SendsPhase op.new next) }
    ensures stays { OnOk result (StaysAsked op.old op.new) }
    ensures own { OnOk result (is_of_block op.new.state.phase ≡ true) }
    ensures recovery { IfOk result (λ next. AsksRecovery true op.old.block next op.old.state op.new.state) }
    ensures err { OnErr result (op.new ≡ op.old) }
{
    if let Some(refuser) = op.refuser() {
        return op.order_again(alloc, fresh, refuser);
    }
    match op.common_version_at(j) {
        Some(base) => Ok(Next::Send(op.modify(alloc, base, j)?)),
        None => Ok(op.recover(Turn::Down(op.stage().stamp))),
    }
}

/// Ends the operation with the version that it made, where all members that replied hold it; where one had another version than the base
/// meanwhile, asks all for that base.
fn end_modify(op: &mut Operation, alloc: Global, base: Stamp) -> Result<Next, NoMem>
    requires few { op.old.state.call.phase < 2 ^ 32 - 1 }
    requires phase { is_of_block op.old.state.phase ≡ true }
    ensures next { IfOk result (λ next. decision op.new next ≡ unless_refused (greatest_refuser op.old.state.counted)
        (once_modified op.old.state base)) }
    ensures sent { IfOk result (λ next. SendsPhase op.new next) }
    ensures stays { OnOk result (StaysAsked op.old op.new) }
    ensures own { OnOk result (is_of_block op.new.state.phase ≡ true) }
    ensures never { IfOk result NeverRecovers }
    ensures err { OnErr result (op.new ≡ op.old) }
{
    if let Some(refuser) = op.refuser() {
        return Ok(op.abort(refuser));
    }
    if op.some_behind() {
        let stage = op.next_stage(Phase::Bases(base));
        return Ok(Next::Send(op.begin(alloc, stage)?));
    }
    Ok(op.end_made(Answer::Done))
}

/// Has the stripe stored whole, with what the operation makes of its base, where the replies tell m blocks of that; with fewer it forgets
/// them, and waits for more.
fn end_base(op: &mut Operation, alloc: Global, base: Stamp) -> Result<Next, NoMem>
    requires few { op.old.state.call.phase < 2 ^ 32 - 1 }
    requires phase { op.old.state.phase ≡ Bases base }
    ensures next { IfOk result (λ next. decision op.new next ≡ unless_refused (greatest_refuser op.old.state.counted)
        (rebuilt op.old.block (block_code op.old.block) op.old.state base)) }
    ensures sent { IfOk result (λ next. SendsPhase op.new next) }
    ensures stays { OnOk result (StaysAsked op.old op.new) }
    ensures own { OnOk result (is_of_block op.new.state.phase ≡ true) }
    ensures recovery { IfOk result (λ next. AsksRecovery true op.old.block next op.old.state op.new.state) }
    ensures err { OnErr result (op.new ≡ op.old) }
{
    if let Some(refuser) = op.refuser() {
        return Ok(op.abort(refuser));
    }
    if op.blocks_of(base) < op.group().m() as usize {
        op.forget();
        return Ok(op.wait());
    }
    let content = op.content_of(alloc, base)?;
    Ok(op.recover(Turn::Store { base, content }))
}

impl Decide for Block {
    ghost is_own = { is_of_block };

    ghost may_recover = { true };

    /// What a quorum of replies decides, by the phase.
    #[tactic(auto, unfolding(protocol::specs::Coordinators::decided))]
    fn decide(op: &mut Operation, alloc: Global, fresh: Option<Stamp>) -> Result<Next, NoMem> {
        match op.stage().phase {
            Phase::LooksAt(j) => end_look(op, alloc, j),
            Phase::OrdersAt(j) => end_order(op, alloc, j, fresh),
            Phase::Modifies { base, .. } => end_modify(op, alloc, base),
            Phase::Bases(base) => end_base(op, alloc, base),
            Phase::Looks
            | Phase::Orders
            | Phase::Recovers
            | Phase::Descends(_)
            | Phase::LooksBack(_)
            | Phase::Stores => unreachable!(),
        }
    }
}
