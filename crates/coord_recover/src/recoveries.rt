//! Recoveries.

ghost use Rattle.std.specs.Prelude.{◌≡◌, ◌-◌, ◌<◌, ◌^◌, true, false, IfOk, IfSome, OnOk, OnErr};
ghost use Rattle.protocol.specs.declared.phases.Phase.TheVariants.{Recovers};
ghost use Rattle.protocol.specs.Coordinators.{in_phase, lower_phase, read_back, greatest_found, greatest_refuser, once_ordered, unless_refused};
ghost use Rattle.stripe_code.specs.Codes.{block_code};
ghost use Rattle.coord_phase.specs.Messages.{phase_messages};
ghost use Rattle.coord_phase.specs.Operations.{StaysAsked, telling};
ghost use Rattle.coord_phase.specs.declared.operations.News.TheVariants as news;
ghost use Rattle.coord_phase.specs.Decisions.{SendsPhase, NeverRecovers, IsSend, HasBlocks, decision};
ghost use Rattle.coord_recover.specs.Recoveries.{is_of_recovery, entered};

use coord_phase::{Coordinated, Decide, Operation};
use fab_base::{NoMem, Stamp};
use messages::{Messages, Next, Turn};
use protocol::Phase;
use std::alloc::Global;

/// How the recovery of a stripe goes on.
pub struct Recovering;

/// A stripe's recovery, under way for an operation.
pub type Recovery = Coordinated<Recovering>;

/// Begins the recovery of the operation's stripe in the next phase of its call, and gives the phase's messages. One that begins with the
/// store makes no version: the operation made it as it began to modify.
fn take_turn(op: &mut Operation, alloc: Global, turn: Turn) -> Result<Messages, NoMem>
    requires phase { op.old.state.call.phase < 2 ^ 32 - 1 }
    requires content { HasBlocks op.old.block op.old.state.group.m turn }
    ensures state { OnOk result (op.new ≡ entered op.old turn) }
    ensures own { OnOk result (is_of_recovery op.new.state.phase ≡ true) }
    ensures messages { IfOk result (λ messages. messages.items ≡ phase_messages op.new) }
{
    match turn {
        Turn::Order => op.begin(alloc, op.next_stage(Phase::Recovers)),
        Turn::Down(bound) => op.begin(alloc, op.next_stage(Phase::Descends(bound))),
        Turn::Store { base, content } => op.restore(alloc, base, content),
    }
}

/// Looks for the greatest version below this one: in the view before, once the operation looks back. Where memory runs out nothing has changed.
fn look_lower(op: &mut Operation, alloc: Global, version: Stamp) -> Result<Messages, NoMem>
    requires few { op.old.state.call.phase < 2 ^ 32 - 1 }
    ensures state { OnOk result (op.new ≡ telling op.old (in_phase op.old.state (lower_phase op.old.state.phase version)) news.Nothing) }
    ensures own { OnOk result (is_of_recovery op.new.state.phase ≡ true) }
    ensures messages { IfOk result (λ messages. messages.items ≡ phase_messages op.new) }
    ensures err { OnErr result (op.new ≡ op.old) }
{
    match op.stage().phase {
        Phase::LooksBack(_) => op.begin(alloc, op.next_stage(Phase::LooksBack(Some(version)))),
        Phase::Looks
        | Phase::LooksAt(_)
        | Phase::Orders
        | Phase::OrdersAt(_)
        | Phase::Recovers
        | Phase::Descends(_)
        | Phase::Modifies { .. }
        | Phase::Bases(_)
        | Phase::Stores => op.begin(alloc, op.next_stage(Phase::Descends(version))),
    }
}

/// Reads back the greatest version that the replies tell, and begins to store what the operation makes of it, where they tell m blocks of
/// it; else looks for the greatest version below it. Where they tell none, asks the members of the view before; where there is no such view, or they were asked
/// already, forgets the replies, and waits for more. After want of memory nothing has changed.
fn read_back(op: &mut Operation, alloc: Global) -> Result<Next, NoMem>
    requires few { op.old.state.call.phase < 2 ^ 32 - 1 }
    requires phase { is_of_recovery op.old.state.phase ≡ true }
    ensures next { IfOk result (λ next. decision op.new next ≡ read_back op.old.block (block_code op.old.block) op.old.state (greatest_found op.old.state.counted)) }
    ensures sent { IfOk result (λ next. SendsPhase op.new next) }
    ensures never { IfOk result NeverRecovers }
    ensures own { OnOk result (is_of_recovery op.new.state.phase ≡ true) }
    ensures stays { OnOk result (StaysAsked op.old op.new) }
    ensures err { OnErr result (op.new ≡ op.old) }
{
    let Some(version) = op.greatest_version() else {
        if op.may_look_back() {
            let stage = op.next_stage(Phase::LooksBack(None));
            return Ok(Next::Send(op.begin(alloc, stage)?));
        }
        op.forget();
        return Ok(op.wait());
    };
    if op.blocks_of(version) < op.group().m() as usize {
        return Ok(Next::Send(look_lower(op, alloc, version)?));
    }
    let content = op.content_of(alloc, version)?;
    let messages = op.make_on(alloc, version, content)?;
    Ok(Next::Send(messages))
}

/// Reads a version back, or goes on to another round of ordering where a member told a later stamp.
fn end_order(op: &mut Operation, alloc: Global, fresh: Option<Stamp>) -> Result<Next, NoMem>
    requires few { op.old.state.call.phase < 2 ^ 32 - 1 }
    requires phase { op.old.state.phase ≡ Recovers }
    requires fresh { IfSome fresh (λ stamp. stamp.view ≡ op.old.state.stamp.view) }
    ensures next { IfOk result (λ next. decision op.new next ≡ once_ordered fresh op.old.state (greatest_refuser op.old.state.counted)
        (read_back op.old.block (block_code op.old.block) op.old.state (greatest_found op.old.state.counted))) }
    ensures sent { IfOk result (λ next. SendsPhase op.new next) }
    ensures never { IfOk result NeverRecovers }
    ensures own { OnOk result (is_of_recovery op.new.state.phase ≡ true) }
    ensures stays { OnOk result (StaysAsked op.old op.new) }
    ensures err { OnErr result (op.new ≡ op.old) }
{
    match op.refuser() {
        Some(refuser) => op.order_again(alloc, fresh, refuser),
        None => read_back(op, alloc),
    }
}

/// Reads an older version back, unless a member told a later stamp.
fn end_descent(op: &mut Operation, alloc: Global) -> Result<Next, NoMem>
    requires few { op.old.state.call.phase < 2 ^ 32 - 1 }
    requires phase { is_of_recovery op.old.state.phase ≡ true }
    ensures next { IfOk result (λ next. decision op.new next ≡ unless_refused (greatest_refuser op.old.state.counted)
        (read_back op.old.block (block_code op.old.block) op.old.state (greatest_found op.old.state.counted))) }
    ensures sent { IfOk result (λ next. SendsPhase op.new next) }
    ensures never { IfOk result NeverRecovers }
    ensures own { OnOk result (is_of_recovery op.new.state.phase ≡ true) }
    ensures stays { OnOk result (StaysAsked op.old op.new) }
    ensures err { OnErr result (op.new ≡ op.old) }
{
    match op.refuser() {
        Some(refuser) => Ok(op.abort(refuser)),
        None => read_back(op, alloc),
    }
}

impl Decide for Recovering {
    ghost is_own = { is_of_recovery };

    ghost may_recover = { false };

    /// What a quorum of replies decides, by the phase.
    #[tactic(auto, unfolding(protocol::specs::Coordinators::decided))]
    fn decide(op: &mut Operation, alloc: Global, fresh: Option<Stamp>) -> Result<Next, NoMem> {
        match op.stage().phase {
            Phase::Recovers => end_order(op, alloc, fresh),
            Phase::Descends(_) => end_descent(op, alloc),
            Phase::LooksBack(_) => read_back(op, alloc),
            Phase::Stores => op.end_store(alloc),
            Phase::Looks
            | Phase::LooksAt(_)
            | Phase::Orders
            | Phase::OrdersAt(_)
            | Phase::Modifies { .. }
            | Phase::Bases(_) => unreachable!(),
        }
    }
}

/// Begins the recovery of the stripe of an operation that asks for it, in the next phase of its call; what was read back is m blocks.
///
/// # Errors
///
/// `NoMemory` where no memory was left.
pub fn follow(alloc: Global, op: &Operation, turn: Turn) -> Result<(Recovery, Next), NoMem>
    requires phase { op.now.state.call.phase < 2 ^ 32 - 1 }
    requires content { HasBlocks op.now.block op.now.state.group.m turn }
    ensures op { IfOk result (λ begun. begun.0 ≡ entered op.now turn) }
    ensures send { IfOk result (λ begun. IsSend begun.1) }
    ensures sent { IfOk result (λ begun. SendsPhase begun.0 begun.1) }
{
    let mut op = op.renewed(alloc)?;
    let messages = take_turn(&mut op, alloc, turn)?;
    Ok((Coordinated::new(alloc, op), Next::Send(messages)))
}
