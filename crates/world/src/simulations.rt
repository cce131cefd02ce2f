//! What a world keeps: its bricks and their clocks, and what happened.

ghost use Rattle.std.specs.Prelude.{◌≡◌, Some, IfNone, IfSome, IfOk, map};
ghost use Rattle.protocol.specs.Nodes as machine;
ghost use Rattle.protocol.specs.Nodes.{refusal_of, proposal_refusal, sync_refusal, scrub_refusal};
ghost use Rattle.world.specs.Runs.{ask_of, block_no, group_no, stripe_no, member_no, op_of};

use crate::bricks::{
    Brick, ask_brick, ask_to_propose, ask_to_scrub, ask_to_sync, boot_of, find_up, fresh_bricks,
    hand_over, start_brick, stop_brick, tick_brick,
};
use crate::histories::{History, packet_at};
use crate::trails::{Shelf, Trail};
use fab_base::{Ask, BrickId, GroupId, NoMem, Op, Refusal, StripeNo};
use layout::Layout;
use lines::{Access, Fault, Line};
use node::NodeFault;
use std::alloc::Global;

/// What a world keeps: its bricks by number, what happened, and how far it has come.
#[derive(Drop)]
pub struct Simulation {
    pub bricks: Vec<Brick>,
    pub history: History,
    pub trail: Trail,
}

/// What a line comes to.
#[derive(Clone, Copy, PartialEq, Eq)]
pub enum Outcome {
    /// Its marks, none or one, stand at the end of the marks, and what a brick reported in it at the end of the reports.
    Marks,
    /// It was refused.
    Refused(Refusal),
    /// It found nothing to do.
    Idle,
}

/// The stripe of these numbers. None exactly where there is none.
fn place_of(layout: &Layout, group: u64, stripe: u64) -> Option<(GroupId, StripeNo)>
    ensures none { IfNone result ((node : machine.Node) (op : _)
        → refusal_of layout.now node (ask_of group stripe op) ≡ Some Refusal.NoStripe) }
    ensures unscrubbed { IfNone result ((node : machine.Node) (members : _)
        → scrub_refusal layout.now node (group_no group) (stripe_no stripe) members ≡ Some Refusal.NoStripe) }
    ensures some { IfSome result (λ place. (place.0.0 ≡ group) × (place.1.0 ≡ stripe)) }
{
    if group >= layout.group_count() as u64 {
        return None;
    }
    let group = GroupId(group as u32);
    let found = layout.group(group)?;
    if stripe >= u64::from(found.stripes()) {
        return None;
    }
    Some((group, StripeNo(stripe as u32)))
}

/// The group of a number. None exactly where there is none.
fn group_of(layout: &Layout, group: u64) -> Option<GroupId>
    ensures none { IfNone result ((node : machine.Node)
        → (proposal_refusal layout.now node group ≡ Some Refusal.NoStripe) × (sync_refusal layout.now node group ≡ Some Refusal.NoStripe)) }
    ensures some { IfSome result (λ found. found ≡ group_no group) }
{
    if group < layout.group_count() as u64 {
        Some(GroupId(group as u32))
    } else {
        None
    }
}

/// A member of a number, as a brick is asked for it.
pub fn member_no(number: u64) -> BrickId
    ensures { result ≡ member_no number }
{
    if number < 65536 {
        BrickId(number as u16)
    } else {
        BrickId(u16::MAX)
    }
}

/// The members of these numbers, as a brick is asked for them.
fn members_of(alloc: Global, numbers: &[u64]) -> Result<Vec<BrickId>, NoMem>
    ensures { IfOk result (λ members. members.items ≡ map member_no numbers.now) }
{
    let mut members = Vec::with_capacity(alloc, numbers.len())?;
    for number in numbers {
        members.push(member_no(*number))?;
    }
    Ok(members)
}

/// The data block of a number, as a brick is asked for it.
fn block_no(number: u64) -> u8
    ensures { result ≡ block_no number }
{
    if number < 256 { number as u8 } else { u8::MAX }
}

/// What an operation is to do, as a brick is asked.
fn op_of(alloc: Global, access: &Access) -> Result<Op, NoMem>
    ensures value { IfOk result (λ op. op ≡ op_of access.now) }
{
    match access {
        Access::ReadBlock(block) => Ok(Op::ReadBlock(block_no(*block))),
        Access::WriteBlock(block, bytes) => {
            Ok(Op::WriteBlock(block_no(*block), bytes.copy(alloc)?))
        }
        Access::ReadStripe => Ok(Op::ReadStripe),
        Access::WriteStripe(bytes) => Ok(Op::WriteStripe(bytes.copy(alloc)?)),
    }
}

impl Simulation {
    ghost use Rattle.std.specs.Prelude.{None, map, IfOk, OnOk, OnErr};
    ghost use Rattle.protocol.specs.Worlds.Event.{Invokes, Proposes, Syncs, Scrubs, Sets, Ticks, Stops};
    ghost use Rattle.lines.specs.declared.forms.Line.TheVariants.{Deliver, Start, Calm};
    ghost use Rattle.world.specs.Runs.{brick_of, ask_of, group_no, stripe_no, member_no, op_of};
    ghost use Rattle.world.specs.Disks.{AreFreshDisks};
    ghost use Rattle.world.specs.Shown.{FindsUp, IsFirst, Stands, IsUp, AsksBricks, IsOther, MayRun, RunsAloneTo, BeginsAloneTo, GoesOn, DeliversAlone, StopsShort, RunsLine, RefusesLine, TakesEvent, StaysAs, disks_of};

    /// All bricks up, their stores fresh, their clocks at 0, and nothing sent.
    pub fn new(alloc: Global, layout: &Layout) -> Result<Simulation, NoMem>
        ensures first { IfOk result (IsFirst layout.now) }
        ensures listed { IfOk result (λ state. AreFreshDisks layout.now (disks_of state.bricks.items)) }
    {
        Ok(Simulation {
            bricks: fresh_bricks(alloc, layout)?,
            history: History::new(alloc),
            trail: Trail::new(),
        })
    }

    /// Runs a line that speaks of no suspicions. After a refusal for want of memory the state shows what it showed, or what the first deliveries of an
    /// operation that runs alone leave.
    pub fn run(&mut self, alloc: Global, layout: &Layout, line: &Line) -> Result<Outcome, NoMem>
        requires stands { Stands layout.now self.old }
        requires line { AsksBricks line.now }
        ensures ok { IfOk result (GoesOn layout.now self.old self.new line.now) }
        ensures err { OnErr result (RefusesLine layout.now self.old self.new line.now) }
    {
        match line {
            Line::Calm { operation, bricks } => {
                self.calm(alloc, layout, *operation, bricks.as_slice())
            }
            _ => self.take(alloc, layout, line),
        }
    }

    /// Runs a line that asks something of bricks, and has no operation run alone.
    fn take(&mut self, alloc: Global, layout: &Layout, line: &Line) -> Result<Outcome, NoMem>
        requires stands { Stands layout.now self.old }
        requires line { IsOther line.now }
        ensures ok { IfOk result (GoesOn layout.now self.old self.new line.now) }
        ensures err { OnErr result (StaysAs layout.now self.old self.new) }
    {
        let shelf = Shelf::of(self);
        let outcome = self.happen(alloc, layout, line)?;
        self.trail = Trail::with(&self.trail, &shelf, layout, line, &outcome, self);
        Ok(outcome)
    }

    /// What happens at such a line.
    fn happen(&mut self, alloc: Global, layout: &Layout, line: &Line) -> Result<Outcome, NoMem>
        requires stands { Stands layout.now self.old }
        requires line { IsOther line.now }
        ensures ok { IfOk result (RunsLine layout.now self.old self.new line.now) }
        ensures err { OnErr result (StaysAs layout.now self.old self.new) }
    {
        match line {
            Line::Nothing => Ok(Outcome::Marks),
            Line::Invoke {
                brick,
                group,
                stripe,
                access,
            } => self.invoke(alloc, layout, *brick, *group, *stripe, access),
            Line::Deliver { message, fault } => self.deliver(alloc, layout, *message, *fault),
            Line::SetClock { brick, time } => Ok(self.set_clock(layout, *brick, *time)),
            Line::Tick { brick } => self.tick(layout, *brick),
            Line::Crash { brick } => self.crash(alloc, layout, *brick),
            Line::Start { brick, fault } => self.start(alloc, layout, *brick, *fault),
            Line::Propose {
                brick,
                group,
                members,
            } => self.propose(alloc, layout, *brick, *group, members.as_slice()),
            Line::Sync { brick, group } => self.sync(alloc, layout, *brick, *group),
            Line::Scrub {
                brick,
                group,
                stripe,
                members,
            } => self.scrub(alloc, layout, *brick, *group, *stripe, members.as_slice()),
            Line::Suspect { .. } => unreachable!(),
            Line::Trust { .. } => unreachable!(),
            Line::Spare { .. } => unreachable!(),
            Line::Calm { .. } => unreachable!(),
        }
    }

    /// The brick of a number, where there is one and it is up.
    fn find_up(&self, layout: &Layout, number: u64) -> Option<BrickId>
        requires { Stands layout.now self.now }
        ensures { FindsUp self.now.bricks.items number result }
    {
        find_up(&self.bricks, layout, number)
    }

    /// Asks a brick for an operation.
    fn invoke(
        &mut self,
        alloc: Global,
        layout: &Layout,
        brick: u64,
        group: u64,
        stripe: u64,
        access: &Access,
    ) -> Result<Outcome, NoMem>
        requires { Stands layout.now self.old }
        ensures ok { IfOk result (TakesEvent layout.now self.old self.new (Invokes (brick_of brick) (ask_of group stripe (op_of access.now)))) }
        ensures err { OnErr result (StaysAs layout.now self.old self.new) }
    {
        let brick = match self.find_up(layout, brick) {
            Some(brick) => brick,
            None => return Ok(Outcome::Refused(Refusal::Down)),
        };
        let (group, stripe) = match place_of(layout, group, stripe) {
            Some(place) => place,
            None => return Ok(Outcome::Refused(Refusal::NoStripe)),
        };
        let op = op_of(alloc, access)?;
        self.begin(alloc, layout, brick, Ask { group, stripe, op })
    }

    /// A brick begins an operation, or refuses it.
    fn begin(
        &mut self,
        alloc: Global,
        layout: &Layout,
        brick: BrickId,
        ask: Ask,
    ) -> Result<Outcome, NoMem>
        requires up { IsUp self.old.bricks.items brick }
        requires stands { Stands layout.now self.old }
        ensures ok { IfOk result (TakesEvent layout.now self.old self.new (Invokes brick ask)) }
        ensures err { OnErr result (StaysAs layout.now self.old self.new) }
    {
        self.history.expect_call(alloc, brick)?;
        let boot = boot_of(&self.bricks, brick);
        match ask_brick(&mut self.bricks, brick, &ask) {
            Ok(begun) => {
                self.history.begin(brick, boot, ask, begun);
                Ok(Outcome::Marks)
            }
            Err(NodeFault::Refused(refusal)) => Ok(Outcome::Refused(refusal)),
            Err(NodeFault::NoMemory) => Err(NoMem::NoMemory),
            Err(NodeFault::Halted | NodeFault::Disk) => unreachable!(),
        }
    }

    /// Asks a brick to propose the members of the next view of a group.
    fn propose(
        &mut self,
        alloc: Global,
        layout: &Layout,
        brick: u64,
        group: u64,
        members: &[u64],
    ) -> Result<Outcome, NoMem>
        requires { Stands layout.now self.old }
        ensures ok { IfOk result (TakesEvent layout.now self.old self.new (Proposes (brick_of brick) (group_no group) (map member_no members.now))) }
        ensures err { OnErr result (StaysAs layout.now self.old self.new) }
    {
        let brick = match self.find_up(layout, brick) {
            Some(brick) => brick,
            None => return Ok(Outcome::Refused(Refusal::Down)),
        };
        let group = match group_of(layout, group) {
            Some(group) => group,
            None => return Ok(Outcome::Refused(Refusal::NoStripe)),
        };
        let members = members_of(alloc, members)?;
        self.begin_proposal(alloc, layout, brick, group, &members)
    }

    /// A brick begins a proposal, ends it at once, or refuses it.
    fn begin_proposal(
        &mut self,
        alloc: Global,
        _layout: &Layout,
        brick: BrickId,
        group: GroupId,
        members: &[BrickId],
    ) -> Result<Outcome, NoMem>
        requires up { IsUp self.old.bricks.items brick }
        requires stands { Stands _layout.now self.old }
        ensures ok { IfOk result (TakesEvent _layout.now self.old self.new (Proposes brick group members.now)) }
        ensures err { OnErr result (StaysAs _layout.now self.old self.new) }
    {
        self.history.expect_call(alloc, brick)?;
        match ask_to_propose(&mut self.bricks, brick, group, members) {
            Ok(outs) => {
                self.history.propose(brick, outs);
                Ok(Outcome::Marks)
            }
            Err(NodeFault::Refused(refusal)) => Ok(Outcome::Refused(refusal)),
            Err(NodeFault::NoMemory) => Err(NoMem::NoMemory),
            Err(NodeFault::Halted | NodeFault::Disk) => unreachable!(),
        }
    }

    /// Asks a brick to synchronise the view that it has learnt of a group.
    fn sync(
        &mut self,
        alloc: Global,
        layout: &Layout,
        brick: u64,
        group: u64,
    ) -> Result<Outcome, NoMem>
        requires { Stands layout.now self.old }
        ensures ok { IfOk result (TakesEvent layout.now self.old self.new (Syncs (brick_of brick) (group_no group))) }
        ensures err { OnErr result (StaysAs layout.now self.old self.new) }
    {
        let brick = match self.find_up(layout, brick) {
            Some(brick) => brick,
            None => return Ok(Outcome::Refused(Refusal::Down)),
        };
        let group = match group_of(layout, group) {
            Some(group) => group,
            None => return Ok(Outcome::Refused(Refusal::NoStripe)),
        };
        self.begin_sync(alloc, layout, brick, group)
    }

    /// A brick begins a synchronisation, ends it at once, or refuses it.
    fn begin_sync(
        &mut self,
        alloc: Global,
        _layout: &Layout,
        brick: BrickId,
        group: GroupId,
    ) -> Result<Outcome, NoMem>
        requires up { IsUp self.old.bricks.items brick }
        requires stands { Stands _layout.now self.old }
        ensures ok { IfOk result (TakesEvent _layout.now self.old self.new (Syncs brick group)) }
        ensures err { OnErr result (StaysAs _layout.now self.old self.new) }
    {
        self.history.expect_call(alloc, brick)?;
        match ask_to_sync(&mut self.bricks, brick, group) {
            Ok(outs) => {
                self.history.step(brick, outs);
                Ok(Outcome::Marks)
            }
            Err(NodeFault::Refused(refusal)) => Ok(Outcome::Refused(refusal)),
            Err(NodeFault::NoMemory) => Err(NoMem::NoMemory),
            Err(NodeFault::Halted | NodeFault::Disk) => unreachable!(),
        }
    }

    /// Asks a brick to scrub a stripe, so that these members keep one version.
    fn scrub(
        &mut self,
        alloc: Global,
        layout: &Layout,
        brick: u64,
        group: u64,
        stripe: u64,
        members: &[u64],
    ) -> Result<Outcome, NoMem>
        requires { Stands layout.now self.old }
        ensures ok { IfOk result (TakesEvent layout.now self.old self.new (Scrubs (brick_of brick) (group_no group) (stripe_no stripe) (map member_no members.now))) }
        ensures err { OnErr result (StaysAs layout.now self.old self.new) }
    {
        let brick = match self.find_up(layout, brick) {
            Some(brick) => brick,
            None => return Ok(Outcome::Refused(Refusal::Down)),
        };
        let (group, stripe) = match place_of(layout, group, stripe) {
            Some(place) => place,
            None => return Ok(Outcome::Refused(Refusal::NoStripe)),
        };
        let members = members_of(alloc, members)?;
        self.begin_scrub(alloc, layout, brick, group, stripe, &members)
    }

    /// A brick begins a scrub, or refuses it.
    fn begin_scrub(
        &mut self,
        alloc: Global,
        _layout: &Layout,
        brick: BrickId,
        group: GroupId,
        stripe: StripeNo,
        members: &[BrickId],
    ) -> Result<Outcome, NoMem>
        requires up { IsUp self.old.bricks.items brick }
        requires stands { Stands _layout.now self.old }
        ensures ok { IfOk result (TakesEvent _layout.now self.old self.new (Scrubs brick group stripe members.now)) }
        ensures err { OnErr result (StaysAs _layout.now self.old self.new) }
    {
        self.history.expect_call(alloc, brick)?;
        match ask_to_scrub(&mut self.bricks, brick, group, stripe, members) {
            Ok(outs) => {
                self.history.step(brick, outs);
                Ok(Outcome::Marks)
            }
            Err(NodeFault::Refused(refusal)) => Ok(Outcome::Refused(refusal)),
            Err(NodeFault::NoMemory) => Err(NoMem::NoMemory),
            Err(NodeFault::Halted | NodeFault::Disk) => unreachable!(),
        }
    }

    /// Delivers the message of a number, and this is to befall a call of its receiver's disk in the midst of that.
    fn deliver(
        &mut self,
        alloc: Global,
        layout: &Layout,
        message: u64,
        fault: Option<Fault>,
    ) -> Result<Outcome, NoMem>
        requires { Stands layout.now self.old }
        ensures ok { IfOk result (RunsLine layout.now self.old self.new (Deliver message fault)) }
        ensures err { OnErr result (StaysAs layout.now self.old self.new) }
    {
        self.history.make_room()?;
        let sent = &self.history.sent;
        let packet = match packet_at(&sent.packets, message) {
            Some(packet) => packet,
            None => return Ok(Outcome::Idle),
        };
        let to = match find_up(&self.bricks, layout, u64::from(packet.to.0)) {
            Some(to) => to,
            None => return Ok(Outcome::Idle),
        };
        self.history.delivered.expect(message)?;
        self.history.calls.reserve(alloc, to)?;
        match hand_over(&mut self.bricks, alloc, to, packet, fault)? {
            Some(outs) => {
                self.history.deliver(message);
                self.history.step(to, outs);
                Ok(Outcome::Marks)
            }
            None => {
                self.history.deliver(message);
                self.history.crash(to);
                Ok(Outcome::Marks)
            }
        }
    }

    /// Sets a brick's clock.
    fn set_clock(&mut self, layout: &Layout, brick: u64, time: u64) -> Outcome
        requires { Stands layout.now self.old }
        ensures { TakesEvent layout.now self.old self.new (Sets (brick_of brick) time) result }
    {
        if brick >= u64::from(layout.bricks()) {
            return Outcome::Idle;
        }
        let brick = &mut self.bricks[brick as usize];
        brick.clock = time;
        Outcome::Marks
    }

    /// A brick's clock ticks: it sends again what its open operations, its proposal, its synchronisation and its scrub wait for.
    fn tick(&mut self, layout: &Layout, brick: u64) -> Result<Outcome, NoMem>
        requires { Stands layout.now self.old }
        ensures ok { IfOk result (TakesEvent layout.now self.old self.new (Ticks (brick_of brick))) }
        ensures err { OnErr result (StaysAs layout.now self.old self.new) }
    {
        let brick = match self.find_up(layout, brick) {
            Some(brick) => brick,
            None => return Ok(Outcome::Idle),
        };
        let messages = tick_brick(&self.bricks, brick)?;
        self.history.send_more(brick, messages)?;
        Ok(Outcome::Marks)
    }

    /// A brick stops: its open operations, its proposal, its synchronisation and its scrub are gone, and what it keeps of stripes, views and ballots stays.
    fn crash(&mut self, alloc: Global, layout: &Layout, brick: u64) -> Result<Outcome, NoMem>
        requires { Stands layout.now self.old }
        ensures ok { IfOk result (TakesEvent layout.now self.old self.new (Stops (brick_of brick) None)) }
        ensures err { OnErr result (StaysAs layout.now self.old self.new) }
    {
        let brick = match self.find_up(layout, brick) {
            Some(brick) => brick,
            None => return Ok(Outcome::Idle),
        };
        self.history.make_room()?;
        stop_brick(&mut self.bricks, alloc, brick);
        self.history.crash(brick);
        Ok(Outcome::Marks)
    }

    /// A brick that stopped starts again, over its disk, and this is to befall a call of that in the midst of it.
    fn start(
        &mut self,
        alloc: Global,
        layout: &Layout,
        brick: u64,
        fault: Option<Fault>,
    ) -> Result<Outcome, NoMem>
        requires { Stands layout.now self.old }
        ensures ok { IfOk result (RunsLine layout.now self.old self.new (Start brick fault)) }
        ensures err { OnErr result (StaysAs layout.now self.old self.new) }
    {
        if brick >= u64::from(layout.bricks()) {
            return Ok(Outcome::Idle);
        }
        if start_brick(
            &mut self.bricks,
            alloc,
            layout,
            BrickId(brick as u16),
            fault,
        )? {
            Ok(Outcome::Marks)
        } else {
            Ok(Outcome::Idle)
        }
    }

    /// Has the operation whose marks have a number run alone among these bricks until it has ended, where it may.
    fn calm(
        &mut self,
        alloc: Global,
        layout: &Layout,
        mark: u64,
        bricks: &[u64],
    ) -> Result<Outcome, NoMem>
        requires { Stands layout.now self.old }
        ensures ok { IfOk result (GoesOn layout.now self.old self.new (Calm mark bricks.now)) }
        ensures err { OnErr result (StopsShort layout.now self.old self.new (Calm mark bricks.now)) }
    {
        self.history.chain_sent();
        let operation = self.history.number_marked(mark);
        if !self.is_calm(layout, operation, bricks) {
            return Ok(Outcome::Idle);
        }
        // It tells that the layout is within its limits.
        let _ = layout.bricks();
        if self.run_alone(alloc, layout, operation, bricks)? {
            Ok(Outcome::Marks)
        } else {
            Ok(Outcome::Idle)
        }
    }

    /// Makes the deliveries of an operation that runs alone among these bricks. Answers whether there was one.
    fn run_alone(
        &mut self,
        alloc: Global,
        layout: &Layout,
        operation: u64,
        bricks: &[u64],
    ) -> Result<bool, NoMem>
        requires { MayRun layout.now self.old operation bricks.now }
        ensures run { IfOk result (RunsAloneTo layout.now self.old self.new operation bricks.now) }
        ensures cut { OnErr result (BeginsAloneTo layout.now self.old self.new operation bricks.now) }
    {
        let mut from: usize = 0;
        let mut some = false;
        while let Some(record) = self.open_record(operation) {
            let Some(place) = self
                .history
                .delivered
                .next_left(&self.history.sent, record, bricks, from)
            else {
                return Ok(some);
            };
            self.deliver_alone(alloc, layout, place as u64 + 1)?;
            from = place + 1;
            some = true;
        }
        Ok(some)
    }

    /// Delivers the message of a number to an operation that runs alone, and chains what its receiver sends.
    fn deliver_alone(&mut self, alloc: Global, layout: &Layout, message: u64) -> Result<(), NoMem>
        requires { Stands layout.now self.old }
        ensures ok { OnOk result (DeliversAlone layout.now self.old self.new message) }
        ensures err { OnErr result (StaysAs layout.now self.old self.new) }
    {
        let line = Line::Deliver {
            message,
            fault: None,
        };
        self.take(alloc, layout, &line)?;
        self.history.chain_sent();
        Ok(())
    }
}
