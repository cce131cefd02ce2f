//! The bricks of a world: each is a disk in memory, and the brick that runs over it while it is up.

ghost use Rattle.std.specs.Prelude.{◌≡◌, ◌≢◌, ◌+◌, ◌^◌, ◌<◌, ◌≤◌, true, false, List, [], Some, Err, IfOk, IfSome, OnErr, vec_len, length, map};
ghost use Rattle.protocol.specs.Nodes as machine;
ghost use Rattle.protocol.specs.Nodes.{ticked};
ghost use Rattle.protocol.specs.Worlds.{first_world, has_old_stores};
ghost use Rattle.stripe_code.specs.Codes.{coding};
ghost use Rattle.coord_phase.specs.Messages.{packets_from};
ghost use Rattle.fab_disk.specs.MemDisk.{content_of, may_be_left, IsSound};
ghost use Rattle.frame_store.specs.Images.{OpensAs};
ghost use Rattle.frame_store.specs.Layouts.{formed};
ghost use Rattle.frame_store.specs.declared.shapes.Form.TheVariants.{Old};
ghost use Rattle.brick_store.specs.Images.{IsListed};
ghost use Rattle.node.specs.Running.{shape_at, state_of};
ghost use Rattle.world.specs.Faults.{LeftBy, plan_of};
ghost use Rattle.world.specs.Disks.{ShowsDisk, AreFreshDisks};
ghost use Rattle.world.specs.Shown.{Rests, Runs, IsFreshBrick, ShowsBricks, Takes, TurnsOn, FindsUp, IsUp, AreBricksOf, AreNodesOf, most_sent, reads_begun, disk_in, disks_of, running_at, unopened};
ghost use Rattle.world.specs.BrickSteps.{ChangesBrick, RunsOn, DoesBegin, DoesPropose, DoesSync, DoesScrub, DoesHandle, DoesStart, Stops};

use brick_store::OpenFault;
use fab_base::{Ask, BrickId, GroupId, IoFault, NoMem, StripeNo};
use fab_disk::{Armed, MemDisk, Plan};
use layout::Layout;
use lines::Fault;
use messages::{Messages, Packet};
use node::{Begun, Node, NodeFault, Outs};
use std::alloc::Global;
use std::mem;

/// Whether a brick is up.
#[derive(Drop)]
pub enum Power {
    /// It runs over its disk.
    Up(Node<MemDisk>),
    /// Its disk is all that is left of it.
    Down(MemDisk),
}

/// A brick, and what its clock reads.
#[derive(Drop)]
pub struct Brick {
    pub power: Power,
    pub clock: u64,
}

/// What is to befall a call of a disk.
fn plan_of(fault: Option<Fault>) -> Plan
    ensures { result ≡ plan_of fault }
{
    match fault {
        None => Plan::Never,
        Some(Fault::Cut { call, pick: _ }) => Plan::Stop(call),
        Some(Fault::Fail { call }) => Plan::Fail(call),
    }
}

/// What is left of a disk whose call this befell.
fn left_by(disk: MemDisk, fault: Option<Fault>) -> MemDisk
    ensures left { LeftBy fault disk result }
    ensures crash { (image : _) → may_be_left result image → may_be_left disk image }
    ensures sound { IsSound disk → IsSound result }
{
    let mut disk = disk;
    if let Some(Fault::Cut { call: _, pick }) = fault {
        disk.settle(pick);
    }
    disk
}

/// Looks at a brick that runs: how much its store lists is told by what its disk holds.
fn look(node: &Node<MemDisk>)
    ensures shape { node.now.brick.shape ≡ shape_at node.now.layout node.now.me }
    ensures listed { node.now.brick.halted ≡ false → IsListed node.now.brick.shape node.now.brick.listed (content_of node.now.brick.disk) }
{
    let _ = node.is_halted();
    let _ = node.store().is_halted();
}

/// A brick that runs is handed a message, and this is to befall a call of its disk in the midst of that. Answers what the brick is then, and
/// what it sends where it took the message whole.
fn take_message(
    node: Node<MemDisk>,
    time: u64,
    packet: &Packet,
    fault: Option<Fault>,
) -> (Power, Result<Option<Outs>, NoMem>)
    requires { Runs node }
    ensures takes { Takes node.layout node.me (state_of node) time packet.now node.brick.disk fault result.0 result.1 }
    ensures few { IfOk result.1 (λ outs. IfSome outs (λ sent. length sent.messages ≤ most_sent)) }
    ensures reads { IfOk result.1 (λ outs. IfSome outs (λ sent. reads_begun sent.told ≤ 1)) }
{
    let mut node = node;
    node.arm(plan_of(fault));
    look(&node);
    match node.on_message(time, packet) {
        Ok(outs) => {
            // What was synced need not be undone any more: the disk lets go of it.
            node.arm(Plan::Never);
            look(&node);
            (Power::Up(node), Ok(Some(outs)))
        }
        Err(NodeFault::Disk) => (Power::Down(left_by(node.into_disk(), fault)), Ok(None)),
        Err(NodeFault::NoMemory) => {
            node.arm(Plan::Never);
            (Power::Up(node), Err(NoMem::NoMemory))
        }
        Err(NodeFault::Halted | NodeFault::Refused(_)) => unreachable!(),
    }
}

impl Power {
    ghost use Rattle.std.specs.Prelude.{◌≡◌};
    ghost use Rattle.world.specs.Shown.{disk_in};
    ghost use Rattle.world.specs.declared.bricks.Power.TheVariants.{Down};

    /// What is left where a brick that is up stops.
    pub fn off(self) -> Power
        ensures { result ≡ Down (disk_in self) }
    {
        match self {
            Power::Up(node) => Power::Down(node.into_disk()),
            Power::Down(disk) => Power::Down(disk),
        }
    }
}

/// Starts a brick that is down over its disk, where its store can be opened once more, and this is to befall a call of its disk in the midst of
/// that. Answers whether it did.
fn start_over(
    alloc: Global,
    layout: &Layout,
    me: BrickId,
    disk: MemDisk,
    fault: Option<Fault>,
) -> (Power, Result<bool, NoMem>)
    requires { (state : machine.Node) × (after : machine.Node) × Rests layout.now me state after disk }
    ensures { (state after : machine.Node) → Rests layout.now me state after disk
        → TurnsOn layout.now me state after disk fault result.0 result.1 }
{
    match layout.copy(alloc) {
        Ok(layout) => open_over(alloc, layout, me, disk, fault),
        Err(refused) => (Power::Down(disk), Err(refused)),
    }
}

/// The same, with a layout of its own.
fn open_over(
    alloc: Global,
    layout: Layout,
    me: BrickId,
    disk: MemDisk,
    fault: Option<Fault>,
) -> (Power, Result<bool, NoMem>)
    requires { (state : machine.Node) × (after : machine.Node) × Rests layout me state after disk }
    ensures { (state after : machine.Node) → Rests layout me state after disk → TurnsOn layout me state after disk fault result.0 result.1 }
{
    let mut disk = disk;
    disk.arm(plan_of(fault));
    match Node::start(alloc, layout, me, disk) {
        Ok(mut node) => {
            node.arm(Plan::Never);
            look(&node);
            (Power::Up(node), Ok(true))
        }
        Err((OpenFault::Disk, left)) => (Power::Down(left_by(left, fault)), Ok(false)),
        Err((OpenFault::Worn, mut left)) => {
            left.arm(Plan::Never);
            (Power::Down(left), Ok(false))
        }
        Err((OpenFault::NoMemory, mut left)) => {
            left.arm(Plan::Never);
            (Power::Down(left), Err(NoMem::NoMemory))
        }
        Err((OpenFault::NotAStore, _)) => unreachable!(),
    }
}

/// A disk with a store that was made for a brick, and not opened yet.
fn fresh_disk(alloc: Global, layout: &Layout, me: BrickId) -> Result<MemDisk, NoMem>
    ensures kept { IfOk result (λ disk. ShowsDisk layout.now me (unopened layout.now) disk × IsSound disk) }
    ensures empty { IfOk result (λ disk. OpensAs (shape_at layout.now me) [] true (content_of disk)) }
{
    let mut disk = MemDisk::new(alloc, Vec::new(alloc));
    match brick_store::format(alloc, &mut disk, me, layout.block(), layout.records()) {
        Ok(()) => Ok(disk),
        Err(IoFault::NoMemory) => Err(NoMem::NoMemory),
        Err(IoFault::Failed) => unreachable!(),
    }
}

/// The same, of the old format.
fn old_disk(alloc: Global, layout: &Layout, me: BrickId) -> Result<MemDisk, NoMem>
    ensures kept { IfOk result (λ disk. ShowsDisk layout.now me (unopened layout.now) disk × IsSound disk) }
    ensures empty { IfOk result (λ disk. OpensAs (formed Old (shape_at layout.now me)) [] true (content_of disk)) }
{
    let mut disk = MemDisk::new(alloc, Vec::new(alloc));
    match brick_store::format_one(alloc, &mut disk, me, layout.block(), layout.records()) {
        Ok(()) => Ok(disk),
        Err(IoFault::NoMemory) => Err(NoMem::NoMemory),
        Err(IoFault::Failed) => unreachable!(),
    }
}

/// A brick that is down, its store of the old format and not opened yet, and its clock at 0.
fn old_brick(alloc: Global, layout: &Layout, me: BrickId) -> Result<Brick, NoMem>
    requires { has_old_stores layout.now ≡ true }
    ensures { IfOk result (IsFreshBrick layout.now me.0) }
{
    let disk = old_disk(alloc, layout, me)?;
    Ok(Brick {
        power: Power::Down(disk),
        clock: 0,
    })
}

/// A brick of the first world.
fn fresh_brick(alloc: Global, layout: &Layout, me: BrickId) -> Result<Brick, NoMem>
    ensures { IfOk result (IsFreshBrick layout.now me.0) }
{
    if layout.store() == 1 {
        old_brick(alloc, layout, me)
    } else {
        new_brick(alloc, layout, me)
    }
}

/// A brick that is up, its store fresh and its clock at 0.
fn new_brick(alloc: Global, layout: &Layout, me: BrickId) -> Result<Brick, NoMem>
    requires { has_old_stores layout.now ≡ false }
    ensures { IfOk result (IsFreshBrick layout.now me.0) }
{
    let disk = fresh_disk(alloc, layout, me)?;
    let (power, started) = start_over(alloc, layout, me, disk, None);
    with_clock(power, started)
}

/// A brick whose clock is at 0, where it started.
fn with_clock(power: Power, started: Result<bool, NoMem>) -> Result<Brick, NoMem>
    ensures { IfOk result (λ brick. (brick.power ≡ power) × (brick.clock ≡ 0) × OnErr started ⊥) }
{
    match started {
        Ok(_) => Ok(Brick { power, clock: 0 }),
        Err(refused) => Err(refused),
    }
}

/// All bricks of a layout, as the first world has them.
pub fn fresh_bricks(alloc: Global, layout: &Layout) -> Result<Vec<Brick>, NoMem>
    ensures shows { IfOk result (λ bricks. ShowsBricks layout.now bricks.items (first_world layout.now).nodes (first_world layout.now).after
        (first_world layout.now).up (first_world layout.now).clocks) }
    ensures listed { IfOk result (λ bricks. AreFreshDisks layout.now (disks_of bricks.items)) }
{
    let mut bricks = Vec::new(alloc);
    for number in 0..layout.bricks() {
        bricks.push(fresh_brick(alloc, layout, BrickId(number))?)?;
    }
    Ok(bricks)
}

/// The brick of a number, where there is one and it is up.
pub fn find_up(bricks: &[Brick], layout: &Layout, number: u64) -> Option<BrickId>
    requires { AreBricksOf layout.now bricks.now }
    ensures { FindsUp bricks.now number result }
{
    if number >= u64::from(layout.bricks()) {
        return None;
    }
    match &bricks[number as usize].power {
        Power::Up(_) => Some(BrickId(number as u16)),
        Power::Down(_) => None,
    }
}

/// How often the store of a brick that is up was opened.
pub fn boot_of(bricks: &[Brick], number: BrickId) -> u32
    requires { IsUp bricks.now number }
    ensures { IfSome (running_at bricks.now number.0) (λ node. result ≡ (state_of node).boot) }
{
    match &bricks[number.0 as usize].power {
        Power::Up(node) => node.boot(),
        Power::Down(_) => unreachable!(),
    }
}

/// A brick that is up is asked for an operation. After a refusal of any kind no brick has changed.
pub fn ask_brick(bricks: &mut Vec<Brick>, number: BrickId, ask: &Ask) -> Result<Begun, NodeFault>
    requires { IsUp bricks.old.items number }
    ensures asks { ChangesBrick bricks.old.items bricks.new.items number (RunsOn (DoesBegin ask.now result)) }
    ensures few { IfOk result (λ begun. vec_len begun.messages ≤ 32) }
    ensures not_halted { result ≢ Err NodeFault.Halted }
    ensures not_disk { result ≢ Err NodeFault.Disk }
{
    let brick = &mut bricks[number.0 as usize];
    match &mut brick.power {
        Power::Up(node) => node.invoke(brick.clock, ask),
        Power::Down(_) => unreachable!(),
    }
}

/// A brick that is up is asked to propose the members of the next view of a group. After a refusal of any kind no brick has changed.
pub fn ask_to_propose(
    bricks: &mut Vec<Brick>,
    number: BrickId,
    group: GroupId,
    members: &[BrickId],
) -> Result<Outs, NodeFault>
    requires { IsUp bricks.old.items number }
    ensures asks { ChangesBrick bricks.old.items bricks.new.items number (RunsOn (DoesPropose group members.now result)) }
    ensures few { IfOk result (λ outs. length outs.messages ≤ most_sent) }
    ensures not_halted { result ≢ Err NodeFault.Halted }
    ensures not_disk { result ≢ Err NodeFault.Disk }
{
    let brick = &mut bricks[number.0 as usize];
    match &mut brick.power {
        Power::Up(node) => node.propose(group, members),
        Power::Down(_) => unreachable!(),
    }
}

/// A brick that is up is asked to synchronise the view that it has learnt of a group. After a refusal of any kind no brick has changed.
pub fn ask_to_sync(
    bricks: &mut Vec<Brick>,
    number: BrickId,
    group: GroupId,
) -> Result<Outs, NodeFault>
    requires { IsUp bricks.old.items number }
    ensures asks { ChangesBrick bricks.old.items bricks.new.items number (RunsOn (DoesSync group result)) }
    ensures few { IfOk result (λ outs. length outs.messages ≤ most_sent) }
    ensures reads { IfOk result (λ outs. reads_begun outs.told ≤ 1) }
    ensures not_halted { result ≢ Err NodeFault.Halted }
    ensures not_disk { result ≢ Err NodeFault.Disk }
{
    let brick = &mut bricks[number.0 as usize];
    match &mut brick.power {
        Power::Up(node) => node.sync(brick.clock, group),
        Power::Down(_) => unreachable!(),
    }
}

/// A brick that is up is asked to scrub a stripe, so that these members keep one version. After a refusal of any kind no brick has changed.
pub fn ask_to_scrub(
    bricks: &mut Vec<Brick>,
    number: BrickId,
    group: GroupId,
    stripe: StripeNo,
    members: &[BrickId],
) -> Result<Outs, NodeFault>
    requires { IsUp bricks.old.items number }
    ensures asks { ChangesBrick bricks.old.items bricks.new.items number (RunsOn (DoesScrub group stripe members.now result)) }
    ensures few { IfOk result (λ outs. length outs.messages ≤ most_sent) }
    ensures reads { IfOk result (λ outs. reads_begun outs.told ≤ 1) }
    ensures not_halted { result ≢ Err NodeFault.Halted }
    ensures not_disk { result ≢ Err NodeFault.Disk }
{
    let brick = &mut bricks[number.0 as usize];
    match &mut brick.power {
        Power::Up(node) => node.scrub(brick.clock, group, stripe, members),
        Power::Down(_) => unreachable!(),
    }
}

/// A brick that is up is handed a message, and this is to befall a call of its disk in the midst of that. None where it did: the brick is down.
/// After a refusal for want of memory no brick has changed.
pub fn hand_over(
    bricks: &mut Vec<Brick>,
    alloc: Global,
    number: BrickId,
    packet: &Packet,
    fault: Option<Fault>,
) -> Result<Option<Outs>, NoMem>
    requires { IsUp bricks.old.items number }
    ensures handles { ChangesBrick bricks.old.items bricks.new.items number (DoesHandle packet.now fault result) }
    ensures few { IfOk result (λ outs. IfSome outs (λ sent. length sent.messages ≤ most_sent)) }
    ensures reads { IfOk result (λ outs. IfSome outs (λ sent. reads_begun sent.told ≤ 1)) }
{
    let brick = &mut bricks[number.0 as usize];
    let nothing = Power::Down(MemDisk::new(alloc, Vec::new(alloc)));
    match mem::replace(&mut brick.power, nothing) {
        Power::Up(node) => {
            let (power, taken) = take_message(node, brick.clock, packet, fault);
            brick.power = power;
            taken
        }
        Power::Down(_) => unreachable!(),
    }
}

/// The one fault of a sound brick that is asked for nothing.
fn memory_refused(fault: NodeFault) -> NoMem
    requires { fault ≡ NodeFault.NoMemory }
{
    match fault {
        NodeFault::NoMemory => NoMem::NoMemory,
        NodeFault::Halted | NodeFault::Refused(_) | NodeFault::Disk => unreachable!(),
    }
}

/// What a brick that is up sends at a tick of its clock.
pub fn tick_brick(bricks: &[Brick], number: BrickId) -> Result<Messages, NoMem>
    requires { IsUp bricks.now number }
    ensures { IfOk result (λ messages. IfSome (running_at bricks.now number.0) (λ node.
        packets_from node.me messages.items ≡ ticked (coding node.layout) node.me (state_of node))) }
{
    match &bricks[number.0 as usize].power {
        Power::Up(node) => match node.on_tick() {
            Ok(messages) => Ok(messages),
            Err(fault) => Err(memory_refused(fault)),
        },
        Power::Down(_) => unreachable!(),
    }
}

/// A brick stops: its disk is all that is left of it.
pub fn stop_brick(bricks: &mut Vec<Brick>, alloc: Global, number: BrickId)
    requires { number.0 < vec_len bricks.old }
    ensures { ChangesBrick bricks.old.items bricks.new.items number Stops }
{
    let brick = &mut bricks[number.0 as usize];
    let nothing = Power::Down(MemDisk::new(alloc, Vec::new(alloc)));
    let power = mem::replace(&mut brick.power, nothing);
    brick.power = power.off();
}

/// Starts a brick, where it is down and its store can be opened once more, and this is to befall a call of its disk in the midst of that. Answers
/// whether it did. Where memory is refused no brick has changed.
pub fn start_brick(
    bricks: &mut Vec<Brick>,
    alloc: Global,
    layout: &Layout,
    number: BrickId,
    fault: Option<Fault>,
) -> Result<bool, NoMem>
    requires nodes { AreNodesOf layout.now bricks.old.items }
    requires brick { number.0 < vec_len bricks.old }
    ensures { ChangesBrick bricks.old.items bricks.new.items number (DoesStart layout.now number fault result) }
{
    let brick = &mut bricks[number.0 as usize];
    let nothing = Power::Down(MemDisk::new(alloc, Vec::new(alloc)));
    match mem::replace(&mut brick.power, nothing) {
        Power::Up(node) => {
            brick.power = Power::Up(node);
            Ok(false)
        }
        Power::Down(disk) => {
            let (power, started) = start_over(alloc, layout, number, disk, fault);
            brick.power = power;
            started
        }
    }
}
