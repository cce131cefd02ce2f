//! What a line of a schedule did.

use crate::journals::{Journal, place_of};
use fab_base::{BrickId, GroupId, NoMem, StripeNo, View, ViewNo};
use lines::{Fault, Line, parse};
use messages::{Message, Packet};
use std::alloc::Global;
use world::World;

/// The most groups of a layout.
const MOST_GROUPS: u32 = 64;

/// How much there was before a line.
#[derive(Clone, Copy)]
pub(crate) struct Before {
    /// How many marks.
    pub(crate) marks: usize,
    /// How many messages had been sent.
    pub(crate) sent: usize,
    /// How much bricks had reported.
    pub(crate) reports: usize,
}

impl Before {
    /// How much there is now.
    pub(crate) fn of(world: &World) -> Before {
        Before {
            marks: world.marks().len(),
            sent: world.sent().len(),
            reports: world.reports().len(),
        }
    }
}

/// A view that a brick has learnt, or in which it knows from now on that all stripes are kept.
#[derive(Drop)]
pub struct LearntView {
    /// The brick.
    pub brick: BrickId,
    /// The group.
    pub group: GroupId,
    /// The view.
    pub view: View,
    /// Whether it had learnt the view, and knows from now on that all stripes are kept in it.
    pub is_synced: bool,
}

/// What a brick suspects from then on.
#[derive(Drop)]
pub struct Suspicion {
    /// The brick that suspects.
    pub by: BrickId,
    /// Those that it suspects, by number.
    pub bricks: Vec<BrickId>,
}

/// A seat that a brick proposes to give to a spare.
#[derive(Clone, Copy)]
pub struct SpareSeat {
    /// The group.
    pub group: GroupId,
    /// The seat.
    pub seat: usize,
    /// The member that has it.
    pub from: BrickId,
    /// The spare that is to have it.
    pub to: BrickId,
}

/// What came of a message that a line was to deliver.
#[derive(Clone, Copy)]
pub enum DeliveryOutcome {
    /// There is no message of its number.
    Absent,
    /// Its receiver was down.
    Down,
    /// A reply, which its operation or its proposal counted. Nothing else came of it.
    Counted,
    /// A reply, which was not counted: its operation or its proposal has ended, or is in a later phase, or had this brick's reply.
    NotCounted,
    /// A request, of which nothing came, or what was taught of a view and is no news.
    Ignored,
    /// Messages, marks, reports or what was learnt of a view, which tell it; or a Collect, which tells nobody what it drops.
    Told,
}

/// What came of a fault that was to come at a call of a brick's disk.
#[derive(Clone, Copy)]
pub enum FaultOutcome {
    /// The brick stopped inside that call.
    Inside(u64),
    /// That call failed, and the brick halted.
    Failed(u64),
    /// That call was not made.
    Unreached(u64),
}

/// What a line did.
#[derive(Drop)]
pub struct LineEffects {
    /// Whether the line says anything.
    pub is_event: bool,
    /// The messages that were to be delivered, one after another, and what came of each.
    pub deliveries: Vec<(u64, DeliveryOutcome)>,
    /// What came of a fault of a disk, and at which brick.
    pub fault: Option<(BrickId, FaultOutcome)>,
    /// The brick that it started.
    pub started: Option<BrickId>,
    /// The views by which bricks go from then on, and those in which they know that all stripes are kept.
    pub learnt: Vec<LearntView>,
    /// What a brick suspects from then on, if the line says what it suspects.
    pub suspicion: Option<Suspicion>,
    /// The seats that a brick proposes to give to spares.
    pub spared: Vec<SpareSeat>,
    /// How many marks there were before.
    pub marks: usize,
    /// How many messages had been sent before.
    pub sent: usize,
}

/// Whether a brick is up.
pub fn is_up(world: &World, brick: BrickId) -> bool {
    world.log_of(brick, GroupId(0), StripeNo(0)).is_some()
}

/// The message of a number, among all that were sent.
pub fn packet_at(sent: &[Packet], number: u64) -> Option<&Packet> {
    sent.get(place_of(number))
}

/// What came of a fault of a brick's disk, where the brick is up or not now that the line was run.
fn fault_outcome(fault: Fault, is_up: bool) -> FaultOutcome {
    match fault {
        Fault::Cut { call, .. } if !is_up => FaultOutcome::Inside(call),
        Fault::Fail { call } if !is_up => FaultOutcome::Failed(call),
        Fault::Cut { call, .. } | Fault::Fail { call } => FaultOutcome::Unreached(call),
    }
}

/// The bricks that a line names, if it is to begin a scrub.
fn scrubbed_by(alloc: Global, line: &Option<Line>) -> Result<Option<Vec<u64>>, NoMem> {
    match line {
        Some(Line::Scrub { members, .. }) => {
            Ok(Some(Vec::from_slice(alloc, members.as_slice())?))
        }
        _ => Ok(None),
    }
}

impl LineEffects {
    /// What a line did that was run, before which there was so much; and whether `replay` prints `idle` for it. The journal notes it too.
    pub(crate) fn of(
        alloc: Global,
        world: &World,
        journal: &mut Journal,
        before: Before,
        content: &[u8],
        is_idle: bool,
    ) -> Result<LineEffects, NoMem> {
        let line = parse(alloc, content)?;
        journal.note_line(world, before, scrubbed_by(alloc, &line)?)?;
        let mut effects = LineEffects {
            is_event: true,
            deliveries: Vec::new(alloc),
            fault: None,
            started: None,
            learnt: Vec::new(alloc),
            suspicion: None,
            spared: Vec::new(alloc),
            marks: before.marks,
            sent: before.sent,
        };
        if let Some(line) = &line {
            effects.note_line(alloc, world, journal, line, is_idle)?;
        }
        if Before::of(world).reports != before.reports {
            effects.note_told();
        }
        Ok(effects)
    }

    /// Notes what a line did that says this.
    fn note_line(
        &mut self,
        alloc: Global,
        world: &World,
        journal: &mut Journal,
        line: &Line,
        is_idle: bool,
    ) -> Result<(), NoMem> {
        match line {
            Line::Deliver { message, fault } => {
                self.note_delivery(world, journal, *message, *fault, is_idle)
            }
            Line::Calm { operation, .. } if !is_idle => {
                journal.list_deliveries(world, *operation, &mut self.deliveries)
            }
            Line::Start { brick, fault } => {
                self.note_start(world, *brick, *fault, is_idle);
                self.note_started_views(world, journal)
            }
            Line::Suspect { by, .. } | Line::Trust { by, .. } if !is_idle => {
                self.note_suspicion(alloc, world, *by)
            }
            Line::Spare { brick, group } => self.note_spares(world, *brick, *group),
            Line::Nothing => {
                self.is_event = false;
                Ok(())
            }
            _ => Ok(()),
        }
    }

    /// Notes a delivery, with a fault of the receiver's disk. `idle` says that the receiver was down.
    fn note_delivery(
        &mut self,
        world: &World,
        journal: &mut Journal,
        message: u64,
        fault: Option<Fault>,
        is_idle: bool,
    ) -> Result<(), NoMem> {
        let mut outcome = DeliveryOutcome::Absent;
        if let Some(packet) = packet_at(world.sent(), message) {
            outcome = DeliveryOutcome::Down;
            if !is_idle {
                outcome = journal.note_delivery(message, packet)?;
                if self.note_taught(world, journal, packet)? {
                    outcome = DeliveryOutcome::Told;
                }
                if let Some(fault) = fault {
                    self.fault = Some((packet.to, fault_outcome(fault, is_up(world, packet.to))));
                }
            }
        }
        if world.marks().len() != self.marks || world.sent().len() != self.sent {
            outcome = DeliveryOutcome::Told;
        }
        self.deliveries.push((message, outcome))?;
        Ok(())
    }

    /// Notes a start, with a fault of the brick's disk. `idle` says that the brick was up, or that it stays down.
    fn note_start(&mut self, world: &World, brick: u64, fault: Option<Fault>, is_idle: bool) {
        if let Ok(number) = u16::try_from(brick) {
            let brick = BrickId(number);
            let is_up = is_up(world, brick);
            if is_up && !is_idle {
                self.started = Some(brick);
            }
            if let (Some(fault), true) = (fault, is_up != is_idle) {
                self.fault = Some((brick, fault_outcome(fault, is_up)));
            }
        }
    }

    /// Notes what a brick suspects from then on.
    fn note_suspicion(&mut self, alloc: Global, world: &World, by: u64) -> Result<(), NoMem> {
        if let Ok(number) = u16::try_from(by) {
            let by = BrickId(number);
            let mut bricks = Vec::new(alloc);
            for number in 0..world.layout().bricks() {
                let brick = BrickId(number);
                if world.suspects(by, brick) {
                    bricks.push(brick)?;
                }
            }
            self.suspicion = Some(Suspicion { by, bricks });
        }
        Ok(())
    }

    /// Notes the seats that a brick proposes to give to spares, if the line began a proposal.
    fn note_spares(&mut self, world: &World, brick: u64, group: u64) -> Result<(), NoMem> {
        if world.sent().len() == self.sent {
            return Ok(());
        }
        let (Ok(brick), Ok(group)) = (u16::try_from(brick), u32::try_from(group)) else {
            return Ok(());
        };
        let (brick, group) = (BrickId(brick), GroupId(group));
        let Some(view) = world.learnt(brick, group) else {
            return Ok(());
        };
        let Some(next) = world.replaced(brick, &view) else {
            return Ok(());
        };
        let next = next.as_slice();
        for (seat, from) in view.members.as_slice().iter().enumerate() {
            match next.get(seat) {
                Some(to) if to.0 != from.0 => self.spared.push(SpareSeat {
                    group,
                    seat,
                    from: *from,
                    to: *to,
                })?,
                _ => {}
            }
        }
        Ok(())
    }

    /// Notes the view of a group by which a brick goes, if that is news, and answers whether it is.
    fn note_view(
        &mut self,
        world: &World,
        journal: &mut Journal,
        brick: BrickId,
        group: GroupId,
    ) -> Result<bool, NoMem> {
        let Some(view) = world.learnt(brick, group) else {
            return Ok(false);
        };
        if !journal.note_view(brick, group, view.number)? {
            return Ok(false);
        }
        self.learnt.push(LearntView {
            brick,
            group,
            view,
            is_synced: false,
        })?;
        Ok(true)
    }

    /// Notes that a brick hears that all stripes of a group are kept in a view, where it goes by that view, and answers whether it is news.
    fn note_synced(
        &mut self,
        world: &World,
        journal: &mut Journal,
        brick: BrickId,
        group: GroupId,
        number: ViewNo,
    ) -> Result<bool, NoMem> {
        let Some(view) = world.learnt(brick, group) else {
            return Ok(false);
        };
        if view.number != number || !journal.note_synced(brick, group, number)? {
            return Ok(false);
        }
        self.learnt.push(LearntView {
            brick,
            group,
            view,
            is_synced: true,
        })?;
        Ok(true)
    }

    /// Notes what the receiver of a message has learnt of a view, if anything, and answers whether the message did no more than teach it.
    fn note_taught(
        &mut self,
        world: &World,
        journal: &mut Journal,
        packet: &Packet,
    ) -> Result<bool, NoMem> {
        match &packet.message {
            Message::Learn { group, .. } => self.note_view(world, journal, packet.to, *group),
            Message::Synced { group, view } => {
                self.note_synced(world, journal, packet.to, *group, *view)
            }
            Message::Reply(call, _) => {
                self.note_view(world, journal, packet.to, call.group)?;
                Ok(false)
            }
            _ => Ok(false),
        }
    }

    /// Notes the views by which a brick goes that was started.
    fn note_started_views(&mut self, world: &World, journal: &mut Journal) -> Result<(), NoMem> {
        if let Some(brick) = self.started {
            for group in 0..MOST_GROUPS {
                self.note_view(world, journal, brick, GroupId(group))?;
            }
        }
        Ok(())
    }

    /// Notes that a report tells what came of the line's delivery.
    fn note_told(&mut self) {
        for delivery in &mut self.deliveries {
            delivery.1 = DeliveryOutcome::Told;
        }
    }
}
