//! A run as a picture: time runs down, each brick has a line, messages are arrows, and operations are bars.

use crate::figures::{
    draw_all_names, draw_bars, draw_delivery, draw_happening, draw_learnt, draw_lines, draw_mark,
    draw_power, draw_sent, draw_stub, draw_title, line_of, put_bar, top_of, width_of,
};
use crate::pictures::Picture;
use fab_base::{BrickId, GroupId, NoMem};
use layout::{Group, Layout};
use messages::{Call, Message, Packet, Request};
use reg_model::{Happening, Mark};
use std::alloc::Global;
use trace_runs::{
    DeliveryOutcome, Journal, LineEffects, Operation, StripeHistory, Text, answer_of, change,
    number_at, op_of, packet_at, place_of,
};
use world::World;

/// A run that is drawn, a line of its schedule after another. Where a row finds no memory to be noted, the picture is never whole.
pub struct Drawing {
    alloc: Global,
    picture: Picture,
    /// How many rows there are: one for a line, or for each delivery of it.
    rows: usize,
    /// The row in which each message was sent, by number from 1.
    senders: Vec<usize>,
    /// The row in which each mark was made.
    makers: Vec<usize>,
    /// The last row that is taken of each track of bars.
    tracks: Vec<usize>,
}

impl Drop for Drawing {
    fn drop(self) {
        let Self {
            alloc: _,
            picture: _,
            rows: _,
            senders: _,
            makers: _,
            tracks: _,
        } = self;
    }
}

/// The row at this place, where there is one.
fn row_at(rows: &[usize], place: usize) -> Option<usize> {
    rows.get(place).copied()
}

/// Whether the happening at this place is the last of its position.
fn is_last(happenings: &[Happening], place: usize, position: u64) -> bool {
    match happenings.get(place.saturating_add(1)) {
        Some(next) => next.position != position,
        None => true,
    }
}

/// What a stripe's registers hold at first.
fn first_registers(alloc: Global, layout: &Layout, group: GroupId) -> Result<Vec<u8>, NoMem> {
    let blocks = match layout.group(group) {
        Some(found) => usize::from(found.m()),
        None => 0,
    };
    let count = blocks.saturating_mul(usize::from(layout.block()));
    Ok(vec![in alloc; 0u8; count]?)
}

/// Whether a message that is delivered leads to another one: a request to its reply, and a reply to the requests of the next phase, or to the
/// Collects that end its own.
fn leads_to(delivered: &Packet, packet: &Packet) -> bool {
    delivered.to == packet.from
        && match (&delivered.message, &packet.message) {
            (Message::Request(old, _), Message::Reply(new, _)) => old.phase == new.phase,
            (Message::Reply(old, _), Message::Request(new, Request::Collect { .. })) => {
                old.phase == new.phase
            }
            (Message::Reply(old, _), Message::Request(new, _)) => {
                old.phase.saturating_add(1) == new.phase
            }
            _ => false,
        }
}

/// How many members of a group's view make a quorum, where its coordinator goes by that view, and else by the layout.
fn quorum_in(world: &World, coordinator: BrickId, call: &Call) -> u8 {
    let Some(group) = world.layout().group(call.group) else {
        return 1;
    };
    if let Some(view) = world.learnt(coordinator, call.group) {
        if view.number == call.view {
            if let Some(kept) = Group::new(view.members.copy(), group.m(), group.stripes()) {
                return kept.quorum();
            }
        }
    }
    group.quorum()
}

/// How many messages have to be delivered that lead to a message: one request, or a quorum of replies.
fn leaders_of(world: &World, packet: &Packet) -> u8 {
    match &packet.message {
        Message::Request(call, _) => quorum_in(world, packet.from, call),
        _ => 1,
    }
}

/// Which delivery of a line, from this one on, sent a message.
fn sender_of(world: &World, effects: &LineEffects, first: usize, packet: &Packet) -> usize {
    let mut missing = leaders_of(world, packet);
    for (place, (number, _)) in effects.deliveries.iter().enumerate() {
        if let Some(delivered) = packet_at(world.sent(), *number) {
            if leads_to(delivered, packet) {
                missing = missing.saturating_sub(1);
                if missing == 0 && first <= place {
                    return place;
                }
            }
        }
    }
    first
}

impl Drawing {
    /// Nothing is drawn yet.
    pub fn new(alloc: Global) -> Drawing {
        Drawing {
            alloc,
            picture: Picture::new(alloc),
            rows: 0,
            senders: Vec::new(alloc),
            makers: Vec::new(alloc),
            tracks: Vec::new(alloc),
        }
    }

    /// Draws a line that was just run.
    pub fn add(&mut self, world: &World, number: u64, content: &[u8], effects: &LineEffects) {
        let first = self.rows;
        self.rows = first.saturating_add(effects.deliveries.len().max(1));
        let bricks = world.layout().bricks();
        draw_title(&mut self.picture, number, content, first, width_of(bricks));
        draw_lines(&mut self.picture, world, first, self.rows);
        self.add_marks(world.marks(), effects.marks, line_of(BrickId(bricks)));
        self.add_messages(world, effects, first);
        self.draw_messages(world.sent(), effects.sent);
        self.draw_deliveries(world.sent(), effects, first);
        if let Some(brick) = effects.started {
            draw_power(&mut self.picture, "start", first, brick);
        }
        for learnt in &effects.learnt {
            draw_learnt(&mut self.picture, first, learnt);
        }
    }

    /// Notes the marks of a line, and draws them. What stands behind the bricks is there.
    fn add_marks(&mut self, marks: &[Mark], first: usize, behind: u64) {
        let row = self.rows.saturating_sub(1);
        for place in first..marks.len() {
            if self.makers.push(row).is_err() {
                self.picture.name.note_gap();
            }
            draw_mark(&mut self.picture, &marks[place], row, behind);
        }
    }

    /// Notes where the messages of a line were sent, whose first row this is: each in the row of the last one, or below it.
    fn add_messages(&mut self, world: &World, effects: &LineEffects, row: usize) {
        let sent = world.sent();
        let last = effects.deliveries.len().saturating_sub(1);
        let mut sender = 0;
        for place in effects.sent..sent.len() {
            sender = sender_of(world, effects, sender, &sent[place]).min(last);
            if self.senders.push(row.saturating_add(sender)).is_err() {
                self.picture.name.note_gap();
            }
            // Whatever delivers a request sends one reply.
            if matches!(sent[place].message, Message::Reply(..)) {
                sender = sender.saturating_add(1);
            }
        }
    }

    /// Draws how many messages of a line were sent in each row, of all from this one on.
    fn draw_messages(&mut self, sent: &[Packet], first: usize) {
        let mut first = first;
        for place in first..sent.len() {
            let next = place.saturating_add(1);
            let sender = row_at(&self.senders, place);
            if let (Some(row), true) = (sender, row_at(&self.senders, next) != sender) {
                draw_sent(&mut self.picture, &sent[place], first, place, row);
                first = next;
            }
        }
    }

    /// Draws the messages that a line was to deliver.
    fn draw_deliveries(&mut self, sent: &[Packet], effects: &LineEffects, first: usize) {
        for (place, (number, outcome)) in effects.deliveries.iter().enumerate() {
            if let Some(packet) = packet_at(sent, *number) {
                let row = first.saturating_add(place);
                let sender = row_at(&self.senders, place_of(*number)).unwrap_or(row);
                let is_lost = matches!(outcome, DeliveryOutcome::Down);
                draw_delivery(&mut self.picture, packet, *number, is_lost, (sender, row));
            }
        }
    }

    /// The picture of the run, as the text of an SVG document, once all lines are drawn. The histories are those of its stripes.
    pub fn finish(
        &mut self,
        world: &World,
        journal: &Journal,
        histories: &[StripeHistory],
    ) -> Text {
        let layout = world.layout();
        let bricks = layout.bricks();
        let height = top_of(self.rows);
        draw_all_names(&mut self.picture, bricks, self.rows);
        self.draw_stubs(world);
        self.draw_operations(world.marks(), journal, bricks, height);
        for history in histories {
            match first_registers(self.alloc, layout, history.group) {
                Ok(registers) => self.draw_history(world, journal, history, registers),
                Err(NoMem::NoMemory) => self.picture.name.note_gap(),
            }
        }
        self.picture.text(width_of(bricks).max(640), height)
    }

    /// Draws the messages that were never delivered.
    fn draw_stubs(&mut self, world: &World) {
        for (place, packet) in world.sent().iter().enumerate() {
            let number = number_at(place);
            let sender = row_at(&self.senders, place);
            if let (Some(sender), false) = (sender, world.was_delivered(number)) {
                draw_stub(&mut self.picture, packet, sender);
            }
        }
    }

    /// The row in which an operation ended. None where it did not, or is past what is drawn.
    fn end_of(&self, operation: &Operation) -> Option<usize> {
        row_at(&self.makers, operation.end?)
    }

    /// The first track of bars that is free from this row on, which is taken up to the last.
    fn take_track(&mut self, first: usize, last: usize) -> u64 {
        for (track, end) in self.tracks.iter_mut().enumerate() {
            if *end < first {
                *end = last;
                return track as u64;
            }
        }
        if self.tracks.push(last).is_err() {
            self.picture.name.note_gap();
        }
        (self.tracks.len() as u64).saturating_sub(1)
    }

    /// Draws the operations as bars behind so many bricks, down to a place.
    fn draw_operations(&mut self, marks: &[Mark], journal: &Journal, bricks: u16, height: u64) {
        let mut bars = Text::new(self.alloc);
        for operation in journal.operations() {
            if let Some(first) = row_at(&self.makers, operation.begin) {
                let last = self.end_of(operation);
                let last = last.unwrap_or(self.rows.saturating_sub(1));
                let track = self.take_track(first, last);
                put_bar(&mut bars, answer_of(marks, operation), first, last, track);
            }
        }
        let tracks = self.tracks.len() as u64;
        draw_bars(&mut self.picture, &bars, tracks, bricks, height);
    }

    /// Draws what the registers of a stripe hold, which are these at first, from each happening on.
    fn draw_history(
        &mut self,
        world: &World,
        journal: &Journal,
        history: &StripeHistory,
        registers: Vec<u8>,
    ) {
        let mut registers = registers;
        let block = usize::from(world.layout().block());
        let happenings = history.happenings.as_slice();
        for (place, happening) in happenings.iter().enumerate() {
            if let Some(operation) = journal.operation(happening.operation) {
                change(op_of(world.marks(), operation), block, &mut registers);
            }
            let is_last = is_last(happenings, place, happening.position);
            self.name_happening(history, happening.operation);
            if is_last {
                let row = row_at(&self.makers, happening.position as usize);
                let behind = line_of(BrickId(world.layout().bricks()));
                draw_happening(&mut self.picture, row, behind, registers.as_slice());
            }
        }
    }

    /// Names an operation that happened to a stripe, behind those that happened at the same position before it.
    fn name_happening(&mut self, history: &StripeHistory, operation: u64) {
        let name = &mut self.picture.name;
        if name.pieces().is_empty() {
            let numbers = [history.group.0.into(), history.stripe.0.into()];
            name.fill("stripe % % op", &numbers);
        }
        name.fill(" %", &[operation]);
    }
}
