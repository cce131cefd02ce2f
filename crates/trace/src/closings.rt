//! What a run left: the happenings of each stripe that an operation named, and its log at each member of a view that a brick goes by.

use brick_store::State;
use fab_base::{BrickId, Bytes, GroupId, Stamp, StripeNo, ViewNo};
use layout::Group;
use reg_model::{Happening, Mark};
use std::alloc::Global;
use trace_runs::{Journal, StripeHistory, Text, answer_of, op_of, put_answer, put_op};
use world::World;

/// Notes a happening: its operation and position, and what it read or wrote, by all marks.
fn note_happening(notes: &mut Text, marks: &[Mark], journal: &Journal, happening: Happening) {
    let number = happening.operation;
    notes.fill("happened %@%", &[number, happening.position]);
    if let Some(operation) = journal.operation(number) {
        if let Some(op) = op_of(marks, operation) {
            notes.put(" ");
            put_op(notes, op);
        }
        if let Some(answer) = answer_of(marks, operation) {
            notes.put(": ");
            put_answer(notes, answer);
        }
    }
    notes.put("\n");
}

/// The newest version below a stamp, or of all.
fn older<'a>(log: &'a State<'_>, bound: Option<Stamp>) -> Option<(Stamp, &'a Bytes)> {
    match bound {
        Some(stamp) => log.below(stamp),
        None => log.newest(),
    }
}

/// Notes the log of a stripe at a brick that goes by a view of this number, newest version first. A brick without one is down.
fn note_log(notes: &mut Text, brick: BrickId, view: Option<ViewNo>, log: Option<State<'_>>) {
    let Some(log) = log else {
        notes.fill("brick % is down\n", &[brick.0.into()]);
        return;
    };
    notes.fill("brick %", &[brick.0.into()]);
    if let Some(ViewNo(number)) = view {
        if number > 1 {
            notes.fill(" in view %", &[number.into()]);
        }
    }
    notes.put(" keeps");
    let mut bound = None;
    for _ in 0..log.len() {
        if let Some((stamp, block)) = older(&log, bound) {
            notes.put_stamp(" ", stamp);
            notes.put("=");
            notes.put_hex(block.as_slice());
            bound = Some(stamp);
        }
    }
    notes.put("\n");
}

/// Whether a brick is a member of a view of a group that some brick has learnt.
fn is_member(world: &World, group: GroupId, brick: BrickId) -> bool {
    for number in 0..world.layout().bricks() {
        if let Some(view) = world.learnt(BrickId(number), group) {
            if view.members.as_slice().contains(&brick) {
                return true;
            }
        }
    }
    false
}

/// Notes the logs of a stripe at the members of its group by the layout, and then at those of later views.
fn note_logs(notes: &mut Text, world: &World, first: &Group, group: GroupId, stripe: StripeNo) {
    let first = first.members();
    let first = first.as_slice();
    for brick in first {
        note_log(
            notes,
            *brick,
            number_of(world, *brick, group),
            world.log_of(*brick, group, stripe),
        );
    }
    for number in 0..world.layout().bricks() {
        let brick = BrickId(number);
        if !first.contains(&brick) && is_member(world, group, brick) {
            note_log(
                notes,
                brick,
                number_of(world, brick, group),
                world.log_of(brick, group, stripe),
            );
        }
    }
}

/// The number of the view of a group that a brick goes by, if it is up.
fn number_of(world: &World, brick: BrickId, group: GroupId) -> Option<ViewNo> {
    Some(world.learnt(brick, group)?.number)
}

/// What a run left of a stripe, to which this happened: a note a line.
pub(crate) fn stripe_notes(
    alloc: Global,
    world: &World,
    journal: &Journal,
    history: &StripeHistory,
) -> Text {
    let mut notes = Text::new(alloc);
    for happening in history.happenings.as_slice() {
        note_happening(&mut notes, world.marks(), journal, *happening);
    }
    if let Some(found) = world.layout().group(history.group) {
        note_logs(&mut notes, world, found, history.group, history.stripe);
    }
    notes
}
