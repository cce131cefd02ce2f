//! What a line of a schedule did, in words.

use fab_base::BrickId;
use messages::Packet;
use std::alloc::Global;
use trace_runs::{
    DeliveryOutcome, FaultOutcome, Journal, LearntView, LineEffects, SpareSeat, Suspicion, Text,
    number_at, packet_at, put_message,
};

/// Writes the message of a number, of all that were sent, with its number.
fn put_packet(notes: &mut Text, sent: &[Packet], journal: &Journal, number: u64) {
    match packet_at(sent, number) {
        Some(packet) => put_message(notes, number, packet, journal.owner_of(number)),
        None => notes.fill("#%", &[number]),
    }
}

/// What came of a message that was to be delivered, where nothing else tells it.
fn outcome_text(outcome: DeliveryOutcome) -> &'static str {
    match outcome {
        DeliveryOutcome::Absent => ": there is no such message",
        DeliveryOutcome::Down => ": to a brick that is down",
        DeliveryOutcome::Counted => ": counted",
        DeliveryOutcome::NotCounted => ": not counted",
        DeliveryOutcome::Ignored => ": ignored",
        DeliveryOutcome::Told => "",
    }
}

/// Notes what came of a fault of a brick's disk.
fn note_fault(notes: &mut Text, brick: BrickId, outcome: FaultOutcome) {
    let (form, call) = match outcome {
        FaultOutcome::Inside(call) => ("brick % stopped inside call % of its disk\n", call),
        FaultOutcome::Failed(call) => ("brick % halted: call % of its disk failed\n", call),
        FaultOutcome::Unreached(call) => ("brick % made no call % of its disk\n", call),
    };
    notes.fill(form, &[brick.0.into(), call]);
}

/// Notes the view of a group by which a brick goes from then on, or in which it knows from then on that all stripes are kept.
fn note_view(notes: &mut Text, learnt: &LearntView) {
    if learnt.is_synced {
        let numbers = [
            learnt.brick.0.into(),
            learnt.group.0.into(),
            learnt.view.number.0.into(),
        ];
        notes.fill(
            "brick % knows that all stripes of group % are kept in view %\n",
            &numbers,
        );
        return;
    }
    let numbers = [
        learnt.brick.0.into(),
        learnt.view.number.0.into(),
        learnt.group.0.into(),
    ];
    notes.fill("brick % goes by view % of group %,", &numbers);
    notes.put_members(learnt.view.members.as_slice());
    notes.put("\n");
}

/// Notes what a brick suspects from then on.
fn note_suspicion(notes: &mut Text, suspicion: &Suspicion) {
    notes.fill("brick % suspects", &[suspicion.by.0.into()]);
    if suspicion.bricks.is_empty() {
        notes.put(" none");
    }
    for brick in &suspicion.bricks {
        notes.fill(" %", &[brick.0.into()]);
    }
    notes.put("\n");
}

/// Notes a seat that a brick proposes to give to a spare.
fn note_spare(notes: &mut Text, spared: &SpareSeat) {
    let numbers = [
        spared.seat as u64,
        spared.group.0.into(),
        spared.from.0.into(),
        spared.to.0.into(),
    ];
    notes.fill(
        "seat % of group % is to go from brick % to brick %\n",
        &numbers,
    );
}

/// What a line did, beside what `replay` prints for it: a note a line. These messages had been sent once it was run.
pub(crate) fn effect_notes(
    alloc: Global,
    sent: &[Packet],
    journal: &Journal,
    effects: &LineEffects,
) -> Text {
    let mut notes = Text::new(alloc);
    for (number, outcome) in &effects.deliveries {
        notes.put("delivered ");
        put_packet(&mut notes, sent, journal, *number);
        notes.put(outcome_text(*outcome));
        notes.put("\n");
    }
    if let Some((brick, outcome)) = effects.fault {
        note_fault(&mut notes, brick, outcome);
    }
    if let Some(brick) = effects.started {
        notes.fill("brick % started\n", &[brick.0.into()]);
    }
    for learnt in &effects.learnt {
        note_view(&mut notes, learnt);
    }
    if let Some(suspicion) = &effects.suspicion {
        note_suspicion(&mut notes, suspicion);
    }
    for spared in &effects.spared {
        note_spare(&mut notes, spared);
    }
    for place in effects.sent..sent.len() {
        put_packet(&mut notes, sent, journal, number_at(place));
        notes.put("\n");
    }
    notes
}
