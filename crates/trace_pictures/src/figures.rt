//! What a picture of a run is made of, each drawn at its place: time runs down, a row for each step, and each brick has a line.

use crate::pictures::{Picture, TRACK};
use fab_base::{Answer, BrickId};
use messages::Packet;
use reg_model::Mark;
use trace_runs::{LearntView, Text, is_up, kind_of, number_at, put_answer, put_op, word_of};
use world::World;

/// How far the numbers of the schedule's lines stand from the left.
const NUMBERS: u64 = 8;

/// How far what stands on them does.
const CONTENTS: u64 = 36;

/// How far the line of the first brick is from the left.
const BRICKS: u64 = 156;

/// How far the lines of two bricks are from each other.
const BRICK: u64 = 116;

/// How wide the bars of all operations are, behind the bricks.
const BARS: u64 = 36;

/// How far labels of operations stand behind the bricks.
const OPERATIONS: u64 = 46;

/// How far the stripes do.
const STRIPES: u64 = 196;

/// How wide is what stands behind the bricks.
const BEHIND: u64 = 348;

/// How far the first names of the bricks are from the top.
const HEADER: u64 = 46;

/// How high a row is: two labels.
const ROW: u64 = 32;

/// After how many rows the bricks are named again, and how much room that takes.
const NAMED_ROWS: usize = 20;

const NAMES: u64 = 20;

/// The most characters of a label between the lines of two bricks.
const NARROW: usize = 16;

/// The most characters of a label of what stands on a line.
const CONTENT: usize = 17;

/// The most characters of a label behind the bricks.
const WIDE: usize = 20;

/// How far a brick's line is from the left. What stands behind the bricks is there where one more would be.
pub(crate) fn line_of(brick: BrickId) -> u64 {
    u64::from(brick.0)
        .saturating_mul(BRICK)
        .saturating_add(BRICKS)
}

/// How wide a picture of so many bricks is.
pub(crate) fn width_of(bricks: u16) -> u64 {
    line_of(BrickId(bricks)).saturating_add(BEHIND)
}

/// How far a row is from the top.
pub(crate) fn top_of(row: usize) -> u64 {
    let names = (row / NAMED_ROWS) as u64;
    (row as u64)
        .saturating_mul(ROW)
        .saturating_add(names.saturating_mul(NAMES))
        .saturating_add(HEADER + NAMES)
}

/// The upper label of a row.
fn upper(row: usize) -> u64 {
    top_of(row).saturating_add(13)
}

/// The lower label of a row.
fn lower(row: usize) -> u64 {
    top_of(row).saturating_add(25)
}

/// Where messages arrive at a brick in a row.
fn arrival(row: usize, brick: BrickId) -> (u64, u64) {
    (line_of(brick), top_of(row).saturating_add(3))
}

/// Where messages are sent by a brick in a row.
fn departure(row: usize, brick: BrickId) -> (u64, u64) {
    (line_of(brick), top_of(row).saturating_add(29))
}

/// Where labels of a brick stand.
fn beside(brick: BrickId) -> u64 {
    line_of(brick).saturating_add(6)
}

/// Draws where a line begins: its number, and what stands on it in two parts.
pub(crate) fn draw_title(
    picture: &mut Picture,
    number: u64,
    content: &[u8],
    row: usize,
    width: u64,
) {
    let y = top_of(row);
    picture.line("guide", false, (NUMBERS, y), (width, y));
    picture.name.fill("%", &[number]);
    picture.label(NUMBERS, upper(row), NARROW);
    let (first, second) = content.split_at(content.len().min(CONTENT));
    picture.name.put_label(first, CONTENT);
    picture.label(CONTENTS, upper(row), CONTENT);
    if !second.is_empty() {
        picture.name.put_label(second, CONTENT);
        picture.label(CONTENTS, lower(row), CONTENT);
    }
}

/// Draws a brick that starts, or stops.
pub(crate) fn draw_power(picture: &mut Picture, word: &str, row: usize, brick: BrickId) {
    let y = lower(row);
    picture.dot(word, line_of(brick), y.saturating_sub(4));
    picture.name.put(word);
    picture.label(beside(brick), y, NARROW);
}

/// Draws that a brick goes by a view of a group from here on.
pub(crate) fn draw_learnt(picture: &mut Picture, row: usize, learnt: &LearntView) {
    let y = upper(row).saturating_add(6);
    picture.dot("view", line_of(learnt.brick), y);
    let numbers = [learnt.view.number.0.into(), learnt.group.0.into()];
    let name = if learnt.is_synced {
        "view % of % synced"
    } else {
        "view % of %"
    };
    picture.name.fill(name, &numbers);
    picture.label(beside(learnt.brick), lower(row), NARROW);
}

/// Draws a mark: an operation that begins, how one ends, or a brick that stops. What stands behind the bricks is there.
pub(crate) fn draw_mark(picture: &mut Picture, mark: &Mark, row: usize, behind: u64) {
    let x = behind.saturating_add(OPERATIONS);
    match mark {
        Mark::Begin { operation, ask, .. } => {
            picture.name.fill("% ", &[*operation]);
            put_op(&mut picture.name, &ask.op);
            picture.label(x, upper(row), WIDE);
        }
        Mark::End {
            operation,
            answer,
            ..
        } => {
            picture.name.fill("% ", &[*operation]);
            put_answer(&mut picture.name, answer);
            picture.label(x, lower(row), WIDE);
        }
        Mark::Crash { brick, .. } => draw_power(picture, "stop", row, *brick),
    }
}

/// Draws that messages were sent, from one place to another among all, the last of which is this.
pub(crate) fn draw_sent(
    picture: &mut Picture,
    packet: &Packet,
    first: usize,
    last: usize,
    row: usize,
) {
    picture.name.put("+");
    if first < last {
        picture.name.fill("%-", &[number_at(first)]);
    }
    picture.name.fill("% ", &[number_at(last)]);
    picture.name.put(word_of(&packet.message));
    picture.label(beside(packet.from), lower(row), NARROW);
}

/// Draws a message that was to be delivered: an arrow from the row in which it was sent to another one.
pub(crate) fn draw_delivery(
    picture: &mut Picture,
    packet: &Packet,
    number: u64,
    is_lost: bool,
    rows: (usize, usize),
) {
    let from = departure(rows.0, packet.from);
    let to = arrival(rows.1, packet.to);
    let kind = kind_of(&packet.message);
    if packet.from == packet.to {
        picture.turn(kind, is_lost, from, to.1);
    } else {
        picture.line(kind, is_lost, from, to);
    }
    picture.name.fill("#% ", &[number]);
    picture.name.put(word_of(&packet.message));
    picture.label(beside(packet.to), upper(rows.1), NARROW);
}

/// Draws the lines of the bricks that are up, from one row to another.
pub(crate) fn draw_lines(picture: &mut Picture, world: &World, first: usize, end: usize) {
    let (top, bottom) = (top_of(first), top_of(end));
    for number in 0..world.layout().bricks() {
        let brick = BrickId(number);
        if is_up(world, brick) {
            let x = line_of(brick);
            picture.line("up", false, (x, top), (x, bottom));
        }
    }
}

/// Writes the names of so many bricks above a row, and of what stands beside them.
fn draw_names(picture: &mut Picture, bricks: u16, row: usize) {
    let y = top_of(row).saturating_sub(6);
    let behind = line_of(BrickId(bricks));
    for number in 0..bricks {
        picture.name.fill("brick %", &[u64::from(number)]);
        picture.label(beside(BrickId(number)), y, NARROW);
    }
    picture.name.put("line");
    picture.label(NUMBERS, y, NARROW);
    picture.name.put("operations");
    picture.label(behind.saturating_add(OPERATIONS), y, WIDE);
    picture.name.put("stripes");
    picture.label(behind.saturating_add(STRIPES), y, WIDE);
}

/// Writes the names of so many bricks above the first of so many rows, and again below every 20th.
pub(crate) fn draw_all_names(picture: &mut Picture, bricks: u16, rows: usize) {
    let last = rows.saturating_sub(1) / NAMED_ROWS;
    for block in 0..last.saturating_add(1) {
        draw_names(picture, bricks, block.saturating_mul(NAMED_ROWS));
    }
}

/// Draws a message that was never delivered as a stub, to the left or right as its receiver is.
pub(crate) fn draw_stub(picture: &mut Picture, packet: &Packet, sender: usize) {
    let (x, y) = departure(sender, packet.from);
    let lines = u64::from(packet.to.0.abs_diff(packet.from.0).min(3));
    let run = lines.saturating_mul(6).saturating_add(10);
    let end = if packet.to.0 <= packet.from.0 {
        x.saturating_sub(run)
    } else {
        x.saturating_add(run)
    };
    let kind = kind_of(&packet.message);
    picture.line(kind, true, (x, y), (end, y.saturating_add(5)));
}

/// Writes the bar of an operation that was given this answer, over the rows from one to another.
pub(crate) fn put_bar(
    bars: &mut Text,
    answer: Option<&Answer>,
    first: usize,
    last: usize,
    track: u64,
) {
    bars.put("<rect class=\"");
    bars.put(match answer {
        Some(Answer::Data(_) | Answer::Done) => "done",
        _ => "undone",
    });
    let y = top_of(first).saturating_add(2);
    let height = top_of(last).saturating_add(ROW - 2).saturating_sub(y);
    bars.fill(
        "\" x=\"%\" y=\"%\" width=\"8\" height=\"%\" rx=\"3\"/>\n",
        &[track.saturating_mul(TRACK), y, height],
    );
}

/// Draws the bars of operations, so many beside each other, behind so many bricks and down to a place.
pub(crate) fn draw_bars(picture: &mut Picture, bars: &Text, tracks: u64, bricks: u16, height: u64) {
    let x = line_of(BrickId(bricks)).saturating_add(4);
    picture.strip(bars, tracks, x, BARS, height);
}

/// Draws that what the name says happened in a row, and what a stripe's registers hold from there on. What stands behind the bricks is there.
pub(crate) fn draw_happening(
    picture: &mut Picture,
    row: Option<usize>,
    behind: u64,
    registers: &[u8],
) {
    if let Some(row) = row {
        let x = behind.saturating_add(STRIPES);
        picture.dot("happening", x, top_of(row).saturating_add(9));
        let x = x.saturating_add(8);
        picture.label(x, upper(row), WIDE);
        picture.name.put_hex(registers);
        picture.label(x, lower(row), WIDE);
    }
    picture.name.clear();
}
