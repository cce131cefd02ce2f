//! Made schedules as texts. Each line is spelt as soon as it is drawn and run, by a printer of this file's own, and the text is then an input like any other.

use fab_base::NoMem;
use fab_io::{MemSink, MemSource};
use lines::{Access, Fault, Line};
use made::{DISK, Maker, made_disk};
use replay::replay;
use std::alloc::{AllocError, Global};
use world::World;

/// The line behind a layout.
const END: &[u8] = b"---\n";

/// The bytes of a block or a stripe, as a line spells them.
fn hex_text(alloc: Global, bytes: &[u8]) -> Result<String, AllocError> {
    let mut text = String::new(alloc);
    for byte in bytes {
        let digits = format!(in alloc; "{byte:02x}")?;
        text.push_str(digits.as_str())?;
    }
    Ok(text)
}

/// An operation at a brick, as a line spells it.
fn access_text(
    alloc: Global,
    brick: u64,
    group: u64,
    stripe: u64,
    access: &Access,
) -> Result<String, AllocError> {
    match access {
        Access::ReadBlock(block) => format!(in alloc; "read {brick} {group} {stripe} {block}"),
        Access::WriteBlock(block, bytes) => {
            let hex = hex_text(alloc, bytes.as_slice())?;
            format!(in alloc; "write {brick} {group} {stripe} {block} {hex}")
        }
        Access::ReadStripe => format!(in alloc; "readall {brick} {group} {stripe}"),
        Access::WriteStripe(bytes) => {
            let hex = hex_text(alloc, bytes.as_slice())?;
            format!(in alloc; "writeall {brick} {group} {stripe} {hex}")
        }
    }
}

/// A fault of a disk, as it stands behind a line.
fn fault_text(alloc: Global, fault: &Option<Fault>) -> Result<String, AllocError> {
    match fault {
        Some(Fault::Cut { call, pick }) => format!(in alloc; " cut {call} pick {pick}"),
        Some(Fault::Fail { call }) => format!(in alloc; " fail {call}"),
        None => Ok(String::new(alloc)),
    }
}

/// Bricks, as they stand at the end of a line.
fn bricks_text(alloc: Global, bricks: &[u64]) -> Result<String, AllocError> {
    let mut text = String::new(alloc);
    for brick in bricks {
        let one = format!(in alloc; " {brick}")?;
        text.push_str(one.as_str())?;
    }
    Ok(text)
}

/// A line, as it is spelt.
fn line_text(alloc: Global, line: &Line) -> Result<String, AllocError> {
    match line {
        Line::Nothing => Ok(String::new(alloc)),
        Line::Invoke {
            brick,
            group,
            stripe,
            access,
        } => access_text(alloc, *brick, *group, *stripe, access),
        Line::Deliver { message, fault } => {
            let fault = fault_text(alloc, fault)?;
            format!(in alloc; "deliver {message}{fault}")
        }
        Line::SetClock { brick, time } => format!(in alloc; "clock {brick} {time}"),
        Line::Tick { brick } => format!(in alloc; "tick {brick}"),
        Line::Crash { brick } => format!(in alloc; "crash {brick}"),
        Line::Start { brick, fault } => {
            let fault = fault_text(alloc, fault)?;
            format!(in alloc; "start {brick}{fault}")
        }
        Line::Propose {
            brick,
            group,
            members,
        } => {
            let members = bricks_text(alloc, members.as_slice())?;
            format!(in alloc; "view {brick} {group}{members}")
        }
        Line::Sync { brick, group } => format!(in alloc; "sync {brick} {group}"),
        Line::Scrub {
            brick,
            group,
            stripe,
            members,
        } => {
            let members = bricks_text(alloc, members.as_slice())?;
            format!(in alloc; "scrub {brick} {group} {stripe}{members}")
        }
        Line::Suspect { by, brick } => format!(in alloc; "suspect {by} {brick}"),
        Line::Trust { by, brick } => format!(in alloc; "trust {by} {brick}"),
        Line::Spare { brick, group } => format!(in alloc; "spare {brick} {group}"),
        Line::Calm { operation, bricks } => {
            let bricks = bricks_text(alloc, bricks.as_slice())?;
            format!(in alloc; "calm {operation}{bricks}")
        }
    }
}

/// The layout of made schedules, and the line behind it.
fn layout_text(alloc: Global) -> Result<Vec<u8>, AllocError> {
    let mut text = Vec::from_slice(alloc, DISK)?;
    text.extend_from_slice(END)?;
    Ok(text)
}

/// The schedule of a seed, of so many lines, behind its layout.
fn input_of(alloc: Global, seed: u64, count: u64) -> Result<Vec<u8>, NoMem> {
    let mut input = layout_text(alloc)?;
    let mut world = World::new(alloc, made_disk(alloc)?)?;
    let mut maker = Maker::new(seed);
    for _ in 0..count {
        let line = maker.draw_line(alloc, world.sent().len() as u64)?;
        let text = line_text(alloc, &line)?;
        input.extend_from_slice(text.as_bytes())?;
        input.push(b'\n')?;
        world.run_line(&line)?;
    }
    Ok(input)
}

/// What `replay` prints of an input, asked by these words.
fn printed(alloc: Global, words: &[String], input: Vec<u8>) -> MemSink {
    let mut source = MemSource::new(input);
    let mut sink = MemSink::new(alloc);
    let _status = replay(alloc, words, &mut source, &mut sink);
    sink
}

/// The one word of a program.
fn word(alloc: Global, text: &str) -> Result<Vec<String>, AllocError> {
    let mut words = Vec::new(alloc);
    words.push(String::from_str(alloc, text)?)?;
    Ok(words)
}

/// The words that ask for the schedule of a seed.
fn make_words(alloc: Global, seed: u64, count: u64) -> Result<Vec<String>, AllocError> {
    let mut words = word(alloc, "make")?;
    words.push(format!(in alloc; "{seed}")?)?;
    words.push(format!(in alloc; "{count}")?)?;
    Ok(words)
}

/// What sums up a run that printed this: its last line, and how many happenings there are in it.
fn summary(alloc: Global, text: &str) -> Result<String, AllocError> {
    let counts = text.lines().last().unwrap_or("");
    let mut total: usize = 0;
    for line in text.lines() {
        if line.starts_with("happened ") {
            total = total.saturating_add(line.bytes().filter(|byte| *byte == b'@').count());
        }
    }
    format!(in alloc; "{counts}\nhappened total {total}\n")
}

/// Whether a made run of a seed prints what sums up a run of its lines as a text, and whether an audit finds that run sound.
pub fn agrees(alloc: Global, seed: u64, count: u64) -> Result<bool, NoMem> {
    let ran = printed(
        alloc,
        word(alloc, "run")?.as_slice(),
        input_of(alloc, seed, count)?,
    );
    let made = printed(
        alloc,
        make_words(alloc, seed, count)?.as_slice(),
        Vec::new(alloc),
    );
    let mut output = layout_text(alloc)?;
    output.extend_from_slice(ran.taken())?;
    let audited = printed(alloc, word(alloc, "audit")?.as_slice(), output);
    let summed = summary(alloc, str::from_utf8(ran.taken()).unwrap_or(""))?;
    Ok(made.taken() == summed.as_bytes() && audited.taken() == b"audit ok\n".as_slice())
}
