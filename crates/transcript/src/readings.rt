//! Reading a text from a source.

ghost use Rattle.std.specs.Prelude.{◌≡◌, ◌≢◌, ◌≤◌, IfOk, if◌then◌else◌};
ghost use Rattle.std.specs.Io.KnownBytes.{prepend_known};
ghost use Rattle.fab_io.specs.Ends.{Kept};
ghost use Rattle.lines.specs.Lines.{content};
ghost use Rattle.transcript.specs.Forms.{entry_of};
ghost use Rattle.transcript.specs.Transcripts.{after_line, text_at_end, IsTextOf, EndsWhole, StripesRise, RisesWhole};
ghost use Rattle.transcript.specs.Turns.{TurnMeans, TurnRises, TurnTakes};
ghost use Rattle.transcript.specs.Readings.{TextReads};

use crate::claims::Counts;
use crate::forms::{LINE_LIMIT, parse};
use crate::transcripts::Transcript;
use fab_base::NoMem;
use fab_io::{IoFault, Source};
use lines::{LineReader, NextLine, content_of};
use std::alloc::Global;

/// The most lines of a text.
pub const MOST_LINES: u64 = 4_194_304;

/// What a text is.
#[derive(Drop)]
pub enum Text {
    /// It is whole: its lines have the forms and stand in their places, and the counts are the last.
    Whole(Transcript, Counts),
    /// This line, counted from 1, is the first that has none of the forms, or is too long, or is not in its place. The end without the
    /// counts counts as the next line.
    BadLine(u64),
    /// A line follows the last that there may be.
    TooManyLines,
}

/// What comes next of a text.
#[derive(Clone, Copy)]
pub(crate) enum Turn {
    /// A line that leads on.
    More,
    /// A line that leads on, the last of the source.
    Last,
    /// A line that has none of the forms, or is too long, or is not in its place.
    Bad,
    /// No line.
    Ended,
}

/// Takes a line, and answers whether it has one of the forms and stands in its place.
fn take_line(alloc: Global, said: &mut Transcript, line: &[u8]) -> Result<bool, NoMem>
    ensures { IfOk result (λ taken. after_line said.old (entry_of (content line.now)) ≡ (if taken then Some said.new else None)) }
{
    match parse(alloc, content_of(line))? {
        Some(entry) => said.take(entry),
        None => Ok(false),
    }
}

/// Takes what comes next.
fn take_turn(alloc: Global, said: &mut Transcript, piece: &NextLine) -> Result<Turn, NoMem>
    ensures turn { IfOk result (λ turn. TurnMeans said.old said.new piece.now turn) }
    ensures rises { IfOk result (λ turn. StripesRise said.old.stripes → TurnRises said.new turn) }
    ensures takes { IfOk result (λ turn. TurnTakes said.old said.new piece.now turn) }
{
    match piece {
        NextLine::Whole(line) => {
            if take_line(alloc, said, line.as_slice())? {
                Ok(Turn::More)
            } else {
                Ok(Turn::Bad)
            }
        }
        NextLine::Last(line) => {
            if take_line(alloc, said, line.as_slice())? {
                Ok(Turn::Last)
            } else {
                Ok(Turn::Bad)
            }
        }
        NextLine::Long => Ok(Turn::Bad),
        NextLine::Ended => Ok(Turn::Ended),
    }
}

/// The same, as a fault of a source has it.
fn take_next(alloc: Global, said: &mut Transcript, piece: &NextLine) -> Result<Turn, IoFault>
    ensures turn { IfOk result (λ turn. TurnMeans said.old said.new piece.now turn) }
    ensures rises { IfOk result (λ turn. StripesRise said.old.stripes → TurnRises said.new turn) }
    ensures takes { IfOk result (λ turn. TurnTakes said.old said.new piece.now turn) }
    ensures cause { result ≢ Err IoFault.Failed }
{
    match take_turn(alloc, said, piece) {
        Ok(turn) => Ok(turn),
        Err(NoMem::NoMemory) => Err(IoFault::NoMemory),
    }
}

/// What a text is that ends after this many lines.
fn finish(said: Transcript, lines: u64) -> Text
    requires { lines ≤ MOST_LINES }
    ensures { result ≡ text_at_end lines said said.counts }
{
    match said.counts() {
        Some(counts) => Text::Whole(said, counts),
        None => Text::BadLine(lines + 1),
    }
}

/// Reads the text that is left of a source, as far as it takes to know what it is: no read is made once a line is bad, or one too many.
///
/// `Failed` comes only where the source failed, and `NoMemory` where there was no memory.
pub fn read<S: Source>(
    alloc: Global,
    source: &mut S,
    unread: &mut LineReader,
) -> Result<Text, IoFault>
    ensures rises { IfOk result RisesWhole }
    ensures text { IfOk result (λ text. IsTextOf (prepend_known unread.old (S.told source.old)) text) }
    ensures end { IfOk result (λ text. EndsWhole text (prepend_known unread.new (S.told source.new))) }
    ensures reads { TextReads unread.old (S.told source.old) (S.told source.new) (S.came source.new) (source.new ≡ source.old)
        (result ≡ Err IoFault.Failed) }
    ensures kept { Kept (S.faults source.old) (S.faults source.new) (S.sound source.old) (S.sound source.new)
        (result ≡ Err IoFault.Failed) }
{
    let mut said = Transcript::new(alloc);
    for count in 0..MOST_LINES {
        let piece = unread.next_line(source, LINE_LIMIT)?;
        match take_next(alloc, &mut said, &piece)? {
            Turn::More => (),
            Turn::Last => return Ok(finish(said, count + 1)),
            Turn::Bad => return Ok(Text::BadLine(count + 1)),
            Turn::Ended => return Ok(finish(said, count)),
        }
    }
    let more = unread.next_line(source, LINE_LIMIT)?;
    if let NextLine::Ended = more {
        return Ok(finish(said, MOST_LINES));
    }
    Ok(Text::TooManyLines)
}
