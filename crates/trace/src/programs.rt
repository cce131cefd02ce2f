//! The program's top call.

ghost use Rattle.std.specs.Prelude.{◌≡◌, ◌⊎◌, false, true, map, string_bytes};
ghost use Rattle.fab_io.specs.Ends.{Kept};
ghost use Rattle.replay.specs.Replays.{Refuses, IsDecided};
ghost use Rattle.trace.specs.Words.{asks_text, asks_picture, usage_text, AreKept, TextEnds, PictureEnds};

use crate::drawings::draw;
use crate::text_report::tell;
use fab_io::{Sink, Source};
use replay::{is_word, status_of, write};
use std::alloc::Global;

/// Runs the program `trace` with these words (its own name left out), and answers its exit status. The input is that of `replay run`.
///
/// With the word `text` each line of the schedule is written with its number, under it what `replay` prints for it, with two spaces before, and
/// then what it did, with four. At the end stands what the run left. With the word `svg` the run is drawn, the first 2,000 lines of it.
///
/// | status | when | beside that |
/// |---|---|---|
/// | 0 | all lines were run, and all was written | |
/// | 2 | the words are others | nothing is read, and nothing is shown; the usage line is written to `errors` |
/// | 3, 4, 8 | as `replay` answers the input | what `replay` prints last is written; with `svg` to `errors`, and nothing is drawn |
/// | 5 | the source failed | |
/// | 6 | with `text` the sink failed; with `svg` the sink or `errors` did; with other words `errors` did | |
/// | 7 | no memory was left | |
///
/// What is written with the word `text` tells what `replay` prints for the lines that were run, before it closes its output: it is the lines with
/// exactly two spaces before, without these (`told_in`, `specs/Told.antt`; `TellsRun`, `specs/TextReport.antt`).
pub fn trace<S: Source, K: Sink, E: Sink>(
    alloc: Global,
    words: &[String],
    source: &mut S,
    sink: &mut K,
    errors: &mut E,
) -> u8
    // Words that are neither the one word `text` nor the one word `svg`: nothing is read, and nothing is shown.
    ensures words { asks_text (map string_bytes words.now) ≡ false → asks_picture (map string_bytes words.now) ≡ false
        → Refuses usage_text (E.told errors.old) (E.told errors.new) result × (source.new ≡ source.old) × (sink.new ≡ sink.old) }
    ensures text { asks_text (map string_bytes words.now) ≡ true
        → TextEnds (S.told source.old) (K.told sink.old) (K.told sink.new) result × (errors.new ≡ errors.old) }
    ensures picture { asks_picture (map string_bytes words.now) ≡ true
        → PictureEnds (S.told source.old) (K.told sink.old) (K.told sink.new) result }
    // A failure comes only where the count of faults of the source rose, or of a sink, and never from sound ends.
    ensures source { Kept (S.faults source.old) (S.faults source.new) (S.sound source.old) (S.sound source.new) (result ≡ 5) }
    ensures sinks { AreKept (K.faults sink.old) (K.faults sink.new) (E.faults errors.old) (E.faults errors.new)
        (K.sound sink.old) (K.sound sink.new) (E.sound errors.old) (E.sound errors.new) (result ≡ 6) }
    // Over sound ends a run answers what the input alone calls for, or that memory was lacking.
    ensures decided { (asks_text (map string_bytes words.now) ≡ true) ⊎ (asks_picture (map string_bytes words.now) ≡ true)
        → S.sound source.old → K.sound sink.old → E.sound errors.old → IsDecided (S.told source.old) result }
{
    if is_word(words, "text") {
        return status_of(tell(alloc, source, sink));
    }
    if is_word(words, "svg") {
        return status_of(draw(alloc, source, sink, errors));
    }
    match write(errors, b"usage: trace text | trace svg\n".as_slice()) {
        Ok(()) => 2,
        Err(halt) => status_of(Err(halt)),
    }
}
