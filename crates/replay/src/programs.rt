//! The program's top call.

ghost use Rattle.std.specs.Prelude.{◌≡◌, ◌≢◌, ◌⊎◌, map, string_bytes};
ghost use Rattle.std.specs.Option.{ForSome};
ghost use Rattle.fab_io.specs.Ends.{Kept, WriteTakes};
ghost use Rattle.replay_words.specs.Requests.{request_of, IsLegal};
ghost use Rattle.replay.specs.Replays.{is_word, usage_text, Refuses};
ghost use Rattle.replay.specs.Requests.{AnswersTo, IsDecidedFor};

use crate::audits::audit_input;
use crate::endings::{Halt, status_of};
use crate::makes::make;
use crate::schedules::run;
use crate::turns::write;
use fab_io::{NO_MEMORY, Sink, Source};
use replay_words::{Request, request_of};
use std::alloc::Global;

/// Runs the program `replay` with these words (its own name left out), and answers its exit status.
///
/// The one word `run`:
///
/// | status | when | printed |
/// |---|---|---|
/// | 0 | the source was read to its end, all lines were run, all was written | the whole output |
/// | 2 | the words are none of `run`, `audit` and `make SEED LINES` | the usage line |
/// | 3 | the text before the line `---` is no layout, is past 1,048,576 bytes, or there is no such line | `bad layout: toml`, `bad layout: field NAME`, `bad layout: limit NAME`, `bad layout: end` |
/// | 4 | a line of the schedule is no line; the earlier ones were run and printed | `bad line N` |
/// | 5 | the source failed; the lines whose line feed was read before were run and printed | nothing more |
/// | 6 | the sink failed | nothing more; what was taken is a prefix of the output |
/// | 7 | no memory was left | nothing more; what was taken is a prefix of the output |
/// | 8 | there are more than 1,048,576 lines; the first 1,048,576 were run and printed | `too many lines` |
///
/// For every schedule that `replay` accepts, the happenings printed for each stripe make its blocks plain
/// registers. Each answered operation happens once between its invocation and its answer. Each aborted or
/// interrupted one happens once between its invocation and its abort or crash, or never. Each read answers
/// what the registers then hold.
///
/// This is strict linearizability (Aguilera and Frølund, "Strict Linearizability and the Power of Aborting",
/// 2003). It rests on these definitions: what is printed for an input is `output_of` (`specs/Outputs.antt`),
/// and `IsLinearizable` (`specs/Replays.antt`) says that the happenings printed for each stripe are strict
/// for its marks, `IsStrict` (`specs/Strict.antt` of `reg_model`). The schedules that are accepted are those
/// that end with status 0.
///
/// What is printed at status 0, read as anyone may read it, says just the marks and happenings that it was printed from (`ReadsBack`,
/// `specs/Sound.antt` of `printed`), and an audit of it behind the input's layout answers `audit ok`, and nothing else (`FindsAlone`,
/// `specs/AuditFindings.antt`).
///
/// At every status the steps that were run are those of the first lines of the input (`AreStepsIn`, `specs/LineSteps.antt`), and
/// what is printed is their texts and then what the lines behind them end it with. Their texts are marks, reports, refusals and `idle`, and the marks and
/// the reports are those of the world that they leave (`ArePrinted`, `specs/Printed.antt` of `printed`).
///
/// What comes first in the input decides: no read is made once what was read holds a line that is none, a line past
/// 70,000 bytes, a layout that is none, or a line too many (`ReadsAsNeeded` and `FailedSource`, `specs/Replays.antt`).
///
/// However far a run comes, all laws of the disk hold of what its lines left (`Laws` of `protocol_laws`). Every abort shows its evidence, and
/// so does a synchronisation that was stopped: its stripe had been read eight times, and each read was aborted. A scrub that ended shows how: where
/// it was clean, each of its members told one version as its newest, and has held it; where it has repaired, each has stored the version, and those
/// lagged who had told an earlier one than the newest of all, or none, to its first phase. Once a message says that all
/// stripes are kept in a view, a quorum of its members has held a version of each (`IsStrictWorld`, `specs/Replays.antt`). What
/// further lines leave follows it: no brick has lowered what it had promised or stored, or added a version
/// below that, and no version that was lost has surfaced (`Succeeds`, `specs/Histories.antt`).
///
/// The one word `audit`: the text behind the line `---` may be of any origin. Nothing is run, and nothing is printed before all is known.
///
/// | status | when | printed |
/// |---|---|---|
/// | 0 | the text was read to its end; its lines have the forms, order and limits of what `run` prints; and its marks, happenings and counts hold under the layout | `audit ok` |
/// | 2, 3, 5, 6 | as of `run` | as of `run` |
/// | 4 | a line has none of these forms, is past 33,554,432 bytes, or is not in its place; the end without the counts counts as the next line | `bad line N` |
/// | 7 | no memory was left | nothing |
/// | 8 | a line follows the 4,194,304th | `too many lines` |
/// | 9 | the marks do not hold; else a stripe's happenings do not, and this one, by group and stripe, is the first; else a count does not | `audit bad marks`, `audit bad G S`, `audit bad count` |
///
/// What is found is `Examines` (`specs/Examining.antt` of `audit`): the forms are those of `transcript`, and a stripe's happenings hold
/// where they are strict for its marks, `IsStrict` as above.
///
/// The words `make SEED LINES`, two numbers as in a schedule, LINES at most 1,048,576: the schedule of a seed is drawn, line by line, each as soon as the one before it
/// was run, over a disk of six bricks. The source is not read.
///
/// | status | when | printed |
/// |---|---|---|
/// | 0 | all lines were run | the counts, as `run` prints them last, and `happened total H`, with H happenings over all stripes |
/// | 2, 6 | as of `run` | as of `run` |
/// | 7 | no memory was left | nothing |
///
/// The lines are `made_lines` (`specs/MadeRuns.antt`), a function of the seed and of the run so far. They read back as they are spelt, and what `run` prints of them behind the
/// layout of that disk is strict as above (`IsMadeRun`).
pub fn replay<S: Source, K: Sink>(
    alloc: Global,
    words: &[String],
    source: &mut S,
    sink: &mut K,
) -> u8
    // By what the words ask for: a run, an audit, or a made run; nothing, where they are none of the three forms.
    ensures answers { AnswersTo (request_of (map string_bytes words.now)) (S.told source.old) (S.told source.new) (S.came source.new)
        (source.new ≡ source.old) (K.told sink.old) (K.told sink.new) result }
    // A failure comes only where that end's count of faults rose, and never from a sound end.
    ensures source { Kept (S.faults source.old) (S.faults source.new) (S.sound source.old) (S.sound source.new) (result ≡ 5) }
    ensures sink { Kept (K.faults sink.old) (K.faults sink.new) (K.sound sink.old) (K.sound sink.new) (result ≡ 6) }
    // Over sound ends it answers what the words and the input alone call for, as 0 for a legal input, or that memory was lacking.
    ensures decided { K.sound sink.old
        → IsDecidedFor (request_of (map string_bytes words.now)) (S.sound source.old) (S.told source.old) result }
{
    match request_of(alloc, words) {
        Ok(request) => answer(alloc, request, source, sink),
        Err(_) => NO_MEMORY,
    }
}

/// Does what is asked for, if anything is, and answers the exit status.
fn answer<S: Source, K: Sink>(
    alloc: Global,
    request: Option<Request>,
    source: &mut S,
    sink: &mut K,
) -> u8
    requires { ForSome request IsLegal }
    ensures answers { AnswersTo request (S.told source.old) (S.told source.new) (S.came source.new) (source.new ≡ source.old)
        (K.told sink.old) (K.told sink.new) result }
    ensures source { Kept (S.faults source.old) (S.faults source.new) (S.sound source.old) (S.sound source.new) (result ≡ 5) }
    ensures sink { Kept (K.faults sink.old) (K.faults sink.new) (K.sound sink.old) (K.sound sink.new) (result ≡ 6) }
    ensures decided { K.sound sink.old → IsDecidedFor request (S.sound source.old) (S.told source.old) result }
{
    match request {
        None => refuse_words(sink),
        Some(request) => match request {
            Request::Run => status_of(run(alloc, source, sink)),
            Request::Audit => status_of(audit_input(alloc, source, sink)),
            Request::Make { seed, lines } => status_of(make(alloc, seed, lines, sink)),
        },
    }
}

/// Writes the usage line, and answers the exit status.
fn refuse_words<K: Sink>(sink: &mut K) -> u8
    ensures refuses { Refuses usage_text (K.told sink.old) (K.told sink.new) result }
    ensures kept { Kept (K.faults sink.old) (K.faults sink.new) (K.sound sink.old) (K.sound sink.new) (result ≡ 6) }
    ensures cause { result ≢ 5 }
    ensures decided { K.sound sink.old → (result ≡ 2) ⊎ (result ≡ 7) }
{
    match write(
        sink,
        b"usage: replay run | replay make SEED LINES | replay audit\n".as_slice(),
    ) {
        Ok(()) => 2,
        Err(halt) => status_of(Err(halt)),
    }
}

/// Whether the words are this one word.
pub fn is_word(words: &[String], text: &str) -> bool
    ensures { result ≡ is_word text.now (map string_bytes words.now) }
{
    match words {
        [word] => word.as_str() == text,
        _ => false,
    }
}
