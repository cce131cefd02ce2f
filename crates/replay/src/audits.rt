//! An audit: what is found of the text behind a layout, and the one text that says it. Nothing is run.

ghost use Rattle.std.specs.Prelude.{◌≡◌, ◌≢◌, IfOk, None, true, [], string_bytes};
ghost use Rattle.std.specs.Io.KnownBytes.{IsAtEnd, prepend_known};
ghost use Rattle.fab_io.specs.Ends.{Kept};
ghost use Rattle.replay.specs.Readings.{ReadsPart, BehindSoFar};
ghost use Rattle.replay.specs.Replays.{LeavesOpen};
ghost use Rattle.replay.specs.Audits.{text_of_verdict, end_of_verdict, audited_text, audited_end, FindsBehind, FindsIn, AuditGoesOn, AuditPrints};

use crate::endings::{Halt, RunResult};
use crate::heads::{Head, read_head};
use crate::schedules::is_memory;
use crate::turns::write;
use audit::{AuditResult, Finding, examine};
use fab_base::NoMem;
use fab_io::{IoFault, Sink, Source};
use layout::{Layout, LayoutFault};
use lines::LineReader;
use std::alloc::Global;

/// What an audit finds of an input.
#[derive(Drop)]
pub enum Audited {
    /// The text before the line `---` is no layout, for this reason.
    NoLayout(LayoutFault),
    /// That text is past its limit.
    LongLayout,
    /// There is no line `---`.
    NoEnd,
    /// This is found of the text behind the layout.
    Examined(AuditResult),
}

/// How what was found of a text ends an audit.
fn end_of_verdict(found: AuditResult) -> RunResult
    ensures { result ≡ end_of_verdict found }
{
    match found {
        AuditResult::Judged(finding) => match finding {
            Finding::Sound => RunResult::Whole,
            Finding::BadMarks | Finding::BadStripe { .. } | Finding::BadCount => RunResult::Refuted,
        },
        AuditResult::BadForm(line) => RunResult::BadLine(line),
        AuditResult::TooMany => RunResult::TooManyLines,
    }
}

/// What is printed of a text.
fn text_of_verdict(alloc: Global, found: AuditResult) -> Result<String, NoMem>
    ensures { IfOk result (λ text. string_bytes text ≡ text_of_verdict found) }
{
    let text = match found {
        AuditResult::Judged(finding) => match finding {
            Finding::Sound => String::from_str(alloc, "audit ok\n")?,
            Finding::BadMarks => String::from_str(alloc, "audit bad marks\n")?,
            Finding::BadStripe { group, stripe } => {
                format!(in alloc; "audit bad {group} {stripe}\n")?
            }
            Finding::BadCount => String::from_str(alloc, "audit bad count\n")?,
        },
        AuditResult::BadForm(line) => format!(in alloc; "bad line {line}\n")?,
        AuditResult::TooMany => String::from_str(alloc, "too many lines\n")?,
    };
    Ok(text)
}

impl Audited {
    /// How this ends an audit.
    fn end(&self) -> RunResult
        ensures { result ≡ audited_end self.now }
    {
        match self {
            Audited::NoLayout(_) | Audited::LongLayout | Audited::NoEnd => RunResult::BadLayout,
            Audited::Examined(found) => end_of_verdict(*found),
        }
    }

    /// What is printed of this.
    fn text(&self, alloc: Global) -> Result<String, NoMem>
        ensures { IfOk result (λ text. string_bytes text ≡ audited_text self.now) }
    {
        match self {
            Audited::NoLayout(fault) => Ok(format!(in alloc; "bad layout: {fault}\n")?),
            Audited::LongLayout => Ok(String::from_str(alloc, "bad layout: limit layout\n")?),
            Audited::NoEnd => Ok(String::from_str(alloc, "bad layout: end\n")?),
            Audited::Examined(found) => text_of_verdict(alloc, *found),
        }
    }
}

/// What is found of the text behind a layout's. Where the layout stands alone, there is no text, and the counts are missing on its line 1.
fn audit_layout<S: Source>(
    alloc: Global,
    head: &[u8],
    is_alone: bool,
    source: &mut S,
    unread: &mut LineReader,
) -> Result<Audited, Halt>
    requires { is_alone ≡ true → IsAtEnd (prepend_known unread.old (S.told source.old)) }
    ensures found { IfOk result (FindsBehind head.now (prepend_known unread.old (S.told source.old))
        (prepend_known unread.new (S.told source.new))) }
    ensures reads { ReadsPart (BehindSoFar AuditGoesOn head.now) unread.old (S.told source.old) (S.told source.new) None None
        (S.came source.new) (source.new ≡ source.old) (result ≡ Err Halt.Source) }
    ensures alone { is_alone ≡ true → (source.new ≡ source.old) × (result ≢ Err Halt.Source) }
    ensures kept { Kept (S.faults source.old) (S.faults source.new) (S.sound source.old) (S.sound source.new)
        (result ≡ Err Halt.Source) }
    ensures cause { result ≢ Err Halt.Sink }
{
    match Layout::read(alloc, head) {
        Ok(layout) => {
            if is_alone {
                return Ok(Audited::Examined(AuditResult::BadForm(1)));
            }
            match examine(alloc, &layout, source, unread) {
                Ok(found) => Ok(Audited::Examined(found)),
                Err(IoFault::Failed) => Err(Halt::Source),
                Err(IoFault::NoMemory) => Err(Halt::Memory),
            }
        }
        Err(fault) => {
            if is_memory(&fault) {
                return Err(Halt::Memory);
            }
            Ok(Audited::NoLayout(fault))
        }
    }
}

/// What is found of the input of a source.
fn audit_source<S: Source>(alloc: Global, source: &mut S) -> Result<Audited, Halt>
    ensures found { IfOk result (FindsIn (S.told source.old) (S.told source.new)) }
    ensures reads { ReadsPart (LeavesOpen AuditGoesOn) [] (S.told source.old) (S.told source.new) None None (S.came source.new)
        (source.new ≡ source.old) (result ≡ Err Halt.Source) }
    ensures kept { Kept (S.faults source.old) (S.faults source.new) (S.sound source.old) (S.sound source.new)
        (result ≡ Err Halt.Source) }
    ensures cause { result ≢ Err Halt.Sink }
{
    let mut unread = LineReader::new(alloc);
    match read_head(alloc, source, &mut unread)? {
        Head::Text(text) => audit_layout(alloc, text.as_slice(), false, source, &mut unread),
        Head::Alone(text) => audit_layout(alloc, text.as_slice(), true, source, &mut unread),
        Head::TooLong => Ok(Audited::LongLayout),
        Head::Endless => Ok(Audited::NoEnd),
    }
}

/// Audits the input of a source, writes what was found, and answers how that ended. Nothing is written before all is known.
pub(crate) fn audit_input<S: Source, K: Sink>(
    alloc: Global,
    source: &mut S,
    sink: &mut K,
) -> Result<RunResult, Halt>
    ensures output { AuditPrints (FindsIn (S.told source.old) (S.told source.new)) (K.told sink.old) (K.told sink.new) result }
    ensures reads { ReadsPart (LeavesOpen AuditGoesOn) [] (S.told source.old) (S.told source.new) (K.told sink.old)
        (K.told sink.new) (S.came source.new) (source.new ≡ source.old) (result ≡ Err Halt.Source) }
    ensures source { Kept (S.faults source.old) (S.faults source.new) (S.sound source.old) (S.sound source.new)
        (result ≡ Err Halt.Source) }
    ensures sink { Kept (K.faults sink.old) (K.faults sink.new) (K.sound sink.old) (K.sound sink.new)
        (result ≡ Err Halt.Sink) }
{
    let audited = audit_source(alloc, source)?;
    let text = audited.text(alloc)?;
    write(sink, text.as_bytes())?;
    Ok(audited.end())
}
