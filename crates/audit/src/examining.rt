//! The audit of a text that is read from a source.

ghost use Rattle.std.specs.Prelude.{◌≡◌, IfOk};
ghost use Rattle.std.specs.Io.KnownBytes.{prepend_known};
ghost use Rattle.fab_io.specs.Ends.{Kept};
ghost use Rattle.transcript.specs.Transcripts.{RisesWhole};
ghost use Rattle.transcript.specs.Readings.{TextReads};
ghost use Rattle.audit.specs.Examining.{Examines, ExaminesLeft, EndsJudged};

use crate::findings::Finding;
use crate::judging::judge;
use fab_base::NoMem;
use fab_io::{IoFault, Source};
use layout::Layout;
use lines::LineReader;
use std::alloc::Global;
use transcript::{Text, read};

/// What an audit finds of a text.
#[derive(Clone, Copy, PartialEq, Eq)]
pub enum AuditResult {
    /// The text is whole, and this is found of what it says.
    Judged(Finding),
    /// This line, counted from 1, is the first that has none of the forms, or is too long, or is not in its place. The end without the
    /// counts counts as the next line.
    BadForm(u64),
    /// A line follows the last that there may be.
    TooMany,
}

/// Examines a text that was read.
fn examine_text(alloc: Global, layout: &Layout, text: &Text) -> Result<AuditResult, NoMem>
    requires { RisesWhole text.now }
    ensures { IfOk result (Examines layout.now text.now) }
{
    match text {
        Text::Whole(said, counts) => {
            let finding = judge(alloc, layout, said.claims(), said.stripes(), *counts)?;
            Ok(AuditResult::Judged(finding))
        }
        Text::BadLine(line) => Ok(AuditResult::BadForm(*line)),
        Text::TooManyLines => Ok(AuditResult::TooMany),
    }
}

/// Audits the text that is left of a source under a layout, as far as it takes to know what is found: no read is made once a line is bad,
/// or one too many.
///
/// The forms of the lines come first, then the marks, then the happenings of each stripe, then the counts. Where a text is whole, the
/// source was read to its end. `Failed` comes only where the source failed, and `NoMemory` where there was no memory.
pub fn examine<S: Source>(
    alloc: Global,
    layout: &Layout,
    source: &mut S,
    unread: &mut LineReader,
) -> Result<AuditResult, IoFault>
    ensures verdict { IfOk result (ExaminesLeft layout.now (prepend_known unread.old (S.told source.old))) }
    ensures end { IfOk result (λ verdict. EndsJudged verdict (prepend_known unread.new (S.told source.new))) }
    ensures reads { TextReads unread.old (S.told source.old) (S.told source.new) (S.came source.new) (source.new ≡ source.old)
        (result ≡ Err IoFault.Failed) }
    ensures kept { Kept (S.faults source.old) (S.faults source.new) (S.sound source.old) (S.sound source.new)
        (result ≡ Err IoFault.Failed) }
{
    let text = read(alloc, source, unread)?;
    match examine_text(alloc, layout, &text) {
        Ok(verdict) => Ok(verdict),
        Err(NoMem::NoMemory) => Err(IoFault::NoMemory),
    }
}
