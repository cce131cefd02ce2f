//! The text of the answers to commands, a line each.

ghost use Rattle.std.specs.Prelude.{◌≡◌, IfOk, string_bytes};
ghost use Rattle.hosting.specs.Answers.{why_text, data_text, done_text, answer_text, bad_line_text, unanswered_text};

use fab_base::{Bytes, NoMem};
use front::{RangeAnswer, Why};
use std::alloc::Global;

/// Why a range was stopped.
fn why_text(alloc: Global, why: &Why) -> Result<String, NoMem>
    ensures { IfOk result (λ text. string_bytes text ≡ why_text why.now) }
{
    match why {
        Why::Cause(cause) => cause.text(alloc),
        Why::Refused(refusal) => refusal.text(alloc),
    }
}

/// The bytes that were read; where there are none, the word alone.
fn data_text(alloc: Global, bytes: &Bytes) -> Result<String, NoMem>
    ensures { IfOk result (λ text. string_bytes text ≡ data_text bytes.now) }
{
    if bytes.as_slice().is_empty() {
        return Ok(String::from_str(alloc, "data\n")?);
    }
    let bytes = hex::encode(alloc, bytes.as_slice())?;
    Ok(format!(in alloc; "data {bytes}\n")?)
}

/// All of a range was done: a read, which gave these bytes, or a write.
fn done_text(alloc: Global, reads: bool, bytes: &Bytes) -> Result<String, NoMem>
    ensures { IfOk result (λ text. string_bytes text ≡ done_text reads bytes.now) }
{
    if reads {
        return data_text(alloc, bytes);
    }
    Ok(String::from_str(alloc, "done\n")?)
}

/// The answer to a command that reads, or writes.
pub(crate) fn answer_text(alloc: Global, reads: bool, answer: &RangeAnswer) -> Result<String, NoMem>
    ensures { IfOk result (λ text. string_bytes text ≡ answer_text reads answer.now) }
{
    match answer {
        RangeAnswer::Done(bytes) => done_text(alloc, reads, bytes),
        RangeAnswer::Stopped { blocks, why } => {
            let why = why_text(alloc, why)?;
            Ok(format!(in alloc; "stopped {blocks} {why}")?)
        }
        RangeAnswer::Unaligned => Ok(String::from_str(alloc, "unaligned\n")?),
        RangeAnswer::Beyond => Ok(String::from_str(alloc, "beyond\n")?),
    }
}

/// A line that is no command, by its number.
pub(crate) fn bad_line_text(alloc: Global, line: u64) -> Result<String, NoMem>
    ensures { IfOk result (λ text. string_bytes text ≡ bad_line_text line) }
{
    Ok(format!(in alloc; "bad line {line}\n")?)
}
