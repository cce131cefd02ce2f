// The lines that are marks.
ghost use Rattle.std.specs.Prelude.{◌≡◌, IfOk};
ghost use Rattle.transcript.specs.Forms.{begins, read_of, write_of, read_all_of, write_all_of, ask_of, begin_of, data_of, aborted_of, answer_of, end_of, crash_of, mark_at, mark_of_line};

use crate::claims::{Entry, ParsedAnswer, ParsedMark};
use crate::tokens::{behind, number_before, parse_lower_hex, parse_plain};
use crate::words::parse_cause;
use fab_base::NoMem;
use lines::Access;
use std::alloc::Global;

/// Where an operation begins: its mark's position, its number and its coordinator.
#[derive(Clone, Copy)]
struct Opening {
    position: u64,
    operation: u64,
    brick: u64,
}

impl Opening {
    /// It begins, on a stripe of a group.
    fn asks(self, group: u64, stripe: u64, access: Access) -> Option<Entry>
        ensures { result ≡ begins self.position self.operation self.brick group stripe access }
    {
        Some(Entry::Mark(ParsedMark::Begin {
            position: self.position,
            operation: self.operation,
            brick: self.brick,
            group,
            stripe,
            access,
        }))
    }

    /// `G S J`, behind `read `.
    #[tactic(auto, unfolding(crate::specs::Forms::read_of))]
    fn parse_read(self, text: &[u8]) -> Option<Entry>
        ensures { result ≡ read_of self.position self.operation self.brick text.now }
    {
        let (group, text) = number_before(text, b' ')?;
        let (stripe, text) = number_before(text, b' ')?;
        let block = parse_plain(text)?;
        self.asks(group, stripe, Access::ReadBlock(block))
    }

    /// `G S J HEX`, behind `write `.
    #[tactic(auto, unfolding(crate::specs::Forms::write_of))]
    fn parse_write(self, alloc: Global, text: &[u8]) -> Result<Option<Entry>, NoMem>
        ensures { IfOk result (λ entry. entry ≡ write_of self.position self.operation self.brick text.now) }
    {
        let Some((group, text)) = number_before(text, b' ') else {
            return Ok(None);
        };
        let Some((stripe, text)) = number_before(text, b' ') else {
            return Ok(None);
        };
        let Some((block, text)) = number_before(text, b' ') else {
            return Ok(None);
        };
        let Some(bytes) = parse_lower_hex(alloc, text)? else {
            return Ok(None);
        };
        Ok(self.asks(group, stripe, Access::WriteBlock(block, bytes)))
    }

    /// `G S`, behind `readall `.
    #[tactic(auto, unfolding(crate::specs::Forms::read_all_of))]
    fn parse_read_all(self, text: &[u8]) -> Option<Entry>
        ensures { result ≡ read_all_of self.position self.operation self.brick text.now }
    {
        let (group, text) = number_before(text, b' ')?;
        let stripe = parse_plain(text)?;
        self.asks(group, stripe, Access::ReadStripe)
    }

    /// `G S HEX`, behind `writeall `.
    #[tactic(auto, unfolding(crate::specs::Forms::write_all_of))]
    fn parse_write_all(self, alloc: Global, text: &[u8]) -> Result<Option<Entry>, NoMem>
        ensures { IfOk result (λ entry. entry ≡ write_all_of self.position self.operation self.brick text.now) }
    {
        let Some((group, text)) = number_before(text, b' ') else {
            return Ok(None);
        };
        let Some((stripe, text)) = number_before(text, b' ') else {
            return Ok(None);
        };
        let Some(bytes) = parse_lower_hex(alloc, text)? else {
            return Ok(None);
        };
        Ok(self.asks(group, stripe, Access::WriteStripe(bytes)))
    }

    /// What is asked, behind `P begin N B `.
    #[tactic(auto, unfolding(crate::specs::Forms::ask_of))]
    fn parse_ask(self, alloc: Global, text: &[u8]) -> Result<Option<Entry>, NoMem>
        ensures { IfOk result (λ entry. entry ≡ ask_of self.position self.operation self.brick text.now) }
    {
        if let Some(rest) = behind(text, b"read ") {
            return Ok(self.parse_read(rest));
        }
        if let Some(rest) = behind(text, b"write ") {
            return self.parse_write(alloc, rest);
        }
        if let Some(rest) = behind(text, b"readall ") {
            return Ok(self.parse_read_all(rest));
        }
        if let Some(rest) = behind(text, b"writeall ") {
            return self.parse_write_all(alloc, rest);
        }
        Ok(None)
    }
}

/// `N B` and what is asked, behind `P begin `.
#[tactic(auto, unfolding(crate::specs::Forms::begin_of))]
fn parse_begin(alloc: Global, position: u64, text: &[u8]) -> Result<Option<Entry>, NoMem>
    ensures { IfOk result (λ entry. entry ≡ begin_of position text.now) }
{
    let Some((operation, text)) = number_before(text, b' ') else {
        return Ok(None);
    };
    let Some((brick, text)) = number_before(text, b' ') else {
        return Ok(None);
    };
    let opening = Opening {
        position,
        operation,
        brick,
    };
    opening.parse_ask(alloc, text)
}

/// An operation ends.
fn end(position: u64, operation: u64, outcome: ParsedAnswer) -> Entry
    ensures { result ≡ Entry.Mark (ParsedMark.End position operation outcome) }
{
    Entry::Mark(ParsedMark::End {
        position,
        operation,
        outcome,
    })
}

/// An answer, behind `P end N `.
#[tactic(auto, unfolding(crate::specs::Forms::answer_of, crate::specs::Forms::data_of, crate::specs::Forms::aborted_of))]
fn parse_answer(
    alloc: Global,
    position: u64,
    operation: u64,
    text: &[u8],
) -> Result<Option<Entry>, NoMem>
    ensures { IfOk result (λ entry. entry ≡ answer_of position operation text.now) }
{
    if let Some(rest) = behind(text, b"data ") {
        let Some(bytes) = parse_lower_hex(alloc, rest)? else {
            return Ok(None);
        };
        return Ok(Some(end(position, operation, ParsedAnswer::Data(bytes))));
    }
    if let Some(rest) = behind(text, b"aborted ") {
        let Some(reason) = parse_cause(rest) else {
            return Ok(None);
        };
        return Ok(Some(end(position, operation, ParsedAnswer::Aborted(reason))));
    }
    if text == b"done".as_slice() {
        Ok(Some(end(position, operation, ParsedAnswer::Done)))
    } else {
        Ok(None)
    }
}

/// `N` and an answer, behind `P end `.
#[tactic(auto, unfolding(crate::specs::Forms::end_of))]
fn parse_end(alloc: Global, position: u64, text: &[u8]) -> Result<Option<Entry>, NoMem>
    ensures { IfOk result (λ entry. entry ≡ end_of position text.now) }
{
    let Some((operation, text)) = number_before(text, b' ') else {
        return Ok(None);
    };
    parse_answer(alloc, position, operation, text)
}

/// `B`, behind `P crash `.
#[tactic(auto, unfolding(crate::specs::Forms::crash_of))]
fn parse_crash(position: u64, text: &[u8]) -> Option<Entry>
    ensures { result ≡ crash_of position text.now }
{
    let brick = parse_plain(text)?;
    Some(Entry::Mark(ParsedMark::Crash { position, brick }))
}

/// The rest of a mark, behind its position.
#[tactic(auto, unfolding(crate::specs::Forms::mark_at))]
fn parse_mark_at(alloc: Global, position: u64, text: &[u8]) -> Result<Option<Entry>, NoMem>
    ensures { IfOk result (λ entry. entry ≡ mark_at position text.now) }
{
    if let Some(rest) = behind(text, b"begin ") {
        return parse_begin(alloc, position, rest);
    }
    if let Some(rest) = behind(text, b"end ") {
        return parse_end(alloc, position, rest);
    }
    if let Some(rest) = behind(text, b"crash ") {
        return Ok(parse_crash(position, rest));
    }
    Ok(None)
}

/// A mark.
#[tactic(auto, unfolding(crate::specs::Forms::mark_of_line))]
pub(crate) fn parse_mark(alloc: Global, text: &[u8]) -> Result<Option<Entry>, NoMem>
    ensures { IfOk result (λ entry. entry ≡ mark_of_line text.now) }
{
    let Some((position, text)) = number_before(text, b' ') else {
        return Ok(None);
    };
    parse_mark_at(alloc, position, text)
}
