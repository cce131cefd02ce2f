// The forms of a line.
ghost use Rattle.std.specs.Prelude.{◌≡◌, IfOk, map, option_map};
ghost use Rattle.transcript.specs.Tokens.{number_shown};
ghost use Rattle.transcript.specs.Forms.{happening_of, happenings_of_tokens, happenings_of, happened_of, count_behind, counts_of, form, entry_of};

use crate::claims::{Counts, Entry, StripeLine};
use crate::happening_lists::HappeningList;
use crate::marks::parse_mark;
use crate::tokens::{behind, number_before, parse_plain, split};
use crate::words::is_word;
use fab_base::NoMem;
use reg_model::Happening;
use std::alloc::Global;

/// The most bytes of a line, not counting its line feed and the one carriage return before that.
pub const LINE_LIMIT: usize = 33_554_432;

/// What a line says, by its bytes without its line feed and the one carriage return before that. `None` is no line of such a text.
///
/// Tokens are separated by single spaces. A number has no leading zero and a value below 2^64, and HEX is an even number of at least 2
/// hex digits of lower case. `NoMemory` where there was no memory for what the line says.
#[tactic(auto, unfolding(crate::specs::Forms::entry_of))]
pub fn parse(alloc: Global, text: &[u8]) -> Result<Option<Entry>, NoMem>
    ensures { IfOk result (λ entry. entry ≡ entry_of text.now) }
{
    if text.len() > LINE_LIMIT {
        return Ok(None);
    }
    parse_form(alloc, text)
}

/// What a line says, whatever its length.
#[tactic(auto, unfolding(crate::specs::Forms::form))]
fn parse_form(alloc: Global, text: &[u8]) -> Result<Option<Entry>, NoMem>
    ensures { IfOk result (λ entry. entry ≡ form text.now) }
{
    if is_word(text) {
        return Ok(Some(Entry::Other));
    }
    if let Some(rest) = behind(text, b"happened ") {
        return parse_happened(alloc, rest);
    }
    if let Some(rest) = behind(text, b"count ") {
        return Ok(parse_counts(rest));
    }
    parse_mark(alloc, text)
}

/// A happening, `N@P`.
#[tactic(auto, unfolding(crate::specs::Forms::happening_of))]
fn parse_happening(text: &[u8]) -> Option<Happening>
    ensures { result ≡ happening_of text.now }
{
    let (operation, text) = number_before(text, b'@')?;
    let position = parse_plain(text)?;
    Some(Happening {
        operation,
        position,
    })
}

/// The happenings that tokens spell. None where one spells none.
fn parse_tokens(alloc: Global, tokens: &[&[u8]]) -> Result<Option<HappeningList>, NoMem>
    ensures { IfOk result (λ found. found ≡ happenings_of_tokens (map (λ token. token.now) tokens.now)) }
{
    let mut found = Vec::new(alloc);
    for token in tokens {
        let Some(happening) = parse_happening(token) else {
            return Ok(None);
        };
        found.push(happening)?;
    }
    Ok(Some(HappeningList::from_vec(found)))
}

/// The happenings of a text.
#[tactic(auto, unfolding(crate::specs::Forms::happenings_of))]
fn parse_happenings(alloc: Global, text: &[u8]) -> Result<Option<HappeningList>, NoMem>
    ensures { IfOk result (λ found. found ≡ happenings_of text.now) }
{
    let tokens = split(alloc, text)?;
    parse_tokens(alloc, &tokens)
}

/// `G S N@P ..`, behind `happened `.
#[tactic(auto, unfolding(crate::specs::Forms::happened_of))]
fn parse_happened(alloc: Global, text: &[u8]) -> Result<Option<Entry>, NoMem>
    ensures { IfOk result (λ entry. entry ≡ happened_of text.now) }
{
    let Some((group, text)) = number_before(text, b' ') else {
        return Ok(None);
    };
    let Some((stripe, text)) = number_before(text, b' ') else {
        return Ok(None);
    };
    let Some(happenings) = parse_happenings(alloc, text)? else {
        return Ok(None);
    };
    Ok(Some(Entry::Happened(StripeLine {
        group,
        stripe,
        happenings,
    })))
}

/// The number behind these bytes, and what stands behind its space.
#[tactic(auto, unfolding(crate::specs::Forms::count_behind))]
fn parse_count<'a>(text: &'a [u8], front: &[u8]) -> Option<(u64, &'a [u8])>
    ensures { option_map number_shown result ≡ count_behind front.now text.now }
{
    let rest = behind(text, front)?;
    number_before(rest, b' ')
}

/// `lines L begun B answered A aborted X crashes C`, behind `count `.
#[tactic(auto, unfolding(crate::specs::Forms::counts_of))]
fn parse_counts(text: &[u8]) -> Option<Entry>
    ensures { result ≡ counts_of text.now }
{
    let (_, text) = parse_count(text, b"lines ")?;
    let (begun, text) = parse_count(text, b"begun ")?;
    let (answered, text) = parse_count(text, b"answered ")?;
    let (aborted, text) = parse_count(text, b"aborted ")?;
    let rest = behind(text, b"crashes ")?;
    let crashes = parse_plain(rest)?;
    Some(Entry::Counted(Counts {
        begun,
        answered,
        aborted,
        crashes,
    }))
}
