// What stands at the front of a line, or alone.
ghost use Rattle.std.specs.Prelude.{◌≡◌, ◌==◌, ◌<◌, IfOk, IfSome, length, map, option_map, option_copied};
ghost use Rattle.std.specs.List.{list_any, position, slice_split};
ghost use Rattle.std.specs.Char.{is_ascii_uppercase};
ghost use Rattle.transcript.specs.Tokens.{behind, cut, cut_shown, plain_number, is_plain, are_plain, lower_hex, number_before, number_shown};

use fab_base::{Bytes, NoMem};
use lines::{parse_hex, parse_number};
use std::alloc::{AllocError, Global};

/// What stands behind these bytes, where the text begins with them.
#[tactic(auto, unfolding(crate::specs::Tokens::behind))]
pub(crate) fn behind<'a>(text: &'a [u8], front: &[u8]) -> Option<&'a [u8]>
    ensures { option_copied result ≡ behind front.now text.now }
{
    text.strip_prefix(front)
}

/// What stands before the first byte of this value, and what behind it.
#[tactic(auto, unfolding(crate::specs::Tokens::cut))]
pub(crate) fn cut(text: &[u8], end: u8) -> Option<(&[u8], &[u8])>
    ensures { option_map cut_shown result ≡ cut end text.now }
{
    let at = place_of(text, end)?;
    let (front, _) = text.split_at(at);
    let (_, rest) = text.split_at(at + 1);
    Some((front, rest))
}

/// The place of the first byte of this value.
fn place_of(text: &[u8], wanted: u8) -> Option<usize>
    ensures place { result ≡ position (λ byte. byte == wanted) text.now }
    ensures within { IfSome result (λ at. at < length text.now) }
{
    text.iter().position(|byte| *byte == wanted)
}

/// The number that a token spells with no leading zero.
#[tactic(auto, unfolding(crate::specs::Tokens::plain_number))]
pub(crate) fn parse_plain(token: &[u8]) -> Option<u64>
    ensures { result ≡ plain_number token.now }
{
    if token.len() > 1 && token.starts_with(b"0") {
        return None;
    }
    parse_number(token)
}

/// Whether a token spells a number with no leading zero.
#[tactic(auto, unfolding(crate::specs::Tokens::is_plain))]
pub(crate) fn is_plain(token: &[u8]) -> bool
    ensures { result ≡ is_plain token.now }
{
    parse_plain(token).is_some()
}

/// Whether each token of a text is such a number.
#[tactic(auto, unfolding(crate::specs::Tokens::are_plain))]
pub(crate) fn are_plain(text: &[u8]) -> bool
    ensures { result ≡ are_plain text.now }
{
    for token in text.split(|byte| *byte == b' ') {
        if !is_plain(token) {
            return false;
        }
    }
    true
}

/// The number before the first byte of this value, and what stands behind that.
#[tactic(auto, unfolding(crate::specs::Tokens::number_before))]
pub(crate) fn number_before(text: &[u8], end: u8) -> Option<(u64, &[u8])>
    ensures { option_map number_shown result ≡ number_before end text.now }
{
    let (token, rest) = cut(text, end)?;
    Some((parse_plain(token)?, rest))
}

/// The bytes that a token spells in hex of lower case.
#[tactic(auto, unfolding(crate::specs::Tokens::lower_hex))]
pub(crate) fn parse_lower_hex(alloc: Global, token: &[u8]) -> Result<Option<Bytes>, NoMem>
    ensures { IfOk result (λ bytes. bytes ≡ lower_hex token.now) }
{
    if has_upper(token) {
        return Ok(None);
    }
    parse_hex(alloc, token)
}

/// Whether a token has a letter of upper case.
fn has_upper(token: &[u8]) -> bool
    ensures { result ≡ list_any is_ascii_uppercase token.now }
{
    token.iter().any(|byte| byte.is_ascii_uppercase())
}

/// The tokens of a text, with single spaces between them.
pub(crate) fn split(alloc: Global, text: &[u8]) -> Result<Vec<&[u8]>, AllocError>
    ensures { IfOk result (λ found. map (λ token. token.now) found.items ≡ slice_split (λ byte. byte == 32) text.now) }
{
    text.split(|byte| *byte == b' ').collect(alloc)
}
