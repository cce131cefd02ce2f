//! The tokens of a line, and what a token alone can say.

ghost use Rattle.std.specs.Prelude.{◌≡◌, ◌<◌, ◌++◌, length, map, IfOk, OnOk, MatchOption};
ghost use Rattle.std.specs.Char.{is_ascii_digit};
ghost use Rattle.std.specs.List.{list_all};
ghost use Rattle.lines.specs.Splits.{one_token};
ghost use Rattle.lines.specs.Tokens.{tokens, number, bytes_of_hex};

use fab_base::{Bytes, NoMem};
use hex::FromHexError;
use memchr::memchr;
use std::alloc::{AllocError, Global};

/// The most digits that a number may have.
const MOST_DIGITS: usize = 20;

/// The tokens of a line, in order.
pub fn split(alloc: Global, content: &[u8]) -> Result<Vec<&[u8]>, AllocError>
    ensures { IfOk result (λ found. map (λ token. token.now) found.items ≡ tokens content.now) }
{
    let mut found = Vec::new(alloc);
    let mut rest = content;
    loop {
        let (piece, more) = cut(rest);
        add(&mut found, piece)?;
        match more {
            Some(more) => rest = more,
            None => return Ok(found),
        }
    }
}

/// What stands in front of the first space, and what behind it, where there is one.
fn cut(content: &[u8]) -> (&[u8], Option<&[u8]>)
    ensures { MatchOption result.1 (tokens content.now ≡ one_token result.0.now)
        (λ more. (tokens content.now ≡ one_token result.0.now ++ tokens more.now) × (length more.now < length content.now)) }
{
    match memchr(b' ', content) {
        Some(end) => (&content[..end], Some(&content[end + 1..])),
        None => (content, None),
    }
}

/// Adds what stands between two spaces to the tokens, if that is anything.
fn add<'c>(found: &mut Vec<&'c [u8]>, piece: &'c [u8]) -> Result<(), AllocError>
    ensures { OnOk result (map (λ token. token.now) found.new.items ≡ map (λ token. token.now) found.old.items ++ one_token piece.now) }
{
    if !piece.is_empty() {
        found.push(piece)?;
    }
    Ok(())
}

/// The number that a token spells: 1 to 20 decimal digits with a value below 2^64.
pub fn parse_number(token: &[u8]) -> Option<u64>
    ensures { result ≡ number token.now }
{
    if token.len() > MOST_DIGITS || !is_digits(token) {
        return None;
    }
    match str::from_utf8(token) {
        Ok(digits) => digits.parse().ok(),
        Err(_) => None,
    }
}

/// Whether a token has decimal digits alone.
fn is_digits(token: &[u8]) -> bool
    ensures { result ≡ list_all is_ascii_digit token.now }
{
    token.iter().all(|byte| byte.is_ascii_digit())
}

/// The bytes that a token spells in hex of either case, at least one. `NoMemory` where there was no memory for them.
pub fn parse_hex(alloc: Global, token: &[u8]) -> Result<Option<Bytes>, NoMem>
    ensures { IfOk result (λ bytes. bytes ≡ bytes_of_hex token.now) }
{
    if token.len() < 2 {
        return Ok(None);
    }
    match hex::decode(alloc, token) {
        Ok(bytes) => Ok(Some(Bytes::from_vec(bytes))),
        Err(error) => match error {
            FromHexError::OutOfMemory => Err(NoMem::NoMemory),
            _ => Ok(None),
        },
    }
}
