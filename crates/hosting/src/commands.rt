//! The commands of a client, a line each.

ghost use Rattle.std.specs.Prelude.{◌≡◌, map, IfOk};
ghost use Rattle.hosting.specs.Commands.{access_of, form, line_of_tokens, line_of};

use fab_base::{Bytes, NoMem};
use lines::{LINE_LIMIT, parse_hex, parse_number, split};
use std::alloc::Global;

/// What is to be done with bytes of a volume.
#[derive(Drop)]
pub enum Access {
    /// So many are to be read.
    Read(u64),
    /// These are to be written.
    Write(Bytes),
}

/// A command: a run of bytes of a volume is to be read or written, by the operations of one brick. Its numbers are any below 2^64, and its
/// volume has any name: whether there are such a brick, volume and bytes is for the one who runs it to find.
#[derive(Drop)]
pub struct Command {
    /// The brick that is asked.
    pub brick: u64,
    /// The name of the volume.
    pub volume: Bytes,
    /// The number of the first byte.
    pub byte: u64,
    /// What is done.
    pub access: Access,
}

/// What a line says.
#[derive(Drop)]
pub enum Line {
    /// Nothing: the line is blank, or its first token begins with `#`.
    Nothing,
    /// A command is to be run.
    Run(Command),
}

/// What a line says: `read B VOLUME BYTE LENGTH` or `write B VOLUME BYTE HEX`. The bytes are those of the line without its line feed and
/// the one carriage return before that.
///
/// Tokens are separated by spaces, of any number; spaces at the ends are dropped, and any other byte is part of a token. A number is 1 to
/// 20 decimal digits with a value below 2^64, and HEX is an even number of at least 2 hex digits of either case. `None` is a bad line: one
/// that is not of these forms, or has more than 70,000 bytes.
pub fn parse(alloc: Global, content: &[u8]) -> Result<Option<Line>, NoMem>
    ensures { IfOk result (λ line. line ≡ line_of content.now) }
{
    if content.len() > LINE_LIMIT {
        return Ok(None);
    }
    let tokens = split(alloc, content)?;
    parse_tokens(alloc, &tokens)
}

/// What the tokens of a line say.
fn parse_tokens(alloc: Global, tokens: &[&[u8]]) -> Result<Option<Line>, NoMem>
    ensures { IfOk result (λ line. line ≡ line_of_tokens (map (λ token. token.now) tokens.now)) }
{
    let [word, arguments @ ..] = tokens else {
        return Ok(Some(Line::Nothing));
    };
    if word.starts_with(b"#") {
        return Ok(Some(Line::Nothing));
    }
    parse_form(alloc, word, arguments)
}

/// What a line says whose first word and the words behind it are these.
fn parse_form(alloc: Global, word: &[u8], arguments: &[&[u8]]) -> Result<Option<Line>, NoMem>
    ensures { IfOk result (λ line. line ≡ form word.now (map (λ token. token.now) arguments.now)) }
{
    if arguments.len() != 4 {
        return Ok(None);
    }
    let Some(access) = parse_access(alloc, word, arguments[3])? else {
        return Ok(None);
    };
    let Some(brick) = parse_number(arguments[0]) else {
        return Ok(None);
    };
    let Some(byte) = parse_number(arguments[2]) else {
        return Ok(None);
    };
    let volume = Bytes::from_slice(alloc, arguments[1])?;
    Ok(Some(Line::Run(Command {
        brick,
        volume,
        byte,
        access,
    })))
}

/// What is done: `read`, with LENGTH, or `write`, with HEX.
#[tactic(auto, unfolding(crate::specs::Commands::access_of))]
fn parse_access(alloc: Global, word: &[u8], last: &[u8]) -> Result<Option<Access>, NoMem>
    ensures { IfOk result (λ access. access ≡ access_of word.now last.now) }
{
    if word == b"read".as_slice() {
        Ok(parse_number(last).map(Access::Read))
    } else if word == b"write".as_slice() {
        Ok(parse_hex(alloc, last)?.map(Access::Write))
    } else {
        Ok(None)
    }
}
