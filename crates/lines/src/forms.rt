// The forms of a line.
ghost use Rattle.std.specs.Prelude.{◌≡◌, map, IfOk};
ghost use Rattle.lines.specs.Grammar.{line_of, line_of_tokens, form, write_all, read_all, write_block, read_block, invoke, call_number, fail, cut, fault, deliver, start, clock, one_brick, numbers, brick_list, calm, propose, sync, scrub, two_bricks, spare};

use crate::brick_lists::BrickList;
use crate::tokens::{parse_hex, parse_number, split};
use fab_base::{Bytes, NoMem};
use std::alloc::Global;

/// The most bytes of a line, not counting its line feed and the one carriage return before that.
pub const LINE_LIMIT: usize = 70_000;

/// The most bricks that a line names at its end.
const MOST_BRICKS: usize = 64;

/// What an operation is to do with its stripe. A data block goes by its number, any below 2^64: whether the stripe has such a block is for the
/// one who runs the line to find.
#[derive(Drop)]
pub enum Access {
    /// To read this data block.
    ReadBlock(u64),
    /// To write this data block: these bytes.
    WriteBlock(u64, Bytes),
    /// To read all data blocks.
    ReadStripe,
    /// To write all data blocks: these bytes.
    WriteStripe(Bytes),
}

/// A fault of one of the calls of `write_at` and `sync` that an event makes of a brick's disk. Calls are counted from 1.
#[derive(Clone, Copy)]
pub enum Fault {
    /// The brick stops inside that call: `cut C pick P`.
    Cut {
        /// The number of the call.
        call: u64,
        /// Which of the images that a crash may leave its disk is to hold.
        pick: u64,
    },
    /// That call does nothing, and the brick halts: `fail C`.
    Fail {
        /// The number of the call.
        call: u64,
    },
}

/// What a line of a schedule says. Its numbers are any below 2^64: whether there is such a brick, group, stripe or
/// message is for the one who runs the line to find.
#[derive(Drop)]
pub enum Line {
    /// Nothing: the line is blank, or its first token begins with `#`.
    Nothing,
    /// An operation on a stripe is to begin: `write B G S J HEX` or `read B G S J`, of data block J, or `writeall B G S HEX` or `readall B G S`.
    Invoke {
        /// The brick that is asked.
        brick: u64,
        /// The group.
        group: u64,
        /// The stripe within the group.
        stripe: u64,
        /// What to do with it.
        access: Access,
    },
    /// A message is to be handled by its receiver: `deliver K`.
    Deliver {
        /// The number of the message, in the order of sending.
        message: u64,
        /// What is to befall a call of that.
        fault: Option<Fault>,
    },
    /// A brick's clock is to read another time from now on: `clock B V`.
    SetClock {
        /// The brick.
        brick: u64,
        /// The time.
        time: u64,
    },
    /// A brick's clock ticks: `tick B`.
    Tick {
        /// The brick.
        brick: u64,
    },
    /// A brick stops: `crash B`.
    Crash {
        /// The brick.
        brick: u64,
    },
    /// A brick that stopped starts again: `start B`.
    Start {
        /// The brick.
        brick: u64,
        /// What is to befall a call of that.
        fault: Option<Fault>,
    },
    /// A brick is to propose members of the next view of a group: `view B G M ..`, with 1 to 64 members.
    Propose {
        /// The brick that is asked.
        brick: u64,
        /// The group.
        group: u64,
        /// The members.
        members: BrickList,
    },
    /// A brick is to synchronise the view that it has learnt of a group: `sync B G`.
    Sync {
        /// The brick that is asked.
        brick: u64,
        /// The group.
        group: u64,
    },
    /// A brick is to scrub a stripe, so that some members keep one version: `scrub B G S M ..`, with 1 to 64 members.
    Scrub {
        /// The brick that is asked.
        brick: u64,
        /// The group.
        group: u64,
        /// The stripe within the group.
        stripe: u64,
        /// The members.
        members: BrickList,
    },
    /// A brick suspects another from now on: `suspect B C`.
    Suspect {
        /// The brick that suspects.
        by: u64,
        /// The one that it suspects.
        brick: u64,
    },
    /// A brick no longer suspects another: `trust B C`.
    Trust {
        /// The brick that suspected.
        by: u64,
        /// The one that it trusts.
        brick: u64,
    },
    /// A brick is to propose its members of a group, with spares in place of those that it suspects: `spare B G`.
    Spare {
        /// The brick that is asked.
        brick: u64,
        /// The group.
        group: u64,
    },
    /// An operation is to run alone among some bricks, until it ends: `calm N B ..`, with 1 to 64 bricks.
    Calm {
        /// The number of the operation, in the order of beginning.
        operation: u64,
        /// The bricks.
        bricks: BrickList,
    },
}

/// What a line says. The bytes are those of the line without its line feed and the one carriage return before that.
///
/// Tokens are separated by spaces, of any number; spaces at the ends are dropped, and any other byte is part of a
/// token. A number is 1 to 20 decimal digits with a value below 2^64, and HEX is an even number of at least 2 hex
/// digits of either case. `None` is a bad line: one that is not of these forms, or has more than [`LINE_LIMIT`]
/// bytes.
pub fn parse(alloc: Global, content: &[u8]) -> Result<Option<Line>, NoMem>
    ensures { IfOk result (λ line. line ≡ line_of content.now) }
{
    if content.len() > LINE_LIMIT {
        return Ok(None);
    }
    let tokens = split(alloc, content)?;
    parse_tokens(alloc, &tokens)
}

/// What the tokens of a line say.
fn parse_tokens(alloc: Global, tokens: &[&[u8]]) -> Result<Option<Line>, NoMem>
    ensures { IfOk result (λ line. line ≡ line_of_tokens (map (λ token. token.now) tokens.now)) }
{
    let [word, arguments @ ..] = tokens else {
        return Ok(Some(Line::Nothing));
    };
    if word.starts_with(b"#") {
        return Ok(Some(Line::Nothing));
    }
    parse_form(alloc, word, arguments)
}

/// What a line says whose first word and the words behind it are these.
#[tactic(auto, unfolding(crate::specs::Grammar::form))]
fn parse_form(alloc: Global, word: &[u8], arguments: &[&[u8]]) -> Result<Option<Line>, NoMem>
    ensures { IfOk result (λ line. line ≡ form word.now (map (λ token. token.now) arguments.now)) }
{
    if word == b"write".as_slice() {
        parse_write_block(alloc, arguments)
    } else if word == b"read".as_slice() {
        Ok(parse_read_block(arguments))
    } else if word == b"writeall".as_slice() {
        parse_write_all(alloc, arguments)
    } else if word == b"readall".as_slice() {
        Ok(parse_read_all(arguments))
    } else if word == b"deliver".as_slice() {
        Ok(parse_deliver(arguments))
    } else if word == b"clock".as_slice() {
        Ok(parse_clock(arguments))
    } else if word == b"tick".as_slice() {
        Ok(parse_brick(arguments).map(|brick| Line::Tick { brick }))
    } else if word == b"crash".as_slice() {
        Ok(parse_brick(arguments).map(|brick| Line::Crash { brick }))
    } else if word == b"start".as_slice() {
        Ok(parse_start(arguments))
    } else if word == b"view".as_slice() {
        parse_propose(alloc, arguments)
    } else if word == b"sync".as_slice() {
        Ok(parse_sync(arguments))
    } else if word == b"scrub".as_slice() {
        parse_scrub(alloc, arguments)
    } else if word == b"suspect".as_slice() {
        Ok(parse_two_bricks(arguments).map(|bricks| Line::Suspect {
            by: bricks.0,
            brick: bricks.1,
        }))
    } else if word == b"trust".as_slice() {
        Ok(parse_two_bricks(arguments).map(|bricks| Line::Trust {
            by: bricks.0,
            brick: bricks.1,
        }))
    } else if word == b"spare".as_slice() {
        Ok(parse_spare(arguments))
    } else if word == b"calm".as_slice() {
        parse_calm(alloc, arguments)
    } else {
        Ok(None)
    }
}

/// `write B G S J HEX`, behind its first word.
fn parse_write_block(alloc: Global, arguments: &[&[u8]]) -> Result<Option<Line>, NoMem>
    ensures { IfOk result (λ line. line ≡ write_block (map (λ token. token.now) arguments.now)) }
{
    if arguments.len() != 5 {
        return Ok(None);
    }
    let Some(block) = parse_number(arguments[3]) else {
        return Ok(None);
    };
    let Some(bytes) = parse_hex(alloc, arguments[4])? else {
        return Ok(None);
    };
    Ok(parse_invoke(
        arguments[0],
        arguments[1],
        arguments[2],
        Access::WriteBlock(block, bytes),
    ))
}

/// `read B G S J`, behind its first word.
fn parse_read_block(arguments: &[&[u8]]) -> Option<Line>
    ensures { result ≡ read_block (map (λ token. token.now) arguments.now) }
{
    if arguments.len() != 4 {
        return None;
    }
    let block = parse_number(arguments[3])?;
    parse_invoke(
        arguments[0],
        arguments[1],
        arguments[2],
        Access::ReadBlock(block),
    )
}

/// `writeall B G S HEX`, behind its first word.
fn parse_write_all(alloc: Global, arguments: &[&[u8]]) -> Result<Option<Line>, NoMem>
    ensures { IfOk result (λ line. line ≡ write_all (map (λ token. token.now) arguments.now)) }
{
    if arguments.len() != 4 {
        return Ok(None);
    }
    let Some(bytes) = parse_hex(alloc, arguments[3])? else {
        return Ok(None);
    };
    Ok(parse_invoke(
        arguments[0],
        arguments[1],
        arguments[2],
        Access::WriteStripe(bytes),
    ))
}

/// `readall B G S`, behind its first word.
fn parse_read_all(arguments: &[&[u8]]) -> Option<Line>
    ensures { result ≡ read_all (map (λ token. token.now) arguments.now) }
{
    if arguments.len() != 3 {
        return None;
    }
    parse_invoke(arguments[0], arguments[1], arguments[2], Access::ReadStripe)
}

/// An operation on the stripe that the tokens `B G S` name.
#[tactic(auto, unfolding(crate::specs::Grammar::invoke))]
fn parse_invoke(brick: &[u8], group: &[u8], stripe: &[u8], access: Access) -> Option<Line>
    ensures { result ≡ invoke brick.now group.now stripe.now access }
{
    Some(Line::Invoke {
        brick: parse_number(brick)?,
        group: parse_number(group)?,
        stripe: parse_number(stripe)?,
        access,
    })
}

/// `deliver K`, behind its first word, with what is to befall a call.
fn parse_deliver(arguments: &[&[u8]]) -> Option<Line>
    ensures { result ≡ deliver (map (λ token. token.now) arguments.now) }
{
    let [message, behind @ ..] = arguments else {
        return None;
    };
    Some(Line::Deliver {
        message: parse_number(message)?,
        fault: parse_fault(behind)?,
    })
}

/// `start B`, behind its first word, with what is to befall a call.
fn parse_start(arguments: &[&[u8]]) -> Option<Line>
    ensures { result ≡ start (map (λ token. token.now) arguments.now) }
{
    let [brick, behind @ ..] = arguments else {
        return None;
    };
    Some(Line::Start {
        brick: parse_number(brick)?,
        fault: parse_fault(behind)?,
    })
}

/// What is to befall a call: nothing where no word is left.
fn parse_fault(words: &[&[u8]]) -> Option<Option<Fault>>
    ensures { result ≡ fault (map (λ token. token.now) words.now) }
{
    if words.len() == 2 {
        return Some(Some(parse_fail(words[0], words[1])?));
    }
    if words.len() == 4 {
        return Some(Some(parse_cut(words[0], words[1], words[2], words[3])?));
    }
    if words.len() == 0 { Some(None) } else { None }
}

/// `fail C`.
#[tactic(auto, unfolding(crate::specs::Grammar::fail))]
fn parse_fail(word: &[u8], call: &[u8]) -> Option<Fault>
    ensures { result ≡ fail word.now call.now }
{
    if word == b"fail".as_slice() {
        Some(Fault::Fail {
            call: parse_call(call)?,
        })
    } else {
        None
    }
}

/// `cut C pick P`.
#[tactic(auto, unfolding(crate::specs::Grammar::cut))]
fn parse_cut(word: &[u8], call: &[u8], second: &[u8], pick: &[u8]) -> Option<Fault>
    ensures { result ≡ cut word.now call.now second.now pick.now }
{
    if word == b"cut".as_slice() {
        if second == b"pick".as_slice() {
            Some(Fault::Cut {
                call: parse_call(call)?,
                pick: parse_number(pick)?,
            })
        } else {
            None
        }
    } else {
        None
    }
}

/// The number of a call, from 1.
#[tactic(auto, unfolding(crate::specs::Grammar::call_number))]
fn parse_call(token: &[u8]) -> Option<u64>
    ensures { result ≡ call_number token.now }
{
    let call = parse_number(token)?;
    if call == 0 {
        return None;
    }
    Some(call)
}

/// `clock B V`, behind its first word.
fn parse_clock(arguments: &[&[u8]]) -> Option<Line>
    ensures { result ≡ clock (map (λ token. token.now) arguments.now) }
{
    if arguments.len() != 2 {
        return None;
    }
    Some(Line::SetClock {
        brick: parse_number(arguments[0])?,
        time: parse_number(arguments[1])?,
    })
}

/// The brick of `tick B` and `crash B`, behind the first word.
fn parse_brick(arguments: &[&[u8]]) -> Option<u64>
    ensures { result ≡ one_brick (map (λ token. token.now) arguments.now) }
{
    if arguments.len() != 1 {
        return None;
    }
    parse_number(arguments[0])
}

/// `calm N B ..`, behind its first word: 1 to 64 bricks.
fn parse_calm(alloc: Global, arguments: &[&[u8]]) -> Result<Option<Line>, NoMem>
    ensures { IfOk result (λ line. line ≡ calm (map (λ token. token.now) arguments.now)) }
{
    let [operation, behind @ ..] = arguments else {
        return Ok(None);
    };
    let Some(operation) = parse_number(operation) else {
        return Ok(None);
    };
    let Some(bricks) = parse_bricks(alloc, behind)? else {
        return Ok(None);
    };
    Ok(Some(Line::Calm { operation, bricks }))
}

/// `view B G M ..`, behind its first word: 1 to 64 members.
fn parse_propose(alloc: Global, arguments: &[&[u8]]) -> Result<Option<Line>, NoMem>
    ensures { IfOk result (λ line. line ≡ propose (map (λ token. token.now) arguments.now)) }
{
    let [brick, group, behind @ ..] = arguments else {
        return Ok(None);
    };
    let Some(brick) = parse_number(brick) else {
        return Ok(None);
    };
    let Some(group) = parse_number(group) else {
        return Ok(None);
    };
    let Some(members) = parse_bricks(alloc, behind)? else {
        return Ok(None);
    };
    Ok(Some(Line::Propose {
        brick,
        group,
        members,
    }))
}

/// `sync B G`, behind its first word.
fn parse_sync(arguments: &[&[u8]]) -> Option<Line>
    ensures { result ≡ sync (map (λ token. token.now) arguments.now) }
{
    if arguments.len() != 2 {
        return None;
    }
    Some(Line::Sync {
        brick: parse_number(arguments[0])?,
        group: parse_number(arguments[1])?,
    })
}

/// `scrub B G S M ..`, behind its first word: 1 to 64 members.
fn parse_scrub(alloc: Global, arguments: &[&[u8]]) -> Result<Option<Line>, NoMem>
    ensures { IfOk result (λ line. line ≡ scrub (map (λ token. token.now) arguments.now)) }
{
    let [brick, group, stripe, behind @ ..] = arguments else {
        return Ok(None);
    };
    let Some(brick) = parse_number(brick) else {
        return Ok(None);
    };
    let Some(group) = parse_number(group) else {
        return Ok(None);
    };
    let Some(stripe) = parse_number(stripe) else {
        return Ok(None);
    };
    let Some(members) = parse_bricks(alloc, behind)? else {
        return Ok(None);
    };
    Ok(Some(Line::Scrub {
        brick,
        group,
        stripe,
        members,
    }))
}

/// The two bricks of `suspect B C` and `trust B C`, behind the first word.
fn parse_two_bricks(arguments: &[&[u8]]) -> Option<(u64, u64)>
    ensures { result ≡ two_bricks (map (λ token. token.now) arguments.now) }
{
    if arguments.len() != 2 {
        return None;
    }
    Some((parse_number(arguments[0])?, parse_number(arguments[1])?))
}

/// `spare B G`, behind its first word.
fn parse_spare(arguments: &[&[u8]]) -> Option<Line>
    ensures { result ≡ spare (map (λ token. token.now) arguments.now) }
{
    if arguments.len() != 2 {
        return None;
    }
    Some(Line::Spare {
        brick: parse_number(arguments[0])?,
        group: parse_number(arguments[1])?,
    })
}

/// The numbers of 1 to 64 bricks. None where there are fewer or more tokens, or one spells no number.
fn parse_bricks(alloc: Global, tokens: &[&[u8]]) -> Result<Option<BrickList>, NoMem>
    ensures { IfOk result (λ found. found ≡ brick_list (map (λ token. token.now) tokens.now)) }
{
    if tokens.len() == 0 || tokens.len() > MOST_BRICKS {
        return Ok(None);
    }
    parse_numbers(alloc, tokens)
}

/// The numbers that tokens spell. None where one spells none.
fn parse_numbers(alloc: Global, tokens: &[&[u8]]) -> Result<Option<BrickList>, NoMem>
    ensures { IfOk result (λ found. found ≡ numbers (map (λ token. token.now) tokens.now)) }
{
    let mut found = Vec::new(alloc);
    for token in tokens {
        let Some(number) = parse_number(token) else {
            return Ok(None);
        };
        found.push(number)?;
    }
    Ok(Some(BrickList::from_vec(found)))
}
