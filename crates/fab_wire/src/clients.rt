//! A client's invocation, and its answer.

ghost use Rattle.fields.specs.Parts.{Adds};
ghost use Rattle.fields.specs.Reading.{GivesOrNoMemory};
ghost use Rattle.fab_wire.specs.Clients.{client_codec, answer_codec};

use crate::values::take_op;
use fab_base::{Answer, Cause, NoMem, Refusal};
use fields::{Field, ReadFault, Reader, put_content, take_content, take_fields};
use messages::{ClientAnswer, ClientAsk};
use std::alloc::Global;

#[tactic(auto, using(fields::proofs::Writings::joined), unfolding(crate::specs::Clients::client_fields))]
pub fn put_client(out: &mut Vec<u8>, ask: &ClientAsk) -> Result<(), NoMem>
    requires { client_codec.Limits ask.now }
    ensures { Adds result out.old.items out.new.items (client_codec.parts ask.now) }
{
    // The number of an operation is its place in `ClientOp`.
    (ask.id, (ask.group, (ask.stripe, (ask.op as u8, ask.block)))).put(out)?;
    put_content(out, &ask.bytes)
}

#[tactic(auto, unfolding(crate::specs::Clients::client_fields))]
pub fn take_client(alloc: Global, from: &mut Reader<'_>) -> Result<ClientAsk, ReadFault>
    ensures { GivesOrNoMemory result from.new.rest.now (client_codec.read from.old.rest.now) }
{
    let (id, (group, stripe)) = from.take()?;
    Ok(ClientAsk {
        id,
        group,
        stripe,
        op: take_op(from)?,
        block: from.take()?,
        bytes: take_content(alloc, from)?,
    })
}

/// Adds the answer to a client's invocation: its status, and what goes with it.
#[tactic(auto, using(fields::proofs::Writings::joined))]
pub fn put_answer(out: &mut Vec<u8>, answer: &ClientAnswer) -> Result<(), NoMem>
    requires { answer_codec.Limits answer.now }
    ensures { Adds result out.old.items out.new.items (answer_codec.parts answer.now) }
{
    match answer {
        ClientAnswer::Ended(Answer::Data(bytes)) => {
            0u8.put(out)?;
            put_content(out, bytes)
        }
        ClientAnswer::Ended(Answer::Done) => 1u8.put(out),
        ClientAnswer::Ended(Answer::Aborted(cause)) => match *cause {
            Cause::Later { brick, stamp } => (2u8, (brick, stamp)).put(out),
            Cause::Gone { brick } => (3u8, brick).put(out),
            Cause::Full { brick, live } => (4u8, (brick, live)).put(out),
            Cause::Moved { brick, view } => (5u8, (brick, view)).put(out),
        },
        ClientAnswer::Refused(Refusal::NoStripe) => 16u8.put(out),
        ClientAnswer::Refused(Refusal::NoBlock) => 17u8.put(out),
        ClientAnswer::Refused(Refusal::Length) => 18u8.put(out),
        ClientAnswer::Refused(Refusal::Busy) => 19u8.put(out),
        ClientAnswer::Refused(Refusal::Spent) => 20u8.put(out),
        ClientAnswer::Refused(Refusal::Down | Refusal::NoQuorum) => unreachable!(),
    }
}

pub fn take_answer(alloc: Global, from: &mut Reader<'_>) -> Result<ClientAnswer, ReadFault>
    ensures { GivesOrNoMemory result from.new.rest.now (answer_codec.read from.old.rest.now) }
{
    let left = from.rest.len();
    let answer = match from.take()? {
        0u8 => Answer::Data(take_content(alloc, from)?),
        1 => Answer::Done,
        2 => Answer::Aborted(take_fields!(from; Cause::Later { brick, stamp })),
        3 => Answer::Aborted(take_fields!(from; Cause::Gone { brick })),
        4 => Answer::Aborted(take_fields!(from; Cause::Full { brick, live })),
        5 => Answer::Aborted(take_fields!(from; Cause::Moved { brick, view })),
        16 => return Ok(ClientAnswer::Refused(Refusal::NoStripe)),
        17 => return Ok(ClientAnswer::Refused(Refusal::NoBlock)),
        18 => return Ok(ClientAnswer::Refused(Refusal::Length)),
        19 => return Ok(ClientAnswer::Refused(Refusal::Busy)),
        20 => return Ok(ClientAnswer::Refused(Refusal::Spent)),
        _ => return Err(ReadFault::Malformed(left)),
    };
    Ok(ClientAnswer::Ended(answer))
}
