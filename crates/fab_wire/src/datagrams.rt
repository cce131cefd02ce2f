//! Messages as the bytes of a datagram, and back.

ghost use Rattle.std.specs.Prelude.{◌≡◌, ◌<◌, ◌+◌, ◌↔◌, ◌∷◌, List, ℕ, length, IfOk, IfErr, IfSome, IsNone};
ghost use Rattle.messages.specs.declared.packets.Message.{Message};
ghost use Rattle.fields.specs.Kinds.{kinds_at};
ghost use Rattle.fields.specs.Parts.{Adds, exactly};
ghost use Rattle.fields.specs.Reading.{Gives, GivesOrNoMemory, GivesAll, as_at, then_at, exactly_at};
ghost use Rattle.fields.specs.Values.{ballot_codec, stamp_codec};
ghost use Rattle.fab_wire.specs.Values.{call_codec};
ghost use Rattle.fab_wire.specs.Spelling.{HasSpelling, fields_of, message_codec, datagram_of, kind_number, kind_value, message_kind, body_parts, body_at, Spells, MalformedIs, IsAt};

use crate::clients::{put_answer, put_client, take_answer, take_client};
use crate::phases::{put_reply, put_request, take_reply, take_request};
use crate::values::{CallField, take_call};
use fab_base::{Ballot, Boxed, Bytes, NoMem, Stamp};
use fields::{Field, ReadFault, Reader, take_fields};
use messages::{Call, Message};
use std::alloc::Global;
use thiserror::Error;

/// The four bytes FABW that a message begins with.
const FABW: u32 = 0x4641_4257;

/// The version of the format.
const VERSION: u8 = 1;

/// Why a datagram was not decoded.
#[derive(Clone, Copy, Debug, PartialEq, Eq, Error)]
pub enum WireFault {
    /// The bytes spell no message.
    #[error("malformed at {at}")]
    Malformed {
        /// The place of the first byte of the first field that is cut short or has a value that is not allowed, or of the
        /// first byte left over.
        at: usize,
    },
    /// Memory ran out.
    #[error("no memory")]
    NoMemory,
}

/// The one spelling of a message. Asks that it has one: a list of members has at least one, a block at most 4,096 bytes, a
/// client's bytes are at most 32,768, a seat is below 32, a data block below 16, and neither
/// `Refusal::Down` nor `Refusal::NoQuorum` is sent.
#[tactic(auto, using(fields::proofs::Writings::joined), unfolding(crate::specs::Spelling::message_fields))]
pub fn encode(alloc: Global, message: &Message) -> Result<Bytes, NoMem>
    requires { HasSpelling message.now }
    ensures spelling { IfOk result (λ made. Spells made message.now) }
    // No message has two spellings.
    ensures one { IfOk result (λ made. (bytes : List ℕ) → Spells bytes message.now → bytes ≡ made) }
{
    let mut out = Vec::new(alloc);
    (FABW, VERSION).put(&mut out)?;
    put_body(&mut out, message)?;
    Ok(Bytes::from_vec(out))
}

/// The message that the bytes spell, all of them.
///
/// `Malformed` exactly where they spell none, with the place of the first byte of the first field from the left that is cut
/// short or has a value that is not allowed, or of the first byte left over. The four bytes FABW are one field; a count or
/// length and what it counts are fields of their own, and so is each number of a call, a stamp or a ballot.
pub fn decode(alloc: Global, bytes: &[u8]) -> Result<Message, WireFault>
    ensures spelling { IfOk result (λ message. Spells bytes.now message) }
    ensures malformed { IfErr result (MalformedIs bytes.now) }
    // No bytes spell two messages.
    ensures one { (a b : Message) → Spells bytes.now a → Spells bytes.now b → a ≡ b }
    // What has a spelling may be encoded.
    ensures limits { (message : Message) → Spells bytes.now message → HasSpelling message }
{
    match take_datagram(alloc, bytes) {
        Ok(message) => Ok(message),
        Err(ReadFault::Malformed(left)) => Err(WireFault::Malformed {
            at: bytes.len() - left,
        }),
        Err(ReadFault::NoMemory) => Err(WireFault::NoMemory),
    }
}

/// The call at this place. None exactly where it does not end within the bytes.
pub fn read_call(bytes: &[u8], at: usize) -> Option<Call>
    ensures { IfSome result (λ call. IsAt bytes.now at (call_codec.parts call)) × (IsNone result ↔ (length bytes.now < at + 28)) }
{
    let rest = bytes.get(at..)?;
    take_call(&mut Reader { rest }).ok()
}

/// The stamp at this place. None exactly where it does not end within the bytes.
pub fn read_stamp(bytes: &[u8], at: usize) -> Option<Stamp>
    ensures { IfSome result (λ stamp. IsAt bytes.now at (stamp_codec.parts stamp)) × (IsNone result ↔ (length bytes.now < at + 18)) }
{
    let rest = bytes.get(at..)?;
    Stamp::take(&mut Reader { rest }).ok()
}

/// The ballot at this place. None exactly where it does not end within the bytes.
pub fn read_ballot(bytes: &[u8], at: usize) -> Option<Ballot>
    ensures { IfSome result (λ ballot. IsAt bytes.now at (ballot_codec.parts ballot)) × (IsNone result ↔ (length bytes.now < at + 10)) }
{
    let rest = bytes.get(at..)?;
    Ballot::take(&mut Reader { rest }).ok()
}

/// Adds the number of the message's kind, and its fields.
#[tactic(auto, using(fields::proofs::Writings::joined))]
fn put_body(out: &mut Vec<u8>, message: &Message) -> Result<(), NoMem>
    requires { HasSpelling message.now }
    ensures { Adds result out.old.items out.new.items (exactly (kind_number (message_kind message.now)) ∷ body_parts message.now) }
{
    match message {
        Message::Request(call, request) => { put_request(out, CallField(*call), request) }
        Message::Reply(call, reply) => { put_reply(out, CallField(*call), reply) }
        Message::Learn { group, view } => {
            (10u8, *group).put(out)?;
            view.get().put(out)
        }
        Message::Synced { group, view } => (11u8, (*group, *view)).put(out),
        Message::Client(ask) => {
            64u8.put(out)?;
            put_client(out, ask)
        }
        Message::ClientReply { id, answer } => {
            (65u8, *id).put(out)?;
            put_answer(out, answer)
        }
    }
}

/// The message that is all of the bytes.
#[tactic(auto, unfolding(crate::specs::Spelling::datagram_of, crate::specs::Spelling::message_fields))]
fn take_datagram(alloc: Global, bytes: &[u8]) -> Result<Message, ReadFault>
    ensures { GivesAll result (datagram_of bytes.now) }
{
    let mut from = Reader { rest: bytes };
    if from.take::<u32>()? != FABW {
        return Err(ReadFault::Malformed(bytes.len()));
    }
    let left = from.rest.len();
    if from.take::<u8>()? != VERSION {
        return Err(ReadFault::Malformed(left));
    }
    let message = take_body(alloc, &mut from)?;
    if from.rest.is_empty() {
        Ok(message)
    } else {
        Err(ReadFault::Malformed(from.rest.len()))
    }
}

fn take_body(alloc: Global, from: &mut Reader<'_>) -> Result<Message, ReadFault>
    ensures { GivesOrNoMemory result from.new.rest.now (kinds_at kind_value body_at from.old.rest.now) }
{
    let left = from.rest.len();
    let number = from.take()?;
    Ok(match number {
        1..=9 => { Message::Request(take_call(from)?, take_request(alloc, from, number)?) }
        32..=45 => Message::Reply(take_call(from)?, take_reply(alloc, from, number)?),
        10 => {
            let (group, view) = from.take()?;
            Message::Learn {
                group,
                view: Boxed::new(alloc, view)?,
            }
        }
        11 => take_fields!(from; Message::Synced { group, view }),
        64 => Message::Client(take_client(alloc, from)?),
        65 => Message::ClientReply {
            id: from.take()?,
            answer: take_answer(alloc, from)?,
        },
        _ => return Err(ReadFault::Malformed(left)),
    })
}
