//! Requests and replies: the numbers of their kinds, and their fields.
//!
//! A kind's number stands beside the kind in the format, which the contracts cite, and in an arm here. An arm with another
//! number is refused.

ghost use Rattle.std.specs.Prelude.{◌∷◌, ◌++◌};
ghost use Rattle.fields.specs.Parts.{Adds, exactly};
ghost use Rattle.fields.specs.Reading.{GivesOrNoMemory};
ghost use Rattle.fields.specs.Kinds.{kind_of, parts_of, LimitsOf, read_of};
ghost use Rattle.fab_wire.specs.Requests.{request_number, request_of, request_row, request_view, change_codec};
ghost use Rattle.fab_wire.specs.Replies.{reply_number, reply_of, reply_row, reply_view};
ghost use Rattle.fab_wire.specs.Values.{call_codec};

use crate::values::{
    CallField, put_look, put_version, put_want, take_data_block, take_look, take_version, take_want,
};
use fab_base::{Ballot, Boxed, Bytes, Members, NoMem, Stamp, ViewNo};
use fields::{Field, ReadFault, Reader, put_block, take_block, take_fields};
use messages::{Choice, Lineage, Reply, Request};
use std::alloc::Global;

/// Adds a request: the number of its kind, its call and its fields.
#[tactic(auto, using(fields::proofs::Writings::joined))]
pub fn put_request(out: &mut Vec<u8>, call: CallField, request: &Request) -> Result<(), NoMem>
    requires { LimitsOf (request_view request.now) }
    ensures { Adds result out.old.items out.new.items (exactly (request_number (kind_of (request_view request.now))) ∷ (call_codec.parts call.0 ++ parts_of (request_view request.now))) }
{
    match request {
        Request::Read { want } => {
            (1u8, call).put(out)?;
            put_want(out, *want)
        }
        Request::Order { stamp } => (2u8, (call, *stamp)).put(out),
        Request::OrderRead { stamp, look, want } => {
            (3u8, (call, *stamp)).put(out)?;
            put_look(out, *look)?;
            put_want(out, *want)
        }
        Request::Write { stamp, block } => {
            (4u8, (call, *stamp)).put(out)?;
            put_block(out, block)
        }
        Request::Modify {
            stamp,
            base,
            data_block,
            delta,
        } => {
            (5u8, (call, *stamp)).put(out)?;
            put_change(out, *base, *data_block, delta)
        }
        Request::Collect { stamp } => (6u8, (call, *stamp)).put(out),
        Request::OldRead { bound } => (7u8, (call, *bound)).put(out),
        Request::Prepare { ballot } => (8u8, (call, *ballot)).put(out),
        Request::Accept { ballot, members } => {
            (9u8, (call, *ballot)).put(out)?;
            members.put(out)
        }
    }
}

/// Adds the version that is changed, and by what.
#[tactic(auto, using(fields::proofs::Writings::joined))]
fn put_change(out: &mut Vec<u8>, base: Stamp, data_block: u8, delta: &Bytes) -> Result<(), NoMem>
    requires { change_codec.Limits (base, (data_block, delta.now)) }
    ensures { Adds result out.old.items out.new.items (change_codec.parts (base, (data_block, delta.now))) }
{
    base.put(out)?;
    data_block.put(out)?;
    put_block(out, delta)
}

/// Reads the fields of a request, by the number of its kind.
pub fn take_request(alloc: Global, from: &mut Reader<'_>, number: u8) -> Result<Request, ReadFault>
    ensures { GivesOrNoMemory result from.new.rest.now (read_of (request_row (request_of number)) from.old.rest.now) }
{
    Ok(match number {
        1 => Request::Read {
            want: take_want(from)?,
        },
        2 => take_fields!(from; Request::Order { stamp }),
        3 => Request::OrderRead {
            stamp: from.take()?,
            look: take_look(from)?,
            want: take_want(from)?,
        },
        4 => Request::Write {
            stamp: from.take()?,
            block: take_block(alloc, from)?,
        },
        5 => {
            let (stamp, base) = from.take()?;
            Request::Modify {
                stamp,
                base,
                data_block: take_data_block(from)?,
                delta: take_block(alloc, from)?,
            }
        }
        6 => take_fields!(from; Request::Collect { stamp }),
        7 => take_fields!(from; Request::OldRead { bound }),
        8 => take_fields!(from; Request::Prepare { ballot }),
        // The last kind of requests.
        _ => take_fields!(from; Request::Accept { ballot, members }),
    })
}

/// Adds a reply: the number of its kind, its call and its fields.
#[tactic(auto, using(fields::proofs::Writings::joined))]
pub fn put_reply(out: &mut Vec<u8>, call: CallField, reply: &Reply) -> Result<(), NoMem>
    requires { LimitsOf (reply_view reply.now) }
    ensures { Adds result out.old.items out.new.items (exactly (reply_number (kind_of (reply_view reply.now))) ∷ (call_codec.parts call.0 ++ parts_of (reply_view reply.now))) }
{
    match reply {
        Reply::Found { order, newest } => {
            (32u8, (call, *order)).put(out)?;
            put_version(out, newest)
        }
        Reply::Ordered => (33u8, call).put(out),
        Reply::OrderedRead { found } => {
            (34u8, call).put(out)?;
            put_version(out, found)
        }
        Reply::Stored => (35u8, call).put(out),
        Reply::Behind { newest } => (36u8, (call, *newest)).put(out),
        Reply::Later { stamp } => (37u8, (call, *stamp)).put(out),
        Reply::Full { live } => (38u8, (call, *live)).put(out),
        Reply::Moved { view, lineage } => {
            let known = lineage.as_ref().map(|known| (
                known.get().members.copy(),
                known.get().prior.copy(),
            ));
            (39u8, (call, (*view, known))).put(out)
        }
        Reply::Old { found } => {
            (40u8, call).put(out)?;
            put_version(out, found)
        }
        Reply::Retired => (41u8, call).put(out),
        Reply::Promise { accepted } => {
            let known = accepted
                .as_ref()
                .map(|choice| (choice.ballot, choice.members.copy()));
            (42u8, (call, known)).put(out)
        }
        Reply::Accepted => (43u8, call).put(out),
        Reply::Outbid { ballot } => (44u8, (call, *ballot)).put(out),
        Reply::NotSynced => (45u8, call).put(out),
    }
}

/// Reads the fields of a reply, by the number of its kind.
pub fn take_reply(alloc: Global, from: &mut Reader<'_>, number: u8) -> Result<Reply, ReadFault>
    ensures { GivesOrNoMemory result from.new.rest.now (read_of (reply_row (reply_of number)) from.old.rest.now) }
{
    Ok(match number {
        32 => Reply::Found {
            order: from.take()?,
            newest: take_version(alloc, from)?,
        },
        33 => Reply::Ordered,
        34 => Reply::OrderedRead {
            found: take_version(alloc, from)?,
        },
        35 => Reply::Stored,
        36 => take_fields!(from; Reply::Behind { newest }),
        37 => take_fields!(from; Reply::Later { stamp }),
        38 => take_fields!(from; Reply::Full { live }),
        39 => {
            let (view, known): (ViewNo, Option<(Members, Members)>) = from.take()?;
            let lineage = known
                .map(|(members, prior)| Boxed::new(alloc, Lineage { members, prior }))
                .transpose()?;
            Reply::Moved { view, lineage }
        }
        40 => Reply::Old {
            found: take_version(alloc, from)?,
        },
        41 => Reply::Retired,
        42 => {
            let accepted: Option<(Ballot, Members)> = from.take()?;
            let accepted = accepted.map(|(ballot, members)| Choice { ballot, members });
            Reply::Promise { accepted }
        }
        43 => Reply::Accepted,
        44 => take_fields!(from; Reply::Outbid { ballot }),
        // The last kind of replies.
        _ => Reply::NotSynced,
    })
}
