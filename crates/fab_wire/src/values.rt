//! Calls, which seats and which entry are meant, versions, choices and lineages as fields.

ghost use Rattle.fields.specs.Kinds.{option};
ghost use Rattle.fields.specs.Parts.{Adds};
ghost use Rattle.fields.specs.Reading.{Gives, GivesOrNoMemory};
ghost use Rattle.fab_wire.specs.Values.{call_codec, call_field_codec, want_codec, look_codec, op_codec, data_block_codec, version_codec};

use fab_base::NoMem;
use fields::{Field, Malformed, ReadFault, Reader, put_block, take_block, take_fields};
use messages::{Call, ClientOp, Look, Version, Want};
use std::alloc::Global;

/// A call as a field.
#[derive(Clone, Copy)]
pub struct CallField(pub Call);

#[tactic(auto, unfolding(crate::specs::Values::call_fields))]
impl Field for CallField {
    ghost codec = { call_field_codec };

    fn put(&self, out: &mut Vec<u8>) -> Result<(), NoMem> {
        let CallField(call) = *self;
        let place = (call.group, (call.view, call.stripe));
        (call.boot, (call.seq, (call.phase, place))).put(out)
    }

    fn take(from: &mut Reader<'_>) -> Result<CallField, Malformed> {
        Ok(CallField(take_call(from)?))
    }
}

#[tactic(auto, unfolding(crate::specs::Values::call_fields))]
pub fn take_call(from: &mut Reader<'_>) -> Result<Call, Malformed>
    ensures { Gives result from.new.rest.now (call_codec.read from.old.rest.now) }
{
    Ok(take_fields!(from; Call { boot, seq, phase, group, view, stripe }))
}

/// Adds which seats are to send bytes: one from 0 to 31, or all.
#[tactic(auto, using(fields::proofs::Writings::joined))]
pub fn put_want(out: &mut Vec<u8>, want: Want) -> Result<(), NoMem>
    requires { want_codec.Limits want }
    ensures { Adds result out.old.items out.new.items (want_codec.parts want) }
{
    match want {
        Want::Seat(seat) => seat.put(out),
        Want::All => 255u8.put(out),
    }
}

pub fn take_want(from: &mut Reader<'_>) -> Result<Want, Malformed>
    ensures { Gives result from.new.rest.now (want_codec.read from.old.rest.now) }
{
    let left = from.rest.len();
    match from.take()? {
        255 => Ok(Want::All),
        seat if seat < 32 => Ok(Want::Seat(seat)),
        _ => Err(Malformed { left }),
    }
}

/// Adds which entry of a log is looked for: a byte 0 for one below, or 1 for one at, and a stamp.
#[tactic(auto, using(fields::proofs::Writings::joined))]
pub fn put_look(out: &mut Vec<u8>, look: Look) -> Result<(), NoMem>
    ensures { Adds result out.old.items out.new.items (look_codec.parts look) }
{
    match look {
        Look::Below(stamp) => (false, stamp).put(out),
        Look::At(stamp) => (true, stamp).put(out),
    }
}

pub fn take_look(from: &mut Reader<'_>) -> Result<Look, Malformed>
    ensures { Gives result from.new.rest.now (look_codec.read from.old.rest.now) }
{
    Ok(match from.take()? {
        (false, stamp) => Look::Below(stamp),
        (true, stamp) => Look::At(stamp),
    })
}

pub fn take_op(from: &mut Reader<'_>) -> Result<ClientOp, Malformed>
    ensures { Gives result from.new.rest.now (op_codec.read from.old.rest.now) }
{
    let left = from.rest.len();
    match from.take()? {
        0u8 => Ok(ClientOp::ReadBlock),
        1 => Ok(ClientOp::WriteBlock),
        2 => Ok(ClientOp::ReadStripe),
        3 => Ok(ClientOp::WriteStripe),
        _ => Err(Malformed { left }),
    }
}

/// Reads the number of a data block, from 0 to 15.
pub fn take_data_block(from: &mut Reader<'_>) -> Result<u8, Malformed>
    ensures { Gives result from.new.rest.now (data_block_codec.read from.old.rest.now) }
{
    let left = from.rest.len();
    match from.take()? {
        block if block < 16 => Ok(block),
        _ => Err(Malformed { left }),
    }
}

/// Adds a version, if there is one: its stamp and its bytes.
#[tactic(auto, using(fields::proofs::Writings::joined), unfolding(crate::specs::Values::version_fields))]
pub fn put_version(out: &mut Vec<u8>, version: &Option<Version>) -> Result<(), NoMem>
    requires { (option version_codec).Limits version.now }
    ensures { Adds result out.old.items out.new.items ((option version_codec).parts version.now) }
{
    match version {
        None => false.put(out),
        Some(version) => {
            (true, version.stamp).put(out)?;
            put_block(out, &version.block)
        }
    }
}

#[tactic(auto, unfolding(crate::specs::Values::version_fields))]
pub fn take_version(alloc: Global, from: &mut Reader<'_>) -> Result<Option<Version>, ReadFault>
    ensures { GivesOrNoMemory result from.new.rest.now ((option version_codec).read from.old.rest.now) }
{
    Ok(match from.take()? {
        false => None,
        true => Some(Version {
            stamp: from.take()?,
            block: take_block(alloc, from)?,
        }),
    })
}
