//! Bytes with their length before them. They take memory, so they are read by functions of their own.

ghost use Rattle.fields.specs.Parts.{Adds};
ghost use Rattle.fields.specs.Reading.{GivesOrNoMemory};
ghost use Rattle.fields.specs.Values.{block_codec, content_codec};

use crate::codecs::Field;
use crate::readers::{ReadFault, Reader};
use fab_base::{Bytes, NoMem};
use std::alloc::Global;

/// Adds a member's block: its length in two bytes, at most 4,096, and its bytes.
#[tactic(auto, using(crate::proofs::Writings::joined), unfolding(crate::specs::Values::block_fields))]
pub fn put_block(out: &mut Vec<u8>, block: &Bytes) -> Result<(), NoMem>
    requires { block_codec.Limits block.now }
    ensures { Adds result out.old.items out.new.items (block_codec.parts block.now) }
{
    (block.len() as u16).put(out)?;
    Ok(out.extend_from_slice(block.as_slice())?)
}

/// Adds a client's bytes: their length in four bytes, at most 32,768, and the bytes.
#[tactic(auto, using(crate::proofs::Writings::joined), unfolding(crate::specs::Values::content_fields))]
pub fn put_content(out: &mut Vec<u8>, content: &Bytes) -> Result<(), NoMem>
    requires { content_codec.Limits content.now }
    ensures { Adds result out.old.items out.new.items (content_codec.parts content.now) }
{
    (content.len() as u32).put(out)?;
    Ok(out.extend_from_slice(content.as_slice())?)
}

/// The block that the bytes begin with. `Malformed` exactly where they begin with none.
#[tactic(auto, unfolding(crate::specs::Values::block_fields))]
pub fn take_block(alloc: Global, from: &mut Reader<'_>) -> Result<Bytes, ReadFault>
    ensures { GivesOrNoMemory result from.new.rest.now (block_codec.read from.old.rest.now) }
{
    let left = from.rest.len();
    let length: u16 = from.take()?;
    if length > 4096 {
        return Err(ReadFault::Malformed(left));
    }
    Ok(Bytes::from_slice(alloc, from.raw(usize::from(length))?)?)
}

/// The client's bytes that the bytes begin with. `Malformed` exactly where they begin with none.
#[tactic(auto, unfolding(crate::specs::Values::content_fields))]
pub fn take_content(alloc: Global, from: &mut Reader<'_>) -> Result<Bytes, ReadFault>
    ensures { GivesOrNoMemory result from.new.rest.now (content_codec.read from.old.rest.now) }
{
    let left = from.rest.len();
    let length: u32 = from.take()?;
    if length > 32768 {
        return Err(ReadFault::Malformed(left));
    }
    Ok(Bytes::from_slice(alloc, from.raw(length as usize)?)?)
}
