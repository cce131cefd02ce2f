//! The calls of the code: the block of a seat, all parity blocks at once, the content that m blocks give back, and how a block
//! changes with a data block.

ghost use Rattle.std.specs.Prelude.{◌≡◌, ℕ, ◌-◌, ◌*◌, ◌<◌, ◌≤◌, List, length, IfOk};
ghost use Rattle.protocol.specs.Settings.{Piece};
ghost use Rattle.rs_code.specs.Codewords.{AreSeats};
ghost use Rattle.stripe_code.specs.Codes.{block_code, AreFirst, AreParity};

use fab_base::{Bytes, NoMem};
use rs_code::{Code, Encoder, MAX_BLOCKS};
use std::alloc::Global;

/// The block that the member at this seat keeps of a stripe's content, `m` data blocks of `size` bytes one after the other.
/// A seat below `m` keeps its data block as it is.
///
/// `NoMemory` comes where the block has no room.
pub fn encode(alloc: Global, m: u8, size: u16, content: &[u8], seat: u8) -> Result<Bytes, NoMem>
    requires some_data { 1 ≤ m }
    requires few_data { m ≤ 16 }
    requires seat { seat < 32 }
    requires long { length content.now ≡ m * size }
    ensures { IfOk result (λ block. block ≡ (block_code size).encode m content.now seat) }
{
    let code = Code { m, n: MAX_BLOCKS };
    let mut block = vec![in alloc; 0; size as usize]?;
    code.encode_into(content, seat, &mut block);
    Ok(Bytes::from_vec(block))
}

/// The blocks that the members at the seats from `m` up to `n` keep of a stripe's content, one after the other, in one pass
/// over the content.
///
/// `NoMemory` comes where the blocks have no room.
pub fn parity(alloc: Global, m: u8, n: u8, size: u16, content: &[u8]) -> Result<Bytes, NoMem>
    requires some_data { 1 ≤ m }
    requires few_data { m ≤ 16 }
    requires data_among_blocks { m ≤ n }
    requires few_blocks { n ≤ 32 }
    requires long { length content.now ≡ m * size }
    ensures { IfOk result (AreParity m n size content.now) }
{
    let size = size as usize;
    let mut blocks = vec![in alloc; 0; (n - m) as usize * size]?;
    Encoder::new(Code { m, n }).parity_into(content, size, &mut blocks);
    Ok(Bytes::from_vec(blocks))
}

/// The stripe's content, `m` data blocks of `size` bytes one after the other, that `m` blocks of its codeword give back. The
/// blocks stand one after the other, each at its seat of `seats`.
///
/// `NoMemory` comes where the content has no room.
pub fn decode(alloc: Global, m: u8, size: u16, seats: &[u8], blocks: &[u8]) -> Result<Bytes, NoMem>
    requires some_data { 1 ≤ m }
    requires few_data { m ≤ 16 }
    requires seats { AreSeats m 32 seats.now }
    requires long { length blocks.now ≡ m * size }
    ensures { IfOk result (λ content. (pieces : List Piece) → AreFirst m size pieces seats.now blocks.now
        → content ≡ (block_code size).decode m pieces) }
{
    let code = Code { m, n: MAX_BLOCKS };
    let mut content = vec![in alloc; 0; m as usize * size as usize]?;
    code.decode_all_into(seats, blocks, size as usize, &mut content);
    Ok(Bytes::from_vec(content))
}

/// What a block of `size` bytes changes by, from its old and its new bytes.
///
/// `NoMemory` comes where these bytes have no room.
pub fn delta(alloc: Global, size: u16, old: &[u8], new: &[u8]) -> Result<Bytes, NoMem>
    requires old_long { length old.now ≡ size }
    requires new_long { length new.now ≡ size }
    ensures { IfOk result (λ delta. delta ≡ (block_code size).delta old.now new.now) }
{
    let mut delta = vec![in alloc; 0; size as usize]?;
    for (t, byte) in delta.iter_mut().enumerate() {
        *byte = old[t] ^ new[t];
    }
    Ok(Bytes::from_vec(delta))
}

/// The block that the member at this seat keeps once data block `j` of its stripe, of `m` data blocks of `size` bytes, changed by
/// `delta`. It kept `block` before, which is cut to `size` bytes, or filled with zeros, where it has another length. The block is
/// made anew: the store of the member keeps the old one.
///
/// `NoMemory` comes where the block has no room.
pub fn modify(
    alloc: Global,
    m: u8,
    size: u16,
    j: u8,
    seat: u8,
    delta: &[u8],
    block: &[u8],
) -> Result<Bytes, NoMem>
    requires few_data { m ≤ 16 }
    requires changed { j < m }
    requires seat { seat < 32 }
    requires long { length delta.now ≡ size }
    ensures { IfOk result (λ changed. changed ≡ (block_code size).modify m j seat delta.now block.now) }
{
    let mut changed = Vec::from_slice(alloc, block)?;
    changed.resize(size as usize, 0)?;
    Code { m, n: MAX_BLOCKS }.modify_into(j, seat, delta, &mut changed);
    Ok(Bytes::from_vec(changed))
}
