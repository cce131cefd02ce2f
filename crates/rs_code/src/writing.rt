//! Blocks of a buffer, written in their places. Blocks lie one after the other, each of `size` bytes.
ghost use Rattle.std.specs.Prelude.{◌≡◌, ◌+◌, ◌*◌, ◌≤◌, ◌<◌, length};
ghost use Rattle.gf_lanes.specs.Sums.{combined, values_of};
ghost use Rattle.rs_code.specs.Stripes.{byte_of, WritesBlock, WritesBlocks};

use gf_lanes::Factor;

// Block `k` of `buffer` becomes block `i` of `blocks`.
pub fn copy_to(buffer: &mut [u8], size: usize, k: usize, blocks: &[u8], i: usize)
    requires room { (k + 1) * size ≤ length buffer.old }
    requires there { (i + 1) * size ≤ length blocks.now }
    ensures { WritesBlock size k (λ t. byte_of size blocks.now t i) buffer.old buffer.new }
{
    let (_, rest) = buffer.split_at_mut(k * size);
    let (block, _) = rest.split_at_mut(size);
    block.copy_from_slice(&blocks[i * size..i * size + size]);
}

// Block `k` becomes the sum of `blocks`, each times its factor.
pub fn combine_to(buffer: &mut [u8], size: usize, k: usize, factors: &[Factor], blocks: &[u8])
    requires room { (k + 1) * size ≤ length buffer.old }
    requires size { length blocks.now ≡ length factors.now * size }
    ensures { WritesBlock size k (combined size (values_of factors.now) blocks.now) buffer.old buffer.new }
{
    let (_, rest) = buffer.split_at_mut(k * size);
    let (block, _) = rest.split_at_mut(size);
    gf_lanes::combine_one_into(block, factors, blocks);
}

// Blocks `h` and `k` become two such sums.
pub fn combine_both_to(
    buffer: &mut [u8],
    size: usize,
    h: usize,
    k: usize,
    first: &[Factor],
    second: &[Factor],
    blocks: &[u8],
)
    requires order { h < k }
    requires room { (k + 1) * size ≤ length buffer.old }
    requires factors { length second.now ≡ length first.now }
    requires size { length blocks.now ≡ length first.now * size }
    ensures { WritesBlocks size h k (combined size (values_of first.now) blocks.now)
        (combined size (values_of second.now) blocks.now) buffer.old buffer.new }
{
    let (before, rest) = buffer.split_at_mut(k * size);
    let (_, between) = before.split_at_mut(h * size);
    let (first_block, _) = between.split_at_mut(size);
    let (second_block, _) = rest.split_at_mut(size);
    gf_lanes::combine_two_into(first_block, second_block, first, second, blocks);
}
