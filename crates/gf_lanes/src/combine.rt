//! Sums of blocks, each times its weight, in one pass over the blocks.
ghost use Rattle.std.specs.Prelude.{◌≡◌, ◌+◌, ◌*◌, ◌≤◌, ◌<◌, ℕ, length, map, take, slice_index};
ghost use Rattle.gf_lanes.specs.Lanes.{HasLanes};
ghost use Rattle.gf_lanes.specs.Sums.{IsCombination, IsCombinedWithin, sum_of_products, values_of};

use crate::LANES;
use crate::factor::Factor;
use std::simd::prelude::*;

/// The most blocks that are added by `combine_into`.
pub const MAX_WEIGHTS: usize = 16;

// A step's bytes of one sum: two vectors, which stay in registers.
const STEP: usize = 2 * LANES;

/// Writes the sum of the blocks, each times its weight, to `into`. There is a block for each weight, at most 16; the blocks
/// have the length of `into` and lie one after the other.
pub fn combine_into(into: &mut [u8], weights: &[u8], blocks: &[u8])
    requires few { length weights.now ≤ 16 }
    requires size { length blocks.now ≡ length weights.now * length into.old }
    ensures { IsCombination weights.now blocks.now into.new }
{
    let factors = factors_of(weights);
    combine_one_into(into, &factors[..weights.len()], blocks);
}

/// The same by factors, of any number.
pub fn combine_one_into(into: &mut [u8], factors: &[Factor], blocks: &[u8])
    requires size { length blocks.now ≡ length factors.now * length into.old }
    ensures { IsCombination (values_of factors.now) blocks.now into.new }
{
    let steps = into.len() / STEP;
    for step in 0..steps {
        combine_step(into, factors, blocks, step * STEP);
    }
    for place in steps * STEP..into.len() {
        into[place] = combined_byte(factors, blocks, into.len(), place);
    }
}

/// Two sums of the same blocks, of one length, each by factors of its own. The halves of a byte are split off once for both.
pub fn combine_two_into(
    first: &mut [u8],
    second: &mut [u8],
    first_factors: &[Factor],
    second_factors: &[Factor],
    blocks: &[u8],
)
    requires sums { length second.old ≡ length first.old }
    requires factors { length second_factors.now ≡ length first_factors.now }
    requires size { length blocks.now ≡ length first_factors.now * length first.old }
    ensures first { IsCombination (values_of first_factors.now) blocks.now first.new }
    ensures second { IsCombination (values_of second_factors.now) blocks.now second.new }
{
    let size = first.len();
    let steps = size / LANES;
    for step in 0..steps {
        combine_two_step(
            first,
            second,
            first_factors,
            second_factors,
            blocks,
            step * LANES,
        );
    }
    for place in steps * LANES..size {
        first[place] = combined_byte(first_factors, blocks, size, place);
        second[place] = combined_byte(second_factors, blocks, size, place);
    }
}

/// The factors of at most 16 weights, and behind them zeros.
pub fn factors_of(weights: &[u8]) -> [Factor; 16]
    requires { length weights.now ≤ 16 }
    ensures { take (length weights.now) (values_of result) ≡ weights.now }
{
    let mut factors = [Factor::new(0); MAX_WEIGHTS];
    for i in 0..weights.len() {
        factors[i] = Factor::new(weights[i]);
    }
    factors
}

// The 64 bytes from `at` on.
#[inline(always)]
fn combine_step(into: &mut [u8], factors: &[Factor], blocks: &[u8], at: usize)
    requires room { at + STEP ≤ length into.old }
    requires size { length blocks.now ≡ length factors.now * length into.old }
    ensures { IsCombinedWithin at (at + STEP) (values_of factors.now) blocks.now into.old into.new }
{
    let size = into.len();
    let mut first = u8x32::splat(0);
    let mut second = u8x32::splat(0);
    for i in 0..factors.len() {
        let start = i * size + at;
        first = first ^ factors[i].times(u8x32::from_slice(&blocks[start..]));
        second = second ^ factors[i].times(u8x32::from_slice(&blocks[start + LANES..]));
    }
    first.copy_to_slice(&mut into[at..]);
    second.copy_to_slice(&mut into[at + LANES..]);
}

// The 32 bytes of both sums from `at` on.
#[inline(always)]
fn combine_two_step(
    first: &mut [u8],
    second: &mut [u8],
    first_factors: &[Factor],
    second_factors: &[Factor],
    blocks: &[u8],
    at: usize,
)
    requires room { at + LANES ≤ length first.old }
    requires sums { length second.old ≡ length first.old }
    requires factors { length second_factors.now ≡ length first_factors.now }
    requires size { length blocks.now ≡ length first_factors.now * length first.old }
    ensures first { IsCombinedWithin at (at + LANES) (values_of first_factors.now) blocks.now first.old first.new }
    ensures second { IsCombinedWithin at (at + LANES) (values_of second_factors.now) blocks.now second.old second.new }
{
    let size = first.len();
    let mut first_sum = u8x32::splat(0);
    let mut second_sum = u8x32::splat(0);
    for i in 0..first_factors.len() {
        let bytes = u8x32::from_slice(&blocks[i * size + at..]);
        first_sum = first_sum ^ first_factors[i].times(bytes);
        second_sum = second_sum ^ second_factors[i].times(bytes);
    }
    first_sum.copy_to_slice(&mut first[at..]);
    second_sum.copy_to_slice(&mut second[at..]);
}

// The byte at `place` of the sum of blocks of `size` bytes.
fn combined_byte(factors: &[Factor], blocks: &[u8], size: usize, place: usize) -> u8
    requires within { place < size }
    requires size { length blocks.now ≡ length factors.now * size }
    ensures { result ≡ sum_of_products (length factors.now) (slice_index (values_of factors.now))
        (λ i. slice_index blocks.now (i * size + place)) }
{
    let mut sum = 0;
    for i in 0..factors.len() {
        sum = gf_field::add(sum, factors[i].times_byte(blocks[i * size + place]));
    }
    sum
}
