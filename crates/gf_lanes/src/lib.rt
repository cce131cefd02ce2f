//! Products in the field of 256 elements, 32 bytes at a time, and sums of them.
//!
//! A byte is the sum of its low and its high half, so a product by one factor is the sum of two of 32 products, which are
//! made once and then looked up in vectors. No call takes memory.
#![tactic(auto)]

ghost use Rattle.std.specs.Prelude.{◌≡◌, ◌+◌, ◌*◌, ◌≤◌, ◌<◌, ℕ, length, slice_index, bit_xor};
ghost use Rattle.gf_field.specs.Field.{field_mul};
ghost use Rattle.gf_lanes.specs.Lanes.{HasLanes, AddsProduct, AddsProductWithin};

mod combine;
mod factor;

pub use combine::{MAX_WEIGHTS, combine_into, combine_one_into, combine_two_into, factors_of};
pub use factor::Factor;
use std::simd::prelude::*;

const LANES: usize = 32;

/// Each lane of `v` times `c`.
#[inline(always)]
pub fn mul_lanes(v: u8x32, c: u8) -> u8x32
    ensures { HasLanes result (λ k. field_mul c (slice_index v k)) }
{
    let mut product = u8x32::splat(0);
    let mut power = v;
    for i in 0..8u32 {
        if c >> i & 1 == 1 {
            product = product ^ power;
        }
        power = double_lanes(power);
    }
    product
}

/// Adds `c` times `src` to `dst`, byte by byte. Both have one length.
pub fn mul_add(dst: &mut [u8], src: &[u8], c: u8)
    requires { length src.now ≡ length dst.old }
    ensures { AddsProduct c src.now dst.old dst.new }
{
    let factor = Factor::new(c);
    let whole = dst.len() / LANES;
    for block in 0..whole {
        mul_add_lanes(dst, src, &factor, block * LANES);
    }
    for i in whole * LANES..dst.len() {
        dst[i] = gf_field::add(dst[i], gf_field::mul(c, src[i]));
    }
}

// Adds `factor` times `src` to `dst` at the 32 bytes from `at` on.
#[inline(always)]
fn mul_add_lanes(dst: &mut [u8], src: &[u8], factor: &Factor, at: usize)
    requires dst_room { at + LANES ≤ length dst.old }
    requires src_room { at + LANES ≤ length src.now }
    ensures { AddsProductWithin at (at + LANES) factor.now.value src.now dst.old dst.new }
{
    let product = factor.times(u8x32::from_slice(&src[at..]));
    let sum = u8x32::from_slice(&dst[at..]) ^ product;
    sum.copy_to_slice(&mut dst[at..]);
}

// The element x times each lane of `v`.
#[inline(always)]
fn double_lanes(v: u8x32) -> u8x32
    ensures { HasLanes result (λ k. field_mul 2 (slice_index v k)) }
{
    let reduced = v
        .simd_ge(u8x32::splat(0x80))
        .select(u8x32::splat(0x1D), u8x32::splat(0));
    (v << u8x32::splat(1)) ^ reduced
}
