//! A factor, and products by it.
ghost use Rattle.std.specs.Prelude.{◌≡◌, ℕ, ◌+◌, ◌*◌, ◌/◌, ◌%◌, ◌<◌, length, slice_index};
ghost use Rattle.gf_field.specs.Field.{field_mul};
ghost use Rattle.gf_lanes.specs.Lanes.{HasLanes};

use crate::mul_lanes;
use std::simd::prelude::*;

// The low halves of a byte, and the high ones.
const HALVES: [u8; 32] = [
    0x00, 0x01, 0x02, 0x03, 0x04, 0x05, 0x06, 0x07, 0x08, 0x09, 0x0A, 0x0B, 0x0C, 0x0D, 0x0E, 0x0F,
    0x00, 0x10, 0x20, 0x30, 0x40, 0x50, 0x60, 0x70, 0x80, 0x90, 0xA0, 0xB0, 0xC0, 0xD0, 0xE0, 0xF0,
];

/// A factor with its products by each low and each high half of a byte.
#[derive(Clone, Copy)]
pub struct Factor {
    value: u8,
    // Those by the low halves, and behind them those by the high ones.
    products: u8x32,
    ghost long: { length products ≡ 32 },
    ghost by_low_half: { (k : ℕ) → k < 16 → slice_index products k ≡ field_mul value k },
    ghost by_high_half: { (k : ℕ) → k < 16 → slice_index products (16 + k) ≡ field_mul value (k * 16) },
}

impl Factor {
    /// The factor `value`.
    #[inline(always)]
    pub fn new(value: u8) -> Factor
        ensures { result.value ≡ value }
    {
        let products = mul_lanes(u8x32::from_array(HALVES), value);
        Factor { value, products }
    }

    /// Each lane of `v` times the factor.
    #[inline(always)]
    pub fn times(&self, v: u8x32) -> u8x32
        ensures { HasLanes result (λ k. field_mul self.now.value (slice_index v k)) }
    {
        by_low_half(self.low_products(), v) ^ by_high_half(self.high_products(), v)
    }

    /// One byte times the factor.
    #[inline(always)]
    pub fn times_byte(&self, byte: u8) -> u8
        ensures { result ≡ field_mul self.now.value byte }
    {
        gf_field::mul(self.value, byte)
    }

    // The products by the low halves, twice, since a look-up reads the 16 lanes of its own half of the vector.
    #[inline(always)]
    fn low_products(&self) -> u8x32
        ensures { HasLanes result (λ k. field_mul self.now.value (k % 16)) }
    {
        self.products.swizzle([
            0, 1, 2, 3, 4, 5, 6, 7, 8, 9, 10, 11, 12, 13, 14, 15, 0, 1, 2, 3, 4, 5, 6, 7, 8, 9, 10,
            11, 12, 13, 14, 15,
        ])
    }

    // The same of the high halves.
    #[inline(always)]
    fn high_products(&self) -> u8x32
        ensures { HasLanes result (λ k. field_mul self.now.value (k % 16 * 16)) }
    {
        self.products.swizzle([
            16, 17, 18, 19, 20, 21, 22, 23, 24, 25, 26, 27, 28, 29, 30, 31, 16, 17, 18, 19, 20, 21,
            22, 23, 24, 25, 26, 27, 28, 29, 30, 31,
        ])
    }
}

// Reads the table at the low four bits of each lane.
#[inline(always)]
fn by_low_half(table: u8x32, v: u8x32) -> u8x32
    ensures { HasLanes result (λ k. slice_index table (16 * (k / 16) + slice_index v k % 16)) }
{
    table.swizzle_dyn_within::<16>(v & u8x32::splat(15))
}

// The same at the high four bits.
#[inline(always)]
fn by_high_half(table: u8x32, v: u8x32) -> u8x32
    ensures { HasLanes result (λ k. slice_index table (16 * (k / 16) + slice_index v k / 16)) }
{
    table.swizzle_dyn_within::<16>(v >> u8x32::splat(4))
}
