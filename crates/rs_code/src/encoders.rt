//! The parity blocks of a codeword in one call, by factors that are made once.
ghost use Rattle.std.specs.Prelude.{◌≡◌, ℕ, ◌+◌, ◌-◌, ◌*◌, ◌/◌, ◌%◌, ◌≤◌, ◌<◌, length, slice_index};
ghost use Rattle.gf_field.specs.Polynomials.{weight_of};
ghost use Rattle.gf_lanes.specs.Sums.{values_of};
ghost use Rattle.rs_code.specs.Codewords.{AreParityWeights};
ghost use Rattle.rs_code.specs.Stripes.{block_of, coded_block, IsCodedBlock};

use crate::code::Code;
use crate::writing::{combine_both_to, combine_to};
use gf_lanes::Factor;

// m * (n - m) is at most 16 * 16.
const MAX_FACTORS: usize = 256;

/// A code with the factors of its parity blocks, those from `m` on: made once, for many stripes. They are no part of a
/// [`Code`], since a code is made at each call, and a decode needs none of them.
#[derive(Clone, Copy)]
pub struct Encoder {
    code: Code,
    // Those of block m + r from place r * m on, and behind all of them zeros.
    factors: [Factor; 256],
    ghost weights: { AreParityWeights code.m code.n (values_of factors) },
}

impl Encoder {
    /// The encoder of a code.
    pub fn new(code: Code) -> Encoder
        ensures { result.code ≡ code }
    {
        let mut factors = [Factor::new(0); MAX_FACTORS];
        for place in 0..code.m as usize * (code.n - code.m) as usize {
            factors[place] = Factor::new(parity_weight(code, place));
        }
        Encoder { code, factors }
    }

    /// Writes the blocks from `m` on of the codeword of `stripe` to `parity`, one after the other. The stripe is `m` data
    /// blocks of `size` bytes, one after the other.
    pub fn parity_into(&self, stripe: &[u8], size: usize, parity: &mut [u8])
        requires stripe { length stripe.now ≡ self.now.code.m * size }
        requires parity { length parity.old ≡ (self.now.code.n - self.now.code.m) * size }
        ensures coded { (k : ℕ) → self.now.code.m ≤ k → k < self.now.code.n
            → IsCodedBlock self.now.code.m size stripe.now k (block_of size parity.new (k - self.now.code.m)) }
        ensures formula { (k : ℕ) → self.now.code.m ≤ k → k < self.now.code.n
            → block_of size parity.new (k - self.now.code.m) ≡ coded_block self.now.code.m size stripe.now k }
    {
        let rows = (self.code.n - self.code.m) as usize;
        for pair in 0..rows / 2 {
            let r = 2 * pair;
            combine_both_to(parity, size, r, r + 1, self.row(r), self.row(r + 1), stripe);
        }
        if rows % 2 == 1 {
            combine_to(parity, size, rows - 1, self.row(rows - 1), stripe);
        }
    }

    // The factors of block m + r.
    fn row(&self, r: usize) -> &[Factor]
        requires { self.now.code.m + r < self.now.code.n }
        ensures long { length result.now ≡ self.now.code.m }
        ensures weights { (j : ℕ) → j < self.now.code.m
            → slice_index (values_of result.now) j ≡ weight_of self.now.code.m (λ i. i) j (self.now.code.m + r) }
    {
        let start = r * self.code.m as usize;
        &self.factors[start..start + self.code.m as usize]
    }
}

// The weight that stands at this place among those of the parity blocks.
fn parity_weight(code: Code, place: usize) -> u8
    requires { place < code.m * (code.n - code.m) }
    ensures { result ≡ weight_of code.m (λ i. i) (place % code.m) (code.m + place / code.m) }
{
    let m = code.m as usize;
    gf_field::weight(code.m, (place % m) as u8, (m + place / m) as u8)
}
