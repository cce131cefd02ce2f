//! The code's limits, and its calls on one block.
ghost use Rattle.std.specs.Prelude.{◌≡◌, ◌↔◌, ℕ, ◌+◌, ◌*◌, ◌<◌, ◌≤◌, List, length, slice_index, IsSome, IfSome, IfNone, Contains};
ghost use Rattle.gf_field.specs.Polynomials.{weight_of, AreDistinct};
ghost use Rattle.gf_lanes.specs.Lanes.{AddsProduct};
ghost use Rattle.rs_code.specs.Codewords.{AreSeats};
ghost use Rattle.rs_code.specs.Stripes.{block_of, coded_block, ChangesBlock, IsCodedBlock, IsDecoded};

use gf_lanes::MAX_WEIGHTS;

/// The most data blocks of a stripe.
pub const MAX_DATA_BLOCKS: u8 = 16;

/// The most blocks of a codeword.
pub const MAX_BLOCKS: u8 = 32;

/// A code of `m` data blocks and `n` coded blocks. Seat k, for k below `n`, holds block k.
#[derive(Clone, Copy, PartialEq, Eq)]
pub struct Code {
    pub m: u8,
    pub n: u8,
    ghost some_data: { 0 < m },
    ghost few_data: { m ≤ 16 },
    ghost data_among_blocks: { m ≤ n },
    ghost few_blocks: { n ≤ 32 },
}

impl Code {
    /// The code of `m` data blocks and `n` coded blocks, or `None` outside the limits 1 <= m <= 16, m <= n <= 32.
    pub fn new(m: u8, n: u8) -> Option<Code>
        ensures limits { IsSome result ↔ ((0 < m) × (m ≤ 16) × (m ≤ n) × (n ≤ 32)) }
        ensures code { IfSome result (λ c. (c.m ≡ m) × (c.n ≡ n)) }
    {
        if 0 < m && m <= MAX_DATA_BLOCKS && m <= n && n <= MAX_BLOCKS {
            Some(Code { m, n })
        } else {
            None
        }
    }

    /// Writes block `k` of the codeword of `stripe` to `into`. The stripe is `m` data blocks of the length of `into`, one
    /// after the other.
    pub fn encode_into(&self, stripe: &[u8], k: u8, into: &mut [u8])
        requires seat { k < self.now.n }
        requires size { length stripe.now ≡ self.now.m * length into.old }
        ensures coded { IsCodedBlock self.now.m (length into.old) stripe.now k into.new }
        ensures formula { into.new ≡ coded_block self.now.m (length into.old) stripe.now k }
        ensures data_block { k < self.now.m → into.new ≡ block_of (length into.old) stripe.now k }
    {
        if k < self.m {
            copy_block(into, stripe, k as usize);
            return;
        }
        let weights = data_weights(self.m, k);
        gf_lanes::combine_into(into, &weights[..self.m as usize], stripe);
    }

    /// Writes data block `j` of the one stripe whose codeword has these blocks at these seats to `into`. There are `m`
    /// different seats, and their blocks have the length of `into` and lie one after the other.
    pub fn decode_into(&self, seats: &[u8], blocks: &[u8], j: u8, into: &mut [u8])
        requires block { j < self.now.m }
        requires seats { AreSeats self.now.m self.now.n seats.now }
        requires size { length blocks.now ≡ self.now.m * length into.old }
        ensures { IsDecoded self.now.m (length into.old) seats.now blocks.now j into.new }
    {
        if let Some(i) = place_of(seats, j) {
            copy_block(into, blocks, i);
            return;
        }
        let weights = seat_weights(seats, j);
        gf_lanes::combine_into(into, &weights[..seats.len()], blocks);
    }

    /// Changes `block`, block `k` of a codeword, as data block `j` of its stripe changes by `delta`, the sum of its old and
    /// new bytes: for each stripe whose codeword had it, `block` is then block `k` of the changed stripe's codeword.
    pub fn modify_into(&self, j: u8, k: u8, delta: &[u8], block: &mut [u8])
        requires changed { j < self.now.m }
        requires seat { k < self.now.n }
        requires size { length delta.now ≡ length block.old }
        ensures formula { AddsProduct (weight_of self.now.m (λ i. i) j k) delta.now block.old block.new }
        ensures coded { (old new : List ℕ) → ChangesBlock self.now.m (length block.old) j delta.now old new
            → IsCodedBlock self.now.m (length block.old) old k block.old
            → IsCodedBlock self.now.m (length block.old) new k block.new }
    {
        gf_lanes::mul_add(block, delta, gf_field::weight(self.m, j, k));
    }
}

// Where seat `j` stands among the seats.
pub fn place_of(seats: &[u8], j: u8) -> Option<usize>
    ensures found { IfSome result (λ i. (i < length seats.now) × (slice_index seats.now i ≡ j)) }
    ensures none { IfNone result (¬ (Contains seats.now j)) }
{
    seats.iter().position(|seat| *seat == j)
}

// Writes block `i` of `blocks` to `into`.
fn copy_block(into: &mut [u8], blocks: &[u8], i: usize)
    requires { (i + 1) * length into.old ≤ length blocks.now }
    ensures { into.new ≡ block_of (length into.old) blocks.now i }
{
    let size = into.len();
    let start = i * size;
    into.copy_from_slice(&blocks[start..start + size]);
}

// The weights of the data blocks at point `k`.
fn data_weights(m: u8, k: u8) -> [u8; MAX_WEIGHTS]
    requires { m ≤ 16 }
    ensures { (j : ℕ) → j < m → slice_index result j ≡ weight_of m (λ i. i) j k }
{
    let mut weights = [0u8; MAX_WEIGHTS];
    for j in 0..m {
        weights[j as usize] = gf_field::weight(m, j, k);
    }
    weights
}

// The weights of the seats at point `j`.
pub fn seat_weights(seats: &[u8], j: u8) -> [u8; MAX_WEIGHTS]
    requires few { length seats.now ≤ 16 }
    requires distinct { AreDistinct (length seats.now) (slice_index seats.now) }
    ensures { (i : ℕ) → i < length seats.now → slice_index result i ≡ weight_of (length seats.now) (slice_index seats.now) i j }
{
    let mut weights = [0u8; MAX_WEIGHTS];
    for i in 0..seats.len() {
        weights[i] = gf_field::weight_among(seats, i, j);
    }
    weights
}
