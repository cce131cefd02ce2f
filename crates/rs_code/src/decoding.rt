//! The whole stripe that `m` blocks give back, two missing data blocks in one pass.
ghost use Rattle.std.specs.Prelude.{◌≡◌, ◌≢◌, ℕ, ◌+◌, ◌*◌, ◌≤◌, ◌<◌, length, slice_index, IfSome, Contains};
ghost use Rattle.gf_field.specs.Polynomials.{weight_of, AreDistinct};
ghost use Rattle.gf_lanes.specs.Sums.{values_of};
ghost use Rattle.rs_code.specs.Codewords.{AreSeats};
ghost use Rattle.rs_code.specs.Stripes.{block_of, IsDecoded, HasDataBelow};

use crate::code::{Code, place_of, seat_weights};
use crate::writing::{combine_both_to, combine_to, copy_to};
use gf_lanes::{Factor, MAX_WEIGHTS};

impl Code {
    /// Writes the data blocks of the one stripe whose codeword has these blocks at these seats to `stripe`, one after the
    /// other. There are `m` different seats, and their blocks, of `size` bytes, lie one after the other.
    pub fn decode_all_into(&self, seats: &[u8], blocks: &[u8], size: usize, stripe: &mut [u8])
        requires seats { AreSeats self.now.m self.now.n seats.now }
        requires blocks { length blocks.now ≡ self.now.m * size }
        requires stripe { length stripe.old ≡ self.now.m * size }
        ensures { (j : ℕ) → j < self.now.m → IsDecoded self.now.m size seats.now blocks.now j (block_of size stripe.new j) }
    {
        let mut waiting = None;
        for j in 0..self.m {
            waiting = self.decode_next(seats, blocks, size, stripe, waiting, j);
        }
        if let Some(h) = waiting {
            combine_to(
                stripe,
                size,
                h as usize,
                &seat_factors(seats, h)[..seats.len()],
                blocks,
            );
        }
    }

    // Writes data block `j`, together with one that waits, if it is not among the blocks; or lets it wait for the next such.
    fn decode_next(
        &self,
        seats: &[u8],
        blocks: &[u8],
        size: usize,
        stripe: &mut [u8],
        waiting: Option<u8>,
        j: u8,
    ) -> Option<u8>
        requires block { j < self.now.m }
        requires seats { AreSeats self.now.m self.now.n seats.now }
        requires blocks { length blocks.now ≡ self.now.m * size }
        requires stripe { length stripe.old ≡ self.now.m * size }
        requires before { HasDataBelow self.now.m size seats.now blocks.now waiting j stripe.old }
        ensures { HasDataBelow self.now.m size seats.now blocks.now result (j + 1) stripe.new }
    {
        if let Some(i) = place_of(seats, j) {
            copy_to(stripe, size, j as usize, blocks, i);
            return waiting;
        }
        let Some(h) = waiting else {
            return Some(j);
        };
        let first = seat_factors(seats, h);
        let second = seat_factors(seats, j);
        let m = seats.len();
        combine_both_to(
            stripe,
            size,
            h as usize,
            j as usize,
            &first[..m],
            &second[..m],
            blocks,
        );
        None
    }
}

// The factors of the seats at point `j`.
fn seat_factors(seats: &[u8], j: u8) -> [Factor; MAX_WEIGHTS]
    requires few { length seats.now ≤ 16 }
    requires distinct { AreDistinct (length seats.now) (slice_index seats.now) }
    ensures long { length result ≡ 16 }
    ensures weights { (i : ℕ) → i < length seats.now
        → slice_index (values_of result) i ≡ weight_of (length seats.now) (slice_index seats.now) i j }
{
    gf_lanes::factors_of(&seat_weights(seats, j)[..seats.len()])
}
