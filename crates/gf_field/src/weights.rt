//! The values of the polynomials that are 1 at one point and 0 at the others.
ghost use Rattle.std.specs.Prelude.{◌≡◌, ◌<◌, length, slice_index};
ghost use Rattle.gf_field.specs.Polynomials.{weight_of, AreDistinct, IsWeight};

use crate::elements::{add, inverse, mul};

/// The Lagrange weight of data block `j` at point `k`: the value at `k` of the polynomial of degree below `m` that is 1
/// at `j` and 0 at the other points below `m`.
pub fn weight(m: u8, j: u8, k: u8) -> u8
    requires { j < m }
    ensures polynomial { IsWeight m (λ i. i) j k result }
    ensures formula { result ≡ weight_of m (λ i. i) j k }
{
    let mut numerator = 1;
    let mut denominator = 1;
    for i in 0..m {
        if i != j {
            numerator = mul(numerator, add(k, i));
            denominator = mul(denominator, add(j, i));
        }
    }
    mul(numerator, inverse(denominator))
}

/// The Lagrange weight of point `j` of `points` at `x`: the value at `x` of the polynomial of degree below the number of
/// points that is 1 at `points[j]` and 0 at the other points, which are different.
pub fn weight_among(points: &[u8], j: usize, x: u8) -> u8
    requires within { j < length points.now }
    requires distinct { AreDistinct (length points.now) (slice_index points.now) }
    ensures polynomial { IsWeight (length points.now) (slice_index points.now) j x result }
    ensures formula { result ≡ weight_of (length points.now) (slice_index points.now) j x }
{
    let own = points[j];
    let mut numerator = 1;
    let mut denominator = 1;
    for (i, point) in points.iter().enumerate() {
        if i != j {
            numerator = mul(numerator, add(x, *point));
            denominator = mul(denominator, add(own, *point));
        }
    }
    mul(numerator, inverse(denominator))
}
