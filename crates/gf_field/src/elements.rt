//! Sums, products and inverses.
ghost use Rattle.std.specs.Prelude.{◌≡◌, ◌≢◌, bit_xor};
ghost use Rattle.gf_field.specs.Field.{field_mul, inverse_of};

use crate::tables::{logarithm, power};

/// The sum of two elements, which is also their difference: the coefficients are added modulo 2.
pub fn add(a: u8, b: u8) -> u8
    ensures { result ≡ bit_xor a b }
{
    a ^ b
}

/// The product of two elements: that of their polynomials, modulo x^8 + x^4 + x^3 + x^2 + 1.
#[inline(always)]
pub fn mul(a: u8, b: u8) -> u8
    ensures { result ≡ field_mul a b }
{
    if a == 0 || b == 0 {
        return 0;
    }
    power(logarithm(a) as usize + logarithm(b) as usize)
}

/// The element whose product with `a` is 1. Zero has none.
pub fn inverse(a: u8) -> u8
    requires { a ≢ 0 }
    ensures inverse { field_mul a result ≡ 1 }
    ensures power { result ≡ inverse_of a }
{
    // The power 255 of x is 1.
    power((255 - logarithm(a)) as usize)
}
