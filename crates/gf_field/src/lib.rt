//! The field of 256 elements over the polynomial x^8 + x^4 + x^3 + x^2 + 1 (0x11D), and Lagrange weights over it: the
//! arithmetic of an erasure code (I. S. Reed, G. Solomon, "Polynomial codes over certain finite fields", 1960).
//!
//! An element is a byte, whose bit i is the coefficient of x^i of a polynomial over bits. No call takes memory.
#![tactic(auto)]

mod elements;
mod tables;
mod weights;

pub use elements::{add, inverse, mul};
pub use weights::{weight, weight_among};
