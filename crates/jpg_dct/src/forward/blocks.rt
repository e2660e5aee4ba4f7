//! Blocks of samples as blocks of quantised coefficients, by prepared quantisers (T.81, A.3.1, A.3.3, A.3.4).
ghost use Rattle.std.specs.Prelude.{◌≡◌, ◌+◌, ◌<◌, ◌≤◌, ◌≤ℤ◌, ℕ, pos, negsuc, nat_abs, map, All, length, slice_index};
ghost use Rattle.jpg_spec.specs.Zigzag.{zigzag};
ghost use Rattle.jpg_spec_image.specs.Dct.{number_at};
ghost use Rattle.jpg_spec_image.specs.ForwardDct.{forward_dct, quantised, quantised_block};
ghost use Rattle.jpg_dct.specs.Division.{AreDivisors};
ghost use Rattle.jpg_dct.specs.Natural.{natural_table};

use crate::forward::eight_frequencies::frequencies;
use crate::forward::eight_quotients::{divided_rows, in_zigzag};
use crate::forward::quantising::{Divisor, divisor_of};
use std::marker::Model;

// The natural index of each place in zigzag order, and the place of each natural index.
pub const ZIGZAG: [usize; 64] = [
    0, 1, 8, 16, 9, 2, 3, 10, 17, 24, 32, 25, 18, 11, 4, 5, 12, 19, 26, 33, 40, 48, 41, 34, 27, 20,
    13, 6, 7, 14, 21, 28, 35, 42, 49, 56, 57, 50, 43, 36, 29, 22, 15, 23, 30, 37, 44, 51, 58, 59,
    52, 45, 38, 31, 39, 46, 53, 60, 61, 54, 47, 55, 62, 63,
];

static PLACES: [u8; 64] = [
    0, 1, 5, 6, 14, 15, 27, 28, 2, 4, 7, 13, 16, 26, 29, 42, 3, 8, 12, 17, 25, 30, 41, 43, 9, 11,
    18, 24, 31, 40, 44, 53, 10, 19, 23, 32, 39, 45, 52, 54, 20, 22, 33, 38, 46, 51, 55, 60, 21, 34,
    37, 47, 50, 56, 59, 61, 35, 36, 48, 49, 57, 58, 62, 63,
];

/// 64 quantisers, none of them 0, prepared for division, each array in natural order. Contracts see them in zigzag
/// order.
#[derive(Drop)]
pub struct Divisors {
    // The quantisers.
    quants: [u16; 64],
    // Half of eight times each, which is added before the division.
    halves: [u16; 64],
    // 65536 times a power of two below eight times each, divided by that and rounded up: the first multiplier.
    factors: [u16; 64],
    // 65536 divided by that power of two: the second multiplier.
    scales: [u16; 64],
}

impl Model for Divisors {
    ghost use Rattle.std.specs.Prelude.{List, ℕ, map, slice_index};
    ghost use Rattle.jpg_spec.specs.Zigzag.{zigzag};
    ghost use Rattle.jpg_dct.specs.Division.{AreDivisors};

    ghost Value = { List ℕ };

    ghost view = { λ d. map (slice_index d.quants) zigzag };

    ghost invariant = { λ d. AreDivisors d.quants d.halves d.factors d.scales };
}

// A table in natural order.
fn natural(table: &[u16; 64]) -> [u16; 64]
    ensures { result ≡ natural_table table.now }
{
    let mut quants = [0; 64];
    for n in 0..64 {
        quants[n] = table[PLACES[n] as usize];
    }
    quants
}

impl Divisors {
    /// The quantisers of a table in zigzag order.
    pub fn new(table: &[u16; 64]) -> Divisors
        requires { All (λ q. 1 ≤ q) table.now }
        ensures { result ≡ table.now }
    {
        let quants = natural(table);
        let mut halves = [0; 64];
        let mut factors = [0; 64];
        let mut scales = [0; 64];
        for n in 0..64 {
            let Divisor {
                half,
                factor,
                scale,
            } = divisor_of(quants[n]);
            halves[n] = half;
            factors[n] = factor;
            scales[n] = scale;
        }
        Divisors {
            quants,
            halves,
            factors,
            scales,
        }
    }

    /// The quantised coefficients of 64 samples, in zigzag order.
    // It is inlined, so that its caller has no copy of the block; but the caller has to be a call for one block itself: in a
    // loop the tables are kept in 32 bits, and narrowed again for each block.
    #[inline(always)]
    pub fn block(&self, samples: &[u8; 64]) -> [i16; 64]
        ensures { result ≡ quantised_block self.now (forward_dct samples.now) }
    {
        let rows = frequencies(samples);
        let coded = divided_rows(rows, &self.halves, &self.factors, &self.scales);
        in_zigzag(coded)
    }
}
