//! Quantisers prepared for multiplication, and blocks of coefficients as samples by them (T.81, A.3.3, A.3.4, F.2.1.4).
ghost use Rattle.std.specs.Prelude.{◌≡◌, ◌*◌, ◌<◌, ◌≤◌, ◌*ℤ◌, ℕ, pos, nat_abs, All, IsTrue, length, slice_index};
ghost use Rattle.std.specs.Int.{int_wrap, w16};
ghost use Rattle.jpg_spec_image.specs.Dct.{number_at, dequantised, inverse_dct};
ghost use Rattle.jpg_dct.specs.Multipliers.{AreMultipliers, Multiplies, AreLimited};
ghost use Rattle.jpg_dct.specs.Natural.{natural};

use crate::inverse::short::{idct_corner, idct_short};
use crate::inverse::{dequantise, idct};
use std::marker::Model;
use std::simd::{i16x64, u8x64};

// The place in zigzag order of each natural index (T.81, A.3.6, Figure A.6).
const PLACES: [usize; 64] = [
    0, 1, 5, 6, 14, 15, 27, 28, 2, 4, 7, 13, 16, 26, 29, 42, 3, 8, 12, 17, 25, 30, 41, 43, 9, 11,
    18, 24, 31, 40, 44, 53, 10, 19, 23, 32, 39, 45, 52, 54, 20, 22, 33, 38, 46, 51, 55, 60, 21, 34,
    37, 47, 50, 56, 59, 61, 35, 36, 48, 49, 57, 58, 62, 63,
];

/// 64 quantisers in zigzag order, prepared for multiplication.
#[derive(Drop)]
pub struct Multipliers {
    quants: [u16; 64],
    factors: [i16; 64],
    limits: [u16; 64],
}

impl Model for Multipliers {
    ghost use Rattle.std.specs.Prelude.{List, ℕ};
    ghost use Rattle.jpg_dct.specs.Multipliers.{AreMultipliers};

    ghost Value = { List ℕ };

    ghost view = { λ m. m.quants };

    ghost invariant = { λ m. AreMultipliers m.quants m.factors m.limits };
}

// A quantiser as a factor of 16 bits, and the greatest coefficient whose product is at most 1090.
struct Multiplier {
    factor: i16,
    limit: u16,
}

fn multiplier_of(q: u16) -> Multiplier
    ensures { Multiplies q result.factor result.limit }
{
    if q == 0 {
        Multiplier {
            factor: 0,
            limit: 1024,
        }
    } else if q <= 1090 {
        Multiplier {
            factor: q as i16,
            limit: 1090 / q,
        }
    } else {
        Multiplier {
            factor: 0,
            limit: 0,
        }
    }
}

// Whether each coefficient is at most its limit.
#[inline(always)]
fn are_limited(given: &[i16; 64], limits: &[u16; 64]) -> bool
    ensures limited { IsTrue result → AreLimited given.now limits.now }
    ensures always { AreLimited given.now limits.now → IsTrue result }
{
    let mut large = false;
    for n in 0..64 {
        large = large | (limits[n] < given[n].unsigned_abs());
    }
    !large
}

#[inline(always)]
fn times(value: i16, factor: i16) -> i16
    ensures { result ≡ int_wrap w16 (value *ℤ factor) }
{
    value.wrapping_mul(factor)
}

// The products in 16 bits.
#[inline(always)]
fn products(given: &[i16; 64], factors: &[i16; 64]) -> [i16; 64]
    ensures long { length result ≡ 64 }
    ensures at { (n : ℕ) → n < 64 → number_at result n ≡ int_wrap w16 (number_at given.now n *ℤ number_at factors.now n) }
{
    let mut values = [0; 64];
    for n in 0..64 {
        values[n] = times(given[n], factors[n]);
    }
    values
}

// Numbers put from zigzag order into natural order. They are products already: what has just been loaded the compiler
// would take from memory number by number; and `as_array` remains one vector, where `to_array` makes 64 numbers.
#[inline(always)]
fn in_order(values: &[i16; 64]) -> [i16; 64]
    requires { All (λ x. nat_abs x ≤ 1090) values.now }
    ensures { result ≡ natural values.now }
{
    let lanes = i16x64::from_slice(values).swizzle(PLACES);
    *lanes.as_array()
}

// The products in 32 bits, in natural order.
fn long_products(given: &[i16; 64], quants: &[u16; 64]) -> [i32; 64]
    requires { All (λ x. nat_abs x ≤ 1024) given.now }
    ensures { result ≡ dequantised quants.now given.now }
{
    let mut values = [0; 64];
    for n in 0..64 {
        let k = PLACES[n];
        values[n] = dequantise(given[k], quants[k]);
    }
    values
}

// It remains a call: it is rare.
#[inline(never)]
fn large_samples(given: &[i16; 64], quants: &[u16; 64]) -> [u8; 64]
    requires { All (λ x. nat_abs x ≤ 1024) given.now }
    ensures { result ≡ inverse_dct (dequantised quants.now given.now) }
{
    idct(&long_products(given, quants))
}

#[inline(always)]
fn large_block(given: &[i16; 64], quants: &[u16; 64]) -> u8x64
    requires { All (λ x. nat_abs x ≤ 1024) given.now }
    ensures { result ≡ inverse_dct (dequantised quants.now given.now) }
{
    u8x64::from_slice(&large_samples(given, quants))
}

impl Multipliers {
    /// The quantisers of a table in zigzag order.
    pub fn new(quants: &[u16; 64]) -> Multipliers
        ensures { result ≡ quants.now }
    {
        let mut factors = [0; 64];
        let mut limits = [0; 64];
        for n in 0..64 {
            let Multiplier { factor, limit } = multiplier_of(quants[n]);
            factors[n] = factor;
            limits[n] = limit;
        }
        Multipliers {
            quants: *quants,
            factors,
            limits,
        }
    }

    /// The 64 samples, row by row, of quantised coefficients in zigzag order.
    #[inline(always)]
    pub fn block(&self, given: &[i16; 64]) -> u8x64
        requires { All (λ x. nat_abs x ≤ 1024) given.now }
        ensures { result ≡ inverse_dct (dequantised self.now given.now) }
    {
        if are_limited(given, &self.limits) {
            let products = products(given, &self.factors);
            return idct_short(&in_order(&products));
        }
        large_block(given, &self.quants)
    }

    /// The same where only the first ten coefficients aren't 0.
    #[inline(always)]
    pub fn corner(&self, given: &[i16; 64]) -> u8x64
        requires small { All (λ x. nat_abs x ≤ 1024) given.now }
        requires few { (k : ℕ) → 10 ≤ k → k < 64 → number_at given.now k ≡ pos 0 }
        ensures { result ≡ inverse_dct (dequantised self.now given.now) }
    {
        if are_limited(given, &self.limits) {
            let products = products(given, &self.factors);
            return idct_corner(&in_order(&products));
        }
        large_block(given, &self.quants)
    }
}
