//! A block of 64 coefficients (T.81, A.3.6, Figure A.6).
ghost use Rattle.std.specs.Prelude.{◌≡◌, ◌<◌, ◌≤ℤ◌, ℕ, pos, negsuc, if◌then◌else◌, replicate, slice_index_or, slice_set, length};
ghost use Rattle.std.specs.Int.{bit_at};
ghost use Rattle.jpg_spec.specs.Elements.{is_zero};
ghost use Rattle.jpg_spec.specs.Transposed.{transposed};

use std::marker::Model;
use std::simd::cmp::SimdPartialEq;
use std::simd::i16x64;

// For each place in zigzag order, the place with the horizontal and the vertical frequency exchanged.
const EXCHANGED: [usize; 64] = [
    0, 2, 1, 5, 4, 3, 9, 8, 7, 6, 14, 13, 12, 11, 10, 20, 19, 18, 17, 16, 15, 27, 26, 25, 24, 23,
    22, 21, 35, 34, 33, 32, 31, 30, 29, 28, 42, 41, 40, 39, 38, 37, 36, 48, 47, 46, 45, 44, 43, 53,
    52, 51, 50, 49, 57, 56, 55, 54, 60, 59, 58, 62, 61, 63,
];

/// 64 numbers in zigzag order: place 0 is the DC, places 1 to 63 are the AC (T.81, A.3.6).
#[derive(Clone, Copy, Debug, PartialEq, Eq)]
pub struct Block {
    values: [i16; 64],
}

impl Model for Block {
    ghost use Rattle.std.specs.Prelude.{List, ℤ};

    ghost Value = { List ℤ };

    ghost view = { λ b. b.values };

    ghost inverse = { λ values. record { values = values } };
}

impl Block {
    /// 64 zeros.
    pub fn zero() -> Block
        ensures { result ≡ replicate 64 (pos 0) }
    {
        Block { values: [0; 64] }
    }

    /// These numbers.
    #[inline(always)]
    pub fn of(values: [i16; 64]) -> Block
        ensures { result ≡ values }
    {
        Block { values }
    }

    /// The number at place `k`.
    pub fn get(&self, k: u8) -> i16
        requires { k < 64 }
        ensures value { result ≡ slice_index_or self.now k (pos 0) }
        ensures long { length self.now ≡ 64 }
    {
        self.values[k as usize]
    }

    /// Puts `value` at place `k`. All other numbers remain.
    pub fn set(&mut self, k: u8, value: i16)
        requires { k < 64 }
        ensures value { self.new ≡ slice_set self.old k value }
        ensures long { length self.old ≡ 64 }
    {
        self.values[k as usize] = value;
    }

    /// States, for proofs, that it has 64 numbers. It does nothing.
    pub fn long(&self)
        ensures { length self.now ≡ 64 }
    {
        let _ = &self.values;
    }

    /// The block with its axes exchanged: each place has the number of the place with the horizontal and the vertical
    /// frequency exchanged.
    #[inline(always)]
    pub fn transposed(&self) -> Block
        ensures value { result ≡ transposed (pos 0) self.now }
        ensures long { length self.now ≡ 64 }
    {
        Block {
            values: exchanged(&self.values),
        }
    }

    /// Which numbers aren't 0: bit `k`, from the lowest on, is 1 where the number at place `k` isn't 0.
    #[inline(always)]
    pub fn nonzero(&self) -> u64
        ensures { (k : ℕ) → k < 64 → bit_at result k ≡ (if is_zero (slice_index_or self.now k (pos 0)) then 0 else 1) }
    {
        nonzero_lanes(&self.values)
    }
}

// The bits of the numbers that aren't 0.
#[inline(always)]
fn nonzero_lanes(values: &[i16; 64]) -> u64
    ensures { (k : ℕ) → k < 64 → bit_at result k ≡ (if is_zero (slice_index_or values.now k (pos 0)) then 0 else 1) }
{
    all_fit(values);
    i16x64::from_slice(values)
        .simd_ne(i16x64::splat(0))
        .to_bitmask()
}

// States, for proofs, that the number fits its type. It does nothing.
#[inline(always)]
fn fits(value: i16)
    ensures { (negsuc 32767 ≤ℤ value) × (value ≤ℤ pos 32767) }
{
    let _ = value;
}

// States, for proofs, that all numbers fit their type. It does nothing.
#[inline(always)]
fn all_fit(values: &[i16; 64])
    ensures { (k : ℕ) → k < 64 → (negsuc 32767 ≤ℤ slice_index_or values.now k (pos 0)) × (slice_index_or values.now k (pos 0) ≤ℤ pos 32767) }
{
    for k in 0..64 {
        fits(values[k]);
    }
}

// The numbers of a block with its axes exchanged.
#[inline(always)]
fn exchanged(values: &[i16; 64]) -> [i16; 64]
    ensures { result ≡ transposed (pos 0) values.now }
{
    all_fit(values);
    let lanes = i16x64::from_slice(values).swizzle(EXCHANGED);
    *lanes.as_array()
}
