//! Frequencies as multiples of quantisers by vectors (T.81, A.3.4), and put in zigzag order (A.3.6, Figure A.6).
ghost use Rattle.std.specs.Prelude.{◌≡◌, ◌+◌, ◌*◌, ◌/◌, ◌%◌, ◌<◌, ◌≤◌, ℕ, nat_abs, map, length, slice_index};
ghost use Rattle.jpg_spec.specs.Zigzag.{zigzag};
ghost use Rattle.jpg_spec_image.specs.Dct.{number_at};
ghost use Rattle.jpg_dct.specs.Division.{with_sign, high_part, divided, AreFewer};
ghost use Rattle.jpg_dct.specs.Eights.{IsEight, AreQuotients, vector, quotient_at};

use crate::forward::blocks::ZIGZAG;
use crate::forward::lanes::Eight;
use std::simd::{i16x8, u16x8, u32x8};

// All lanes in order: of one vector, and of two one after the other.
const ALL: [usize; 8] = [0, 1, 2, 3, 4, 5, 6, 7];

const ALL_OF_TWO: [usize; 16] = [0, 1, 2, 3, 4, 5, 6, 7, 8, 9, 10, 11, 12, 13, 14, 15];

const ALL_OF_FOUR: [usize; 32] = [
    0, 1, 2, 3, 4, 5, 6, 7, 8, 9, 10, 11, 12, 13, 14, 15, 16, 17, 18, 19, 20, 21, 22, 23, 24, 25,
    26, 27, 28, 29, 30, 31,
];

// The magnitudes of numbers.
#[inline(always)]
fn sizes(x: i16x8) -> u16x8
    requires { IsEight 8192 x }
    ensures { (k : ℕ) → k < 8 → slice_index result k ≡ nat_abs (number_at x k) }
{
    x.swizzle(ALL).abs().cast::<u16>()
}

#[inline(always)]
fn sums(a: u16x8, b: u16x8) -> u16x8
    requires { (k : ℕ) → k < 8 → slice_index a k + slice_index b k < 65536 }
    ensures { (k : ℕ) → k < 8 → slice_index result k ≡ slice_index a k + slice_index b k }
{
    a.swizzle(ALL) + b.swizzle(ALL)
}

// The high halves of products.
#[inline(always)]
fn high_parts(a: u16x8, b: u16x8) -> u16x8
    ensures { (k : ℕ) → k < 8 → slice_index result k ≡ high_part (slice_index a k) (slice_index b k) }
{
    let products = a.swizzle(ALL).cast::<u32>() * b.swizzle(ALL).cast::<u32>();
    (products / u32x8::splat(65536)).cast::<u16>()
}

// Magnitudes with the signs of numbers: all bits of a sign mask are equal.
#[inline(always)]
fn signed(x: i16x8, sizes: u16x8) -> i16x8
    requires lanes { IsEight 8192 x }
    requires small { (k : ℕ) → k < 8 → slice_index sizes k ≤ 16384 }
    ensures all { IsEight 16384 result }
    ensures at { (k : ℕ) → k < 8 → number_at result k ≡ with_sign (number_at x k) (slice_index sizes k) }
{
    let plain = sizes.swizzle(ALL).cast::<i16>();
    let sign = x.swizzle(ALL) >> i16x8::splat(15);
    (plain ^ sign) - sign
}

// Row v of a table.
#[inline(always)]
fn table_part(table: &[u16; 64], v: usize) -> &[u16]
    requires { v < 8 }
    ensures long { length result.now ≡ 8 }
    ensures at { (k : ℕ) → k < 8 → slice_index result.now k ≡ slice_index table.now (8 * v + k) }
{
    &table[8 * v..8 * v + 8]
}

#[inline(always)]
fn table_row(table: &[u16; 64], v: usize) -> u16x8
    requires { v < 8 }
    ensures { (k : ℕ) → k < 8 → slice_index result k ≡ slice_index table.now (8 * v + k) }
{
    u16x8::from_slice(table_part(table, v))
}

// Row v of the coefficients, divided.
#[inline(always)]
fn quotients(
    x: i16x8,
    halves: &[u16; 64],
    factors: &[u16; 64],
    scales: &[u16; 64],
    v: usize,
) -> i16x8
    requires place { v < 8 }
    requires lanes { IsEight 8192 x }
    requires few { AreFewer halves.now scales.now }
    ensures all { IsEight 16384 result }
    ensures at { (k : ℕ) → k < 8 → number_at result k ≡ quotient_at (number_at x k) halves.now factors.now scales.now (8 * v + k) }
{
    let half = table_row(halves, v);
    let factor = table_row(factors, v);
    let scale = table_row(scales, v);
    let size = sizes(x);
    let more = sums(size, half);
    let part = high_parts(more, factor);
    let whole = high_parts(part, scale);
    signed(x, whole)
}

/// All rows, divided.
#[inline(always)]
pub(crate) fn divided_rows(
    d: Eight,
    halves: &[u16; 64],
    factors: &[u16; 64],
    scales: &[u16; 64],
) -> Eight
    requires lanes { (v : ℕ) → v < 8 → IsEight 8192 (vector d v) }
    requires few { AreFewer halves.now scales.now }
    ensures all { (v : ℕ) → v < 8 → IsEight 16384 (vector result v) }
    ensures at { AreQuotients d result halves.now factors.now scales.now }
{
    let v0 = quotients(d.v0, halves, factors, scales, 0);
    let v1 = quotients(d.v1, halves, factors, scales, 1);
    let v2 = quotients(d.v2, halves, factors, scales, 2);
    let v3 = quotients(d.v3, halves, factors, scales, 3);
    let v4 = quotients(d.v4, halves, factors, scales, 4);
    let v5 = quotients(d.v5, halves, factors, scales, 5);
    let v6 = quotients(d.v6, halves, factors, scales, 6);
    let v7 = quotients(d.v7, halves, factors, scales, 7);
    Eight {
        v0,
        v1,
        v2,
        v3,
        v4,
        v5,
        v6,
        v7,
    }
}

/// Rows in zigzag order (T.81, Figure A.6).
#[inline(always)]
pub(crate) fn in_zigzag(d: Eight) -> [i16; 64]
    requires { (v : ℕ) → v < 8 → IsEight 16384 (vector d v) }
    ensures { result ≡ map (λ n. number_at (vector d (n / 8)) (n % 8)) zigzag }
{
    let first = d.v0.shuffle::<16>(d.v1, ALL_OF_TWO);
    let second = d.v2.shuffle::<16>(d.v3, ALL_OF_TWO);
    let third = d.v4.shuffle::<16>(d.v5, ALL_OF_TWO);
    let fourth = d.v6.shuffle::<16>(d.v7, ALL_OF_TWO);
    let upper = first.shuffle::<32>(second, ALL_OF_FOUR);
    let lower = third.shuffle::<32>(fourth, ALL_OF_FOUR);
    let all = upper.shuffle::<64>(lower, ZIGZAG);
    *all.as_array()
}
