//! The samples of a block of small coefficients by vectors: all columns at once, and then all rows (T.81, A.3.3).
ghost use Rattle.std.specs.Prelude.{◌≡◌, List, ◌+◌, ◌-◌, ◌*◌, ◌/◌, ◌%◌, ◌^◌, ◌<◌, ◌≤◌, ◌+ℤ◌, ◌-ℤ◌, ℕ, ℤ, pos, map, flat_map, All, nat_abs, length, slice_index};
ghost use Rattle.std.specs.Int.{int_wrap, int_shr, cast_unsigned, w32};
ghost use Rattle.jpg_spec.specs.Lists.{below};
ghost use Rattle.jpg_spec_image.specs.Dct.{number_at, even_sums, odd_sums, inverse_dct};
ghost use Rattle.jpg_dct.specs.Eights.{IsEight, AreEight, vector, four_of};
ghost use Rattle.jpg_dct.specs.Sums.{AreColumns, AreWords, AreLong, AreFourLong, IsCorner, sums_at, four_sums_at, line_at, lane_at, wrapped_more, column_number, low_of, limited_of, told_at, told_row};
ghost use Rattle.jpg_dct.specs.LowBits.{natural_of};

use crate::forward::lanes::{Eight, Factors, Four, both, dots, turned};
use std::simd::cmp::SimdOrd;
use std::simd::{i16x8, i32x8, u8x16, u8x64, u16x8};

// All lanes in order: of one vector, and of two, four and eight one after the other.
const ALL: [usize; 8] = [0, 1, 2, 3, 4, 5, 6, 7];

const ALL_OF_TWO: [usize; 16] = [0, 1, 2, 3, 4, 5, 6, 7, 8, 9, 10, 11, 12, 13, 14, 15];

const ALL_OF_FOUR: [usize; 32] = [
    0, 1, 2, 3, 4, 5, 6, 7, 8, 9, 10, 11, 12, 13, 14, 15, 16, 17, 18, 19, 20, 21, 22, 23, 24, 25,
    26, 27, 28, 29, 30, 31,
];

const ALL_OF_EIGHT: [usize; 64] = [
    0, 1, 2, 3, 4, 5, 6, 7, 8, 9, 10, 11, 12, 13, 14, 15, 16, 17, 18, 19, 20, 21, 22, 23, 24, 25,
    26, 27, 28, 29, 30, 31, 32, 33, 34, 35, 36, 37, 38, 39, 40, 41, 42, 43, 44, 45, 46, 47, 48, 49,
    50, 51, 52, 53, 54, 55, 56, 57, 58, 59, 60, 61, 62, 63,
];

/// Eight vectors of eight sums: v0 is of the first sum of each line, v7 of the last.
#[derive(Clone, Copy)]
struct Sums {
    v0: i32x8,
    v1: i32x8,
    v2: i32x8,
    v3: i32x8,
    v4: i32x8,
    v5: i32x8,
    v6: i32x8,
    v7: i32x8,
}

// Four vectors of eight sums, those of four of the eight.
#[derive(Clone, Copy)]
struct FourSums {
    v0: i32x8,
    v1: i32x8,
    v2: i32x8,
    v3: i32x8,
}

// Differences of 32 bits, each right in its low ones.
#[inline(always)]
fn less(a: i32x8, b: i32x8) -> i32x8
    requires { (length a ≡ 8) × (length b ≡ 8) }
    ensures long { length result ≡ 8 }
    ensures at { (i : ℕ) → i < 8 → (x y : ℤ) → number_at a i ≡ int_wrap w32 x → number_at b i ≡ int_wrap w32 y → number_at result i ≡ int_wrap w32 (x -ℤ y) }
{
    a.swizzle(ALL) - b.swizzle(ALL)
}

// A number added to each.
#[inline(always)]
fn more(a: i32x8, n: i32) -> i32x8
    requires { length a ≡ 8 }
    ensures long { length result ≡ 8 }
    ensures at { (i : ℕ) → i < 8 → (x : ℤ) → number_at a i ≡ int_wrap w32 x → number_at result i ≡ int_wrap w32 (x +ℤ n) }
{
    a.swizzle(ALL) + i32x8::splat(n)
}

// Four products of each lane, added in 32 bits.
#[inline(always)]
fn four_products(v: Four, factors: Factors) -> i32x8
    requires { AreEight 32767 v }
    ensures long { length result ≡ 8 }
    ensures at { (i : ℕ) → i < 8 → number_at result i ≡ int_wrap w32 (four_of v factors i) }
{
    let first = dots(v.v0, v.v1, factors.0, factors.1);
    let second = dots(v.v2, v.v3, factors.2, factors.3);
    both(first, second)
}

// The sums of the even frequencies, with `half` added to each.
#[inline(always)]
fn even(i0: i16x8, i2: i16x8, i4: i16x8, i6: i16x8, half: i32) -> FourSums
    requires { (IsEight 32767 i0) × (IsEight 32767 i2) × (IsEight 32767 i4) × (IsEight 32767 i6) }
    ensures long { AreFourLong result }
    ensures at { (k : ℕ) → k < 8 → four_sums_at result k ≡ map (wrapped_more half) (even_sums (number_at i0 k) (number_at i2 k) (number_at i4 k) (number_at i6 k)) }
{
    let i = Four {
        v0: i0,
        v1: i2,
        v2: i4,
        v3: i6,
    };
    let b0 = four_products(i, Factors(8192, 10703, 8192, 4433));
    let b1 = four_products(i, Factors(8192, 4433, -8192, -10704));
    let b2 = four_products(i, Factors(8192, -4433, -8192, 10704));
    let b3 = four_products(i, Factors(8192, -10703, 8192, -4433));
    let v0 = more(b0, half);
    let v1 = more(b1, half);
    let v2 = more(b2, half);
    let v3 = more(b3, half);
    FourSums { v0, v1, v2, v3 }
}

// The sums of the odd frequencies.
#[inline(always)]
fn odd(i1: i16x8, i3: i16x8, i5: i16x8, i7: i16x8) -> FourSums
    requires { (IsEight 32767 i1) × (IsEight 32767 i3) × (IsEight 32767 i5) × (IsEight 32767 i7) }
    ensures long { AreFourLong result }
    ensures at { (k : ℕ) → k < 8 → four_sums_at result k ≡ map (int_wrap w32) (odd_sums (number_at i1 k) (number_at i3 k) (number_at i5 k) (number_at i7 k)) }
{
    let i = Four {
        v0: i1,
        v1: i3,
        v2: i5,
        v3: i7,
    };
    let v0 = four_products(i, Factors(2260, -6436, 9633, -11363));
    let v1 = four_products(i, Factors(6437, -11362, 2261, 9633));
    let v2 = four_products(i, Factors(9633, -2259, -11362, -6436));
    let v3 = four_products(i, Factors(11363, 9633, 6437, 2260));
    FourSums { v0, v1, v2, v3 }
}

// The sums of eight lines at once, with `half` added to each: lane k of each vector is of line k.
#[inline(always)]
fn lines(d: Eight, half: i32) -> Sums
    requires { (v : ℕ) → v < 8 → IsEight 32767 (vector d v) }
    ensures long { AreLong result }
    ensures at { (k : ℕ) → k < 8 → sums_at result k ≡ map (wrapped_more half) (line_at d k) }
{
    let b = even(d.v0, d.v2, d.v4, d.v6, half);
    let o = odd(d.v1, d.v3, d.v5, d.v7);
    let v0 = both(b.v0, o.v3);
    let v1 = both(b.v1, o.v2);
    let v2 = both(b.v2, o.v1);
    let v3 = both(b.v3, o.v0);
    let v4 = less(b.v3, o.v0);
    let v5 = less(b.v2, o.v1);
    let v6 = less(b.v1, o.v2);
    let v7 = less(b.v0, o.v3);
    Sums {
        v0,
        v1,
        v2,
        v3,
        v4,
        v5,
        v6,
        v7,
    }
}

// Sums of columns, as four times samples.
#[inline(always)]
fn rounded(x: i32x8) -> i16x8
    requires { IsEight 67106816 x }
    ensures all { IsEight 32767 result }
    ensures at { (k : ℕ) → k < 8 → number_at result k ≡ int_shr (number_at x k) 11 }
{
    (x.swizzle(ALL) >> i32x8::splat(11)).cast::<i16>()
}

// The columns: vector v has number v of each.
#[inline(always)]
fn columns(d: Eight) -> Eight
    requires { (v : ℕ) → v < 8 → IsEight 1090 (vector d v) }
    ensures all { (v : ℕ) → v < 8 → IsEight 32767 (vector result v) }
    ensures at { (k : ℕ) → k < 8 → lane_at result k ≡ map column_number (line_at d k) }
{
    let s = lines(d, 1024);
    let v0 = rounded(s.v0);
    let v1 = rounded(s.v1);
    let v2 = rounded(s.v2);
    let v3 = rounded(s.v3);
    let v4 = rounded(s.v4);
    let v5 = rounded(s.v5);
    let v6 = rounded(s.v6);
    let v7 = rounded(s.v7);
    Eight {
        v0,
        v1,
        v2,
        v3,
        v4,
        v5,
        v6,
        v7,
    }
}

// The bits of sums of rows that determine the samples.
#[inline(always)]
fn lows(x: i32x8) -> u16x8
    requires { AreWords x }
    ensures { (k : ℕ) → k < 8 → slice_index result k ≡ low_of (number_at x k) }
{
    let high = (x.swizzle(ALL) >> i32x8::splat(18)).cast::<i16>();
    (high & i16x8::splat(1023)).cast::<u16>()
}

// Differences, 0 where they were below it.
#[inline(always)]
fn excess(a: u16x8, b: u16x8) -> u16x8
    ensures { (k : ℕ) → k < 8 → slice_index result k ≡ slice_index a k - slice_index b k }
{
    a.swizzle(ALL).saturating_sub(b.swizzle(ALL))
}

// Such bits, as samples.
#[inline(always)]
fn limited(m: u16x8) -> u16x8
    ensures { (k : ℕ) → k < 8 → slice_index result k ≡ limited_of (slice_index m k) }
{
    let most = u16x8::splat(255);
    let over = excess(m, u16x8::splat(384));
    let rest = excess(most, over);
    excess(most, rest)
}

// Two vectors of samples as one.
#[inline(always)]
fn joined(a: u16x8, b: u16x8) -> u8x16
    requires { (k : ℕ) → k < 8 → (slice_index a k < 256) × (slice_index b k < 256) }
    ensures long { length result ≡ 16 }
    ensures first { (k : ℕ) → k < 8 → slice_index result k ≡ slice_index a k }
    ensures second { (k : ℕ) → k < 8 → slice_index result (8 + k) ≡ slice_index b k }
{
    a.shuffle::<16>(b, ALL_OF_TWO).cast::<u8>()
}

// Sums of rows, as samples.
#[inline(always)]
fn samples(a: i32x8, b: i32x8) -> u8x16
    requires { (AreWords a) × (AreWords b) }
    ensures long { length result ≡ 16 }
    ensures first { (k : ℕ) → k < 8 → slice_index result k ≡ told_at (number_at a k) }
    ensures second { (k : ℕ) → k < 8 → slice_index result (8 + k) ≡ told_at (number_at b k) }
{
    let low_a = lows(a);
    let low_b = lows(b);
    let first = limited(low_a);
    let second = limited(low_b);
    joined(first, second)
}

// Samples column by column, as a block.
#[inline(always)]
fn block_of(p0: u8x16, p1: u8x16, p2: u8x16, p3: u8x16) -> u8x64
    requires { (length p0 ≡ 16) × (length p1 ≡ 16) × (length p2 ≡ 16) × (length p3 ≡ 16) }
    ensures { result ≡ flat_map (told_row p0 p1 p2 p3) (below 8) }
{
    let (a, b) = p0.interleave(p2);
    let (c, d) = p1.interleave(p3);
    let (e0, e1) = a.interleave(c);
    let (f0, f1) = b.interleave(d);
    let (g0, g1) = e0.interleave(f0);
    let (g2, g3) = e1.interleave(f1);
    let upper = g0.shuffle::<32>(g1, ALL_OF_FOUR);
    let lower = g2.shuffle::<32>(g3, ALL_OF_FOUR);
    upper.shuffle::<64>(lower, ALL_OF_EIGHT)
}

// Row v of 64 coefficients.
#[inline(always)]
fn part(values: &[i16; 64], v: usize) -> &[i16]
    requires { v < 8 }
    ensures long { length result.now ≡ 8 }
    ensures at { (k : ℕ) → k < 8 → number_at result.now k ≡ number_at values.now (8 * v + k) }
{
    &values[8 * v..8 * v + 8]
}

#[inline(always)]
fn row(values: &[i16; 64], v: usize) -> i16x8
    requires place { v < 8 }
    requires small { All (λ x. nat_abs x ≤ 1090) values.now }
    ensures all { IsEight 1090 result }
    ensures at { (k : ℕ) → k < 8 → number_at result k ≡ number_at values.now (8 * v + k) }
{
    i16x8::from_slice(part(values, v))
}

#[inline(always)]
fn rows(values: &[i16; 64]) -> Eight
    requires { All (λ x. nat_abs x ≤ 1090) values.now }
    ensures all { (v : ℕ) → v < 8 → IsEight 1090 (vector result v) }
    ensures at { (u v : ℕ) → u < 8 → v < 8 → number_at (vector result v) u ≡ number_at values.now (8 * v + u) }
{
    let v0 = row(values, 0);
    let v1 = row(values, 1);
    let v2 = row(values, 2);
    let v3 = row(values, 3);
    let v4 = row(values, 4);
    let v5 = row(values, 5);
    let v6 = row(values, 6);
    let v7 = row(values, 7);
    Eight {
        v0,
        v1,
        v2,
        v3,
        v4,
        v5,
        v6,
        v7,
    }
}

// Eight zeros.
#[inline(always)]
fn none() -> i16x8
    ensures all { IsEight 0 result }
    ensures at { (k : ℕ) → k < 8 → number_at result k ≡ pos 0 }
{
    i16x8::splat(0)
}

// The rows of a block, of which the last four are zero.
#[inline(always)]
fn upper_rows(values: &[i16; 64]) -> Eight
    requires small { All (λ x. nat_abs x ≤ 1090) values.now }
    requires corner { IsCorner values.now }
    ensures all { (v : ℕ) → v < 8 → IsEight 1090 (vector result v) }
    ensures at { (u v : ℕ) → u < 8 → v < 8 → number_at (vector result v) u ≡ number_at values.now (8 * v + u) }
{
    let v0 = row(values, 0);
    let v1 = row(values, 1);
    let v2 = row(values, 2);
    let v3 = row(values, 3);
    let zero = none();
    Eight {
        v0,
        v1,
        v2,
        v3,
        v4: zero,
        v5: zero,
        v6: zero,
        v7: zero,
    }
}

// Columns transposed, of which the last four are zero: vector u is of column u.
#[inline(always)]
fn left_turned(d: Eight) -> Eight
    requires small { (v : ℕ) → v < 8 → IsEight 32767 (vector d v) }
    requires zero { (u v : ℕ) → 4 ≤ u → u < 8 → v < 8 → number_at (vector d v) u ≡ pos 0 }
    ensures all { (u : ℕ) → u < 8 → IsEight 32767 (vector result u) }
    ensures at { (u v : ℕ) → u < 8 → v < 8 → number_at (vector result u) v ≡ number_at (vector d v) u }
{
    let t = turned(d);
    let zero = none();
    Eight {
        v0: t.v0,
        v1: t.v1,
        v2: t.v2,
        v3: t.v3,
        v4: zero,
        v5: zero,
        v6: zero,
        v7: zero,
    }
}

// The samples of a block, row by row, from its columns.
#[inline(always)]
fn shown(across: Eight) -> u8x64
    requires { (u : ℕ) → u < 8 → IsEight 32767 (vector across u) }
    ensures { (values : List ℤ) → AreColumns values across → result ≡ inverse_dct values }
{
    // half a sample, and 512 of them: what is below 0 is so too after the division by 1024
    let s = lines(across, 134348800);
    let p0 = samples(s.v0, s.v1);
    let p1 = samples(s.v2, s.v3);
    let p2 = samples(s.v4, s.v5);
    let p3 = samples(s.v6, s.v7);
    block_of(p0, p1, p2, p3)
}

/// The 64 samples of a block of dequantised coefficients, both in natural order.
#[inline(always)]
pub(crate) fn idct_short(values: &[i16; 64]) -> u8x64
    requires { All (λ x. nat_abs x ≤ 1090) values.now }
    ensures { result ≡ inverse_dct values.now }
{
    let given = rows(values);
    let done = columns(given);
    let across = turned(done);
    shown(across)
}

/// The same of a block that has only coefficients of the first four rows and columns.
#[inline(always)]
pub(crate) fn idct_corner(values: &[i16; 64]) -> u8x64
    requires small { All (λ x. nat_abs x ≤ 1090) values.now }
    requires corner { IsCorner values.now }
    ensures { result ≡ inverse_dct values.now }
{
    let given = upper_rows(values);
    let done = columns(given);
    let across = left_turned(done);
    shown(across)
}
