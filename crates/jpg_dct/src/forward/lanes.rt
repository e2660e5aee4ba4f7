//! The frequencies of eight lines at once (T.81, A.3.3): lane k of each vector is of line k.
ghost use Rattle.std.specs.Prelude.{◌≡◌, ◌+◌, ◌*◌, ◌<◌, ◌≤◌, ◌+ℤ◌, ◌-ℤ◌, ◌*ℤ◌, ℕ, ℤ, pos, map, nat_abs, length};
ghost use Rattle.std.specs.Int.{int_wrap, int_shr, w32};
ghost use Rattle.jpg_spec.specs.Lists.{below};
ghost use Rattle.jpg_spec_image.specs.Dct.{number_at, column_at, odd_sums};
ghost use Rattle.jpg_spec_image.specs.ForwardDct.{even_frequencies, frequency_column};
ghost use Rattle.jpg_dct.specs.Eights.{IsLine, HasRoom, quarter, IsEight, AreEight, vectors, vector, four_at, four_of, half_rounded, eighth};

use std::simd::{i16x8, i16x16, i32x8, i32x16};

// The interleaved lanes of two vectors, and their even and odd lanes.
const PAIRS: [usize; 16] = [0, 8, 1, 9, 2, 10, 3, 11, 4, 12, 5, 13, 6, 14, 7, 15];

const EVENS: [usize; 8] = [0, 2, 4, 6, 8, 10, 12, 14];

const ODDS: [usize; 8] = [1, 3, 5, 7, 9, 11, 13, 15];

// All lanes in order.
const ALL: [usize; 8] = [0, 1, 2, 3, 4, 5, 6, 7];

/// Eight vectors of eight numbers: v0 is of the first number of each line, v7 of the last.
#[derive(Clone, Copy)]
pub(crate) struct Eight {
    pub(crate) v0: i16x8,
    pub(crate) v1: i16x8,
    pub(crate) v2: i16x8,
    pub(crate) v3: i16x8,
    pub(crate) v4: i16x8,
    pub(crate) v5: i16x8,
    pub(crate) v6: i16x8,
    pub(crate) v7: i16x8,
}

/// Four vectors of eight numbers, those of four of the eight.
#[derive(Clone, Copy)]
pub(crate) struct Four {
    pub(crate) v0: i16x8,
    pub(crate) v1: i16x8,
    pub(crate) v2: i16x8,
    pub(crate) v3: i16x8,
}

/// The factors of four numbers whose products are added, in their order.
#[derive(Clone, Copy)]
pub(crate) struct Factors(
    pub(crate) i32,
    pub(crate) i32,
    pub(crate) i32,
    pub(crate) i32,
);

// Sums and differences of small numbers.
#[inline(always)]
fn plus(a: i16x8, b: i16x8) -> i16x8
    requires { (IsEight 8192 a) × (IsEight 8192 b) }
    ensures long { length result ≡ 8 }
    ensures at { (k : ℕ) → k < 8 → number_at result k ≡ number_at a k +ℤ number_at b k }
{
    a.swizzle(ALL) + b.swizzle(ALL)
}

#[inline(always)]
fn minus(a: i16x8, b: i16x8) -> i16x8
    requires { (IsEight 8192 a) × (IsEight 8192 b) }
    ensures long { length result ≡ 8 }
    ensures at { (k : ℕ) → k < 8 → number_at result k ≡ number_at a k -ℤ number_at b k }
{
    a.swizzle(ALL) - b.swizzle(ALL)
}

// Two products of each lane, added in 32 bits.
#[inline(always)]
pub(crate) fn dots(a: i16x8, b: i16x8, k: i32, l: i32) -> i32x8
    requires { (IsEight 32767 a) × (IsEight 32767 b) }
    ensures long { length result ≡ 8 }
    ensures at { (i : ℕ) → i < 8 → number_at result i ≡ int_wrap w32 ((number_at a i *ℤ k) +ℤ (number_at b i *ℤ l)) }
{
    let m = a.shuffle(b, PAIRS).cast::<i32>()
        * i32x16::from_array([k, l, k, l, k, l, k, l, k, l, k, l, k, l, k, l]);
    m.swizzle(EVENS) + m.swizzle(ODDS)
}

// Sums of 32 bits, each right in its low ones.
#[inline(always)]
pub(crate) fn both(a: i32x8, b: i32x8) -> i32x8
    requires { (length a ≡ 8) × (length b ≡ 8) }
    ensures long { length result ≡ 8 }
    ensures at { (i : ℕ) → i < 8 → (x y : ℤ) → number_at a i ≡ int_wrap w32 x → number_at b i ≡ int_wrap w32 y → number_at result i ≡ int_wrap w32 (x +ℤ y) }
{
    a.swizzle(ALL) + b.swizzle(ALL)
}

// Doubled frequencies, as eight times coefficients.
#[inline(always)]
fn rounded(x: i32x8) -> i16x8
    requires { IsEight 536870912 x }
    ensures all { IsEight 8192 result }
    ensures at { (i : ℕ) → i < 8 → number_at result i ≡ int_shr (number_at x i +ℤ pos 32768) 16 }
{
    ((x.swizzle(ALL) + i32x8::splat(32768)) >> i32x8::splat(16)).cast::<i16>()
}

// Two products of each lane, rounded.
#[inline(always)]
fn two_products(a: i16x8, b: i16x8, k: i32, l: i32) -> i16x8
    requires lanes { (IsEight 16384 a) × (IsEight 16384 b) }
    requires factors { nat_abs k + nat_abs l ≤ 32768 }
    ensures all { IsEight 8192 result }
    ensures at { (i : ℕ) → i < 8 → number_at result i ≡ half_rounded ((number_at a i *ℤ k) +ℤ (number_at b i *ℤ l)) }
{
    rounded(dots(a, b, k, l))
}

// Four products of each lane, rounded.
#[inline(always)]
fn four_products(v: Four, factors: Factors) -> i16x8
    requires lanes { AreEight 8192 v }
    requires factors { (nat_abs factors.0 + nat_abs factors.1) + (nat_abs factors.2 + nat_abs factors.3) ≤ 65536 }
    ensures all { IsEight 8192 result }
    ensures at { (i : ℕ) → i < 8 → number_at result i ≡ half_rounded (four_of v factors i) }
{
    let first = dots(v.v0, v.v1, factors.0, factors.1);
    let second = dots(v.v2, v.v3, factors.2, factors.3);
    rounded(both(first, second))
}

// A quarter of sums, rounded.
#[inline(always)]
fn quarter_sums(a: i16x8, b: i16x8) -> i16x8
    requires lanes { (IsEight 16384 a) × (IsEight 16384 b) }
    requires room { (k : ℕ) → k < 8 → HasRoom (number_at a k +ℤ number_at b k) }
    ensures all { IsEight 8192 result }
    ensures at { (k : ℕ) → k < 8 → number_at result k ≡ quarter (number_at a k +ℤ number_at b k) }
{
    (a.swizzle(ALL) + b.swizzle(ALL) + i16x8::splat(2)) >> i16x8::splat(2)
}

// A quarter of differences, rounded.
#[inline(always)]
fn quarter_differences(a: i16x8, b: i16x8) -> i16x8
    requires lanes { (IsEight 16384 a) × (IsEight 16384 b) }
    requires room { (k : ℕ) → k < 8 → HasRoom (number_at a k -ℤ number_at b k) }
    ensures all { IsEight 8192 result }
    ensures at { (k : ℕ) → k < 8 → number_at result k ≡ quarter (number_at a k -ℤ number_at b k) }
{
    (a.swizzle(ALL) - b.swizzle(ALL) + i16x8::splat(2)) >> i16x8::splat(2)
}

// The even frequencies, from the sums of pairs.
#[inline(always)]
fn even(p0: i16x8, p1: i16x8, p2: i16x8, p3: i16x8) -> Four
    requires lanes { (IsEight 8192 p0) × (IsEight 8192 p1) × (IsEight 8192 p2) × (IsEight 8192 p3) }
    requires sums { (k : ℕ) → k < 8 → HasRoom ((number_at p0 k +ℤ number_at p3 k) +ℤ (number_at p1 k +ℤ number_at p2 k)) }
    requires gaps { (k : ℕ) → k < 8 → HasRoom ((number_at p0 k +ℤ number_at p3 k) -ℤ (number_at p1 k +ℤ number_at p2 k)) }
    ensures all { AreEight 8192 result }
    ensures at { (k : ℕ) → k < 8 → four_at result k ≡ map eighth (even_frequencies (number_at p0 k) (number_at p1 k) (number_at p2 k) (number_at p3 k)) }
{
    let q0 = plus(p0, p3);
    let q1 = plus(p1, p2);
    let q2 = minus(p1, p2);
    let q3 = minus(p0, p3);
    let v0 = quarter_sums(q0, q1);
    let v1 = two_products(q3, q2, 21406, 8866);
    let v2 = quarter_differences(q0, q1);
    let v3 = two_products(q3, q2, 8866, -21408);
    Four { v0, v1, v2, v3 }
}

// The odd frequencies, from the differences of pairs, the highest first.
#[inline(always)]
fn odd(m0: i16x8, m1: i16x8, m2: i16x8, m3: i16x8) -> Four
    requires { (IsEight 8192 m0) × (IsEight 8192 m1) × (IsEight 8192 m2) × (IsEight 8192 m3) }
    ensures all { AreEight 8192 result }
    ensures at { (k : ℕ) → k < 8 → four_at result k ≡ map eighth (odd_sums (number_at m0 k) (number_at m1 k) (number_at m2 k) (number_at m3 k)) }
{
    let m = Four {
        v0: m0,
        v1: m1,
        v2: m2,
        v3: m3,
    };
    let v0 = four_products(m, Factors(4520, -12872, 19266, -22726));
    let v1 = four_products(m, Factors(12874, -22724, 4522, 19266));
    let v2 = four_products(m, Factors(19266, -4518, -22724, -12872));
    let v3 = four_products(m, Factors(22726, 19266, 12874, 4520));
    Four { v0, v1, v2, v3 }
}

// The frequencies of eight lines at once.
#[inline(always)]
pub(crate) fn lines(d: Eight) -> Eight
    requires { (u : ℕ) → u < 8 → IsLine (vector d u) }
    ensures all { (u : ℕ) → u < 8 → IsEight 8192 (vector result u) }
    ensures at { (k : ℕ) → k < 8 → map (column_at (vectors result) k) (below 8) ≡ frequency_column (vectors d) k }
{
    let p0 = plus(d.v0, d.v7);
    let p1 = plus(d.v1, d.v6);
    let p2 = plus(d.v2, d.v5);
    let p3 = plus(d.v3, d.v4);
    let m0 = minus(d.v0, d.v7);
    let m1 = minus(d.v1, d.v6);
    let m2 = minus(d.v2, d.v5);
    let m3 = minus(d.v3, d.v4);
    let e = even(p0, p1, p2, p3);
    let o = odd(m0, m1, m2, m3);
    Eight {
        v0: e.v0,
        v1: o.v3,
        v2: e.v1,
        v3: o.v2,
        v4: e.v2,
        v5: o.v1,
        v6: e.v3,
        v7: o.v0,
    }
}

// The vectors transposed.
#[inline(always)]
pub(crate) fn turned(d: Eight) -> Eight
    requires { (u : ℕ) → u < 8 → IsEight 32767 (vector d u) }
    ensures long { (v : ℕ) → v < 8 → length (vector result v) ≡ 8 }
    ensures at { (u v : ℕ) → u < 8 → v < 8 → number_at (vector result v) u ≡ number_at (vector d u) v }
{
    let (a0, a1) = d.v0.interleave(d.v4);
    let (b0, b1) = d.v1.interleave(d.v5);
    let (c0, c1) = d.v2.interleave(d.v6);
    let (e0, e1) = d.v3.interleave(d.v7);
    let (f0, f1) = a0.interleave(c0);
    let (f2, f3) = a1.interleave(c1);
    let (g0, g1) = b0.interleave(e0);
    let (g2, g3) = b1.interleave(e1);
    let (v0, v1) = f0.interleave(g0);
    let (v2, v3) = f1.interleave(g1);
    let (v4, v5) = f2.interleave(g2);
    let (v6, v7) = f3.interleave(g3);
    Eight {
        v0,
        v1,
        v2,
        v3,
        v4,
        v5,
        v6,
        v7,
    }
}
