//! The columns of a block of samples, as vectors.
ghost use Rattle.std.specs.Prelude.{◌≡◌, ◌+◌, ◌*◌, ◌<◌, ◌*ℤ◌, ℕ, pos, length, slice_index};
ghost use Rattle.jpg_spec_image.specs.Dct.{number_at};
ghost use Rattle.jpg_spec_image.specs.ForwardDct.{level};
ghost use Rattle.jpg_dct.specs.Eights.{IsEight, IsRow, vector};

use crate::forward::lanes::Eight;
use std::simd::{i16x8, u8x8};

// The interleaved bytes of two vectors.
const PAIRS: [usize; 16] = [0, 8, 1, 9, 2, 10, 3, 11, 4, 12, 5, 13, 6, 14, 7, 15];

const FIRST: [usize; 8] = [0, 1, 2, 3, 4, 5, 6, 7];

const SECOND: [usize; 8] = [8, 9, 10, 11, 12, 13, 14, 15];

// States, for proofs, that a sample fits its type. It does nothing.
#[inline(always)]
fn fits(sample: u8)
    ensures { sample < 256 }
{
    let _ = sample;
}

// States, for proofs, that all samples fit their type. It does nothing.
#[inline(always)]
fn all_fit(samples: &[u8])
    requires { length samples.now ≡ 8 }
    ensures { (k : ℕ) → k < 8 → slice_index samples.now k < 256 }
{
    for k in 0..8 {
        fits(samples[k]);
    }
}

// Row v of 64 samples.
#[inline(always)]
fn part(samples: &[u8; 64], v: usize) -> &[u8]
    requires { v < 8 }
    ensures long { length result.now ≡ 8 }
    ensures at { (k : ℕ) → k < 8 → slice_index result.now k ≡ slice_index samples.now (8 * v + k) }
{
    &samples[8 * v..8 * v + 8]
}

// Row v of 64 samples, as a vector.
#[inline(always)]
fn row(samples: &[u8; 64], v: usize) -> u8x8
    requires { v < 8 }
    ensures { IsRow samples.now v result }
{
    let eight = part(samples, v);
    all_fit(eight);
    u8x8::from_slice(eight)
}

/// Sixteen times the difference of each sample and 128: vector u is column u.
#[inline(always)]
pub(crate) fn levels(s: &[u8; 64]) -> Eight
    ensures all { (u : ℕ) → u < 8 → IsEight 2048 (vector result u) }
    ensures at { (u v : ℕ) → u < 8 → v < 8 → number_at (vector result u) v ≡ (level s.now (8 * v + u)) *ℤ pos 16 }
{
    let r0 = row(s, 0);
    let r1 = row(s, 1);
    let r2 = row(s, 2);
    let r3 = row(s, 3);
    let r4 = row(s, 4);
    let r5 = row(s, 5);
    let r6 = row(s, 6);
    let r7 = row(s, 7);
    let a = r0.shuffle::<16>(r4, PAIRS);
    let b = r1.shuffle::<16>(r5, PAIRS);
    let c = r2.shuffle::<16>(r6, PAIRS);
    let d = r3.shuffle::<16>(r7, PAIRS);
    let (e0, e1) = a.interleave(c);
    let (f0, f1) = b.interleave(d);
    let (g0, g1) = e0.interleave(f0);
    let (g2, g3) = e1.interleave(f1);
    let sixteen = i16x8::splat(16);
    let middle = i16x8::splat(2048);
    Eight {
        v0: g0.swizzle(FIRST).cast::<i16>() * sixteen - middle,
        v1: g0.swizzle(SECOND).cast::<i16>() * sixteen - middle,
        v2: g1.swizzle(FIRST).cast::<i16>() * sixteen - middle,
        v3: g1.swizzle(SECOND).cast::<i16>() * sixteen - middle,
        v4: g2.swizzle(FIRST).cast::<i16>() * sixteen - middle,
        v5: g2.swizzle(SECOND).cast::<i16>() * sixteen - middle,
        v6: g3.swizzle(FIRST).cast::<i16>() * sixteen - middle,
        v7: g3.swizzle(SECOND).cast::<i16>() * sixteen - middle,
    }
}
