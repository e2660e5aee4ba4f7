//! A block whose only coefficient is the first one: its samples are equal (T.81, A.3.3).
ghost use Rattle.std.specs.Prelude.{◌≡◌, ◌≤◌, ◌<◌, ◌∷◌, ◌+ℤ◌, pos, nat_abs, replicate};
ghost use Rattle.std.specs.Int.{int_shr};
ghost use Rattle.jpg_spec_image.specs.Dct.{ranged, sample_of, inverse_dct};

use std::simd::u8x64;

// A number modulo 1024, as a sample.
#[inline(always)]
fn in_range(m: u32) -> u8
    requires { m < 1024 }
    ensures { result ≡ ranged m }
{
    (((m + 512) % 1024).clamp(384, 639) - 384) as u8
}

// An eighth of the coefficient.
#[inline(always)]
fn sample(dc: i32) -> u8
    requires { nat_abs dc ≤ 67108864 }
    ensures { result ≡ sample_of (int_shr (dc +ℤ pos 4) 3) }
{
    in_range(((dc + 4) >> 3).rem_euclid(1024) as u32)
}

/// The 64 samples of a block of dequantised coefficients with `dc` as the first, and 0 as the others.
pub fn flat_block(dc: i32) -> [u8; 64]
    requires { nat_abs dc ≤ 67108864 }
    ensures { result ≡ inverse_dct (dc ∷ replicate 63 (pos 0)) }
{
    [sample(dc); 64]
}

/// The same samples, as one vector.
#[inline(always)]
pub fn flat_lanes(dc: i32) -> u8x64
    requires { nat_abs dc ≤ 67108864 }
    ensures { result ≡ inverse_dct (dc ∷ replicate 63 (pos 0)) }
{
    u8x64::splat(sample(dc))
}
