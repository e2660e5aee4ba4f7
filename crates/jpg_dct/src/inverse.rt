//! The samples of a block (T.81, A.3.3, F.2.1.5).
ghost use Rattle.std.specs.Prelude.{◌≡◌, ◌≤◌, ◌*ℤ◌, pos, All, nat_abs, max};
ghost use Rattle.jpg_spec_image.specs.Dct.{inverse_dct};

pub mod flat;
pub mod multipliers;
pub mod short;
pub mod wide;

/// A coefficient times its quantiser (T.81, A.3.4, F.2.1.4).
pub fn dequantise(value: i16, q: u16) -> i32
    ensures { result ≡ value *ℤ pos q }
{
    i32::from(value) * i32::from(q)
}

#[inline(always)]
fn larger(a: u32, b: u32) -> u32
    ensures { result ≡ max a b }
{
    if a < b { b } else { a }
}

// The greatest magnitude.
fn greatest(values: &[i32; 64]) -> u32
    ensures { All (λ x. nat_abs x ≤ result) values.now }
{
    let mut greatest = 0;
    for value in values {
        greatest = larger(greatest, value.unsigned_abs());
    }
    greatest
}

// Small numbers in 16 bits.
#[inline(always)]
fn shortened(values: &[i32; 64]) -> [i16; 64]
    requires { All (λ x. nat_abs x ≤ 1090) values.now }
    ensures { result ≡ values.now }
{
    let mut short = [0; 64];
    for n in 0..64 {
        short[n] = values[n] as i16;
    }
    short
}

/// The 64 samples of a block of dequantised coefficients, both in natural order (T.81, A.3.3).
pub fn idct(values: &[i32; 64]) -> [u8; 64]
    requires { All (λ x. nat_abs x ≤ 67108864) values.now }
    ensures { result ≡ inverse_dct values.now }
{
    let most = greatest(values);
    if most <= 1090 {
        *short::idct_short(&shortened(values)).as_array()
    } else {
        wide::block(values)
    }
}
