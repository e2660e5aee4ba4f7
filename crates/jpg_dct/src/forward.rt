//! The frequencies of a block of samples as a list (T.81, A.3.3).
ghost use Rattle.std.specs.Prelude.{◌≡◌};
ghost use Rattle.jpg_spec_image.specs.ForwardDct.{forward_dct};
ghost use Rattle.jpg_dct.specs.Lines.{AreWithin};

pub mod blocks;
pub mod eight_frequencies;
pub mod eight_quotients;
pub mod lanes;
pub mod quantising;
pub mod sample_columns;

use crate::forward::eight_frequencies::frequencies;

/// Eight times the coefficients of 64 samples, both in natural order: the rows, and then their columns.
pub fn fdct(samples: &[u8; 64]) -> [i32; 64]
    ensures value { result ≡ forward_dct samples.now }
    ensures small { AreWithin 8192 result }
{
    let f = frequencies(samples);
    let rows = [
        f.v0.to_array(),
        f.v1.to_array(),
        f.v2.to_array(),
        f.v3.to_array(),
        f.v4.to_array(),
        f.v5.to_array(),
        f.v6.to_array(),
        f.v7.to_array(),
    ];
    let mut out = [0; 64];
    for n in 0..64 {
        out[n] = i32::from(rows[n / 8][n % 8]);
    }
    out
}
