//! Blocks of coefficients as blocks of samples (T.81, A.3.3, A.3.4, F.2.1.4, F.2.1.5).
ghost use Rattle.std.specs.Prelude.{◌≡◌, ◌<◌, ◌≤◌, ◌*ℤ◌, ℕ, pos, nat_abs, All, length, slice_index};
ghost use Rattle.jpg_spec_image.specs.Dct.{number_at, dequantised, inverse_dct};

use jpg_base::{Block, QuantTable};
use jpg_dct::{Multipliers, dequantise, flat_lanes};
use std::simd::u8x64;

// The numbers of a block.
#[inline(always)]
fn numbers(block: &Block) -> [i16; 64]
    ensures value { result ≡ block.now }
    ensures long { length result ≡ 64 }
{
    block.long();
    let mut values = [0; 64];
    for k in 0..64 {
        values[k as usize] = block.get(k);
    }
    values
}

// The numbers of a block whose first ten alone aren't 0. The others are written as 0, so that nothing is computed of them.
#[inline(always)]
fn first_ten(block: &Block) -> [i16; 64]
    requires { (k : ℕ) → 10 ≤ k → k < 64 → number_at block.now k ≡ pos 0 }
    ensures value { result ≡ block.now }
    ensures long { length result ≡ 64 }
{
    block.long();
    let mut values = [0; 64];
    for k in 0..10 {
        values[k as usize] = block.get(k);
    }
    values
}

// The first coefficient times its quantiser.
#[inline(always)]
fn first(block: &Block, quants: &QuantTable) -> i32
    requires small { All (λ x. nat_abs x ≤ 1024) block.now }
    ensures value { result ≡ number_at block.now 0 *ℤ pos (slice_index quants.now 0) }
    ensures bound { nat_abs result ≤ 67108864 }
{
    dequantise(block.get(0), quants.get(0))
}

/// The 64 samples of a block, row by row, by its quantisers, given also prepared for multiplication.
#[inline(always)]
pub(crate) fn samples_by(block: &Block, quants: &QuantTable, steps: &Multipliers) -> u8x64
    requires small { All (λ x. nat_abs x ≤ 1024) block.now }
    requires steps { steps.now ≡ quants.now }
    ensures { result ≡ inverse_dct (dequantised quants.now block.now) }
{
    let nonzero = block.nonzero();
    // only the first coefficient isn't 0
    if nonzero < 2 {
        return flat_lanes(first(block, quants));
    }
    if nonzero < 1024 {
        return steps.corner(&first_ten(block));
    }
    steps.block(&numbers(block))
}

/// The 64 samples of a block, row by row.
pub fn block_samples(block: &Block, quants: &QuantTable) -> [u8; 64]
    requires { All (λ x. nat_abs x ≤ 1024) block.now }
    ensures { result ≡ inverse_dct (dequantised quants.now block.now) }
{
    *samples_by(block, quants, &Multipliers::new(&quants.values())).as_array()
}
