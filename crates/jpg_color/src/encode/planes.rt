//! Planes of an image, downsampled row by row, and their blocks (T.81, A.1.1, A.2).
ghost use Rattle.std.specs.Prelude.{◌≡◌, ◌+◌, ◌-◌, ◌*◌, ◌≤◌, ◌<◌, ℕ, length, slice_index, take, ◌++◌};
ghost use Rattle.jpg_spec_image.specs.Downsampling.{in_rows};
ghost use Rattle.jpg_spec_encode.specs.Encoded.{samples_of_block};
ghost use Rattle.jpg_color.specs.ColourRows.{numbers_of_pixel, row_component};

use crate::encode::ycc::{blue_row, gray_row, red_row};
use jpg_spec_image::ImageKind;
use std::simd::u8x8;

/// Component `i` of a row of an image: gray as it is, otherwise luminance or one of the two chrominance components.
#[tactic(auto, using(crate::proofs::CutBlocks::gray_is), unfolding(crate::specs::ColourRows::row_component))]
pub fn component_row(kind: ImageKind, row: &[u8], i: u8, out: &mut [u8])
    requires some { i < 3 }
    requires long { length row.now ≡ numbers_of_pixel kind * length out.old }
    ensures { out.new ≡ row_component kind row.now i (length out.old) }
{
    match kind {
        ImageKind::Gray => out.copy_from_slice(row),
        ImageKind::Rgb => match i {
            0 => gray_row(row, out),
            1 => blue_row(row, out),
            _ => red_row(row, out),
        },
    }
}

// Row v of a block among rows of samples.
#[inline(always)]
fn put_row(samples: &mut [u8; 64], v: usize, row: &[u8])
    requires { (v < 8) × (length row.now ≡ 8) }
    ensures long { length samples.new ≡ 64 }
    ensures value { take (8 * v + 8) samples.new ≡ take (8 * v) samples.old ++ row.now }
{
    u8x8::from_slice(row).copy_to_slice(&mut samples[8 * v..8 * v + 8]);
}

// Puts block x of eight rows of samples, one after another.
#[inline(always)]
fn cut_block(rows: &[u8], wide: usize, x: usize, samples: &mut [u8; 64])
    requires there { 8 * x + 8 ≤ wide }
    requires long { length rows.now ≡ 8 * wide }
    ensures { samples.new ≡ samples_of_block (in_rows wide rows.now) x 0 }
{
    for v in 0..8 {
        put_row(samples, v, &rows[v * wide + 8 * x..v * wide + 8 * x + 8]);
    }
}

/// Block x of eight rows of samples, one after another.
#[inline(always)]
pub fn block_at(rows: &[u8], wide: usize, x: usize) -> [u8; 64]
    requires there { 8 * x + 8 ≤ wide }
    requires long { length rows.now ≡ 8 * wide }
    ensures { result ≡ samples_of_block (in_rows wide rows.now) x 0 }
{
    let mut samples = [0; 64];
    cut_block(rows, wide, x, &mut samples);
    samples
}
