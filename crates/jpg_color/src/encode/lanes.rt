//! Luminance and chrominance of sixteen pixels at once.
ghost use Rattle.std.specs.Prelude.{◌≡◌, ◌<◌, ℕ, length, slice_index};
ghost use Rattle.jpg_color.specs.ColourRows.{component_row};

use std::simd::{u8x16, u8x64, u32x16, u32x32};

// The indexes of red and green of each pixel, and of blue and green.
const RED_GREEN: [usize; 32] = [
    0, 1, 3, 4, 6, 7, 9, 10, 12, 13, 15, 16, 18, 19, 21, 22, 24, 25, 27, 28, 30, 31, 33, 34, 36,
    37, 39, 40, 42, 43, 45, 46,
];

const BLUE_GREEN: [usize; 32] = [
    2, 1, 5, 4, 8, 7, 11, 10, 14, 13, 17, 16, 20, 19, 23, 22, 26, 25, 29, 28, 32, 31, 35, 34, 38,
    37, 41, 40, 44, 43, 47, 46,
];

// The first numbers of sixteen pairs, and the second ones.
const EVENS: [usize; 16] = [0, 2, 4, 6, 8, 10, 12, 14, 16, 18, 20, 22, 24, 26, 28, 30];

const ODDS: [usize; 16] = [1, 3, 5, 7, 9, 11, 13, 15, 17, 19, 21, 23, 25, 27, 29, 31];

// What each number of a pair is multiplied by, modulo 2^32. For chrominance 255 minus the sample is computed, so that
// the greatest factor is -32768, and all of them fit into 16 bits.
const LUMINANCE_RG: [u32; 32] = [
    19595, 22086, 19595, 22086, 19595, 22086, 19595, 22086, 19595, 22086, 19595, 22086, 19595,
    22086, 19595, 22086, 19595, 22086, 19595, 22086, 19595, 22086, 19595, 22086, 19595, 22086,
    19595, 22086, 19595, 22086, 19595, 22086,
];

const LUMINANCE_BG: [u32; 32] = [
    7471, 16384, 7471, 16384, 7471, 16384, 7471, 16384, 7471, 16384, 7471, 16384, 7471, 16384,
    7471, 16384, 7471, 16384, 7471, 16384, 7471, 16384, 7471, 16384, 7471, 16384, 7471, 16384,
    7471, 16384, 7471, 16384,
];

const BLUE_RG: [u32; 32] = [
    11059, 10854, 11059, 10854, 11059, 10854, 11059, 10854, 11059, 10854, 11059, 10854, 11059,
    10854, 11059, 10854, 11059, 10854, 11059, 10854, 11059, 10854, 11059, 10854, 11059, 10854,
    11059, 10854, 11059, 10854, 11059, 10854,
];

const BLUE_BG: [u32; 32] = [
    4294934528, 10855, 4294934528, 10855, 4294934528, 10855, 4294934528, 10855, 4294934528, 10855,
    4294934528, 10855, 4294934528, 10855, 4294934528, 10855, 4294934528, 10855, 4294934528, 10855,
    4294934528, 10855, 4294934528, 10855, 4294934528, 10855, 4294934528, 10855, 4294934528, 10855,
    4294934528, 10855,
];

const RED_RG: [u32; 32] = [
    4294934528, 13719, 4294934528, 13719, 4294934528, 13719, 4294934528, 13719, 4294934528, 13719,
    4294934528, 13719, 4294934528, 13719, 4294934528, 13719, 4294934528, 13719, 4294934528, 13719,
    4294934528, 13719, 4294934528, 13719, 4294934528, 13719, 4294934528, 13719, 4294934528, 13719,
    4294934528, 13719,
];

const RED_BG: [u32; 32] = [
    5329, 13720, 5329, 13720, 5329, 13720, 5329, 13720, 5329, 13720, 5329, 13720, 5329, 13720,
    5329, 13720, 5329, 13720, 5329, 13720, 5329, 13720, 5329, 13720, 5329, 13720, 5329, 13720,
    5329, 13720, 5329, 13720,
];

// States, for proofs, that a number fits its type. It does nothing.
#[inline(always)]
fn fits(number: u8)
    ensures { number < 256 }
{
    let _ = number;
}

// States, for proofs, that all numbers fit their type. It does nothing.
#[inline(always)]
fn all_fit(numbers: &[u8])
    requires { length numbers.now ≡ 64 }
    ensures { (k : ℕ) → k < 64 → slice_index numbers.now k < 256 }
{
    for k in 0..64 {
        fits(numbers[k]);
    }
}

/// The luminance of sixteen pixels; sixteen more numbers are read.
#[tactic(auto, using(crate::proofs::PixelLanes::luminances_are))]
#[inline(always)]
pub(crate) fn luminances(pixels: &[u8]) -> [u8; 16]
    requires { length pixels.now ≡ 64 }
    ensures { result ≡ component_row pixels.now 0 16 }
{
    all_fit(pixels);
    let p = u8x64::from_slice(pixels);
    let rg = p.swizzle(RED_GREEN).cast::<u32>() * u32x32::from_array(LUMINANCE_RG);
    let bg = p.swizzle(BLUE_GREEN).cast::<u32>() * u32x32::from_array(LUMINANCE_BG);
    let sum = (rg.swizzle(EVENS) + rg.swizzle(ODDS)) + (bg.swizzle(EVENS) + bg.swizzle(ODDS));
    ((sum + u32x16::splat(32768)) / u32x16::splat(65536))
        .cast::<u8>()
        .to_array()
}

/// The blue chrominance of sixteen pixels; sixteen more numbers are read.
#[inline(always)]
pub(crate) fn blue_differences(pixels: &[u8]) -> [u8; 16]
    requires { length pixels.now ≡ 64 }
    ensures { result ≡ component_row pixels.now 1 16 }
{
    all_fit(pixels);
    let p = u8x64::from_slice(pixels);
    let rg = p.swizzle(RED_GREEN).cast::<u32>() * u32x32::from_array(BLUE_RG);
    let bg = p.swizzle(BLUE_GREEN).cast::<u32>() * u32x32::from_array(BLUE_BG);
    let sum = (rg.swizzle(EVENS) + rg.swizzle(ODDS)) + (bg.swizzle(EVENS) + bg.swizzle(ODDS));
    let less = ((sum + u32x16::splat(8355840)) / u32x16::splat(65536)).cast::<u8>();
    (u8x16::splat(255) - less).to_array()
}

/// The red chrominance of sixteen pixels; sixteen more numbers are read.
#[inline(always)]
pub(crate) fn red_differences(pixels: &[u8]) -> [u8; 16]
    requires { length pixels.now ≡ 64 }
    ensures { result ≡ component_row pixels.now 2 16 }
{
    all_fit(pixels);
    let p = u8x64::from_slice(pixels);
    let rg = p.swizzle(RED_GREEN).cast::<u32>() * u32x32::from_array(RED_RG);
    let bg = p.swizzle(BLUE_GREEN).cast::<u32>() * u32x32::from_array(RED_BG);
    let sum = (rg.swizzle(EVENS) + rg.swizzle(ODDS)) + (bg.swizzle(EVENS) + bg.swizzle(ODDS));
    let less = ((sum + u32x16::splat(8355840)) / u32x16::splat(65536)).cast::<u8>();
    (u8x16::splat(255) - less).to_array()
}
