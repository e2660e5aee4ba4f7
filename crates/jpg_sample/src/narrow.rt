//! Rows of samples downsampled: each sample is the mean of those in its place (release 6b's downsampling).
ghost use Rattle.std.specs.Prelude.{◌≡◌, ◌+◌, ◌-◌, ◌*◌, ◌/◌, ◌≤◌, ◌<◌, ℕ, min, nat_lt, if◌then◌else◌, length, map, slice_index, take};
ghost use Rattle.jpg_spec.specs.Lists.{below};
ghost use Rattle.jpg_spec_image.specs.Downsampling.{mean_of, down_rows};
ghost use Rattle.jpg_sample.specs.Means.{row_part, block_part, quarter_at, quarter_of};

use crate::Ratio;
use std::simd::{u8x16, u16x8};

const EVENS: [usize; 8] = [0, 2, 4, 6, 8, 10, 12, 14];

const ODDS: [usize; 8] = [1, 3, 5, 7, 9, 11, 13, 15];

// What is added before the quarter is taken.
const HALVES: [u16; 8] = [1, 2, 1, 2, 1, 2, 1, 2];

// States, for proofs, that a sample fits its type. It does nothing.
#[inline(always)]
fn fits(sample: u8)
    ensures { sample < 256 }
{
    let _ = sample;
}

// States, for proofs, that all samples fit their type. It does nothing.
#[inline(always)]
fn all_fit(samples: &[u8])
    requires { length samples.now ≡ 16 }
    ensures { (k : ℕ) → k < 16 → slice_index samples.now k < 256 }
{
    for k in 0..16 {
        fits(samples[k]);
    }
}

// The index of a column, or of the last one for columns after it.
#[inline(always)]
fn column(x: usize, width: usize) -> usize
    requires { 1 ≤ width }
    ensures value { result ≡ min x (width - 1) }
    ensures there { result < width }
{
    if x < width { x } else { width - 1 }
}

// The sum of the samples of row v that are averaged, from column `first` on.
#[inline(always)]
fn row_sum(rows: &[u8], width: usize, across: usize, v: usize, first: usize) -> u32
    requires some { 1 ≤ width }
    requires few { (across ≤ 4) × (first ≤ 100000000000) }
    requires there { v * width + width ≤ length rows.now }
    ensures value { result ≡ row_part rows.now width across first v }
    ensures bound { result ≤ 255 * across }
{
    let row = &rows[v * width..v * width + width];
    let mut sum = 0;
    for u in 0..across {
        sum += u32::from(row[column(first + u, width)]);
    }
    sum
}

// The sum of the samples that are averaged to one.
#[inline(always)]
fn block_sum(rows: &[u8], width: usize, across: usize, down: usize, first: usize) -> u32
    requires some { 1 ≤ width }
    requires few { (across ≤ 4) × (down ≤ 4) × (first ≤ 100000000000) }
    requires there { down * width ≤ length rows.now }
    ensures value { result ≡ block_part rows.now width across down first }
    ensures bound { result ≤ 255 * across * down }
{
    let mut sum = 0;
    for v in 0..down {
        sum += row_sum(rows, width, across, v, first);
    }
    sum
}

// Halves are rounded down and up alternately, and so are quarters.
#[inline(always)]
fn half(sum: u32, odd: u32) -> u8
    requires { (sum ≤ 510) × (odd ≤ 1) }
    ensures { result ≡ (sum + odd) / 2 }
{
    ((sum + odd) / 2) as u8
}

#[inline(always)]
fn quarter(sum: u32, odd: u32) -> u8
    requires { (sum ≤ 1020) × (odd ≤ 1) }
    ensures { result ≡ (sum + (1 + odd)) / 4 }
{
    ((sum + (1 + odd)) / 4) as u8
}

// The mean, rounded to the nearest number.
#[inline(always)]
fn nearest(sum: u32, count: u32) -> u8
    requires count { (1 ≤ count) × (count ≤ 16) }
    requires small { sum ≤ 255 * count }
    ensures { result ≡ (sum + count / 2) / count }
{
    ((sum + count / 2) / count) as u8
}

// How many samples are averaged to one.
#[inline(always)]
fn count_of(across: usize, down: usize) -> u32
    requires across { (1 ≤ across) × (across ≤ 4) }
    requires down { (1 ≤ down) × (down ≤ 4) }
    ensures value { result ≡ across * down }
    ensures bounds { (1 ≤ result) × (result ≤ 16) }
    ensures all { 255 * across * down ≡ 255 * result }
{
    (across * down) as u32
}

// The mean of these samples, whose sum is given.
#[inline(always)]
fn mean(across: usize, down: usize, x: usize, sum: u32) -> u8
    requires across { (1 ≤ across) × (across ≤ 4) }
    requires down { (1 ≤ down) × (down ≤ 4) }
    requires small { sum ≤ 255 * across * down }
    ensures { result ≡ mean_of across down x sum }
{
    let odd = (x % 2) as u32;
    let count = count_of(across, down);
    if across == 2 && down == 1 {
        half(sum, odd)
    } else if across == 2 && down == 2 {
        quarter(sum, odd)
    } else {
        nearest(sum, count)
    }
}

// The first column that is averaged to column x, or `width` where that is after the last one.
#[inline(always)]
fn first_of(x: usize, width: usize, across: usize) -> usize
    requires { (1 ≤ across) × (across ≤ 4) × (width < 4294967296) }
    ensures value { result ≡ (if nat_lt x width then across * x else width) }
    ensures few { result ≤ 100000000000 }
{
    if x < width { across * x } else { width }
}

// The means from column `from` on, by any ratio; columns after the last one repeat it.
#[inline(always)]
fn means(rows: &[u8], width: usize, ratio: Ratio, from: usize, out: &mut [u8])
    requires across { (1 ≤ ratio.across) × (ratio.across ≤ 4) }
    requires down { (1 ≤ ratio.down) × (ratio.down ≤ 4) }
    requires some { (1 ≤ width) × (width < 4294967296) }
    requires rows { length rows.now ≡ ratio.down * width }
    requires within { from ≤ length out.old }
    requires made { take from out.old ≡ down_rows ratio.across ratio.down width rows.now from }
    ensures { out.new ≡ down_rows ratio.across ratio.down width rows.now (length out.old) }
{
    let across = ratio.across as usize;
    let down = ratio.down as usize;
    for x in from..out.len() {
        let first = first_of(x, width, across);
        let sum = block_sum(rows, width, across, down, first);
        out[x] = mean(across, down, x, sum);
    }
}

// Eight means of 2 by 2, from 16 samples of either row.
#[inline(always)]
fn eight_quarters(upper: &[u8], lower: &[u8]) -> [u8; 8]
    requires upper { length upper.now ≡ 16 }
    requires lower { length lower.now ≡ 16 }
    ensures { result ≡ map (quarter_at upper.now lower.now) (below 8) }
{
    all_fit(upper);
    all_fit(lower);
    let u = u8x16::from_slice(upper);
    let l = u8x16::from_slice(lower);
    let above = u.swizzle(EVENS).cast::<u16>() + u.swizzle(ODDS).cast::<u16>();
    let under = l.swizzle(EVENS).cast::<u16>() + l.swizzle(ODDS).cast::<u16>();
    let sums = above + under + u16x8::from_array(HALVES);
    (sums / u16x8::splat(4)).cast::<u8>().to_array()
}

// Puts eight samples from column 8 * c on.
#[inline(always)]
fn put_samples(out: &mut [u8], c: usize, samples: &[u8; 8])
    requires { 8 * c + 8 ≤ length out.old }
    ensures long { length out.new ≡ length out.old }
    ensures here { (k : ℕ) → k < 8 → slice_index out.new (8 * c + k) ≡ slice_index samples.now k }
    ensures before { (k : ℕ) → k < 8 * c → slice_index out.new k ≡ slice_index out.old k }
{
    out[8 * c..8 * c + 8].copy_from_slice(samples);
}

// Sixteen samples.
#[inline(always)]
fn part(row: &[u8], at: usize) -> &[u8]
    requires { at + 16 ≤ length row.now }
    ensures long { length result.now ≡ 16 }
    ensures value { (k : ℕ) → k < 16 → slice_index result.now k ≡ slice_index row.now (at + k) }
{
    &row[at..at + 16]
}

// Puts the means of columns 8 * c to 8 * c + 7 of two rows.
#[inline(always)]
fn put_eight(rows: &[u8], width: usize, c: usize, out: &mut [u8])
    requires there { 8 * c + 8 ≤ length out.old }
    requires room { 2 * length out.old ≤ width }
    requires rows { length rows.now ≡ 2 * width }
    ensures long { length out.new ≡ length out.old }
    ensures here { (k : ℕ) → k < 8 → slice_index out.new (8 * c + k) ≡ quarter_of rows.now width (8 * c + k) }
    ensures before { (k : ℕ) → k < 8 * c → slice_index out.new k ≡ slice_index out.old k }
{
    let upper = part(rows, 16 * c);
    let lower = part(rows, width + 16 * c);
    put_samples(out, c, &eight_quarters(upper, lower));
}

// Puts all complete groups of eight means.
#[inline(always)]
fn put_eights(rows: &[u8], width: usize, out: &mut [u8])
    requires room { 2 * length out.old ≤ width }
    requires rows { length rows.now ≡ 2 * width }
    ensures long { length out.new ≡ length out.old }
    ensures made { (k : ℕ) → k < 8 * (length out.old / 8) → slice_index out.new k ≡ quarter_of rows.now width k }
{
    for c in 0..out.len() / 8 {
        put_eight(rows, width, c, out);
    }
}

// Means of 2 by 2 samples, where no column is repeated.
#[inline(always)]
fn quarters(rows: &[u8], width: usize, out: &mut [u8])
    requires there { 2 * length out.old ≤ width }
    requires rows { length rows.now ≡ 2 * width }
    ensures { out.new ≡ down_rows 2 2 width rows.now (length out.old) }
{
    put_eights(rows, width, out);
    for x in 8 * (out.len() / 8)..out.len() {
        let upper = u32::from(rows[2 * x]) + u32::from(rows[2 * x + 1]);
        let lower = u32::from(rows[width + 2 * x]) + u32::from(rows[width + 2 * x + 1]);
        out[x] = quarter(upper + lower, (x % 2) as u32);
    }
}

// Means of 2 by 1 samples, where no column is repeated.
#[inline(always)]
fn halves(row: &[u8], width: usize, out: &mut [u8])
    requires there { 2 * length out.old ≤ width }
    requires row { length row.now ≡ 1 * width }
    ensures { out.new ≡ down_rows 2 1 width row.now (length out.old) }
{
    let _ = width;
    for x in 0..out.len() {
        let both = u32::from(row[2 * x]) + u32::from(row[2 * x + 1]);
        out[x] = half(both, (x % 2) as u32);
    }
}

// The samples themselves (1 by 1), where no column is repeated.
#[inline(always)]
fn copies(row: &[u8], width: usize, out: &mut [u8])
    requires there { length out.old ≤ width }
    requires row { length row.now ≡ 1 * width }
    ensures { out.new ≡ down_rows 1 1 width row.now (length out.old) }
{
    let _ = width;
    out.copy_from_slice(&row[..out.len()]);
}

// Means by any ratio, where no column is repeated.
#[inline(always)]
fn first_means(rows: &[u8], width: usize, ratio: Ratio, out: &mut [u8])
    requires across { (1 ≤ ratio.across) × (ratio.across ≤ 4) }
    requires down { (1 ≤ ratio.down) × (ratio.down ≤ 4) }
    requires some { (1 ≤ width) × (width < 4294967296) }
    requires rows { length rows.now ≡ ratio.down * width }
    requires there { ratio.across * length out.old ≤ width }
    ensures { out.new ≡ down_rows ratio.across ratio.down width rows.now (length out.old) }
{
    if ratio.across == 1 && ratio.down == 1 {
        copies(rows, width, out);
    } else if ratio.across == 2 && ratio.down == 1 {
        halves(rows, width, out);
    } else if ratio.across == 2 && ratio.down == 2 {
        quarters(rows, width, out);
    } else {
        means(rows, width, ratio, 0, out);
    }
}

// How many of `count` means are of columns that are all there.
#[inline(always)]
fn whole(width: usize, across: usize, count: usize) -> usize
    requires { 1 ≤ across }
    ensures few { result ≤ count }
    ensures there { across * result ≤ width }
{
    (width / across).min(count)
}

/// Makes one row of rows of `width` samples, one after another, as many as the ratio has down: each sample is the mean
/// of those in its place, and the last column is repeated after itself.
pub fn down_rows(rows: &[u8], width: u32, ratio: &Ratio, out: &mut [u8])
    requires across { (1 ≤ ratio.now.across) × (ratio.now.across ≤ 4) }
    requires down { (1 ≤ ratio.now.down) × (ratio.now.down ≤ 4) }
    requires some { 1 ≤ width }
    requires rows { length rows.now ≡ ratio.now.down * width }
    ensures { out.new ≡ down_rows ratio.now.across ratio.now.down width rows.now (length out.old) }
{
    let width = width as usize;
    let made = whole(width, ratio.across as usize, out.len());
    first_means(rows, width, *ratio, &mut out[..made]);
    means(rows, width, *ratio, made, out);
}
