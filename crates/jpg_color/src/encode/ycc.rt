//! Luminance and chrominance from red, green and blue (JFIF 1.02).
ghost use Rattle.std.specs.Prelude.{◌≡◌, ◌+◌, ◌*◌, ◌<◌, ◌≤◌, ℕ, length, slice_index};
ghost use Rattle.jpg_spec_image.specs.Luminance.{luminance, blue_difference, red_difference, to_ycc};
ghost use Rattle.jpg_spec_encode.specs.Encoded.{pixel_component};
ghost use Rattle.jpg_spec_image.specs.declared.image.ImageKind.TheVariants.{Rgb};
ghost use Rattle.jpg_color.specs.ColourRows.{component_row, PutsSixteen, HasMade};

use crate::encode::lanes::{blue_differences, luminances, red_differences};

#[inline(always)]
fn luminance(r: u8, g: u8, b: u8) -> u8
    ensures { result ≡ luminance r g b }
{
    ((19595 * u32::from(r) + 38470 * u32::from(g) + 7471 * u32::from(b) + 32768) / 65536) as u8
}

#[inline(always)]
fn blue_difference(r: u8, g: u8, b: u8) -> u8
    ensures { result ≡ blue_difference r g b }
{
    ((8421375 + 32768 * u32::from(b) - (11059 * u32::from(r) + 21709 * u32::from(g))) / 65536) as u8
}

#[inline(always)]
fn red_difference(r: u8, g: u8, b: u8) -> u8
    ensures { result ≡ red_difference r g b }
{
    ((8421375 + 32768 * u32::from(r) - (27439 * u32::from(g) + 5329 * u32::from(b))) / 65536) as u8
}

/// Luminance and chrominance of a pixel.
#[inline(always)]
pub fn to_ycc(r: u8, g: u8, b: u8) -> [u8; 3]
    ensures { result ≡ to_ycc r g b }
{
    [
        luminance(r, g, b),
        blue_difference(r, g, b),
        red_difference(r, g, b),
    ]
}

// Sixteen samples of a component of pixels, after which there are some more.
#[inline(always)]
fn samples_of(pixels: &[u8], i: u8) -> [u8; 16]
    requires some { i < 3 }
    requires long { length pixels.now ≡ 64 }
    ensures { result ≡ component_row pixels.now i 16 }
{
    match i {
        0 => luminances(pixels),
        1 => blue_differences(pixels),
        _ => red_differences(pixels),
    }
}

// The pixels from 16 * c on.
#[inline(always)]
fn part(pixels: &[u8], c: usize) -> &[u8]
    requires { 48 * c + 64 ≤ length pixels.now }
    ensures long { length result.now ≡ 64 }
    ensures value { (k : ℕ) → k < 64 → slice_index result.now k ≡ slice_index pixels.now (48 * c + k) }
{
    &pixels[48 * c..48 * c + 64]
}

// Puts samples from column 16 * c on.
#[inline(always)]
fn put_samples(out: &mut [u8], c: usize, samples: &[u8; 16])
    requires { 16 * c + 16 ≤ length out.old }
    ensures long { length out.new ≡ length out.old }
    ensures here { (k : ℕ) → k < 16 → slice_index out.new (16 * c + k) ≡ slice_index samples.now k }
    ensures before { (k : ℕ) → k < 16 * c → slice_index out.new k ≡ slice_index out.old k }
{
    out[16 * c..16 * c + 16].copy_from_slice(samples);
}

// Puts the samples of columns 16 * c to 16 * c + 15.
#[tactic(auto, using(crate::proofs::PixelLanes::one_of_sixteen))]
#[inline(always)]
fn put_sixteen(pixels: &[u8], i: u8, c: usize, out: &mut [u8])
    requires some { i < 3 }
    requires more { 48 * c + 64 ≤ length pixels.now }
    requires there { 16 * c + 16 ≤ length out.old }
    ensures long { length out.new ≡ length out.old }
    ensures here { (k : ℕ) → k < 16 → slice_index out.new (16 * c + k) ≡ pixel_component Rgb pixels.now i (16 * c + k) }
    ensures before { (k : ℕ) → k < 16 * c → slice_index out.new k ≡ slice_index out.old k }
{
    let pixels = part(pixels, c);
    put_samples(out, c, &samples_of(pixels, i));
}

// How many groups of sixteen pixels are taken of `count`, where some more are read each time.
#[inline(always)]
fn sixteens(count: usize) -> usize
    ensures few { 16 * result ≤ count }
    ensures more { (c : ℕ) → c < result → 48 * c + 64 ≤ 3 * count }
{
    if count < 6 { 0 } else { (count - 6) / 16 }
}

// Puts samples by sixteens. Returns how many.
#[inline(always)]
fn put_sixteens(pixels: &[u8], i: u8, out: &mut [u8]) -> usize
    requires some { i < 3 }
    requires pixels { length pixels.now ≡ 3 * length out.old }
    ensures few { result ≤ length out.old }
    ensures long { length out.new ≡ length out.old }
    ensures made { (k : ℕ) → k < result → slice_index out.new k ≡ pixel_component Rgb pixels.now i k }
{
    let count = sixteens(out.len());
    for c in 0..count {
        put_sixteen(pixels, i, c, out);
    }
    16 * count
}

// Puts columns 16 * c to 16 * c + 15 of all three components.
#[inline(always)]
fn put_three(pixels: &[u8], c: usize, ys: &mut [u8], bs: &mut [u8], rs: &mut [u8])
    requires more { 48 * c + 64 ≤ length pixels.now }
    requires first { 16 * c + 16 ≤ length ys.old }
    requires second { 16 * c + 16 ≤ length bs.old }
    requires third { 16 * c + 16 ≤ length rs.old }
    ensures luminance { PutsSixteen pixels.now 0 c ys.old ys.new }
    ensures blue { PutsSixteen pixels.now 1 c bs.old bs.new }
    ensures red { PutsSixteen pixels.now 2 c rs.old rs.new }
{
    let pixels = part(pixels, c);
    let y = luminances(pixels);
    let b = blue_differences(pixels);
    let r = red_differences(pixels);
    put_samples(ys, c, &y);
    put_samples(bs, c, &b);
    put_samples(rs, c, &r);
}

// Puts samples of all three by sixteens. Returns how many.
#[inline(always)]
fn put_threes(pixels: &[u8], ys: &mut [u8], bs: &mut [u8], rs: &mut [u8]) -> usize
    requires pixels { length pixels.now ≡ 3 * length ys.old }
    requires blue { length bs.old ≡ length ys.old }
    requires red { length rs.old ≡ length ys.old }
    ensures few { result ≤ length ys.old }
    ensures luminance { HasMade pixels.now 0 result ys.old ys.new }
    ensures blue { HasMade pixels.now 1 result bs.old bs.new }
    ensures red { HasMade pixels.now 2 result rs.old rs.new }
{
    let count = sixteens(ys.len());
    for c in 0..count {
        put_three(pixels, c, ys, bs, rs);
    }
    16 * count
}

/// A row of red, green and blue as three rows.
pub fn ycc_row(pixels: &[u8], ys: &mut [u8], cbs: &mut [u8], crs: &mut [u8])
    requires pixels { length pixels.now ≡ 3 * length ys.old }
    requires blue { length cbs.old ≡ length ys.old }
    requires red { length crs.old ≡ length ys.old }
    ensures luminance { ys.new ≡ component_row pixels.now 0 (length ys.old) }
    ensures blue { cbs.new ≡ component_row pixels.now 1 (length ys.old) }
    ensures red { crs.new ≡ component_row pixels.now 2 (length ys.old) }
{
    let made = put_threes(pixels, ys, cbs, crs);
    for x in made..ys.len() {
        let ycc = to_ycc(pixels[3 * x], pixels[3 * x + 1], pixels[3 * x + 2]);
        ys[x] = ycc[0];
        cbs[x] = ycc[1];
        crs[x] = ycc[2];
    }
}

/// The blue chrominance of a row of red, green and blue.
pub fn blue_row(pixels: &[u8], bs: &mut [u8])
    requires { length pixels.now ≡ 3 * length bs.old }
    ensures { bs.new ≡ component_row pixels.now 1 (length bs.old) }
{
    let made = put_sixteens(pixels, 1, bs);
    for x in made..bs.len() {
        bs[x] = blue_difference(pixels[3 * x], pixels[3 * x + 1], pixels[3 * x + 2]);
    }
}

/// The red chrominance of a row of red, green and blue.
pub fn red_row(pixels: &[u8], rs: &mut [u8])
    requires { length pixels.now ≡ 3 * length rs.old }
    ensures { rs.new ≡ component_row pixels.now 2 (length rs.old) }
{
    let made = put_sixteens(pixels, 2, rs);
    for x in made..rs.len() {
        rs[x] = red_difference(pixels[3 * x], pixels[3 * x + 1], pixels[3 * x + 2]);
    }
}

/// The luminance of a row of red, green and blue.
pub fn gray_row(pixels: &[u8], ys: &mut [u8])
    requires { length pixels.now ≡ 3 * length ys.old }
    ensures { ys.new ≡ component_row pixels.now 0 (length ys.old) }
{
    let made = put_sixteens(pixels, 0, ys);
    for x in made..ys.len() {
        ys[x] = luminance(pixels[3 * x], pixels[3 * x + 1], pixels[3 * x + 2]);
    }
}
