//! Rows of a component's plane (T.81, A.1.1; release 6b's downsampling).
ghost use Rattle.std.specs.Prelude.{◌≡◌, ◌+◌, ◌-◌, ◌*◌, ◌≤◌, ◌<◌, ℕ, min, length, slice_index, take, drop};
ghost use Rattle.jpg_color.specs.ColourRows.{numbers_of_pixel};
ghost use Rattle.jpg_color.specs.PlaneRows.{row_of, lower_row, downsampled_row, AreUnder, HasBlocks, HasPlaneRows, HasSamples, IsImagePlane, IsUnder, IsWindow};

use jpg_sample::{Ratio, down_rows};
use jpg_spec_image::{ImageInfo, ImageKind};

/// A component of an image's samples, to be downsampled by a ratio.
#[derive(Drop)]
pub struct ImagePlane<'a> {
    /// The samples of the image.
    pub samples: &'a [u8],
    /// Its size and colours.
    pub info: &'a ImageInfo,
    /// The index of the component.
    pub component: u8,
    /// The ratio of the greatest factors to its own.
    pub ratio: Ratio,
}

/// Rows of a component of an image, one after another: `lines` rows from row lines * at on. The last row of the image
/// is repeated.
#[derive(Drop)]
pub struct Window<'a> {
    pub rows: &'a [u8],
    pub lines: usize,
    pub at: u32,
}

/// What the rows of blocks of a component are made from.
#[derive(Drop)]
pub struct Source<'a> {
    /// Its plane of the image.
    pub plane: ImagePlane<'a>,
    /// The rows of the image for them.
    pub window: Window<'a>,
    /// How many rows of the plane are made of the image; the last one is repeated.
    pub made: usize,
    /// Samples of a row, in whole blocks.
    pub wide: usize,
    /// How many rows of blocks there are.
    pub count: u8,
}

/// How many numbers a pixel has.
pub(crate) fn numbers(kind: ImageKind) -> usize
    ensures value { result ≡ numbers_of_pixel kind }
    ensures few { result ≤ 3 }
{
    match kind {
        ImageKind::Gray => 1,
        ImageKind::Rgb => 3,
    }
}

// The index of a row, or of the last one.
fn place(p: usize, high: usize) -> usize
    requires { 1 ≤ high }
    ensures value { result ≡ min p (high - 1) }
    ensures there { result < high }
{
    if p < high { p } else { high - 1 }
}

fn part(samples: &[u8], at: usize, wide: usize) -> &[u8]
    requires { at + wide ≤ length samples.now }
    ensures { result.now ≡ take wide (drop at samples.now) }
{
    &samples[at..at + wide]
}

/// Row p of an image, or the last one.
pub(crate) fn image_row<'a>(samples: &'a [u8], info: &ImageInfo, p: usize) -> &'a [u8]
    requires { HasSamples info.now samples.now }
    ensures { result.now ≡ row_of info.now samples.now (min p (info.now.height - 1)) }
{
    let wide = numbers(info.kind) * info.width as usize;
    let row = place(p, info.height as usize);
    part(samples, row * wide, wide)
}

// The rows of a window that are averaged to row y of a plane.
fn rows_under<'a>(plane: &ImagePlane, window: &Window<'a>, y: usize) -> &'a [u8]
    requires plane { IsImagePlane plane.now }
    requires window { IsWindow plane.now window.now }
    requires there { IsUnder plane.now window.now y }
    ensures long { length result.now ≡ plane.now.ratio.down * plane.now.info.now.width }
    ensures rows { HasPlaneRows plane.now.info.now plane.now.samples.now plane.now.component plane.now.ratio.down y result.now }
{
    let width = plane.info.width as usize;
    let down = plane.ratio.down as usize;
    let first = down * y - window.lines * window.at as usize;
    part(window.rows, first * width, down * width)
}

// Row y of the plane, as many samples as `out` has, from the rows of the image for it.
#[tactic(auto, using(crate::proofs::PlaneRows::row_is))]
fn plane_row(plane: &ImagePlane, window: &Window, y: usize, out: &mut [u8])
    requires plane { IsImagePlane plane.now }
    requires window { IsWindow plane.now window.now }
    requires there { IsUnder plane.now window.now y }
    ensures { out.new ≡ downsampled_row plane.now y (length out.old) }
{
    down_rows(
        rows_under(plane, window, y),
        plane.info.width,
        &plane.ratio,
        out,
    );
}

// Puts row y of a plane as row v of the eight.
#[tactic(auto, using(crate::proofs::PlaneRows::put_mid_at, crate::proofs::PlaneRows::placed))]
fn put_plane_row(source: &Source, y: usize, out: &mut [u8], v: usize)
    requires plane { IsImagePlane source.now.plane }
    requires window { IsWindow source.now.plane source.now.window }
    requires some { 1 ≤ source.now.made }
    requires under { IsUnder source.now.plane source.now.window (min y (source.now.made - 1)) }
    requires there { v * source.now.wide + source.now.wide ≤ length out.old }
    ensures long { length out.new ≡ length out.old }
    ensures here { (u : ℕ) → u < source.now.wide → slice_index out.new (v * source.now.wide + u) ≡ lower_row source.now.plane source.now.made u y }
    ensures before { (k : ℕ) → k < v * source.now.wide → slice_index out.new k ≡ slice_index out.old k }
{
    let wide = source.wide;
    let row = place(y, source.made);
    plane_row(
        &source.plane,
        &source.window,
        row,
        &mut out[v * wide..v * wide + wide],
    );
}

/// Eight rows of a component's plane from row 8 * y on, in whole blocks.
pub fn block_rows(source: &Source, y: usize, out: &mut [u8])
    requires plane { IsImagePlane source.now.plane }
    requires window { IsWindow source.now.plane source.now.window }
    requires few { (1 ≤ source.now.made) × (y ≤ 1000000) }
    requires under { AreUnder source.now.plane source.now.window source.now.made y }
    requires eight { length out.old ≡ 8 * source.now.wide }
    ensures long { length out.new ≡ length out.old }
    ensures blocks { HasBlocks source.now.plane source.now.made source.now.wide y out.new }
{
    for v in 0..8 {
        put_plane_row(source, 8 * y + v, out, v);
    }
}
