//! The planes of a row of MCUs, made of the samples of the image for it (T.81, A.1.1, A.2).
ghost use Rattle.std.specs.Prelude.{◌≡◌, ◌+◌, ◌*◌, ◌/◌, ◌≤◌, ◌<◌, ◌++◌, ◌∷◌, [], ℕ, OnErr, OnOk, IfOk, IsTrue, length, take, drop};
ghost use Rattle.jpg_spec.specs.EncodingLaws.{AreSamples};
ghost use Rattle.jpg_spec.specs.Geometry.{div_up, v_max};
ghost use Rattle.jpg_spec_image.specs.declared.image.ImageKind.TheVariants.{Rgb};
ghost use Rattle.jpg_color.specs.PlaneRows.{HasBlocks, HasSamples, IsWindow, PutsRow, cut_in_blocks};
ghost use Rattle.jpg_color.specs.EncodeBlocks.{AppendsAll, AppendsSource, AppendsStrip, AreWindows, GrowsPlane, GrowsPlanes, HasRowsOfStrip, HasStripRows, IsPlain};
ghost use Rattle.jpg_color.specs.EncodeBlocks.{IsSource, IsStrip, IsStripPart, source_image, strip_image};

use crate::encode::block_row::BlockRow;
use crate::encode::planes::component_row;
use crate::encode::rows::{ImagePlane, Source, Window, block_rows, image_row};
use crate::encode::ycc::ycc_row;
use jpg_base::{Frame, NoMemory};
use jpg_sample::Ratio;
use jpg_spec_image::ImageInfo;
use std::alloc::Global;
use std::vec::Vec;

/// The planes of the components so far, in rows of whole blocks.
#[derive(Drop)]
pub(crate) struct Planes {
    pub ys: Vec<BlockRow>,
    pub cbs: Vec<BlockRow>,
    pub crs: Vec<BlockRow>,
}

/// Rows of an image that a row of MCUs is made from, as an image, and the frame.
#[derive(Drop)]
pub(crate) struct Strip<'a> {
    pub samples: &'a [u8],
    pub info: &'a ImageInfo,
    pub frame: &'a Frame,
}

/// The rows of a component of a strip.
#[derive(Clone, Copy)]
pub(crate) struct StripPart<'a> {
    pub component: u8,
    pub rows: &'a [u8],
}

/// The rows of each component of a strip, and room for eight rows of a component in whole blocks. It is kept from one
/// strip to the next: whatever is in it before is replaced.
#[derive(Drop)]
pub(crate) struct Windows {
    // Rows of luminance.
    ys: Vec<u8>,
    // Rows of Cb.
    cbs: Vec<u8>,
    // Rows of Cr.
    crs: Vec<u8>,
    // Eight rows in whole blocks.
    eight: Vec<u8>,
}

impl Windows {
    /// No room for any rows. It takes no memory yet.
    pub(crate) fn new(alloc: Global) -> Windows {
        Windows {
            ys: Vec::new(alloc),
            cbs: Vec::new(alloc),
            crs: Vec::new(alloc),
            eight: Vec::new(alloc),
        }
    }
}

// How many samples a window has: those of all rows of the image in an MCU row.
fn window_room(frame: &Frame) -> usize
    ensures value { result ≡ 8 * v_max frame.now * frame.now.width }
    ensures few { result ≤ 4000000 }
{
    frame.checked();
    8 * frame.v_max() as usize * frame.width() as usize
}

// Makes the length this one, by bytes that are anything.
fn resize(bytes: &mut Vec<u8>, count: usize) -> Result<(), NoMemory>
    ensures { OnOk result (length bytes.new.items ≡ count) }
{
    match bytes.resize(count, 0) {
        Ok(()) => Ok(()),
        Err(_) => Err(NoMemory),
    }
}

// Makes room for the rows of each component, where it isn't there yet.
fn open(windows: &mut Windows, frame: &Frame) -> Result<(), NoMemory>
    ensures { OnOk result (AreWindows frame.now windows.new) }
{
    let room = window_room(frame);
    let others = if frame.count() == 1 { 0 } else { room };
    resize(&mut windows.ys, room)?;
    resize(&mut windows.cbs, others)?;
    resize(&mut windows.crs, others)
}

// Puts row r of component 0 of a strip as row r among rows.
fn put_row(strip: &Strip, r: usize, rows: &mut [u8])
    requires image { HasSamples strip.now.info.now strip.now.samples.now }
    requires there { r * strip.now.info.now.width + strip.now.info.now.width ≤ length rows.old }
    ensures { PutsRow strip.now.info.now strip.now.samples.now 0 r r rows.old rows.new }
{
    let width = strip.info.width as usize;
    let row = image_row(strip.samples, strip.info, r);
    component_row(
        strip.info.kind,
        row,
        0,
        &mut rows[r * width..r * width + width],
    );
}

// Puts the rows of component 0 of a strip, the last one of the image repeated.
fn put_rows(strip: &Strip, rows: &mut [u8])
    requires image { HasSamples strip.now.info.now strip.now.samples.now }
    requires room { length rows.old ≡ 8 * v_max strip.now.frame.now * strip.now.info.now.width }
    ensures long { length rows.new ≡ length rows.old }
    ensures rows { HasStripRows strip.now 0 rows.new }
{
    let lines = 8 * strip.frame.v_max() as usize;
    for r in 0..lines {
        put_row(strip, r, rows);
    }
}

// Puts row r of luminance and chrominance of a strip as row r among rows of each.
fn put_colour_row(strip: &Strip, r: usize, ys: &mut [u8], cbs: &mut [u8], crs: &mut [u8])
    requires image { HasSamples strip.now.info.now strip.now.samples.now }
    requires kind { strip.now.info.now.kind ≡ Rgb }
    requires luminance { r * strip.now.info.now.width + strip.now.info.now.width ≤ length ys.old }
    requires blue { length cbs.old ≡ length ys.old }
    requires red { length crs.old ≡ length ys.old }
    ensures luminance { PutsRow strip.now.info.now strip.now.samples.now 0 r r ys.old ys.new }
    ensures blue { PutsRow strip.now.info.now strip.now.samples.now 1 r r cbs.old cbs.new }
    ensures red { PutsRow strip.now.info.now strip.now.samples.now 2 r r crs.old crs.new }
{
    let width = strip.info.width as usize;
    let (from, to) = (r * width, r * width + width);
    ycc_row(
        image_row(strip.samples, strip.info, r),
        &mut ys[from..to],
        &mut cbs[from..to],
        &mut crs[from..to],
    );
}

// Puts the rows of luminance and chrominance of a strip, the last one of the image repeated.
fn put_colour_rows(strip: &Strip, ys: &mut [u8], cbs: &mut [u8], crs: &mut [u8])
    requires image { HasSamples strip.now.info.now strip.now.samples.now }
    requires kind { strip.now.info.now.kind ≡ Rgb }
    requires luminance { length ys.old ≡ 8 * v_max strip.now.frame.now * strip.now.info.now.width }
    requires blue { length cbs.old ≡ 8 * v_max strip.now.frame.now * strip.now.info.now.width }
    requires red { length crs.old ≡ 8 * v_max strip.now.frame.now * strip.now.info.now.width }
    ensures luminance { (length ys.new ≡ length ys.old) × HasStripRows strip.now 0 ys.new }
    ensures blue { (length cbs.new ≡ length cbs.old) × HasStripRows strip.now 1 cbs.new }
    ensures red { (length crs.new ≡ length crs.old) × HasStripRows strip.now 2 crs.new }
{
    let lines = 8 * strip.frame.v_max() as usize;
    for r in 0..lines {
        put_colour_row(strip, r, ys, cbs, crs);
    }
}

// Puts the rows of the strip into the windows.
fn fill(strip: &Strip, windows: &mut Windows)
    requires strip { IsStrip strip.now }
    requires windows { AreWindows strip.now.frame.now windows.old }
    ensures long { AreWindows strip.now.frame.now windows.new }
    ensures rows { HasRowsOfStrip strip.now windows.new }
{
    if strip.frame.count() == 1 {
        put_rows(strip, &mut windows.ys);
    } else {
        put_colour_rows(strip, &mut windows.ys, &mut windows.cbs, &mut windows.crs);
    }
}

/// Appends the rows of blocks of the strip to the planes.
#[tactic(auto, using(crate::proofs::StripRows::only_first))]
pub(crate) fn put_strip(
    alloc: Global,
    strip: &Strip,
    windows: &mut Windows,
    planes: &mut Planes,
) -> Result<(), NoMemory>
    requires { IsStrip strip.now }
    ensures rows { OnOk result (AppendsStrip strip.now.frame.now (strip_image strip.now) planes.old planes.new) }
    ensures grows { GrowsPlanes strip.now.frame.now planes.old planes.new }
{
    open(windows, strip.frame)?;
    fill(strip, windows);
    if strip.frame.count() == 1 {
        let ys = StripPart {
            component: 0,
            rows: windows.ys.as_slice(),
        };
        put_part(alloc, strip, ys, &mut windows.eight, &mut planes.ys)
    } else {
        put_three(alloc, strip, windows, planes)
    }
}

// Appends the rows of blocks of luminance and chrominance.
fn put_three(
    alloc: Global,
    strip: &Strip,
    windows: &mut Windows,
    planes: &mut Planes,
) -> Result<(), NoMemory>
    requires strip { IsStrip strip.now }
    requires three { 2 < length strip.now.frame.now.components }
    requires windows { AreWindows strip.now.frame.now windows.old }
    requires filled { HasRowsOfStrip strip.now windows.old }
    ensures rows { OnOk result (AppendsStrip strip.now.frame.now (strip_image strip.now) planes.old planes.new) }
    ensures grows { GrowsPlanes strip.now.frame.now planes.old planes.new }
{
    let eight = &mut windows.eight;
    let ys = StripPart {
        component: 0,
        rows: windows.ys.as_slice(),
    };
    put_part(alloc, strip, ys, eight, &mut planes.ys)?;
    let cbs = StripPart {
        component: 1,
        rows: windows.cbs.as_slice(),
    };
    put_part(alloc, strip, cbs, eight, &mut planes.cbs)?;
    let crs = StripPart {
        component: 2,
        rows: windows.crs.as_slice(),
    };
    put_part(alloc, strip, crs, eight, &mut planes.crs)
}

// What the rows of blocks of a component of the strip are made from.
fn source_of<'a>(strip: &'a Strip, part: StripPart<'a>) -> Source<'a>
    requires strip { IsStrip strip.now }
    requires part { IsStripPart strip.now part }
    ensures is { IsSource strip.now.frame.now result }
    ensures image { source_image result ≡ strip_image strip.now }
    ensures component { result.plane.component ≡ part.entry.component }
{
    let frame = strip.frame;
    frame.checked();
    let component = frame.component(part.component);
    let v_max = frame.v_max();
    Source {
        plane: ImagePlane {
            samples: strip.samples,
            info: strip.info,
            component: part.component,
            ratio: Ratio {
                across: frame.h_max() / component.h,
                down: v_max / component.v,
            },
        },
        window: Window {
            rows: part.rows,
            lines: 8 * v_max as usize,
            at: 0,
        },
        made: rows_made(strip.info.height, v_max, component.v),
        wide: 8 * frame.blocks(part.component).wide as usize,
        count: component.v,
    }
}

// The rows of a component that an image of this height makes.
fn rows_made(height: u32, down: u8, factor: u8) -> usize
    requires height { (1 ≤ height) × (height ≤ 65500) }
    requires down { (1 ≤ down) × (down ≤ 4) }
    requires factor { (1 ≤ factor) × (factor ≤ 4) }
    ensures value { result ≡ div_up height down * factor }
    ensures few { (1 ≤ result) × (result ≤ 1000000) }
{
    ((height + u32::from(down) - 1) / u32::from(down) * u32::from(factor)) as usize
}

// Makes the length at least this one, by bytes that are anything.
fn make_room(bytes: &mut Vec<u8>, count: usize) -> Result<(), NoMemory>
    ensures { OnOk result (count ≤ length bytes.new.items) }
{
    if bytes.len() < count {
        resize(bytes, count)
    } else {
        Ok(())
    }
}

// Appends the rows of blocks of a component of the strip.
fn put_part(
    alloc: Global,
    strip: &Strip,
    part: StripPart,
    eight: &mut Vec<u8>,
    plane: &mut Vec<BlockRow>,
) -> Result<(), NoMemory>
    requires strip { IsStrip strip.now }
    requires part { IsStripPart strip.now part }
    ensures rows { OnOk result (AppendsAll strip.now.frame.now (strip_image strip.now) part.entry.component plane.old.items plane.new.items) }
    ensures grows { GrowsPlane strip.now.frame.now part.entry.component plane.old.items plane.new.items }
{
    let source = source_of(strip, part);
    put_rows_of(alloc, &source, strip.frame, eight, plane)
}

// Appends the rows of blocks of a component, of the rows in the window as they are or of rows that are made of them.
fn put_rows_of(
    alloc: Global,
    source: &Source,
    frame: &Frame,
    eight: &mut Vec<u8>,
    plane: &mut Vec<BlockRow>,
) -> Result<(), NoMemory>
    requires source { IsSource frame.now source.now }
    ensures rows { OnOk result (AppendsSource frame.now source.now plane.old.items plane.new.items) }
    ensures grows { GrowsPlane frame.now source.now.plane.component plane.old.items plane.new.items }
{
    if is_plain(source) {
        return put_plain(alloc, source, frame, plane);
    }
    make_room(eight, 8 * source.wide)?;
    put_blocks(alloc, source, frame, &mut eight[..8 * source.wide], plane)
}

// Appends the rows of blocks of a component, by room for eight rows of samples.
fn put_blocks(
    alloc: Global,
    source: &Source,
    frame: &Frame,
    eight: &mut [u8],
    plane: &mut Vec<BlockRow>,
) -> Result<(), NoMemory>
    requires source { IsSource frame.now source.now }
    requires eight { length eight.old ≡ 8 * source.now.wide }
    ensures rows { OnOk result (AppendsSource frame.now source.now plane.old.items plane.new.items) }
    ensures grows { GrowsPlane frame.now source.now.plane.component plane.old.items plane.new.items }
{
    for y in 0..source.count {
        block_rows(source, y as usize, eight);
        push_row(alloc, eight, source.wide, plane)?;
    }
    Ok(())
}

// Whether the rows of a component are those of the image as they are: no samples are averaged, and none are repeated
// to make blocks whole.
fn is_plain(source: &Source) -> bool
    ensures plain { IsTrue result → IsPlain source.now }
    ensures always { IsPlain source.now → IsTrue result }
{
    let ratio = &source.plane.ratio;
    ratio.across == 1 && ratio.down == 1 && source.wide == source.plane.info.width as usize
}

// Row y of blocks of such a component, as eight rows of samples.
fn plain_rows<'a>(source: &'a Source, y: u8) -> &'a [u8]
    requires plane { IsWindow source.now.plane source.now.window }
    requires plain { IsPlain source.now }
    requires there { 8 * y + 8 ≤ source.now.window.lines }
    ensures long { length result.now ≡ 8 * source.now.wide }
    ensures rows { result.now ≡ take (8 * source.now.wide) (drop (8 * y * source.now.wide) source.now.window.rows.now) }
{
    let first = 8 * y as usize * source.wide;
    &source.window.rows[first..first + 8 * source.wide]
}

// Appends the rows of blocks of such a component.
fn put_plain(
    alloc: Global,
    source: &Source,
    frame: &Frame,
    plane: &mut Vec<BlockRow>,
) -> Result<(), NoMemory>
    requires source { IsSource frame.now source.now }
    requires plain { IsPlain source.now }
    ensures rows { OnOk result (AppendsSource frame.now source.now plane.old.items plane.new.items) }
    ensures grows { GrowsPlane frame.now source.now.plane.component plane.old.items plane.new.items }
{
    for y in 0..source.count {
        push_row(alloc, plain_rows(source, y), source.wide, plane)?;
    }
    Ok(())
}

// Appends the row of blocks of eight rows of samples.
fn push_row(
    alloc: Global,
    rows: &[u8],
    wide: usize,
    plane: &mut Vec<BlockRow>,
) -> Result<(), NoMemory>
    requires { length rows.now ≡ 8 * wide }
    ensures pushed { OnOk result (plane.new.items ≡ plane.old.items ++ cut_in_blocks wide rows.now ∷ []) }
    ensures same { OnErr result (plane.new.items ≡ plane.old.items) }
    ensures bytes { AreSamples rows.now }
{
    let row = BlockRow::of(alloc, rows, wide)?;
    match plane.push(row) {
        Ok(()) => Ok(()),
        Err(_) => Err(NoMemory),
    }
}
