//! All but the blocks of the picture of an image: components, process, tables, colours and density (T.81, A.1.1, B.2.2;
//! JFIF 1.02).
ghost use Rattle.std.specs.Prelude.{◌≡◌, ◌≤◌, ◌<◌, IfOk, IfSome, IfNone, ◌∷◌, [], length, find, Some, None, All};
ghost use Rattle.jpg_spec.specs.Lists.{below};
ghost use Rattle.jpg_spec_write.specs.Headed.{jfif_contents};
ghost use Rattle.jpg_spec_encode.specs.Encoded.{is_density, density_of};
ghost use Rattle.jpg_spec.specs.FrameHeader.{HasFactors};
ghost use Rattle.jpg_base.specs.Frame.{greatest_across, greatest_down};
ghost use Rattle.jpg_color.specs.Encode.{CanSample, IsFramed};
ghost use Rattle.jpg_color.specs.EncodeHead.{components_asked, component_asked, colour_asked, fraction_at, process_asked, table_asked, tables_asked};

use crate::encode::Encoding;
use arrayvec::ArrayVec;
use jpg_base::codes::APP0;
use jpg_base::{Frame, NoMemory, QuantTable, greatest_factors};
use jpg_markers::{KeptList, is_wide};
use jpg_spec::{Colour, Component, Jfif, Limits, Process};
use jpg_spec_image::ImageInfo;
use jpg_spec_write::PictureFault;
use std::alloc::Global;

/// The frame of the picture of an image.
#[tactic(auto, using(crate::proofs::EncodeFrames::many_due, crate::proofs::EncodeFrames::numbers_are))]
pub(crate) fn frame_of(info: &ImageInfo, encoding: &Encoding) -> Result<Frame, PictureFault>
    requires { CanSample info.now encoding.now }
    ensures { IsFramed info.now encoding.now result }
{
    let components = components_of(encoding);
    if let Some(component) = first_fraction(components.as_slice()) {
        return Err(PictureFault::FractionalFactors { component });
    }
    let process = process_of(encoding);
    let (height, width) = (info.height, info.width);
    match Frame::new(
        process,
        8,
        height,
        width,
        components.as_slice(),
        &Limits::standard(),
    ) {
        Ok(frame) => {
            frame.checked();
            Ok(frame)
        }
        // The numbers passed the checks, so that it can only be this.
        Err(_) => Err(PictureFault::TooManyBlocks),
    }
}

// The components: identifiers from 1 on, and their factors.
fn components_of(encoding: &Encoding) -> ArrayVec<Component, 4>
    requires { length encoding.now.factors.items ≤ 4 }
    ensures { result.items ≡ components_asked encoding.now }
{
    let mut components = ArrayVec::new();
    for i in 0..encoding.factors.len() {
        components.push(component_of(encoding, i as u8));
    }
    components
}

fn component_of(encoding: &Encoding, i: u8) -> Component
    requires there { i < length encoding.now.factors.items }
    requires few { i < 4 }
    ensures { result ≡ component_asked encoding.now i }
{
    let factors = encoding.factors[i as usize];
    Component {
        id: i + 1,
        h: factors.0,
        v: factors.1,
        quant: 0,
    }
}

// Whether one of the greatest factors isn't a multiple of component i's.
fn has_fraction(components: &[Component], i: usize, across: u8, down: u8) -> bool
    requires factors { All HasFactors components.now }
    requires there { i < length components.now }
    requires across { across ≡ greatest_across components.now }
    requires down { down ≡ greatest_down components.now }
    ensures { result ≡ fraction_at components.now i }
{
    let component = components[i];
    across % component.h != 0 || down % component.v != 0
}

// The first component whose ratio to the greatest factors isn't an integer.
fn first_fraction(components: &[Component]) -> Option<u8>
    requires factors { All HasFactors components.now }
    requires few { length components.now ≤ 4 }
    ensures some { IfSome result (λ i. find (fraction_at components.now) (below (length components.now)) ≡ Some i) }
    ensures none { IfNone result (find (fraction_at components.now) (below (length components.now)) ≡ None) }
{
    let (across, down) = greatest_factors(components);
    for i in 0..components.len() {
        if has_fraction(components, i, across, down) {
            return Some(i as u8);
        }
    }
    None
}

// SOF2 for progressive scans, otherwise SOF1 if a quantiser that is used exceeds 255, otherwise SOF0.
fn process_of(encoding: &Encoding) -> Process
    ensures { result ≡ process_asked encoding.now }
{
    if encoding.progressive {
        Process::Progressive
    } else if is_wide(&encoding.tables[0])
        || encoding.factors.len() > 1 && is_wide(&encoding.tables[1])
    {
        Process::Extended
    } else {
        Process::Baseline
    }
}

/// The table of component i.
pub(crate) fn table_of(encoding: &Encoding, i: usize) -> &QuantTable
    ensures { result.now ≡ table_asked encoding.now i }
{
    if i == 0 {
        &encoding.tables[0]
    } else {
        &encoding.tables[1]
    }
}

/// The table of each component.
pub(crate) fn quants_of(encoding: &Encoding) -> ArrayVec<QuantTable, 4>
    requires { length encoding.now.factors.items ≤ 4 }
    ensures { result.items ≡ tables_asked encoding.now }
{
    let mut tables = ArrayVec::new();
    for i in 0..encoding.factors.len() {
        tables.push(*table_of(encoding, i));
    }
    tables
}

/// Gray if there is one component.
pub(crate) fn colour_of(encoding: &Encoding) -> Colour
    ensures { result ≡ colour_asked encoding.now }
{
    if encoding.factors.len() == 1 {
        Colour::Gray
    } else {
        Colour::YCbCr
    }
}

fn is_density(n: u32) -> bool
    ensures { result ≡ is_density n }
{
    1 <= n && n < 65536
}

/// The density: pixels per centimetre, if both are numbers of two bytes and not 0; otherwise none.
pub(crate) fn density_of(info: &ImageInfo) -> Jfif
    ensures { result ≡ density_of info.now }
{
    let (x, y) = (info.x_metre / 100, info.y_metre / 100);
    let is_given = is_density(x) && is_density(y);
    Jfif {
        seen: true,
        major: 1,
        minor: 1,
        unit: if is_given { 2 } else { 0 },
        x: if is_given { x as u16 } else { 1 },
        y: if is_given { y as u16 } else { 1 },
    }
}

// The contents of a JFIF header of version 1.
fn header_of(jfif: &Jfif) -> [u8; 14]
    requires { jfif.now.major ≡ 1 }
    ensures { result ≡ jfif_contents jfif.now }
{
    let [x_high, x_low] = jfif.x.to_be_bytes();
    let [y_high, y_low] = jfif.y.to_be_bytes();
    [
        b'J', b'F', b'I', b'F', 0, 1, jfif.minor, jfif.unit, x_high, x_low, y_high, y_low, 0, 0,
    ]
}

/// A list of only the JFIF header.
pub(crate) fn kept_of(alloc: Global, jfif: &Jfif) -> Result<KeptList, NoMemory>
    requires { jfif.now.major ≡ 1 }
    ensures { IfOk result (λ k. k ≡ (0xe0, jfif_contents jfif.now) ∷ []) }
{
    let mut kept = KeptList::new(alloc);
    kept.push(APP0, &header_of(jfif))?;
    Ok(kept)
}
