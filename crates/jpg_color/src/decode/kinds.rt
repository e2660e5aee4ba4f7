//! Which pictures can be displayed, and as which kind of image (T.81, A.1.1; the manual of djpeg in release 6b).
ghost use Rattle.std.specs.Prelude.{◌≡◌, ◌<◌, ◌≤◌, length, take};
ghost use Rattle.jpg_spec.specs.Lists.{any_of};
ghost use Rattle.jpg_spec.specs.Geometry.{component_at, h_max, v_max};
ghost use Rattle.jpg_spec_image.specs.Pixels.{is_colour_out, is_fractional, shows_gray};
ghost use Rattle.jpg_color.specs.Admits.{admitted_kind, first_fault, is_deep, kind_of, needed_factors};
ghost use Rattle.jpg_color.specs.Shown.{factors_of};

use jpg_base::Frame;
use jpg_spec::{Colour, Fault};
use jpg_spec_image::ImageKind;

// Whether the samples have other than 8 bits.
fn is_deep(frame: &Frame) -> bool
    ensures { result ≡ is_deep frame.now.precision }
{
    frame.precision() != 8
}

fn is_out(colour: Colour, gray: bool) -> bool
    ensures { result ≡ is_colour_out colour gray }
{
    match colour {
        Colour::Gray => false,
        Colour::YCbCr => false,
        Colour::Rgb => gray,
        Colour::Cmyk => true,
        Colour::Ycck => true,
        Colour::Unknown => true,
    }
}

// Whether only one component is displayed.
pub(crate) fn is_gray(colour: Colour, gray: bool) -> bool
    ensures { result ≡ shows_gray colour gray }
{
    match colour {
        Colour::Gray => true,
        Colour::YCbCr => gray,
        Colour::Rgb => false,
        Colour::Cmyk => false,
        Colour::Ycck => false,
        Colour::Unknown => false,
    }
}

// Whether the greatest factors aren't multiples of those of component `i`.
fn is_partial(frame: &Frame, i: u8) -> bool
    requires { i < length frame.now.components }
    ensures { result ≡ is_fractional (h_max frame.now) (v_max frame.now) ((component_at frame.now i).h, (component_at frame.now i).v) }
{
    let component = frame.component(i);
    frame.h_max() % component.h != 0 || frame.v_max() % component.v != 0
}

// Whether one of the first components has such factors.
fn has_partial(frame: &Frame, count: u8) -> bool
    requires { count ≤ length frame.now.components }
    ensures { result ≡ any_of (is_fractional (h_max frame.now) (v_max frame.now)) (take count (factors_of frame.now)) }
{
    for i in 0..count {
        if is_partial(frame, i) {
            return true;
        }
    }
    false
}

// Whether a component that is needed has such factors: the first if only that is displayed, otherwise any.
fn needs_partial(frame: &Frame, alone: bool) -> bool
    ensures { result ≡ any_of (is_fractional (h_max frame.now) (v_max frame.now)) (needed_factors alone (factors_of frame.now)) }
{
    let count = frame.count();
    if alone {
        return has_partial(frame, 1);
    }
    has_partial(frame, count)
}

pub(crate) fn shown_kind(colour: Colour, gray: bool) -> ImageKind
    ensures { result ≡ kind_of colour gray }
{
    if is_gray(colour, gray) {
        ImageKind::Gray
    } else {
        ImageKind::Rgb
    }
}

// Samples of other than 8 bits come before colours that can't be displayed, and these before factors.
fn first_fault(deep: bool, out: bool, partial: bool) -> Option<Fault>
    ensures { result ≡ first_fault deep out partial }
{
    if deep {
        return Some(Fault::Precision);
    }
    if out {
        return Some(Fault::ColourOut);
    }
    if partial {
        return Some(Fault::FractionalSampling);
    }
    None
}

/// The kind of image that a picture of this frame and these colours is displayed as: gray, which takes only the first
/// component, for gray pictures and, if `gray` asks for it, for those of luminance and chrominance; otherwise red,
/// green and blue. The faults, in this order: Precision (samples that haven't 8 bits), ColourOut (colours that can't be
/// displayed: four or two components, or red, green and blue if gray is asked for), and FractionalSampling (a component
/// that is needed has factors that don't divide the greatest ones) (T.81, A.1.1; JFIF 1.02). It takes no memory.
pub fn admits(frame: &Frame, colour: Colour, gray: bool) -> Result<ImageKind, Fault>
    ensures { result ≡ admitted_kind frame.now.precision colour gray (factors_of frame.now) }
{
    let partial = needs_partial(frame, is_gray(colour, gray));
    match first_fault(is_deep(frame), is_out(colour, gray), partial) {
        Some(fault) => Err(fault),
        None => Ok(shown_kind(colour, gray)),
    }
}
