//! The colours of a file (JFIF 1.02, Adobe's APP14).
ghost use Rattle.std.specs.Prelude.{◌≡◌, [], ◌∷◌, length};
ghost use Rattle.jpg_spec.specs.FrameHeader.{identifiers};
ghost use Rattle.jpg_spec.specs.Lists.{are_equal};
ghost use Rattle.jpg_spec.specs.Colours.{colours_of, three_colours, four_colours};

use jpg_base::Frame;
use jpg_spec::{Colour, Jfif};

/// The colours of a frame whose file has this JFIF header and this Adobe transform, if any: one component is gray;
/// three are YCbCr with JFIF, RGB with transform 0 and YCbCr with another, and with neither RGB if their identifiers
/// are R, G and B, otherwise YCbCr; four are YCCK with a transform other than 0, otherwise CMYK; two are unknown (JFIF
/// 1.02, Adobe's APP14).
pub fn guess(frame: &Frame, jfif: &Jfif, adobe: Option<u8>) -> Colour
    ensures { result ≡ colours_of (length frame.now.components) (identifiers frame.now.components) jfif.now.seen adobe }
{
    match frame.count() {
        1 => Colour::Gray,
        3 => of_three(frame, jfif.seen, adobe),
        4 => of_four(adobe),
        _ => Colour::Unknown,
    }
}

fn of_three(frame: &Frame, seen: bool, adobe: Option<u8>) -> Colour
    requires { length frame.now.components ≡ 3 }
    ensures { result ≡ three_colours (identifiers frame.now.components) seen adobe }
{
    if seen {
        return Colour::YCbCr;
    }
    match adobe {
        Some(0) => Colour::Rgb,
        Some(_) => Colour::YCbCr,
        None => {
            if has_letters(frame) {
                Colour::Rgb
            } else {
                Colour::YCbCr
            }
        }
    }
}

fn of_four(adobe: Option<u8>) -> Colour
    ensures { result ≡ four_colours adobe }
{
    match adobe {
        Some(0) => Colour::Cmyk,
        Some(_) => Colour::Ycck,
        None => Colour::Cmyk,
    }
}

// Whether the identifiers are R, G and B.
fn has_letters(frame: &Frame) -> bool
    requires { length frame.now.components ≡ 3 }
    ensures { result ≡ are_equal (identifiers frame.now.components) (82 ∷ 71 ∷ 66 ∷ []) }
{
    frame.component(0).id == b'R' && frame.component(1).id == b'G' && frame.component(2).id == b'B'
}
