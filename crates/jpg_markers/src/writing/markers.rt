//! The JFIF header or Adobe segment of a file, and the kept markers that are passed on (JFIF 1.02, Adobe's APP14).
ghost use Rattle.std.specs.Prelude.{◌≡◌, [], ◌∷◌, ◌==◌, if◌then◌else◌, filter, true};
ghost use Rattle.jpg_huff.specs.BitOut.{CanSend, Sends};
ghost use Rattle.jpg_spec_write.specs.FileText.{kept_text};
ghost use Rattle.jpg_spec_write.specs.Headed.{adobe_contents, jfif_contents};
ghost use Rattle.jpg_markers.specs.Kept.{IsKeptSegment, kept_pair};
ghost use Rattle.jpg_markers.specs.OutHead.{markers_text};
ghost use Rattle.jpg_markers.specs.Passed.{is_copied, is_passed, is_replaced, own_header};

use super::head::OutHead;
use super::segment::write_segment;
use crate::app::{begins_adobe, begins_jfif};
use crate::kept::{Kept, KeptList};
use jpg_base::codes::{APP0, APP14, COM};
use jpg_base::{Desk, WriteFault};
use jpg_huff::BitOut;
use jpg_spec::{Colour, Copying, Jfif};

/// Writes the JFIF header or Adobe segment, and then the kept markers that are passed on.
pub fn write_markers<D: Desk>(
    head: &OutHead,
    kept: &KeptList,
    out: &mut BitOut,
    desk: &mut D,
) -> Result<(), WriteFault>
    requires { CanSend (D.state desk.old) out.old }
    ensures { Sends (D.state desk.old) out.old (markers_text head.now kept.now) result out.new (D.state desk.new) }
{
    write_own(head.colour, &head.jfif, out, desk)?;
    write_passed(head.copying, head.colour, kept, out, desk)
}

// Writes the JFIF header or Adobe segment of a file of these colours.
fn write_own<D: Desk>(
    colour: Colour,
    jfif: &Jfif,
    out: &mut BitOut,
    desk: &mut D,
) -> Result<(), WriteFault>
    requires { CanSend (D.state desk.old) out.old }
    ensures { Sends (D.state desk.old) out.old (kept_text (own_header colour jfif.now)) result out.new (D.state desk.new) }
{
    match colour {
        Colour::Gray | Colour::YCbCr => write_segment(APP0, &jfif_contents(jfif), out, desk),
        Colour::Rgb | Colour::Cmyk => write_segment(APP14, &adobe_contents(0), out, desk),
        Colour::Ycck => write_segment(APP14, &adobe_contents(2), out, desk),
        Colour::Unknown => Ok(()),
    }
}

// Version 1.01, or that of the input if its major number is 1; the density of the input; and no thumbnail (JFIF 1.02).
fn jfif_contents(jfif: &Jfif) -> [u8; 14]
    ensures { result ≡ jfif_contents jfif.now }
{
    let [x_high, x_low] = jfif.x.to_be_bytes();
    let [y_high, y_low] = jfif.y.to_be_bytes();
    [
        b'J',
        b'F',
        b'I',
        b'F',
        0,
        1,
        minor_of(jfif),
        jfif.unit,
        x_high,
        x_low,
        y_high,
        y_low,
        0,
        0,
    ]
}

fn minor_of(jfif: &Jfif) -> u8
    ensures { result ≡ if jfif.now.major == 1 then jfif.now.minor else 1 }
{
    if jfif.major == 1 { jfif.minor } else { 1 }
}

// Version 100, no flags, and this transform (Adobe's APP14).
fn adobe_contents(transform: u8) -> [u8; 12]
    ensures { result ≡ adobe_contents transform }
{
    [b'A', b'd', b'o', b'b', b'e', 0, 100, 0, 0, 0, 0, transform]
}

// Writes the kept markers that are passed on.
fn write_passed<D: Desk>(
    copying: Copying,
    colour: Colour,
    kept: &KeptList,
    out: &mut BitOut,
    desk: &mut D,
) -> Result<(), WriteFault>
    requires { CanSend (D.state desk.old) out.old }
    ensures { Sends (D.state desk.old) out.old (kept_text (filter (is_passed copying colour) kept.now)) result out.new (D.state desk.new) }
{
    let mut rest = kept.markers();
    while let Some(member) = rest.next() {
        write_member(copying, colour, &member, out, desk)?;
    }
    Ok(())
}

// Writes one kept marker, if it is passed on.
fn write_member<D: Desk>(
    copying: Copying,
    colour: Colour,
    member: &Kept,
    out: &mut BitOut,
    desk: &mut D,
) -> Result<(), WriteFault>
    requires can { CanSend (D.state desk.old) out.old }
    requires member { IsKeptSegment member.now.code member.now.contents.now }
    ensures { Sends (D.state desk.old) out.old (kept_text (filter (is_passed copying colour) (kept_pair member.now ∷ []))) result out.new (D.state desk.new) }
{
    if is_passed(copying, colour, member) {
        write_segment(member.code, member.contents, out, desk)
    } else {
        Ok(())
    }
}

// Whether a kept marker is passed on.
fn is_passed(copying: Copying, colour: Colour, member: &Kept) -> bool
    ensures { result ≡ is_passed copying colour (kept_pair member.now) }
{
    is_copied(copying, member.code) && !is_replaced(colour, member.code, member.contents)
}

// Whether markers of this code are copied.
fn is_copied(copying: Copying, code: u8) -> bool
    ensures { result ≡ is_copied copying code }
{
    match copying {
        Copying::None => false,
        Copying::Comments => code == COM,
        Copying::All => true,
    }
}

// Whether the JFIF header or Adobe segment of a file of these colours replaces this marker.
fn is_replaced(colour: Colour, code: u8, contents: &[u8]) -> bool
    ensures { result ≡ is_replaced colour code contents.now }
{
    match colour {
        Colour::Gray | Colour::YCbCr => begins_jfif(code, contents),
        Colour::Rgb | Colour::Cmyk | Colour::Ycck => begins_adobe(code, contents),
        Colour::Unknown => false,
    }
}
