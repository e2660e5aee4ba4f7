//! A picture decoded to an image file (release 6b's djpeg).
ghost use Rattle.std.specs.Prelude.{◌≡◌, ◌<◌, ◌*◌, ◌==◌, if◌then◌else◌, true, None, [], Err, IfOk, length};
ghost use Rattle.jpg_spec_image.specs.ImageText.{end_text};
ghost use Rattle.jpg_spec_image.specs.Pixels.{out_fault};
ghost use Rattle.jpg_file.specs.Read.PictureRead.{picture_meaning};
ghost use Rattle.jpg_pnm_bmp.specs.EndState.{CanFinish, CanTakeRow, Finishes, IsImageInfo, Starts, TakesRow, new_end};
ghost use Rattle.jpg_color.specs.declared.decode.DecodeStop.TheVariants as stop;
ghost use Rattle.jpg_color.specs.DecodeRows.{AreRowsOf, Decodes, IsEndFor, SendsImage, SendsPart, SendsRow, SendsRows, end_parts, finished, finished_end, picture_end, picture_text, rows_in_all, info_for};

pub mod blocks;
pub mod kinds;
pub mod next;
pub mod part;
pub mod picture_rows;
pub mod rgb;
pub mod sample_rows;
pub mod strip_image;
pub mod strips;

use crate::decode::kinds::shown_kind;
use crate::decode::picture_rows::PictureRows;
use jpg_base::{Bytes, Desk, Frame, NoMemory, Put};
use jpg_file::Picture;
use jpg_pnm_bmp::{Finish, ImageEnd, ImageInfo};
use jpg_spec::{Colour, Jfif};
use std::alloc::Global;

/// Why the rows of a picture weren't all written.
#[derive(Clone, Copy, Debug, PartialEq, Eq)]
pub enum DecodeStop {
    NoMemory,
    WriteFault,
}

// Writes begin at this many bytes.
const MANY: usize = 32768;

/// Writes the image of a picture to the output that was created last, in the format of `end`: the text of the image's
/// rows as release 6b's djpeg makes them, in grayscale if that is asked for, with rows of samples smoothed or repeated.
/// `end` took all rows then and was finished. After NoMemory and WriteFault a first part of the text is written, after
/// NoMemory not all, and the state of `end` is unspecified.
pub fn decode_rows<D: Desk>(
    alloc: Global,
    picture: &Picture,
    gray: bool,
    smooth: bool,
    end: &mut Box<dyn ImageEnd>,
    desk: &mut D,
) -> Result<(), DecodeStop>
    requires admitted { out_fault gray (picture_meaning picture.now) ≡ None }
    requires end { progress end.old ≡ new_end (progress end.old).kind }
    requires created { (D.state desk.old).output_created ≡ true }
    ensures written { Decodes (D.state desk.old) (picture_text (progress end.old).kind picture.now gray smooth) result (D.state desk.new) }
    ensures end { IfOk result (λ u. progress end.new ≡ picture_end (progress end.old).kind picture.now gray smooth) }
{
    let Ok(mut rows) = PictureRows::new(alloc, picture, gray, smooth) else {
        return Err(DecodeStop::NoMemory);
    };
    let info = info_of(&picture.frame, picture.colour, picture.jfif, gray);
    write_image(&info, &mut rows, end, &mut Bytes::new(alloc), desk)
}

// Writes an image of these rows.
fn write_image<D: Desk>(
    info: &ImageInfo,
    rows: &mut PictureRows,
    end: &mut Box<dyn ImageEnd>,
    out: &mut Bytes,
    desk: &mut D,
) -> Result<(), DecodeStop>
    requires info { IsImageInfo info.now }
    requires rows { AreRowsOf info.now rows.old }
    requires end { progress end.old ≡ new_end (progress end.old).kind }
    requires out { out.old ≡ [] }
    requires created { (D.state desk.old).output_created ≡ true }
    ensures written { Decodes (D.state desk.old) (end_text (progress end.old).kind info.now (rows_in_all rows.old)) result (D.state desk.new) }
    ensures end { IfOk result (λ u. progress end.new ≡ finished_end (progress end.old).kind info.now (rows_in_all rows.old)) }
{
    let Ok(()) = start_image(info, end, out) else {
        return Err(DecodeStop::NoMemory);
    };
    send_rows(rows, end, out, desk)?;
    send_end(end, out, desk)?;
    send(out, desk)
}

// Begins the image.
pub(crate) fn start_image(
    info: &ImageInfo,
    end: &mut Box<dyn ImageEnd>,
    out: &mut Bytes,
) -> Result<(), NoMemory>
    requires end { (progress end.old).info ≡ None }
    requires info { IsImageInfo info.now }
    ensures { Starts (progress end.old) out.old info.now result (progress end.new) out.new }
{
    end.start(info, out)
}

// The size, kind and density of the image.
pub(crate) fn info_of(frame: &Frame, colour: Colour, jfif: Jfif, gray: bool) -> ImageInfo
    ensures { result ≡ info_for frame.now colour jfif gray }
{
    ImageInfo {
        width: frame.width(),
        height: frame.height(),
        kind: shown_kind(colour, gray),
        x_metre: metre(jfif.unit, jfif.x),
        y_metre: metre(jfif.unit, jfif.y),
    }
}

// Pixels per metre, if the unit is pixels per centimetre.
fn metre(unit: u8, density: u16) -> u32
    ensures { result ≡ (if unit == 2 then 100 * density else 0) }
{
    if unit == 2 {
        100 * u32::from(density)
    } else {
        0
    }
}

// Writes all rows.
fn send_rows<D: Desk>(
    rows: &mut PictureRows,
    end: &mut Box<dyn ImageEnd>,
    out: &mut Bytes,
    desk: &mut D,
) -> Result<(), DecodeStop>
    requires end { IsEndFor (progress end.old) rows.old }
    requires created { (D.state desk.old).output_created ≡ true }
    ensures { SendsRows (D.state desk.old) (progress end.old) out.old (rows_in_all rows.old) result (progress end.new) out.new (D.state desk.new) }
{
    while rows.advance() {
        send_row(rows.row(), end, out, desk)?;
    }
    Ok(())
}

// Writes a row.
pub(crate) fn send_row<D: Desk>(
    row: &[u8],
    end: &mut Box<dyn ImageEnd>,
    out: &mut Bytes,
    desk: &mut D,
) -> Result<(), DecodeStop>
    requires end { CanTakeRow (progress end.old) row.now }
    requires created { (D.state desk.old).output_created ≡ true }
    ensures sends { SendsRow (D.state desk.old) (progress end.old) out.old row.now result (progress end.new) out.new (D.state desk.new) }
    ensures few { length out.old < 32768 → length out.new < 32768 }
{
    match take_row(row, end, out) {
        Ok(()) => send_much(out, desk),
        Err(NoMemory) => Err(DecodeStop::NoMemory),
    }
}

// Gives a row to the image writer.
fn take_row(row: &[u8], end: &mut Box<dyn ImageEnd>, out: &mut Bytes) -> Result<(), NoMemory>
    requires end { CanTakeRow (progress end.old) row.now }
    ensures { TakesRow (progress end.old) out.old row.now result (progress end.new) out.new }
{
    end.row(row, out)
}

// Writes what follows the rows.
pub(crate) fn send_end<D: Desk>(
    end: &mut Box<dyn ImageEnd>,
    out: &mut Bytes,
    desk: &mut D,
) -> Result<(), DecodeStop>
    requires end { CanFinish (progress end.old) }
    requires whole { (progress end.old).parts ≡ 0 }
    requires created { (D.state desk.old).output_created ≡ true }
    ensures sent { SendsImage (D.state desk.old) out.old (end_parts (progress end.old)) result out.new (D.state desk.new) }
    ensures end { IfOk result (λ u. progress end.new ≡ finished (progress end.old)) }
    ensures few { length out.old < 32768 → length out.new < 32768 }
{
    loop {
        match send_part(end, out, desk)? {
            Finish::More => {}
            Finish::Done => return Ok(()),
        }
    }
}

// Writes a part of it.
fn send_part<D: Desk>(
    end: &mut Box<dyn ImageEnd>,
    out: &mut Bytes,
    desk: &mut D,
) -> Result<Finish, DecodeStop>
    requires end { CanFinish (progress end.old) }
    requires created { (D.state desk.old).output_created ≡ true }
    ensures sends { SendsPart (D.state desk.old) (progress end.old) out.old result (progress end.new) out.new (D.state desk.new) }
    ensures few { length out.old < 32768 → length out.new < 32768 }
{
    match take_part(end, out) {
        Ok(answer) => match send_much(out, desk) {
            Ok(()) => Ok(answer),
            Err(stop) => Err(stop),
        },
        Err(NoMemory) => Err(DecodeStop::NoMemory),
    }
}

// Takes a part from the image writer.
fn take_part(end: &mut Box<dyn ImageEnd>, out: &mut Bytes) -> Result<Finish, NoMemory>
    requires end { CanFinish (progress end.old) }
    ensures { Finishes (progress end.old) out.old result (progress end.new) out.new }
{
    end.finish(out)
}

// Writes the bytes that wait, if they are many.
fn send_much<D: Desk>(out: &mut Bytes, desk: &mut D) -> Result<(), DecodeStop>
    requires { (D.state desk.old).output_created ≡ true }
    ensures sent { SendsImage (D.state desk.old) out.old [] result out.new (D.state desk.new) }
    ensures few { length out.new < 32768 }
{
    if out.as_slice().len() < MANY {
        return Ok(());
    }
    send(out, desk)
}

// Writes all bytes that wait. None wait then, also if it fails.
pub(crate) fn send<D: Desk>(out: &mut Bytes, desk: &mut D) -> Result<(), DecodeStop>
    requires { (D.state desk.old).output_created ≡ true }
    ensures sent { SendsImage (D.state desk.old) out.old [] result out.new (D.state desk.new) }
    ensures all { IfOk result (λ u. out.new ≡ []) }
    ensures empty { out.new ≡ [] }
    ensures memory { result ≡ Err stop.NoMemory → ⊥ }
{
    let put = desk.write(out.as_slice());
    out.clear();
    match put {
        Put::Done => Ok(()),
        Put::Failed => Err(DecodeStop::WriteFault),
    }
}
