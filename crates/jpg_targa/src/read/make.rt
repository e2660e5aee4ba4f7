//! The samples of an image, from those of its Targa file.
ghost use Rattle.std.specs.Prelude.{◌≡◌, ◌<◌, ◌≤◌, ◌-◌, ◌++◌, if◌then◌else◌, true, length, OnOk};
ghost use Rattle.jpg_spec_image.specs.ImageText.{file_samples};
ghost use Rattle.jpg_spec_image.specs.TargaFile.{targa_row, targa_height, targa_kind, is_from_top, targa_image};
ghost use Rattle.jpg_spec_image.specs.TargaSteps.{total};
ghost use Rattle.jpg_spec_image.specs.declared.image.ImageKind.TheVariants.{Gray};
ghost use Rattle.jpg_pnm_bmp.specs.Made.{Makes};

use crate::read::head::{height, info, is_from_top, kind, row_bytes, total};
use crate::read::work::Work;
use jpg_base::{Bytes, NoMemory};
use jpg_pnm_bmp::add_file_row;
use jpg_spec_image::{ImageInfo, ImageKind};
use std::mem;

// Which of the file's rows is row y from the top.
fn line_of(head: &[u8; 18], y: u16) -> u16
    requires { y < targa_height head.now }
    ensures inside { result < targa_height head.now }
    ensures is { result ≡ (if is_from_top head.now then y else targa_height head.now - 1 - y) }
{
    if is_from_top(head) {
        return y;
    }
    height(head) - 1 - y
}

// Row y from the top.
fn targa_row<'a>(head: &[u8; 18], pixels: &'a [u8], y: u16) -> &'a [u8]
    requires inside { y < targa_height head.now }
    requires there { total head.now ≤ length pixels.now }
    ensures { result.now ≡ targa_row head.now pixels.now y }
{
    let at = line_of(head, y);
    let long = row_bytes(head);
    let start = long * u64::from(at);
    let end = start + long;
    &pixels[start as usize..end as usize]
}

// Appends the rows from the top.
fn add_rows(
    head: &[u8; 18],
    pixels: &[u8],
    line: &mut Vec<u8>,
    made: &mut Bytes,
) -> Result<(), NoMemory>
    requires { total head.now ≤ length pixels.now }
    ensures { OnOk result (made.new ≡ made.old ++ (targa_image head.now pixels.now).samples) }
{
    let mut y: u16 = 0;
    while y < height(head) {
        match add_file_row(targa_row(head, pixels, y), kind(head), line, made) {
            Ok(()) => {}
            Err(fault) => return Err(fault),
        }
        y += 1;
    }
    Ok(())
}

// Whether the bytes are the samples as they are: those of grays, with rows from the top.
fn are_samples(work: &Work) -> bool
    ensures samples { result ≡ true → (targa_image work.now.head work.now.pixels).samples ≡ work.now.pixels }
    ensures always { targa_kind work.now.head ≡ Gray → is_from_top work.now.head ≡ true → length work.now.pixels ≡ total work.now.head → result ≡ true }
{
    match kind(&work.head) {
        ImageKind::Gray => {
            is_from_top(&work.head) && work.pixels.as_slice().len() as u64 == total(&work.head)
        }
        ImageKind::Rgb => false,
    }
}

// Makes the image whose last pixel is known. Returns its sides and kind. Samples that stand as in the image are moved
// instead of copied.
pub(crate) fn make_image(work: &mut Work, made: &mut Bytes) -> Result<ImageInfo, NoMemory>
    requires { total work.old.head ≤ length work.old.pixels }
    ensures { Makes (targa_image work.old.head work.old.pixels) result made.new }
{
    made.clear();
    let info = info(&work.head);
    if are_samples(work) {
        mem::swap(&mut work.pixels, made);
        return Ok(info);
    }
    match add_rows(&work.head, work.pixels.as_slice(), &mut work.line, made) {
        Ok(()) => Ok(info),
        Err(fault) => Err(fault),
    }
}
