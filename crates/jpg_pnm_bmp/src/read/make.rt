//! The samples of an image, from those of its file (release 6b's image files).
ghost use Rattle.std.specs.Prelude.{◌≡◌, ◌<◌, ◌≤◌, ◌+◌, ◌*◌, ◌-◌, ◌==◌, ◌++◌, [], ℕ, List, length, map, flat_map, true, OnOk, OnErr};
ghost use Rattle.jpg_spec_image.specs.PnmText.{scaled_sample};
ghost use Rattle.jpg_spec_image.specs.BmpFile.{bmp_depth, colour, colours, bmp_line, bmp_body_samples, height, line, used};
ghost use Rattle.jpg_spec_image.specs.ImageFaults.{image_of};
ghost use Rattle.jpg_pnm_bmp.specs.Made.{AreBytes, AreIndexes, IsMore, Makes};
ghost use Rattle.jpg_pnm_bmp.specs.Reader.{AreAllNumbers, CanMake, HasPixels, pnm_head, bmp_head, image_view};

use crate::read::bmp::{bmp_height, bmp_info, is_indexed, line, used};
use crate::read::numbers::{Numbers, pnm_info};
use crate::read::work::{Stage, Work};
use crate::write::file_row::add_file_row;
use jpg_base::{Bytes, NoMemory};
use jpg_spec_image::{ImageInfo, ImageKind};
use std::mem;

// A sample from 0 to the greatest one as 0 to 255.
fn scaled(most: u8, sample: u8) -> u8
    requires { 1 ≤ most }
    ensures { scaled_sample most sample < 256 → result ≡ scaled_sample most sample }
{
    let most = u32::from(most);
    ((255 * u32::from(sample) + most / 2) / most).min(255) as u8
}

// Appends samples, scaled.
pub(crate) fn add_scaled(samples: &[u8], most: u8, made: &mut Bytes) -> Result<(), NoMemory>
    requires { 1 ≤ most }
    ensures scaled { OnOk result (AreBytes (map (scaled_sample most) samples.now) → made.new ≡ made.old ++ map (scaled_sample most) samples.now) }
    ensures more { OnErr result (IsMore made.old made.new) }
{
    for sample in samples {
        match made.push_all(&[scaled(most, *sample)]) {
            Ok(()) => {}
            Err(fault) => return Err(fault),
        }
    }
    Ok(())
}

// Appends a row by a palette.
fn add_coloured(row: &[u8], palette: &[u8], made: &mut Bytes) -> Result<(), NoMemory>
    requires { AreIndexes palette.now row.now }
    ensures { OnOk result (made.new ≡ made.old ++ flat_map (colour palette.now) row.now) }
{
    for index in row {
        let at = 4 * usize::from(*index);
        match made.push_all(&[palette[at + 2], palette[at + 1], palette[at]]) {
            Ok(()) => {}
            Err(fault) => return Err(fault),
        }
    }
    Ok(())
}

// Appends a row of a BMP as red, green and blue.
fn add_row(
    head: &[u8],
    palette: &[u8],
    row: &[u8],
    line: &mut Vec<u8>,
    made: &mut Bytes,
) -> Result<(), NoMemory>
    requires long { 54 ≤ length head.now }
    requires coloured { (bmp_depth head.now == 8) ≡ true → AreIndexes palette.now row.now }
    ensures { OnOk result (made.new ≡ made.old ++ colours head.now palette.now row.now) }
{
    if is_indexed(head) {
        return add_coloured(row, palette, made);
    }
    add_file_row(row, ImageKind::Rgb, line, made)
}

// Row y from the top.
fn bmp_line<'a>(head: &[u8], body: &'a [u8], y: u32) -> &'a [u8]
    requires long { 54 ≤ length head.now }
    requires inside { y < height head.now }
    requires high { height head.now ≤ 65500 }
    requires there { line head.now * (height head.now - 1) + used head.now ≤ length body.now }
    ensures { result.now ≡ bmp_line head.now body.now y }
{
    let below = bmp_height(head) - 1 - y;
    let start = line(head) * u64::from(below);
    let end = start + used(head);
    &body[start as usize..end as usize]
}

// Appends the rows of a BMP from the top, which are its lines in reverse order.
fn add_rows(
    head: &[u8],
    palette: &[u8],
    body: &[u8],
    line: &mut Vec<u8>,
    made: &mut Bytes,
) -> Result<(), NoMemory>
    requires { HasPixels head.now palette.now body.now }
    ensures { OnOk result (made.new ≡ made.old ++ bmp_body_samples head.now palette.now body.now) }
{
    let mut y: u32 = 0;
    while y < bmp_height(head) {
        match add_row(head, palette, bmp_line(head, body, y), line, made) {
            Ok(()) => {}
            Err(fault) => return Err(fault),
        }
        y += 1;
    }
    Ok(())
}

// Where the greatest sample is 255 the samples are those of the file, and are moved instead of copied.
fn make_pnm(work: &mut Work, made: &mut Bytes) -> Result<ImageInfo, NoMemory>
    requires empty { made.old ≡ [] }
    requires all { AreAllNumbers work.old.numbers }
    ensures { Makes (image_of (pnm_head work.old) work.old.samples) result made.new }
{
    match work.numbers {
        Numbers::All(width, height, most) => {
            let info = pnm_info(work.format, width, height);
            if most == 255 {
                mem::swap(&mut work.samples, made);
                return Ok(info);
            }
            match add_scaled(work.samples.as_slice(), most, made) {
                Ok(()) => Ok(info),
                Err(fault) => Err(fault),
            }
        }
        Numbers::Nothing => unreachable!(),
        Numbers::Width(_) => unreachable!(),
        Numbers::Sides(_, _) => unreachable!(),
    }
}

fn make_bmp(work: &mut Work, made: &mut Bytes) -> Result<ImageInfo, NoMemory>
    requires empty { made.old ≡ [] }
    requires pixels { HasPixels work.old.head work.old.palette work.old.samples }
    ensures { Makes (image_of (bmp_head work.old) work.old.samples) result made.new }
{
    let head = work.head.as_slice();
    let info = bmp_info(head);
    let (palette, samples) = (work.palette.as_slice(), work.samples.as_slice());
    match add_rows(head, palette, samples, &mut work.line, made) {
        Ok(()) => Ok(info),
        Err(fault) => Err(fault),
    }
}

// Makes the image whose last sample is known. Returns its sides and kind.
pub(crate) fn make_image(work: &mut Work, made: &mut Bytes) -> Result<ImageInfo, NoMemory>
    requires { CanMake work.old }
    ensures { Makes (image_view [] work.old) result made.new }
{
    made.clear();
    match work.stage {
        Stage::PnmBody => make_pnm(work, made),
        Stage::BmpBody => make_bmp(work, made),
        Stage::Start => unreachable!(),
        Stage::First(_) => unreachable!(),
        Stage::Gap { .. } => unreachable!(),
        Stage::Number(_) => unreachable!(),
        Stage::BmpHead => unreachable!(),
        Stage::BmpFront(_) => unreachable!(),
    }
}
