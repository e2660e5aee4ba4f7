//! A row's samples as BMP and Targa files have them: blue before red.
ghost use Rattle.std.specs.Prelude.{◌≡◌, ◌≤◌, ◌++◌, take, drop, length, OnOk};
ghost use Rattle.jpg_spec_image.specs.ImageText.{turned_round, file_samples};
ghost use Rattle.jpg_pnm_bmp.specs.TurnedRound.{turned_from};

use jpg_base::{Bytes, NoMemory};
use jpg_spec_image::ImageKind;
use std::simd::u8x16;

// Which of the bytes of five pixels come first as red and blue are exchanged, and the byte after them.
const EXCHANGED: [usize; 16] = [2, 1, 0, 5, 4, 3, 8, 7, 6, 11, 10, 9, 14, 13, 12, 15];

// Five pixels with red and blue exchanged, and the byte after them.
#[inline(always)]
fn five_turned(pixels: &[u8]) -> [u8; 16]
    requires { length pixels.now ≡ 16 }
    ensures { result ≡ turned_round (take 15 pixels.now) ++ drop 15 pixels.now }
{
    u8x16::from_slice(pixels).swizzle(EXCHANGED).to_array()
}

// Makes the first pixels of a line, which has those of a row, theirs with red and blue exchanged: five at a time, as long as
// a byte follows. Returns how many bytes those are.
fn turn_fives(row: &[u8], line: &mut [u8]) -> usize
    requires { line.old ≡ row.now }
    ensures inside { result ≤ length line.new }
    ensures long { length line.new ≡ length line.old }
    ensures turned { turned_from line.new result ≡ turned_round row.now }
{
    let mut at: usize = 0;
    while row.len() - at >= 16 {
        let turned = five_turned(&row[at..at + 16]);
        line[at..at + 16].copy_from_slice(&turned);
        at += 15;
    }
    at
}

// Exchanges the first and the third byte of each pixel of a line, which has those of a row.
fn turn_round(row: &[u8], line: &mut [u8])
    requires { line.old ≡ row.now }
    ensures turned { line.new ≡ turned_round row.now }
    ensures long { length line.new ≡ length line.old }
{
    let mut at = turn_fives(row, line);
    while line.len() - at >= 3 {
        let red = line[at];
        line[at] = line[at + 2];
        line[at + 2] = red;
        at += 3;
    }
}

/// Makes `part` this row of an image: gray samples as they are, and colours as blue, green, red.
pub fn file_row(part: &mut Vec<u8>, kind: ImageKind, row: &[u8]) -> Result<(), NoMemory>
    ensures samples { OnOk result (part.new.items ≡ file_samples kind row.now) }
    ensures long { OnOk result (length part.new.items ≡ length row.now) }
{
    part.clear();
    match part.extend_from_slice(row) {
        Ok(()) => {}
        Err(_) => return Err(NoMemory),
    }
    match kind {
        ImageKind::Gray => {}
        ImageKind::Rgb => turn_round(row, part.as_mut_slice()),
    }
    Ok(())
}

/// Appends this row of a file to samples: gray samples as they are, and blue, green, red as colours. They are made in `line`,
/// whatever is in it before.
pub fn add_file_row(
    row: &[u8],
    kind: ImageKind,
    line: &mut Vec<u8>,
    made: &mut Bytes,
) -> Result<(), NoMemory>
    ensures { OnOk result (made.new ≡ made.old ++ file_samples kind row.now) }
{
    match file_row(line, kind, row) {
        Ok(()) => made.push_all(line.as_slice()),
        Err(fault) => Err(fault),
    }
}
