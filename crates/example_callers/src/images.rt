//! An image encoded, by `jpg_pnm_bmp`, `jpg_dct`, `jpg_color`, `jpg_transform` and `jpg_file` (the manual of cjpeg).
ghost use Rattle.std.specs.Prelude.{◌≡◌, ◌≤◌, All, [], length, false};
ghost use Rattle.jpg_spec_encode.specs.Encoded.{count_due};
ghost use Rattle.jpg_spec_words.specs.EncodeWords.{factors_due};
ghost use Rattle.jpg_spec_encode.specs.EncodingLaws.{AreFactors};
ghost use Rattle.jpg_color.specs.Encode.{AsksFor, CanEncode, image_view};
ghost use Rattle.jpg_file.specs.Read.PictureRead.{picture_meaning};
ghost use Rattle.jpg_pnm_bmp.specs.Made.{IsRightImage};
ghost use Rattle.example_callers.specs.Encoding.{IsImageOf, IsEncodedFrom, HoldsAsItIs, encoding_at};

use crate::pictures::{NotTurned, write_turned};
use arrayvec::ArrayVec;
use jpg_base::{Fault, FaultAt, Limits, MemoryDesk, Stop};
use jpg_color::{EncodeStop, Encoding, encode_picture};
use jpg_dct::encoding_tables;
use jpg_file::Picture;
use jpg_pnm_bmp::{Fed2, Image, ImageKind, PixelReader};
use jpg_transform::{Choice, Copying, Huffman, Restart, Scans, Transform, plan};
use std::alloc::Global;

/// The image of a file, PNM or BMP. Returns the file's first fault, at the number of bytes that reveal it,
/// ImageShort at the file's length and InputTooLong at 2^40 among them; and NoMemory. Bytes after the last sample are
/// ignored.
pub fn read_image(alloc: Global, file: &[u8]) -> Result<Image, Stop>
    ensures { IsImageOf file.now result }
{
    let most = Limits::standard().input;
    let front = &file[..file.len().min(most as usize)];
    let mut reader = PixelReader::new(alloc);
    match reader.feed(front) {
        Ok(Fed2::Done) => Ok(reader.take()),
        Ok(Fed2::More) if front.len() as u64 == most => Err(Stop::Fault(FaultAt {
            fault: Fault::InputTooLong,
            at: most,
        })),
        Ok(Fed2::More) => match reader.end() {
            Ok(()) => Ok(reader.take()),
            Err(stop) => Err(stop),
        },
        Err(stop) => Err(stop),
    }
}

/// A desk whose one output, named `Name::Out`, has the file of the image encoded at a quality from 1 to 100,
/// chrominance at half its width and height, in one scan. Returns what `read_image` stops at, the image's fault, or
/// NoMemory.
pub fn encode(alloc: Global, file: &[u8], quality: u8) -> Result<MemoryDesk, NotTurned>
    requires { (1 ≤ quality) × (quality ≤ 100) }
    ensures { IsEncodedFrom file.now quality result }
{
    let image = match read_image(alloc, file) {
        Ok(image) => image,
        Err(stop) => return Err(NotTurned::Stop(stop)),
    };
    let encoding = encoding_at(quality, &image);
    match encode_picture(alloc, &image, &encoding) {
        Ok(picture) => write_as_it_is(alloc, &picture),
        Err(EncodeStop::Picture(fault)) => Err(NotTurned::Picture(fault)),
        Err(EncodeStop::NoMemory) => Err(NotTurned::Stop(Stop::NoMemory)),
    }
}

// How an image is encoded at a quality.
fn encoding_at(quality: u8, image: &Image) -> Encoding
    requires quality { (1 ≤ quality) × (quality ≤ 100) }
    requires image { IsRightImage (image_view image.now) }
    ensures asks { AsksFor result (encoding_at quality (image_view image.now)) }
    ensures can { CanEncode image.now result }
{
    Encoding {
        gray: false,
        progressive: false,
        factors: factors_of(image.info.kind),
        tables: encoding_tables(Some(quality), false, None),
    }
}

// Chrominance at half the width and height.
fn factors_of(kind: ImageKind) -> ArrayVec<(u8, u8), 4>
    ensures value { result.items ≡ factors_due [] (count_due false kind) }
    ensures range { All AreFactors result.items }
    ensures long { length result.items ≡ count_due false kind }
{
    let mut factors = ArrayVec::new();
    match kind {
        ImageKind::Gray => factors.push((1, 1)),
        ImageKind::Rgb => {
            factors.push((2, 2));
            factors.push((1, 1));
            factors.push((1, 1));
        }
    }
    factors
}

// The file of an untransformed picture.
fn write_as_it_is(alloc: Global, picture: &Picture) -> Result<MemoryDesk, NotTurned>
    ensures { HoldsAsItIs (picture_meaning picture.now) result }
{
    let choice = Choice {
        transform: Transform::Keep,
        trim: false,
        gray: false,
        copying: Copying::None,
        scans: Scans::Sequential,
        huffman: Huffman::Plain,
        restart: Restart::Off,
    };
    match plan(picture, &choice) {
        Ok(job) => write_turned(alloc, picture, &choice, &job),
        Err(fault) => Err(NotTurned::Picture(fault)),
    }
}
