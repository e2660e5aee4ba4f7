//! The header of a BMP file, with the palette of grays.
ghost use Rattle.std.specs.Prelude.{◌≡◌, ◌≤◌, ◌++◌, ◌+◌, ◌*◌, length, OnOk};
ghost use Rattle.jpg_spec_image.specs.ImageText.{row_bytes, padding, offset, file_size, palette, bmp_header};
ghost use Rattle.jpg_spec_image.specs.declared.image.ImageKind.TheVariants as samples;
ghost use Rattle.jpg_pnm_bmp.specs.Bmp.{IsInBounds, file_words, image_words, colour_words};

use crate::write::short::Short;
use jpg_base::NoMemory;
use jpg_spec_image::{ImageInfo, ImageKind};

// How many bytes a row of the image has.
pub(crate) fn bytes_of_row(info: &ImageInfo) -> u32
    requires { IsInBounds info.now }
    ensures bytes { result ≡ row_bytes info.now }
    ensures most { result ≤ 196500 }
    ensures within { result ≤ 3 * info.now.width }
{
    match info.kind {
        ImageKind::Gray => info.width,
        ImageKind::Rgb => 3 * info.width,
    }
}

// How many zeros follow this many bytes of a row.
pub(crate) fn padding_of(count: u32) -> u32
    ensures zeros { result ≡ padding count }
    ensures most { result ≤ 3 }
{
    (4 - count % 4) % 4
}

fn offset_of(info: &ImageInfo) -> u32
    ensures place { result ≡ offset info.now }
    ensures most { result ≤ 1078 }
{
    match info.kind {
        ImageKind::Gray => 1078,
        ImageKind::Rgb => 54,
    }
}

fn size_of_file(info: &ImageInfo) -> u32
    requires { IsInBounds info.now }
    ensures { result ≡ file_size info.now }
{
    let long = bytes_of_row(info);
    offset_of(info) + info.height * (long + padding_of(long))
}

#[tactic(auto, unfolding(crate::specs::Bmp::file_words))]
fn put_file_words(text: &mut Short, info: &ImageInfo)
    requires bounds { IsInBounds info.now }
    requires room { 14 + length text.old ≤ 64 }
    ensures { text.new ≡ file_words info.now ++ text.old }
{
    text.put_long(offset_of(info));
    text.put_long(0);
    text.put_long(size_of_file(info));
    text.put_text("BM");
}

#[tactic(auto, unfolding(crate::specs::Bmp::image_words))]
fn put_image_words(text: &mut Short, info: &ImageInfo)
    requires room { 24 + length text.old ≤ 64 }
    ensures words { text.new ≡ image_words info.now ++ text.old }
    ensures more { length text.new ≡ 24 + length text.old }
{
    let depth: u16 = match info.kind {
        ImageKind::Gray => 8,
        ImageKind::Rgb => 24,
    };
    text.put_long(0);
    text.put_long(0);
    text.put_short(depth);
    text.put_short(1);
    text.put_long(info.height);
    text.put_long(info.width);
    text.put_long(40);
}

#[tactic(auto, unfolding(crate::specs::Bmp::colour_words))]
fn put_colour_words(text: &mut Short, info: &ImageInfo)
    requires room { 16 + length text.old ≤ 64 }
    ensures words { text.new ≡ colour_words info.now ++ text.old }
    ensures more { length text.new ≡ 16 + length text.old }
{
    let grays: u32 = match info.kind {
        ImageKind::Gray => 256,
        ImageKind::Rgb => 0,
    };
    text.put_long(0);
    text.put_long(grays);
    text.put_long(info.y_metre);
    text.put_long(info.x_metre);
}

// Appends the grays from black to white, each as blue, green, red and a zero.
fn add_grays(part: &mut Vec<u8>) -> Result<(), NoMemory>
    ensures { OnOk result (part.new.items ≡ part.old.items ++ palette samples.Gray) }
{
    let mut gray: u32 = 0;
    while gray < 256 {
        let sample = gray as u8;
        match part.extend_from_slice(&[sample, sample, sample, 0]) {
            Ok(()) => {}
            Err(_) => return Err(NoMemory),
        }
        gray += 1;
    }
    Ok(())
}

// Makes `part` the complete header.
#[tactic(auto, unfolding(jpg_spec_image::specs::ImageText::bmp_header, jpg_spec_image::specs::ImageText::palette))]
pub(crate) fn make_header(part: &mut Vec<u8>, info: &ImageInfo) -> Result<(), NoMemory>
    requires { IsInBounds info.now }
    ensures { OnOk result (part.new.items ≡ bmp_header info.now) }
{
    let mut text = Short::new();
    put_colour_words(&mut text, info);
    put_image_words(&mut text, info);
    put_file_words(&mut text, info);
    part.clear();
    match part.extend_from_slice(text.as_slice()) {
        Ok(()) => {}
        Err(_) => return Err(NoMemory),
    }
    match info.kind {
        ImageKind::Gray => add_grays(part),
        ImageKind::Rgb => Ok(()),
    }
}
