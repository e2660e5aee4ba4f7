//! The lines that jpgwork writes.
ghost use Rattle.std.specs.Prelude.{◌≡◌, ◌≤◌, ◌<◌, ◌^◌, ◌++◌, ◌∷◌, [], IfOk, IfSome, codes, drop, length, sum};
ghost use Rattle.jpg_spec_image.specs.ImageText.{pnm_header};
ghost use Rattle.jpg_spec_words.specs.Work.{back_line, number_line, sides_line, work_info};
ghost use Rattle.jpg_cli.specs.Tools.Worked.{lines_by};

use crate::message::{Message, add, add_number};
use crate::tools::work_image::info_of;
use jpg_base::{Bytes, NoMemory};
use std::alloc::Global;

/// The texts of the three files: that of the image, the one of its rotated picture, and that one rotated back.
#[derive(Clone, Copy)]
pub struct WorkFiles<'a> {
    pub first: &'a [u8],
    pub turned: &'a [u8],
    pub back: &'a [u8],
}

// The line that has the sides of the image.
fn sides_line(width: u32, height: u32) -> Message
    ensures { result.items ≡ sides_line (record (work_info 0) { width = width; height = height }) }
{
    let mut line = Message::new();
    add(&mut line, "image ");
    add_number(&mut line, u64::from(width));
    add(&mut line, " ");
    add_number(&mut line, u64::from(height));
    add(&mut line, "\n");
    line
}

// A line that has a name and a number.
fn number_line(name: &str, number: u64) -> Message
    requires { length name.now ≤ 20 }
    ensures { result.items ≡ number_line name.now number }
{
    let mut line = Message::new();
    add(&mut line, name);
    add(&mut line, " ");
    add_number(&mut line, number);
    add(&mut line, "\n");
    line
}

// The line that says whether the third file is the first one.
fn back_line(same: bool) -> &'static str
    ensures { result.now ≡ back_line same }
{
    if same { "back same\n" } else { "back other\n" }
}

// The header of the image as PNM.
#[tactic(auto, unfolding(jpg_spec_image::specs::ImageText::pnm_header))]
fn header_of(size: u16) -> Message
    requires { size ≤ 400 }
    ensures { result.items ≡ pnm_header (work_info size) }
{
    let info = info_of(size);
    let mut header = Message::new();
    add(&mut header, "P6\n");
    add_number(&mut header, u64::from(info.width));
    add(&mut header, " ");
    add_number(&mut header, u64::from(info.height));
    add(&mut header, "\n255\n");
    header
}

// The sum of bytes.
fn sum_of(bytes: &[u8]) -> u64
    requires { length bytes.now < 2 ^ 32 }
    ensures { result ≡ sum bytes.now }
{
    let mut sum: u64 = 0;
    for byte in bytes {
        sum += u64::from(*byte);
    }
    sum
}

/// The sum of the samples of the image that has this text; none if there are four thousand million of them.
pub fn samples_sum(size: u16, text: &[u8]) -> Option<u64>
    requires small { size ≤ 400 }
    requires header { length (pnm_header (work_info size)) ≤ length text.now }
    ensures { IfSome result (λ n. n ≡ sum (drop (length (pnm_header (work_info size))) text.now)) }
{
    let header = header_of(size);
    let samples = &text[header.len()..];
    if samples.len() > 4_000_000_000 {
        return None;
    }
    Some(sum_of(samples))
}

/// The five lines, by the texts of the three files and the sum of the samples.
pub fn lines_of(alloc: Global, size: u16, files: WorkFiles, samples: u64) -> Result<Bytes, NoMemory>
    requires { size ≤ 400 }
    ensures { IfOk result (λ text. text ≡ lines_by size files.entry samples) }
{
    let info = info_of(size);
    let mut text = Bytes::new(alloc);
    text.push_all(sides_line(info.width, info.height).as_slice())?;
    text.push_all(number_line("first", files.first.len() as u64).as_slice())?;
    text.push_all(number_line("turned", files.turned.len() as u64).as_slice())?;
    text.push_all(back_line(files.back == files.first).as_bytes())?;
    text.push_all(number_line("samples", samples).as_slice())?;
    Ok(text)
}
