//! The header of a Targa file, parsed.
ghost use Rattle.std.specs.Prelude.{◌≡◌, ◌≤◌, ◌+◌, ◌<◌, ◌&&◌, ℕ, length};
ghost use Rattle.jpg_spec_image.specs.Images.{is_side, are_few_pixels};
ghost use Rattle.jpg_spec_image.specs.ImageText.{row_bytes, depth};
ghost use Rattle.jpg_spec_image.specs.BmpFile.{short_at};
ghost use Rattle.jpg_spec_image.specs.TargaFile.{targa_kind, targa_width, targa_height, targa_info, is_packed, is_from_top, is_ordered_otherwise, is_left_out_targa, has_targa_sides, targa_fault};
ghost use Rattle.jpg_spec_image.specs.TargaSteps.{total, size};

use jpg_spec::Fault;
use jpg_spec_image::{ImageInfo, ImageKind};

fn short_at(head: &[u8; 18], place: usize) -> u16
    requires { place + 1 < 18 }
    ensures { result ≡ short_at head.now place }
{
    256 * u16::from(head[place + 1]) + u16::from(head[place])
}

pub(crate) fn width(head: &[u8; 18]) -> u16
    ensures { result ≡ targa_width head.now }
{
    short_at(head, 12)
}

pub(crate) fn height(head: &[u8; 18]) -> u16
    ensures { result ≡ targa_height head.now }
{
    short_at(head, 14)
}

pub(crate) fn kind(head: &[u8; 18]) -> ImageKind
    ensures { result ≡ targa_kind head.now }
{
    if head[2] == 3 || head[2] == 11 {
        return ImageKind::Gray;
    }
    ImageKind::Rgb
}

pub(crate) fn is_packed(head: &[u8; 18]) -> bool
    ensures { result ≡ is_packed head.now }
{
    head[2] == 10 || head[2] == 11
}

pub(crate) fn is_from_top(head: &[u8; 18]) -> bool
    ensures { result ≡ is_from_top head.now }
{
    head[17] / 32 % 2 == 1
}

fn is_ordered_otherwise(head: &[u8; 18]) -> bool
    ensures { result ≡ is_ordered_otherwise head.now }
{
    head[17] / 16 % 2 != 0 || head[17] / 64 != 0
}

// How many bits a pixel has.
fn depth(kind: ImageKind) -> u8
    ensures { result ≡ depth kind }
{
    match kind {
        ImageKind::Gray => 8,
        ImageKind::Rgb => 24,
    }
}

fn is_left_out(head: &[u8; 18]) -> bool
    ensures { result ≡ is_left_out_targa head.now }
{
    let known = head[2] == 2 || (head[2] == 3 || (head[2] == 10 || head[2] == 11));
    head[1] != 0 || (!known || (head[16] != depth(kind(head)) || is_ordered_otherwise(head)))
}

fn is_side(n: u16) -> bool
    ensures { result ≡ is_side n }
{
    1 <= n && n <= 65500
}

fn has_sides(head: &[u8; 18]) -> bool
    ensures { result ≡ has_targa_sides head.now }
{
    let (width, height) = (width(head), height(head));
    (is_side(width) && is_side(height)) && u64::from(width) * u64::from(height) <= 268_435_456
}

pub(crate) fn head_fault(head: &[u8; 18]) -> Option<Fault>
    ensures { result ≡ targa_fault head.now }
{
    if is_left_out(head) {
        return Some(Fault::ImageUnsupported);
    }
    if has_sides(head) {
        return None;
    }
    Some(Fault::ImageHeader)
}

pub(crate) fn info(head: &[u8; 18]) -> ImageInfo
    ensures { result ≡ targa_info head.now }
{
    ImageInfo {
        width: u32::from(width(head)),
        height: u32::from(height(head)),
        kind: kind(head),
        x_metre: 0,
        y_metre: 0,
    }
}

// How many bytes a pixel has.
pub(crate) fn size(head: &[u8; 18]) -> u8
    ensures size { result ≡ size head.now }
    ensures few { result ≤ 3 }
{
    match kind(head) {
        ImageKind::Gray => 1,
        ImageKind::Rgb => 3,
    }
}

// How many bytes a row has.
pub(crate) fn row_bytes(head: &[u8; 18]) -> u64
    ensures long { result ≡ row_bytes (targa_info head.now) }
    ensures most { result ≤ 196605 }
{
    u64::from(size(head)) * u64::from(width(head))
}

// How many bytes all pixels have.
pub(crate) fn total(head: &[u8; 18]) -> u64
    ensures { result ≡ total head.now }
{
    u64::from(height(head)) * row_bytes(head)
}
