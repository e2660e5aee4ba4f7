//! The header of a BMP image, parsed.
ghost use Rattle.std.specs.Prelude.{◌≡◌, ◌+◌, ◌<◌, ◌≤◌, ◌&&◌, ◌==◌, ℕ, List, length};
ghost use Rattle.jpg_spec_image.specs.BmpFile.{short_at, long_at, bmp_offset, palette_entries, palette_bytes, has_wrong_precision, is_forbidden, bmp_depth, bmp_fault, bmp_info, height, used, line};
ghost use Rattle.jpg_spec_image.specs.Images.{is_side, are_few_pixels};
ghost use Rattle.jpg_spec_image.specs.ImageFaults.{bmp, body_of};
ghost use Rattle.jpg_pnm_bmp.specs.Shapes.{body_view};

use crate::read::body::Shape;
use jpg_spec::Fault;
use jpg_spec_image::{ImageInfo, ImageKind};

fn short_at(head: &[u8], place: usize) -> u16
    requires { place + 1 < length head.now }
    ensures { result ≡ short_at head.now place }
{
    256 * u16::from(head[place + 1]) + u16::from(head[place])
}

pub(crate) fn long_at(head: &[u8], place: usize) -> u32
    requires { place + 3 < length head.now }
    ensures { result ≡ long_at head.now place }
{
    65536 * u32::from(short_at(head, place + 2)) + u32::from(short_at(head, place))
}

pub(crate) fn bmp_offset(head: &[u8]) -> u32
    requires { 54 ≤ length head.now }
    ensures { result ≡ bmp_offset head.now }
{
    long_at(head, 10)
}

fn palette_entries(head: &[u8]) -> u32
    requires { 54 ≤ length head.now }
    ensures { result ≡ palette_entries head.now }
{
    if short_at(head, 28) != 8 {
        return 0;
    }
    let colours = long_at(head, 46);
    if colours == 0 {
        return 256;
    }
    colours
}

pub(crate) fn palette_bytes(head: &[u8]) -> u64
    requires { 54 ≤ length head.now }
    ensures { result ≡ palette_bytes head.now }
{
    4 * u64::from(palette_entries(head))
}

fn has_wrong_precision(head: &[u8]) -> bool
    requires { 54 ≤ length head.now }
    ensures { result ≡ has_wrong_precision head.now }
{
    let bmp_depth = short_at(head, 28);
    long_at(head, 14) != 40 || (!(8 == bmp_depth || 24 == bmp_depth) || long_at(head, 30) != 0)
}

fn is_side(n: u32) -> bool
    ensures { result ≡ is_side n }
{
    1 <= n && n <= 65500
}

fn are_sides(width: u32, height: u32) -> bool
    ensures { result ≡ (is_side width && is_side height) && are_few_pixels width height }
{
    is_side(width) && is_side(height) && u64::from(width) * u64::from(height) <= 268_435_456
}

fn is_forbidden(head: &[u8]) -> bool
    requires { 54 ≤ length head.now }
    ensures { result ≡ is_forbidden head.now }
{
    let sides = are_sides(long_at(head, 18), long_at(head, 22));
    let colours = short_at(head, 28) == 8 && 256 < long_at(head, 46);
    let early = u64::from(bmp_offset(head)) < 54 + palette_bytes(head);
    !sides || (short_at(head, 26) != 1 || (colours || early))
}

pub(crate) fn head_fault(head: &[u8]) -> Option<Fault>
    requires { 54 ≤ length head.now }
    ensures { result ≡ bmp_fault head.now }
{
    if has_wrong_precision(head) {
        return Some(Fault::ImageUnsupported);
    }
    if is_forbidden(head) {
        return Some(Fault::ImageHeader);
    }
    None
}

pub(crate) fn used(head: &[u8]) -> u64
    requires { 54 ≤ length head.now }
    ensures used { result ≡ used head.now }
    ensures most { result ≤ 12884901885 }
{
    let width = u64::from(long_at(head, 18));
    if short_at(head, 28) == 8 {
        width
    } else {
        3 * width
    }
}

pub(crate) fn line(head: &[u8]) -> u64
    requires { 54 ≤ length head.now }
    ensures line { result ≡ line head.now }
    ensures most { result ≤ 12884901888 }
{
    let used = used(head);
    used + (4 - used % 4) % 4
}

// The shape of the pixels, where nothing is wrong with the header.
pub(crate) fn bmp_shape(head: &[u8]) -> Shape
    requires { 54 ≤ length head.now }
    ensures { (palette : List ℕ) → height head.now ≤ 65500 → body_view result ≡ body_of (bmp head.now palette) }
{
    let used = used(head);
    let line = line(head);
    let rows = u64::from(long_at(head, 22)).saturating_sub(1).min(65500);
    let limit = if short_at(head, 28) == 8 {
        palette_entries(head)
    } else {
        256
    };
    Shape {
        count: line * rows + used,
        line,
        used,
        limit,
    }
}

pub(crate) fn bmp_height(head: &[u8]) -> u32
    requires { 54 ≤ length head.now }
    ensures { result ≡ height head.now }
{
    long_at(head, 22)
}

// Whether the pixels are indexes of a palette.
pub(crate) fn is_indexed(head: &[u8]) -> bool
    requires { 54 ≤ length head.now }
    ensures { result ≡ (bmp_depth head.now == 8) }
{
    short_at(head, 28) == 8
}

pub(crate) fn bmp_info(head: &[u8]) -> ImageInfo
    requires { 54 ≤ length head.now }
    ensures { result ≡ bmp_info head.now }
{
    ImageInfo {
        width: long_at(head, 18),
        height: long_at(head, 22),
        kind: ImageKind::Rgb,
        x_metre: long_at(head, 38),
        y_metre: long_at(head, 42),
    }
}
