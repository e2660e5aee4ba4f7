//! How the samples of an image are laid out in its file.
ghost use Rattle.std.specs.Prelude.{◌≡◌, ◌<◌, ◌≤◌, ◌+◌, ◌%◌, ◌∷◌, [], ℕ, List, length, slice_index, IfSome, IfNone};
ghost use Rattle.jpg_spec_image.specs.ImageFaults.{pnm, body_of};
ghost use Rattle.jpg_pnm_bmp.specs.Known.{list_of};
ghost use Rattle.jpg_pnm_bmp.specs.Shapes.{body_view, AreBelow};
ghost use Rattle.jpg_pnm_bmp.specs.declared.read.numbers.Numbers.TheVariants as known;

use crate::read::numbers::{Numbers, sample_count};

// How the samples of an image are laid out in its file.
#[derive(Clone, Copy)]
pub struct Shape {
    // Bytes in all.
    pub count: u64,
    // Bytes of a line.
    pub line: u64,
    // How many first bytes of a line are samples.
    pub used: u64,
    // One more than the greatest sample.
    pub limit: u32,
}

pub(crate) fn pnm_shape(format: u8, numbers: Numbers) -> Shape
    ensures { (w h m : ℕ) → numbers ≡ known.All w h m → body_view result ≡ body_of (pnm format (w ∷ h ∷ m ∷ [])) }
{
    match numbers {
        Numbers::All(width, height, most) => {
            let count = sample_count(format, width, height);
            Shape {
                count,
                line: count,
                used: count,
                limit: limit_of(most),
            }
        }
        Numbers::Nothing => no_shape(),
        Numbers::Width(_) => no_shape(),
        Numbers::Sides(_, _) => no_shape(),
    }
}

// One more than the greatest sample.
fn limit_of(most: u8) -> u32
    ensures { result ≡ most + 1 }
{
    u32::from(most) + 1
}

fn no_shape() -> Shape {
    Shape {
        count: 0,
        line: 0,
        used: 0,
        limit: 0,
    }
}

// The place of the first byte that isn't below the limit.
pub(crate) fn first_above(bytes: &[u8], limit: u32) -> Option<usize>
    ensures within { IfSome result (λ k. k < length bytes.now) }
    ensures before { IfSome result (λ n. AreBelow limit bytes.now n) }
    ensures above { IfSome result (λ k. limit ≤ slice_index bytes.now k) }
    ensures none { IfNone result (AreBelow limit bytes.now (length bytes.now)) }
{
    if limit > 255 {
        return None;
    }
    for (k, byte) in bytes.iter().enumerate() {
        if limit <= u32::from(*byte) {
            return Some(k);
        }
    }
    None
}

fn place_of(at: u64, line: u64) -> u64
    ensures { 0 < line → result ≡ at % line }
{
    at % line.max(1)
}

// A number of bytes, at least one, up to the end and to those that are left, and at most `most`.
fn part_up_to(end: u64, place: u64, left: u64, most: usize) -> usize
    requires { 1 ≤ most }
    ensures some { 1 ≤ result }
    ensures within { result ≤ most }
    ensures end { place < end → place + result ≤ end }
    ensures left { 1 ≤ left → result ≤ left }
    ensures far { result < most → result < left → end ≤ place + result }
{
    let up_to = end.saturating_sub(place);
    up_to.min(left).min(most as u64).max(1) as usize
}

// How many bytes are taken after those that are kept: as many as there are up to the end of a line's samples, or of a
// line, or of the body.
pub(crate) fn part_long(shape: Shape, at: u64, most: usize) -> usize
    requires { 1 ≤ most }
    ensures some { 1 ≤ result }
    ensures within { result ≤ most }
    ensures few { at < shape.count → at + result ≤ shape.count }
    ensures along { 0 < shape.line → at % shape.line < shape.used → at % shape.line + result ≤ shape.used }
    ensures behind { 0 < shape.line → shape.used ≤ at % shape.line → at % shape.line + result ≤ shape.line }
    ensures far_along { result < most → at + result < shape.count → 0 < shape.line → at % shape.line < shape.used → shape.used ≤ at % shape.line + result }
    ensures far_behind { result < most → at + result < shape.count → 0 < shape.line → shape.used ≤ at % shape.line → shape.line ≤ at % shape.line + result }
{
    let place = place_of(at, shape.line);
    let left = shape.count.saturating_sub(at);
    if place < shape.used {
        return part_up_to(shape.used, place, left, most);
    }
    part_up_to(shape.line, place, left, most)
}

// The place of the first sample that isn't below the limit, in a part of a body.
pub(crate) fn wrong_in(shape: Shape, at: u64, part: &[u8]) -> Option<usize>
    ensures within { IfSome result (λ k. k < length part.now) }
    ensures before { IfSome result (λ k. AreBelow shape.limit part.now k) }
    ensures above { IfSome result (λ k. shape.limit ≤ slice_index part.now k) }
    ensures judged { IfSome result (λ k. 0 < shape.line → at % shape.line < shape.used) }
    ensures none { IfNone result (0 < shape.line → at % shape.line < shape.used → AreBelow shape.limit part.now (length part.now)) }
{
    if place_of(at, shape.line) < shape.used {
        return first_above(part, shape.limit);
    }
    None
}
