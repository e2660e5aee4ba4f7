//! The value of -crop: an area.
ghost use Rattle.std.specs.Prelude.{◌≡◌, ◌≤◌, IfSome};
ghost use Rattle.jpg_spec_words.specs.TransformWords.{area_at, area_named, area_with};
ghost use Rattle.jpg_spec_move.specs.Cropped.{IsArea};
ghost use Rattle.jpg_words.specs.Areas.{AreSides, IsCut, IsNumberBefore};

use crate::values::number_of;
use jpg_spec_move::Area;

// The text before the first of these bytes, and the text after it.
fn cut_at(byte: u8, text: &[u8]) -> Option<(&[u8], &[u8])>
    ensures { IsCut byte text.now result }
{
    let mut at: usize = 0;
    while at < text.len() {
        if text[at] == byte {
            return Some((&text[..at], &text[at + 1..]));
        }
        at += 1;
    }
    None
}

// The number before the first of these bytes, and the text after it.
fn number_before(byte: u8, text: &[u8]) -> Option<(u32, &[u8])>
    ensures found { IsNumberBefore byte text.now result }
    ensures most { IfSome result (λ found. found.0 ≤ 99999) }
{
    let Some((digits, after)) = cut_at(byte, text) else {
        return None;
    };
    match number_of(digits) {
        Some(number) => Some((number, after)),
        None => None,
    }
}

// An area of these sides, whose corner the text names.
fn area_at(w: u32, h: u32, text: &[u8]) -> Option<Area>
    requires { AreSides w h }
    ensures named { result ≡ area_at w h text.now }
    ensures area { IfSome result IsArea }
{
    let Some((x, after)) = number_before(b'+', text) else {
        return None;
    };
    match number_of(after) {
        Some(y) => Some(Area { w, h, x, y }),
        None => None,
    }
}

// An area of this width, whose height and corner the text names.
fn area_with(w: u32, text: &[u8]) -> Option<Area>
    requires { w ≤ 99999 }
    ensures named { result ≡ area_with w text.now }
    ensures area { IfSome result IsArea }
{
    let Some((h, after)) = number_before(b'+', text) else {
        return None;
    };
    if w == 0 || h == 0 {
        return None;
    }
    area_at(w, h, after)
}

/// The area of a value WxH+X+Y, of numbers of one to five digits; W and H aren't 0.
pub fn area_named(value: &[u8]) -> Option<Area>
    ensures named { result ≡ area_named value.now }
    ensures area { IfSome result IsArea }
{
    let Some((w, after)) = number_before(b'x', value) else {
        return None;
    };
    area_with(w, after)
}
