//! The orientation in the contents of a segment of Exif data (Exif 2.3, 4.5 and 4.6.4).
ghost use Rattle.std.specs.Prelude.{◌≡◌, ◌≤◌, ◌<◌, ◌+◌, length, IfSome};
ghost use Rattle.jpg_spec.specs.Lists.{begins_with};
ghost use Rattle.jpg_spec_upright.specs.Exif.{entry_among, entry_in, entry_place, has_header, if_turned, is_big, is_exif, is_little, is_long, is_orientation, is_short, lowest_place, turned_place, value_of};

use crate::numbers::{pair_at, quad_at};

// APP1, of Exif data (Exif 2.3, 4.7.2).
const APP1: u8 = 0xe1;

// Whether the contents begin with these bytes.
fn begins_with(contents: &[u8], front: &[u8]) -> bool
    ensures { result ≡ begins_with front.now contents.now }
{
    contents.starts_with(front)
}

/// Whether a segment has Exif data.
pub(crate) fn is_exif(code: u8, contents: &[u8]) -> bool
    ensures { result ≡ is_exif (code, contents.now) }
{
    code == APP1 && begins_with(contents, b"Exif\0\0")
}

// Whether the lowest byte of a number is the first.
fn is_little(contents: &[u8]) -> bool
    requires { 6 ≤ length contents.now }
    ensures { result ≡ is_little contents.now }
{
    begins_with(&contents[6..], b"II*\0")
}

// Whether it is the last.
fn is_big(contents: &[u8]) -> bool
    requires { 6 ≤ length contents.now }
    ensures { result ≡ is_big contents.now }
{
    begins_with(&contents[6..], b"MM\0*")
}

fn has_header(contents: &[u8]) -> bool
    ensures { result ≡ has_header contents.now }
{
    14 <= contents.len() && (is_little(contents) || is_big(contents))
}

// Whether the entry at this place has a number of two bytes.
fn is_short(little: bool, contents: &[u8], place: usize) -> bool
    requires { place + 12 ≤ length contents.now }
    ensures { result ≡ is_short little contents.now place }
{
    pair_at(little, contents, place + 2) == 3
}

// Whether it has one of four.
fn is_long(little: bool, contents: &[u8], place: usize) -> bool
    requires { place + 12 ≤ length contents.now }
    ensures { result ≡ is_long little contents.now place }
{
    let kind = pair_at(little, contents, place + 2);
    kind == 4 || kind == 9
}

// Whether it is that of the orientation.
fn is_orientation(little: bool, contents: &[u8], place: usize) -> bool
    requires { place + 12 ≤ length contents.now }
    ensures { result ≡ is_orientation little contents.now place }
{
    pair_at(little, contents, place) == 0x112
        && (is_short(little, contents, place) || is_long(little, contents, place))
        && quad_at(little, contents, place + 4) == 1
}

// The place of that entry, among this many from a place on.
fn entry_among(little: bool, contents: &[u8], count: u16, start: usize) -> Option<usize>
    requires { start ≤ length contents.now }
    ensures found { result ≡ entry_among little contents.now count start }
    ensures inside { IfSome result (λ k. k + 12 ≤ length contents.now) }
{
    let mut place = start;
    for _ in 0..count {
        if contents.len() - place < 12 {
            return None;
        }
        if is_orientation(little, contents, place) {
            return Some(place);
        }
        place += 12;
    }
    None
}

// The place of the orientation's entry in the directory at a place, which may be outside.
fn entry_in(little: bool, contents: &[u8], start: u64) -> Option<usize>
    requires { start < 4294967302 }
    ensures found { result ≡ entry_in little contents.now start }
    ensures inside { IfSome result (λ k. k + 12 ≤ length contents.now) }
{
    if start + 2 > contents.len() as u64 {
        return None;
    }
    let place = start as usize;
    let count = pair_at(little, contents, place);
    entry_among(little, contents, count, place + 2)
}

// The place of the orientation's entry in the first directory.
fn entry_place(contents: &[u8]) -> Option<usize>
    ensures found { result ≡ entry_place contents.now }
    ensures inside { IfSome result (λ k. k + 12 ≤ length contents.now) }
{
    if !has_header(contents) {
        return None;
    }
    let little = is_little(contents);
    let start = 6 + u64::from(quad_at(little, contents, 10));
    entry_in(little, contents, start)
}

// The number of two or four bytes at this place.
fn value_of(short: bool, little: bool, contents: &[u8], place: usize) -> u32
    requires { place + 4 ≤ length contents.now }
    ensures { result ≡ value_of short little contents.now place }
{
    if short {
        u32::from(pair_at(little, contents, place))
    } else {
        quad_at(little, contents, place)
    }
}

// The place of its lowest byte.
fn lowest_place(short: bool, little: bool, place: usize) -> usize
    requires { place < 4294967296 }
    ensures { result ≡ lowest_place short little place }
{
    if little {
        place
    } else if short {
        place + 1
    } else {
        place + 3
    }
}

// That of the entry at this place, if its value is from 2 to 8.
fn if_turned(little: bool, contents: &[u8], place: usize) -> Option<usize>
    requires inside { place + 12 ≤ length contents.now }
    requires short { length contents.now ≤ 65533 }
    ensures found { result ≡ if_turned little contents.now place }
    ensures inside { IfSome result (λ k. k < length contents.now) }
{
    let short = is_short(little, contents, place);
    let orientation = value_of(short, little, contents, place + 8);
    if 2 <= orientation && orientation <= 8 {
        Some(lowest_place(short, little, place + 8))
    } else {
        None
    }
}

/// The place of the orientation, if it is from 2 to 8: all other bytes of its number are 0 then.
pub(crate) fn turned_place(contents: &[u8]) -> Option<usize>
    requires { length contents.now ≤ 65533 }
    ensures found { result ≡ turned_place contents.now }
    ensures inside { IfSome result (λ k. k < length contents.now) }
{
    match entry_place(contents) {
        None => None,
        Some(place) => if_turned(is_little(contents), contents, place),
    }
}
