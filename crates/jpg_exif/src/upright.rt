//! Kept markers of a picture that is turned upright (Exif 2.3, 4.6.4).
ghost use Rattle.std.specs.Prelude.{◌≡◌, ◌<◌, length, IfSome, IfNone};
ghost use Rattle.jpg_spec_upright.specs.Exif.{marked_upright, orientation_of};
ghost use Rattle.jpg_spec_upright.specs.Upright.{transform_for};
ghost use Rattle.jpg_exif.specs.FirstExif.{IsFirstExif};

use crate::directory::{is_exif, turned_place};
use jpg_markers::KeptList;
use jpg_spec_move::Transform;

/// The transform that turns a picture with these markers upright. In the first segment of Exif data the orientation is 1
/// then; all other bytes are as they were. It takes no memory.
pub fn mark_upright(kept: &mut KeptList) -> Transform
    ensures transform { result ≡ transform_for (orientation_of kept.old) }
    ensures marked { kept.new ≡ marked_upright kept.old }
{
    match first_exif(kept) {
        None => Transform::Keep,
        Some(index) => mark_segment(kept, index),
    }
}

// The index of the first segment of Exif data.
fn first_exif(kept: &KeptList) -> Option<usize>
    ensures found { IfSome result (IsFirstExif kept.now) }
    ensures turned { IfNone result (orientation_of kept.now ≡ 1) }
    ensures same { IfNone result (marked_upright kept.now ≡ kept.now) }
{
    let mut rest = kept.markers();
    for index in 0..kept.len() {
        match rest.next() {
            None => return None,
            Some(member) => {
                if is_exif(member.code, member.contents) {
                    return Some(index);
                }
            }
        }
    }
    None
}

// The transform and the marked markers, by the segment of Exif data at this index.
fn mark_segment(kept: &mut KeptList, index: usize) -> Transform
    requires { IsFirstExif kept.old index }
    ensures transform { result ≡ transform_for (orientation_of kept.old) }
    ensures marked { kept.new ≡ marked_upright kept.old }
{
    let contents = kept.get(index).contents;
    match turned_place(contents) {
        None => Transform::Keep,
        Some(place) => {
            let orientation = contents[place];
            kept.set_byte(index, place, 1);
            transform_for(orientation)
        }
    }
}

// The transform that an orientation asks for.
fn transform_for(orientation: u8) -> Transform
    ensures { result ≡ transform_for orientation }
{
    match orientation {
        2 => Transform::FlipH,
        3 => Transform::Rotate180,
        4 => Transform::FlipV,
        5 => Transform::Transpose,
        6 => Transform::Rotate90,
        7 => Transform::Transverse,
        8 => Transform::Rotate270,
        _ => Transform::Keep,
    }
}
