//! The first scan header of a file, and its colours (T.81, B.2.3; JFIF 1.02, Adobe's APP14).
ghost use Rattle.std.specs.Prelude.{◌≡◌, if◌then◌else◌, slice_index, Some};
ghost use Rattle.jpg_spec.specs.Jfif.{adobe_transform, is_adobe};
ghost use Rattle.jpg_markers.specs.Kept.{kept_pair};
ghost use Rattle.jpg_file.specs.Read.FirstHeader.{colours_by, first_header_of};
ghost use Rattle.jpg_file.specs.Read.SegmentState.{segments_view};

use crate::read::segment_state::SegmentState;
use jpg_base::Frame;
use jpg_markers::{App, Jfif, Kept, KeptList, guess, read_app};
use jpg_spec::Colour;

/// The frame, the colours, and the place of the end of the first scan header.
#[derive(Drop)]
pub struct Head {
    pub frame: Frame,
    pub colour: Colour,
    pub at: u64,
}

/// The head, where a scan header ends at this place, by what the segments define.
pub fn head_of(held: &SegmentState, at: u64) -> Option<Head>
    ensures { result ≡ first_header_of (segments_view held.now) at }
{
    let frame = held.frame.as_ref()?.copy();
    let colour = colours(&frame, &held.jfif, &held.kept);
    Some(Head { frame, colour, at })
}

/// The colours of this frame with these kept markers, and this last JFIF header.
pub fn colours(frame: &Frame, jfif: &Jfif, kept: &KeptList) -> Colour
    ensures { result ≡ colours_by frame.now jfif.now kept.now }
{
    guess(frame, jfif, adobe_of(kept))
}

// Adobe's transform, from the last of its segments.
fn adobe_of(kept: &KeptList) -> Option<u8>
    ensures { result ≡ adobe_transform kept.now }
{
    let mut last = None;
    let mut rest = kept.markers();
    while let Some(marker) = rest.next() {
        last = transform_after(&marker, last);
    }
    last
}

// Adobe's transform with one more marker, the last one so far.
fn transform_after(marker: &Kept, last: Option<u8>) -> Option<u8>
    ensures { result ≡ (if is_adobe (kept_pair marker.now) then Some (slice_index marker.now.contents.now 11) else last) }
{
    match read_app(marker.code, marker.contents) {
        App::Adobe(transform) => Some(transform),
        _ => last,
    }
}
