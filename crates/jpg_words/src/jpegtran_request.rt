//! What the words of jpegtran ask for (its manual in release 6b).
ghost use Rattle.jpg_spec_move.specs.Cropped.{IsArea};
ghost use Rattle.jpg_words.specs.Areas.{area_or_one};

use crate::files::Files;
use crate::jpegtran::ScriptFrom;
use jpg_scans::Restart;
use jpg_spec::Copying;
use jpg_spec_move::{Area, Transform};
use jpg_spec_write::Huffman;

/// What the words of jpegtran ask for.
#[derive(Drop)]
pub struct TransformWords {
    /// The input and the output.
    pub files: Files,
    /// How the picture is transformed.
    pub transform: Transform,
    /// Whether the Exif orientation chooses the transform.
    pub upright: bool,
    /// Partial iMCUs that would remain in place, at the right and at the bottom, are left out.
    pub trim: bool,
    /// Only the first component is kept.
    pub gray: bool,
    /// The area that is cut out of the transformed picture.
    pub crop: Option<Area>,
    /// Which kept markers are passed on.
    pub copying: Copying,
    /// The scans of the file.
    pub script: ScriptFrom,
    /// Their Huffman tables.
    pub huffman: Huffman,
    /// Their restart interval.
    pub restart: Restart,
    ghost area: { IsArea (area_or_one crop) },
}
