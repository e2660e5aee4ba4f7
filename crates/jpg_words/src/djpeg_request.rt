//! What the words of djpeg ask for (its manual in release 6b).
ghost use Rattle.std.specs.Prelude.{◌≤◌};
ghost use Rattle.jpg_words.specs.Scans.{scans_or_one};

use crate::files::Files;
use jpg_spec_image::EndKind;

/// What the words of djpeg ask for.
#[derive(Drop)]
pub struct ShowWords {
    /// The input and the output.
    pub files: Files,
    /// The format of the image, PNM where no word asks for one.
    pub kind: EndKind,
    /// The index of the word that asks for the format, or the number of words if none does.
    pub kind_word: u64,
    /// Whether the image is in grayscale.
    pub gray: bool,
    /// Whether rows of samples that are upsampled are smoothed.
    pub smooth: bool,
    /// How many scans are shown, if not all are; at least one.
    pub preview: Option<u16>,
    ghost some: { 1 ≤ scans_or_one preview },
}
