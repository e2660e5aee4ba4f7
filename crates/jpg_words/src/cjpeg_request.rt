//! What the words of cjpeg ask for (its manual in release 6b).
ghost use Rattle.std.specs.Prelude.{◌≤◌, All, unwrap_or};
ghost use Rattle.jpg_spec_encode.specs.EncodingLaws.{AreFactors};

use crate::cjpeg_values::Factors;
use crate::files::Files;
use crate::jpegtran::ScriptFrom;
use jpg_base::Text;
use jpg_scans::Restart;
use jpg_spec_write::Huffman;

/// What the words of cjpeg ask for.
#[derive(Drop)]
pub struct EncodeWords {
    /// The input and the output.
    pub files: Files,
    /// The input is a Targa file.
    pub targa: bool,
    /// The quality from 1 to 100, if it is given.
    pub quality: Option<u8>,
    /// Only luminance is encoded.
    pub gray: bool,
    /// No quantiser has more than one byte.
    pub baseline: bool,
    /// The scans of the file.
    pub script: ScriptFrom,
    /// Their Huffman tables.
    pub huffman: Huffman,
    /// Their restart interval.
    pub restart: Restart,
    /// The factors that are given, from 1 to 4 horizontally and vertically, of the first components.
    pub factors: Factors,
    /// The name of the file that has the tables, if they come from one.
    pub tables: Option<Text>,
    ghost low: { 1 ≤ unwrap_or quality 1 },
    ghost high: { unwrap_or quality 1 ≤ 100 },
    ghost some: { All AreFactors factors.items },
}
