//! How an image is encoded, as the words of cjpeg ask for it.
ghost use Rattle.std.specs.Prelude.{◌≡◌, ◌≤◌, All, length};
ghost use Rattle.jpg_spec_encode.specs.Encoded.{count_due};
ghost use Rattle.jpg_spec_words.specs.EncodeWords.{factors_at, factors_due};
ghost use Rattle.jpg_spec_encode.specs.EncodingLaws.{AreFactors};
ghost use Rattle.jpg_transform.specs.Planned.{scans_view};
ghost use Rattle.jpg_color.specs.Encode.{AsksFor};
ghost use Rattle.jpg_spec_image.specs.Images.{Image as ImageRead};
ghost use Rattle.jpg_cli.specs.Tools.EncodingAsked.{CanEncodeKind, encoding_by};

use arrayvec::ArrayVec;
use jpg_color::Encoding;
use jpg_dct::encoding_tables;
use jpg_desk::Tables;
use jpg_spec_image::ImageKind;
use jpg_transform::Scans;
use jpg_words::{EncodeWords, Factors};

/// How an image of this kind is encoded, in these scans and by the tables of a file, if there is one.
pub fn encoding_of(
    words: &EncodeWords,
    scans: &Scans,
    tables: Option<&Tables>,
    kind: ImageKind,
) -> Encoding
    ensures asks { (I : ImageRead) → I.info.kind ≡ kind → AsksFor result (encoding_by words.now (scans_view scans.now) tables.entry I) }
    ensures can { CanEncodeKind kind result }
{
    Encoding {
        gray: words.gray,
        progressive: scans.progressive(),
        factors: factors_due(&words.factors, count_due(words.gray, kind)),
        tables: encoding_tables(words.quality, words.baseline, tables),
    }
}

// How many components there are.
fn count_due(gray: bool, kind: ImageKind) -> usize
    ensures value { result ≡ count_due gray kind }
    ensures few { result ≤ 3 }
{
    match kind {
        ImageKind::Rgb if !gray => 3,
        _ => 1,
    }
}

// The factors of this many components.
fn factors_due(given: &[(u8, u8)], count: usize) -> Factors
    requires few { count ≤ 3 }
    requires range { All AreFactors given.now }
    ensures value { result.items ≡ factors_due given.now count }
    ensures range { All AreFactors result.items }
    ensures long { length result.items ≡ count }
{
    let mut factors = ArrayVec::new();
    for i in 0..count {
        factors.push(factors_at(given, count, i));
    }
    factors
}

// The factors of component i: as they are given, or the default ones.
fn factors_at(given: &[(u8, u8)], count: usize, i: usize) -> (u8, u8)
    requires { All AreFactors given.now }
    ensures value { result ≡ factors_at given.now count i }
    ensures range { AreFactors result }
{
    if given.is_empty() {
        return if i == 0 && count != 1 { (2, 2) } else { (1, 1) };
    }
    match given.get(i) {
        Some(factors) => *factors,
        None => (1, 1),
    }
}
