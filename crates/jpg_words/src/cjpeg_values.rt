//! Values of the switches of cjpeg (its manual in release 6b).
ghost use Rattle.std.specs.Prelude.{◌≡◌, ◌≤◌, All, IfSome, option_map};
ghost use Rattle.jpg_spec_encode.specs.EncodingLaws.{AreFactors};
ghost use Rattle.jpg_spec_words.specs.EncodeWords.{are_factors, factors_named, quality_named};
ghost use Rattle.jpg_words.specs.EncodeWords.{IsFirstPair};

use crate::values::number_of;
use arrayvec::ArrayVec;

/// Horizontal and vertical factors of the first components, of four at most.
pub type Factors = ArrayVec<(u8, u8), 4>;

/// A quality from 1 to 100; 0 counts as 1.
pub fn quality_named(value: &[u8]) -> Option<u8>
    ensures value { result ≡ quality_named value.now }
    ensures range { IfSome result (λ q. (1 ≤ q) × (q ≤ 100)) }
{
    match number_of(value) {
        None => None,
        Some(0) => Some(1),
        Some(quality) if quality <= 100 => Some(quality as u8),
        Some(_) => None,
    }
}

// Whether these bytes are two digits from 1 to 4 with an x between them.
fn are_factors(across: u8, x: u8, down: u8) -> bool
    ensures { result ≡ are_factors across x down }
{
    matches!(across, b'1'..=b'4') && x == b'x' && matches!(down, b'1'..=b'4')
}

// The pair that a text begins with, and the rest of the text.
fn first_pair(text: &[u8]) -> Option<((u8, u8), &[u8])>
    ensures { IsFirstPair text.now result }
{
    let [across, x, down, after @ ..] = text else {
        return None;
    };
    if !are_factors(*across, *x, *down) {
        return None;
    }
    Some(((*across - 48, *down - 48), after))
}

/// Horizontal and vertical factors from 1 to 4, with an x between them, of one component to four, with commas between.
pub fn factors_named(value: &[u8]) -> Option<Factors>
    ensures value { option_map (λ f. f.items) result ≡ factors_named value.now }
    ensures range { IfSome result (λ f. All AreFactors f.items) }
{
    let mut factors = ArrayVec::new();
    let mut rest = value;
    while !factors.is_full() {
        let Some((pair, after)) = first_pair(rest) else {
            return None;
        };
        factors.push(pair);
        let Some((comma, more)) = after.split_first() else {
            return Some(factors);
        };
        if *comma != b',' {
            return None;
        }
        rest = more;
    }
    None
}
