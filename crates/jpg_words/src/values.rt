//! Values of switches that several commands have (the manuals of release 6b).
ghost use Rattle.std.specs.Prelude.{◌≡◌, ◌≤◌, IfSome, Some, option_map};
ghost use Rattle.jpg_spec_words.specs.Requests.{ends_with_b, huffman_named, is_int, number_of, restart_by, restart_named, without_b};
ghost use Rattle.jpg_spec_words.specs.ShowWords.{scans_from, scans_named};
ghost use Rattle.jpg_scans.specs.Restarts.{restart_of};

use crate::switches::{abbreviates, lower};
use jpg_scans::Restart;
use jpg_spec_write::Huffman;

// The restart interval of a value: a number of rows of MCUs, or of MCUs with a B after it, at most 65535. For 0 there
// is none.
pub(crate) fn restart_named(value: &[u8]) -> Option<Restart>
    ensures { option_map restart_of result ≡ restart_named value.now }
{
    match number_of(without_b(value)) {
        Some(n) => restart_by(ends_with_b(value), n),
        None => None,
    }
}

/// Which Huffman tables the scans have; a prefix of the name is enough.
pub(crate) fn huffman_named(value: &str) -> Option<Huffman>
    ensures { result ≡ huffman_named value.now }
{
    let letters = value.as_bytes();
    if abbreviates(1, b"plain", letters) {
        Some(Huffman::Plain)
    } else if abbreviates(1, b"fitted", letters) {
        Some(Huffman::Fitted)
    } else {
        None
    }
}

fn restart_by(in_mcus: bool, n: u32) -> Option<Restart>
    ensures { option_map restart_of result ≡ restart_by in_mcus n }
{
    if n > 65535 {
        None
    } else if n == 0 {
        Some(Restart::Off)
    } else if in_mcus {
        Some(Restart::Mcus(n as u16))
    } else {
        Some(Restart::Rows(n as u16))
    }
}

/// How many scans a preview shows: from 1 to 65535.
pub(crate) fn scans_named(value: &[u8]) -> Option<u16>
    ensures value { result ≡ scans_named value.now }
    ensures some { IfSome result (λ n. scans_from n ≡ Some n) }
{
    match number_of(value) {
        Some(n) if 1 <= n && n <= 65535 => Some(n as u16),
        _ => None,
    }
}

// Whether the value of -dct is right: only release 6b's `int` is.
pub(crate) fn is_int(value: &str) -> bool
    ensures { result ≡ is_int value.now }
{
    abbreviates(1, b"int", value.as_bytes())
}

// Whether the text has a B at its end.
fn ends_with_b(text: &[u8]) -> bool
    ensures { result ≡ ends_with_b text.now }
{
    match text.split_last() {
        Some((letter, _)) => lower(*letter) == b'b',
        None => false,
    }
}

// The text without a B at its end.
fn without_b(text: &[u8]) -> &[u8]
    ensures { result.now ≡ without_b text.now }
{
    let Some((letter, before)) = text.split_last() else {
        return text;
    };
    if lower(*letter) == b'b' { before } else { text }
}

/// The number of one to five decimal digits.
pub(crate) fn number_of(text: &[u8]) -> Option<u32>
    ensures number { result ≡ number_of text.now }
    ensures most { IfSome result (λ n. n ≤ 99999) }
{
    if text.is_empty() || text.len() > 5 {
        return None;
    }
    let mut number: u32 = 0;
    for digit in text {
        if !digit.is_ascii_digit() {
            return None;
        }
        number = 10 * number + u32::from(*digit - b'0');
    }
    Some(number)
}
