// Bytes as rows spell them: texts in quotes, hexadecimal digits, and bytes that have names.
use crate::row::decimal;
use jpg_base::{Bytes, Text};
use std::alloc::Global;

/// Bytes with a name.
#[derive(Drop)]
pub struct Named {
    name: Text,
    bytes: Bytes,
}

/// Gives these bytes a name. False where memory runs out.
pub fn keep(alloc: Global, names: &mut Vec<Named>, name: &str, bytes: &[u8]) -> bool {
    let Ok(name) = Text::new(alloc, name) else {
        return false;
    };
    let mut kept = Bytes::new(alloc);
    let is_whole = kept.push_all(bytes).is_ok();
    names.push(Named { name, bytes: kept }).is_ok() && is_whole
}

/// Appends the bytes that a text spells. `*COUNT` repeats what stands before it. False where the text can't be read.
pub fn spell(names: &[Named], text: &str, bytes: &mut Bytes) -> bool {
    let mut quoted: &[u8] = &[];
    let mut is_read = true;
    for (i, piece) in text.split('"').enumerate() {
        if i % 2 == 1 {
            quoted = piece.as_bytes();
            is_read = is_read && bytes.push_all(quoted).is_ok();
        } else {
            is_read = is_read && add_words(bytes, names, quoted, piece);
        }
    }
    is_read
}

// Appends what stands between two texts in quotes. A count at its front repeats the first of these.
fn add_words(bytes: &mut Bytes, names: &[Named], quoted: &[u8], piece: &str) -> bool {
    let mut is_read = true;
    for word in piece.split_whitespace() {
        is_read = is_read
            && match word.strip_prefix('*') {
                Some(count) => add_times(bytes, quoted, times(count).saturating_sub(1)),
                None => add_word(bytes, names, word),
            };
    }
    is_read
}

// How often something is repeated; 0 where that can't be read.
fn times(count: &str) -> u64 {
    decimal(count).unwrap_or(0)
}

fn add_times(bytes: &mut Bytes, piece: &[u8], count: u64) -> bool {
    let mut is_done = count > 0;
    for _ in 0..count {
        is_done = is_done && bytes.push_all(piece).is_ok();
    }
    is_done
}

// Appends the bytes of digits or of a name, as often as the word says.
fn add_word(bytes: &mut Bytes, names: &[Named], word: &str) -> bool {
    let (item, count) = match word.split_once('*') {
        Some((item, count)) => (item, times(count)),
        None => (word, 1),
    };
    if are_digits(item.as_bytes()) {
        return add_digits(bytes, item.as_bytes(), count);
    }
    match part(names, item) {
        Some(piece) => add_times(bytes, piece, count),
        None => false,
    }
}

// Whether these are pairs of hexadecimal digits.
fn are_digits(text: &[u8]) -> bool {
    let mut are_digits = text.len() % 2 == 0;
    for byte in text {
        are_digits = are_digits && digit(*byte).is_some();
    }
    are_digits
}

fn digit(byte: u8) -> Option<u8> {
    match byte {
        b'0'..=b'9' => Some(byte - b'0'),
        b'a'..=b'f' => Some(byte - b'a' + 10),
        _ => None,
    }
}

// Appends the bytes of digits so many times.
fn add_digits(bytes: &mut Bytes, digits: &[u8], count: u64) -> bool {
    let mut is_done = count > 0;
    for _ in 0..count {
        is_done = is_done && add_pairs(bytes, digits);
    }
    is_done
}

fn add_pairs(bytes: &mut Bytes, digits: &[u8]) -> bool {
    let mut is_done = true;
    for pair in digits.chunks_exact(2) {
        is_done = is_done && add_pair(bytes, pair);
    }
    is_done
}

fn add_pair(bytes: &mut Bytes, pair: &[u8]) -> bool {
    let mut byte = 0u8;
    for text in pair {
        byte = byte << 4 | digit(*text).unwrap_or(0);
    }
    bytes.push_all(&[byte]).is_ok()
}

// The bytes of `NAME` or of `NAME[FROM:TO]`.
fn part<'b>(names: &'b [Named], word: &str) -> Option<&'b [u8]> {
    match word.split_once('[') {
        Some((name, range)) => cut(find(names, name)?, range),
        None => find(names, word),
    }
}

fn find<'b>(names: &'b [Named], name: &str) -> Option<&'b [u8]> {
    for named in names {
        if named.name.as_str() == name {
            return Some(named.bytes.as_slice());
        }
    }
    None
}

// The bytes from one place up to another, by `FROM:TO]`; without `TO` up to the end.
fn cut<'b>(bytes: &'b [u8], range: &str) -> Option<&'b [u8]> {
    let (from, to) = range.strip_suffix(']')?.split_once(':')?;
    let from = decimal(from)? as usize;
    if to.is_empty() {
        bytes.get(from..)
    } else {
        bytes.get(from..decimal(to)? as usize)
    }
}
