// A row: what stands between its bars, and the numbers, bytes and words of its fields.
ghost use Rattle.std.specs.Prelude.{◌≤◌};

use crate::answer::Answer;
use crate::bytes::{Named, spell};
use jpg_base::Bytes;
use std::alloc::Global;

/// A row that is tried.
#[derive(Clone, Copy)]
pub struct Row<'a> {
    pub alloc: Global,
    /// The bytes that have names.
    pub names: &'a [Named],
    /// What stands after the name of the row: the kind of a call, or the words of a command.
    pub kind: &'a str,
    /// The fields after it, but for the settings.
    pub fields: &'a [&'a str],
    /// The fields that say how the row is run and what is expected.
    pub settings: &'a [&'a str],
}

impl<'a> Row<'a> {
    /// The field at this place, from 0; empty where there are no more.
    pub fn field(&self, place: usize) -> &'a str {
        match self.fields.get(place) {
            Some(field) => *field,
            None => "",
        }
    }

    /// What the setting that begins so says.
    pub fn setting(&self, key: &str) -> Option<&'a str> {
        value(self.settings, key)
    }

    /// The bytes that a text spells.
    pub fn spelled(&self, text: &str, answer: &mut Answer) -> Bytes {
        let mut bytes = Bytes::new(self.alloc);
        if !spell(self.names, text, &mut bytes) {
            answer.unread(text);
        }
        bytes
    }

    /// The bytes that the field at this place spells.
    pub fn bytes(&self, place: usize, answer: &mut Answer) -> Bytes {
        self.spelled(self.field(place), answer)
    }
}

/// What comes after the key in the first field that begins with it.
pub fn value<'a>(fields: &[&'a str], key: &str) -> Option<&'a str> {
    for field in fields {
        if let Some(value) = field.strip_prefix(key) {
            return Some(value.trim());
        }
    }
    None
}

/// The word at the front of a text, and what comes after it.
pub fn word(text: &str) -> (&str, &str) {
    let text = text.trim_start();
    text.split_once(' ').unwrap_or((text, ""))
}

/// A number in decimal digits, where it is one.
pub fn decimal(text: &str) -> Option<u64> {
    text.parse::<u64>().ok()
}

/// A number in decimal digits; 0 where there is none.
pub fn number(text: &str, answer: &mut Answer) -> u64 {
    match decimal(text) {
        Some(number) => number,
        None => {
            answer.unread(text);
            0
        }
    }
}

/// A number of at most this in decimal digits; 0 where there is none.
pub fn at_most(most: u64, text: &str, answer: &mut Answer) -> u64
    ensures { result ≤ most }
{
    let number = number(text, answer);
    if number <= most {
        number
    } else {
        answer.unread(text);
        0
    }
}

/// A number of one byte.
pub fn small(text: &str, answer: &mut Answer) -> u8 {
    at_most(255, text, answer) as u8
}

/// A number of two bytes.
pub fn middle(text: &str, answer: &mut Answer) -> u16 {
    at_most(65_535, text, answer) as u16
}

/// A number of four bytes.
pub fn large(text: &str, answer: &mut Answer) -> u32 {
    at_most(4_294_967_295, text, answer) as u32
}

/// A number with a sign; 0 where there is none.
pub fn signed(text: &str, answer: &mut Answer) -> i32 {
    match text.parse::<i32>() {
        Ok(number) => number,
        Err(_) => {
            answer.unread(text);
            0
        }
    }
}

/// The same, of two bytes.
pub fn short(text: &str, answer: &mut Answer) -> i16 {
    signed(text, answer).clamp(-32_768, 32_767) as i16
}

/// Whether a text is the first of two.
pub fn is_first(text: &str, first: &str, second: &str, answer: &mut Answer) -> bool {
    if text != first && text != second {
        answer.unread(text);
    }
    text == first
}
