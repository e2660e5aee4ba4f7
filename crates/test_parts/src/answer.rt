// What the calls of a row answer, and how it differs from what is expected.
use crate::row::Row;
use jpg_base::{Bytes, Fault, Stop};
use std::alloc::Global;
use std::fmt::{Debug, Display};

// How many bytes a difference shows.
const SHOWN: usize = 24;

/// A text, with commas between its parts, and bytes. What is short of memory is noted, so that calls go on without exits.
#[derive(Drop)]
pub struct Answer {
    text: String,
    bytes: Bytes,
    is_short: bool,
}

impl Answer {
    /// Nothing yet.
    pub fn new(alloc: Global) -> Answer {
        Answer {
            text: String::new(alloc),
            bytes: Bytes::new(alloc),
            is_short: false,
        }
    }

    /// The text.
    pub fn text(&self) -> &str {
        if self.is_short {
            "no memory"
        } else {
            self.text.as_str()
        }
    }

    /// The bytes.
    pub fn bytes(&self) -> &[u8] {
        self.bytes.as_slice()
    }

    /// Whether nothing was said.
    pub fn is_silent(&self) -> bool {
        self.text.is_empty() && !self.is_short
    }

    /// Memory ran out.
    pub fn fall_short(&mut self) {
        self.is_short = true;
    }

    /// Appends to the text, without a comma.
    pub fn add(&mut self, text: &str) {
        if self.text.push_str(text).is_err() {
            self.is_short = true;
        }
    }

    fn write<D: Display + Drop>(&mut self, value: D) {
        if self.text.write(value).is_err() {
            self.is_short = true;
        }
    }

    fn comma(&mut self) {
        if !self.text.is_empty() {
            self.add(", ");
        }
    }

    /// Appends a number to the text.
    pub fn add_number(&mut self, number: u64) {
        self.write(number);
    }

    /// Appends a byte in two hexadecimal digits to the text.
    pub fn add_byte(&mut self, byte: u8) {
        self.write(format_args!("{byte:02x}"));
    }

    /// Appends bytes in hexadecimal digits to the text.
    pub fn add_bytes(&mut self, bytes: &[u8]) {
        for byte in bytes {
            self.add_byte(*byte);
        }
    }

    /// Appends a number in binary digits to the text.
    pub fn add_binary(&mut self, number: u16) {
        self.write(format_args!("{number:b}"));
    }

    /// Appends bytes to the text: a text in quotes, and others in hexadecimal digits.
    pub fn add_text(&mut self, bytes: &[u8]) {
        match str::from_utf8(bytes) {
            Ok(text) => self.add_shown(&text),
            Err(_) => self.add_bytes(bytes),
        }
    }

    /// Appends a value to the text as a debugger shows it.
    pub fn add_shown<T: Debug>(&mut self, value: &T) {
        self.write(format_args!("{value:?}"));
    }

    /// Adds a part to the text.
    pub fn say(&mut self, text: &str) {
        self.comma();
        self.add(text);
    }

    /// Adds a number to the text.
    pub fn say_number(&mut self, number: u64) {
        self.comma();
        self.add_number(number);
    }

    /// Adds two numbers with a text between them.
    pub fn say_two(&mut self, one: u64, between: &str, two: u64) {
        self.say_number(one);
        self.add(between);
        self.add_number(two);
    }

    /// Adds a value as a debugger shows it.
    pub fn say_shown<T: Debug>(&mut self, value: &T) {
        self.comma();
        self.add_shown(value);
    }

    /// Adds a fault.
    pub fn say_fault(&mut self, fault: Fault) {
        self.say_shown(&fault);
    }

    /// Adds `ok`, or the fault.
    pub fn say_done(&mut self, done: Result<(), Fault>) {
        match done {
            Ok(()) => self.say("ok"),
            Err(fault) => self.say_fault(fault),
        }
    }

    /// Adds why reading stops.
    pub fn say_stop(&mut self, stop: Stop) {
        match stop {
            Stop::NoMemory => self.fall_short(),
            Stop::Fault(fault) => {
                self.say_fault(fault.fault);
                self.add(" at ");
                self.add_number(fault.at);
            }
        }
    }

    /// Adds that a text of the row can't be read.
    pub fn unread(&mut self, text: &str) {
        self.say("can't read ");
        self.add_shown(&text);
    }

    /// Appends to the bytes.
    pub fn give(&mut self, bytes: &[u8]) {
        if self.bytes.push_all(bytes).is_err() {
            self.is_short = true;
        }
    }
}

/// Says what came, unless it is what the row expects.
pub fn judge(row: &Row, came: &Answer, said: &mut Answer) {
    let due = row.setting("=>").unwrap_or("no =>");
    let text = came.text().trim_end();
    if text != due {
        said.say_shown(&text);
        said.add(" came, not ");
        said.add_shown(&due);
        return;
    }
    let due = row.spelled(row.setting("out =").unwrap_or(""), said);
    judge_bytes(came.bytes(), due.as_slice(), said);
}

// Where bytes differ from those that are expected, and how both go on there.
fn judge_bytes(came: &[u8], due: &[u8], said: &mut Answer) {
    if came == due {
        return;
    }
    let place = equal(came, due);
    said.say("at byte ");
    said.add_number(place as u64);
    said.add(" came ");
    add_next(came, place, said);
    said.add(", not ");
    add_next(due, place, said);
}

// How many bytes at the front are equal.
fn equal(some: &[u8], others: &[u8]) -> usize {
    for (i, byte) in some.iter().enumerate() {
        if others.get(i) != Some(byte) {
            return i;
        }
    }
    some.len()
}

// The next bytes from this place on.
fn add_next(bytes: &[u8], place: usize, said: &mut Answer) {
    for byte in bytes.iter().skip(place).take(SHOWN) {
        said.add_byte(*byte);
    }
}
