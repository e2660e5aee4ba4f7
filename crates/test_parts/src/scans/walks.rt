// Walks from bit to bit, looks at eight bits, and bytes through a gate.
use crate::answer::Answer;
use crate::row::Row;
use crate::scans::intervals::bits_of;
use crate::scans::tables;
use jpg_huff::{Found, Gate, Look, Passed, Table, Walk, WalkStep};

/// What each bit comes to.
pub fn walk(row: &Row, answer: &mut Answer) {
    let table = tables::table(row, row.field(0), answer);
    let bits = bits_of(row.field(1), answer);
    let mut walk = Walk::new();
    for bit in bits.as_slice() {
        match walk.bit(&table, *bit) {
            WalkStep::More => answer.add("."),
            WalkStep::Symbol(symbol) => answer.add_byte(symbol),
            WalkStep::NoCode => answer.add("x"),
        }
    }
}

// Whether a symbol's code leads to it, at its last bit.
fn leads(table: &Table, symbol: u8) -> bool {
    let Some(code) = table.code(symbol) else {
        return false;
    };
    let mut walk = Walk::new();
    let mut step = WalkStep::More;
    for i in 0..code.length {
        if step != WalkStep::More {
            return false;
        }
        step = walk.bit(table, (code.bits >> (code.length - 1 - i)) % 2 == 1);
    }
    step == WalkStep::Symbol(symbol)
}

/// How many symbols a table has, where the code of each leads to it.
pub fn walks(row: &Row, answer: &mut Answer) {
    let table = tables::table(row, row.field(0), answer);
    for symbol in table.symbols() {
        if !leads(&table, *symbol) {
            answer.say("not to ");
            answer.add_byte(*symbol);
        }
    }
    answer.say_number(table.symbols().len() as u64);
}

// The first code that a walk over the eight bits of a byte comes to, with the first bit in the highest place.
fn walked(table: &Table, byte: u8) -> Option<Found> {
    let mut walk = Walk::new();
    for i in 0..8u8 {
        match walk.bit(table, (byte >> (7 - i)) % 2 == 1) {
            WalkStep::More => {}
            WalkStep::Symbol(symbol) => return Some(Found {
                length: i + 1,
                symbol,
            }),
            WalkStep::NoCode => return None,
        }
    }
    None
}

/// Whether a look at each of all bytes finds what a walk over its bits finds.
pub fn looks(row: &Row, answer: &mut Answer) {
    let table = tables::table(row, row.field(0), answer);
    answer.say(if looks_like_walks(&table) {
        "yes"
    } else {
        "no"
    });
}

fn looks_like_walks(table: &Table) -> bool {
    let look = Look::new(table);
    for byte in 0..=255u8 {
        if look.at(byte) != walked(table, byte) {
            return false;
        }
    }
    true
}

/// The code that eight bits begin with: its length and its symbol.
pub fn look(row: &Row, answer: &mut Answer) {
    let table = tables::table(row, row.field(0), answer);
    let bits = bits_of(row.field(1), answer);
    match Look::new(&table).at(byte_of(bits.as_slice())) {
        Some(found) => {
            answer.say_number(u64::from(found.length));
            answer.add(" ");
            answer.add_byte(found.symbol);
        }
        None => answer.say("none"),
    }
}

/// The byte of eight bits.
pub fn byte_of(bits: &[bool]) -> u8 {
    let mut byte = 0u8;
    for bit in bits {
        byte = byte << 1 | u8::from(*bit);
    }
    byte
}

/// What a gate passes at each byte.
pub fn gate(row: &Row, answer: &mut Answer) {
    let bytes = row.bytes(0, answer);
    let mut gate = Gate::new();
    for byte in bytes.as_slice() {
        match gate.byte(*byte) {
            Passed::More => answer.say("more"),
            Passed::Data(data) => {
                answer.say("data ");
                answer.add_byte(data);
            }
            Passed::Marker(code) => {
                answer.say("marker ");
                answer.add_byte(code);
            }
        }
    }
}
