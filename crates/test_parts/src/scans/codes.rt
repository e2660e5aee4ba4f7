// Tables, their codes, and sets of them.
use crate::answer::Answer;
use crate::row::{Row, small, word};
use crate::scans::tables;
use jpg_huff::{Table, TableSet};

/// Whether counts and values make a table, or its fault.
pub fn table(row: &Row, answer: &mut Answer) {
    match tables::made(row, row.field(0), answer) {
        Ok(_) => answer.say("ok"),
        Err(fault) => answer.say_shown(&fault),
    }
}

/// The bits of a symbol's code.
pub fn code(row: &Row, answer: &mut Answer) {
    let table = tables::table(row, row.field(0), answer);
    let symbol = row.bytes(1, answer);
    for symbol in symbol.as_slice() {
        match table.code(*symbol) {
            Some(code) => add_bits(u32::from(code.bits), code.length, answer),
            None => answer.say("none"),
        }
    }
}

// The lowest bits of a number, the highest of them first.
fn add_bits(number: u32, length: u8, answer: &mut Answer) {
    for i in 0..length.min(32) {
        let bit = number.wrapping_shr(u32::from(length.min(32) - 1 - i)) % 2;
        answer.add(if bit == 1 { "1" } else { "0" });
    }
}

/// Whether two tables have the same symbols in the same order, and the same code for each of all bytes.
pub fn same_codes(row: &Row, answer: &mut Answer) {
    let table = tables::table(row, row.field(0), answer);
    let other = tables::table(row, row.field(1), answer);
    let is_same = table.symbols() == other.symbols() && have_same_codes(&table, &other);
    answer.say(if is_same { "yes" } else { "no" });
}

fn have_same_codes(table: &Table, other: &Table) -> bool {
    for symbol in 0..=255 {
        if table.code(symbol) != other.code(symbol) {
            return false;
        }
    }
    true
}

/// What slots 0 to 4 have once some tables were set.
pub fn set(row: &Row, answer: &mut Answer) {
    let mut set = TableSet::new();
    for part in row.field(0).split(',') {
        set_one(row, part.trim(), &mut set, answer);
    }
    for slot in 0..5 {
        say_slot("dc ", slot, set.dc(slot), answer);
        say_slot("ac ", slot, set.ac(slot), answer);
    }
}

// `dc SLOT TABLE` or `ac SLOT TABLE`.
fn set_one(row: &Row, part: &str, set: &mut TableSet, answer: &mut Answer) {
    let (class, words) = word(part);
    let (slot, words) = word(words);
    let table = tables::table(row, words, answer);
    let slot = small(slot, answer).min(3);
    if class == "dc" {
        set.set_dc(slot, &table);
    } else {
        set.set_ac(slot, &table);
    }
}

fn say_slot(class: &str, slot: u8, table: Option<&Table>, answer: &mut Answer) {
    if let Some(table) = table {
        answer.say(class);
        answer.add_number(u64::from(slot));
        answer.add(" ");
        answer.add_number(u64::from(table.count(2)));
        answer.add(" of 2 bits among ");
        answer.add_number(table.symbols().len() as u64);
    }
}
