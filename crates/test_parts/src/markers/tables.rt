// Contents of DQT and DHT segments, one after another: what their readers answer, and the tables that they leave.
use crate::answer::Answer;
use crate::row::{Row, number, small, word};
use jpg_huff::{DefinitionSet, Table};
use jpg_markers::{QuantSet, read_dht, read_dqt};

#[derive(Drop)]
struct Defined {
    quants: QuantSet,
    huffmans: DefinitionSet,
}

/// Segments and questions, one for each field.
pub fn tables(row: &Row, answer: &mut Answer) {
    let mut tables = Defined {
        quants: QuantSet::new(),
        huffmans: DefinitionSet::new(),
    };
    for field in row.fields {
        step(row, field, &mut tables, answer);
    }
}

fn step(row: &Row, field: &str, tables: &mut Defined, answer: &mut Answer) {
    let (key, rest) = word(field);
    match key {
        "dqt" => quantisers(row, rest, tables, answer),
        "dht" => codes(row, rest, tables, answer),
        "empty" => {
            let count = number(rest, answer);
            answer.say_number(empty_segments(count, tables));
        }
        "quantiser" => say_quantiser(rest, &tables.quants, answer),
        "dc" => {
            let (slot, what) = word(rest);
            let slot = small(slot, answer);
            say_table(what, tables.huffmans.tables().dc(slot), answer);
        }
        "ac" => {
            let (slot, what) = word(rest);
            let slot = small(slot, answer);
            say_table(what, tables.huffmans.tables().ac(slot), answer);
        }
        _ => answer.unread(field),
    }
}

fn quantisers(row: &Row, text: &str, tables: &mut Defined, answer: &mut Answer) {
    let contents = row.spelled(text, answer);
    answer.say_done(read_dqt(contents.as_slice(), &mut tables.quants));
}

fn codes(row: &Row, text: &str, tables: &mut Defined, answer: &mut Answer) {
    let contents = row.spelled(text, answer);
    answer.say_done(read_dht(contents.as_slice(), &mut tables.huffmans));
}

// How many of so many empty segments of either kind have no fault.
fn empty_segments(count: u64, tables: &mut Defined) -> u64 {
    let mut done = 0u64;
    for _ in 0..count {
        if read_dqt(&[], &mut tables.quants).is_ok()
            && read_dht(&[], &mut tables.huffmans).is_ok()
        {
            done = done.saturating_add(1);
        }
    }
    done
}

// The quantiser by `SLOT PLACE`.
fn say_quantiser(text: &str, quants: &QuantSet, answer: &mut Answer) {
    let (slot, place) = word(text);
    let place = small(place, answer).min(63);
    match quants.get(small(slot, answer)) {
        Some(table) => answer.say_number(u64::from(table.get(place))),
        None => answer.say("no table"),
    }
}

// What `code SYMBOL` or `count LENGTH` asks of a table.
fn say_table(text: &str, table: Option<&Table>, answer: &mut Answer) {
    let (what, value) = word(text);
    let value = small(value, answer);
    match table {
        None => answer.say("no table"),
        Some(table) if what == "code" => say_code(table, value, answer),
        Some(table) => answer.say_number(u64::from(table.count(value.clamp(1, 16)))),
    }
}

// The length of a symbol's code, and its bits.
fn say_code(table: &Table, symbol: u8, answer: &mut Answer) {
    match table.code(symbol) {
        Some(code) => {
            answer.say_number(u64::from(code.length));
            answer.add(" bits ");
            answer.add_binary(code.bits);
        }
        None => answer.say("no code"),
    }
}
