// The runs of a row over a desk in memory.
use crate::asked::judge_words;
use crate::cut_desk::CutDesk;
use crate::judge::judge;
use jpg_base::{MemoryDesk, Name, Text};
use jpg_cli::{Ended, add_end, run};
use jpg_pnm_bmp::{BmpEnd, ImageEnd, PnmEnd};
use jpg_targa::TargaEnd;
use std::alloc::Global;
use test_parts::{Answer, Row, Rows, large, number, value};

// As many bytes a read as fit.
const WHOLE: &str = "4294967295";

/// Runs of the commands.
#[derive(Drop)]
pub struct Commands;

impl Rows for Commands {
    // Runs a row once for each number of bytes that a read gives at most, or reads its words alone.
    fn run(&mut self, row: &Row, said: &mut Answer) {
        for field in row.fields {
            if !is_known(field) {
                said.unread(field);
            }
        }
        let mut words = Vec::new(row.alloc);
        if !add_words(row, &mut words) {
            said.fall_short();
        }
        if let Some(due) = value(row.fields, "asks ") {
            return judge_words(row.alloc, words.as_slice(), due, said);
        }
        for piece in row.setting("piece ").unwrap_or(WHOLE).split_whitespace() {
            if said.is_silent() {
                run_once(row, words.as_slice(), piece, said);
            }
        }
    }
}

fn is_known(field: &str) -> bool {
    field.starts_with("in =")
        || field.starts_with("file ")
        || field.starts_with("first ")
        || field.starts_with("fail ")
        || field.starts_with("ends ")
        || field.starts_with("why ")
        || field.starts_with("failed ")
        || field.starts_with("calls ")
        || field.starts_with("asks ")
}

// Words that spaces part; those in quotes may have spaces, or be empty.
fn add_words(row: &Row, words: &mut Vec<String>) -> bool {
    let mut is_whole = true;
    for (i, piece) in row.kind.split('"').enumerate() {
        if i % 2 == 1 {
            is_whole = add_word(row.alloc, words, piece) && is_whole;
        } else {
            is_whole = add_plain(row.alloc, words, piece) && is_whole;
        }
    }
    is_whole
}

fn add_plain(alloc: Global, words: &mut Vec<String>, piece: &str) -> bool {
    let mut is_whole = true;
    for word in piece.split_whitespace() {
        is_whole = add_word(alloc, words, word) && is_whole;
    }
    is_whole
}

fn add_word(alloc: Global, words: &mut Vec<String>, word: &str) -> bool {
    match String::from_str(alloc, word) {
        Ok(word) => words.push(word).is_ok(),
        Err(_) => false,
    }
}

fn run_once(row: &Row, words: &[String], piece: &str, said: &mut Answer) {
    let size = large(piece, said).max(1);
    let most = match value(row.fields, "first ") {
        Some(most) => number(most, said) as usize,
        None => usize::MAX,
    };
    let mut desk = CutDesk {
        desk: MemoryDesk::new(row.alloc, size),
        most,
    };
    fill(row, &mut desk.desk, said);
    match run_with(row, words, &mut desk) {
        Some(ended) => judge(row, ended, &desk.desk, said),
        None => said.fall_short(),
    }
    if !said.is_silent() {
        said.say("by ");
        said.add(piece);
    }
}

// Gives a desk a row's files, and the call that fails.
fn fill(row: &Row, desk: &mut MemoryDesk, said: &mut Answer) {
    if let Some(text) = value(row.fields, "in =") {
        add_file(row, &Name::In, text, desk, said);
    }
    for field in row.fields {
        if let Some(text) = field.strip_prefix("file ") {
            add_named(row, text, desk, said);
        }
    }
    if let Some(text) = value(row.fields, "fail ") {
        fail(text, desk, said);
    }
}

fn add_file(row: &Row, name: &Name, text: &str, desk: &mut MemoryDesk, said: &mut Answer) {
    let bytes = row.spelled(text, said);
    if desk.add_file(name, bytes.as_slice()).is_err() {
        said.fall_short();
    }
}

// The file of `NAME = BYTES`.
fn add_named(row: &Row, text: &str, desk: &mut MemoryDesk, said: &mut Answer) {
    let (name, bytes) = text.split_once(" =").unwrap_or((text, "?"));
    match Text::new(row.alloc, name) {
        Ok(name) => add_file(row, &Name::File(name), bytes, desk, said),
        Err(_) => said.fall_short(),
    }
}

// `CALL`, or `CALL after BYTES`.
fn fail(text: &str, desk: &mut MemoryDesk, said: &mut Answer) {
    let is_chosen = match text.split_once(" after ") {
        Some((call, bytes)) => {
            let bytes = large(bytes, said);
            desk.fail_after(number(call, said), bytes).is_ok()
        }
        None => desk.fail(number(text, said)).is_ok(),
    };
    if !is_chosen {
        said.fall_short();
    }
}

// A run that is handed the image writers that the row names. None where memory runs out before.
fn run_with(row: &Row, words: &[String], desk: &mut CutDesk) -> Option<Ended> {
    match value(row.fields, "ends ") {
        None => run_all(row.alloc, words, desk),
        Some("none") => Some(run(row.alloc, words, desk, Vec::new(row.alloc))),
        Some("pnm") => run_pnm(row.alloc, words, desk),
        Some(_) => run_both(row.alloc, words, desk),
    }
}

fn run_pnm(alloc: Global, words: &[String], desk: &mut CutDesk) -> Option<Ended> {
    let mut ends: Vec<Box<dyn ImageEnd>> = Vec::new(alloc);
    let Ok(pnm) = Box::new(alloc, PnmEnd::new()) else {
        return None;
    };
    if add_end(&mut ends, pnm).is_err() {
        return None;
    }
    Some(run(alloc, words, desk, ends))
}

fn run_both(alloc: Global, words: &[String], desk: &mut CutDesk) -> Option<Ended> {
    let mut ends: Vec<Box<dyn ImageEnd>> = Vec::new(alloc);
    let Ok(pnm) = Box::new(alloc, PnmEnd::new()) else {
        return None;
    };
    let Ok(bmp) = Box::new(alloc, BmpEnd::new(alloc)) else {
        return None;
    };
    if add_end(&mut ends, pnm).is_err() || add_end(&mut ends, bmp).is_err() {
        return None;
    }
    Some(run(alloc, words, desk, ends))
}

fn run_all(alloc: Global, words: &[String], desk: &mut CutDesk) -> Option<Ended> {
    let mut ends: Vec<Box<dyn ImageEnd>> = Vec::new(alloc);
    let Ok(pnm) = Box::new(alloc, PnmEnd::new()) else {
        return None;
    };
    let Ok(bmp) = Box::new(alloc, BmpEnd::new(alloc)) else {
        return None;
    };
    let Ok(targa) = Box::new(alloc, TargaEnd::new(alloc)) else {
        return None;
    };
    if add_end(&mut ends, pnm).is_err()
        || add_end(&mut ends, bmp).is_err()
        || add_end(&mut ends, targa).is_err()
    {
        return None;
    }
    Some(run(alloc, words, desk, ends))
}
