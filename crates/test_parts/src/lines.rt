// The lines of a text: rows, bytes with names, comments, and lines that go on.
use crate::answer::Answer;
use crate::bytes::{Named, keep, spell};
use crate::row::{Row, decimal, value};
use arrayvec::ArrayVec;
use jpg_base::Bytes;
use std::alloc::Global;

// How many fields and settings a row has at most.
const MOST_FIELDS: usize = 24;

const MOST_SETTINGS: usize = 8;

/// A program that tries rows.
pub trait Rows {
    /// Tries a row, and says what isn't as it is expected. The bytes of the answer are those that the row can keep.
    fn run(&mut self, row: &Row, said: &mut Answer);
}

/// What came of rows: a line for each, how many were as expected and how many weren't, and the bytes that have names so far.
#[derive(Drop)]
pub struct Report {
    alloc: Global,
    names: Vec<Named>,
    lines: Answer,
    ok: u64,
    other: u64,
}

impl Report {
    /// Nothing yet.
    pub fn new(alloc: Global) -> Report {
        Report {
            alloc,
            names: Vec::new(alloc),
            lines: Answer::new(alloc),
            ok: 0,
            other: 0,
        }
    }

    /// A line for each row, and one that says how many there were.
    pub fn lines(&self) -> &str {
        self.lines.text()
    }

    /// How many rows weren't as expected.
    pub fn others(&self) -> u64 {
        self.other
    }

    /// Gives these bytes a name.
    pub fn keep(&mut self, name: &str, bytes: &[u8]) {
        if !keep(self.alloc, &mut self.names, name, bytes) {
            self.lines.fall_short();
        }
    }

    fn add_line(&mut self, name: &str, said: &Answer) {
        self.lines.add(name);
        if said.is_silent() {
            self.ok = self.ok.saturating_add(1);
            self.lines.add(": ok\n");
        } else {
            self.other = self.other.saturating_add(1);
            self.lines.add(": ");
            self.lines.add(said.text());
            self.lines.add("\n");
        }
    }
}

/// Takes the lines of a text in order. One that begins with `+` goes on with the line before it; one that begins with `#` is a comment.
pub fn take_lines(text: &str, rows: &mut impl Rows, report: &mut Report) {
    match text.replace(report.alloc, "\n+", "") {
        Ok(text) => take_all(text.as_str(), rows, report),
        Err(_) => report.lines.fall_short(),
    }
    report.lines.add_number(report.ok);
    report.lines.add(" rows ok, ");
    report.lines.add_number(report.other);
    report.lines.add(" not\n");
}

fn take_all(text: &str, rows: &mut impl Rows, report: &mut Report) {
    for line in text.lines() {
        if let Some(text) = line.strip_prefix("let ") {
            take_let(text, report);
        } else if !line.is_empty() && !line.starts_with('#') {
            take_row(line, rows, report);
        }
    }
}

// `NAME = BYTES`.
fn take_let(text: &str, report: &mut Report) {
    let (name, spelling) = text.split_once(" = ").unwrap_or((text, "?"));
    let mut bytes = Bytes::new(report.alloc);
    if spell(report.names.as_slice(), spelling, &mut bytes) {
        report.keep(name, bytes.as_slice());
    } else {
        let mut said = Answer::new(report.alloc);
        said.unread(spelling);
        report.add_line(name, &said);
    }
}

// Runs a row, or for each of its numbers the row with this one.
fn take_row(line: &str, rows: &mut impl Rows, report: &mut Report) {
    let (name, rest) = line.split_once('|').unwrap_or((line, ""));
    let mut said = Answer::new(report.alloc);
    match rest.split_once("| each ") {
        Some((_, range)) => run_each(rest, range, rows, report, &mut said),
        None => run_line(rest, rows, report, &mut said),
    }
    report.add_line(name.trim(), &said);
}

// The field `each FROM TO` has a row run for each number from one up to the other, in place of each `@`.
fn run_each(line: &str, range: &str, rows: &mut impl Rows, report: &mut Report, said: &mut Answer) {
    let (range, _) = range.split_once('|').unwrap_or((range, ""));
    let (from, to) = range.trim().split_once(' ').unwrap_or(("", ""));
    let (Some(from), Some(to)) = (decimal(from), decimal(to)) else {
        return said.unread(range);
    };
    for number in from..to {
        if said.is_silent() {
            run_number(line, number, rows, report, said);
        }
    }
}

fn run_number(
    line: &str,
    number: u64,
    rows: &mut impl Rows,
    report: &mut Report,
    said: &mut Answer,
) {
    let mut digits = Answer::new(report.alloc);
    digits.add_number(number);
    match line.replace(report.alloc, "@", digits.text()) {
        Ok(text) => run_line(text.as_str(), rows, report, said),
        Err(_) => said.fall_short(),
    }
    if !said.is_silent() {
        said.say("at ");
        said.add(digits.text());
    }
}

fn run_line(line: &str, rows: &mut impl Rows, report: &mut Report, said: &mut Answer) {
    let (kind, rest) = line.split_once('|').unwrap_or((line, ""));
    let mut fields = ArrayVec::new();
    let mut settings = ArrayVec::new();
    for field in rest.split('|') {
        if !add_field(field.trim(), &mut fields, &mut settings) {
            said.unread(field);
        }
    }
    let row = Row {
        alloc: report.alloc,
        names: report.names.as_slice(),
        kind: kind.trim(),
        fields: fields.as_slice(),
        settings: settings.as_slice(),
    };
    rows.run(&row, said);
    if let Some(name) = value(settings.as_slice(), "keep ") {
        report.keep(name, said.bytes());
    }
}

// False where there are too many.
fn add_field<'a>(
    field: &'a str,
    fields: &mut ArrayVec<&'a str, MOST_FIELDS>,
    settings: &mut ArrayVec<&'a str, MOST_SETTINGS>,
) -> bool {
    if is_setting(field) {
        settings.try_push(field).is_ok()
    } else {
        fields.try_push(field).is_ok()
    }
}

fn is_setting(field: &str) -> bool {
    let (key, value) = field.split_once(' ').unwrap_or((field, ""));
    let is_key = match key {
        "out" => true,
        "piece" => true,
        "each" => true,
        "keep" => true,
        _ => false,
    };
    key == "=>" || is_key && !value.is_empty()
}
