// What came of a run, and how it differs from what is expected.
use jpg_base::{Desk, MemoryDesk};
use jpg_cli::Ended;
use test_parts::{Answer, Row, decimal, number, sum_of, value};

/// Says what isn't as the row expects it. The bytes of the answer are those of the only output.
pub fn judge(row: &Row, ended: Ended, desk: &MemoryDesk, said: &mut Answer) {
    judge_end(row, ended, desk, said);
    judge_calls(row, desk, said);
    judge_output(row, desk, said);
    if !said.is_silent() {
        say_came(ended, desk, said);
    }
    said.give(written(desk));
}

// The exit status, the message and the cause.
fn judge_end(row: &Row, ended: Ended, desk: &MemoryDesk, said: &mut Answer) {
    let due = row.setting("=>").unwrap_or("no =>");
    let (code, message) = due.split_once(' ').unwrap_or((due, ""));
    if number(code, said) != u64::from(ended.code) {
        said.say("another status");
    }
    if !is_said(message, desk.said()) {
        said.say("another message");
    }
    if let Some(why) = value(row.fields, "why ") {
        let mut text = Answer::new(row.alloc);
        text.add_shown(&ended.why);
        if text.text() != why {
            said.say("another cause ");
            said.add(text.text());
        }
    }
}

// How many calls were made, and how many failed.
fn judge_calls(row: &Row, desk: &MemoryDesk, said: &mut Answer) {
    if let Some(failed) = value(row.fields, "failed ") {
        if number(failed, said) != failures(desk) {
            said.say("another number of failed calls");
        }
    }
    if let Some(calls) = value(row.fields, "calls ") {
        if number(calls, said) != desk.calls() {
            said.say("another number of calls");
        }
    }
}

// Whether the message is the one that is expected, or a first part of it where `<` stands before it.
fn is_said(due: &str, said: &[u8]) -> bool {
    if due.is_empty() {
        return said.is_empty();
    }
    match due.strip_prefix("< ") {
        Some(whole) => whole.as_bytes().starts_with(said),
        None => said.strip_suffix(b"\n") == Some(due.as_bytes()),
    }
}

// The bytes of the only output; none where there are none or several.
fn written(desk: &MemoryDesk) -> &[u8] {
    if desk.outputs() == 1 {
        desk.output(0)
    } else {
        &[]
    }
}

// How many calls failed.
fn failures(desk: &MemoryDesk) -> u64 {
    let counts = desk.counts();
    counts
        .opens
        .saturating_add(counts.reads)
        .saturating_add(counts.writes)
        .saturating_add(counts.says)
}

// Whether there is no output, one, or one that is as expected.
fn judge_output(row: &Row, desk: &MemoryDesk, said: &mut Answer) {
    let Some(due) = row.setting("out ") else {
        return;
    };
    let is_due = match due {
        "none" => desk.outputs() == 0,
        "any" => desk.outputs() == 1,
        _ => desk.outputs() == 1 && is_due(row, due, written(desk), said),
    };
    if !is_due {
        said.say("another output");
    }
}

// Whether an output is `= BYTES`, or other than `!= BYTES`, or a part at the front of `< BYTES`, or has a length and a sum.
fn is_due(row: &Row, due: &str, output: &[u8], said: &mut Answer) -> bool {
    let (relation, text) = due.split_once(' ').unwrap_or((due, ""));
    if relation == "length" {
        return has_sum(text, output).unwrap_or(false);
    }
    let bytes = row.spelled(text, said);
    let bytes = bytes.as_slice();
    match relation {
        "=" => output == bytes,
        "!=" => output != bytes,
        "<" => output.len() < bytes.len() && bytes.starts_with(output),
        _ => false,
    }
}

// Whether bytes have what `LENGTH sum DECIMAL` or `LENGTH fnv HEXADECIMAL` says.
fn has_sum(text: &str, bytes: &[u8]) -> Option<bool> {
    let (length, text) = text.split_once(' ')?;
    let length = decimal(length)?;
    let (kind, sum) = text.split_once(' ')?;
    let is_sum = match kind {
        "sum" => decimal(sum)? == u64::from(sum_of(bytes)),
        "fnv" => u64::from_str_radix(sum, 16).ok()? == fnv_of(bytes),
        _ => false,
    };
    Some(is_sum && bytes.len() as u64 == length)
}

// FNV-1a over 64 bits.
fn fnv_of(bytes: &[u8]) -> u64 {
    let mut sum = 0xcbf2_9ce4_8422_2325u64;
    for byte in bytes {
        sum = (sum ^ u64::from(*byte)).wrapping_mul(0x0100_0000_01b3);
    }
    sum
}

// What came, in short.
fn say_came(ended: Ended, desk: &MemoryDesk, said: &mut Answer) {
    let output = written(desk);
    said.say("=> ");
    said.add_number(u64::from(ended.code));
    said.add(" ");
    said.add_text(desk.said());
    said.say("calls ");
    said.add_number(desk.calls());
    said.say("outputs ");
    said.add_number(u64::from(desk.outputs()));
    said.say("length ");
    said.add_number(output.len() as u64);
    said.add(" sum ");
    said.add_number(u64::from(sum_of(output)));
    said.add(" fnv ");
    said.add_bytes(&fnv_of(output).to_be_bytes());
}
