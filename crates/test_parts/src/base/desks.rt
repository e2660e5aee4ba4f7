// Calls of a desk, one after another: what each answers.
ghost use Rattle.std.specs.Prelude.{◌≡◌, ◌<◌, length, true};
ghost use Rattle.jpg_base.specs.Memory.{memory_state};
ghost use Rattle.test_parts.specs.Desks.{IsReady, is_done};

use crate::answer::Answer;
use crate::row::{Row, large, number, word};
use jpg_base::{Desk, Got, MemoryDesk, Name, Put, StdDesk, Text};
use std::alloc::Global;

// Whether an input is open, and whether an output was created, as far as is known.
#[derive(Clone, Copy)]
pub struct Ready {
    pub input: bool,
    pub output: bool,
}

const NOT_READY: Ready = Ready {
    input: false,
    output: false,
};

/// Calls of real files and the standard streams, one for each field.
pub fn real(rt: HostRuntime, row: &Row, answer: &mut Answer) {
    let mut desk = StdDesk::new(rt);
    let mut ready = NOT_READY;
    for field in row.fields {
        ready = call(row, field, ready, &mut desk, answer);
    }
}

/// Calls of a desk in memory, one for each field, whose reads give at most a piece.
pub fn memory(row: &Row, piece: u32, answer: &mut Answer) {
    let mut desk = MemoryDesk::new(row.alloc, piece.max(1));
    let mut ready = NOT_READY;
    for field in row.fields {
        ready = step(row, field, ready, &mut desk, answer);
    }
}

// What is done with a desk in memory, or asked of it.
fn step(row: &Row, field: &str, ready: Ready, desk: &mut MemoryDesk, answer: &mut Answer) -> Ready
    requires { IsReady ready (memory_state desk.old) }
    ensures { IsReady result (memory_state desk.new) }
{
    let (key, rest) = word(field);
    match key {
        "file" => add_file(row, rest, desk, answer),
        "read" if ready.input => read_memory(row, rest, desk, answer),
        "fail" => fail(rest, desk, answer),
        "calls" => answer.say_number(desk.calls()),
        "outputs" => answer.say_number(u64::from(desk.outputs())),
        "output" => say_output(large(rest, answer), desk, answer),
        "said" => answer.give(desk.said()),
        _ => return call(row, field, ready, desk, answer),
    }
    ready
}

// Makes a call fail: `CALL`, or `CALL after BYTES`.
fn fail(text: &str, desk: &mut MemoryDesk, answer: &mut Answer)
    ensures { memory_state desk.new ≡ memory_state desk.old }
{
    let is_chosen = match text.split_once(" after ") {
        Some((call, bytes)) => {
            let bytes = large(bytes, answer);
            desk.fail_after(number(call, answer), bytes).is_ok()
        }
        None => desk.fail(number(text, answer)).is_ok(),
    };
    if !is_chosen {
        answer.fall_short();
    }
}

// Adds the file of `NAME BYTES`.
fn add_file(row: &Row, text: &str, desk: &mut MemoryDesk, answer: &mut Answer)
    ensures input { (memory_state desk.new).input_open ≡ (memory_state desk.old).input_open }
    ensures output { (memory_state desk.new).output_created ≡ (memory_state desk.old).output_created }
{
    let (name, bytes) = word(text);
    let bytes = row.spelled(bytes, answer);
    let name = name_of(row.alloc, name, answer);
    if desk.add_file(&name, bytes.as_slice()).is_err() {
        answer.fall_short();
    }
}

// A read of a desk in memory, whose input stays open whatever it answers.
fn read_memory(row: &Row, text: &str, desk: &mut MemoryDesk, answer: &mut Answer)
    requires { (memory_state desk.old).input_open ≡ true }
    ensures input { (memory_state desk.new).input_open ≡ true }
    ensures output { (memory_state desk.new).output_created ≡ (memory_state desk.old).output_created }
{
    let mut buf = [0; 16];
    let length = room(text, answer);
    let got = desk.read(&mut buf[..length]);
    say_got(got, &buf[..length], answer);
}

/// How many bytes a read may fill: from 1 to 16.
pub fn room(text: &str, answer: &mut Answer) -> usize
    ensures some { 0 < result }
    ensures few { result < 17 }
{
    number(text, answer).clamp(1, 16) as usize
}

// Adds what a read answers, and what it was handed to fill.
fn say_got(got: Got, buf: &[u8], answer: &mut Answer) {
    answer.say_shown(&got);
    answer.give(buf);
}

fn say_output(place: u32, desk: &MemoryDesk, answer: &mut Answer) {
    if place < desk.outputs() {
        answer.give(desk.output(place));
    } else {
        answer.say("no output");
    }
}

// Adds how many calls of a desk failed.
fn say_counts<D: Desk>(desk: &D, answer: &mut Answer) {
    let counts = desk.counts();
    answer.say_number(counts.opens);
    answer.say_number(counts.reads);
    answer.say_number(counts.writes);
    answer.say_number(counts.says);
}

// A call of a desk. One that needs an input or an output isn't made without.
fn call<D: Desk>(row: &Row, field: &str, ready: Ready, desk: &mut D, answer: &mut Answer) -> Ready
    requires { IsReady ready (D.state desk.old) }
    ensures { IsReady result (D.state desk.new) }
{
    let (key, rest) = word(field);
    match key {
        "open" => open(row, rest, ready, desk, answer),
        "create" => create(row, rest, ready, desk, answer),
        "read" => read(rest, ready, desk, answer),
        "write" => write(row, rest, ready, desk, answer),
        "say" => say(row, rest, ready, desk, answer),
        "counts" => {
            say_counts(desk, answer);
            ready
        }
        _ => {
            answer.unread(field);
            ready
        }
    }
}

fn open<D: Desk>(row: &Row, text: &str, ready: Ready, desk: &mut D, answer: &mut Answer) -> Ready
    requires { IsReady ready (D.state desk.old) }
    ensures { IsReady result (D.state desk.new) }
{
    let name = name_of(row.alloc, text, answer);
    let input = say_put(desk.open(&name), answer);
    Ready { input, ..ready }
}

fn create<D: Desk>(row: &Row, text: &str, ready: Ready, desk: &mut D, answer: &mut Answer) -> Ready
    requires { IsReady ready (D.state desk.old) }
    ensures { IsReady result (D.state desk.new) }
{
    let name = name_of(row.alloc, text, answer);
    let is_done = say_put(desk.create(&name), answer);
    Ready {
        output: is_done || ready.output,
        ..ready
    }
}

// A read, where an input is open. After its end and after a failure none is known to be.
fn read<D: Desk>(text: &str, ready: Ready, desk: &mut D, answer: &mut Answer) -> Ready
    requires { IsReady ready (D.state desk.old) }
    ensures { IsReady result (D.state desk.new) }
{
    if !ready.input {
        answer.say("not open");
        return ready;
    }
    let mut buf = [0; 16];
    let length = room(text, answer);
    let got = desk.read(&mut buf[..length]);
    say_got(got, &buf[..length], answer);
    let input = match got {
        Got::Bytes(_) => true,
        Got::End => false,
        Got::Failed => false,
    };
    Ready { input, ..ready }
}

fn write<D: Desk>(row: &Row, text: &str, ready: Ready, desk: &mut D, answer: &mut Answer) -> Ready
    requires { IsReady ready (D.state desk.old) }
    ensures { IsReady result (D.state desk.new) }
{
    if ready.output {
        let piece = row.spelled(text, answer);
        let _ = say_put(desk.write(piece.as_slice()), answer);
    } else {
        answer.say("no output");
    }
    ready
}

fn say<D: Desk>(row: &Row, text: &str, ready: Ready, desk: &mut D, answer: &mut Answer) -> Ready
    requires { IsReady ready (D.state desk.old) }
    ensures { IsReady result (D.state desk.new) }
{
    let text = row.spelled(text, answer);
    let _ = say_put(desk.say(text.as_slice()), answer);
    ready
}

// Adds what a call answers, and says whether it was done.
fn say_put(put: Put, answer: &mut Answer) -> bool
    ensures { result ≡ is_done put }
{
    match put {
        Put::Done => {
            answer.say("Done");
            true
        }
        Put::Failed => {
            answer.say("Failed");
            false
        }
    }
}

// The standard streams are `<input>` and `<output>`.
fn name_of(alloc: Global, text: &str, answer: &mut Answer) -> Name {
    match text {
        "<input>" => Name::In,
        "<output>" => Name::Out,
        _ => match Text::new(alloc, text) {
            Ok(text) => Name::File(text),
            Err(_) => {
                answer.fall_short();
                Name::In
            }
        },
    }
}

/// Names, one for each field: which of them are the same as a copy of which.
pub fn names(row: &Row, answer: &mut Answer) {
    for (i, text) in row.fields.iter().enumerate() {
        let name = name_of(row.alloc, text, answer);
        match name.try_clone(row.alloc) {
            Ok(copy) => say_same(row, i, &copy, answer),
            Err(_) => answer.fall_short(),
        }
    }
}

// Adds the places of all names that are the same as this copy of the name at place `i`.
fn say_same(row: &Row, i: usize, copy: &Name, answer: &mut Answer) {
    for (k, text) in row.fields.iter().enumerate() {
        if name_of(row.alloc, text, answer).is_same(copy) {
            answer.say_two(k as u64, " as ", i as u64);
        }
    }
}
