// Bits and bytes that are written.
ghost use Rattle.std.specs.Prelude.{◌≡◌, true};
ghost use Rattle.jpg_base.specs.Memory.{memory_state};

use crate::answer::Answer;
use crate::row::{Row, number, word};
use jpg_base::{Desk, MemoryDesk, Name, Put};
use jpg_huff::BitOut;

/// What the output of a desk has after some steps, of which one call fails.
pub fn bits_out(row: &Row, answer: &mut Answer) {
    let mut desk = MemoryDesk::new(row.alloc, 1);
    if desk.fail(number(row.field(0), answer)).is_err() {
        answer.fall_short();
    }
    match desk.create(&Name::Out) {
        Put::Done => take_steps(row, &mut desk, answer),
        Put::Failed => answer.say("no output"),
    }
}

fn take_steps(row: &Row, desk: &mut MemoryDesk, answer: &mut Answer)
    requires { (memory_state desk.old).output_created ≡ true }
{
    let mut out = BitOut::new();
    for step in row.field(1).split(',') {
        take_step(row, step, &mut out, desk, answer);
    }
}

// A step, and what it adds to the answer.
fn take_step(row: &Row, step: &str, out: &mut BitOut, desk: &mut MemoryDesk, answer: &mut Answer)
    requires { (memory_state desk.old).output_created ≡ true }
    ensures { (memory_state desk.new).output_created ≡ true }
{
    let (key, rest) = word(step.trim());
    let is_done = match key {
        "raw" => send_raw(row, rest, out, desk, answer),
        "put" => put_bits(rest, out, desk, answer),
        "flush" => flush(out, desk),
        "output" => {
            say_only(desk, answer);
            true
        }
        _ => false,
    };
    if !is_done {
        answer.say(key);
        answer.add(" fails");
    }
}

/// Adds the bytes of the only output in hexadecimal digits, or `nothing`.
pub fn say_only(desk: &MemoryDesk, answer: &mut Answer) {
    if desk.outputs() != 1 {
        return answer.say("not one output");
    }
    let bytes = desk.output(0);
    answer.say(if bytes.is_empty() { "nothing" } else { "" });
    answer.add_bytes(bytes);
}

// Bytes as they are, after bits that are padded.
fn send_raw(
    row: &Row,
    text: &str,
    out: &mut BitOut,
    desk: &mut MemoryDesk,
    answer: &mut Answer,
) -> bool
    requires { (memory_state desk.old).output_created ≡ true }
    ensures { (memory_state desk.new).output_created ≡ true }
{
    let bytes = row.spelled(text, answer);
    out.pad(desk).is_ok() && out.raw(bytes.as_slice(), desk).is_ok()
}

// At most 32 bits of a text of the digits 0 and 1, perhaps none, at once.
fn put_bits(text: &str, out: &mut BitOut, desk: &mut MemoryDesk, answer: &mut Answer) -> bool
    requires { (memory_state desk.old).output_created ≡ true }
    ensures { (memory_state desk.new).output_created ≡ true }
{
    let count = text.len();
    let bits = u32::from_str_radix(text, 2).unwrap_or(0);
    if count > 32 || u64::from(bits) >= 1 << count {
        answer.unread(text);
        return false;
    }
    out.put(bits, count as u8, desk).is_ok()
}

fn flush(out: &mut BitOut, desk: &mut MemoryDesk) -> bool
    requires { (memory_state desk.old).output_created ≡ true }
    ensures { (memory_state desk.new).output_created ≡ true }
{
    out.pad(desk).is_ok() && out.flush(desk).is_ok()
}
