// Segments as they are written, one after another.
ghost use Rattle.std.specs.Prelude.{◌≡◌, true};
ghost use Rattle.jpg_base.specs.Memory.{memory_state};
ghost use Rattle.jpg_huff.specs.BitOut.{CanSend};

use crate::answer::Answer;
use crate::row::Row;
use jpg_base::{Desk, MemoryDesk, Name, Put};
use jpg_huff::BitOut;
use jpg_markers::write_segment;

// The most bytes of a segment's contents.
const LONGEST: usize = 65_533;

/// Segments, one for each field: its code, and then its contents.
pub fn written(row: &Row, answer: &mut Answer) {
    let mut desk = MemoryDesk::new(row.alloc, 1);
    match desk.create(&Name::Out) {
        Put::Done => write_all(row, &mut desk, answer),
        Put::Failed => answer.say("no output"),
    }
    say_only(&desk, answer);
}

/// Adds the bytes of the only output of a desk.
pub fn say_only(desk: &MemoryDesk, answer: &mut Answer) {
    if desk.outputs() == 1 {
        answer.give(desk.output(0));
    } else {
        answer.say_number(u64::from(desk.outputs()));
        answer.add(" outputs");
    }
}

fn write_all(row: &Row, desk: &mut MemoryDesk, answer: &mut Answer)
    requires { (memory_state desk.old).output_created ≡ true }
{
    let mut out = BitOut::new();
    let mut is_done = true;
    for field in row.fields {
        let segment = row.spelled(field, answer);
        is_done = is_done && write_one(segment.as_slice(), &mut out, desk);
    }
    answer.say(if is_done && out.flush(desk).is_ok() {
        "ok"
    } else {
        "fails"
    });
}

// Writes a segment: whether that was done.
fn write_one(segment: &[u8], out: &mut BitOut, desk: &mut MemoryDesk) -> bool
    requires { CanSend (memory_state desk.old) out.old }
    ensures { CanSend (memory_state desk.new) out.new }
{
    match segment.split_first() {
        Some((code, contents)) if contents.len() <= LONGEST => {
            write_segment(*code, contents, out, desk).is_ok()
        }
        _ => false,
    }
}
