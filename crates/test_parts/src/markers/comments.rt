// Comments: what rdjpgcom prints of them, and files with one inserted.
ghost use Rattle.std.specs.Prelude.{◌≡◌, ◌≤◌, false};
ghost use Rattle.jpg_spec.specs.FrameHeader.{AreLimits};
ghost use Rattle.jpg_comments.specs.ReadComments.{is_done};

use crate::answer::Answer;
use crate::row::{Row, is_first, number};
use jpg_base::{Bytes, Fed, Limits, Stop};
use jpg_comments::{Comments, Insert, append_printed, append_segment};

// The most bytes of a segment's contents.
const LONGEST: usize = 65_533;

/// A comment as it is printed, after other bytes.
pub fn printed(row: &Row, answer: &mut Answer) {
    let mut bytes = row.bytes(0, answer);
    let comment = row.bytes(1, answer);
    if append_printed(comment.as_slice(), &mut bytes).is_err() {
        answer.fall_short();
    }
    answer.give(bytes.as_slice());
}

/// A segment as it is appended: its code, and then its contents.
pub fn appended(row: &Row, answer: &mut Answer) {
    let segment = row.bytes(0, answer);
    let mut bytes = Bytes::new(row.alloc);
    if !append(segment.as_slice(), &mut bytes) {
        answer.say("not appended");
    }
    answer.give(bytes.as_slice());
}

fn append(segment: &[u8], bytes: &mut Bytes) -> bool {
    match segment.split_first() {
        Some((code, contents)) if contents.len() <= LONGEST => {
            append_segment(*code, contents, bytes).is_ok()
        }
        _ => false,
    }
}

// The limits of the profile, with so many bytes of input as the field at this place says, where it is there.
fn limits_of(row: &Row, place: usize, answer: &mut Answer) -> Limits
    ensures { AreLimits result }
{
    let mut limits = Limits::standard();
    if let Some(input) = row.field(place).strip_prefix("input ") {
        limits.input = number(input, answer).clamp(1, limits.input);
    }
    limits
}

/// The comments of a file that is fed in pieces of a size: how many bytes make the file complete, or why it isn't.
pub fn comments(row: &Row, piece: u32, answer: &mut Answer) {
    let file = row.bytes(0, answer);
    let mut bytes = Bytes::new(row.alloc);
    let mut comments = Comments::new(row.alloc, limits_of(row, 1, answer));
    match read(
        &mut comments,
        file.as_slice(),
        piece.max(1) as usize,
        &mut bytes,
    ) {
        Ok(taken) => answer.say_number(taken),
        Err(stop) => answer.say_stop(stop),
    }
    answer.give(bytes.as_slice());
}

// What came of bytes that were fed in pieces of this size: how many make the file complete, else why it isn't.
fn read(comments: &mut Comments, bytes: &[u8], size: usize, text: &mut Bytes) -> Result<u64, Stop>
    requires some { 1 ≤ size }
    requires more { is_done comments.old ≡ false }
{
    let mut taken = 0u64;
    for piece in bytes.chunks(size) {
        match comments.feed(piece, text)? {
            Fed::More => taken = taken.saturating_add(piece.len() as u64),
            Fed::Done { used } => return Ok(taken.saturating_add(used)),
        }
    }
    Err(comments.end())
}

/// The pieces of a file, one for each field, and its end: what each leads to.
pub fn fed(row: &Row, answer: &mut Answer) {
    let mut bytes = Bytes::new(row.alloc);
    let mut comments = Comments::new(row.alloc, Limits::standard());
    for field in row.fields {
        if comments.is_done() {
            answer.say("complete");
        } else if *field == "end" {
            answer.say_stop(comments.end());
        } else {
            let piece = row.spelled(field, answer);
            feed(&mut comments, piece.as_slice(), &mut bytes, answer);
        }
    }
    answer.give(bytes.as_slice());
}

fn feed(comments: &mut Comments, piece: &[u8], bytes: &mut Bytes, answer: &mut Answer)
    requires { is_done comments.old ≡ false }
{
    match comments.feed(piece, bytes) {
        Ok(Fed::More) => answer.say("more"),
        Ok(Fed::Done { used }) => answer.say_number(used),
        Err(stop) => answer.say_stop(stop),
    }
}

/// A file that is fed in pieces of a size, with a comment inserted.
pub fn inserted(row: &Row, piece: u32, answer: &mut Answer) {
    let comment = row.bytes(0, answer);
    let replace = is_first(row.field(1), "replace", "keep", answer);
    match Insert::new(
        row.alloc,
        limits_of(row, 3, answer),
        comment.as_slice(),
        replace,
    ) {
        Ok(mut insert) => say_inserted(row, &mut insert, piece.max(1) as usize, answer),
        Err(stop) => answer.say_stop(stop),
    }
}

fn say_inserted(row: &Row, insert: &mut Insert, size: usize, answer: &mut Answer)
    requires { 1 ≤ size }
{
    let file = row.bytes(2, answer);
    let mut bytes = Bytes::new(row.alloc);
    match write(insert, file.as_slice(), size, &mut bytes) {
        Ok(()) => answer.say("ok"),
        Err(stop) => answer.say_stop(stop),
    }
    answer.give(bytes.as_slice());
}

// What came of bytes that were fed in pieces of this size.
fn write(insert: &mut Insert, bytes: &[u8], size: usize, out: &mut Bytes) -> Result<(), Stop>
    requires { 1 ≤ size }
{
    for piece in bytes.chunks(size) {
        let _ = insert.feed(piece, out)?;
    }
    insert.end()
}
