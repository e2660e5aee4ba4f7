// The examples of docs/CALLING.md.
use crate::answer::Answer;
use crate::row::{Row, middle, number, small, word};
use crate::scans::blocks::block_at;
use example_callers::{
    Listed, NotTurned, comments_of, comments_of_pieces, encode, first_scans, list_segments, turn,
    turn_coefs,
};
use jpg_base::{Bytes, MemoryDesk, Stop};
use jpg_transform::{Choice, Coefs, Copying, Huffman, Restart, Scans, Transform};

/// The segments of a file: the code, the length of the contents and the end of each.
pub fn segments(row: &Row, answer: &mut Answer) {
    let file = row.bytes(0, answer);
    match list_segments(row.alloc, file.as_slice()) {
        Ok(list) => say_list(list.as_slice(), answer),
        Err(stop) => answer.say_stop(stop),
    }
}

fn say_list(list: &[Listed], answer: &mut Answer) {
    for segment in list {
        answer.say("");
        answer.add_byte(segment.code);
        answer.add(" ");
        answer.add_number(segment.length as u64);
        answer.add(" ");
        answer.add_number(segment.end as u64);
    }
}

/// The text of the comments of a file.
pub fn comments(row: &Row, answer: &mut Answer) {
    let file = row.bytes(0, answer);
    say_comments(comments_of(row.alloc, file.as_slice()), answer);
}

// A text in quotes, or why there is none.
fn say_comments(comments: Result<Bytes, Stop>, answer: &mut Answer) {
    match comments {
        Ok(bytes) => answer.add_text(bytes.as_slice()),
        Err(stop) => answer.say_stop(stop),
    }
}

/// The same of a file in four pieces, with commas between them; some may be empty.
pub fn pieces(row: &Row, answer: &mut Answer) {
    let (first, rest) = piece(row.field(0));
    let (second, rest) = piece(rest);
    let (third, fourth) = piece(rest);
    let first = row.spelled(first, answer);
    let second = row.spelled(second, answer);
    let third = row.spelled(third, answer);
    let fourth = row.spelled(fourth, answer);
    let pieces = [
        first.as_slice(),
        second.as_slice(),
        third.as_slice(),
        fourth.as_slice(),
    ];
    say_comments(comments_of_pieces(row.alloc, &pieces), answer);
}

fn piece(text: &str) -> (&str, &str) {
    text.split_once(',').unwrap_or((text, ""))
}

/// The length and the sum of the file of a picture moved.
pub fn turned(row: &Row, answer: &mut Answer) {
    let file = row.bytes(1, answer);
    let choice = choice_of(row.field(0), answer);
    say_output(turn(row.alloc, file.as_slice(), &choice), answer);
}

/// The same of an image encoded.
pub fn encoded(row: &Row, answer: &mut Answer) {
    let file = row.bytes(1, answer);
    let quality = small(row.field(0), answer).clamp(1, 100);
    say_output(encode(row.alloc, file.as_slice(), quality), answer);
}

/// A value of the first component of a picture moved: that at a place of the block at a column and a row; or none, where there is no block.
pub fn coefficient(row: &Row, answer: &mut Answer) {
    let file = row.bytes(1, answer);
    let choice = choice_of(row.field(0), answer);
    match turn_coefs(row.alloc, file.as_slice(), &choice) {
        Ok(coefs) => say_value(row, &coefs, answer),
        Err(why) => say_not_turned(why, answer),
    }
}

/// A value of the first component after the first scans of a file, as above.
pub fn shown(row: &Row, answer: &mut Answer) {
    let file = row.bytes(1, answer);
    let scans = middle(row.field(0), answer).max(1);
    match first_scans(row.alloc, file.as_slice(), scans) {
        Ok(picture) => say_value(row, &picture.coefs, answer),
        Err(stop) => answer.say_stop(stop),
    }
}

// The value at the column, the row and the place that the third field names.
fn say_value(row: &Row, coefs: &Coefs, answer: &mut Answer) {
    let (x, rest) = word(row.field(2));
    let (y, k) = word(rest);
    let k = small(k, answer);
    match block_at(coefs, 0, number(x, answer), number(y, answer)) {
        Some(block) if k < 64 => answer.say_shown(&block.get(k)),
        _ => answer.say("none"),
    }
}

// Comments are kept, and one scan has all components.
fn choice_of(way: &str, answer: &mut Answer) -> Choice {
    Choice {
        transform: transform_of(way, answer),
        trim: false,
        gray: false,
        copying: Copying::Comments,
        scans: Scans::Sequential,
        huffman: Huffman::Plain,
        restart: Restart::Off,
    }
}

fn transform_of(way: &str, answer: &mut Answer) -> Transform {
    match way {
        "keep" => Transform::Keep,
        "flip horizontal" => Transform::FlipH,
        "flip vertical" => Transform::FlipV,
        "rotate 90" => Transform::Rotate90,
        "rotate 180" => Transform::Rotate180,
        "rotate 270" => Transform::Rotate270,
        "transpose" => Transform::Transpose,
        "transverse" => Transform::Transverse,
        _ => {
            answer.unread(way);
            Transform::Keep
        }
    }
}

// The length and the sum of the only output, or why there is none.
fn say_output(desk: Result<MemoryDesk, NotTurned>, answer: &mut Answer) {
    match desk {
        Ok(desk) => say_sum(&desk, answer),
        Err(why) => say_not_turned(why, answer),
    }
}

fn say_sum(desk: &MemoryDesk, answer: &mut Answer) {
    if desk.outputs() == 1 {
        let bytes = desk.output(0);
        answer.say("length ");
        answer.add_number(bytes.len() as u64);
        answer.add(" sum ");
        answer.add_number(u64::from(sum_of(bytes)));
    } else {
        answer.say("not one output");
    }
}

/// A sum that tells files apart: 31 times the sum before each byte and the byte, below 2^32.
pub fn sum_of(bytes: &[u8]) -> u32 {
    let mut sum = 0u32;
    for byte in bytes {
        sum = sum.wrapping_mul(31).wrapping_add(u32::from(*byte));
    }
    sum
}

fn say_not_turned(why: NotTurned, answer: &mut Answer) {
    match why {
        NotTurned::Stop(stop) => answer.say_stop(stop),
        NotTurned::Picture(fault) => answer.say_shown(&fault),
    }
}
