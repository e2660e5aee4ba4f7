// The parts that show a file: blocks, rows and colours.
use crate::answer::Answer;
use crate::row::{Row, signed, small};
use jpg_base::Bytes;
use jpg_color::to_rgb;
use jpg_dct::flat_block;
use jpg_sample::{repeat_row, up_row, up_rows2};

// The longest row that is upsampled.
const LONGEST: usize = 8;

/// The sample that all 64 of a block are, of which DC times its quantiser is this, and the other values are 0.
pub fn flat(row: &Row, answer: &mut Answer) {
    let dc = signed(row.field(0), answer).clamp(-67_108_864, 67_108_864);
    let samples = flat_block(dc);
    let is_flat = samples == [samples[0]; 64];
    let count = if is_flat { 1 } else { 64 };
    add_numbers(&samples[..count], answer);
}

/// A row made twice as wide.
pub fn up(row: &Row, answer: &mut Answer) {
    let near = numbers(row, 0, answer);
    let near = near.as_slice();
    if near.len() < 3 || near.len() > LONGEST {
        return answer.unread(row.field(0));
    }
    let mut out = [0; 2 * LONGEST];
    up_row(near, &mut out[..2 * near.len()]);
    add_numbers(&out[..2 * near.len()], answer);
}

/// A row and one that is farther, of equal length, made to one twice as wide.
pub fn up2(row: &Row, answer: &mut Answer) {
    let near = numbers(row, 0, answer);
    let near = near.as_slice();
    let far = numbers(row, 1, answer);
    let far = far.as_slice();
    if near.len() < 3 || near.len() > LONGEST || far.len() != near.len() {
        return answer.unread(row.field(1));
    }
    let mut out = [0; 2 * LONGEST];
    up_rows2(near, far, &mut out[..2 * near.len()]);
    add_numbers(&out[..2 * near.len()], answer);
}

/// A row of which each number is there so many times, at most eight.
pub fn repeat(row: &Row, answer: &mut Answer) {
    let times = small(row.field(0), answer).min(8);
    let numbers = numbers(row, 1, answer);
    let numbers = numbers.as_slice();
    if numbers.len() > LONGEST {
        return answer.unread(row.field(1));
    }
    let mut out = [0; 8 * LONGEST];
    let length = times as usize * numbers.len();
    repeat_row(numbers, times, &mut out[..length]);
    add_numbers(&out[..length], answer);
}

/// Red, green and blue of a luminance and two colour differences.
pub fn rgb(row: &Row, answer: &mut Answer) {
    let bytes = numbers(row, 0, answer);
    match bytes.as_slice() {
        [y, cb, cr] => add_numbers(&to_rgb(*y, *cb, *cr), answer),
        _ => answer.unread(row.field(0)),
    }
}

// Numbers below 256, in decimal digits.
fn numbers(row: &Row, place: usize, answer: &mut Answer) -> Bytes {
    let mut list = Bytes::new(row.alloc);
    for word in row.field(place).split_whitespace() {
        if list.push_all(&[small(word, answer)]).is_err() {
            answer.fall_short();
        }
    }
    list
}

// The text of numbers, with a space after each.
fn add_numbers(numbers: &[u8], answer: &mut Answer) {
    for number in numbers {
        answer.add_number(u64::from(*number));
        answer.add(" ");
    }
}
