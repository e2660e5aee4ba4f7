// Intervals of sequential scans, read from bits that are handed on in all ways.
ghost use Rattle.std.specs.Prelude.{◌≡◌};
ghost use Rattle.test_parts.specs.Heads.{HasFour};

use crate::answer::Answer;
use crate::row::{Row, small};
use crate::scans::blocks::add_blocks;
use crate::scans::heads::{factors_of, frame_of, part};
use crate::scans::machine::{Cut, Read, read_scan};
use crate::scans::tables::coding;
use arrayvec::ArrayVec;
use jpg_base::Frame;
use jpg_coefs::{Coefs, Taken};
use jpg_huff::TableSet;
use std::alloc::Global;

/// Bits, as digits 0 and 1: at most 64.
pub type Bits = ArrayVec<bool, 64>;

// What is read: a scan of all components of a frame, by these tables, from these bits.
#[derive(Clone, Copy)]
struct Given<'a> {
    alloc: Global,
    frame: &'a Frame,
    tables: &'a TableSet,
    bits: &'a [bool],
    // whether of a fault with the last bit nothing else is said
    is_brief: bool,
}

/// Appends the bits of a text of the digits 0 and 1.
pub fn add_bits(bits: &mut Bits, text: &str, answer: &mut Answer) {
    for byte in text.as_bytes() {
        let is_bit = *byte == b'0' || *byte == b'1';
        if !is_bit || bits.try_push(*byte == b'1').is_err() {
            answer.unread(text);
        }
    }
}

/// The bits of a text of the digits 0 and 1.
pub fn bits_of(text: &str, answer: &mut Answer) -> Bits {
    let mut bits = ArrayVec::new();
    add_bits(&mut bits, text, answer);
    bits
}

/// What bits come to, after how many of them, and the blocks, where all ways to hand the bits on come to the same.
pub fn interval(row: &Row, answer: &mut Answer) {
    let tables = coding(row, row.field(0), answer);
    let factors = factors_of(row.field(1), answer);
    let bits = bits_of(row.field(2), answer);
    let Some(frame) = frame_of(factors.as_slice(), 16, 8) else {
        return answer.say("no frame");
    };
    let given = Given {
        alloc: row.alloc,
        frame: &frame,
        tables: &tables,
        bits: bits.as_slice(),
        is_brief: false,
    };
    come(&given, Cut::EachBit, answer);
    for i in 0..=bits.len() {
        compare(&given, Cut::At(i), answer);
    }
    for i in 0..=bits.len() / 8 {
        compare(&given, Cut::Bytes(i), answer);
    }
}

// Adds what comes of bits that are cut so, where it isn't what came before.
fn compare(given: &Given, cut: Cut, answer: &mut Answer)
    requires { HasFour given.now.tables.now }
{
    let mut other = Answer::new(given.alloc);
    come(given, cut, &mut other);
    if other.text() != answer.text() {
        answer.add(", but with ");
        answer.add_shown(&cut);
        answer.say(other.text());
    }
}

// Adds what comes of bits that are cut so.
fn come(given: &Given, cut: Cut, answer: &mut Answer)
    requires { HasFour given.now.tables.now }
{
    match Coefs::new(given.alloc, given.frame) {
        Ok(mut coefs) => {
            match read_scan(given.frame, given.tables, given.bits, cut, &mut coefs) {
                Some(read) => say_read(given, &read, &coefs, answer),
                None => answer.say("not read"),
            }
        }
        Err(_) => answer.fall_short(),
    }
}

fn say_read(given: &Given, read: &Read, coefs: &Coefs, answer: &mut Answer) {
    let is_fault = say_taken(read.taken, answer);
    if !(given.is_brief && is_fault && read.bits == given.bits.len()) {
        answer.add(" after ");
        answer.add_number(read.bits as u64);
        add_blocks(coefs, answer);
    }
}

// Adds a fault, or what else bits come to: whether it is a fault.
fn say_taken(taken: Taken, answer: &mut Answer) -> bool {
    match taken {
        Taken::Fault(fault) => {
            answer.say_shown(&fault);
            true
        }
        taken => {
            answer.say_shown(&taken);
            false
        }
    }
}

/// The fault that bits show with the last of them, however they are handed on. They are a front, so many zeros and ones up to a
/// place, and the last code.
pub fn fault(row: &Row, answer: &mut Answer) {
    let tables = coding(row, row.field(0), answer);
    let bits = bits_before(row, answer);
    let Some(frame) = frame_of(&[part(1, 1)], 16, 8) else {
        return answer.say("no frame");
    };
    let given = Given {
        alloc: row.alloc,
        frame: &frame,
        tables: &tables,
        bits: bits.as_slice(),
        is_brief: true,
    };
    let count = bits.len();
    come(&given, Cut::EachBit, answer);
    for cut in [
        Cut::At(0),
        Cut::At(count.max(2) - 2),
        Cut::At(count),
        Cut::Bytes(0),
        Cut::Bytes(1),
    ] {
        compare(&given, cut, answer);
    }
}

// The front, then sixteen zeros and ones up to a place, by their codes, and the last code.
fn bits_before(row: &Row, answer: &mut Answer) -> Bits {
    let before = small(row.field(4), answer).max(1) - 1;
    let mut bits = bits_of(row.field(1), answer);
    for _ in 0..before / 16 {
        add_bits(&mut bits, row.field(2), answer);
    }
    for _ in 0..before % 16 {
        add_bits(&mut bits, row.field(3), answer);
    }
    add_bits(&mut bits, row.field(5), answer);
    bits
}
