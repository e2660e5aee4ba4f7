// Contents of marker segments: what their readers answer.
use crate::answer::Answer;
use crate::base::frames::{process, say_frame};
use crate::row::{Row, is_first, small};
use jpg_base::{Bytes, Fault, Frame, Limits, Process, ScanHead};
use jpg_markers::{Jfif, guess, read_app, read_dri, read_sof, read_sos};

/// A restart interval.
pub fn interval(row: &Row, answer: &mut Answer) {
    let contents = row.bytes(0, answer);
    match read_dri(contents.as_slice()) {
        Ok(interval) => answer.say_number(u64::from(interval)),
        Err(fault) => answer.say_fault(fault),
    }
}

/// A frame header.
pub fn frame_header(row: &Row, answer: &mut Answer) {
    match frame_of(row, answer) {
        Ok(frame) => say_frame(&frame, answer),
        Err(fault) => answer.say_fault(fault),
    }
}

// The frame of a process and the contents of a frame header.
fn frame_of(row: &Row, answer: &mut Answer) -> Result<Frame, Fault> {
    let process = process(row.field(0), answer);
    let contents = row.bytes(1, answer);
    read_sof(process, contents.as_slice(), &Limits::standard())
}

/// A scan header in the frame of a frame header.
pub fn scan_header(row: &Row, answer: &mut Answer) {
    let contents = row.bytes(2, answer);
    match frame_of(row, answer) {
        Ok(frame) => say_scan(contents.as_slice(), &frame, answer),
        Err(_) => answer.say("a frame header with a fault"),
    }
}

fn say_scan(contents: &[u8], frame: &Frame, answer: &mut Answer) {
    match read_sos(contents, frame) {
        Ok(head) => say_head(&head, answer),
        Err(fault) => answer.say_fault(fault),
    }
}

fn say_head(head: &ScanHead, answer: &mut Answer) {
    for part in head.parts.iter() {
        let component = u64::from(part.component);
        answer.say_two(component, " by DC ", u64::from(part.dc));
        answer.say_two(component, " by AC ", u64::from(part.ac));
    }
    answer.say_two(u64::from(head.ss), " to ", u64::from(head.se));
    answer.say_two(u64::from(head.ah), " to ", u64::from(head.al));
}

/// An application segment, whose first byte is its code.
pub fn application(row: &Row, answer: &mut Answer) {
    let segment = row.bytes(0, answer);
    match segment.as_slice().split_first() {
        Some((code, contents)) => answer.say_shown(&read_app(*code, contents)),
        None => answer.say("no code"),
    }
}

/// The colours of a file with components of these identifiers, with a JFIF header or none, and with an Adobe transform or none.
pub fn colour(row: &Row, answer: &mut Answer) {
    let jfif = Jfif {
        seen: is_first(row.field(1), "JFIF", "no JFIF", answer),
        ..no_jfif()
    };
    let adobe = transform_of(row.field(2), answer);
    let header = header_of(row, answer);
    match read_sof(Process::Baseline, header.as_slice(), &Limits::standard()) {
        Ok(frame) => answer.say_shown(&guess(&frame, &jfif, adobe)),
        Err(_) => answer.say("a frame with a fault"),
    }
}

// The transform of `Adobe TRANSFORM`, or none of `no Adobe`.
fn transform_of(text: &str, answer: &mut Answer) -> Option<u8> {
    match text.strip_prefix("Adobe ") {
        Some(transform) => Some(small(transform, answer)),
        None => {
            let _ = is_first(text, "no Adobe", "no Adobe", answer);
            None
        }
    }
}

/// What is kept of a JFIF header where none was seen.
pub fn no_jfif() -> Jfif {
    Jfif {
        seen: false,
        major: 1,
        minor: 1,
        unit: 0,
        x: 1,
        y: 1,
    }
}

// A frame header of 8 by 8 samples, with components of the identifiers that the first field spells.
fn header_of(row: &Row, answer: &mut Answer) -> Bytes {
    let ids = row.bytes(0, answer);
    let mut header = Bytes::new(row.alloc);
    let count = u8::try_from(ids.as_slice().len()).unwrap_or(255);
    let mut is_whole = header.push_all(&[8, 0, 8, 0, 8, count]).is_ok();
    for id in ids.as_slice() {
        is_whole = is_whole && header.push_all(&[*id, 0x11, 0]).is_ok();
    }
    if !is_whole {
        answer.fall_short();
    }
    header
}
