// Segments read byte by byte: what the bytes lead to.
ghost use Rattle.std.specs.Prelude.{◌≡◌, ◌≤◌, ◌^◌};
ghost use Rattle.jpg_spec.specs.Segments.{standard_limits};
ghost use Rattle.jpg_markers.specs.Reading.{reading_of};

use crate::answer::Answer;
use crate::row::{Row, number, small, word};
use jpg_base::{Limits, Stop};
use jpg_markers::{SegStep, SegmentReader};

/// Bytes and questions, one for each field.
pub fn segments(row: &Row, answer: &mut Answer) {
    let mut limits = Limits::standard();
    if let Some(most) = row.field(0).strip_prefix("most ") {
        limits.kept = number(most, answer).min(limits.kept);
    }
    let mut reader = SegmentReader::new(row.alloc, limits);
    for field in row.fields {
        step(row, field, limits.input, &mut reader, answer);
    }
}

fn step(row: &Row, field: &str, most: u64, reader: &mut SegmentReader, answer: &mut Answer)
    requires { (reading_of reader.old).limits.input ≡ most }
    ensures { (reading_of reader.new).limits ≡ (reading_of reader.old).limits }
{
    let (key, rest) = word(field);
    match key {
        "most" => {}
        "reserve" => {
            if reader.reserve().is_err() {
                answer.fall_short();
            }
        }
        "bytes" => {
            let bytes = row.spelled(rest, answer);
            say_step(feed(most, bytes.as_slice(), reader), answer);
        }
        "taken" => answer.say_number(reader.taken()),
        "segment" => {
            answer.give(&[reader.code()]);
            answer.give(reader.contents());
        }
        _ => answer.unread(field),
    }
}

// What the last byte leads to. Bytes after the most that may be taken are left out.
fn feed(most: u64, bytes: &[u8], reader: &mut SegmentReader) -> Result<SegStep, Stop>
    requires { (reading_of reader.old).limits.input ≡ most }
    ensures { (reading_of reader.new).limits ≡ (reading_of reader.old).limits }
{
    let mut step = Ok(SegStep::More);
    for byte in bytes {
        if reader.taken() < most {
            step = reader.byte(*byte);
        }
    }
    step
}

fn say_step(step: Result<SegStep, Stop>, answer: &mut Answer) {
    match step {
        Ok(step) => answer.say_shown(&step),
        Err(stop) => answer.say_stop(stop),
    }
}

/// The marker that ended the data of a scan, after the bytes of a file up to these: `MARKER CODE PLACE`.
pub fn after_scan(row: &Row, answer: &mut Answer) {
    let header = row.bytes(0, answer);
    let (code, place) = word(row.field(1));
    let code = small(code, answer);
    let place = number(place, answer).clamp(102, 1 << 40);
    let mut reader = SegmentReader::new(row.alloc, Limits::standard());
    match marker_after(header.as_slice(), code, place, &mut reader) {
        Some(step) => say_step(step, answer),
        None => answer.say("no scan"),
    }
}

// What the marker leads to, after the first scan header. Headers have less than 100 bytes.
fn marker_after(
    header: &[u8],
    code: u8,
    place: u64,
    reader: &mut SegmentReader,
) -> Option<Result<SegStep, Stop>>
    requires limits { (reading_of reader.old).limits ≡ standard_limits }
    requires low { 102 ≤ place }
    requires high { place ≤ 2 ^ 40 }
{
    for byte in header {
        if reader.taken() >= 100 {
            return None;
        }
        if let Ok(SegStep::Whole) = reader.byte(*byte) {
            if reader.code() == 0xda && reader.taken() < 100 {
                return Some(reader.marker(code, place));
            }
        }
    }
    None
}
