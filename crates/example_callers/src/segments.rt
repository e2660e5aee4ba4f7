//! All segments of a file, by `jpg_markers` (T.81, B.1.1).
ghost use Rattle.std.specs.Prelude.{◌≤◌, ◌+◌, length, IfSome};

use jpg_base::codes::SOS;
use jpg_markers::{Fault, FaultAt, Limits, SegStep, SegmentReader, Stop};
use std::alloc::Global;

/// A segment of a file: its code, how many bytes its contents have, at most 65,533, and how many bytes
/// of the file there are up to the last of them.
#[derive(Clone, Copy, Debug, PartialEq, Eq)]
pub struct Listed {
    pub code: u8,
    pub length: usize,
    pub end: u64,
}

/// All segments of a file up to its EOI, in their order, also those after scans. Scan data end at the first marker that
/// isn't a restart marker, and nothing else of them is judged, nor are the contents of segments. Returns the first
/// fault of markers and lengths, at the number of bytes that reveal it; Truncated at the file's length if there is no
/// EOI, InputTooLong at 2^40 if it has as many bytes or more; and NoMemory.
pub fn list_segments(alloc: Global, file: &[u8]) -> Result<Vec<Listed>, Stop> {
    let limits = Limits::standard();
    let size = file.len() as u64;
    if size >= limits.input {
        return Err(fault(Fault::InputTooLong, limits.input));
    }
    let mut reader = SegmentReader::new(alloc, limits);
    let mut list = Vec::new(alloc);
    let mut rest = file;
    while let [byte, behind @ ..] = rest {
        let step = reader.byte(*byte)?;
        rest = behind;
        if let SegStep::Whole = step {
            let Ok(()) = list.push(last(&reader)) else {
                return Err(Stop::NoMemory);
            };
            if reader.code() == SOS {
                let Some((code, behind)) = after_data(rest) else {
                    return Err(fault(Fault::Truncated, size));
                };
                let at = size - behind.len() as u64;
                if let SegStep::Eoi = reader.marker(code, at)? {
                    return Ok(list);
                }
                rest = behind;
            }
        }
        if let SegStep::Eoi = step {
            return Ok(list);
        }
    }
    Err(fault(Fault::Truncated, size))
}

fn fault(fault: Fault, at: u64) -> Stop {
    Stop::Fault(FaultAt { fault, at })
}

// The last complete segment.
fn last(reader: &SegmentReader) -> Listed {
    Listed {
        code: reader.code(),
        length: reader.contents().len(),
        end: reader.taken(),
    }
}

// The code of the first marker that isn't a restart marker, and the bytes after it.
fn after_data(bytes: &[u8]) -> Option<(u8, &[u8])>
    ensures { IfSome result (λ found. length found.1.now + 2 ≤ length bytes.now) }
{
    let mut rest = bytes;
    while let [first, code, behind @ ..] = rest {
        if *first == 0xff && ends_data(*code) {
            return Some((*code, behind));
        }
        rest = &rest[1..];
    }
    None
}

// Whether a byte after FF ends scan data: it isn't a stuffed 00, a fill byte, or RST0 to RST7.
fn ends_data(code: u8) -> bool {
    !matches!(code, 0x00 | 0xd0..=0xd7 | 0xff)
}
