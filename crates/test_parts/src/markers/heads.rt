// Heads of files and segments as they are written, and lists of kept markers.
use crate::answer::Answer;
use crate::base::frames::process;
use crate::markers::contents::no_jfif;
use crate::markers::written::say_only;
use crate::row::{Row, large, middle, number, small, word};
use arrayvec::ArrayVec;
use jpg_base::{
    Component, Desk, Frame, Limits, MemoryDesk, Name, Process, Put, QuantTable, WriteFault,
};
use jpg_huff::BitOut;
use jpg_markers::{Colour, Copying, Jfif, KeptList, OutHead, file_head};

// The most bytes of a segment's contents.
const LONGEST: usize = 65_533;

// What the fields of a row say of a head.
#[derive(Drop)]
struct Wanted {
    colour: Colour,
    jfif: Jfif,
    copying: Copying,
    process: Process,
    width: u32,
    height: u32,
    components: ArrayVec<Component, 4>,
    quants: ArrayVec<QuantTable, 4>,
    // the number of the call that fails
    fail: u64,
}

/// A head as it is written, of a gray file of 8 by 8 unless the fields say else.
pub fn head(row: &Row, answer: &mut Answer) {
    let mut wanted = Wanted {
        colour: Colour::Gray,
        jfif: no_jfif(),
        copying: Copying::None,
        process: Process::Baseline,
        width: 8,
        height: 8,
        components: ArrayVec::new(),
        quants: ArrayVec::new(),
        fail: 0,
    };
    let mut kept = KeptList::new(row.alloc);
    for field in row.fields {
        take_field(row, field, &mut wanted, &mut kept, answer);
    }
    let fail = wanted.fail;
    match head_of(wanted) {
        Some(head) => say_head(row, &head, &kept, fail, answer),
        None => answer.say("a frame with a fault"),
    }
}

fn take_field(
    row: &Row,
    field: &str,
    wanted: &mut Wanted,
    kept: &mut KeptList,
    answer: &mut Answer,
) {
    let (key, rest) = word(field);
    match key {
        "colour" => wanted.colour = colour_of(rest, answer),
        "JFIF" => wanted.jfif = jfif_of(rest, answer),
        "copy" => wanted.copying = copying_of(rest, answer),
        "process" => wanted.process = process(rest, answer),
        "size" => {
            let (width, height) = word(rest);
            wanted.width = large(width, answer);
            wanted.height = large(height, answer);
        }
        "component" => take_component(rest, wanted, answer),
        "kept" => keep_segments(row, rest, kept, answer),
        "fail" => wanted.fail = number(rest, answer),
        _ => answer.unread(field),
    }
}

fn colour_of(text: &str, answer: &mut Answer) -> Colour {
    match text {
        "Gray" => Colour::Gray,
        "YCbCr" => Colour::YCbCr,
        "Rgb" => Colour::Rgb,
        "Cmyk" => Colour::Cmyk,
        "Ycck" => Colour::Ycck,
        "Unknown" => Colour::Unknown,
        _ => {
            answer.unread(text);
            Colour::Unknown
        }
    }
}

/// Which markers are copied.
pub fn copying_of(text: &str, answer: &mut Answer) -> Copying {
    match text {
        "none" => Copying::None,
        "comments" => Copying::Comments,
        "all" => Copying::All,
        _ => {
            answer.unread(text);
            Copying::None
        }
    }
}

// The JFIF header of `MAJOR MINOR UNIT X Y`.
fn jfif_of(text: &str, answer: &mut Answer) -> Jfif {
    let (major, rest) = word(text);
    let (minor, rest) = word(rest);
    let (unit, rest) = word(rest);
    let (x, y) = word(rest);
    Jfif {
        seen: true,
        major: small(major, answer),
        minor: small(minor, answer),
        unit: small(unit, answer),
        x: middle(x, answer),
        y: middle(y, answer),
    }
}

// Adds the component of `ID H V SLOT QUANTISER`, with a table of equal quantisers.
fn take_component(text: &str, wanted: &mut Wanted, answer: &mut Answer) {
    let (id, rest) = word(text);
    let (h, rest) = word(rest);
    let (v, rest) = word(rest);
    let (quant, value) = word(rest);
    let component = Component {
        id: small(id, answer),
        h: small(h, answer),
        v: small(v, answer),
        quant: small(quant, answer),
    };
    let table = filled(middle(value, answer));
    if wanted.quants.try_push(table).is_err() || wanted.components.try_push(component).is_err() {
        answer.unread(text);
    }
}

fn filled(value: u16) -> QuantTable {
    let mut table = QuantTable::ones();
    for k in 0..64 {
        table.set(k, value);
    }
    table
}

// Keeps the segments that stand one after another at the front of bytes.
fn keep_segments(row: &Row, text: &str, kept: &mut KeptList, answer: &mut Answer) {
    let segments = row.spelled(text, answer);
    let mut rest = segments.as_slice();
    for _ in 0..segments.as_slice().len() {
        if let Some((code, contents, next)) = first_segment(rest) {
            keep(code, contents, kept, answer);
            rest = next;
        }
    }
}

// The code and the contents of the segment at the front, and the bytes after it.
fn first_segment(bytes: &[u8]) -> Option<(u8, &[u8], &[u8])> {
    let [0xff, code, high, low, rest @ ..] = bytes else {
        return None;
    };
    let length = usize::from(u16::from_be_bytes([*high, *low])).checked_sub(2)?;
    let (contents, next) = rest.split_at_checked(length)?;
    Some((*code, contents, next))
}

// Keeps a segment, unless its code is of no marker that is kept.
fn keep(code: u8, contents: &[u8], kept: &mut KeptList, answer: &mut Answer) {
    if contents.len() <= LONGEST && (code == 0xfe || 0xe0 <= code && code <= 0xef) {
        if kept.push(code, contents).is_err() {
            answer.fall_short();
        }
    }
}

fn head_of(wanted: Wanted) -> Option<OutHead> {
    let frame = Frame::new(
        wanted.process,
        8,
        wanted.height,
        wanted.width,
        wanted.components.as_slice(),
        &Limits::standard(),
    )
    .ok()?;
    Some(OutHead {
        frame,
        colour: wanted.colour,
        quants: wanted.quants,
        jfif: wanted.jfif,
        copying: wanted.copying,
    })
}

// Writes the head, and adds its bytes, or how many writes failed.
fn say_head(row: &Row, head: &OutHead, kept: &KeptList, fail: u64, answer: &mut Answer) {
    let mut desk = MemoryDesk::new(row.alloc, 1);
    if desk.fail(fail).is_err() {
        answer.fall_short();
    }
    if write_head(head, kept, &mut desk).is_ok() {
        answer.say("ok");
        say_only(&desk, answer);
    } else {
        answer.say("WriteFault");
        answer.say_number(desk.counts().writes);
    }
}

fn write_head(head: &OutHead, kept: &KeptList, desk: &mut MemoryDesk) -> Result<(), WriteFault> {
    if head.quants.len() != head.frame.count() as usize {
        return Err(WriteFault);
    }
    match desk.create(&Name::Out) {
        Put::Failed => Err(WriteFault),
        Put::Done => {
            let mut out = BitOut::new();
            file_head(head, kept, &mut out, desk)?;
            out.flush(desk)
        }
    }
}

/// Segments as they are kept: how many, and the code and the contents of each.
pub fn kept(row: &Row, answer: &mut Answer) {
    let mut kept = KeptList::new(row.alloc);
    keep_segments(row, row.field(0), &mut kept, answer);
    for i in 0..kept.len() {
        let member = kept.get(i);
        answer.give(&[member.code]);
        answer.give(member.contents);
    }
    answer.say_number(kept.len() as u64);
}
