// Complete files through `Reader`: whether they are complete and what their pictures have, or what stops them (T.81, B.2, F.2.2).
ghost use Rattle.std.specs.Prelude.{◌≡◌, ◌≤◌, false};
ghost use Rattle.jpg_spec.specs.FrameHeader.{AreLimits};
ghost use Rattle.jpg_file.specs.Read.ReadFile.{IsPlain};

use crate::answer::Answer;
use crate::markers::heads::copying_of;
use crate::row::{Row, number, word};
use crate::scans::blocks::add_firsts;
use jpg_base::{Fed, Limits, Stop};
use jpg_coefs::BlockView;
use jpg_file::{End, Picture, Reader};

// What came of bytes that were fed in pieces of this size: how many were read into the picture, else why none.
fn read(reader: &mut Reader, bytes: &[u8], size: usize) -> Result<u64, Stop>
    requires some { 1 ≤ size }
    requires more { reader.old.done ≡ false }
    requires plain { IsPlain reader.old }
    ensures plain { IsPlain reader.new }
{
    let mut taken = 0u64;
    for piece in bytes.chunks(size) {
        match reader.feed(piece)? {
            Fed::More => taken = taken.saturating_add(piece.len() as u64),
            Fed::Done { used } => return Ok(taken.saturating_add(used)),
        }
    }
    match reader.end() {
        End::Early(taken) => Ok(taken),
        End::Stop(stop) => Err(stop),
    }
}

// The standard limits, but for one that the text names with a lower number.
fn asked_limits(text: &str, answer: &mut Answer) -> Limits
    ensures { AreLimits result }
{
    let mut limits = Limits::standard();
    let (name, value) = word(text);
    let value = if text.is_empty() {
        0
    } else {
        number(value, answer)
    };
    match name {
        "" => {}
        "side" => limits.side = value.min(u64::from(limits.side)) as u32,
        "blocks" => limits.blocks = value.min(u64::from(limits.blocks)) as u32,
        "kept" => limits.kept = value.min(limits.kept),
        "input" => limits.input = value.clamp(1, limits.input),
        _ => answer.unread(text),
    }
    limits
}

/// How many bytes a file has, or why it is refused, in pieces of a size.
pub fn file(row: &Row, piece: u32, answer: &mut Answer) {
    let bytes = row.bytes(0, answer);
    let mut reader = Reader::new(row.alloc, asked_limits(row.field(1), answer));
    match read(&mut reader, bytes.as_slice(), piece.max(1) as usize) {
        Ok(taken) => answer.say_number(taken),
        Err(stop) => answer.say_stop(stop),
    }
}

/// The first scan header of a file, in pieces of a size.
pub fn head(row: &Row, piece: u32, answer: &mut Answer) {
    let bytes = row.bytes(0, answer);
    let mut reader = Reader::new(row.alloc, Limits::standard());
    let _ = read(&mut reader, bytes.as_slice(), piece.max(1) as usize);
    match reader.head() {
        Some((frame, colour, at)) => {
            answer.say_number(u64::from(frame.count()));
            answer.add(" ");
            answer.add_shown(&colour);
            answer.add(" at ");
            answer.add_number(at);
        }
        None => answer.say("none"),
    }
}

/// What a reader answers to each of some pieces.
pub fn feed(row: &Row, answer: &mut Answer) {
    let mut reader = Reader::new(row.alloc, Limits::standard());
    for piece in row.field(0).split(',') {
        feed_one(row, piece, &mut reader, answer);
    }
}

fn feed_one(row: &Row, piece: &str, reader: &mut Reader, answer: &mut Answer)
    requires plain { IsPlain reader.old }
    ensures plain { IsPlain reader.new }
{
    let piece = row.spelled(piece, answer);
    if reader.is_done() {
        return answer.say("done before");
    }
    match reader.feed(piece.as_slice()) {
        Ok(fed) => answer.say_shown(&fed),
        Err(stop) => answer.say_stop(stop),
    }
}

/// The picture of a file in pieces of a size.
pub fn picture(row: &Row, piece: u32, answer: &mut Answer) {
    let bytes = row.bytes(0, answer);
    let copying = copying_of(row.field(1), answer);
    let mut reader = Reader::for_copying(row.alloc, Limits::standard(), copying);
    match read(&mut reader, bytes.as_slice(), piece.max(1) as usize) {
        Ok(_) if reader.is_done() => say_picture(&reader.take(), answer),
        Ok(_) => answer.say("not done"),
        Err(stop) => answer.say_stop(stop),
    }
}

// The colours, the JFIF version, how many markers are kept, the first step of each component's table, and its DC values.
fn say_picture(picture: &Picture, answer: &mut Answer) {
    answer.say_shown(&picture.colour);
    if picture.jfif.seen {
        say_version(picture.jfif.major, picture.jfif.minor, answer);
    }
    answer.say_number(picture.kept.len() as u64);
    answer.add(" kept, tables");
    for table in picture.quants.as_slice() {
        answer.add(" ");
        answer.add_number(u64::from(table.get(0)));
    }
    for component in 0..picture.coefs.frame().count() {
        answer.say("DC ");
        answer.add_number(u64::from(component));
        answer.add(":");
        add_firsts(&picture.coefs, component, answer);
    }
}

// The minor version has two digits.
fn say_version(major: u8, minor: u8, answer: &mut Answer) {
    answer.say("JFIF ");
    answer.add_number(u64::from(major));
    answer.add(if minor < 10 { ".0" } else { "." });
    answer.add_number(u64::from(minor));
}
