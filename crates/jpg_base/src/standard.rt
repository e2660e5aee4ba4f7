//! Real files and the standard streams. Contracts see only the counts.
ghost use Rattle.std.specs.Prelude.{◌≡◌, ◌≤◌, ◌<◌, None, true, length};
ghost use Rattle.jpg_base.specs.Standard.{ReadsSome, WritesAll, std_state, TellsNothing, source_left, sink_contents};

use crate::beside::{Beside, Made, PathText, Way};
use crate::desk::raise;
use crate::placing::{DONE, Left, Placed, place, removed, synced};
use crate::system::{Identity, RealFiles};
use crate::{Counts, Desk, Got, Name, Put};
use arrayvec::ArrayString;
use std::alloc::AllocError;
use std::fs::OpenFile;
use std::io::{ErrorKind, Print, Read, Write};
use std::{fs, io, mem};

// Where bytes are read: standard input or a file.
#[derive(Drop)]
enum Source<S, F> {
    Closed,
    Standard(S),
    File(F),
}

impl<S: Read, F: Read> Read for Source<S, F> {
    ghost remaining = { source_left S.remaining F.remaining };

    fn read(&mut self, buf: &mut [u8]) -> io::Result<usize> {
        match self {
            Source::Closed => Err(io::Error::from(ErrorKind::Unsupported)),
            Source::Standard(reader) => reader.read(buf),
            Source::File(file) => file.read(buf),
        }
    }
}

// A file, and how many bytes more it may have.
#[derive(Drop)]
struct Bounded<F> {
    file: F,
    room: u64,
}

impl<F: Write> Write for Bounded<F> {
    ghost contents = { λ b. F.contents b.file };

    // A write beyond the limit of the process would end it by a signal.
    fn write(&mut self, piece: &[u8]) -> io::Result<usize> {
        let most = self.room.min(piece.len() as u64) as usize;
        match self.file.write(&piece[..most]) {
            Ok(count) => {
                self.room = self.room.saturating_sub(count as u64);
                Ok(count)
            }
            Err(error) => Err(error),
        }
    }

    fn flush(&mut self) -> io::Result<()> {
        Ok(())
    }
}

// Where bytes are written: standard output, a file, or a file beside the one that it will replace.
#[derive(Drop)]
enum Sink<S, F> {
    Closed,
    Standard(S),
    File(Bounded<F>),
    Beside(Bounded<F>),
}

impl<S: Print, F: Write> Write for Sink<S, F> {
    ghost contents = { sink_contents F.contents };

    fn write(&mut self, piece: &[u8]) -> io::Result<usize> {
        match self {
            Sink::Closed => Ok(0),
            Sink::Standard(rt) => io::writer(rt).write(piece),
            Sink::File(file) => file.write(piece),
            Sink::Beside(file) => file.write(piece),
        }
    }

    fn flush(&mut self) -> io::Result<()> {
        Ok(())
    }
}

/// All of the desk's state that contracts see.
#[derive(Clone, Copy)]
pub struct Parsed {
    pub counts: Counts,
    pub input_open: bool,
    pub output_created: bool,
}

/// Where an output is written: whether it stands beside a place, whether that has a file, and whether this is the input.
#[derive(Clone, Copy)]
pub struct Output {
    pub is_beside: bool,
    pub is_there: bool,
    pub is_input: bool,
}

/// Real files, standard input, output and error. `In` is read as standard input, `Out` is written as standard output,
/// and messages go to standard error. Opening `Out`, creating `In` and saying what isn't UTF-8 fail. Each failure
/// raises the count of its kind by one.
#[derive(Drop)]
pub struct StdDesk<R: RealFiles> {
    // The program's runtime.
    rt: R,
    // The open input.
    source: Source<R::Reader, R::File>,
    // The last output.
    sink: Sink<R, R::File>,
    // The new file beside the one that is replaced.
    beside: Beside,
    // Which file the open input is, if that can be seen.
    input: Option<Identity>,
    // What the last output that ended left beside its place.
    left: Left,
    // Named outputs take their place when they are complete.
    replaces: bool,
    // What contracts see.
    reported: Parsed,
}

// A desk at which no call was made.
fn unused<R: RealFiles>(rt: R, replaces: bool) -> StdDesk<R>
    ensures { TellsNothing (std_state result.reported) }
{
    StdDesk {
        rt,
        source: Source::Closed,
        sink: Sink::Closed,
        beside: Beside::new(),
        input: None,
        left: Left::Nothing,
        replaces,
        reported: Parsed {
            counts: Counts {
                opens: 0,
                reads: 0,
                writes: 0,
                says: 0,
            },
            input_open: false,
            output_created: false,
        },
    }
}

impl<R: RealFiles> StdDesk<R> {
    ghost use Rattle.jpg_base.specs.Desk.{counted_write};
    ghost use Rattle.jpg_base.specs.Standard.{std_state, TellsNothing};

    /// A desk with no input, no output and no failures yet. An output with a name is written under this name.
    pub fn new(rt: R) -> Self
        ensures { TellsNothing (std_state result.reported) }
    {
        unused(rt, false)
    }

    /// As `new`, but an output with a name is written into a new file beside its place, `.jpgsuite-P-N`, with the number of
    /// the process and the first N that is free. At `keep`, or when one more output is created, it is stored and takes its
    /// place; until then a file that is there stays as it is. The new file has the owner and the group of the one that it
    /// replaces, and its mode, but for the group no more than others have. It is copied into a file that has more names,
    /// that its group may read and others not, or whose owner it can't have. What else has the name, such as a device, is
    /// written at once, and so is a file in a folder that takes no new name, unless it is the input.
    pub fn replacing(rt: R) -> Self
        ensures { TellsNothing (std_state result.reported) }
    {
        unused(rt, true)
    }

    /// Ends the output. One that stands beside its place is stored and takes it, if it has any bytes, and else is removed. It
    /// is removed too if it can't take its place: that is `Failed`, and counts as a write.
    pub fn keep(&mut self) -> Put
        ensures { std_state self.new.reported ≡ record (std_state self.old.reported) { counts = counted_write result (std_state self.old.reported).counts } }
    {
        let placed = put_in_place(&self.rt, &mut self.sink, &self.beside);
        self.left = placed.left;
        match placed.put {
            Put::Done => {}
            Put::Failed => raise(&mut self.reported.counts.writes),
        }
        placed.put
    }

    /// Ends the output. One that stands beside its place is removed; if that fails, it is left there.
    pub fn discard(&mut self)
        ensures { std_state self.new.reported ≡ std_state self.old.reported }
    {
        let sink = mem::replace(&mut self.sink, Sink::Closed);
        if let Sink::Beside(file) = sink {
            drop(file);
            self.left = removed(&self.rt, &self.beside, Left::Beside, Put::Done).left;
        }
    }

    /// Where the output is written. A standard input that can't be found counts as any file.
    pub fn output(&self) -> Output {
        match &self.sink {
            Sink::Beside(_) => placed_output(&self.rt, &self.beside, self.input),
            _ => Output {
                is_beside: false,
                is_there: false,
                is_input: false,
            },
        }
    }

    /// Says what `keep` or `discard` left beside the place, after the name of a command and a text; nothing if nothing is left.
    pub fn say_left(&self, tool: &str, before: &str) {
        let mut name: PathText = ArrayString::new();
        if self.beside.put_left_name(self.left, &mut name) {
            match eprintln!(self.rt; "{tool}{before}{name}") {
                Ok(()) => {}
                Err(_) => {}
            }
        }
    }
}

// Where a file beside its place would get to.
fn placed_output<R: RealFiles>(rt: &R, beside: &Beside, input: Option<Identity>) -> Output {
    let (is_there, old) = match beside.way {
        Way::New => (
            fs::symlink_metadata(rt, beside.place.as_str()).is_ok(),
            None,
        ),
        Way::Replaces(old) => (true, Some(old)),
        Way::IsCopied(old) => (true, Some(old)),
    };
    Output {
        is_beside: true,
        is_there,
        is_input: is_input(old, input),
    }
}

// Whether the file at a place is the input.
fn is_input(old: Option<Identity>, input: Option<Identity>) -> bool {
    match (old, input) {
        (None, _) => false,
        (Some(_), None) => true,
        (Some(old), Some(input)) => old.is_same(input),
    }
}

// Ends an output. One that stands beside its place takes it, if it has any bytes.
fn put_in_place<R: RealFiles>(rt: &R, sink: &mut Sink<R, R::File>, beside: &Beside) -> Placed {
    match mem::replace(sink, Sink::Closed) {
        Sink::Beside(output) => place(rt, output.file, beside),
        Sink::File(output) => Placed {
            put: synced(&output.file),
            left: Left::Nothing,
        },
        _ => DONE,
    }
}

// The file of this name, written at once.
fn at_once<R: RealFiles>(rt: &R, path: &str) -> Option<Sink<R, R::File>> {
    match fs::create(rt, path) {
        Ok(file) => {
            let room = match file.metadata() {
                Ok(found) if !found.is_file() => u64::MAX,
                _ => rt.most_bytes(),
            };
            Some(Sink::File(Bounded { file, room }))
        }
        Err(_) => None,
    }
}

// Whether a name is of the input.
fn is_of_input<R: RealFiles>(rt: &R, path: &str, input: Option<Identity>) -> bool {
    match fs::metadata(rt, path) {
        Ok(found) => found.is_file() && is_input(Some(Identity::of(&found)), input),
        Err(_) => false,
    }
}

// Where the file of this name is written: beside its place, if it replaces what is there and that can be.
fn file_sink<R: RealFiles>(
    rt: &R,
    path: &str,
    input: Option<Identity>,
    beside: &mut Beside,
) -> Option<Sink<R, R::File>> {
    match beside.create(rt, path) {
        Made::Beside(file) => {
            let room = rt.most_bytes();
            Some(Sink::Beside(Bounded { file, room }))
        }
        Made::AtOnce if is_of_input(rt, path, input) => None,
        Made::AtOnce => at_once(rt, path),
        Made::Nowhere => None,
    }
}

// Standard output, unless there is no memory for its buffer.
fn standard_output<R: RealFiles>(rt: &R) -> Option<Sink<R, R::File>> {
    let rt: Result<R, AllocError> = rt.clone();
    match rt {
        Ok(rt) => Some(Sink::Standard(rt)),
        Err(_) => None,
    }
}

// Where an output of this name is written, if it can be created.
fn sink_of<R: RealFiles>(
    rt: &R,
    name: &Name,
    replaces: bool,
    input: Option<Identity>,
    beside: &mut Beside,
) -> Option<Sink<R, R::File>>
    ensures { name.now ≡ Name.In → result ≡ None }
{
    match name {
        Name::In => None,
        Name::Out => standard_output(rt),
        Name::File(path) if replaces => file_sink(rt, path.as_str(), input, beside),
        Name::File(path) => at_once(rt, path.as_str()),
    }
}

// Which file an open one is.
fn identity_of<F: OpenFile>(file: &F) -> Option<Identity> {
    match file.metadata() {
        Ok(found) => Some(Identity::of(&found)),
        Err(_) => None,
    }
}

// Where the bytes of this name are read, if it can be opened.
fn source_of<R: RealFiles>(rt: &R, name: &Name) -> Option<Source<R::Reader, R::File>>
    ensures { name.now ≡ Name.Out → result ≡ None }
{
    match name {
        Name::In => Some(Source::Standard(rt.reader())),
        Name::Out => None,
        Name::File(path) => match fs::open(rt, path.as_str()) {
            Ok(file) => Some(Source::File(file)),
            Err(_) => None,
        },
    }
}

// One read of at most 2^32 - 1 bytes.
fn read_some<T: Read>(reader: &mut T, buf: &mut [u8]) -> Got
    requires { 0 < length buf.old }
    ensures { ReadsSome (T.remaining reader.old) result buf.new (T.remaining reader.new) }
{
    let most = buf.len().min(u32::MAX as usize);
    match reader.read(&mut buf[..most]) {
        Ok(0) => Got::End,
        Ok(count) => Got::Bytes(count as u32),
        Err(_) => Got::Failed,
    }
}

// Writes all the bytes, in as many writes as it takes. A write of no bytes is a failure.
fn write_whole<W: Write>(writer: &mut W, piece: &[u8]) -> Put
    ensures { WritesAll (W.contents writer.old) piece.now result (W.contents writer.new) }
{
    let mut rest = piece;
    while !rest.is_empty() {
        match writer.write(rest) {
            Ok(0) => return Put::Failed,
            Ok(count) => rest = &rest[count..],
            Err(_) => return Put::Failed,
        }
    }
    Put::Done
}

impl<R: RealFiles> Desk for StdDesk<R> {
    ghost use Rattle.jpg_base.specs.Desk.{Opens, Reads, Creates, Writes, Says, counted_open, counted_read, counted_write, counted_say};
    ghost use Rattle.jpg_base.specs.Standard.{std_state, source_left, sink_contents, ReadsSome, WritesAll};

    ghost state = { λ d. std_state d.reported };

    fn open(&mut self, name: &Name) -> Put
        ensures desk { Opens (std_state self.old.reported) name.now result (std_state self.new.reported) }
        ensures counts { (std_state self.new.reported).counts ≡ counted_open result (std_state self.old.reported).counts }
        ensures out { name.now ≡ Name.Out → result ≡ Put.Failed }
    {
        let source = source_of(&self.rt, name);
        self.input = match &source {
            Some(Source::File(file)) => identity_of(file),
            Some(_) => self.rt.standard_input(),
            None => None,
        };
        match source {
            Some(source) => {
                self.source = source;
                self.reported.input_open = true;
                Put::Done
            }
            None => {
                self.source = Source::Closed;
                self.reported.input_open = false;
                raise(&mut self.reported.counts.opens);
                Put::Failed
            }
        }
    }

    fn read(&mut self, buf: &mut [u8]) -> Got
        requires open { (std_state self.old.reported).input_open ≡ true }
        requires room { 0 < length buf.old }
        ensures desk { Reads (std_state self.old.reported) result buf.new (std_state self.new.reported) }
        ensures counts { (std_state self.new.reported).counts ≡ counted_read result (std_state self.old.reported).counts }
        ensures source { ReadsSome (source_left R.Reader.remaining R.File.remaining self.old.source) result buf.new (source_left R.Reader.remaining R.File.remaining self.new.source) }
        ensures open { (std_state self.new.reported).input_open ≡ true }
    {
        let answer = read_some(&mut self.source, buf);
        if let Got::Failed = answer {
            raise(&mut self.reported.counts.reads);
        }
        answer
    }

    fn create(&mut self, name: &Name) -> Put
        ensures desk { Creates (std_state self.old.reported) name.now result (std_state self.new.reported) }
        ensures counts { (std_state self.new.reported).counts ≡ counted_open result (std_state self.old.reported).counts }
        ensures input { name.now ≡ Name.In → result ≡ Put.Failed }
    {
        let before = put_in_place(&self.rt, &mut self.sink, &self.beside);
        let sink = match before.put {
            Put::Done => sink_of(&self.rt, name, self.replaces, self.input, &mut self.beside),
            Put::Failed => None,
        };
        match sink {
            Some(sink) => {
                self.sink = sink;
                self.reported.output_created = true;
                Put::Done
            }
            None => {
                raise(&mut self.reported.counts.opens);
                Put::Failed
            }
        }
    }

    fn write(&mut self, piece: &[u8]) -> Put
        requires { (std_state self.old.reported).output_created ≡ true }
        ensures desk { Writes (std_state self.old.reported) piece.now result (std_state self.new.reported) }
        ensures counts { (std_state self.new.reported).counts ≡ counted_write result (std_state self.old.reported).counts }
        ensures sink { WritesAll (sink_contents R.File.contents self.old.sink) piece.now result (sink_contents R.File.contents self.new.sink) }
    {
        let answer = write_whole(&mut self.sink, piece);
        if let Put::Failed = answer {
            raise(&mut self.reported.counts.writes);
        }
        answer
    }

    fn say(&mut self, text: &[u8]) -> Put
        ensures desk { Says (std_state self.old.reported) text.now result (std_state self.new.reported) }
        ensures counts { (std_state self.new.reported).counts ≡ counted_say result (std_state self.old.reported).counts }
    {
        let answer = match str::from_utf8(text) {
            Ok(text) => match self.rt.eprint(text) {
                Ok(()) => Put::Done,
                Err(_) => Put::Failed,
            },
            Err(_) => Put::Failed,
        };
        if let Put::Failed = answer {
            raise(&mut self.reported.counts.says);
        }
        answer
    }

    fn counts(&self) -> Counts {
        self.reported.counts
    }
}
