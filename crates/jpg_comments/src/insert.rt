//! A file with one more comment, written piece by piece (T.81, B.2.4.5).
ghost use Rattle.std.specs.Prelude.{◌≡◌, ◌≤◌, ◌<◌, ◌+◌, ◌-◌, ◌++◌, ◌∷◌, [], ℕ, List, Some, None, Ok, Err, IfOk, IfSome, length, take};
ghost use Rattle.jpg_spec.specs.FrameHeader.{AreLimits};
ghost use Rattle.jpg_base.specs.declared.stop.Stop.{Stop as Stopped};
ghost use Rattle.jpg_base.specs.declared.stop.Fed.TheVariants as fed;
ghost use Rattle.jpg_spec.specs.Markers.{SpellsSegment};
ghost use Rattle.jpg_markers.specs.Reading.{HasRoom, MayFollow, RepresentsSegments, reading_of};
ghost use Rattle.jpg_comments.specs.Appending.{AppendsText};
ghost use Rattle.jpg_comments.specs.Inserting.{CopiesRest, KeepsByte, KeepsPiece, KeepsSegment, KeepsWhole, copied_segment, keeping};

use crate::append_segment;
use crate::push::push_some;
use crate::quiet::pass_some;
use jpg_base::codes::{APP0, COM, SOI};
use jpg_base::{Bytes, Fed, Intake, NoMemory, Stop, check_limit, feed_piece};
use jpg_markers::{SegStep, SegmentReader, WholeSegment, segment_at};
use jpg_spec::{Fault, FaultAt, Limits};
use std::alloc::Global;

/// The most bytes of a comment that is inserted.
pub const LONGEST_COMMENT: usize = 65_000;

// The most bytes of a segment's contents.
const LONGEST: usize = 65_533;

/// Inserts a comment before the frame header of a file (SOF0, SOF1 or SOF2).
#[derive(Drop)]
pub struct Insert {
    // The limits of the input.
    limits: Limits,
    // The segments so far.
    reader: SegmentReader,
    // The comments that are there go.
    replace: bool,
    // SOI and the segments before the frame header, as they are written.
    head: Bytes,
    // The comment's segment.
    segment: Bytes,
    // How many bytes were taken, once the frame header's marker was read.
    taken: Option<u64>,
    // Why the reader stopped, if it did.
    stop: Option<Stop>,
    ghost limited: { (reading_of reader).limits ≡ limits },
    ghost room: { HasRoom reader },
}

impl Insert {
    ghost use Rattle.jpg_comments.specs.WriteInserted.{insert_limits, insert_stop, insert_taken, is_replacing, EndsText, HasInserted, Inserts, IsNewInsert, TakesBytes};

    /// An inserter that was given no bytes. With `replace` it drops the comments before the frame header. An empty
    /// comment inserts nothing. Returns CommentTooLong at 65,001 if the comment has more than 65,000 bytes.
    pub fn new(alloc: Global, limits: Limits, comment: &[u8], replace: bool) -> Result<Insert, Stop>
        requires { AreLimits limits }
        ensures { IsNewInsert limits comment.now replace result }
    {
        if comment.len() > LONGEST_COMMENT {
            return Err(Stop::Fault(FaultAt {
                fault: Fault::CommentTooLong,
                at: LONGEST_COMMENT as u64 + 1,
            }));
        }
        let mut head = Bytes::new(alloc);
        head.push_all(&[0xff, SOI])?;
        let mut segment = Bytes::new(alloc);
        if !comment.is_empty() {
            append_segment(COM, comment, &mut segment)?;
        }
        Ok(Insert {
            limits,
            reader: ready_reader(alloc, limits)?,
            replace,
            head,
            segment,
            taken: None,
            stop: None,
        })
    }

    /// Takes a further piece of the file, of any length. It appends nothing before the marker of the frame header;
    /// there it appends the segments before it, each with one FF, the comment and the marker, and from there on all
    /// bytes as they are. It never returns Done. Before that marker it returns the fault of the bytes so far, at the
    /// number of bytes taken: NotJpeg, NoMarker, UnexpectedMarker, UnsupportedProcess, SosBeforeSof, BadLength (a
    /// length below 2) or MarkersTooLarge; and InputTooLong wherever the limit is reached: if the bytes up to it have
    /// the marker, they are appended. On NoMemory a first part of the pending bytes is appended, not all of them.
    /// After a stop it returns the same stop.
    pub fn feed(&mut self, piece: &[u8], out: &mut Bytes) -> Result<Fed, Stop>
        ensures answered { Inserts self.old piece.now out.old result out.new self.new }
        ensures more { IfOk result (λ answer. answer ≡ fed.More) }
        ensures stopped { (stop : Stopped) → result ≡ Err stop → insert_stop self.new ≡ Some stop }
        ensures again { (stop : Stopped) → insert_stop self.old ≡ Some stop → (result ≡ Err stop) × (self.new ≡ self.old) × (out.new ≡ out.old) }
        ensures limits { insert_limits self.new ≡ insert_limits self.old }
        ensures replace { is_replacing self.new ≡ is_replacing self.old }
    {
        if let Some(stop) = self.stop {
            return Err(stop);
        }
        match self.take(piece, out) {
            Ok(()) => Ok(Fed::More),
            Err(stop) => {
                self.stop = Some(stop);
                Err(stop)
            }
        }
    }

    /// How many bytes more may be taken: the limit minus those that were taken.
    pub fn room(&self) -> u64
        ensures is { result ≡ (insert_limits self.now).input - insert_taken self.now }
        ensures left { (comment bytes text : List ℕ) → HasInserted comment bytes text self.now → result + length bytes ≡ (insert_limits self.now).input }
    {
        let taken = match self.taken {
            Some(taken) => taken,
            None => self.reader.taken(),
        };
        self.limits.input.saturating_sub(taken)
    }

    /// The file ends here. Returns the earlier stop, if any; otherwise Ok if the marker of the frame header was
    /// reached, and Truncated at the number of bytes taken if it wasn't.
    pub fn end(&mut self) -> Result<(), Stop>
        ensures answered { EndsText self.old result }
        ensures stopped { (stop : Stopped) → result ≡ Err stop → insert_stop self.new ≡ Some stop }
        ensures again { (stop : Stopped) → insert_stop self.old ≡ Some stop → (result ≡ Err stop) × (self.new ≡ self.old) }
        ensures limits { insert_limits self.new ≡ insert_limits self.old }
        ensures replace { is_replacing self.new ≡ is_replacing self.old }
    {
        if let Some(stop) = self.stop {
            return Err(stop);
        }
        if let Some(_) = self.taken {
            return Ok(());
        }
        let stop = Stop::truncated(self.reader.taken());
        self.stop = Some(stop);
        Err(stop)
    }

    // Takes a piece, where nothing stopped.
    fn take(&mut self, piece: &[u8], out: &mut Bytes) -> Result<(), Stop>
        ensures answered { TakesBytes self.old piece.now out.old result out.new self.new }
        ensures limits { insert_limits self.new ≡ insert_limits self.old }
        ensures replace { is_replacing self.new ≡ is_replacing self.old }
    {
        match self.taken {
            Some(taken) => {
                let taken = copy(taken, self.limits.input, piece, out)?;
                self.taken = Some(taken);
                Ok(())
            }
            None => self.begin(piece, out),
        }
    }

    // Takes a piece, where the frame header's marker wasn't read yet.
    fn begin(&mut self, piece: &[u8], out: &mut Bytes) -> Result<(), Stop>
        requires { self.old.taken ≡ None }
        ensures answered { TakesBytes self.old piece.now out.old result out.new self.new }
        ensures limits { insert_limits self.new ≡ insert_limits self.old }
        ensures replace { is_replacing self.new ≡ is_replacing self.old }
    {
        let most = self.limits.input;
        let used = read_head(&mut self.reader, &mut self.head, self.replace, most, piece)?;
        let Some(used) = used else {
            return Ok(());
        };
        write_head(
            self.head.as_slice(),
            self.segment.as_slice(),
            self.reader.code(),
            out,
        )?;
        let taken = copy(self.reader.taken(), most, &piece[used..], out)?;
        self.taken = Some(taken);
        Ok(())
    }
}

// A reader that was given no bytes and has room for the contents of any segment.
fn ready_reader(alloc: Global, limits: Limits) -> Result<SegmentReader, NoMemory>
    requires { AreLimits limits }
    ensures stands { IfOk result (λ r. RepresentsSegments [] [] (reading_of r)) }
    ensures limits { IfOk result (λ r. (reading_of r).limits ≡ limits) }
    ensures taken { IfOk result (λ r. (reading_of r).taken ≡ 0) }
    ensures room { IfOk result HasRoom }
{
    let mut reader = SegmentReader::new(alloc, limits);
    reader.reserve()?;
    Ok(reader)
}

// Reads the bytes of a piece up to the marker of the frame header. Returns how many these are, if it is there.
fn read_head(
    reader: &mut SegmentReader,
    head: &mut Bytes,
    replace: bool,
    most: u64,
    piece: &[u8],
) -> Result<Option<usize>, Stop>
    requires most { (reading_of reader.old).limits.input ≡ most }
    requires room { HasRoom reader.old }
    ensures room { HasRoom reader.new }
    ensures answered { KeepsPiece replace (reading_of reader.old) piece.now head.old result head.new (reading_of reader.new) }
    ensures limits { (reading_of reader.new).limits ≡ (reading_of reader.old).limits }
    ensures within { IfOk result (λ answer. IfSome answer (λ used. used ≤ length piece.now)) }
{
    match feed_piece(&Keeping { most, replace }, piece, reader, head) {
        Ok(Fed::More) => Ok(None),
        Ok(Fed::Done { used }) => Ok(Some(used as usize)),
        Err(stop) => Err(stop),
    }
}

// How a reader takes bytes whose segments are kept, at most so many.
#[derive(Drop)]
struct Keeping {
    most: u64,
    replace: bool,
}

impl Intake<SegmentReader, Bytes> for Keeping {
    ghost kind = { keeping };

    #[inline]
    fn check_room(&self, reader: &SegmentReader) -> Result<(), Stop> {
        check_limit(reader.taken(), self.most)
    }

    #[inline]
    fn take_some(
        &self,
        bytes: &[u8],
        reader: &mut SegmentReader,
        head: &mut Bytes,
    ) -> (usize, Result<bool, Stop>) {
        if let Some(segment) = next_segment(reader, self.most, bytes) {
            return (
                segment.length,
                take_segment(reader, head, self.replace, &segment),
            );
        }
        let n = pass_some(reader, self.most, bytes);
        (n + 1, read_byte(reader, head, self.replace, bytes[n]))
    }
}

// The segment of application data or the comment at the front of these bytes, if it is complete, may follow what is there
// and is within the limit.
fn next_segment<'a>(reader: &SegmentReader, most: u64, bytes: &'a [u8]) -> Option<WholeSegment<'a>>
    requires { (reading_of reader.now).taken < most }
    ensures may { IfSome result (λ s. MayFollow (reading_of reader.now) s.code s.contents.now) }
    ensures spelled { IfSome result (λ s. SpellsSegment s.code s.contents.now (take s.length bytes.now)) }
    ensures within { IfSome result (λ s. (1 ≤ s.length) × (s.length ≤ length bytes.now)) }
    ensures room { IfSome result (λ s. (reading_of reader.now).taken + s.length ≤ most) }
    ensures other { IfSome result (λ s. 224 ≤ s.code) }
{
    let Some(segment) = segment_at(bytes) else {
        return None;
    };
    if segment.code < APP0 || most - reader.taken() < segment.length as u64 {
        return None;
    }
    if reader.allows(&segment) {
        Some(segment)
    } else {
        None
    }
}

// Takes a segment that may follow, and keeps it. The frame header's marker isn't complete with it.
fn take_segment(
    reader: &mut SegmentReader,
    head: &mut Bytes,
    replace: bool,
    segment: &WholeSegment<'_>,
) -> Result<bool, Stop>
    requires may { MayFollow (reading_of reader.old) segment.now.code segment.now.contents.now }
    requires room { (reading_of reader.old).taken + segment.now.length ≤ (reading_of reader.old).limits.input }
    requires size { length segment.now.contents.now ≤ 65533 }
    ensures takes { KeepsWhole replace (reading_of reader.old) segment.now head.old result head.new (reading_of reader.new) }
    ensures limits { (reading_of reader.new).limits ≡ (reading_of reader.old).limits }
    ensures room { HasRoom reader.old → HasRoom reader.new }
{
    reader.pass(segment);
    keep(segment.code, segment.contents, head, replace)?;
    Ok(false)
}

// Keeps a segment with one FF, except for comments where they are replaced.
fn keep(code: u8, contents: &[u8], head: &mut Bytes, replace: bool) -> Result<(), NoMemory>
    requires { length contents.now ≤ 65533 }
    ensures { AppendsText (copied_segment replace code contents.now) result head.old head.new }
{
    if replace && code == COM {
        return Ok(());
    }
    append_segment(code, contents, head)
}

// Reads a byte. Returns whether the frame header's marker is complete.
fn read_byte(
    reader: &mut SegmentReader,
    head: &mut Bytes,
    replace: bool,
    byte: u8,
) -> Result<bool, Stop>
    requires limit { (reading_of reader.old).taken < (reading_of reader.old).limits.input }
    requires room { HasRoom reader.old }
    ensures room { HasRoom reader.new }
    ensures answered { KeepsByte replace (reading_of reader.old) byte head.old result head.new (reading_of reader.new) }
    ensures limits { (reading_of reader.new).limits ≡ (reading_of reader.old).limits }
{
    match reader.byte(byte)? {
        SegStep::Whole => {
            keep_segment(reader, head, replace)?;
            Ok(false)
        }
        SegStep::Frame => Ok(true),
        SegStep::More => Ok(false),
        SegStep::Start => Ok(false),
        SegStep::Eoi => Ok(false),
    }
}

// Keeps the last segment, as `keep` keeps it.
fn keep_segment(reader: &SegmentReader, head: &mut Bytes, replace: bool) -> Result<(), NoMemory>
    ensures { KeepsSegment replace (reading_of reader.now) head.old result head.new }
{
    let contents = reader.contents();
    let length = contents.len().min(LONGEST);
    keep(reader.code(), &contents[..length], head, replace)
}

// Writes all that precedes the contents of the frame header.
fn write_head(head: &[u8], segment: &[u8], code: u8, out: &mut Bytes) -> Result<(), NoMemory>
    ensures { AppendsText (head.now ++ segment.now ++ 255 ∷ code ∷ []) result out.old out.new }
{
    push_some(head, out)?;
    push_some(segment, out)?;
    push_some(&[0xff, code], out)
}

// Copies the bytes after that, up to the limit. Returns how many were taken.
fn copy(taken: u64, most: u64, rest: &[u8], out: &mut Bytes) -> Result<u64, Stop>
    ensures { CopiesRest taken most rest.now result out.old out.new }
{
    let room = most.saturating_sub(taken);
    let length = rest.len() as u64;
    if length < room {
        push_some(rest, out)?;
        return Ok(taken + length);
    }
    push_some(&rest[..room as usize], out)?;
    Err(Stop::too_long(most))
}
