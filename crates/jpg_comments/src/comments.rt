//! The comments of a file, read piece by piece (T.81, B.2.4.5).
ghost use Rattle.std.specs.Prelude.{◌≡◌, ◌<◌, ◌+◌, ◌-◌, length, [], ℕ, List, Some, None, OnErr, OnOk, true, false, Ok, Err};
ghost use Rattle.jpg_spec.specs.FrameHeader.{AreLimits};
ghost use Rattle.jpg_base.specs.declared.stop.Stop.{Stop as Stopped};
ghost use Rattle.jpg_markers.specs.Reading.{HasRoom, reading_of};
ghost use Rattle.jpg_comments.specs.Printing.{PrintsByte, PrintsSegment, printing};

use crate::append_printed;
use crate::quiet::pass_some;
use jpg_base::codes::{COM, SOS};
use jpg_base::{Bytes, Fed, Intake, NoMemory, Stop, check_limit, feed_piece};
use jpg_markers::{SegStep, SegmentReader};
use jpg_spec::Limits;
use std::alloc::Global;

/// Reads the comments of a file up to its first scan, or up to EOI before any, and prints them.
#[derive(Drop)]
pub struct Comments {
    // The limits of the input.
    limits: Limits,
    // The segments so far.
    reader: SegmentReader,
    // There is memory for the contents of any segment.
    ready: bool,
    // The first SOS segment is complete, or EOI was read.
    done: bool,
    // Why the reader stopped, if it did.
    stop: Option<Stop>,
    ghost limited: { (reading_of reader).limits ≡ limits },
    ghost room: { ready ≡ true → HasRoom reader },
}

impl Comments {
    ghost use Rattle.jpg_comments.specs.ReadComments.{comments_limits, comments_stop, comments_taken, is_done, is_ready, EndsDone, Feeds, HasRead, StopsAt};

    /// A reader that was given no bytes. It takes no memory yet.
    #[tactic(auto, using(crate::proofs::ByByte::printed_start))]
    pub fn new(alloc: Global, limits: Limits) -> Comments
        requires { AreLimits limits }
        ensures read { HasRead [] [] result }
        ensures done { is_done result ≡ false }
        ensures limits { comments_limits result ≡ limits }
    {
        Comments {
            limits,
            reader: SegmentReader::new(alloc, limits),
            ready: false,
            done: false,
            stop: None,
        }
    }

    /// Takes the memory to read any segment, if that wasn't done yet; from then on only the text that `feed` appends
    /// takes more.
    pub fn reserve(&mut self) -> Result<(), NoMemory>
        ensures ready { OnOk result (is_ready self.new ≡ true) }
        ensures wanting { OnErr result ((is_ready self.old ≡ false) × (is_ready self.new ≡ false)) }
        ensures read { (bytes text : List ℕ) → HasRead bytes text self.old → HasRead bytes text self.new }
        ensures done { is_done self.new ≡ is_done self.old }
        ensures stopped { comments_stop self.new ≡ comments_stop self.old }
        ensures limits { comments_limits self.new ≡ comments_limits self.old }
    {
        if !self.ready {
            self.reader.reserve()?;
            self.ready = true;
        }
        Ok(())
    }

    /// Takes a further piece of the file, of any length, and appends the text of each comment that is complete with it.
    /// Returns Done with the end of the first scan header or with an EOI before any, and how many bytes of the piece
    /// were used, that end among them. Otherwise it returns the fault of the bytes so far, at the number of bytes
    /// taken: NotJpeg, NoMarker, UnexpectedMarker, UnsupportedProcess, SecondFrame, SosBeforeSof, BadLength (a length
    /// below 2) or MarkersTooLarge; and InputTooLong if the limit was reached. Otherwise it returns More. On a fault
    /// the text of the comments that were complete before it is appended, and on NoMemory a first part of such a text,
    /// not all of it; or there was no memory to read the first piece.
    /// After a stop it returns the same stop. It may not be called once the file is complete (`is_done`).
    pub fn feed(&mut self, piece: &[u8], out: &mut Bytes) -> Result<Fed, Stop>
        requires { is_done self.old ≡ false }
        ensures answered { Feeds self.old piece.now out.old result out.new self.new }
        ensures done { EndsDone result self.new }
        ensures ready { is_ready self.old ≡ true → is_ready self.new ≡ true }
        ensures stopped { (stop : Stopped) → result ≡ Err stop → comments_stop self.new ≡ Some stop }
        ensures again { (stop : Stopped) → comments_stop self.old ≡ Some stop → (result ≡ Err stop) × (self.new ≡ self.old) × (out.new ≡ out.old) }
        ensures limits { comments_limits self.new ≡ comments_limits self.old }
    {
        if let Some(stop) = self.stop {
            return Err(stop);
        }
        match self.reserve() {
            Ok(()) => {}
            Err(NoMemory) => {
                self.stop = Some(Stop::NoMemory);
                return Err(Stop::NoMemory);
            }
        }
        let printing = Printing {
            most: self.limits.input,
        };
        let answer = feed_piece(&printing, piece, &mut self.reader, out);
        match answer {
            Ok(Fed::More) => {}
            Ok(Fed::Done { .. }) => self.done = true,
            Err(stop) => self.stop = Some(stop),
        }
        answer
    }

    /// How many bytes more may be taken: the limit minus those that were taken.
    pub fn room(&self) -> u64
        ensures is { result ≡ (comments_limits self.now).input - comments_taken self.now }
        ensures left { (bytes text : List ℕ) → HasRead bytes text self.now → result + length bytes ≡ (comments_limits self.now).input }
    {
        self.limits.input.saturating_sub(self.reader.taken())
    }

    /// Whether the file is complete, so that neither `feed` nor `end` may be called any more.
    pub fn is_done(&self) -> bool
        ensures { result ≡ is_done self.now }
    {
        self.done
    }

    /// The file ends here. Returns Truncated at the number of bytes taken, or the earlier stop. It may not be called
    /// once the file is complete (`is_done`).
    pub fn end(&mut self) -> Stop
        requires { is_done self.old ≡ false }
        ensures answered { (bytes text : List ℕ) → HasRead bytes text self.old → StopsAt (comments_limits self.old) bytes result }
        ensures done { is_done self.new ≡ false }
        ensures stopped { comments_stop self.new ≡ Some result }
        ensures again { (stop : Stopped) → comments_stop self.old ≡ Some stop → (result ≡ stop) × (self.new ≡ self.old) }
        ensures limits { comments_limits self.new ≡ comments_limits self.old }
    {
        if let Some(stop) = self.stop {
            return stop;
        }
        let stop = Stop::truncated(self.reader.taken());
        self.stop = Some(stop);
        stop
    }
}

// How a reader takes bytes whose comments are printed, at most so many.
#[derive(Drop)]
struct Printing {
    most: u64,
}

impl Intake<SegmentReader, Bytes> for Printing {
    ghost kind = { printing };

    #[inline]
    fn check_room(&self, reader: &SegmentReader) -> Result<(), Stop> {
        check_limit(reader.taken(), self.most)
    }

    #[inline]
    fn take_some(
        &self,
        bytes: &[u8],
        reader: &mut SegmentReader,
        out: &mut Bytes,
    ) -> (usize, Result<bool, Stop>) {
        let n = pass_some(reader, self.most, bytes);
        (n + 1, read_byte(reader, bytes[n], out))
    }
}

// Reads a byte. Returns whether the file is complete with it.
fn read_byte(reader: &mut SegmentReader, byte: u8, out: &mut Bytes) -> Result<bool, Stop>
    requires limit { (reading_of reader.old).taken < (reading_of reader.old).limits.input }
    requires room { HasRoom reader.old }
    ensures room { HasRoom reader.new }
    ensures answered { PrintsByte (reading_of reader.old) byte out.old result out.new (reading_of reader.new) }
    ensures limits { (reading_of reader.new).limits ≡ (reading_of reader.old).limits }
{
    match reader.byte(byte)? {
        SegStep::Whole => print_segment(reader, out),
        SegStep::Eoi => Ok(true),
        SegStep::More => Ok(false),
        SegStep::Start => Ok(false),
        SegStep::Frame => Ok(false),
    }
}

// Prints the last segment, if it is a comment. Returns whether it is the header of a scan.
fn print_segment(reader: &SegmentReader, out: &mut Bytes) -> Result<bool, Stop>
    ensures { PrintsSegment (reading_of reader.now).code (reading_of reader.now).contents result out.old out.new }
{
    let code = reader.code();
    if code == COM {
        append_printed(reader.contents(), out)?;
    }
    Ok(code == SOS)
}
