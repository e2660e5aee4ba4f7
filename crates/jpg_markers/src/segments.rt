//! The segments of a file, read byte by byte (T.81, B.1.1.2, B.1.1.4).
ghost use Rattle.std.specs.Prelude.{◌≡◌, ◌≤◌, ◌<◌, ◌+◌, ℕ, List, [], ◌∷◌, length, None, Some, Ok, Err, IfOk, IfErr, true};
ghost use Rattle.jpg_spec.specs.FrameHeader.{AreLimits};
ghost use Rattle.jpg_spec.specs.Markers.{Segment};
ghost use Rattle.jpg_base.specs.declared.stop.Stop.{Stop as Stopped};
ghost use Rattle.jpg_base.specs.declared.stop.Stop.TheVariants as stop;
ghost use Rattle.jpg_markers.specs.declared.segments.Phase.TheVariants as phase;

use crate::seen::{Seen, code_fault, is_frame_code};
use crate::whole::{WholeSegment, fill_length};
use byteorder::{BigEndian, ByteOrder};
use jpg_base::codes::{EOI, SOI};
use jpg_base::{NoMemory, Stop};
use jpg_spec::{Fault, FaultAt, Limits};
use std::alloc::Global;

/// The result of a byte, where nothing was wrong: SOI is there, the marker of a frame header, EOI, the last byte of a
/// segment, or none of these.
#[derive(Clone, Copy, Debug, PartialEq, Eq)]
pub enum SegStep {
    More,
    Start,
    Frame,
    Eoi,
    Whole,
}

// Where the next byte is: before SOI, inside it, after a complete segment, after FF, after a code, after the first byte
// of a length, inside contents, after EOI.
#[derive(Clone, Copy)]
enum Phase {
    Empty,
    HalfStart,
    Between,
    Fill,
    Coded,
    HalfLength,
    Contents,
    Ended,
}

// Why a byte isn't taken.
#[derive(Clone, Copy)]
enum Halt {
    Fault(Fault),
    NoMemory,
}

// The most bytes of contents.
const LONGEST: usize = 65533;

/// Reads a file's segments byte by byte (T.81, B.1.1). It judges markers, lengths, and the size of the markers that are
/// kept, but not contents. Scan data aren't given to it.
#[derive(Drop)]
pub struct SegmentReader {
    // The limits of the input.
    limits: Limits,
    ghost limited: { AreLimits limits },
    // How many bytes of the input were taken, those of scan data among them.
    taken: u64,
    // Where the next byte is.
    phase: Phase,
    // The code of the last marker.
    code: u8,
    // The first byte of the length.
    high: u8,
    // How many bytes of the contents are expected.
    left: u16,
    // The contents so far.
    contents: Vec<u8>,
    // What is remembered of the segments before.
    seen: Seen,
    // Why the reader stopped, if it did.
    stop: Option<Stop>,
}

impl SegmentReader {
    ghost use Rattle.jpg_markers.specs.Reading.{reading_of, AfterWhole, RepresentsSegments, Continues, Comes, PassesSome, MayFollow, PassesSegment, Goes, HasRoom, IsAfterScan, HaltsNot, HasMemory, NeedsMemory, Stays, ComesWith, GoesWith, GoesWhole};

    /// A reader that was given no bytes. It takes no memory yet.
    pub fn new(alloc: Global, limits: Limits) -> SegmentReader
        requires { AreLimits limits }
        ensures stands { RepresentsSegments [] [] (reading_of result) }
        ensures limits { (reading_of result).limits ≡ limits }
        ensures taken { (reading_of result).taken ≡ 0 }
    {
        SegmentReader {
            limits,
            taken: 0,
            phase: Phase::Empty,
            code: 0,
            high: 0,
            left: 0,
            contents: Vec::new(alloc),
            seen: Seen::none(limits.kept),
            stop: None,
        }
    }

    /// Takes a byte outside scan data. Returns the result of all bytes so far: Start after SOI, Frame after the marker
    /// of a frame header (SOF0, SOF1 or SOF2), Eoi after EOI, Whole with a segment's last byte, More if it is none of
    /// these; otherwise their fault, at the number of bytes taken: NotJpeg, NoMarker, UnexpectedMarker,
    /// UnsupportedProcess, SecondFrame, SosBeforeSof, BadLength (a length below 2) or MarkersTooLarge; or NoMemory if
    /// there is none for the contents, but not after `reserve`. After a stop it returns the same stop. What it returns
    /// after EOI is unspecified.
    pub fn byte(&mut self, byte: u8) -> Result<SegStep, Stop>
        requires { (reading_of self.old).taken < (reading_of self.old).limits.input }
        ensures answered { ComesWith (reading_of self.old) (byte ∷ []) result (reading_of self.new) }
        ensures taken { (reading_of self.old).stop ≡ None → (reading_of self.new).taken ≡ (reading_of self.old).taken + 1 }
        ensures again { (stop : Stopped) → (reading_of self.old).stop ≡ Some stop → (result ≡ Err stop) × (self.new ≡ self.old) }
        ensures whole { AfterWhole result (reading_of self.new) }
        ensures going { IfOk result (λ _. (reading_of self.new).stop ≡ None) }
        ensures stopped { IfErr result (λ stop. (reading_of self.new).stop ≡ Some stop) }
        ensures limits { (reading_of self.new).limits ≡ (reading_of self.old).limits }
        ensures room { HasRoom self.old → HasRoom self.new }
        ensures memory { (bytes : List ℕ) (before : List Segment) → RepresentsSegments bytes before (reading_of self.old) → HasRoom self.old → HasMemory result }
    {
        if let Some(stop) = self.stop {
            return Err(stop);
        }
        let within = self.taken < self.limits.input;
        prove!(within);
        self.taken += 1;
        let next = self.next(byte);
        self.answer(next)
    }

    /// Takes the marker that ended scan data, as if `byte` were given FF and its code, which is byte number `at` of the
    /// input. The last result was Whole, for SOS.
    pub fn marker(&mut self, code: u8, at: u64) -> Result<SegStep, Stop>
        requires behind { IsAfterScan (reading_of self.old) }
        requires later { (reading_of self.old).taken + 2 ≤ at }
        requires within { at ≤ (reading_of self.old).limits.input }
        ensures answered { ComesWith (reading_of self.old) (255 ∷ code ∷ []) result (reading_of self.new) }
        ensures taken { (reading_of self.new).taken ≡ at }
        ensures going { IfOk result (λ _. (reading_of self.new).stop ≡ None) }
        ensures stopped { IfErr result (λ stop. (reading_of self.new).stop ≡ Some stop) }
        ensures limits { (reading_of self.new).limits ≡ (reading_of self.old).limits }
        ensures room { HasRoom self.old → HasRoom self.new }
        ensures memory { HasMemory result }
    {
        self.phase = Phase::Fill;
        self.taken = at;
        let next = self.code_byte(code);
        self.answer(next)
    }

    /// Takes bytes from the start of these that only continue what is there: fill bytes after FF, or contents of the
    /// current segment, as many as are expected before its last byte, and otherwise none. Returns how many they were.
    /// It is as if `byte` were given them one by one, and returned More for each. If there is no memory for the contents,
    /// nothing has changed.
    pub fn stretch(&mut self, bytes: &[u8]) -> Result<usize, NoMemory>
        requires { (reading_of self.old).taken + length bytes.now ≤ (reading_of self.old).limits.input }
        ensures continues { Continues (reading_of self.old) bytes.now result (reading_of self.new) }
        ensures stands { PassesSome (reading_of self.old) bytes.now result (reading_of self.new) }
        ensures taken { IfOk result (λ n. (reading_of self.new).taken ≡ (reading_of self.old).taken + n) }
        ensures limits { (reading_of self.new).limits ≡ (reading_of self.old).limits }
        ensures room { HasRoom self.old → HasRoom self.new }
        ensures memory { IfErr result (λ _. NeedsMemory self.old bytes.now) }
    {
        match self.phase {
            Phase::Contents => self.take_contents(bytes),
            Phase::Fill => Ok(self.take_fill(bytes)),
            Phase::Empty => Ok(0),
            Phase::HalfStart => Ok(0),
            Phase::Between => Ok(0),
            Phase::Coded => Ok(0),
            Phase::HalfLength => Ok(0),
            Phase::Ended => Ok(0),
        }
    }

    // Takes contents of the current segment, as many as are given and expected before its last byte.
    fn take_contents(&mut self, bytes: &[u8]) -> Result<usize, NoMemory>
        requires inside { (reading_of self.old).phase ≡ phase.Contents }
        requires room { (reading_of self.old).taken + length bytes.now ≤ (reading_of self.old).limits.input }
        ensures continues { Continues (reading_of self.old) bytes.now result (reading_of self.new) }
        ensures room { HasRoom self.old → HasRoom self.new }
        ensures taken { IfOk result (λ n. (reading_of self.new).taken ≡ (reading_of self.old).taken + n) }
        ensures limits { (reading_of self.new).limits ≡ (reading_of self.old).limits }
        ensures memory { IfErr result (λ _. NeedsMemory self.old bytes.now) }
    {
        let due = self.left.saturating_sub(1) as usize;
        let n = due.min(bytes.len());
        match self.contents.extend_from_slice(&bytes[..n]) {
            Ok(()) => {
                self.left -= n as u16;
                self.taken += n as u64;
                Ok(n)
            }
            Err(_) => Err(NoMemory),
        }
    }

    // Takes the fill bytes at the start of these. Returns how many they were.
    #[tactic(auto, using(crate::proofs::Continuing::fills_continue))]
    fn take_fill(&mut self, bytes: &[u8]) -> usize
        requires inside { (reading_of self.old).phase ≡ phase.Fill }
        requires room { (reading_of self.old).taken + length bytes.now ≤ (reading_of self.old).limits.input }
        ensures continues { Continues (reading_of self.old) bytes.now (Ok result) (reading_of self.new) }
        ensures room { HasRoom self.old → HasRoom self.new }
        ensures taken { (reading_of self.new).taken ≡ (reading_of self.old).taken + result }
        ensures limits { (reading_of self.new).limits ≡ (reading_of self.old).limits }
    {
        let within = self.taken <= self.limits.input;
        prove!(within);
        let n = fill_length(bytes);
        self.taken += n as u64;
        n
    }

    /// Whether this segment may follow: the reader hasn't stopped and is between segments, the segment's code may occur
    /// here and isn't EOI, and the kept markers are within their limit with it.
    #[tactic(auto, using(crate::proofs::Continuing::not_some))]
    pub fn allows(&self, segment: &WholeSegment<'_>) -> bool
        ensures may { result ≡ true → MayFollow (reading_of self.now) segment.now.code segment.now.contents.now }
        ensures always { (reading_of self.now).stop ≡ None → MayFollow (reading_of self.now) segment.now.code segment.now.contents.now → result ≡ true }
    {
        if self.stop.is_some() || segment.code == EOI {
            return false;
        }
        if code_fault(self.seen.framed, segment.code).is_some() {
            return false;
        }
        match self.phase {
            Phase::Between => self.seen.allows(segment.code, segment.contents),
            Phase::Empty => false,
            Phase::HalfStart => false,
            Phase::Fill => false,
            Phase::Coded => false,
            Phase::HalfLength => false,
            Phase::Contents => false,
            Phase::Ended => false,
        }
    }

    /// Takes a segment that may follow. Neither `code` nor `contents` change.
    pub fn pass(&mut self, segment: &WholeSegment<'_>)
        requires may { MayFollow (reading_of self.old) segment.now.code segment.now.contents.now }
        requires room { (reading_of self.old).taken + segment.now.length ≤ (reading_of self.old).limits.input }
        ensures passed { PassesSegment (reading_of self.old) segment.now.code segment.now.contents.now segment.now.length (reading_of self.new) }
        ensures room { HasRoom self.old → HasRoom self.new }
    {
        let within = self.taken <= self.limits.input;
        prove!(within);
        self.seen.note(segment.code, segment.contents);
        self.taken += segment.length as u64;
    }

    /// Makes room for the contents of one segment of any length. It changes nothing else, and after Ok no call returns
    /// NoMemory.
    pub fn reserve(&mut self) -> Result<(), NoMemory>
        ensures same { reading_of self.new ≡ reading_of self.old }
        ensures room { IfOk result (λ _. HasRoom self.new) }
        ensures kept { HasRoom self.old → HasRoom self.new }
    {
        let more = LONGEST.saturating_sub(self.contents.len());
        match self.contents.reserve(more) {
            Ok(()) => Ok(()),
            Err(_) => Err(NoMemory),
        }
    }

    /// The code of the last complete segment, where Whole was the last result.
    pub fn code(&self) -> u8
        ensures { result ≡ (reading_of self.now).code }
    {
        self.code
    }

    /// The contents of the last complete segment, where Whole was the last result: at most 65,533 bytes.
    pub fn contents(&self) -> &[u8]
        ensures { result.now ≡ (reading_of self.now).contents }
    {
        self.contents.as_slice()
    }

    /// The limits of the input.
    #[inline]
    pub fn limits(&self) -> Limits
        ensures is { result ≡ (reading_of self.now).limits }
        ensures limited { AreLimits result }
    {
        self.limits
    }

    /// How many bytes of the input were taken, those of scan data among them.
    pub fn taken(&self) -> u64
        ensures { result ≡ (reading_of self.now).taken }
    {
        self.taken
    }

    // Keeps a halt as the stop that all later calls return.
    fn answer(&mut self, next: Result<SegStep, Halt>) -> Result<SegStep, Stop>
        requires { (reading_of self.old).stop ≡ None }
        ensures goes { (bytes : List ℕ) (before : List Segment) → Goes bytes before next (reading_of self.old) → Comes bytes before result (reading_of self.new) }
        ensures whole { AfterWhole next (reading_of self.old) → AfterWhole result (reading_of self.new) }
        ensures going { IfOk result (λ _. (reading_of self.new).stop ≡ None) }
        ensures stopped { IfErr result (λ stop. (reading_of self.new).stop ≡ Some stop) }
        ensures limits { (reading_of self.new).limits ≡ (reading_of self.old).limits }
        ensures taken { (reading_of self.new).taken ≡ (reading_of self.old).taken }
        ensures room { HasRoom self.old → HasRoom self.new }
        ensures memory { HaltsNot next → HasMemory result }
    {
        match next {
            Ok(step) => Ok(step),
            Err(Halt::Fault(fault)) => {
                let stop = Stop::Fault(FaultAt {
                    fault,
                    at: self.taken,
                });
                self.stop = Some(stop);
                Err(stop)
            }
            Err(Halt::NoMemory) => {
                self.stop = Some(Stop::NoMemory);
                Err(Stop::NoMemory)
            }
        }
    }

    // The result of a byte, by the phase.
    fn next(&mut self, byte: u8) -> Result<SegStep, Halt>
        ensures goes { GoesWith (reading_of self.old) (byte ∷ []) result (reading_of self.new) }
        ensures stays { Stays self.old self.new }
        ensures whole { AfterWhole result (reading_of self.new) }
        ensures memory { (bytes : List ℕ) (before : List Segment) → RepresentsSegments bytes before (reading_of self.old) → HasRoom self.old → HaltsNot result }
    {
        match self.phase {
            Phase::Contents => self.content_byte(byte),
            Phase::Empty => self.first_byte(byte),
            Phase::HalfStart => self.second_byte(byte),
            Phase::Between => self.item_byte(byte),
            Phase::Fill => self.code_byte(byte),
            Phase::Coded => self.high_byte(byte),
            Phase::HalfLength => self.low_byte(byte),
            Phase::Ended => Ok(SegStep::More),
        }
    }

    fn first_byte(&mut self, byte: u8) -> Result<SegStep, Halt>
        requires { (reading_of self.old).phase ≡ phase.Empty }
        ensures goes { GoesWith (reading_of self.old) (byte ∷ []) result (reading_of self.new) }
        ensures stays { Stays self.old self.new }
        ensures whole { AfterWhole result (reading_of self.new) }
        ensures memory { HaltsNot result }
    {
        if byte != 0xff {
            return Err(Halt::Fault(Fault::NotJpeg));
        }
        self.phase = Phase::HalfStart;
        Ok(SegStep::More)
    }

    fn second_byte(&mut self, byte: u8) -> Result<SegStep, Halt>
        requires { (reading_of self.old).phase ≡ phase.HalfStart }
        ensures goes { GoesWith (reading_of self.old) (byte ∷ []) result (reading_of self.new) }
        ensures stays { Stays self.old self.new }
        ensures whole { AfterWhole result (reading_of self.new) }
        ensures memory { HaltsNot result }
    {
        if byte != SOI {
            return Err(Halt::Fault(Fault::NotJpeg));
        }
        self.phase = Phase::Between;
        Ok(SegStep::Start)
    }

    // The first byte after a complete segment.
    fn item_byte(&mut self, byte: u8) -> Result<SegStep, Halt>
        requires { (reading_of self.old).phase ≡ phase.Between }
        ensures goes { GoesWith (reading_of self.old) (byte ∷ []) result (reading_of self.new) }
        ensures stays { Stays self.old self.new }
        ensures whole { AfterWhole result (reading_of self.new) }
        ensures memory { HaltsNot result }
    {
        if byte != 0xff {
            return Err(Halt::Fault(Fault::NoMarker));
        }
        self.phase = Phase::Fill;
        Ok(SegStep::More)
    }

    // A byte after FF: a further fill byte, or a marker's code (T.81, B.1.1.2).
    fn code_byte(&mut self, code: u8) -> Result<SegStep, Halt>
        requires { (reading_of self.old).phase ≡ phase.Fill }
        ensures goes { GoesWith (reading_of self.old) (code ∷ []) result (reading_of self.new) }
        ensures stays { Stays self.old self.new }
        ensures whole { AfterWhole result (reading_of self.new) }
        ensures memory { HaltsNot result }
    {
        if code == 0xff {
            return Ok(SegStep::More);
        }
        if code == 0 {
            return Err(Halt::Fault(Fault::NoMarker));
        }
        if let Some(fault) = code_fault(self.seen.framed, code) {
            return Err(Halt::Fault(fault));
        }
        if code == EOI {
            self.phase = Phase::Ended;
            return Ok(SegStep::Eoi);
        }
        self.code = code;
        self.phase = Phase::Coded;
        if is_frame_code(code) {
            Ok(SegStep::Frame)
        } else {
            Ok(SegStep::More)
        }
    }

    // The first byte of a length.
    fn high_byte(&mut self, byte: u8) -> Result<SegStep, Halt>
        requires { (reading_of self.old).phase ≡ phase.Coded }
        ensures goes { GoesWith (reading_of self.old) (byte ∷ []) result (reading_of self.new) }
        ensures stays { Stays self.old self.new }
        ensures whole { AfterWhole result (reading_of self.new) }
        ensures memory { HaltsNot result }
    {
        self.high = byte;
        self.phase = Phase::HalfLength;
        Ok(SegStep::More)
    }

    // The second byte of a length, which counts itself (T.81, B.1.1.4).
    fn low_byte(&mut self, byte: u8) -> Result<SegStep, Halt>
        requires { (reading_of self.old).phase ≡ phase.HalfLength }
        ensures goes { GoesWith (reading_of self.old) (byte ∷ []) result (reading_of self.new) }
        ensures stays { Stays self.old self.new }
        ensures whole { AfterWhole result (reading_of self.new) }
        ensures memory { HaltsNot result }
    {
        let length = BigEndian::read_u16(&[self.high, byte]);
        if length < 2 {
            return Err(Halt::Fault(Fault::BadLength));
        }
        self.left = length - 2;
        self.contents.clear();
        if self.left == 0 {
            return self.whole();
        }
        self.phase = Phase::Contents;
        Ok(SegStep::More)
    }

    #[inline(always)]
    fn content_byte(&mut self, byte: u8) -> Result<SegStep, Halt>
        requires { (reading_of self.old).phase ≡ phase.Contents }
        ensures goes { GoesWith (reading_of self.old) (byte ∷ []) result (reading_of self.new) }
        ensures stays { Stays self.old self.new }
        ensures whole { AfterWhole result (reading_of self.new) }
        ensures memory { (bytes : List ℕ) (before : List Segment) → RepresentsSegments bytes before (reading_of self.old) → HasRoom self.old → HaltsNot result }
    {
        match self.contents.push(byte) {
            Ok(()) => {
                if self.left > 1 {
                    self.left -= 1;
                    return Ok(SegStep::More);
                }
                self.whole()
            }
            Err(_) => Err(Halt::NoMemory),
        }
    }

    // The last byte of a segment is there.
    fn whole(&mut self) -> Result<SegStep, Halt>
        ensures goes { GoesWhole (reading_of self.old) result (reading_of self.new) }
        ensures stays { Stays self.old self.new }
        ensures whole { AfterWhole result (reading_of self.new) }
        ensures memory { HaltsNot result }
    {
        if !self.seen.allows(self.code, self.contents.as_slice()) {
            return Err(Halt::Fault(Fault::MarkersTooLarge));
        }
        self.seen.note(self.code, self.contents.as_slice());
        self.phase = Phase::Between;
        Ok(SegStep::Whole)
    }
}
