//! The items of a file, byte by byte, scan data left out (T.81, B.1.1, B.2.1).
ghost use Rattle.std.specs.Prelude.{◌≡◌, ◌<◌, ◌+◌, ◌≤◌, ℕ, List, [], length, None, Err, true};
ghost use Rattle.jpg_spec.specs.FrameHeader.{AreLimits};
ghost use Rattle.jpg_spec.specs.Scan.{Blocks};
ghost use Rattle.jpg_spec.specs.Items.{Item};
ghost use Rattle.jpg_spec.specs.FileMeaning.{no_blocks};
ghost use Rattle.jpg_markers.specs.Reading.{HasRoom, PassesDue, reading_of};
ghost use Rattle.jpg_file.specs.Read.Passing.{HasNoneToPass};
ghost use Rattle.jpg_file.specs.Read.Items.{BetweenItems, BehindHead, JudgesSegment, KeepsItems, PassesItems, TakesItemByte, TakesMarker, limits_in};

use crate::read::segment_state::{SegmentState, SegmentTaken};
use jpg_base::codes::SOS;
use jpg_base::{Limits, NoMemory, Stop};
use jpg_markers::{SegStep, SegmentReader, segment_at};
use jpg_spec::{Copying, FaultAt};
use std::alloc::Global;

/// The reader of segments, and what they define.
#[derive(Drop)]
pub struct Items {
    pub segments: SegmentReader,
    pub held: SegmentState,
}

impl Items {
    /// The state before any byte.
    pub fn new(alloc: Global, limits: Limits, keeping: Copying) -> Items
        requires { AreLimits limits }
        ensures between { BetweenItems limits [] [] no_blocks result }
        ensures taken { (reading_of result.segments).taken ≡ 0 }
        ensures keeping { result.held.keeping ≡ keeping }
        ensures limits { limits_in result ≡ limits }
    {
        Items {
            segments: SegmentReader::new(alloc, limits),
            held: SegmentState::new(alloc, keeping),
        }
    }

    /// The limits of the input.
    #[inline]
    pub fn limits(&self) -> Limits
        ensures { result ≡ limits_in self.now }
    {
        self.segments.limits()
    }

    /// Takes a byte outside scan data. Returns Whole if a scan header is complete, and not yet judged, Eoi if EOI is there,
    /// and otherwise that the file goes on; or the fault that the byte reveals, at the number of bytes taken.
    #[tactic(auto, using(crate::proofs::Files::ItemBytes::between_going))]
    pub fn byte(&mut self, byte: u8) -> Result<SegStep, Stop>
        requires stands { (bytes : List ℕ) × (items : List Item) × (blocks : Blocks) × BetweenItems (limits_in self.old) bytes items blocks self.old }
        requires room { (reading_of self.old.segments).taken < (limits_in self.old).input }
        ensures after { TakesItemByte self.old byte result self.new }
        ensures taken { (reading_of self.new.segments).taken ≡ (reading_of self.old.segments).taken + 1 }
        ensures memory { self.old.held.keeping ≡ Copying.None → self.old.held.scanned ≡ true → HasRoom self.old.segments → result ≡ Err Stop.NoMemory → ⊥ }
        ensures keeps { KeepsItems self.old self.new }
    {
        match self.segments.byte(byte) {
            Ok(SegStep::Whole) => self.segment(),
            Ok(step) => Ok(step),
            Err(stop) => Err(stop),
        }
    }

    /// Takes all bytes from the start of these that only continue what is there: fill bytes after FF, or contents of the
    /// current segment before its last byte, and otherwise none, nor if there is no memory. Returns how many they were.
    pub fn contents(&mut self, bytes: &[u8]) -> usize
        requires room { (reading_of self.old.segments).taken + length bytes.now ≤ (limits_in self.old).input }
        ensures few { result ≤ length bytes.now }
        ensures after { PassesItems self.old bytes.now result self.new }
        ensures most { PassesDue self.old.segments bytes.now result }
        ensures keeps { KeepsItems self.old self.new }
    {
        match self.segments.stretch(bytes) {
            Ok(n) => n,
            Err(NoMemory) => 0,
        }
    }

    /// Takes the segment at the start of these bytes, if one is complete there, may follow what is there, breaks no
    /// rule and isn't a scan header. Returns how many bytes it takes, fill bytes before it among them. Otherwise, and
    /// if there is no memory, it returns 0, and nothing has changed.
    pub fn whole(&mut self, bytes: &[u8]) -> usize
        requires room { (reading_of self.old.segments).taken + length bytes.now ≤ (limits_in self.old).input }
        ensures after { PassesItems self.old bytes.now result self.new }
        ensures none { result ≡ 0 → HasNoneToPass self.new bytes.now }
        ensures keeps { KeepsItems self.old self.new }
    {
        let Some(segment) = segment_at(bytes) else {
            return 0;
        };
        if segment.code == SOS || !self.segments.allows(&segment) {
            return 0;
        }
        let limits = self.segments.limits();
        match self.held.take(limits, segment.code, segment.contents) {
            SegmentTaken::Done => {
                self.segments.pass(&segment);
                segment.length
            }
            SegmentTaken::Fault(_) => 0,
            SegmentTaken::NoMemory => 0,
        }
    }

    /// Takes the marker that ended a scan's data, whose code is byte number `at` of the file.
    pub fn marker(&mut self, code: u8, at: u64) -> Result<SegStep, Stop>
        requires stands { (items : List Item) × (contents : List ℕ) × BehindHead (limits_in self.old) items contents self.old }
        requires later { (reading_of self.old.segments).taken + 2 ≤ at }
        requires within { at ≤ (limits_in self.old).input }
        ensures after { TakesMarker self.old code result self.new }
        ensures taken { (reading_of self.new.segments).taken ≡ at }
        ensures keeps { KeepsItems self.old self.new }
    {
        match self.segments.marker(code, at) {
            Ok(SegStep::Whole) => self.segment(),
            Ok(step) => Ok(step),
            Err(stop) => Err(stop),
        }
    }

    // Judges a complete segment.
    #[cold]
    #[inline(never)]
    fn segment(&mut self) -> Result<SegStep, Stop>
        requires short { length (reading_of self.old.segments).contents ≤ 65533 }
        ensures after { JudgesSegment self.old result self.new }
        ensures same { self.new.segments ≡ self.old.segments }
        ensures memory { self.old.held.keeping ≡ Copying.None → self.old.held.scanned ≡ true → result ≡ Err Stop.NoMemory → ⊥ }
        ensures keeps { KeepsItems self.old self.new }
    {
        let code = self.segments.code();
        if code == SOS {
            return Ok(SegStep::Whole);
        }
        let limits = self.segments.limits();
        match self.held.take(limits, code, self.segments.contents()) {
            SegmentTaken::Done => Ok(SegStep::More),
            SegmentTaken::Fault(fault) => Err(Stop::Fault(FaultAt {
                fault,
                at: self.segments.taken(),
            })),
            SegmentTaken::NoMemory => Err(Stop::NoMemory),
        }
    }
}
