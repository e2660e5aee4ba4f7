//! What the segments of a file define (T.81, B.2).
ghost use Rattle.std.specs.Prelude.{◌≡◌, ◌≤◌, ◌==◌, ◌&&◌, ◌<◌, All, is_none, true, List, [], length, Some, None};
ghost use Rattle.jpg_spec.specs.FrameHeader.{AreLimits};
ghost use Rattle.jpg_spec.specs.Markers.{Segment, process_of_code};
ghost use Rattle.jpg_spec.specs.declared.frame.Limits.{Limits as Bounded};
ghost use Rattle.jpg_file.specs.Read.SegmentState.{is_wanted, Holds, HoldsSegment, KeepsSegments, TakesSegment, lacks_any, lacks_part, segments_view};
ghost use Rattle.jpg_markers.specs.Seen.{IsOther};

use jpg_base::codes::{COM, DHT, DQT, DRI, SOF0, SOF1, SOF2};
use jpg_base::{Frame, Limits, NoMemory, ScanHead};
use jpg_huff::DefinitionSet;
use jpg_markers::{
    App, Jfif, KeptList, QuantSet, is_header, is_kept, read_app, read_dht, read_dqt, read_dri,
    read_sof,
};
use jpg_spec::{Copying, Fault, Process, ScanPart};
use std::alloc::Global;

/// What the segments so far define (T.81, B.2.4: what is in force).
#[derive(Drop)]
pub struct SegmentState {
    /// The frame, once its header was read.
    pub frame: Option<Frame>,
    /// The Huffman tables in force.
    pub tables: DefinitionSet,
    /// The quantisation tables in force.
    pub quants: QuantSet,
    /// The restart interval in MCUs; 0: none.
    pub interval: u16,
    /// A scan header was read.
    pub scanned: bool,
    /// Which markers are to be kept.
    pub keeping: Copying,
    /// Those that are kept.
    pub kept: KeptList,
    /// The last JFIF header.
    pub jfif: Jfif,
}

/// The result of a segment.
pub enum SegmentTaken {
    /// Its definitions are in force.
    Done,
    /// Its contents break this rule.
    Fault(Fault),
    /// There is no memory for what is kept of it.
    NoMemory,
}

impl SegmentState {
    /// The state before any segment.
    pub fn new(alloc: Global, keeping: Copying) -> SegmentState
        ensures holds { (limits : Bounded) → Holds limits (segments_view result) [] }
        ensures keeping { result.keeping ≡ keeping }
    {
        SegmentState {
            frame: None,
            tables: DefinitionSet::new(),
            quants: QuantSet::new(),
            interval: 0,
            scanned: false,
            keeping,
            kept: KeptList::new(alloc),
            jfif: Jfif {
                seen: false,
                major: 1,
                minor: 1,
                unit: 0,
                x: 1,
                y: 1,
            },
        }
    }

    /// Takes a complete segment of this marker code that isn't a scan header and whose kept bytes are within their
    /// limit. After a fault, and if there is no memory for a segment that is to be kept, nothing has changed.
    pub fn take(&mut self, limits: Limits, code: u8, contents: &[u8]) -> SegmentTaken
        requires limits { AreLimits limits }
        requires other { code ≡ 0xda → ⊥ }
        requires short { length contents.now ≤ 65533 }
        ensures held { HoldsSegment (segments_view self.old) limits code contents.now result (segments_view self.new) }
        ensures keeps { KeepsSegments self.old code contents.now result self.new }
    {
        match code {
            DHT => match read_dht(contents, &mut self.tables) {
                Ok(()) => SegmentTaken::Done,
                Err(fault) => SegmentTaken::Fault(fault),
            },
            DQT => match read_dqt(contents, &mut self.quants) {
                Ok(()) => SegmentTaken::Done,
                Err(fault) => SegmentTaken::Fault(fault),
            },
            DRI => match read_dri(contents) {
                Ok(interval) => {
                    self.interval = interval;
                    SegmentTaken::Done
                }
                Err(fault) => SegmentTaken::Fault(fault),
            },
            SOF0 => self.take_frame(limits, SOF0, Process::Baseline, contents),
            SOF1 => self.take_frame(limits, SOF1, Process::Extended, contents),
            SOF2 => self.take_frame(limits, SOF2, Process::Progressive, contents),
            _ => self.take_other(limits, code, contents),
        }
    }

    fn take_frame(
        &mut self,
        limits: Limits,
        code: u8,
        process: Process,
        contents: &[u8],
    ) -> SegmentTaken
        requires limits { AreLimits limits }
        requires process { process_of_code code ≡ Some process }
        ensures held { (before : List Segment) → Holds limits (segments_view self.old) before → TakesSegment limits before code contents.now result (segments_view self.new) }
        ensures keeps { KeepsSegments self.old code contents.now result self.new }
    {
        match read_sof(process, contents, &limits) {
            Ok(frame) => {
                self.frame = Some(frame);
                SegmentTaken::Done
            }
            Err(fault) => SegmentTaken::Fault(fault),
        }
    }

    // Keeps application segments and comments that are to be kept. Other segments define nothing.
    fn take_other(&mut self, limits: Limits, code: u8, contents: &[u8]) -> SegmentTaken
        requires other { IsOther code }
        requires short { length contents.now ≤ 65533 }
        ensures held { HoldsSegment (segments_view self.old) limits code contents.now result (segments_view self.new) }
        ensures keeps { KeepsSegments self.old code contents.now result self.new }
    {
        if !is_kept(self.scanned, code, contents) {
            return SegmentTaken::Done;
        }
        if !is_wanted(self.keeping, code, contents) {
            return SegmentTaken::Done;
        }
        match self.kept.push(code, contents) {
            Err(NoMemory) => SegmentTaken::NoMemory,
            Ok(()) => {
                if let App::Jfif(jfif) = read_app(code, contents) {
                    self.jfif = jfif;
                }
                SegmentTaken::Done
            }
        }
    }
}

// Whether a table that this part of a scan needs isn't there.
fn lacks_one(frame: &Frame, head: &ScanHead, held: &SegmentState, part: ScanPart) -> bool
    requires { part.component < length frame.now.components }
    ensures { result ≡ lacks_part (segments_view held.now) frame.now head.now part }
{
    let quant = frame.component(part.component).quant;
    let first = head.ss == 0 && head.ah == 0;
    held.quants.get(quant).is_none()
        || (!frame.is_progressive() || first) && !held.tables.has_dc(part.dc)
        || (!frame.is_progressive() || 0 < head.ss) && !held.tables.has_ac(part.ac)
}

/// Whether a table that a scan with this header needs isn't there.
pub fn lacks_table(frame: &Frame, head: &ScanHead, held: &SegmentState) -> bool
    requires { All (λ p. p.component < length frame.now.components) head.now.parts }
    ensures { result ≡ lacks_any (segments_view held.now) frame.now head.now }
{
    let mut rest = head.parts.as_slice();
    while let [part, tail @ ..] = rest {
        if lacks_one(frame, head, held, *part) {
            return true;
        }
        rest = tail;
    }
    false
}

// Whether a marker is passed on, or begins as one that determines the colours or the density.
fn is_wanted(keeping: Copying, code: u8, contents: &[u8]) -> bool
    ensures { result ≡ is_wanted keeping (code, contents.now) }
{
    match keeping {
        Copying::None => is_header(code, contents),
        Copying::Comments => code == COM || is_header(code, contents),
        Copying::All => true,
    }
}
