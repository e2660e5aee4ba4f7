//! The start of a scan: its header, judged by the tables and the scans before it, its machine, its tables and its first
//! interval (T.81, A.2, B.2.3, E.1.4, G.1.1.1).
ghost use Rattle.std.specs.Prelude.{◌≡◌, ◌<◌, ◌≤◌, ◌==◌, if◌then◌else◌, min, false, true, Some};
ghost use Rattle.jpg_spec.specs.Geometry.{is_progressive};
ghost use Rattle.jpg_coefs.specs.Picture.{Picture};
ghost use Rattle.jpg_prog_read.specs.DcNew.{IsBare as IsBareFirst, IsDcHead};
ghost use Rattle.jpg_prog_read.specs.declared.dc_first.DcFirst.{DcFirst as First};
ghost use Rattle.jpg_file.specs.declared.read.machine.ScanReader.TheVariants.{DcFirst as FirstPass};
ghost use Rattle.jpg_file.specs.Read.ScanStart.{CanBegin, HasSizes, IsBareIn, IsBegun, before_data};
ghost use Rattle.jpg_file.specs.Read.Machine.{IsScanHeader};
ghost use Rattle.jpg_file.specs.Read.SegmentState.{segments_view, JudgesHead};

use crate::read::machine::ScanReader;
use crate::read::scan::InScan;
use crate::read::scan_history::ScanHistory;
use crate::read::segment_state::{SegmentState, lacks_table};
use jpg_base::{Frame, ScanHead};
use jpg_huff::{Gate, TableSet};
use jpg_markers::{accepted_heads_are_of_their_frames, read_sos};
use jpg_prog_read::{AcReader, DcFirst, DcRefine};
use jpg_seq::SeqReader;
use jpg_spec::Fault;

/// Puts the scan of a header that breaks no rule into a place, before its first data byte. The tables of its machine
/// are built there.
#[cold]
#[inline(never)]
pub fn begin_data(
    place: &mut Option<InScan>,
    frame: &Frame,
    head: &ScanHead,
    tables: &TableSet,
    interval: u16,
)
    requires { (now : Picture) × HasSizes now × CanBegin frame.now head.now tables.now interval now }
    ensures { IsBegun frame.now head.now tables.now interval place.new }
{
    let all = frame.scan_units(head);
    let units = u64::from(interval) * u64::from(frame.mcu_units(head));
    let first = first_units(units, all);
    put_bare(place, frame, head, tables, units, all - first);
    let Some(scan) = place else {
        unreachable!();
    };
    scan.machine.put_tables(frame, head, tables);
    scan.machine.restart(first);
}

// Puts the scan of this machine into the place. Its intervals have `each` units (0: all units of the scan), and `due`
// come after the first one.
#[inline(always)]
fn put_scan(place: &mut Option<InScan>, machine: ScanReader, each: u64, due: u64)
    ensures { place.new ≡ Some (before_data machine each due) }
{
    *place = Some(InScan {
        gate: Gate::new(),
        machine,
        whole: false,
        interval: each,
        due,
        turn: 0,
    });
}

// Puts the scan of a first pass of DC into the place, without its tables. It remains a call, as does `put_band`, so
// that no scan needs the stack of another kind.
#[cold]
#[inline(never)]
fn put_first(place: &mut Option<InScan>, frame: &Frame, head: &ScanHead, each: u64, due: u64)
    requires { IsDcHead frame.now head.now }
    ensures { (m : First) × (place.new ≡ Some (before_data (FirstPass m) each due)) × IsBareFirst frame.now head.now m }
{
    let machine = DcFirst::bare(frame, head);
    put_scan(place, ScanReader::DcFirst(machine), each, due);
}

// Puts the scan of a band of AC into the place.
#[cold]
#[inline(never)]
fn put_band(
    place: &mut Option<InScan>,
    frame: &Frame,
    head: &ScanHead,
    tables: &TableSet,
    each: u64,
    due: u64,
)
    requires header { IsScanHeader frame.now head.now tables.now }
    requires kind { is_progressive frame.now.process ≡ true }
    requires band { 0 < head.now.ss }
    ensures { IsBareIn frame.now head.now tables.now each due place.new }
{
    let machine = AcReader::new(frame, head, tables);
    put_scan(place, ScanReader::Ac(machine), each, due);
}

// Puts the scan without its tables into the place, by the kind of the scan.
#[cold]
#[inline(never)]
fn put_bare(
    place: &mut Option<InScan>,
    frame: &Frame,
    head: &ScanHead,
    tables: &TableSet,
    each: u64,
    due: u64,
)
    requires { IsScanHeader frame.now head.now tables.now }
    ensures { IsBareIn frame.now head.now tables.now each due place.new }
{
    if !frame.is_progressive() {
        let machine = SeqReader::bare(frame, head);
        put_scan(place, ScanReader::Sequential(machine), each, due);
    } else if head.ss > 0 {
        put_band(place, frame, head, tables, each, due);
    } else if head.ah > 0 {
        let machine = DcRefine::new(frame, head);
        put_scan(place, ScanReader::DcRefine(machine), each, due);
    } else {
        put_first(place, frame, head, each, due);
    }
}

// How many units the first interval has, where each has `all` (0: all units of the scan).
fn first_units(units: u64, all: u64) -> u64
    ensures value { result ≡ (if units == 0 then all else min units all) }
    ensures most { result ≤ all }
    ensures some { 1 ≤ all → 1 ≤ result }
{
    if units == 0 { all } else { units.min(all) }
}

/// The scan header of these contents, or the first fault of the complete segment: those of `read_sos`, RepeatedScan (in
/// a sequential frame: a component was in a scan) or Progression (in a progressive one: it isn't the next scan of each
/// component), MissingTable (a table that it needs isn't there), QuantChanged (the quantisation table of a component
/// isn't the one of its first scan).
pub fn judge_head(
    contents: &[u8],
    frame: &Frame,
    held: &SegmentState,
    begun: &ScanHistory,
) -> Result<ScanHead, Fault>
    ensures { JudgesHead contents.now frame.now (segments_view held.now) begun.now result }
{
    accepted_heads_are_of_their_frames();
    frame.checked();
    let head = read_sos(contents, frame)?;
    if let Some(fault) = begun.fault(frame, &head) {
        return Err(fault);
    }
    if lacks_table(frame, &head, held) {
        return Err(Fault::MissingTable);
    }
    if !begun.are_same(head.parts.as_slice(), frame, &held.quants) {
        return Err(Fault::QuantChanged);
    }
    Ok(head)
}
