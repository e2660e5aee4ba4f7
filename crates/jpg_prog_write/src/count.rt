//! The symbols that a progressive scan writes, counted (T.81, G.1.2.1 to G.1.2.3, K.2).
ghost use Rattle.std.specs.Prelude.{◌≡◌, ◌<◌, ◌≤◌, List, [], All};
ghost use Rattle.jpg_spec.specs.Scan.{part_of as part_in};
ghost use Rattle.jpg_spec_write.specs.Sending.{Sent, ended_bands};
ghost use Rattle.jpg_spec_write.specs.WrittenFile.{HasBlocksIn};
ghost use Rattle.jpg_huff.specs.Counts.{AreCounts, Notes, NotesBut};
ghost use Rattle.jpg_coefs.specs.MarkSinks.{HasSlots, CountsClass, mark_kind, owned_marks, scan_marks};
ghost use Rattle.jpg_prog_write.specs.Bands.{IsBandPart, IsReady, front_elements, elements_left, elements_waiting};
ghost use Rattle.jpg_prog_write.specs.Steps.{PassesValues};
ghost use Rattle.jpg_prog_write.specs.Written.{IsProgScan, given_dc};
ghost use Rattle.jpg_prog_write.specs.Counted.{marks_of};
ghost use Rattle.jpg_prog_write.specs.ScanSinks.{dc_counter, ac_counter};

use crate::ac::{first_slot, no_bands};
use crate::bands::{BandPart, Bands, Waiting, value_from};
use crate::dc::difference;
use crate::numbers::shifted;
use jpg_base::{ScanHead, WriteFault};
use jpg_coefs::{BlockView, GivenUnit, UnitSink, WrittenScan, part_of, put_scan};
use jpg_huff::{SymbolCounts, category};

// Counts the values of a part of a band, where no corrections wait.
#[inline(always)]
fn count_from(part: BandPart<'_>, waiting: &mut Waiting, slot: u8, counts: &mut SymbolCounts)
    requires part { IsBandPart part }
    requires none { waiting.old.items ≡ [] }
    requires counts { AreCounts counts.old }
    requires slot { slot < 2 }
    ensures notes { Notes counts.old (marks_of slot (front_elements part.entry.band part.entry.from part.entry.last part.entry.block.now)) counts.new }
    ensures none { waiting.new.items ≡ [] }
{
    let mut at = part.from;
    while at < part.last {
        match value_from(BandPart { from: at, ..part }, waiting) {
            Some(whole) => {
                counts.count_ac(slot, whole.item.symbol);
                waiting.clear();
                at = whole.at;
            }
            None => return,
        }
    }
}

// Counts the values of a band that is begun up to its last newly sent one, if no EOB run waits before them.
#[inline(always)]
fn count_values(bands: &mut Bands, slot: u8, counts: &mut SymbolCounts)
    requires ready { IsReady bands.old }
    requires counts { AreCounts counts.old }
    requires slot { slot < 2 }
    ensures passes { PassesValues bands.old bands.new }
    ensures counts { AreCounts counts.new }
    ensures notes { (later : List (List Sent)) → NotesBut counts.old (marks_of slot (elements_left bands.old later)) (marks_of slot (elements_left bands.new later)) counts.new }
{
    if bands.bands == 0 {
        let part = BandPart {
            band: bands.band,
            block: &bands.block,
            marks: bands.marks,
            from: bands.at,
            last: bands.last,
        };
        count_from(part, &mut bands.waiting, slot, counts);
        bands.at = bands.last;
    }
}

// Counts all of a band that is begun, except for the EOB run that waits then.
fn count_band(bands: &mut Bands, slot: u8, counts: &mut SymbolCounts)
    requires ready { IsReady bands.old }
    requires counts { AreCounts counts.old }
    requires slot { slot < 2 }
    ensures ready { IsReady bands.new }
    ensures band { bands.new.band ≡ bands.old.band }
    ensures notes { (later : List (List Sent)) → NotesBut counts.old (marks_of slot (elements_left bands.old later)) (marks_of slot (elements_waiting bands.new later)) counts.new }
{
    count_values(bands, slot, counts);
    while let Some(item) = bands.next() {
        counts.count_ac(slot, item.symbol);
        bands.clear();
        count_values(bands, slot, counts);
    }
}

// Counts the EOB run that waits after the last band.
fn count_end(bands: &mut Bands, slot: u8, counts: &mut SymbolCounts)
    requires ready { IsReady bands.old }
    requires counts { AreCounts counts.old }
    requires slot { slot < 2 }
    ensures { Notes counts.old (marks_of slot (ended_bands bands.old.bands bands.old.waiting.items)) counts.new }
{
    match bands.end() {
        Some(item) => counts.count_ac(slot, item.symbol),
        None => {}
    }
}

// Counts the DC difference of a unit, in a first pass.
#[inline(always)]
fn count_unit(head: &ScanHead, unit: GivenUnit<'_>, counts: &mut SymbolCounts)
    requires bits { head.now.al ≤ 13 }
    requires first { head.now.ah ≡ 0 }
    requires slot { (part_in head.now unit.component).dc < 2 }
    requires counts { AreCounts counts.old }
    ensures { Notes counts.old (owned_marks head.now (given_dc head.now unit.entry)) counts.new }
{
    let part = part_of(head, unit.component);
    let value = shifted(unit.block.get(0), head.al);
    let prediction = shifted(unit.last, head.al);
    counts.count_dc(part.dc, category(difference(value, prediction)));
}

/// What counts the DC values of a scan, in a first pass.
#[derive(Drop)]
pub(crate) struct DcCounter<'a> {
    pub(crate) head: &'a ScanHead,
}

impl<'a> UnitSink<SymbolCounts, ()> for DcCounter<'a> {
    ghost kind = { mark_kind dc_counter };

    #[inline(always)]
    fn unit(
        &mut self,
        unit: GivenUnit<'_>,
        counts: &mut SymbolCounts,
        desk: &mut (),
    ) -> Result<(), WriteFault> {
        count_unit(self.head, unit, counts);
        Ok(())
    }

    fn end(
        &mut self,
        marker: Option<u8>,
        counts: &mut SymbolCounts,
        desk: &mut (),
    ) -> Result<(), WriteFault> {
        Ok(())
    }
}

/// What counts the bands of a scan.
#[derive(Drop)]
pub(crate) struct AcCounter<'a> {
    pub(crate) head: &'a ScanHead,
    // the slot of its codes
    pub(crate) slot: u8,
    pub(crate) bands: Bands,
}

impl<'a> UnitSink<SymbolCounts, ()> for AcCounter<'a> {
    ghost kind = { mark_kind ac_counter };

    #[inline(always)]
    fn unit(
        &mut self,
        unit: GivenUnit<'_>,
        counts: &mut SymbolCounts,
        desk: &mut (),
    ) -> Result<(), WriteFault> {
        self.bands.begin(unit.block);
        count_band(&mut self.bands, self.slot, counts);
        Ok(())
    }

    fn end(
        &mut self,
        marker: Option<u8>,
        counts: &mut SymbolCounts,
        desk: &mut (),
    ) -> Result<(), WriteFault> {
        count_end(&mut self.bands, self.slot, counts);
        self.bands = no_bands(self.head);
        Ok(())
    }
}

// Counts the bands of a scan.
fn count_bands<V: BlockView>(view: &V, head: &ScanHead, interval: u16, counts: &mut SymbolCounts)
    requires scan { IsProgScan (V.numbers view.now) head.now }
    requires some { 1 ≤ head.now.ss }
    requires slots { All HasSlots head.now.parts }
    requires blocks { HasBlocksIn (V.numbers view.now) (V.blocks view.now) }
    requires counts { AreCounts counts.old }
    ensures { Notes counts.old (scan_marks (V.numbers view.now) head.now interval (V.blocks view.now)) counts.new }
{
    let mut units = AcCounter {
        head,
        slot: first_slot(head),
        bands: no_bands(head),
    };
    let scan = WrittenScan { head, interval };
    let counted = put_scan(view, scan, &mut units, counts, &mut ());
    let _ = counted;
}

// Counts the DC differences of a scan, in a first pass.
fn count_differences<V: BlockView>(
    view: &V,
    head: &ScanHead,
    interval: u16,
    counts: &mut SymbolCounts,
)
    requires scan { IsProgScan (V.numbers view.now) head.now }
    requires dc { head.now.ss ≡ 0 }
    requires first { head.now.ah ≡ 0 }
    requires slots { All HasSlots head.now.parts }
    requires counts { AreCounts counts.old }
    ensures { Notes counts.old (scan_marks (V.numbers view.now) head.now interval (V.blocks view.now)) counts.new }
{
    let mut units = DcCounter { head };
    let scan = WrittenScan { head, interval };
    let counted = put_scan(view, scan, &mut units, counts, &mut ());
    let _ = counted;
}

/// How often `write_scan` writes each symbol of this scan, by class and slot, at most 2^32 - 1: none of a class that
/// the scan has no codes of. The header names one to four components of the frame, with a band and bits that are
/// allowed and slots 0 or 1; all values are in the frame's bounds. It takes no memory.
pub fn count_scan<V: BlockView>(view: &V, head: &ScanHead, interval: u16) -> SymbolCounts
    requires scan { IsProgScan (V.numbers view.now) head.now }
    requires slots { All HasSlots head.now.parts }
    requires blocks { HasBlocksIn (V.numbers view.now) (V.blocks view.now) }
    ensures dc { CountsClass (V.numbers view.now) head.now interval (V.blocks view.now) 0 result.dc }
    ensures ac { CountsClass (V.numbers view.now) head.now interval (V.blocks view.now) 1 result.ac }
{
    let mut counts = SymbolCounts::none();
    if head.ss > 0 {
        count_bands(view, head, interval, &mut counts);
    } else if head.ah == 0 {
        count_differences(view, head, interval, &mut counts);
    }
    counts
}
