//! The machine that reads a progressive AC scan: a first pass (T.81, G.1.2.2) or a refinement (G.1.2.3).
ghost use Rattle.std.specs.Prelude.{◌≡◌, ◌≤◌, ◌+◌, true, false, [], Bool, List, Some, Ok, length};
ghost use Rattle.jpg_spec.specs.Geometry.{bounds};
ghost use Rattle.jpg_huff.specs.declared.table.Table.{Table};
ghost use Rattle.jpg_huff.specs.Sets.{ac_tables, in_slot};
ghost use Rattle.jpg_huff.specs.Tables.{symbol_codes};
ghost use Rattle.jpg_prog_read.specs.NewAcReader.{HasAcTable, IsAcScan, IsOfAcScan, IsBandOf};
ghost use Rattle.jpg_coefs.specs.Machine.{Interval, TakesBits};
ghost use Rattle.jpg_coefs.specs.Picture.{Picture};
ghost use Rattle.jpg_prog_read.specs.RepresentsAcScan.{IsInUnit, HasWhole, IsBetweenUnits, RepresentsAcScan, ReadsBit, PutsUnit, TakesQuietly, TakesUnit, NextIsEmpty, NextHasSome, PassesUnit, PassesUnits, Settles, BandsGoOn, progressive_ac, with_unit_of};
ghost use Rattle.jpg_prog_read.specs.BandBits.{TakesBand};
ghost use Rattle.jpg_prog_read.specs.InWork.{HasNothing};
ghost use Rattle.jpg_prog_read.specs.ReaderSteps.{IsSaneBand};
ghost use Rattle.jpg_prog_read.specs.declared.stage.Stage.TheVariants as stages;

use crate::band::{BandReader, BandStep};
use crate::codes::Codes;
use crate::places::Places;
use crate::scan::BandScan;
use jpg_base::{BitStore, Block, Frame, ScanHead, ScanPart};
use jpg_coefs::{Coefs, ScanMachine, Taken, UnitFault, UnitStep};
use jpg_huff::TableSet;

/// A machine that reads a progressive AC scan (T.81, G.1.2.2, G.1.2.3).
#[derive(Drop)]
pub struct AcReader {
    // The parameters of the scan.
    scan: BandScan,
    // The codes of its table.
    codes: Codes,
    // The places that are left.
    cursor: Places,
    // The current unit.
    unit: BandReader,
    // How many units of the interval are left.
    left: u64,
    // The first of them wasn't begun yet.
    fresh: bool,
}

// The band of a header.
fn band_of(frame: &Frame, head: &ScanHead) -> BandScan
    requires end { head.now.se ≤ 63 }
    requires scale { head.now.al ≤ (bounds frame.now).al }
    ensures { IsBandOf frame.now head.now result }
{
    let bounds = frame.bounds();
    BandScan {
        start: head.ss,
        end: head.se + 1,
        scale: 1 << head.al,
        most_category: if head.ah > 0 { 1 } else { bounds.ac_cat },
        most_magnitude: bounds.ac as u16,
        refines: head.ah > 0,
    }
}

// Whether the band of this block has nothing.
#[inline(always)]
fn has_nothing(scan: &BandScan, block: &Block) -> bool
    requires { IsSaneBand scan.now }
    ensures none { result ≡ true → HasNothing scan.now block.now }
    ensures some { HasNothing scan.now block.now → result ≡ true }
{
    block.long();
    let olds = block.nonzero() >> scan.start;
    olds % (1 << (scan.end - scan.start)) == 0
}

// The codes of the header's component.
fn codes_in(tables: &TableSet, part: &ScanPart) -> Codes
    requires { HasAcTable tables.now part.now }
    ensures { (table : Table) × (in_slot (ac_tables tables.now) part.now.ac ≡ Some table) × (result ≡ symbol_codes table) }
{
    let Some(table) = tables.ac(part.ac) else {
        unreachable!();
    };
    Codes::new(table)
}

impl AcReader {
    /// A machine before the first unit of a scan, between intervals. The frame is progressive, the head names a band of
    /// AC of one component of it, and that component's table is there.
    pub fn new(frame: &Frame, head: &ScanHead, tables: &TableSet) -> AcReader
        requires { IsAcScan frame.now head.now tables.now }
        ensures { (i : Interval) → IsOfAcScan frame.now head.now tables.now i → progressive_ac.ready result i }
    {
        frame.checked();
        AcReader {
            scan: band_of(frame, head),
            codes: codes_in(tables, &head.parts[0]),
            cursor: Places::new(frame, head),
            unit: BandReader::new(),
            left: 0,
            fresh: true,
        }
    }

    // Takes a bit of the current unit.
    fn unit_bit(&mut self, bit: bool) -> BandStep
        requires { (i : Interval) × (bits : List Bool) × (now : Picture) × IsInUnit self.old i bits now }
        ensures { ReadsBit self.old bit result self.new }
    {
        self.unit.bit(&self.scan, &self.codes, self.left, bit)
    }

    // Puts the block of a complete unit at its place.
    fn put(&mut self, coefs: &mut Coefs)
        requires { (i : Interval) × (bits : List Bool) × HasWhole self.old i bits coefs.old }
        ensures count { self.new.left + 1 ≡ self.old.left }
        ensures puts { PutsUnit self.old coefs.old self.new coefs.new }
    {
        coefs.checked();
        let place = self.cursor.place();
        let block = self.unit.block();
        coefs.set_block(place.component, place.x, place.y, &block);
        self.cursor.step();
        self.left -= 1;
    }

    // Begins the next unit.
    fn take(&mut self, coefs: &Coefs) -> BandStep
        requires between { (i : Interval) × (bits : List Bool) × IsBetweenUnits self.old i bits coefs.now }
        requires some { 1 ≤ self.old.left }
        ensures first { self.old.unit.stage ≡ stages.Code → result ≡ BandStep.More }
        ensures count { self.new.left ≡ self.old.left }
        ensures begun { self.new.fresh ≡ false }
        ensures takes { TakesUnit self.old coefs.now result self.new }
        ensures quiet { TakesQuietly self.old coefs.now result }
    {
        self.fresh = false;
        let place = self.cursor.place();
        let block = coefs.block(place.component, place.x, place.y);
        self.unit.start(&self.scan, &block)
    }

    // Whether the band of the next unit has nothing.
    #[inline(always)]
    fn is_next_empty(&self, coefs: &Coefs) -> bool
        requires between { (i : Interval) × (bits : List Bool) × IsBetweenUnits self.now i bits coefs.now }
        requires some { 1 ≤ self.now.left }
        ensures none { result ≡ true → (i : Interval) (bits : List Bool) → IsBetweenUnits self.now i bits coefs.now → NextIsEmpty self.now i }
        ensures some { result ≡ false → NextHasSome self.now coefs.now }
    {
        let place = self.cursor.place();
        let seen = coefs.block(place.component, place.x, place.y);
        has_nothing(&self.scan, &seen)
    }

    // Passes the next unit of an end-of-band run, whose band has nothing.
    #[inline(always)]
    fn pass_unit(&mut self)
        requires some { 1 ≤ self.old.left }
        requires there { 1 ≤ length self.old.cursor }
        requires ends { (self.old.unit.stage ≡ stages.Ends) × (1 ≤ self.old.unit.bands) }
        ensures count { self.new.left + 1 ≡ self.old.left }
        ensures passes { PassesUnit self.old self.new }
    {
        self.cursor.step();
        self.left -= 1;
        self.unit.pass_band();
    }

    // Passes the units of an end-of-band run whose bands have nothing, one after another: nothing changes in them.
    #[inline(never)]
    fn pass_seen(&mut self, coefs: &Coefs)
        requires { (i : Interval) × (bits : List Bool) × IsBetweenUnits self.old i bits coefs.now }
        ensures count { self.new.left ≤ self.old.left }
        ensures passes { PassesUnits self.old coefs.now self.new }
        ensures stops { self.new.unit.stage ≡ stages.Ends → 1 ≤ self.new.left → NextHasSome self.new coefs.now }
    {
        while self.left > 0 && self.unit.is_ending() {
            if !self.is_next_empty(coefs) {
                return;
            }
            self.pass_unit();
        }
    }

    // Passes the units of an end-of-band run of a first pass, in which no band has anything yet (T.81, G.1.1.1).
    fn pass_run(&mut self)
        requires between { (i : Interval) × (bits : List Bool) × (now : Picture) × IsBetweenUnits self.old i bits now }
        requires ends { self.old.unit.stage ≡ stages.Ends }
        requires first { self.old.scan.refines ≡ false }
        ensures count { self.new.left ≤ self.old.left }
        ensures passes { (now : Picture) → PassesUnits self.old now self.new }
        ensures over { self.new.unit.stage ≡ stages.Code }
    {
        let bands = self.unit.end_run();
        self.cursor.skip(bands);
        self.left -= u64::from(bands);
    }

    // Passes the units of an end-of-band run, if there is one, as far as their bands have nothing.
    #[inline(always)]
    fn pass(&mut self, coefs: &Coefs)
        requires { (i : Interval) × (bits : List Bool) × IsBetweenUnits self.old i bits coefs.now }
        ensures count { self.new.left ≤ self.old.left }
        ensures passes { PassesUnits self.old coefs.now self.new }
        ensures stops { self.new.unit.stage ≡ stages.Ends → 1 ≤ self.new.left → NextHasSome self.new coefs.now }
    {
        if self.unit.is_ending() {
            if self.scan.refines {
                self.pass_seen(coefs);
            } else {
                self.pass_run();
            }
        }
    }

    // Goes on after a complete unit: an end-of-band run may complete further ones.
    fn go_on(&mut self, coefs: &mut Coefs) -> Result<UnitStep, UnitFault>
        requires { (i : Interval) × (bits : List Bool) × HasWhole self.old i bits coefs.old }
        ensures begun { result ≡ Ok UnitStep.More → self.new.fresh ≡ false }
        ensures goes { BandsGoOn self.old coefs.old result self.new coefs.new }
    {
        loop {
            self.put(coefs);
            self.pass(coefs);
            if self.left == 0 {
                return Ok(UnitStep::IntervalDone);
            }
            match self.take(coefs) {
                BandStep::More => return Ok(UnitStep::More),
                BandStep::Fault(fault) => return Err(fault),
                BandStep::Done => {}
            }
        }
    }

    // Begins the first unit, if it wasn't begun yet.
    fn settle(&mut self, coefs: &Coefs)
        requires { (i : Interval) × (bits : List Bool) × RepresentsAcScan self.old i bits coefs.now }
        ensures begun { self.new.fresh ≡ false }
        ensures count { self.new.left ≡ self.old.left }
        ensures settles { Settles self.old coefs.now self.new }
    {
        if self.fresh {
            let _ = self.take(coefs);
        }
    }
}

impl AcReader {
    // Takes bits of the current unit from the start of a store.
    #[inline(always)]
    fn unit_bits(&mut self, store: &mut BitStore) -> BandStep
        requires unit { (i : Interval) × (bits : List Bool) × (now : Picture) × IsInUnit self.old i bits now }
        requires some { 1 ≤ length store.old }
        ensures same { self.new ≡ with_unit_of self.old self.new.unit }
        ensures takes { TakesBand self.old.scan self.old.codes self.old.left self.old.unit store.old result self.new.unit store.new }
        ensures all { result ≡ BandStep.More → store.new ≡ [] }
    {
        self.unit.take(&self.scan, &self.codes, self.left, store)
    }

    // Takes bits of a store, as `bits` does, where the first unit was begun.
    #[inline(always)]
    fn read(&mut self, store: &mut BitStore, coefs: &mut Coefs, most: u64) -> Taken
        requires begun { self.old.fresh ≡ false }
        requires open { (i : Interval) × (bits : List Bool) × RepresentsAcScan self.old i bits coefs.old }
        requires some { 1 ≤ most }
        ensures { TakesBits progressive_ac most self.old coefs.old store.old result self.new coefs.new store.new }
    {
        let all = self.left;
        while store.len() > 0 {
            match self.unit_bits(store) {
                BandStep::More => return Taken::More,
                BandStep::Fault(fault) => return Taken::Fault(fault),
                BandStep::Done => match self.go_on(coefs) {
                    Err(fault) => return Taken::Fault(fault),
                    Ok(UnitStep::IntervalDone) => return Taken::IntervalDone,
                    Ok(UnitStep::More) => {
                        if all.saturating_sub(self.left) >= most {
                            return Taken::Units;
                        }
                    }
                },
            }
        }
        Taken::More
    }
}

impl ScanMachine for AcReader {
    ghost kind = { progressive_ac };

    fn bit(&mut self, bit: bool, coefs: &mut Coefs) -> Result<UnitStep, UnitFault> {
        self.settle(coefs);
        match self.unit_bit(bit) {
            BandStep::More => Ok(UnitStep::More),
            BandStep::Fault(fault) => Err(fault),
            BandStep::Done => self.go_on(coefs),
        }
    }

    fn bits(&mut self, store: &mut BitStore, coefs: &mut Coefs, most: u64) -> Taken {
        if store.len() == 0 {
            return Taken::More;
        }
        self.settle(coefs);
        let mut here = store.copy();
        let taken = self.read(&mut here, coefs, most);
        *store = here;
        taken
    }

    fn restart(&mut self, units: u64) {
        self.unit = BandReader::new();
        self.left = units;
        self.fresh = true;
    }

    fn units_left(&self) -> u64 {
        self.left
    }
}
