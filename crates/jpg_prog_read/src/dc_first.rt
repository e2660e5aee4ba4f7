//! The machine that reads a first DC pass (T.81, G.1.2.1).
ghost use Rattle.std.specs.Prelude.{◌≡◌, ◌≤◌, ◌<◌, length, slice_set, All};
ghost use Rattle.jpg_spec.specs.Geometry.{padded_blocks};
ghost use Rattle.jpg_base.specs.Cursor.{IsPadded};
ghost use Rattle.jpg_huff.specs.Sets.{dc_tables, no_tables};
ghost use Rattle.jpg_coefs.specs.Machine.{Interval};
ghost use Rattle.jpg_prog_read.specs.DcFirstPass.{CanRead, HurriesUnit, ReadsBit, first_pass, table_in, with_unit, behind_unit};
ghost use Rattle.jpg_prog_read.specs.DcNew.{AreDcTablesFilled, HasPartTable, IsBare, IsDcHead, IsFirstHead, IsOfFirst};
ghost use Rattle.jpg_prog_read.specs.DcPlaces.{with_dc};
ghost use Rattle.jpg_prog_read.specs.DcWork.{DcStaysOpen};

use crate::dc::{DcStep, DcUnit};
use crate::dc_bits::{BitMachine, take_bits};
use crate::dc_looks::DcLooks;
use crate::dc_units::{dc_scan, put_dc};
use crate::scan::DcScan;
use jpg_base::{BitStore, Cursor, Frame, Place, ScanHead, ScanPart};
use jpg_coefs::{Coefs, ScanMachine, Taken, UnitFault, UnitStep};
use jpg_huff::TableSet;

/// A machine that reads a first DC pass (T.81, G.1.2.1).
#[derive(Drop)]
pub struct DcFirst {
    // The parameters of the scan.
    scan: DcScan,
    // Its DC tables, in the slots of their components.
    tables: TableSet,
    // The lookup of their codes.
    looks: DcLooks,
    // The places that are left.
    cursor: Cursor,
    // The predictions by component.
    predictions: [i16; 4],
    // The current unit.
    unit: DcUnit,
    // How many units of the interval are left.
    left: u64,
}

// Puts the table of a part into the slot of its component.
fn add_table(own: &mut TableSet, part: &ScanPart, tables: &TableSet)
    requires small { part.now.component < 4 }
    requires there { HasPartTable tables.now part.now }
    ensures { dc_tables own.new ≡ slice_set (dc_tables own.old) part.now.component (table_in tables.now part.now.dc) }
{
    match tables.dc(part.dc) {
        Some(table) => own.set_dc(part.component, table),
        None => (),
    }
}

// Puts the tables of the parts into the slots of their components.
#[cold]
#[inline(never)]
fn add_tables(own: &mut TableSet, parts: &[ScanPart], tables: &TableSet)
    requires none { dc_tables own.old ≡ no_tables }
    requires there { All (HasPartTable tables.now) parts.now }
    requires small { All (λ p. p.component < 4) parts.now }
    ensures { AreDcTablesFilled tables.now parts.now (length parts.now) own.new }
{
    for part in parts {
        add_table(own, part, tables);
    }
}

impl DcFirst {
    /// A machine before the first unit of a scan, between intervals. The frame is progressive, the head's components
    /// are distinct ones of it, and the DC tables that it names are there.
    pub fn new(frame: &Frame, head: &ScanHead, tables: &TableSet) -> DcFirst
        requires { IsFirstHead frame.now head.now tables.now }
        ensures { (i : Interval) → IsOfFirst frame.now head.now tables.now i → first_pass.ready result i }
    {
        let mut reader = DcFirst::bare(frame, head);
        reader.put_tables(frame, head, tables);
        reader
    }

    /// A machine without the tables. They take tens of kilobytes, so `put_tables` builds them where the machine is
    /// stored.
    #[inline(always)]
    pub fn bare(frame: &Frame, head: &ScanHead) -> DcFirst
        requires { IsDcHead frame.now head.now }
        ensures { IsBare frame.now head.now result }
    {
        frame.checked();
        DcFirst {
            scan: dc_scan(frame, head.al),
            tables: TableSet::new(),
            looks: DcLooks::none(),
            cursor: Cursor::new(frame, head),
            predictions: [0; 4],
            unit: DcUnit::new(),
            left: 0,
        }
    }

    /// Puts in the tables that the head names.
    pub fn put_tables(&mut self, frame: &Frame, head: &ScanHead, tables: &TableSet)
        requires scan { IsFirstHead frame.now head.now tables.now }
        requires bare { IsBare frame.now head.now self.old }
        ensures { (i : Interval) → IsOfFirst frame.now head.now tables.now i → first_pass.ready self.new i }
    {
        frame.checked();
        add_tables(&mut self.tables, head.parts.as_slice(), tables);
        self.looks.look_up(&self.tables);
    }

    // Takes a bit of the current unit.
    fn unit_bit(&mut self, component: u8, bit: bool) -> DcStep
        requires { CanRead self.old component }
        ensures same { self.new ≡ with_unit self.old self.new.unit }
        ensures open { DcStaysOpen result self.new.unit }
        ensures reads { ReadsBit self.old component bit result self.new.unit }
    {
        match self.tables.dc(component) {
            Some(table) => self.unit.bit(
                &self.scan,
                table,
                self.predictions[component as usize],
                bit,
            ),
            None => DcStep::Fault(UnitFault::NoCode),
        }
    }

    // Takes bits of the current unit after which it goes on.
    fn hurry_unit(&mut self, component: u8, store: &mut BitStore)
        requires { CanRead self.old component }
        ensures same { self.new ≡ with_unit self.old self.new.unit }
        ensures hurries { HurriesUnit self.old component store.old self.new.unit store.new }
    {
        match self.looks.at(component) {
            Some(codes) => self.unit.hurry(&self.scan, codes, store),
            None => {}
        }
    }

    // Puts the value of a complete unit, and begins the next unit.
    fn put(&mut self, coefs: &mut Coefs, place: Place, prediction: i16, value: i16)
        requires small { place.component < 4 }
        requires padded { IsPadded coefs.old.frame place.component place.x place.y }
        requires left { 1 ≤ self.old.left }
        requires place { 1 ≤ length self.old.cursor }
        ensures machine { self.new ≡ behind_unit self.old place.component prediction }
        ensures count { length coefs.old.blocks ≡ padded_blocks coefs.old.frame }
        ensures block { coefs.new ≡ with_dc coefs.old place value }
    {
        put_dc(coefs, place, value);
        self.predictions[place.component as usize] = prediction;
        self.unit = DcUnit::new();
        self.cursor.step();
        self.left -= 1;
    }
}

impl BitMachine for DcFirst {
    ghost kind = { first_pass };

    fn one_bit(&mut self, bit: bool, coefs: &mut Coefs) -> Result<UnitStep, UnitFault> {
        let place = self.cursor.place();
        match self.unit_bit(place.component, bit) {
            DcStep::More => Ok(UnitStep::More),
            DcStep::Fault(fault) => Err(fault),
            DcStep::Done { prediction, value } => {
                self.put(coefs, place, prediction, value);
                if self.left == 0 {
                    Ok(UnitStep::IntervalDone)
                } else {
                    Ok(UnitStep::More)
                }
            }
        }
    }

    fn hurry(&mut self, store: &mut BitStore, _coefs: &Coefs) {
        let place = self.cursor.place();
        self.hurry_unit(place.component, store);
    }

    fn count_left(&self) -> u64 {
        self.left
    }
}

impl ScanMachine for DcFirst {
    ghost kind = { first_pass };

    fn bit(&mut self, bit: bool, coefs: &mut Coefs) -> Result<UnitStep, UnitFault> {
        self.one_bit(bit, coefs)
    }

    fn bits(&mut self, store: &mut BitStore, coefs: &mut Coefs, most: u64) -> Taken {
        take_bits(self, store, coefs, most)
    }

    // PRED is 0 at the start of each interval (T.81, F.2.1.3.1).
    fn restart(&mut self, units: u64) {
        self.predictions = [0; 4];
        self.unit = DcUnit::new();
        self.left = units;
    }

    fn units_left(&self) -> u64 {
        self.left
    }
}
