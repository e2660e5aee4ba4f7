//! The machine that reads a DC refinement (T.81, G.1.2.1).
ghost use Rattle.std.specs.Prelude.{◌≡◌, ◌≤◌, length};
ghost use Rattle.jpg_spec.specs.Geometry.{padded_blocks};
ghost use Rattle.jpg_base.specs.Cursor.{IsPadded};
ghost use Rattle.jpg_coefs.specs.Machine.{Interval};
ghost use Rattle.jpg_prog_read.specs.DcNew.{IsRefineHead, IsOfRefinement};
ghost use Rattle.jpg_prog_read.specs.DcPlaces.{with_dc};
ghost use Rattle.jpg_prog_read.specs.DcRefinement.{refinement, after_bit};

use crate::dc::refine;
use crate::dc_bits::{BitMachine, take_bits};
use crate::dc_units::{dc_of, dc_scan, put_dc};
use crate::scan::DcScan;
use jpg_base::{BitStore, Cursor, Frame, Place, ScanHead};
use jpg_coefs::{Coefs, ScanMachine, Taken, UnitFault, UnitStep};

/// A machine that reads a DC refinement: its parameters, the places that are left, and how many units of the interval
/// are left. Each unit is one bit.
#[derive(Drop)]
pub struct DcRefine {
    scan: DcScan,
    cursor: Cursor,
    left: u64,
}

impl DcRefine {
    /// A machine before the first unit of a scan, between intervals. The frame is progressive, and the head's
    /// components are distinct ones of it.
    pub fn new(frame: &Frame, head: &ScanHead) -> DcRefine
        requires { IsRefineHead frame.now head.now }
        ensures { (i : Interval) → IsOfRefinement frame.now head.now i → refinement.ready result i }
    {
        frame.checked();
        DcRefine {
            scan: dc_scan(frame, head.al),
            cursor: Cursor::new(frame, head),
            left: 0,
        }
    }

    // Puts the value of a complete unit, and begins the next unit.
    fn put(&mut self, coefs: &mut Coefs, place: Place, value: i16)
        requires padded { IsPadded coefs.old.frame place.component place.x place.y }
        requires left { 1 ≤ self.old.left }
        requires place { 1 ≤ length self.old.cursor }
        ensures machine { self.new ≡ after_bit self.old }
        ensures count { length coefs.old.blocks ≡ padded_blocks coefs.old.frame }
        ensures block { coefs.new ≡ with_dc coefs.old place value }
    {
        put_dc(coefs, place, value);
        self.cursor.step();
        self.left -= 1;
    }
}

impl BitMachine for DcRefine {
    ghost kind = { refinement };

    fn one_bit(&mut self, bit: bool, coefs: &mut Coefs) -> Result<UnitStep, UnitFault> {
        let place = self.cursor.place();
        let value = refine(&self.scan, dc_of(coefs, place), bit);
        self.put(coefs, place, value);
        if self.left == 0 {
            Ok(UnitStep::IntervalDone)
        } else {
            Ok(UnitStep::More)
        }
    }

    fn hurry(&mut self, _store: &mut BitStore, _coefs: &Coefs) {}

    fn count_left(&self) -> u64 {
        self.left
    }
}

impl ScanMachine for DcRefine {
    ghost kind = { refinement };

    fn bit(&mut self, bit: bool, coefs: &mut Coefs) -> Result<UnitStep, UnitFault> {
        self.one_bit(bit, coefs)
    }

    fn bits(&mut self, store: &mut BitStore, coefs: &mut Coefs, most: u64) -> Taken {
        take_bits(self, store, coefs, most)
    }

    fn restart(&mut self, units: u64) {
        self.left = units;
    }

    fn units_left(&self) -> u64 {
        self.left
    }
}
