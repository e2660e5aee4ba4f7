//! The trait of machines that read the units of a scan, and the faults of units (T.81, F.2.2, G.2).
ghost use Rattle.std.specs.Prelude.{◌≡◌, ◌≤◌, [], Bool, List, ℕ, length};
ghost use Rattle.jpg_coefs.specs.Picture.{Picture};
ghost use Rattle.jpg_coefs.specs.Machine.{Interval, Kind, Step, TakesBits};

use crate::Coefs;
use jpg_base::BitStore;

/// What is wrong with bits, each known at its last bit.
#[derive(Clone, Copy, Debug, PartialEq, Eq)]
pub enum UnitFault {
    /// No code begins with the bits (T.81, F.2.2.3).
    NoCode,
    /// A code whose symbol isn't allowed for an element there: a category above the greatest, or none after a run of 1
    /// to 14 zeros in a sequential scan (F.1.2.1, F.1.2.2, G.1.2).
    BadSymbol,
    /// A code whose run leaves no place for its value up to the end of the band (F.1.2.2, G.1.2).
    BadRun,
    /// A value out of the range that the frame allows (F.1.1.5).
    CoefRange,
    /// An end-of-band run of more bands than the interval has left (G.1.2.2).
    RunPastEnd,
}

/// The result of a bit.
#[derive(Clone, Copy, Debug, PartialEq, Eq)]
pub enum UnitStep {
    /// The interval goes on.
    More,
    /// Its last unit is complete.
    IntervalDone,
}

/// The result of bits of a store.
#[derive(Clone, Copy, Debug, PartialEq, Eq)]
pub enum Taken {
    /// All of them were taken, and the interval goes on.
    More,
    /// As many units as were asked for are complete, and more are left.
    Units,
    /// The last unit of the interval is complete.
    IntervalDone,
    /// The last bit that was taken reveals this fault.
    Fault(UnitFault),
}

/// A machine that reads a scan interval by interval, into the blocks of a picture.
pub trait ScanMachine {
    /// What the state of a machine of this kind means.
    ghost kind: { Kind Self };

    /// Takes one more bit of the interval. Units are left, no fault was returned, and the picture is that of the bits
    /// so far. Blocks change when a unit is complete, each in its band; the bit that reveals a fault changes none.
    fn bit(&mut self, bit: bool, coefs: &mut Coefs) -> Result<UnitStep, UnitFault>
        requires open { (i : Interval) × (bits : List Bool) × kind.stands self.old i bits coefs.old }
        ensures { Step kind self.old coefs.old bit result self.new coefs.new };

    /// Takes bits from the start of the store as `bit` does, up to the first that ends the interval, reveals a fault or
    /// completes unit number `most`, or all of them.
    fn bits(&mut self, store: &mut BitStore, coefs: &mut Coefs, most: u64) -> Taken
        requires open { (i : Interval) × (bits : List Bool) × kind.stands self.old i bits coefs.old }
        requires some { 1 ≤ most }
        ensures { TakesBits kind most self.old coefs.old store.old result self.new coefs.new store.new };

    /// Begins the next interval of the scan, of this many units, with predictions 0 (T.81, F.2.1.3.1) and no bits.
    /// There is no current interval.
    fn restart(&mut self, units: u64)
        requires ready { (i : Interval) × kind.ready self.old i × (length i.places ≡ units) }
        requires some { 1 ≤ units }
        ensures begun { (i : Interval) → kind.ready self.old i → length i.places ≡ units → kind.stands self.new i [] i.before }
        ensures left { kind.left self.new ≡ units };

    /// How many units of the interval are left.
    fn units_left(&self) -> u64
        ensures { result ≡ kind.left self.now };
}
