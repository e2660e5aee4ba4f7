//! Bits of a store taken one by one.
ghost use Rattle.std.specs.Prelude.{◌≡◌, ◌≤◌, Bool, List};
ghost use Rattle.jpg_coefs.specs.Machine.{Interval, Kind, Step, TakesBits};
ghost use Rattle.jpg_prog_read.specs.BitsTaken.{HurriesOn, KeepsSome};

use jpg_base::BitStore;
use jpg_coefs::{Coefs, Taken, UnitFault, UnitStep};

/// A machine that takes the bits of an interval one by one.
pub trait BitMachine {
    /// What the state of a machine of this kind means.
    ghost kind: { Kind Self };

    /// Takes one more bit of the interval, which has units left.
    fn one_bit(&mut self, bit: bool, coefs: &mut Coefs) -> Result<UnitStep, UnitFault>
        requires open { (i : Interval) × (bits : List Bool) × kind.stands self.old i bits coefs.old }
        ensures step { Step kind self.old coefs.old bit result self.new coefs.new }
        ensures some { KeepsSome result (kind.left self.new) };

    /// Takes bits from the start of a store that complete no unit and reveal no fault, several at once, or none.
    fn hurry(&mut self, store: &mut BitStore, coefs: &Coefs)
        requires open { (i : Interval) × (bits : List Bool) × kind.stands self.old i bits coefs.now }
        ensures { HurriesOn kind self.old coefs.now store.old self.new store.new };

    /// How many units of the interval are left.
    fn count_left(&self) -> u64
        ensures { result ≡ kind.left self.now };
}

/// Takes bits from the start of the store one by one, up to the first that ends the interval, reveals a fault or
/// completes unit number `most`, or all of them.
pub fn take_bits<M: BitMachine>(
    machine: &mut M,
    store: &mut BitStore,
    coefs: &mut Coefs,
    most: u64,
) -> Taken
    requires open { (i : Interval) × (bits : List Bool) × M.kind.stands machine.old i bits coefs.old }
    requires some { 1 ≤ most }
    ensures { TakesBits M.kind most machine.old coefs.old store.old result machine.new coefs.new store.new }
{
    let before = machine.count_left();
    while store.len() > 0 {
        machine.hurry(store, coefs);
        if store.len() == 0 {
            return Taken::More;
        }
        let bit = store.bit(0);
        store.skip(1);
        match machine.one_bit(bit, coefs) {
            Err(fault) => return Taken::Fault(fault),
            Ok(UnitStep::IntervalDone) => return Taken::IntervalDone,
            Ok(UnitStep::More) => {
                if before.saturating_sub(machine.count_left()) >= most {
                    return Taken::Units;
                }
            }
        }
    }
    Taken::More
}
