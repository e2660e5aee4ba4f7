//! Corrections of old values, one after another (T.81, G.1.2.3).
ghost use Rattle.jpg_prog_read.specs.Corrected.{CanCorrect, Corrects};

use crate::numbers::corrected;
use crate::scan::BandScan;
use jpg_base::{BitStore, Block};

/// Where a band is corrected.
#[derive(Clone, Copy)]
pub struct Correcting {
    /// The next place, which has an old value.
    pub at: u8,
    /// Bit 0 is 1 if the value at place `at` isn't 0, and so on.
    pub olds: u64,
    /// How many zeros are still to be skipped.
    pub run: u8,
}

/// Takes the corrections of old values from the start of a store, each as far as another old value follows in the band,
/// which ends before place `end`, after no more zeros than are to be skipped. Returns the place of the next one.
#[inline(always)]
pub fn correct(
    values: &mut Block,
    from: Correcting,
    end: u8,
    scan: &BandScan,
    store: &mut BitStore,
) -> Correcting
    requires { CanCorrect scan.now end from values.old }
    ensures { Corrects scan.now end from values.old store.old result values.new store.new }
{
    let mut here = from;
    loop {
        let olds = here.olds >> 1;
        let zeros = olds.trailing_zeros() as u8;
        if zeros > here.run || zeros + 1 >= end - here.at || store.len() == 0 {
            return here;
        }
        let bit = store.bit(0);
        store.skip_few(1);
        let old = values.get(here.at);
        values.set(here.at, corrected(old, scan.scale, bit));
        here = Correcting {
            at: here.at + 1 + zeros,
            olds: olds >> zeros,
            run: here.run - zeros,
        };
    }
}
