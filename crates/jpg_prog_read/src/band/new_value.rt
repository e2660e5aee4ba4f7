//! A value of a first pass whose bits are all there (T.81, G.1.2.2).
ghost use Rattle.std.specs.Prelude.{◌≤◌, IfSome};
ghost use Rattle.jpg_prog_read.specs.NewValues.{BeginsValue};
ghost use Rattle.jpg_prog_read.specs.ReaderSteps.{IsSaneBand};

use crate::codes::Codes;
use crate::extra::number_of;
use crate::numbers::{Scaled, scaled_within};
use crate::scan::BandScan;
use crate::symbols::{ProgressiveSymbol, judge};
use jpg_base::BitStore;
use jpg_huff::Spotted;

/// A value after a run of zeros, and how many bits its code and its number have.
#[derive(Clone, Copy)]
pub struct NewValue {
    pub length: u8,
    pub run: u8,
    pub value: i16,
}

/// The value that these bits begin with, if its code and its number are complete, `zeros` values of the band are left, all
/// of them zero, and it breaks no rule.
#[inline(always)]
pub fn spot_value(scan: &BandScan, codes: &Codes, zeros: u8, store: &BitStore) -> Option<NewValue>
    requires { IsSaneBand scan.now }
    ensures { IfSome result (BeginsValue scan.now codes.now zeros store.now) }
{
    let Spotted::Symbol { length, symbol } = codes.spot(store) else {
        return None;
    };
    let ProgressiveSymbol::Value { run, size } = judge(scan.most_category, zeros, symbol) else {
        return None;
    };
    if length + size > store.len() {
        return None;
    }
    let number = number_of(size, store.peek_after(length, size));
    match scaled_within(number, scan.scale, scan.most_magnitude) {
        Scaled::Beyond => None,
        Scaled::Within(value) => Some(NewValue {
            length: length + size,
            run,
            value,
        }),
    }
}
