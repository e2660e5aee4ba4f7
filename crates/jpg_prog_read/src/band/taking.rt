//! Bits of a band's unit, taken from a store (T.81, G.1.2.2, G.1.2.3).
ghost use Rattle.std.specs.Prelude.{◌≡◌, ◌≤◌, pos, false, [], length, slice_index_or, ℕ, List};
ghost use Rattle.jpg_spec.specs.Codes.{Code};
ghost use Rattle.jpg_spec.specs.Elements.{is_zero, zeros};
ghost use Rattle.jpg_prog_read.specs.InWork.{IsOpenBand, IsPassing};
ghost use Rattle.jpg_prog_read.specs.ReaderSteps.{IsSaneBand};
ghost use Rattle.jpg_prog_read.specs.BandBits.{TakesBand};

use crate::band::correcting::{Correcting, correct};
use crate::band::new_value::spot_value;
use crate::band::{BandReader, BandStep};
use crate::codes::Codes;
use crate::scan::BandScan;
use crate::stage::Stage;
use jpg_base::BitStore;
use jpg_huff::Spotted;

impl BandReader {
    // Takes one bit from the start of a store.
    #[cold]
    #[inline(never)]
    fn take_bit(
        &mut self,
        scan: &BandScan,
        codes: &Codes,
        left: u64,
        store: &mut BitStore,
    ) -> BandStep
        requires sane { IsSaneBand scan.now }
        requires open { IsOpenBand scan.now self.old }
        requires some { 1 ≤ length store.old }
        ensures { TakesBand scan.now codes.now left self.old store.old result self.new store.new }
    {
        let bit = store.bit(0);
        store.skip(1);
        self.bit(scan, codes, left, bit)
    }

    // Takes one bit from the start of a store, which goes there and back as a copy, so that it can stay in registers.
    #[inline(always)]
    fn take_one(
        &mut self,
        scan: &BandScan,
        codes: &Codes,
        left: u64,
        store: &mut BitStore,
    ) -> BandStep
        requires sane { IsSaneBand scan.now }
        requires open { IsOpenBand scan.now self.old }
        requires some { 1 ≤ length store.old }
        ensures { TakesBand scan.now codes.now left self.old store.old result self.new store.new }
    {
        let mut here = store.copy();
        let step = self.take_bit(scan, codes, left, &mut here);
        *store = here;
        step
    }

    // Takes a complete code if the bits begin with one and none is begun, or one bit.
    #[inline(always)]
    fn take_code(
        &mut self,
        scan: &BandScan,
        codes: &Codes,
        left: u64,
        store: &mut BitStore,
    ) -> BandStep
        requires sane { IsSaneBand scan.now }
        requires open { IsOpenBand scan.now self.old }
        requires stage { self.old.stage ≡ Stage.Code }
        requires some { 1 ≤ length store.old }
        ensures { TakesBand scan.now codes.now left self.old store.old result self.new store.new }
    {
        if self.begun {
            return self.take_one(scan, codes, left, store);
        }
        match codes.spot(store) {
            Spotted::Symbol { length, symbol } => {
                store.skip_few(length);
                self.symbol(scan, symbol)
            }
            Spotted::Part => self.take_one(scan, codes, left, store),
            Spotted::NoCode { .. } => self.take_one(scan, codes, left, store),
        }
    }

    // Takes all bits of a number if they are there and none was taken, or one bit.
    #[inline(always)]
    fn take_number(
        &mut self,
        scan: &BandScan,
        codes: &Codes,
        left: u64,
        store: &mut BitStore,
    ) -> BandStep
        requires sane { IsSaneBand scan.now }
        requires open { IsOpenBand scan.now self.old }
        requires stage { self.old.stage ≡ Stage.Number }
        requires some { 1 ≤ length store.old }
        ensures { TakesBand scan.now codes.now left self.old store.old result self.new store.new }
    {
        let size = self.extra.size();
        if self.extra.is_new() && size <= store.len() {
            self.extra.fill(size, store.peek(size));
            store.skip_few(size);
            return self.number(scan);
        }
        self.take_one(scan, codes, left, store)
    }

    // Takes a complete element, as far as its bits are there, or one bit.
    #[inline(always)]
    fn take_element(
        &mut self,
        scan: &BandScan,
        codes: &Codes,
        left: u64,
        store: &mut BitStore,
    ) -> BandStep
        requires sane { IsSaneBand scan.now }
        requires open { IsOpenBand scan.now self.old }
        requires stage { self.old.stage ≡ Stage.Code }
        requires some { 1 ≤ length store.old }
        ensures { TakesBand scan.now codes.now left self.old store.old result self.new store.new }
    {
        match self.take_code(scan, codes, left, store) {
            BandStep::More => {
                if store.len() == 0 {
                    return BandStep::More;
                }
                match self.stage() {
                    Stage::Number => self.take_number(scan, codes, left, store),
                    _ => BandStep::More,
                }
            }
            BandStep::Done => BandStep::Done,
            BandStep::Fault(fault) => BandStep::Fault(fault),
        }
    }

    // Takes a complete value, or what `take_element` takes, where all values that are left are zero (a first pass, T.81,
    // G.1.2.2).
    #[inline(always)]
    fn take_new_value(
        &mut self,
        scan: &BandScan,
        codes: &Codes,
        left: u64,
        store: &mut BitStore,
    ) -> BandStep
        requires sane { IsSaneBand scan.now }
        requires open { IsOpenBand scan.now self.old }
        requires stage { self.old.stage ≡ Stage.Code }
        requires quiet { self.old.walked ≡ [] }
        requires none { self.old.rest ≡ zeros (length self.old.rest) }
        requires some { 1 ≤ length store.old }
        ensures { TakesBand scan.now codes.now left self.old store.old result self.new store.new }
    {
        match spot_value(scan, codes, self.values_left(), store) {
            None => self.take_element(scan, codes, left, store),
            Some(new) => {
                store.skip_few(new.length);
                self.put_after(new.run, new.value);
                self.covered()
            }
        }
    }

    // Takes the correction of an old value from the start of a store.
    #[inline(always)]
    fn take_correction(&mut self, scan: &BandScan, store: &mut BitStore) -> BandStep
        requires sane { IsSaneBand scan.now }
        requires open { IsOpenBand scan.now self.old }
        requires passing { IsPassing self.old.stage self.old }
        requires old { is_zero (slice_index_or self.old.rest 0 (pos 0)) ≡ false }
        requires some { 1 ≤ length store.old }
        ensures { (ac : List Code) (left : ℕ) → TakesBand scan.now ac left self.old store.old result self.new store.new }
    {
        let bit = store.bit(0);
        store.skip(1);
        self.correction_bit(scan, bit)
    }

    // Takes corrections of old values from the start of a store: as far as another one follows, and one more.
    #[inline(always)]
    fn take_corrections(&mut self, scan: &BandScan, store: &mut BitStore) -> BandStep
        requires sane { IsSaneBand scan.now }
        requires open { IsOpenBand scan.now self.old }
        requires passing { IsPassing self.old.stage self.old }
        requires some { 1 ≤ length store.old }
        ensures { (ac : List Code) (left : ℕ) → TakesBand scan.now ac left self.old store.old result self.new store.new }
    {
        let from = Correcting {
            at: self.at,
            olds: self.olds,
            run: self.run,
        };
        let next = correct(&mut self.values, from, self.end, scan, store);
        self.at = next.at;
        self.olds = next.olds;
        self.run = next.run;
        if store.len() == 0 {
            BandStep::More
        } else {
            self.take_correction(scan, store)
        }
    }

    // Takes some bits from the start of a store.
    #[inline(always)]
    fn take_some(
        &mut self,
        scan: &BandScan,
        codes: &Codes,
        left: u64,
        store: &mut BitStore,
    ) -> BandStep
        requires sane { IsSaneBand scan.now }
        requires open { IsOpenBand scan.now self.old }
        requires some { 1 ≤ length store.old }
        ensures { TakesBand scan.now codes.now left self.old store.old result self.new store.new }
    {
        match self.stage() {
            Stage::Code => {
                if self.is_fresh() {
                    self.take_new_value(scan, codes, left, store)
                } else {
                    self.take_element(scan, codes, left, store)
                }
            }
            Stage::Number => self.take_number(scan, codes, left, store),
            Stage::Count => self.take_one(scan, codes, left, store),
            Stage::Value => self.take_corrections(scan, store),
            Stage::Long => self.take_corrections(scan, store),
            Stage::Ends => self.take_corrections(scan, store),
        }
    }

    /// Takes bits from the start of a store, up to the one that completes the unit or reveals a fault, or all of them.
    /// `left` is how many units are left, including this one.
    #[inline(always)]
    pub fn take(
        &mut self,
        scan: &BandScan,
        codes: &Codes,
        left: u64,
        store: &mut BitStore,
    ) -> BandStep
        requires sane { IsSaneBand scan.now }
        requires open { IsOpenBand scan.now self.old }
        requires some { 1 ≤ length store.old }
        ensures takes { TakesBand scan.now codes.now left self.old store.old result self.new store.new }
        ensures all { result ≡ BandStep.More → store.new ≡ [] }
    {
        loop {
            match self.take_some(scan, codes, left, store) {
                BandStep::More => {
                    if store.len() == 0 {
                        return BandStep::More;
                    }
                }
                BandStep::Done => return BandStep::Done,
                BandStep::Fault(fault) => return BandStep::Fault(fault),
            }
        }
    }
}
