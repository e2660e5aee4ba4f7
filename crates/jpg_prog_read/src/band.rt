//! The units of a band, bit by bit: first passes (T.81, G.1.2.2, Figure G.3), refinements (G.1.2.3, Figure G.7).
ghost use Rattle.std.specs.Prelude.{◌≡◌, ◌<◌, ◌≤◌, ◌+◌, ◌-◌, pos, true, false, [], ◌∷◌, ◌++◌, length, take, drop, slice_index_or, ℕ, Bool, List};
ghost use Rattle.jpg_spec.specs.Bits.{bits_of};
ghost use Rattle.jpg_spec.specs.Codes.{Code};
ghost use Rattle.jpg_spec.specs.Numbers.{category, extra_bits, digits};
ghost use Rattle.jpg_spec.specs.Elements.{zeros, zeros_in, is_zero};
ghost use Rattle.jpg_huff.specs.Walk.{WalkAnswers};
ghost use Rattle.jpg_prog_read.specs.InWork.{IsOpenBand, IsMoving, IsPassing, IsWholeUnit, IsBeforeUnits, AreRefinable, band_values, with_band};
ghost use Rattle.jpg_prog_read.specs.ReaderSteps.{IsSaneBand, IsSkipped, AfterBandEnd, AfterValue, StaysOpen, KeepsOtherValues, HasSkipped, PassesZeros};
ghost use Rattle.jpg_prog_read.specs.ExtraWork.{IsWanting};
ghost use Rattle.jpg_prog_read.specs.declared.scan.BandScan.{BandScan};
ghost use Rattle.jpg_prog_read.specs.Stands.{UnitPlace, RepresentsBandUnit, Answered, AnswersStep, AnswersBit, AnswersBand, PassesEnds, BeginsQuietly, IsNoFault};
ghost use Rattle.jpg_prog_read.specs.BandBits.{AnswersSymbol, TakesBand};
ghost use Rattle.jpg_prog_read.specs.NewValues.{with_new_value};
ghost use Rattle.jpg_prog_read.specs.ZerosPassed.{ZerosComeNext, after_zeros};

mod correcting;
mod new_value;
mod taking;

use crate::codes::Codes;
use crate::extra::{Extra, ExtraBits};
use crate::numbers::{Scaled, corrected, scaled_within};
use crate::scan::BandScan;
use crate::stage::Stage;
use crate::symbols::{ProgressiveSymbol, judge};
use jpg_base::{BitStore, Block};
use jpg_coefs::UnitFault;
use jpg_huff::{Spotted, Walk, WalkStep};
use std::marker::Model;

/// The result of a bit of a unit of a band.
#[derive(Clone, Copy)]
pub enum BandStep {
    /// The unit goes on.
    More,
    /// It is complete.
    Done,
    Fault(UnitFault),
}

// Where skipping zeros ends: at the end of the band, at a value that is not zero, or at a zero after the run.
enum Skipped {
    AtEnd,
    AtOld,
    AtZero,
}

// Whether the end-of-band run is over.
enum Ended {
    All,
    Some,
}

/// The current unit of a band.
#[derive(Drop)]
pub struct BandReader {
    // The block, with its new values up to `at`.
    values: Block,
    // The first place of the band.
    start: u8,
    // The next place.
    at: u8,
    // The place after the band.
    end: u8,
    // Bit 0 is 1 if the value at place `at` isn't 0, and so on.
    olds: u64,
    // Which part of an element is read.
    stage: Stage,
    // The bits of its code so far.
    walk: Walk,
    // Bits of a code were taken.
    begun: bool,
    // How many zeros are still to be skipped.
    run: u8,
    // The additional bits so far.
    extra: ExtraBits,
    // The value that is placed after the run.
    due: i16,
    // How many bands the current EOB run still ends, this one among them.
    bands: u32,
}

impl Model for BandReader {
    ghost use Rattle.std.specs.Prelude.{take, drop, ◌-◌};
    ghost use Rattle.jpg_prog_read.specs.InWork.{InWork, IsKept};

    ghost Value = { InWork };

    ghost view = { λ r.
        record {
          front = take r.start r.values;
          done = take (r.at - r.start) (drop r.start r.values);
          rest = take (r.end - r.at) (drop r.at r.values);
          behind = drop r.end r.values;
          stage = r.stage;
          walked = r.walk;
          run = r.run;
          size = r.extra.size;
          extra = r.extra.bits;
          due = r.due;
          bands = r.bands;
        } };

    ghost invariant = { λ r. IsKept r.values r.start r.at r.end r.olds r.begun r.walk };
}

impl BandReader {
    fn walk_bit(&mut self, codes: &Codes, bit: bool) -> WalkStep
        ensures answers { WalkAnswers codes.now (self.old.walked ++ bit ∷ []) result self.new.walked }
        ensures same { self.new ≡ record (self.old) { walked = self.new.walked } }
    {
        let step = codes.walk(&mut self.walk, bit);
        self.begun = match step {
            WalkStep::More => true,
            WalkStep::Symbol(_) => false,
            WalkStep::NoCode => false,
        };
        step
    }

    // Puts the next value of the band. The block is written last: what goes before it can stay in registers.
    #[inline(always)]
    fn put(&mut self, value: i16)
        requires { 1 ≤ length self.old.rest }
        ensures { self.new ≡ record (self.old) { done = self.old.done ++ value ∷ []; rest = drop 1 self.old.rest } }
    {
        let at = self.at;
        self.at = at + 1;
        self.olds = self.olds >> 1;
        self.values.set(at, value);
    }

    // How many zeros are left.
    #[inline(always)]
    fn zeros_left(&self) -> u8
        ensures { result ≡ zeros_in self.now.rest }
    {
        let left = self.end - self.at;
        let olds = self.olds % (1 << left);
        left - olds.count_ones() as u8
    }

    // How many zeros are next.
    #[inline(always)]
    fn zeros_next(&self) -> u8
        ensures next { ZerosComeNext result self.now.rest }
        ensures short { result ≤ 63 }
    {
        let left = self.end - self.at;
        let zeros = self.olds.trailing_zeros() as u8;
        if zeros < left { zeros } else { left }
    }

    #[inline(always)]
    fn pass_zeros(&mut self, count: u8)
        requires some { count ≤ length self.old.rest }
        requires next { take count self.old.rest ≡ zeros count }
        requires short { count ≤ 63 }
        requires run { count ≤ self.old.run }
        ensures { self.new ≡ after_zeros self.old count }
    {
        self.at += count;
        self.olds = self.olds >> count;
        self.run -= count;
    }

    #[inline(always)]
    fn is_left(&self) -> bool
        ensures left { result ≡ true → 1 ≤ length self.now.rest }
        ensures none { result ≡ false → self.now.rest ≡ [] }
    {
        self.at < self.end
    }

    #[inline(always)]
    fn stage(&self) -> Stage
        ensures { result ≡ self.now.stage }
    {
        self.stage
    }

    #[inline(always)]
    fn run_left(&self) -> u8
        ensures { result ≡ self.now.run }
    {
        self.run
    }

    #[inline(always)]
    fn due(&self) -> i16
        ensures { result ≡ self.now.due }
    {
        self.due
    }

    // Begins a number of this category.
    #[inline(always)]
    fn begin(&mut self, stage: Stage, run: u8, size: u8)
        requires { size ≤ 15 }
        ensures { self.new ≡ record (self.old) { stage = stage; run = run; size = size; extra = [] } }
    {
        self.stage = stage;
        self.run = run;
        self.extra = ExtraBits::new(size);
    }

    // Takes an extra bit. Returns whether more are needed.
    fn extra_bit(&mut self, bit: bool) -> Extra
        requires { length self.old.extra < self.old.size }
        ensures new { self.new ≡ record (self.old) { extra = self.old.extra ++ bit ∷ [] } }
        ensures wants { IsWanting result self.new.size self.new.extra }
    {
        self.extra.push(bit)
    }

    // The number whose extra bits are complete.
    fn whole_number(&self) -> i16
        requires { length self.now.extra ≡ self.now.size }
        ensures category { category result ≡ self.now.size }
        ensures extra { extra_bits result ≡ self.now.extra }
    {
        self.extra.value()
    }

    // How many bands the end-of-band run has (T.81, G.1.2.2, Table G.1).
    fn whole_count(&self) -> u32
        requires whole { length self.now.extra ≡ self.now.size }
        requires size { self.now.size ≤ 14 }
        ensures some { 1 ≤ result }
        ensures digits { digits result ≡ self.now.size + 1 }
        ensures extra { bits_of self.now.size result ≡ self.now.extra }
    {
        self.extra.bands()
    }

    // Begins the run before a value.
    #[inline(always)]
    fn begin_value(&mut self, value: i16)
        ensures { self.new ≡ record (self.old) { stage = Stage.Value; due = value } }
    {
        self.stage = Stage::Value;
        self.due = value;
    }

    fn begin_long(&mut self)
        ensures { self.new ≡ record (self.old) { stage = Stage.Long; run = 15 } }
    {
        self.stage = Stage::Long;
        self.run = 15;
    }

    fn begin_ends(&mut self, bands: u32)
        ensures small { zeros_in self.old.rest < 255 }
        ensures new { self.new ≡ record (self.old) { stage = Stage.Ends; run = 255; bands = bands } }
    {
        self.stage = Stage::Ends;
        self.run = 255;
        self.bands = bands;
    }

    #[inline(always)]
    fn end_element(&mut self)
        ensures { self.new ≡ record (self.old) { stage = Stage.Code } }
    {
        self.stage = Stage::Code;
    }

    // Whether no bits of a code were taken, and no value from here to the end of the block isn't 0.
    #[inline(always)]
    fn is_fresh(&self) -> bool
        ensures none { result ≡ true → self.now.rest ≡ zeros (length self.now.rest) }
        ensures quiet { result ≡ true → self.now.walked ≡ [] }
    {
        !self.begun && self.olds == 0
    }

    // How many values are left.
    #[inline(always)]
    fn values_left(&self) -> u8
        ensures count { result ≡ length self.now.rest }
        ensures few { result ≤ 63 }
    {
        self.end - self.at
    }

    // Puts a value after a run of zeros.
    #[inline(always)]
    fn put_after(&mut self, run: u8, value: i16)
        requires room { run < length self.old.rest }
        requires zeros { take run self.old.rest ≡ zeros run }
        ensures { self.new ≡ with_new_value self.old run value }
    {
        let at = self.at + run;
        self.at = at + 1;
        self.olds = self.olds >> run >> 1;
        self.values.set(at, value);
    }

    // Counts one band of the end-of-band run.
    fn end_band(&mut self) -> Ended
        requires { 1 ≤ self.old.bands }
        ensures { AfterBandEnd self.old result self.new }
    {
        self.bands -= 1;
        if self.bands == 0 {
            self.stage = Stage::Code;
            Ended::All
        } else {
            Ended::Some
        }
    }

    #[inline(always)]
    fn covered(&self) -> BandStep
        ensures { AfterValue result self.now }
    {
        if self.is_left() {
            BandStep::More
        } else {
            BandStep::Done
        }
    }

    // Skips the zeros that are next, as many as the run has.
    #[inline(always)]
    fn skip(&mut self) -> Skipped
        requires passing { IsPassing self.old.stage self.old }
        ensures at { IsSkipped result self.new }
        ensures same { HasSkipped self.old self.new }
        ensures stands { PassesZeros self.old self.new }
    {
        let next = self.zeros_next();
        let run = self.run_left();
        if run < next {
            self.pass_zeros(run);
            return Skipped::AtZero;
        }
        self.pass_zeros(next);
        if self.is_left() {
            Skipped::AtOld
        } else {
            Skipped::AtEnd
        }
    }

    // Puts the value after the run at its place.
    #[inline(always)]
    fn place(&mut self, scan: &BandScan) -> BandStep
        requires sane { IsSaneBand scan.now }
        requires zero { self.old.rest ≡ pos 0 ∷ drop 1 self.old.rest }
        requires stage { (self.old.stage ≡ Stage.Value) × (self.old.run ≡ 0) }
        requires fits { AreRefinable scan.now self.old.rest }
        ensures open { StaysOpen scan.now result self.new }
        ensures outside { KeepsOtherValues self.old self.new }
        ensures answered { AnswersStep scan.now self.old result self.new }
    {
        match scaled_within(self.due(), scan.scale, scan.most_magnitude) {
            Scaled::Beyond => BandStep::Fault(UnitFault::CoefRange),
            Scaled::Within(value) => {
                self.end_element();
                self.put(value);
                self.covered()
            }
        }
    }

    // Skips the sixteenth zero.
    fn pass_last(&mut self) -> BandStep
        requires zero { self.old.rest ≡ pos 0 ∷ drop 1 self.old.rest }
        requires stage { (self.old.stage ≡ Stage.Long) × (self.old.run ≡ 0) }
        ensures open { (b : BandScan) → AreRefinable b self.old.rest → StaysOpen b result self.new }
        ensures outside { KeepsOtherValues self.old self.new }
        ensures answered { (b : BandScan) → AnswersStep b self.old result self.new }
    {
        self.put(0);
        self.end_element();
        self.covered()
    }

    // Ends the band within an end-of-band run.
    fn leave(&mut self) -> BandStep
        requires end { self.old.rest ≡ [] }
        requires stage { (self.old.stage ≡ Stage.Ends) × (1 ≤ self.old.bands) }
        ensures open { (b : BandScan) → StaysOpen b result self.new }
        ensures outside { KeepsOtherValues self.old self.new }
        ensures answered { (at : UnitPlace) (bits : List Bool) → RepresentsBandUnit at bits self.old → Answered at bits result self.new }
        ensures quiet { IsNoFault result }
    {
        match self.end_band() {
            Ended::All => BandStep::Done,
            Ended::Some => BandStep::Done,
        }
    }

    // Goes on to the next value that needs a correction (T.81, G.1.2.3), or to the end of the element.
    #[inline(always)]
    fn advance(&mut self, scan: &BandScan) -> BandStep
        requires sane { IsSaneBand scan.now }
        requires moving { IsMoving scan.now self.old }
        ensures open { StaysOpen scan.now result self.new }
        ensures outside { KeepsOtherValues self.old self.new }
        ensures answered { AnswersStep scan.now self.old result self.new }
        ensures ends { PassesEnds scan.now self.old result }
    {
        match self.skip() {
            Skipped::AtOld => BandStep::More,
            Skipped::AtZero => match self.stage() {
                Stage::Value => self.place(scan),
                Stage::Long => self.pass_last(),
                // impossible stages
                Stage::Code => BandStep::Fault(UnitFault::NoCode),
                Stage::Number => BandStep::Fault(UnitFault::NoCode),
                Stage::Count => BandStep::Fault(UnitFault::NoCode),
                Stage::Ends => BandStep::Fault(UnitFault::NoCode),
            },
            Skipped::AtEnd => match self.stage() {
                Stage::Ends => self.leave(),
                Stage::Long => {
                    self.end_element();
                    BandStep::Done
                }
                // impossible stages
                Stage::Code => BandStep::Fault(UnitFault::NoCode),
                Stage::Number => BandStep::Fault(UnitFault::NoCode),
                Stage::Count => BandStep::Fault(UnitFault::NoCode),
                Stage::Value => BandStep::Fault(UnitFault::NoCode),
            },
        }
    }

    // The next old value.
    fn first(&self) -> i16
        requires { 1 ≤ length self.now.rest }
        ensures { self.now.rest ≡ result ∷ drop 1 self.now.rest }
    {
        self.values.get(self.at)
    }

    // Goes on after a code (T.81, G.1.2.2, Table G.1; G.1.2.3).
    #[inline(always)]
    fn symbol(&mut self, scan: &BandScan, symbol: u8) -> BandStep
        requires sane { IsSaneBand scan.now }
        requires open { IsOpenBand scan.now self.old }
        requires stage { self.old.stage ≡ Stage.Code }
        requires walked { self.old.walked ≡ [] }
        ensures open { StaysOpen scan.now result self.new }
        ensures outside { KeepsOtherValues self.old self.new }
        ensures answered { AnswersSymbol scan.now self.old symbol result self.new }
    {
        let zeros = self.zeros_left();
        match judge(scan.most_category, zeros, symbol) {
            ProgressiveSymbol::BadSymbol => BandStep::Fault(UnitFault::BadSymbol),
            ProgressiveSymbol::BadRun => BandStep::Fault(UnitFault::BadRun),
            ProgressiveSymbol::Value { run, size } => {
                self.begin(Stage::Number, run, size);
                BandStep::More
            }
            ProgressiveSymbol::Count { size } => {
                self.begin(Stage::Count, 0, size);
                BandStep::More
            }
            ProgressiveSymbol::Long => {
                self.begin_long();
                self.advance(scan)
            }
            ProgressiveSymbol::End => {
                self.begin_ends(1);
                self.advance(scan)
            }
        }
    }

    // Takes a bit of a code.
    fn code_bit(&mut self, scan: &BandScan, codes: &Codes, bit: bool) -> BandStep
        requires sane { IsSaneBand scan.now }
        requires open { IsOpenBand scan.now self.old }
        requires stage { self.old.stage ≡ Stage.Code }
        ensures open { StaysOpen scan.now result self.new }
        ensures outside { KeepsOtherValues self.old self.new }
        ensures answered { (left : ℕ) → AnswersBit scan.now codes.now left self.old bit result self.new }
    {
        match self.walk_bit(codes, bit) {
            WalkStep::More => BandStep::More,
            WalkStep::NoCode => BandStep::Fault(UnitFault::NoCode),
            WalkStep::Symbol(symbol) => self.symbol(scan, symbol),
        }
    }

    // Goes on after the bits of a value's number.
    #[inline(always)]
    fn number(&mut self, scan: &BandScan) -> BandStep
        requires sane { IsSaneBand scan.now }
        requires open { (1 ≤ length self.old.rest) × AreRefinable scan.now self.old.rest }
        requires stage { self.old.stage ≡ Stage.Number }
        requires whole { length self.old.extra ≡ self.old.size }
        ensures open { StaysOpen scan.now result self.new }
        ensures outside { KeepsOtherValues self.old self.new }
        ensures answered { AnswersStep scan.now self.old result self.new }
    {
        let value = self.whole_number();
        self.begin_value(value);
        self.advance(scan)
    }

    fn number_bit(&mut self, scan: &BandScan, bit: bool) -> BandStep
        requires sane { IsSaneBand scan.now }
        requires open { IsOpenBand scan.now self.old }
        requires stage { self.old.stage ≡ Stage.Number }
        requires wants { length self.old.extra < self.old.size }
        ensures open { StaysOpen scan.now result self.new }
        ensures outside { KeepsOtherValues self.old self.new }
        ensures answered { (ac : List Code) (left : ℕ) → AnswersBit scan.now ac left self.old bit result self.new }
    {
        match self.extra_bit(bit) {
            Extra::Wanting => BandStep::More,
            Extra::Enough => self.number(scan),
        }
    }

    // Takes a bit of the length of an end-of-band run, where `left` units are left.
    fn count_bit(&mut self, scan: &BandScan, left: u64, bit: bool) -> BandStep
        requires sane { IsSaneBand scan.now }
        requires open { IsOpenBand scan.now self.old }
        requires stage { self.old.stage ≡ Stage.Count }
        requires wants { length self.old.extra < self.old.size }
        requires size { self.old.size ≤ 14 }
        ensures open { StaysOpen scan.now result self.new }
        ensures outside { KeepsOtherValues self.old self.new }
        ensures answered { (ac : List Code) → AnswersBit scan.now ac left self.old bit result self.new }
    {
        match self.extra_bit(bit) {
            Extra::Wanting => BandStep::More,
            Extra::Enough => {
                let bands = self.whole_count();
                if u64::from(bands) > left {
                    BandStep::Fault(UnitFault::RunPastEnd)
                } else {
                    self.begin_ends(bands);
                    self.advance(scan)
                }
            }
        }
    }

    // Takes the correction of an old value (T.81, G.1.2.3).
    #[inline(always)]
    fn correction_bit(&mut self, scan: &BandScan, bit: bool) -> BandStep
        requires sane { IsSaneBand scan.now }
        requires open { IsOpenBand scan.now self.old }
        requires passing { IsPassing self.old.stage self.old }
        requires old { is_zero (slice_index_or self.old.rest 0 (pos 0)) ≡ false }
        ensures open { StaysOpen scan.now result self.new }
        ensures outside { KeepsOtherValues self.old self.new }
        ensures answered { (ac : List Code) (left : ℕ) → AnswersBit scan.now ac left self.old bit result self.new }
    {
        let old = self.first();
        self.put(corrected(old, scan.scale, bit));
        self.advance(scan)
    }

    /// Takes one more bit. `left` is how many units are left, including this one.
    pub fn bit(&mut self, scan: &BandScan, codes: &Codes, left: u64, bit: bool) -> BandStep
        requires sane { IsSaneBand scan.now }
        requires open { IsOpenBand scan.now self.old }
        ensures open { StaysOpen scan.now result self.new }
        ensures outside { KeepsOtherValues self.old self.new }
        ensures answered { AnswersBit scan.now codes.now left self.old bit result self.new }
    {
        match self.stage() {
            Stage::Code => self.code_bit(scan, codes, bit),
            Stage::Number => self.number_bit(scan, bit),
            Stage::Count => self.count_bit(scan, left, bit),
            Stage::Value => self.correction_bit(scan, bit),
            Stage::Long => self.correction_bit(scan, bit),
            Stage::Ends => self.correction_bit(scan, bit),
        }
    }

    // Loads the block of the next unit.
    fn load(&mut self, scan: &BandScan, block: &Block)
        requires sane { IsSaneBand scan.now }
        ensures new { self.new ≡ with_band self.old (take scan.now.start block.now) (band_values scan.now block.now) (drop scan.now.end block.now) }
        ensures small { zeros_in (band_values scan.now block.now) < 255 }
        ensures long { length block.now ≡ 64 }
    {
        block.long();
        self.values = *block;
        self.start = scan.start;
        self.at = scan.start;
        self.end = scan.end;
        self.olds = block.nonzero() >> scan.start;
        self.run = 255;
    }

    /// Begins the next unit, whose block this is.
    pub fn start(&mut self, scan: &BandScan, block: &Block) -> BandStep
        requires sane { IsSaneBand scan.now }
        requires some { scan.now.start < scan.now.end }
        requires between { IsWholeUnit self.old }
        requires fits { AreRefinable scan.now (band_values scan.now block.now) }
        ensures long { length block.now ≡ 64 }
        ensures first { self.old.stage ≡ Stage.Code → result ≡ BandStep.More }
        ensures open { StaysOpen scan.now result self.new }
        ensures outside { (self.new.front ≡ take scan.now.start block.now) × (self.new.behind ≡ drop scan.now.end block.now) }
        ensures answered { AnswersBand scan.now (band_values scan.now block.now) self.old result self.new }
        ensures quiet { BeginsQuietly scan.now (band_values scan.now block.now) self.old result }
    {
        self.load(scan, block);
        match self.stage() {
            Stage::Ends => self.advance(scan),
            _ => BandStep::More,
        }
    }

    /// Whether an end-of-band run goes on after a complete unit.
    #[inline(always)]
    pub fn is_ending(&self) -> bool
        ensures ends { result ≡ true → self.now.stage ≡ Stage.Ends }
        ensures other { self.now.stage ≡ Stage.Ends → result ≡ true }
    {
        match self.stage {
            Stage::Ends => true,
            _ => false,
        }
    }

    /// Ends an end-of-band run after a complete unit. Returns how many units it had left.
    #[inline(always)]
    pub fn end_run(&mut self) -> u32
        ensures count { result ≡ self.old.bands }
        ensures new { self.new ≡ record (self.old) { bands = 0; stage = Stage.Code } }
    {
        let bands = self.bands;
        self.bands = 0;
        self.stage = Stage::Code;
        bands
    }

    /// Passes the next unit of an end-of-band run, whose band has nothing.
    #[inline(always)]
    pub fn pass_band(&mut self)
        requires { 1 ≤ self.old.bands }
        ensures last { self.old.bands ≡ 1 → self.new ≡ record (self.old) { bands = 0; stage = Stage.Code } }
        ensures more { 2 ≤ self.old.bands → self.new ≡ record (self.old) { bands = self.old.bands - 1 } }
    {
        match self.end_band() {
            Ended::All => {}
            Ended::Some => {}
        }
    }

    /// A reader before the first unit of an interval.
    pub fn new() -> BandReader
        ensures { IsBeforeUnits result }
    {
        BandReader {
            values: Block::zero(),
            start: 0,
            at: 0,
            end: 0,
            stage: Stage::Code,
            olds: 0,
            walk: Walk::new(),
            begun: false,
            run: 0,
            extra: ExtraBits::new(0),
            due: 0,
            bands: 0,
        }
    }

    /// The block, with the new values of its band.
    pub fn block(&self) -> Block
        requires { self.now.rest ≡ [] }
        ensures value { result ≡ self.now.front ++ (self.now.done ++ self.now.behind) }
        ensures long { length result ≡ 64 }
    {
        self.values.long();
        self.values
    }
}
