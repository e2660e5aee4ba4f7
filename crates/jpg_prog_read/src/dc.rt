//! The units of a DC scan: first passes bit by bit (T.81, F.2.2.1, G.1.2.1), and refinements (G.1.2.1).
ghost use Rattle.std.specs.Prelude.{◌≡◌, ◌<◌, ◌≤◌, ◌≤ℤ◌, ◌+ℤ◌, ◌*ℤ◌, ◌+◌, negsuc, pos, nat_abs, if◌then◌else◌, nat_lt, [], ◌∷◌, ◌++◌, length, ℕ, ℤ, Bool, List};
ghost use Rattle.jpg_spec.specs.Codes.{Code};
ghost use Rattle.jpg_spec.specs.Numbers.{category, extra_bits};
ghost use Rattle.jpg_huff.specs.Walk.{WalkAnswers};
ghost use Rattle.jpg_huff.specs.Tables.{symbol_codes};
ghost use Rattle.jpg_prog_read.specs.DcWork.{DcWork, IsDcOpen, AreDcSane, IsDcValue, IsDcSide, DcStaysOpen, AfterDcExtra, IsDcStage, fresh};
ghost use Rattle.jpg_prog_read.specs.RepresentsDcUnit.{AnswersDcBit, AnswersDcRefinement, BeginsDc};
ghost use Rattle.jpg_prog_read.specs.DcLookedUp.{Hurries};
ghost use Rattle.jpg_prog_read.specs.declared.scan.DcScan.{DcScan};

use crate::codes::Codes;
use crate::extra::{Extra, ExtraBits};
use crate::scan::DcScan;
use jpg_base::BitStore;
use jpg_coefs::UnitFault;
use jpg_huff::{Spotted, Table, Walk, WalkStep};
use std::marker::Model;

// A value by its difference: the next prediction and the value, or one out of range.
enum DcValue {
    Within { prediction: i16, value: i16 },
    Beyond,
}

/// The result of a bit of a unit of a first DC pass.
#[derive(Clone, Copy)]
pub enum DcStep {
    /// The unit goes on.
    More,
    /// It is complete, with the next prediction and its value.
    Done { prediction: i16, value: i16 },
    Fault(UnitFault),
}

// The current part of a unit.
enum DcStage {
    Code,
    Number,
}

// After an extra bit: more are needed, or the number is complete.
enum DcExtra {
    Wanting,
    Whole(i16),
}

/// The current unit of a first pass.
#[derive(Drop)]
pub struct DcUnit {
    walk: Walk,
    // whether bits of a code were taken
    begun: bool,
    extra: ExtraBits,
}

impl Model for DcUnit {
    ghost use Rattle.std.specs.Prelude.{◌≡◌, [], false};
    ghost use Rattle.jpg_prog_read.specs.DcWork.{DcWork};

    ghost Value = { DcWork };

    ghost invariant = { λ r. r.begun ≡ false → r.walk ≡ [] };

    ghost view = { λ r. record { walked = r.walk; size = r.extra.size; extra = r.extra.bits } };
}

fn sum(a: i16, b: i16) -> i32
    ensures { result ≡ a +ℤ b }
{
    i32::from(a) + i32::from(b)
}

fn product(w: i32, scale: u16) -> i64
    ensures { result ≡ w *ℤ pos scale }
{
    i64::from(w) * i64::from(scale)
}

fn narrow(x: i32) -> i16
    requires { nat_abs x ≤ 32767 }
    ensures { result ≡ x }
{
    x as i16
}

fn narrow_wide(x: i64) -> i16
    requires { nat_abs x ≤ 32767 }
    ensures { result ≡ x }
{
    x as i16
}

// Whether a value is between two numbers.
enum DcSide {
    Within,
    Beyond,
}

fn side_of(x: i64, low: i32, high: i32) -> DcSide
    ensures { IsDcSide low high x result }
{
    if x < i64::from(low) {
        DcSide::Beyond
    } else if x > i64::from(high) {
        DcSide::Beyond
    } else {
        DcSide::Within
    }
}

// The value whose difference to the prediction this is (T.81, F.2.2.1), times `2 ^ al`.
fn valued(scan: &DcScan, prediction: i16, difference: i16) -> DcValue
    requires { AreDcSane scan.now }
    ensures { IsDcValue scan.now (prediction +ℤ difference) result }
{
    let w = sum(prediction, difference);
    let x = product(w, scan.scale);
    match side_of(x, scan.low, scan.high) {
        DcSide::Beyond => DcValue::Beyond,
        DcSide::Within => DcValue::Within {
            prediction: narrow(w),
            value: narrow_wide(x),
        },
    }
}

// A value with one more bit.
fn with_bit(value: i16, scale: u16, bit: bool) -> i16
    requires low { negsuc 32767 ≤ℤ value }
    requires high { (value +ℤ pos scale) ≤ℤ pos 32767 }
    ensures { result ≡ value +ℤ (if bit then pos scale else pos 0) }
{
    if bit {
        (i32::from(value) + i32::from(scale)) as i16
    } else {
        value
    }
}

/// The value of the next unit of a refinement, by its bit (T.81, G.1.2.1): the old one, known down to bit `al + 1`, and
/// `2 ^ al` more where the bit is 1.
pub fn refine(scan: &DcScan, value: i16, bit: bool) -> i16
    requires sane { AreDcSane scan.now }
    requires low { scan.now.low ≤ℤ value }
    requires high { (value +ℤ pos scan.now.scale) ≤ℤ scan.now.high }
    ensures { AnswersDcRefinement scan.now value bit result }
{
    with_bit(value, scan.scale, bit)
}

impl DcUnit {
    // Takes a bit of a code.
    fn walk_bit(&mut self, table: &Table, bit: bool) -> WalkStep
        ensures answers { WalkAnswers (symbol_codes table.now) (self.old.walked ++ bit ∷ []) result self.new.walked }
        ensures same { self.new ≡ record (self.old) { walked = self.new.walked } }
    {
        let step = self.walk.bit(table, bit);
        self.begun = match step {
            WalkStep::More => true,
            WalkStep::Symbol(_) => false,
            WalkStep::NoCode => false,
        };
        step
    }

    // Begins a number of this category, or none.
    fn begin(&mut self, size: u8)
        requires { size ≤ 15 }
        ensures { self.new ≡ record (self.old) { size = size; extra = [] } }
    {
        self.extra = ExtraBits::new(size);
    }

    fn stage(&self) -> DcStage
        ensures { IsDcStage result self.now }
    {
        if self.extra.size() > 0 {
            DcStage::Number
        } else {
            DcStage::Code
        }
    }

    /// A unit before its first bit.
    pub fn new() -> DcUnit
        ensures fresh { result ≡ fresh }
        ensures open { IsDcOpen result }
        ensures begins { BeginsDc result }
    {
        DcUnit {
            walk: Walk::new(),
            begun: false,
            extra: ExtraBits::new(0),
        }
    }

    // Takes the complete code of a difference that isn't 0, if the store begins with one and none is begun.
    fn hurry_code(&mut self, scan: &DcScan, codes: &Codes, store: &mut BitStore)
        requires sane { AreDcSane scan.now }
        requires open { IsDcOpen self.old }
        ensures { Hurries scan.now codes.now self.old store.old self.new store.new }
    {
        if self.begun || self.extra.size() > 0 {
            return;
        }
        match codes.spot(store) {
            Spotted::Symbol { length, symbol } => {
                if symbol > 0 && symbol <= scan.most_category {
                    store.skip_few(length);
                    self.begin(symbol);
                }
            }
            Spotted::Part => {}
            Spotted::NoCode { .. } => {}
        }
    }

    // Takes all bits of a number but the last, if they are there and none was taken.
    fn hurry_number(&mut self, store: &mut BitStore)
        requires open { IsDcOpen self.old }
        ensures { (b : DcScan) (dc : List Code) → Hurries b dc self.old store.old self.new store.new }
    {
        let size = self.extra.size();
        if size > 0 && self.extra.is_new() && size <= store.len() {
            let count = size - 1;
            self.extra.fill(count, store.peek(count));
            store.skip_few(count);
        }
    }

    /// Takes bits from the start of a store after which the unit goes on, several at once, or none.
    pub fn hurry(&mut self, scan: &DcScan, codes: &Codes, store: &mut BitStore)
        requires sane { AreDcSane scan.now }
        requires open { IsDcOpen self.old }
        ensures { Hurries scan.now codes.now self.old store.old self.new store.new }
    {
        self.hurry_code(scan, codes, store);
        self.hurry_number(store);
    }

    // Takes an extra bit. Returns the number if it is the last one.
    fn extra_bit(&mut self, bit: bool) -> DcExtra
        requires { length self.old.extra < self.old.size }
        ensures { AfterDcExtra self.old bit result self.new }
    {
        match self.extra.push(bit) {
            Extra::Wanting => DcExtra::Wanting,
            Extra::Enough => {
                let value = self.extra.value();
                self.begin(0);
                DcExtra::Whole(value)
            }
        }
    }

    // Takes a bit of a code.
    fn code_bit(&mut self, scan: &DcScan, table: &Table, prediction: i16, bit: bool) -> DcStep
        requires sane { AreDcSane scan.now }
        requires stage { self.old.size ≡ 0 }
        ensures open { DcStaysOpen result self.new }
        ensures answered { AnswersDcBit scan.now (symbol_codes table.now) prediction self.old bit result self.new }
    {
        match self.walk_bit(table, bit) {
            WalkStep::More => DcStep::More,
            WalkStep::NoCode => DcStep::Fault(UnitFault::NoCode),
            WalkStep::Symbol(size) => {
                if size > scan.most_category {
                    DcStep::Fault(UnitFault::BadSymbol)
                } else if size == 0 {
                    match valued(scan, prediction, 0) {
                        DcValue::Beyond => DcStep::Fault(UnitFault::CoefRange),
                        DcValue::Within { prediction, value } => DcStep::Done { prediction, value },
                    }
                } else {
                    self.begin(size);
                    DcStep::More
                }
            }
        }
    }

    // Takes a bit of a difference.
    fn number_bit(&mut self, scan: &DcScan, prediction: i16, bit: bool) -> DcStep
        requires sane { AreDcSane scan.now }
        requires open { IsDcOpen self.old }
        requires stage { 1 ≤ self.old.size }
        ensures open { DcStaysOpen result self.new }
        ensures answered { (dc : List Code) → AnswersDcBit scan.now dc prediction self.old bit result self.new }
    {
        match self.extra_bit(bit) {
            DcExtra::Wanting => DcStep::More,
            DcExtra::Whole(difference) => match valued(scan, prediction, difference) {
                DcValue::Beyond => DcStep::Fault(UnitFault::CoefRange),
                DcValue::Within { prediction, value } => DcStep::Done { prediction, value },
            },
        }
    }

    /// Takes one more bit of a unit, whose value is decoded from its difference to `prediction` (T.81, G.1.2.1): the
    /// value of the component's last unit before it is scaled, 0 at an interval's start. `table` is the component's DC
    /// table.
    pub fn bit(&mut self, scan: &DcScan, table: &Table, prediction: i16, bit: bool) -> DcStep
        requires sane { AreDcSane scan.now }
        requires open { IsDcOpen self.old }
        ensures open { DcStaysOpen result self.new }
        ensures answered { AnswersDcBit scan.now (symbol_codes table.now) prediction self.old bit result self.new }
    {
        match self.stage() {
            DcStage::Code => self.code_bit(scan, table, prediction, bit),
            DcStage::Number => self.number_bit(scan, prediction, bit),
        }
    }
}
