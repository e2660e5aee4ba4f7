//! Bands written one after another, element by element: first passes (T.81, G.1.2.2, Figure G.3) and refinements
//! (G.1.2.3, Figure G.7).
ghost use Rattle.std.specs.Prelude.{◌≡◌, Bool, ℕ, pos, slice_index_or, ◌+◌, ◌-◌, ◌<◌, ◌≤◌, true, [], ◌++◌, ◌∷◌, List, length, nat_lt, ◌==◌, ◌||◌, IfSome, IfNone};
ghost use Rattle.jpg_spec.specs.Numbers.{category as category_of};
ghost use Rattle.jpg_spec.specs.Elements.{ends, is_zero};
ghost use Rattle.jpg_spec_write.specs.Sending.{Sent, newly_significant as newly_sent, corrections_of, ended_bands};
ghost use Rattle.jpg_prog_write.specs.Items.{IsItem, sent_by};
ghost use Rattle.jpg_prog_write.specs.Bands.{IsBand, IsShort, AreMarks, IsBandPart, IsReady, sents, elements_left, elements_waiting, band_sents, cleared};
ghost use Rattle.jpg_prog_write.specs.Steps.{IsShortSending, IsElementStep, IsCompleteElement, IsFirst, GivesElement, LeavesBand};

use crate::band::{Band, Sending};
use crate::item::{Item, ends_item, long_item, value_item};
use arrayvec::ArrayVec;
use jpg_base::Block;

// The most bands of an EOB run, which the code EOB14 with 14 bits counts (T.81, G.1.2.2, Table G.1).
const LONGEST_RUN: u16 = 32767;

// The most correction bits after which a band is still added to a run: its own are at most 63, which makes 1000.
const MOST_WAITING: usize = 937;

/// Correction bits that wait for the code of an element.
pub(crate) type Waiting = ArrayVec<bool, 1000>;

/// The current band, and the EOB run before it, which waits.
#[derive(Drop)]
pub(crate) struct Bands {
    // The parameters of the scan.
    pub(crate) band: Band,
    // The current block.
    pub(crate) block: Block,
    // Which values of the block aren't 0.
    pub(crate) marks: u64,
    // The place of the next value to be written.
    pub(crate) at: u8,
    // The place after its last newly sent value.
    pub(crate) last: u8,
    // How many bands the EOB run that waits has.
    pub(crate) bands: u16,
    // Its correction bits.
    pub(crate) waiting: Waiting,
}

// The result of a value: a longer run of zeros, or a complete element.
#[derive(Clone, Copy)]
pub(crate) enum Step {
    Goes(u8),
    Gives(Item),
}

/// The values of a band from one place up to another, the last of which, if there is one, is newly sent.
#[derive(Clone, Copy)]
pub(crate) struct BandPart<'a> {
    // The parameters of the scan.
    pub(crate) band: Band,
    // The block.
    pub(crate) block: &'a Block,
    // Which values of the block aren't 0.
    pub(crate) marks: u64,
    // The place of the first value.
    pub(crate) from: u8,
    // The place after the last one.
    pub(crate) last: u8,
}

// An element, and the place after it.
#[derive(Clone, Copy)]
pub(crate) struct Whole {
    pub(crate) item: Item,
    pub(crate) at: u8,
}

// A value that is newly sent, or remains 0, after a run of zeros.
#[inline(always)]
fn newly_significant(run: u8, value: i32) -> Step
    requires run { run ≤ 15 }
    requires short { category_of value ≤ 14 }
    ensures { (bits : List Bool) (later : List Sent) → IsElementStep run bits (newly_sent value ∷ later) result bits later }
{
    if value != 0 {
        Step::Gives(value_item(run, value))
    } else if run == 15 {
        Step::Gives(long_item())
    } else {
        Step::Goes(run + 1)
    }
}

// A value after a run of zeros and corrections.
#[inline(always)]
fn pass_value(run: u8, sent: Sending, waiting: &mut Waiting) -> Step
    requires run { run ≤ 15 }
    requires short { IsShortSending sent }
    requires room { length waiting.old.items < 1000 }
    ensures step { (later : List Sent) → IsElementStep run waiting.old.items (sent_by sent ∷ later) result waiting.new.items later }
    ensures waits { length waiting.new.items ≤ length waiting.old.items + 1 }
{
    match sent {
        Sending::Correction(bit) => {
            waiting.push(bit);
            Step::Goes(run)
        }
        Sending::NewlySignificant(value) => newly_significant(run, value),
    }
}

// How many zeros from a place of a part on are skipped at once: none at its last place, and up to a run of 15.
#[inline(always)]
fn zeros_ahead(part: BandPart<'_>, at: u8, run: u8) -> u8
    requires marks { AreMarks part.marks part.block.now }
    requires places { (at < part.last) × (part.last ≤ 64) }
    requires run { run ≤ 15 }
    ensures within { (at + result < part.entry.last) × (run + result ≤ 15) }
    ensures zeros { (k : ℕ) → at ≤ k → k < at + result → is_zero (slice_index_or part.entry.block.now k (pos 0)) ≡ true }
{
    let zeros = (part.marks >> at).trailing_zeros() as u8;
    zeros.min(15 - run).min(part.last - 1 - at)
}

// The next element of a part of a band.
#[inline(always)]
pub(crate) fn value_from(part: BandPart<'_>, waiting: &mut Waiting) -> Option<Whole>
    requires part { IsBandPart part }
    requires some { part.from < part.last }
    requires none { waiting.old.items ≡ [] }
    ensures some { IfSome result (λ w. IsCompleteElement part.entry.band part.entry.from part.entry.last part.entry.block.now w waiting.new.items) }
    ensures none { IfNone result ⊥ }
{
    let mut run = 0;
    let mut at = part.from;
    while at < part.last {
        let zeros = zeros_ahead(part, at, run);
        run += zeros;
        at += zeros;
        let sent = part.band.sent(part.block.get(at));
        at += 1;
        match pass_value(run, sent, waiting) {
            Step::Goes(more) => run = more,
            Step::Gives(item) => return Some(Whole { item, at }),
        }
    }
    None
}

// Adds a correction to those that wait.
#[inline(always)]
fn wait(sent: Sending, waiting: &mut Waiting)
    requires { length waiting.old.items < 1000 }
    ensures waits { waiting.new.items ≡ waiting.old.items ++ corrections_of (sent_by sent ∷ []) }
    ensures one { length waiting.new.items ≤ length waiting.old.items + 1 }
{
    match sent {
        Sending::Correction(bit) => waiting.push(bit),
        Sending::NewlySignificant(_) => {}
    }
}

// Adds the corrections from a place up to the end of the band to those that wait.
#[inline(always)]
fn wait_all(band: Band, block: &Block, from: u8, waiting: &mut Waiting)
    requires band { IsBand band }
    requires short { IsShort block.now }
    requires places { (1 ≤ from) × (from ≤ band.end) }
    requires few { length waiting.old.items ≤ 937 }
    ensures waits { waiting.new.items ≡ waiting.old.items ++ corrections_of (sents band from band.end block.now) }
{
    let end = band.zeros_from(block);
    let mut k = from;
    while k < end {
        wait(band.sent(block.get(k)), waiting);
        k += 1;
    }
}

// `wait_all`; outside refinements there are no corrections.
#[inline(always)]
fn wait_rest(band: Band, block: &Block, from: u8, waiting: &mut Waiting)
    requires band { IsBand band }
    requires short { IsShort block.now }
    requires places { (1 ≤ from) × (from ≤ band.end) }
    requires few { length waiting.old.items ≤ 937 }
    ensures { waiting.new.items ≡ waiting.old.items ++ corrections_of (sents band from band.end block.now) }
{
    if band.refines {
        wait_all(band, block, from, waiting);
    }
}

// Whether an EOB run of this many bands with this many corrections is written at once.
#[inline(always)]
fn is_full(bands: u16, waiting: usize) -> bool
    ensures { result ≡ (bands == 32767 || nat_lt 937 waiting) }
{
    bands == LONGEST_RUN || waiting > MOST_WAITING
}

impl Bands {
    /// No band, and no EOB run.
    pub(crate) fn new(band: Band) -> Bands
        requires { IsBand band }
        ensures ready { IsReady result }
        ensures band { result.band ≡ band }
        ensures none { result.bands ≡ 0 }
    {
        Bands {
            band,
            block: Block::zero(),
            marks: 0,
            at: band.end,
            last: band.end,
            bands: 0,
            waiting: ArrayVec::new(),
        }
    }

    /// Begins the band of a block.
    #[inline(always)]
    pub(crate) fn begin(&mut self, block: &Block)
        requires ready { IsReady self.old }
        requires short { IsShort block.now }
        ensures ready { IsReady self.new }
        ensures band { self.new.band ≡ self.old.band }
        ensures left { (later : List (List Sent)) → elements_waiting self.old (band_sents self.old.band block.now ∷ later) ≡ elements_left self.new later }
    {
        let kept = self.band.kept(block);
        self.block = kept;
        self.marks = kept.nonzero();
        self.at = self.band.start;
        self.last = self.band.front_end(&kept);
    }

    // The EOB run that waits.
    #[inline(always)]
    fn end_bands(&mut self) -> Item
        requires some { 1 ≤ self.old.bands }
        requires few { self.old.bands ≤ 32767 }
        ensures item { IsItem (ends self.old.bands self.old.waiting.items) result self.old.waiting.items }
        ensures new { self.new ≡ record self.old { bands = 0 } }
    {
        let item = ends_item(self.bands);
        self.bands = 0;
        item
    }

    // The next element of the part up to the last newly sent value, where no EOB run waits.
    #[inline(never)]
    fn next_value(&mut self) -> Option<Item>
        requires ready { IsReady self.old }
        requires some { self.old.at < self.old.last }
        requires none { self.old.bands ≡ 0 }
        ensures some { IfSome result (λ item. GivesElement self.old item self.new) }
        ensures none { IfNone result ⊥ }
    {
        let part = BandPart {
            band: self.band,
            block: &self.block,
            marks: self.marks,
            from: self.at,
            last: self.last,
        };
        match value_from(part, &mut self.waiting) {
            Some(whole) => {
                self.at = whole.at;
                Some(whole.item)
            }
            None => None,
        }
    }

    // Adds the rest of the band to the EOB run that waits (T.81, G.1.2.2). Returns the run if it is full then.
    #[inline(always)]
    fn join_rest(&mut self) -> Option<Item>
        requires ready { IsReady self.old }
        requires front { self.old.last ≤ self.old.at }
        requires rest { self.old.last < self.old.band.end }
        ensures some { IfSome result (λ item. GivesElement self.old item self.new) }
        ensures none { IfNone result (LeavesBand self.old self.new) }
    {
        wait_rest(self.band, &self.block, self.last, &mut self.waiting);
        self.at = self.band.end;
        self.last = self.band.end;
        self.bands += 1;
        if is_full(self.bands, self.waiting.len()) {
            Some(self.end_bands())
        } else {
            None
        }
    }

    /// The next element of the band, or the EOB run before it, whose corrections are those that wait now; None if
    /// nothing more is to be written of them.
    #[inline(always)]
    pub(crate) fn next(&mut self) -> Option<Item>
        requires { IsReady self.old }
        ensures some { IfSome result (λ item. GivesElement self.old item self.new) }
        ensures none { IfNone result (LeavesBand self.old self.new) }
    {
        if self.at < self.last {
            if self.bands > 0 {
                Some(self.end_bands())
            } else {
                self.next_value()
            }
        } else if self.last < self.band.end {
            self.join_rest()
        } else {
            None
        }
    }

    /// The EOB run that waits after the last band.
    pub(crate) fn end(&mut self) -> Option<Item>
        requires { IsReady self.old }
        ensures some { IfSome result (λ item. IsFirst (ended_bands self.old.bands self.old.waiting.items) item self.new.waiting.items []) }
        ensures none { IfNone result (ended_bands self.old.bands self.old.waiting.items ≡ []) }
    {
        if self.bands > 0 {
            Some(self.end_bands())
        } else {
            None
        }
    }

    /// Drops the corrections that wait.
    pub(crate) fn clear(&mut self)
        ensures { self.new ≡ cleared self.old }
    {
        self.waiting.clear();
    }
}
