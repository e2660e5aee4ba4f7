//! A unit of a sequential scan, read from a store of bits, several elements at once (T.81, F.2.2.1, F.2.2.2).
ghost use Rattle.std.specs.Prelude.{◌≡◌, ◌<◌, ◌≤◌, ◌+◌, true, false, [], ◌∷◌, ◌++◌, length, take, IfNone, None, Some};
ghost use Rattle.jpg_spec.specs.Elements.{zeros};
ghost use Rattle.jpg_seq.specs.Work.{AreSane, AreNext, IsNextElement, TakesElement, TakesFromStore, IsAtWork, IsUnitCovered, IsFirstValue, no_work, env_by};
ghost use Rattle.jpg_seq.specs.Source.{bits_in};
ghost use Rattle.jpg_seq.specs.Values.{TellsNoPlace};
ghost use Rattle.jpg_seq.specs.declared.work.UnitEnd.TheVariants.{Empty};

use crate::source::Source;
use crate::values::{END_RUN, ValueDecoder};
use jpg_base::{BitStore, Block, Bounds};
use jpg_coefs::UnitFault;
use jpg_huff::{Decoder, Spotted, extend};
use std::marker::Model;

/// The next element of a unit, or that more bits are needed, or a fault. `length` is in bits.
#[derive(Clone, Copy)]
pub enum NextElement {
    Part,
    Value { run: u8, value: i16, length: u8 },
    /// So many zeros, and the length.
    Zeros(u8, u8),
    /// A fault, and the length of what reveals it.
    Bad(UnitFault, u8),
}

/// Why no more bits of a unit are taken: all were, the unit is complete, or there is a fault.
#[derive(Clone, Copy)]
pub enum UnitEnd {
    Empty,
    Done,
    Fault(UnitFault),
}

/// The tables of a component.
#[derive(Drop)]
pub struct Coder {
    pub dc: Decoder,
    pub ac: ValueDecoder,
}

/// What a unit is decoded with: the bounds of its values, the tables of its component, and PRED (T.81, F.1.1.5.1).
#[derive(Clone, Copy)]
pub struct UnitEnv<'a> {
    pub bounds: &'a Bounds,
    pub coder: &'a Coder,
    pub prediction: i16,
}

// The DC value by its difference to the prediction (T.81, F.2.2.1).
#[inline(always)]
fn first_value(env: &UnitEnv<'_>, difference: i16, length: u8) -> NextElement
    requires sane { AreSane env.now.bounds.now }
    ensures { IsFirstValue (env_by env.now) difference length result }
{
    let first = i32::from(env.prediction) + i32::from(difference);
    if first < env.bounds.dc_low {
        NextElement::Bad(UnitFault::CoefRange, length)
    } else if first > env.bounds.dc_high {
        NextElement::Bad(UnitFault::CoefRange, length)
    } else {
        NextElement::Value {
            run: 0,
            value: first as i16,
            length,
        }
    }
}

// The first element of a unit: the category of the difference, and its extra bits (T.81, F.2.2.1, Figure F.12).
#[inline(always)]
fn next_dc(env: &UnitEnv<'_>, bits: &BitStore) -> NextElement
    requires sane { AreSane env.now.bounds.now }
    ensures { IsNextElement (env_by env.now) [] bits.now result }
{
    env.coder.dc.apart();
    match env.coder.dc.spot(bits) {
        Spotted::Part => NextElement::Part,
        Spotted::NoCode { length } => NextElement::Bad(UnitFault::NoCode, length),
        Spotted::Symbol { length, symbol } => {
            if symbol > env.bounds.dc_cat {
                NextElement::Bad(UnitFault::BadSymbol, length)
            } else if symbol == 0 {
                first_value(env, 0, length)
            } else if length + symbol <= bits.len() {
                let difference = extend(symbol, bits.peek_after(length, symbol));
                first_value(env, difference, length + symbol)
            } else {
                NextElement::Part
            }
        }
    }
}

/// The current unit.
#[derive(Drop)]
pub struct UnitWork {
    // Its values up to `at`, and zeros.
    values: Block,
    // The place of the next value.
    at: u8,
    // The bits of the current element so far.
    part: BitStore,
}

impl Model for UnitWork {
    ghost use Rattle.std.specs.Prelude.{take};
    ghost use Rattle.jpg_seq.specs.Work.{Work, IsBlockSoFar};

    ghost Value = { Work };

    ghost view = { λ u. record { values = take u.at u.values; part = u.part } };

    ghost invariant = { λ u. IsBlockSoFar u.values u.at u.part };
}

impl UnitWork {
    /// A unit before its first bit.
    #[inline(always)]
    pub fn new() -> UnitWork
        ensures { result ≡ no_work }
    {
        UnitWork {
            values: Block::zero(),
            at: 0,
            part: BitStore::new(),
        }
    }

    // Adds zeros.
    #[inline(always)]
    fn cover(&mut self, count: u8)
        requires { length self.old.values + count ≤ 64 }
        ensures { self.new ≡ record (self.old) { values = self.old.values ++ zeros count } }
    {
        self.at += count;
    }

    // Adds zeros and a value.
    #[inline(always)]
    fn place(&mut self, run: u8, value: i16)
        requires { length self.old.values + run < 64 }
        ensures { self.new ≡ record (self.old) { values = self.old.values ++ (zeros run ++ value ∷ []) } }
    {
        let at = self.at + run;
        self.values.set(at, value);
        self.at = at + 1;
    }

    // How many values there are.
    #[inline(always)]
    fn count(&self) -> u8
        ensures value { result ≡ length self.now.values }
        ensures most { result ≤ 64 }
    {
        self.at
    }

    // Whether the unit is complete.
    #[inline(always)]
    fn covered(&self) -> Option<UnitEnd>
        ensures { IsUnitCovered self.now result }
    {
        if self.at == 64 {
            Some(UnitEnd::Done)
        } else {
            None
        }
    }

    // Appends all bits of the store to the part.
    #[inline(always)]
    fn keep(&mut self, store: &mut BitStore)
        requires { length self.old.part + length store.old < 32 }
        ensures work { self.new ≡ record (self.old) { part = self.old.part ++ store.old } }
        ensures empty { store.new ≡ [] }
    {
        self.part.take_from(store);
    }

    // Empties the part.
    #[inline(always)]
    fn clear(&mut self)
        ensures { self.new ≡ record (self.old) { part = [] } }
    {
        self.part = BitStore::new();
    }

    // How many bits the part has.
    #[inline(always)]
    fn waiting(&self) -> u8
        ensures { result ≡ length self.now.part }
    {
        self.part.len()
    }

    // The part followed by bits of the store.
    #[inline(always)]
    fn joined(&self, store: &BitStore) -> BitStore
        ensures { AreNext self.now.part store.now result }
    {
        self.part.joined(store)
    }

    // The next element: DC first, and then AC, which is a value after a run of zeros, or zeros (T.81, F.2.2.2, Figures F.13
    // and F.14).
    #[inline(always)]
    fn next(&self, env: &UnitEnv<'_>, bits: &BitStore) -> NextElement
        requires sane { AreSane env.now.bounds.now }
        requires left { length self.now.values < 64 }
        ensures { IsNextElement (env_by env.now) self.now.values bits.now result }
    {
        let at = self.count();
        if at == 0 {
            return next_dc(env, bits);
        }
        let ac = &env.coder.ac;
        ac.apart();
        let left = 64 - at;
        match ac.spot(bits) {
            Spotted::Part => NextElement::Part,
            Spotted::NoCode { length } => NextElement::Bad(UnitFault::NoCode, length),
            Spotted::Symbol { length, symbol } => {
                let run = symbol / 16;
                let size = symbol % 16;
                if size > env.bounds.ac_cat {
                    NextElement::Bad(UnitFault::BadSymbol, length)
                } else if size == 0 {
                    if run == 0 {
                        NextElement::Zeros(left, length)
                    } else if run == 15 {
                        NextElement::Zeros(left.min(16), length)
                    } else {
                        NextElement::Bad(UnitFault::BadSymbol, length)
                    }
                } else if run >= left {
                    NextElement::Bad(UnitFault::BadRun, length)
                } else if length + size <= bits.len() {
                    NextElement::Value {
                        run,
                        value: extend(size, bits.peek_after(length, size)),
                        length: length + size,
                    }
                } else {
                    NextElement::Part
                }
            }
        }
    }

    // Takes the bits of an element, where `bits` begin with those of the part, of which there are `have`, followed by the
    // store's.
    #[inline(always)]
    fn element(
        &mut self,
        env: &UnitEnv<'_>,
        have: u8,
        bits: &BitStore,
        store: &mut BitStore,
    ) -> Option<UnitEnd>
        requires sane { AreSane env.now.bounds.now }
        requires work { IsAtWork (env_by env.now) self.old }
        requires have { have ≡ length self.old.part }
        requires next { AreNext self.old.part store.old bits.now }
        ensures takes { TakesFromStore (env_by env.now) self.old store.old result self.new store.new }
        ensures grows { IfNone result (length self.old.values < length self.new.values) }
        ensures few { result ≡ Some Empty → length store.old < 32 }
    {
        match self.next(env, bits) {
            NextElement::Part => {
                self.keep(store);
                Some(UnitEnd::Empty)
            }
            NextElement::Bad(fault, length) => {
                store.skip(length - have);
                Some(UnitEnd::Fault(fault))
            }
            NextElement::Value { run, value, length } => {
                store.skip(length - have);
                self.clear();
                self.place(run, value);
                self.covered()
            }
            NextElement::Zeros(count, length) => {
                store.skip(length - have);
                self.clear();
                self.cover(count);
                self.covered()
            }
        }
    }

    // Takes a value that ten bits encode, or the end of the block (T.81, F.2.2.2). Returns false if they encode
    // neither, or a value that has no place.
    #[inline(always)]
    fn value_by_ten(&mut self, env: &UnitEnv<'_>, store: &mut BitStore) -> bool
        requires sane { AreSane env.now.bounds.now }
        requires left { (1 ≤ length self.old.values) × (length self.old.values < 64) }
        requires none { self.old.part ≡ [] }
        ensures takes { result ≡ true → TakesElement (env_by env.now) self.old store.old self.new store.new }
        ensures same { result ≡ false → (self.new ≡ self.old) × (store.new ≡ store.old) }
        ensures none { result ≡ false → TellsNoPlace env.now.coder.now.ac (length self.old.values) store.old }
    {
        let ac = &env.coder.ac;
        ac.apart();
        let at = self.count();
        let Some(entry) = ac.entry(store) else {
            return false;
        };
        if at + entry.run < 64 {
            store.skip_few(entry.length);
            self.place(entry.run, entry.value);
            true
        } else if entry.run == END_RUN {
            store.skip_few(entry.length);
            self.cover(64 - at);
            true
        } else {
            false
        }
    }

    // Takes values that ten bits encode, one after another, up to the end of the unit, or until there are too few bits
    // or they encode none.
    #[inline(always)]
    fn values_by_ten(&mut self, env: &UnitEnv<'_>, source: &mut Source<'_>) -> Option<UnitEnd>
        requires sane { AreSane env.now.bounds.now }
        requires left { (1 ≤ length self.old.values) × (length self.old.values < 64) }
        requires none { self.old.part ≡ [] }
        ensures takes { TakesFromStore (env_by env.now) self.old (bits_in source.old) result self.new (bits_in source.new) }
        ensures grows { length self.old.values ≤ length self.new.values }
    {
        let mut here = source.copy();
        loop {
            here.more();
            if !self.value_by_ten(env, &mut here.store) {
                *source = here;
                return None;
            }
            if let Some(end) = self.covered() {
                *source = here;
                return Some(end);
            }
        }
    }

    // Takes the element of which some bits wait, if any do.
    #[inline(always)]
    fn split_element(&mut self, env: &UnitEnv<'_>, source: &mut Source<'_>) -> Option<UnitEnd>
        requires sane { AreSane env.now.bounds.now }
        requires work { IsAtWork (env_by env.now) self.old }
        ensures { TakesFromStore (env_by env.now) self.old (bits_in source.old) result self.new (bits_in source.new) }
    {
        let have = self.waiting();
        if have == 0 {
            return None;
        }
        source.fill();
        let bits = self.joined(&source.store);
        self.element(env, have, &bits, &mut source.store)
    }

    /// Takes bits up to the end of the unit or of the source, or up to one that reveals a fault.
    #[inline(always)]
    pub fn take(&mut self, env: &UnitEnv<'_>, source: &mut Source<'_>) -> UnitEnd
        requires sane { AreSane env.now.bounds.now }
        requires work { IsAtWork (env_by env.now) self.old }
        ensures { TakesFromStore (env_by env.now) self.old (bits_in source.old) (Some result) self.new (bits_in source.new) }
    {
        if let Some(end) = self.split_element(env, source) {
            return end;
        }
        loop {
            source.fill();
            let bits = source.store.copy();
            if let Some(end) = self.element(env, 0, &bits, &mut source.store) {
                return end;
            }
            if let Some(end) = self.values_by_ten(env, source) {
                return end;
            }
        }
    }

    /// A copy of the unit.
    #[inline(always)]
    pub fn copy(&self) -> UnitWork
        ensures { result ≡ self.now }
    {
        UnitWork {
            values: self.values,
            at: self.at,
            part: self.part.copy(),
        }
    }

    /// The complete block.
    #[inline(always)]
    pub fn block(&self) -> Block
        requires { length self.now.values ≡ 64 }
        ensures { result ≡ self.now.values }
    {
        self.values
    }
}
