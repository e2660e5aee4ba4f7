//! AC codes, and values decoded by one lookup of ten bits (T.81, F.2.2.2, Figures F.13 and F.14).
ghost use Rattle.std.specs.Prelude.{◌≡◌, ◌<◌, ◌≤◌, List, length, Contains, IfSome};
ghost use Rattle.jpg_spec.specs.Bits.{bits_of};
ghost use Rattle.jpg_spec.specs.Codes.{Code};
ghost use Rattle.jpg_huff.specs.Laws.{AreApart};
ghost use Rattle.jpg_huff.specs.Look.{Spots};
ghost use Rattle.jpg_seq.specs.Values.{AreShortValues, TellsShortValue, TellsOrNone};

use jpg_base::BitStore;
use jpg_huff::{Decoder, Spotted, extend};
use std::marker::Model;

/// The run of an entry that is the end of a block: more than any other has.
pub const END_RUN: u8 = 64;

/// A value that bits begin with. A run of `END_RUN` is the end of a block, which has no value.
#[derive(Clone, Copy)]
pub struct ShortValue {
    /// How many bits encode both, 0 if there is no such value.
    pub length: u8,
    /// How many zeros are before it.
    pub run: u8,
    /// The value.
    pub value: i16,
}

/// The codes of an AC table, and the values by the next ten bits.
#[derive(Drop)]
pub struct ValueDecoder {
    pub(crate) decoder: Decoder,
    // filled in by `fill`
    pub(crate) entries: [ShortValue; 1024],
}

impl Model for ValueDecoder {
    ghost use Rattle.std.specs.Prelude.{List};
    ghost use Rattle.jpg_spec.specs.Codes.{Code};
    ghost use Rattle.jpg_seq.specs.Values.{AreShortValues};

    ghost Value = { List Code };

    ghost view = { λ d. d.decoder };

    ghost invariant = { λ d. AreShortValues d.decoder d.entries };
}

// The bits of a number below 1024.
fn ten_bits(ten: u16) -> BitStore
    requires { ten < 1024 }
    ensures { result ≡ bits_of 10 ten }
{
    let mut bits = BitStore::new();
    bits.push((ten / 4) as u8);
    bits.push_bit(ten / 2 % 2 == 1);
    bits.push_bit(ten % 2 == 1);
    bits
}

/// No value.
pub(crate) fn no_short_value() -> ShortValue
    ensures { result.length ≡ 0 }
{
    ShortValue {
        value: 0,
        run: 0,
        length: 0,
    }
}

// The entry of these ten bits.
fn entry_by(codes: &Decoder, ten: u16) -> ShortValue
    requires { ten < 1024 }
    ensures { TellsOrNone codes.now (bits_of 10 ten) result }
{
    codes.apart();
    let bits = ten_bits(ten);
    match codes.spot(&bits) {
        Spotted::Symbol { length, symbol } => {
            let size = symbol % 16;
            if symbol == 0 {
                ShortValue {
                    value: 0,
                    run: END_RUN,
                    length,
                }
            } else if size > 0 && length + size <= 10 {
                ShortValue {
                    value: extend(size, bits.peek_after(length, size)),
                    run: symbol / 16,
                    length: length + size,
                }
            } else {
                no_short_value()
            }
        }
        Spotted::Part => no_short_value(),
        Spotted::NoCode { .. } => no_short_value(),
    }
}

/// Fills in the values of a decoder by the next ten bits, in their place.
#[cold]
#[inline(never)]
pub(crate) fn fill(decoder: &Decoder, entries: &mut [ShortValue; 1024])
    ensures { AreShortValues decoder.now entries.new }
{
    for ten in 0..1024usize {
        entries[ten] = entry_by(decoder, ten as u16);
    }
}

impl ValueDecoder {
    /// States, for proofs, that no code is a prefix of another, and none is empty. It does nothing.
    pub fn apart(&self)
        ensures one { AreApart self.now }
        ensures some { (code : Code) → Contains self.now code → 1 ≤ length code.0 }
    {
        self.decoder.apart();
    }

    /// Which code these bits begin with.
    #[inline(always)]
    pub fn spot(&self, bits: &BitStore) -> Spotted
        ensures { Spots self.now bits.now result }
    {
        self.decoder.spot(bits)
    }

    /// The value that the first ten of these bits encode, or the end of a block: None if they encode neither, or if
    /// there are fewer.
    #[inline(always)]
    #[tactic(auto, using(crate::proofs::Takings::entry_first))]
    pub fn entry(&self, bits: &BitStore) -> Option<ShortValue>
        ensures value { TellsShortValue self.now bits.now result }
        ensures fits { IfSome result (λ t. (t.length ≤ 10) × (t.length ≤ length bits.now)) }
    {
        if bits.len() < 10 {
            return None;
        }
        let entry = self.entries[bits.peek(10) as usize];
        if entry.length == 0 { None } else { Some(entry) }
    }
}
