//! Bits in a word, which wait to be decoded (T.81, F.2.2.4, F.2.2.5: RECEIVE and NEXTBIT take from it).
ghost use Rattle.std.specs.Prelude.{◌≡◌, ◌<◌, ◌≤◌, ◌+◌, ◌-◌, ◌*◌, ◌^◌, [], ◌∷◌, ◌++◌, length, take, drop, slice_index_or, false};
ghost use Rattle.jpg_spec.specs.Bits.{bits_of};

use std::marker::Model;

/// At most 64 bits in their order. They are the high `count` bits of the word; the bits below them are 0.
#[derive(Drop)]
pub struct BitStore {
    word: u64,
    count: u8,
}

impl Model for BitStore {
    ghost use Rattle.std.specs.Prelude.{List, Bool, ◌≤◌};
    ghost use Rattle.jpg_base.specs.Store.{low_of, IsHigh};
    ghost use Rattle.jpg_spec.specs.Bits.{bits_of};

    ghost Value = { List Bool };

    ghost view = { λ s. bits_of s.count (low_of s.count s.word) };

    ghost invariant = { λ s. (s.count ≤ 64) × IsHigh s.count s.word };
}

impl BitStore {
    /// No bits.
    pub fn new() -> BitStore
        ensures { result ≡ [] }
    {
        BitStore { word: 0, count: 0 }
    }

    /// A copy of the bits.
    #[inline(always)]
    pub fn copy(&self) -> BitStore
        ensures { result ≡ self.now }
    {
        BitStore {
            word: self.word,
            count: self.count,
        }
    }

    /// How many bits there are.
    #[inline(always)]
    pub fn len(&self) -> u8
        ensures value { result ≡ length self.now }
        ensures most { result ≤ 64 }
    {
        self.count
    }

    /// Appends the bits of a byte.
    #[inline(always)]
    pub fn push(&mut self, byte: u8)
        requires { length self.old ≤ 56 }
        ensures { self.new ≡ self.old ++ bits_of 8 byte }
    {
        self.append(u64::from(byte), 8);
    }

    // Appends the low bits of a number.
    #[inline(always)]
    fn append(&mut self, number: u64, n: u8)
        requires room { length self.old + n ≤ 64 }
        requires few { (1 ≤ n) × (n ≤ 32) }
        requires fits { number < 2 ^ n }
        ensures { self.new ≡ self.old ++ bits_of n number }
    {
        self.count += n;
        self.word = self.word | number << (64 - self.count);
    }

    // The `n` bits after the first `before` ones.
    #[inline(always)]
    fn part(&self, before: u8, n: u8) -> u64
        requires some { 1 ≤ n }
        requires few { n ≤ 32 }
        requires there { before + n ≤ length self.now }
        ensures value { bits_of n result ≡ take n (drop before self.now) }
        ensures fits { result < 2 ^ n }
    {
        (self.word << before) >> (64 - n)
    }

    /// The first `n` bits as a number.
    #[inline(always)]
    pub fn peek(&self, n: u8) -> u32
        requires few { n ≤ 24 }
        requires there { n ≤ length self.now }
        ensures value { bits_of n result ≡ take n self.now }
        ensures fits { result < 2 ^ n }
    {
        if n == 0 { 0 } else { self.part(0, n) as u32 }
    }

    /// The `n` bits after the first `before` ones, as a number.
    #[inline(always)]
    pub fn peek_after(&self, before: u8, n: u8) -> u32
        requires some { 1 ≤ n }
        requires few { n ≤ 24 }
        requires there { before + n ≤ length self.now }
        ensures value { bits_of n result ≡ take n (drop before self.now) }
        ensures fits { result < 2 ^ n }
    {
        self.part(before, n) as u32
    }

    /// The bit at place `i`.
    #[inline(always)]
    pub fn bit(&self, i: u8) -> bool
        requires { i < length self.now }
        ensures { result ≡ slice_index_or self.now i false }
    {
        self.part(i, 1) == 1
    }

    // Four bytes as a number.
    #[inline(always)]
    fn number_of(a: u8, b: u8, c: u8, d: u8) -> u64
        ensures value { result ≡ ((a * 256 + b) * 256 + c) * 256 + d }
        ensures fits { result < 2 ^ 32 }
        ensures bytes { (b < 2 ^ 8) × (c < 2 ^ 8) × (d < 2 ^ 8) }
    {
        ((u64::from(a) * 256 + u64::from(b)) * 256 + u64::from(c)) * 256 + u64::from(d)
    }

    /// Appends the bits of four bytes.
    #[inline(always)]
    pub fn push_four(&mut self, a: u8, b: u8, c: u8, d: u8)
        requires { length self.old ≤ 32 }
        ensures { self.new ≡ self.old ++ (((bits_of 8 a ++ bits_of 8 b) ++ bits_of 8 c) ++ bits_of 8 d) }
    {
        self.append(BitStore::number_of(a, b, c, d), 32);
    }

    /// Appends a bit.
    #[inline(always)]
    pub fn push_bit(&mut self, bit: bool)
        requires { length self.old ≤ 63 }
        ensures { self.new ≡ self.old ++ bit ∷ [] }
    {
        self.append(u64::from(bit), 1);
    }

    /// Drops the first `n` bits.
    #[inline(always)]
    pub fn skip(&mut self, n: u8)
        requires { n ≤ length self.old }
        ensures { self.new ≡ drop n self.old }
    {
        if n < 64 {
            self.skip_few(n);
        } else {
            self.word = 0;
            self.count -= n;
        }
    }

    /// The same for fewer than 64 bits, which takes one shift.
    #[inline(always)]
    pub fn skip_few(&mut self, n: u8)
        requires there { n ≤ length self.old }
        requires few { n < 64 }
        ensures { self.new ≡ drop n self.old }
    {
        self.word = self.word << n;
        self.count -= n;
    }

    /// Takes 32 bits from the start of another store, or all that it has.
    #[inline(always)]
    pub fn take_from(&mut self, store: &mut BitStore)
        requires { length self.old ≤ 32 }
        ensures taken { self.new ≡ self.old ++ take 32 store.old }
        ensures left { store.new ≡ drop 32 store.old }
    {
        let n = store.len().min(32);
        if n > 0 {
            let number = store.part(0, n);
            self.append(number, n);
            store.skip_few(n);
        }
    }

    /// These bits, followed by the first 32 of another store, or by all of its bits if there are fewer.
    #[inline(always)]
    pub fn joined(&self, store: &BitStore) -> BitStore
        requires { length self.now ≤ 32 }
        ensures { result ≡ self.now ++ take 32 store.now }
    {
        let mut all = BitStore {
            word: self.word,
            count: self.count,
        };
        let n = store.len().min(32);
        if n > 0 {
            all.append(store.part(0, n), n);
        }
        all
    }
}
