//! The extra bits of a number, collected bit by bit (T.81, F.2.2.1, G.1.2.2).
ghost use Rattle.std.specs.Prelude.{◌≡◌, ◌<◌, ◌≤◌, ◌+◌, ◌-◌, ◌*◌, ◌^◌, true, [], ◌∷◌, ◌++◌, length, pos, ◌-ℤ◌};
ghost use Rattle.jpg_spec.specs.Bits.{bits_of};
ghost use Rattle.jpg_spec.specs.Lists.{is_empty};
ghost use Rattle.jpg_spec.specs.Numbers.{category, extra_bits, digits};
ghost use Rattle.jpg_prog_read.specs.ExtraWork.{IsWanting};

use std::marker::Model;

/// Whether more bits are needed.
pub enum Extra {
    Wanting,
    Enough,
}

// By how much these extra bits, read as a number, exceed the number that they encode (F.2.2.1, Figure F.12): by
// 2 ^ size - 1 if the first of them is 0, by nothing if it is 1. It is a product, as no branch on that bit is foreseen.
#[inline(always)]
fn excess(size: u8, number: u32) -> u32
    requires size { size ≤ 15 }
    requires fits { number < 2 ^ size }
    ensures high { 2 ^ size ≤ 2 * number → result ≡ 0 }
    ensures low { 2 * number < 2 ^ size → result ≡ 2 ^ size - 1 }
    ensures few { result < 2 ^ size }
{
    let ones = (1 << size) - 1;
    ones * (1 - (2 * number >> size))
}

// The number minus another one.
#[inline(always)]
fn lowered(number: u32, less: u32) -> i16
    requires number { number < 2 ^ 15 }
    requires less { less < 2 ^ 15 }
    ensures { result ≡ pos number -ℤ pos less }
{
    number as i16 - less as i16
}

/// The number of this category that these extra bits, read as a number, encode (F.2.2.1, Figure F.12).
#[inline(always)]
pub fn number_of(size: u8, extra: u32) -> i16
    requires size { size ≤ 15 }
    requires fits { extra < 2 ^ size }
    ensures category { category result ≡ size }
    ensures extra { extra_bits result ≡ bits_of size extra }
{
    lowered(extra, excess(size, extra))
}

/// The extra bits of a number of some category, 0 to 15, that were taken so far.
#[derive(Drop)]
pub struct ExtraBits {
    size: u8,
    have: u8,
    number: u32,
}

impl Model for ExtraBits {
    ghost use Rattle.jpg_spec.specs.Bits.{bits_of};
    ghost use Rattle.jpg_prog_read.specs.ExtraWork.{ExtraWork, IsExtraKept};

    ghost Value = { ExtraWork };

    ghost view = { λ r. record { size = r.size; bits = bits_of r.have r.number } };

    ghost invariant = { λ r. IsExtraKept r.size r.have r.number };
}

impl ExtraBits {
    /// The state before the first bit of a number of this category.
    pub fn new(size: u8) -> ExtraBits
        requires { size ≤ 15 }
        ensures { result ≡ record { size = size; bits = [] } }
    {
        ExtraBits {
            size,
            have: 0,
            number: 0,
        }
    }

    /// The category.
    pub fn size(&self) -> u8
        ensures value { result ≡ self.now.size }
        ensures small { result ≤ 15 }
    {
        self.size
    }

    /// Whether none of its bits was taken.
    pub fn is_new(&self) -> bool
        ensures { result ≡ is_empty self.now.bits }
    {
        self.have == 0
    }

    /// Takes its first `count` bits at once, as a number.
    pub fn fill(&mut self, count: u8, number: u32)
        requires few { count ≤ self.old.size }
        requires fits { number < 2 ^ count }
        ensures { self.new ≡ record (self.old) { bits = bits_of count number } }
    {
        self.have = count;
        self.number = number;
    }

    // Adds one more bit.
    fn add(&mut self, bit: bool)
        requires { length self.old.bits < self.old.size }
        ensures { self.new ≡ record (self.old) { bits = self.old.bits ++ bit ∷ [] } }
    {
        self.number = 2 * self.number + u32::from(bit);
        self.have += 1;
    }

    // Whether more bits are needed.
    fn wants(&self) -> Extra
        requires { length self.now.bits ≤ self.now.size }
        ensures { IsWanting result self.now.size self.now.bits }
    {
        if self.have < self.size {
            Extra::Wanting
        } else {
            Extra::Enough
        }
    }

    /// Takes one more bit (RECEIVE: T.81, F.2.2.4). Returns whether more are needed.
    pub fn push(&mut self, bit: bool) -> Extra
        requires { length self.old.bits < self.old.size }
        ensures new { self.new ≡ record (self.old) { bits = self.old.bits ++ bit ∷ [] } }
        ensures wants { IsWanting result self.new.size self.new.bits }
    {
        self.add(bit);
        self.wants()
    }

    /// The number that they encode (F.2.2.1, Figure F.12).
    pub fn value(&self) -> i16
        requires { length self.now.bits ≡ self.now.size }
        ensures category { category result ≡ self.now.size }
        ensures extra { extra_bits result ≡ self.now.bits }
    {
        number_of(self.size, self.number)
    }

    /// How many bands end after the code of EOBn if these are its n bits (T.81, G.1.2.2, Table G.1).
    pub fn bands(&self) -> u32
        requires whole { length self.now.bits ≡ self.now.size }
        requires size { self.now.size ≤ 14 }
        ensures some { 1 ≤ result }
        ensures digits { digits result ≡ self.now.size + 1 }
        ensures extra { bits_of self.now.size result ≡ self.now.bits }
    {
        (1 << self.size) + self.number
    }
}
