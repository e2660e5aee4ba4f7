//! A quantisation table (T.81, B.2.4.1, Figure B.6).
ghost use Rattle.std.specs.Prelude.{◌≡◌, ◌<◌, ◌≤◌, replicate, slice_index, slice_set, length, IsTrue, ◌↔◌};
ghost use Rattle.jpg_spec.specs.Lists.{are_equal};
ghost use Rattle.jpg_spec.specs.Transposed.{transposed};

use arrayvec::ArrayVec;
use std::marker::Model;

// For each place in zigzag order, the place with the horizontal and the vertical frequency exchanged.
static EXCHANGED: [u8; 64] = [
    0, 2, 1, 5, 4, 3, 9, 8, 7, 6, 14, 13, 12, 11, 10, 20, 19, 18, 17, 16, 15, 27, 26, 25, 24, 23,
    22, 21, 35, 34, 33, 32, 31, 30, 29, 28, 42, 41, 40, 39, 38, 37, 36, 48, 47, 46, 45, 44, 43, 53,
    52, 51, 50, 49, 57, 56, 55, 54, 60, 59, 58, 62, 61, 63,
];

/// 64 quantisers in zigzag order, from 0 to 65535 (T.81, B.2.4.1).
#[derive(Clone, Copy, Debug, PartialEq, Eq)]
pub struct QuantTable {
    values: [u16; 64],
}

impl Model for QuantTable {
    ghost use Rattle.std.specs.Prelude.{List, ℕ};

    ghost Value = { List ℕ };

    ghost view = { λ t. t.values };

    ghost inverse = { λ values. record { values = values } };
}

impl Default for QuantTable {
    // 64 ones.
    fn default() -> QuantTable {
        QuantTable::ones()
    }
}

impl QuantTable {
    /// 64 ones.
    pub fn ones() -> QuantTable
        ensures { result ≡ replicate 64 1 }
    {
        QuantTable { values: [1; 64] }
    }

    /// These quantisers.
    pub fn of(values: [u16; 64]) -> QuantTable
        ensures { result ≡ values }
    {
        QuantTable { values }
    }

    /// A copy of the tables of up to four components.
    pub fn copied(tables: &[QuantTable]) -> ArrayVec<QuantTable, 4>
        requires { length tables.now ≤ 4 }
        ensures { result.items ≡ tables.now }
    {
        let mut list = ArrayVec::new();
        let _ = list.try_extend_from_slice(tables);
        list
    }

    /// Its quantisers.
    pub fn values(&self) -> [u16; 64]
        ensures { result ≡ self.now }
    {
        self.values
    }

    /// The quantiser at place `k`.
    pub fn get(&self, k: u8) -> u16
        requires { k < 64 }
        ensures value { result ≡ slice_index self.now k }
        ensures long { length self.now ≡ 64 }
    {
        self.values[k as usize]
    }

    /// Puts `value` at place `k`. All other quantisers remain.
    pub fn set(&mut self, k: u8, value: u16)
        requires { k < 64 }
        ensures value { self.new ≡ slice_set self.old k value }
        ensures long { length self.old ≡ 64 }
    {
        self.values[k as usize] = value;
    }

    /// Whether the tables have the same quantisers.
    pub fn is_same(&self, other: &QuantTable) -> bool
        ensures value { result ≡ are_equal self.now other.now }
        ensures same { IsTrue result ↔ (self.now ≡ other.now) }
    {
        self.values == other.values
    }

    /// States, for proofs, that it has 64 quantisers. It does nothing.
    pub fn long(&self)
        ensures { length self.now ≡ 64 }
    {
        let _ = &self.values;
    }

    /// The table with its axes exchanged: each place has the quantiser of the place with the horizontal and the
    /// vertical frequency exchanged.
    pub fn transposed(&self) -> QuantTable
        ensures { result ≡ transposed 0 self.now }
    {
        let mut values = [0; 64];
        for k in 0..64 {
            values[k] = self.values[EXCHANGED[k] as usize];
        }
        QuantTable { values }
    }
}
