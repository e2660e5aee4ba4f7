//! Data bytes and markers, separated by destuffing (T.81, B.1.1.5, F.1.2.3; F.2.2.5, Figure F.18).
ghost use Rattle.std.specs.Prelude.{◌≡◌, false};
ghost use Rattle.jpg_huff.specs.Gate.{Passes};

use std::marker::Model;

/// What passes the gate at a byte: nothing yet, a byte of data, or a marker's code, 1 to 254 (T.81, B.1.1.2).
#[derive(Clone, Copy, Debug, PartialEq, Eq)]
pub enum Passed {
    More,
    Data(u8),
    Marker(u8),
}

/// Whether one or more FF wait for the byte after them (T.81, B.1.1.2, B.1.1.5).
#[derive(Drop)]
pub struct Gate {
    waits: bool,
}

impl Model for Gate {
    ghost use Rattle.std.specs.Prelude.{Bool};

    ghost Value = { Bool };

    ghost view = { λ g. g.waits };
}

impl Gate {
    /// A gate at which no FF waits.
    pub fn new() -> Gate
        ensures { result ≡ false }
    {
        Gate { waits: false }
    }

    /// Whether FF waits.
    #[inline(always)]
    pub fn is_waiting(&self) -> bool
        ensures { result ≡ self.now }
    {
        self.waits
    }

    /// Takes a byte. A byte other than FF passes as data; after one or more FF, 00 passes as one data byte FF, and
    /// another byte as a marker. T.81 has one FF before 00; here there may be any number.
    #[inline(always)]
    pub fn byte(&mut self, byte: u8) -> Passed
        ensures { Passes self.old byte result self.new }
    {
        if byte == 255 {
            self.waits = true;
            Passed::More
        } else if !self.waits {
            Passed::Data(byte)
        } else {
            self.waits = false;
            if byte == 0 {
                Passed::Data(255)
            } else {
                Passed::Marker(byte)
            }
        }
    }
}
