//! A short text, built from its end.
ghost use Rattle.std.specs.Prelude.{◌≡◌, ◌<◌, ◌≤◌, ◌+◌, [], ◌∷◌, ◌++◌, length};
ghost use Rattle.std.specs.Fmt.{decimal};
ghost use Rattle.jpg_spec_image.specs.ImageText.{long, short};

use std::marker::Model;

// At most 64 bytes. New bytes are put before those that are there.
#[derive(Drop)]
pub(crate) struct Short {
    places: [u8; 64],
    free: u8,
}

impl Model for Short {
    ghost use Rattle.std.specs.Prelude.{◌≤◌, List, ℕ, drop};

    ghost Value = { List ℕ };

    ghost view = { λ s. drop s.free s.places };

    ghost invariant = { λ s. s.free ≤ 64 };
}

impl Short {
    // The empty text.
    pub(crate) fn new() -> Short
        ensures { result ≡ [] }
    {
        Short {
            places: [0; 64],
            free: 64,
        }
    }

    // The bytes of the text.
    pub(crate) fn as_slice(&self) -> &[u8]
        ensures { result.now ≡ self.now }
    {
        &self.places[self.free as usize..]
    }

    // Puts a byte before the text.
    pub(crate) fn put(&mut self, byte: u8)
        requires room { length self.old < 64 }
        ensures { self.new ≡ byte ∷ self.old }
    {
        self.free -= 1;
        self.places[self.free as usize] = byte;
    }

    // Puts bytes before the text.
    pub(crate) fn put_bytes(&mut self, bytes: &[u8])
        requires room { length bytes.now + length self.old ≤ 64 }
        ensures { self.new ≡ bytes.now ++ self.old }
    {
        let end = self.free as usize;
        let start = end - bytes.len();
        self.places[start..end].copy_from_slice(bytes);
        self.free = start as u8;
    }

    // Puts another text before it.
    pub(crate) fn put_text(&mut self, text: &str)
        requires room { length text.now + length self.old ≤ 64 }
        ensures { self.new ≡ text.now ++ self.old }
    {
        self.put_bytes(text.as_bytes());
    }

    // Puts the number as two bytes, the low one first, before the text.
    pub(crate) fn put_short(&mut self, number: u16)
        requires room { 2 + length self.old ≤ 64 }
        ensures bytes { self.new ≡ short number ++ self.old }
        ensures more { length self.new ≡ 2 + length self.old }
    {
        self.put_bytes(&number.to_le_bytes());
    }

    // Puts the number as four bytes, the lowest first, before the text.
    pub(crate) fn put_long(&mut self, number: u32)
        requires room { 4 + length self.old ≤ 64 }
        ensures bytes { self.new ≡ long number ++ self.old }
        ensures more { length self.new ≡ 4 + length self.old }
    {
        self.put_bytes(&number.to_le_bytes());
    }

    // Puts the number in decimal digits before the text.
    pub(crate) fn put_number(&mut self, number: u32)
        requires small { number < 100000 }
        requires room { 5 + length self.old ≤ 64 }
        ensures text { self.new ≡ decimal number ++ self.old }
        ensures most { length self.new ≤ 5 + length self.old }
    {
        let mut rest = number;
        while rest >= 10 {
            self.put(48 + (rest % 10) as u8);
            rest /= 10;
        }
        self.put(48 + rest as u8);
    }
}
