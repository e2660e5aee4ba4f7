//! The bits of a store, followed by those of complete bytes.
ghost use Rattle.std.specs.Prelude.{◌≡◌, ◌<◌, ◌≤◌, ◌*◌, ◌+◌, [], length, true, false};
ghost use Rattle.jpg_seq.specs.Source.{bits_in};

use jpg_base::BitStore;

/// Bits in a store, followed by bytes.
#[derive(Drop)]
pub struct Source<'a> {
    pub store: BitStore,
    pub bytes: &'a [u8],
}

impl<'a> Source<'a> {
    /// A copy of the source.
    #[inline(always)]
    pub fn copy(&self) -> Source<'a>
        ensures { result ≡ self.now }
    {
        Source {
            store: self.store.copy(),
            bytes: self.bytes,
        }
    }

    /// Takes bytes until the store has 32 bits, or all bytes.
    #[inline(always)]
    #[tactic(auto, using(crate::proofs::Takings::source_long))]
    pub fn fill(&mut self)
        ensures same { bits_in self.new ≡ bits_in self.old }
        ensures full { length self.new.store < 32 → self.new.bytes.now ≡ [] }
    {
        if self.store.len() >= 32 {
            return;
        }
        if !self.take_four() {
            self.take_all();
        }
    }

    /// Takes four bytes if the store has fewer than 32 bits and there are four.
    #[inline(always)]
    pub fn more(&mut self)
        ensures { bits_in self.new ≡ bits_in self.old }
    {
        if self.store.len() < 32 {
            let _ = self.take_four();
        }
    }

    // Takes four bytes, if there are four.
    #[inline(always)]
    #[tactic(auto, using(crate::proofs::Takings::four_long))]
    fn take_four(&mut self) -> bool
        requires room { length self.old.store < 32 }
        ensures same { bits_in self.new ≡ bits_in self.old }
        ensures four { result ≡ true → 32 ≤ length self.new.store }
        ensures few { result ≡ false → (self.new ≡ self.old) × (length self.old.bytes.now < 4) }
    {
        if let [a, b, c, d, behind @ ..] = self.bytes {
            self.store.push_four(*a, *b, *c, *d);
            self.bytes = behind;
            true
        } else {
            false
        }
    }

    /// Takes all bytes.
    #[inline(never)]
    #[tactic(auto, using(crate::proofs::Takings::byte_fits))]
    pub fn take_all(&mut self)
        requires room { length (bits_in self.old) ≤ 64 }
        ensures store { self.new.store ≡ bits_in self.old }
        ensures none { self.new.bytes.now ≡ [] }
    {
        for byte in self.bytes {
            self.store.push(*byte);
        }
        self.bytes = &[];
    }

    /// How many bits there are.
    #[tactic(auto, using(crate::proofs::Takings::source_long))]
    pub fn len(&self) -> u64
        requires few { length self.now.bytes.now < 4294967296 }
        ensures { result ≡ length (bits_in self.now) }
    {
        8 * self.bytes.len() as u64 + u64::from(self.store.len())
    }
}
