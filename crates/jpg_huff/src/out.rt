//! Bits written as stuffed bytes (T.81, C.3, F.1.2.3).
ghost use Rattle.std.specs.Prelude.{◌≡◌, ◌≤◌, ◌<◌, ◌+◌, ◌*◌, ◌-◌, ◌^◌, [], ◌++◌, true};
ghost use Rattle.jpg_spec.specs.Bits.{bits_of};
ghost use Rattle.jpg_huff.specs.BitOut.{CanSend, Puts, PutsAfter, PutsInto, Pads, Sends, extended_bits, nothing_waits, waiting, holding};

use crate::Code;
use crate::buffer::Buffer;
use jpg_base::{Desk, WriteFault};
use std::marker::Model;

/// Fewer than 64 bits that wait, kept by the caller of `put_after` and `put_code_after`.
#[derive(Drop)]
pub struct PendingBits {
    word: u64,
    count: u8,
}

impl Model for PendingBits {
    ghost use Rattle.std.specs.Prelude.{List, Bool, ◌<◌, ◌^◌};
    ghost use Rattle.jpg_spec.specs.Bits.{bits_of};

    ghost Value = { List Bool };

    ghost view = { λ h. bits_of h.count h.word };

    ghost invariant = { λ h. (h.count < 64) × (h.word < 2 ^ h.count) };
}

// A number of `held` bits, followed by the first of `count` bits, so that they are 64 in all.
#[inline(always)]
fn filled(word: u64, held: u8, bits: u32, count: u8) -> u64
    requires held { held < 64 }
    requires word { word < 2 ^ held }
    requires count { (count ≤ 32) × (64 ≤ held + count) }
    requires bits { bits < 2 ^ count }
    ensures { bits_of 64 result ++ bits_of (held + count - 64) bits ≡ bits_of held word ++ bits_of count bits }
{
    let left = held + count - 64;
    (word << (count - left)) + (u64::from(bits) >> left)
}

impl PendingBits {
    // No bits.
    #[inline(always)]
    fn none() -> PendingBits
        ensures { result ≡ [] }
    {
        PendingBits { word: 0, count: 0 }
    }

    // A copy of the bits.
    #[inline(always)]
    fn copy(&self) -> PendingBits
        ensures { result ≡ self.now }
    {
        PendingBits {
            word: self.word,
            count: self.count,
        }
    }

    // Adds a number below `2^count` as `count` bits. Returns the bits that wait then.
    #[inline(always)]
    fn put<D: Desk>(
        self,
        bits: u32,
        count: u8,
        buffer: &mut Buffer,
        desk: &mut D,
    ) -> Result<PendingBits, WriteFault>
        requires created { (D.state desk.old).output_created ≡ true }
        requires count { count ≤ 32 }
        requires bits { bits < 2 ^ count }
        ensures { PutsInto (D.state desk.old) buffer.old self (bits_of count bits) result buffer.new (D.state desk.new) }
    {
        let total = self.count + count;
        if total < 64 {
            Ok(PendingBits {
                word: (self.word << count) + u64::from(bits),
                count: total,
            })
        } else {
            let left = total - 64;
            let word = filled(self.word, self.count, bits, count);
            match buffer.push_word(word, desk) {
                Ok(()) => Ok(PendingBits {
                    word: u64::from(bits) % (1 << left),
                    count: left,
                }),
                Err(fault) => Err(fault),
            }
        }
    }

    // Fills the last byte with ones, so that no bits wait.
    fn pad<D: Desk>(self, buffer: &mut Buffer, desk: &mut D) -> Result<(), WriteFault>
        requires { (D.state desk.old).output_created ≡ true }
        ensures { Pads (D.state desk.old) (waiting buffer.old self) result (waiting buffer.new []) (D.state desk.new) }
    {
        let fill = (8 - self.count % 8) % 8;
        let all = (self.word << fill) + ((1 << fill) - 1);
        buffer.push_bits(all, self.count + fill, desk)
    }
}

/// Bits and bytes that wait to be written: at most 4,096 bytes, followed by fewer than 64 bits.
#[derive(Drop)]
pub struct BitOut {
    buffer: Buffer,
    held: PendingBits,
}

impl Model for BitOut {
    ghost use Rattle.jpg_huff.specs.Waiting.{Waiting};

    ghost Value = { Waiting };

    ghost view = { λ b. record { bytes = b.buffer; bits = b.held } };
}

/// A code, or no bits if its length is 0, and the extra bits after it: a number below `2^size`, `size` 0 to 16.
#[derive(Clone, Copy)]
pub struct ExtendedCode {
    pub code: Code,
    pub extra: u32,
    pub size: u8,
}

// A code and the bits after it as one number.
#[inline(always)]
pub(crate) fn joined(code: Code, extra: u32, size: u8) -> u32
    requires code { (code.length ≤ 16) × (code.bits < 2 ^ code.length) }
    requires extra { (size ≤ 16) × (extra < 2 ^ size) }
    ensures bits { bits_of (code.length + size) result ≡ bits_of code.length code.bits ++ bits_of size extra }
    ensures fits { result < 2 ^ (code.length + size) }
    ensures number { result ≡ code.bits * 2 ^ size + extra }
{
    (u32::from(code.bits) << size) + extra
}

impl BitOut {
    /// A buffer in which nothing waits.
    pub fn new() -> BitOut
        ensures { result ≡ nothing_waits }
    {
        BitOut {
            buffer: Buffer::new(),
            held: PendingBits::none(),
        }
    }

    /// Hands the bits that wait to the caller, so that none wait here.
    #[inline(always)]
    pub fn take(&mut self) -> PendingBits
        ensures held { result ≡ self.old.bits }
        ensures left { self.new ≡ holding self.old [] }
    {
        let held = self.held.copy();
        self.held = PendingBits::none();
        held
    }

    /// Takes bits back from the caller, where none wait.
    #[inline(always)]
    pub fn give(&mut self, held: PendingBits)
        requires { self.old.bits ≡ [] }
        ensures { self.new ≡ holding self.old held }
    {
        self.held = held;
    }

    /// Adds a number below `2^count` as `count` bits, 0 to 32, the most significant first, after the bits in `held`.
    /// Returns those that wait then. No bits wait here, neither before nor afterwards. WriteFault is as in `put`.
    #[inline(always)]
    pub fn put_after<D: Desk>(
        &mut self,
        held: PendingBits,
        bits: u32,
        count: u8,
        desk: &mut D,
    ) -> Result<PendingBits, WriteFault>
        requires created { (D.state desk.old).output_created ≡ true }
        requires none { self.old.bits ≡ [] }
        requires count { count ≤ 32 }
        requires bits { bits < 2 ^ count }
        ensures puts { PutsAfter (D.state desk.old) self.old held (bits_of count bits) result self.new (D.state desk.new) }
        ensures none { self.new.bits ≡ [] }
    {
        held.put(bits, count, &mut self.buffer, desk)
    }

    /// Adds a number below `2^count` as `count` bits, 0 to 32, the most significant first. Each byte FF that is written
    /// is followed by 00 (T.81, B.1.1.5, F.1.2.3). After WriteFault a first part of the pending bytes is written, and
    /// nothing waits.
    #[inline(always)]
    pub fn put<D: Desk>(&mut self, bits: u32, count: u8, desk: &mut D) -> Result<(), WriteFault>
        requires created { (D.state desk.old).output_created ≡ true }
        requires count { count ≤ 32 }
        requires bits { bits < 2 ^ count }
        ensures { Puts (D.state desk.old) self.old (bits_of count bits) result self.new (D.state desk.new) }
    {
        let held = self.take();
        match held.put(bits, count, &mut self.buffer, desk) {
            Ok(held) => {
                self.held = held;
                Ok(())
            }
            Err(fault) => Err(fault),
        }
    }

    /// Adds a code and its extra bits, the most significant first, after the bits in `held`. Returns those that wait then. All
    /// else is as in `put_after`.
    #[inline(always)]
    pub fn put_code_after<D: Desk>(
        &mut self,
        held: PendingBits,
        code: ExtendedCode,
        desk: &mut D,
    ) -> Result<PendingBits, WriteFault>
        requires created { (D.state desk.old).output_created ≡ true }
        requires none { self.old.bits ≡ [] }
        requires code { (code.code.length ≤ 16) × (code.code.bits < 2 ^ code.code.length) }
        requires extra { (code.size ≤ 16) × (code.extra < 2 ^ code.size) }
        ensures puts { PutsAfter (D.state desk.old) self.old held (extended_bits code) result self.new (D.state desk.new) }
        ensures none { self.new.bits ≡ [] }
    {
        self.put_after(
            held,
            joined(code.code, code.extra, code.size),
            code.code.length + code.size,
            desk,
        )
    }

    /// Adds a code and its extra bits, the most significant first. WriteFault is as in `put`.
    #[inline(always)]
    pub fn put_code<D: Desk>(&mut self, code: ExtendedCode, desk: &mut D) -> Result<(), WriteFault>
        requires created { (D.state desk.old).output_created ≡ true }
        requires code { (code.code.length ≤ 16) × (code.code.bits < 2 ^ code.code.length) }
        requires extra { (code.size ≤ 16) × (code.extra < 2 ^ code.size) }
        ensures { Puts (D.state desk.old) self.old (extended_bits code) result self.new (D.state desk.new) }
    {
        self.put(
            joined(code.code, code.extra, code.size),
            code.code.length + code.size,
            desk,
        )
    }

    /// Fills the last byte with ones (T.81, F.1.2.3), so that no bits wait. WriteFault is as in `put`.
    pub fn pad<D: Desk>(&mut self, desk: &mut D) -> Result<(), WriteFault>
        requires { (D.state desk.old).output_created ≡ true }
        ensures { Pads (D.state desk.old) self.old result self.new (D.state desk.new) }
    {
        let held = self.take();
        held.pad(&mut self.buffer, desk)
    }

    /// Adds bytes as they are, where no bits wait. WriteFault is as in `put`.
    pub fn raw<D: Desk>(&mut self, piece: &[u8], desk: &mut D) -> Result<(), WriteFault>
        requires { CanSend (D.state desk.old) self.old }
        ensures { Sends (D.state desk.old) self.old piece.now result self.new (D.state desk.new) }
    {
        self.buffer.push_piece(piece, desk)
    }

    /// Writes all that waits, where no bits wait. Afterwards nothing waits. WriteFault is as in `put`.
    pub fn flush<D: Desk>(&mut self, desk: &mut D) -> Result<(), WriteFault>
        requires { CanSend (D.state desk.old) self.old }
        ensures sends { Sends (D.state desk.old) self.old [] result self.new (D.state desk.new) }
        ensures nothing { self.new ≡ nothing_waits }
    {
        self.buffer.flush(desk)
    }
}
