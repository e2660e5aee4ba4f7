//! The buffer of bytes that wait to be written, stuffed (T.81, F.1.2.3).
ghost use Rattle.std.specs.Prelude.{◌≡◌, ◌≤◌, ◌<◌, ◌+◌, [], ◌∷◌, ◌++◌, length, false, true};
ghost use Rattle.jpg_spec.specs.Bits.{bits_of, stuffed, stuffed_byte, whole_bytes};
ghost use Rattle.jpg_huff.specs.Out.{Emits, OnlyWrites};

use jpg_base::{Desk, Put, WriteFault};
use std::marker::Model;
use std::simd::cmp::SimdPartialEq;
use std::simd::u8x8;

#[derive(Drop)]
pub(crate) struct Buffer {
    bytes: [u8; 4096],
    used: usize,
}

impl Model for Buffer {
    ghost use Rattle.std.specs.Prelude.{List, ℕ, take, ◌≤◌};

    ghost Value = { List ℕ };

    ghost view = { λ b. take b.used b.bytes };

    ghost invariant = { λ b. b.used ≤ 4096 };
}

// Whether one of the bytes is FF.
#[inline(always)]
fn has_ff(bytes: &[u8; 8]) -> bool
    ensures { result ≡ false → stuffed bytes.now ≡ bytes.now }
{
    u8x8::from_array(*bytes)
        .simd_eq(u8x8::splat(255))
        .to_bitmask()
        != 0
}

impl Buffer {
    pub(crate) fn new() -> Buffer
        ensures { result ≡ [] }
    {
        Buffer {
            bytes: [0; 4096],
            used: 0,
        }
    }

    // Writes all bytes that wait. After a fault nothing waits.
    #[cold]
    #[inline(never)]
    pub(crate) fn flush<D: Desk>(&mut self, desk: &mut D) -> Result<(), WriteFault>
        requires { (D.state desk.old).output_created ≡ true }
        ensures kept { OnlyWrites (D.state desk.old) (D.state desk.new) }
        ensures emits { Emits (D.state desk.old) self.old [] result self.new (D.state desk.new) }
        ensures empty { self.new ≡ [] }
    {
        let used = self.used;
        self.used = 0;
        match desk.write(&self.bytes[..used]) {
            Put::Done => Ok(()),
            Put::Failed => Err(WriteFault),
        }
    }

    // Writes the bytes that wait if there is no room for `room` more.
    #[inline(always)]
    fn make_room<D: Desk>(&mut self, room: usize, desk: &mut D) -> Result<(), WriteFault>
        requires created { (D.state desk.old).output_created ≡ true }
        requires room { room ≤ 4096 }
        ensures kept { OnlyWrites (D.state desk.old) (D.state desk.new) }
        ensures emits { Emits (D.state desk.old) self.old [] result self.new (D.state desk.new) }
        ensures room { length self.new + room ≤ 4096 }
    {
        if self.used > 4096 - room {
            self.flush(desk)
        } else {
            Ok(())
        }
    }

    // Adds a byte.
    #[inline(always)]
    fn add(&mut self, byte: u8)
        requires { length self.old < 4096 }
        ensures { self.new ≡ self.old ++ byte ∷ [] }
    {
        self.bytes[self.used] = byte;
        self.used += 1;
    }

    // Adds a byte, and 00 after FF (T.81, F.1.2.3).
    #[inline(always)]
    fn add_stuffed(&mut self, byte: u8)
        requires { length self.old + 2 ≤ 4096 }
        ensures { self.new ≡ self.old ++ stuffed_byte byte }
    {
        self.add(byte);
        if byte == 255 {
            self.add(0);
        }
    }

    // Adds the 64 bits of a word as stuffed bytes, where there is room.
    #[inline(always)]
    fn add_word(&mut self, word: u64)
        requires { length self.old + 16 ≤ 4096 }
        ensures { self.new ≡ self.old ++ stuffed (whole_bytes (bits_of 64 word)) }
    {
        let bytes = word.to_be_bytes();
        if has_ff(&bytes) {
            self.add_bits(word, 64);
        } else {
            self.add_piece(&bytes);
        }
    }

    // Adds the 64 bits of a word as stuffed bytes.
    #[inline(always)]
    pub(crate) fn push_word<D: Desk>(&mut self, word: u64, desk: &mut D) -> Result<(), WriteFault>
        requires { (D.state desk.old).output_created ≡ true }
        ensures kept { OnlyWrites (D.state desk.old) (D.state desk.new) }
        ensures emits { Emits (D.state desk.old) self.old (stuffed (whole_bytes (bits_of 64 word))) result self.new (D.state desk.new) }
    {
        self.make_room(16, desk)?;
        self.add_word(word);
        Ok(())
    }

    // Adds the complete bytes of the low `count` bits, stuffed, where there is room.
    #[cold]
    #[inline(never)]
    fn add_bits(&mut self, word: u64, count: u8)
        requires count { count ≤ 64 }
        requires room { length self.old + 16 ≤ 4096 }
        ensures { self.new ≡ self.old ++ stuffed (whole_bytes (bits_of count word)) }
    {
        let mut left = count;
        while left >= 8 {
            left -= 8;
            self.add_stuffed(((word >> left) % 256) as u8);
        }
    }

    // Adds the complete bytes of the low `count` bits, stuffed.
    pub(crate) fn push_bits<D: Desk>(
        &mut self,
        word: u64,
        count: u8,
        desk: &mut D,
    ) -> Result<(), WriteFault>
        requires created { (D.state desk.old).output_created ≡ true }
        requires count { count ≤ 64 }
        ensures kept { OnlyWrites (D.state desk.old) (D.state desk.new) }
        ensures emits { Emits (D.state desk.old) self.old (stuffed (whole_bytes (bits_of count word))) result self.new (D.state desk.new) }
    {
        self.make_room(16, desk)?;
        self.add_bits(word, count);
        Ok(())
    }

    // Adds bytes, where there is room.
    #[inline(always)]
    fn add_piece(&mut self, piece: &[u8])
        requires { length self.old + length piece.now ≤ 4096 }
        ensures { self.new ≡ self.old ++ piece.now }
    {
        let used = self.used;
        let end = used + piece.len();
        self.bytes[used..end].copy_from_slice(piece);
        self.used = end;
    }

    // Adds bytes as they are. A piece that doesn't fit into the buffer is written at once.
    pub(crate) fn push_piece<D: Desk>(
        &mut self,
        piece: &[u8],
        desk: &mut D,
    ) -> Result<(), WriteFault>
        requires { (D.state desk.old).output_created ≡ true }
        ensures kept { OnlyWrites (D.state desk.old) (D.state desk.new) }
        ensures emits { Emits (D.state desk.old) self.old piece.now result self.new (D.state desk.new) }
    {
        self.make_room(piece.len().min(4096), desk)?;
        if piece.len() <= 4096 {
            self.add_piece(piece);
            return Ok(());
        }
        match desk.write(piece) {
            Put::Done => Ok(()),
            Put::Failed => Err(WriteFault),
        }
    }
}
