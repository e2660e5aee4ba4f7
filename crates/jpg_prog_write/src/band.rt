//! A band of a progressive scan, and what is sent of its values (T.81, G.1.2.2, G.1.2.3).
ghost use Rattle.std.specs.Prelude.{◌≡◌, ◌<◌, ◌≤◌, ℕ, true, false, length, slice_index_or, pos};
ghost use Rattle.jpg_spec.specs.Elements.{is_zero};
ghost use Rattle.jpg_spec.specs.Lists.{any_of};
ghost use Rattle.jpg_spec_write.specs.Sending.{sent as sent_of, is_new};
ghost use Rattle.jpg_prog_write.specs.Items.{sent_by};
ghost use Rattle.jpg_prog_write.specs.Bands.{IsBand, IsShort, band_sents, sents, ends_new};

use crate::numbers::{divided, kept_value};
use jpg_base::Block;

/// The band of a scan.
#[derive(Clone, Copy)]
pub(crate) struct Band {
    // Its first place.
    pub(crate) start: u8,
    // The place after its last one.
    pub(crate) end: u8,
    // The bit down to which values are sent.
    pub(crate) al: u8,
    // The scan is a refinement.
    pub(crate) refines: bool,
}

/// What a scan codes for one coefficient: a correction bit (T.81, G.1.2.3), or a value that is newly sent, or remains
/// 0.
#[derive(Clone, Copy)]
pub(crate) enum Sending {
    Correction(bool),
    NewlySignificant(i32),
}

impl Band {
    #[inline(always)]
    pub(crate) fn sent(self, value: i16) -> Sending
        requires { self.al ≤ 13 }
        ensures { sent_by result ≡ sent_of self.refines self.al value }
    {
        let sent = divided(value, self.al);
        if self.refines && sent.unsigned_abs() > 1 {
            Sending::Correction(sent.unsigned_abs() % 2 == 1)
        } else {
            Sending::NewlySignificant(sent)
        }
    }

    #[inline(always)]
    pub(crate) fn is_newly_significant(self, value: i16) -> bool
        requires { self.al ≤ 13 }
        ensures { result ≡ is_new (sent_of self.refines self.al value) }
    {
        match self.sent(value) {
            Sending::Correction(_) => false,
            Sending::NewlySignificant(value) => value != 0,
        }
    }

    // The block with 0 for the values of which nothing is sent: what is sent of it is the same.
    #[inline(always)]
    pub(crate) fn kept(self, block: &Block) -> Block
        requires { self.al ≤ 13 }
        ensures short { IsShort block.now → IsShort result }
        ensures sent { band_sents self result ≡ band_sents self block.now }
    {
        block.long();
        let mut kept = *block;
        for k in 0..64 {
            kept.set(k, kept_value(block.get(k), self.al));
        }
        kept
    }

    // The place from which on the band has only zeros, at most its end.
    #[inline(always)]
    pub(crate) fn zeros_from(self, block: &Block) -> u8
        requires band { IsBand self }
        ensures within { (self.start ≤ result) × (result ≤ self.end) }
        ensures zeros { (k : ℕ) → result ≤ k → k < self.end → is_zero (slice_index_or block.now k (pos 0)) ≡ true }
    {
        let rest = block.nonzero() >> self.start;
        let top = self.start + (64 - rest.leading_zeros()) as u8;
        top.min(self.end)
    }

    // The place after the last value that is newly sent, the start if there is none.
    #[inline(always)]
    pub(crate) fn front_end(self, block: &Block) -> u8
        requires band { IsBand self }
        requires long { length block.now ≡ 64 }
        ensures within { (self.start ≤ result) × (result ≤ self.end) }
        ensures new { ends_new (sents self self.start result block.now) ≡ true }
        ensures none { any_of is_new (sents self result self.end block.now) ≡ false }
    {
        let mut end = self.zeros_from(block);
        while end > self.start && !self.is_newly_significant(block.get(end - 1)) {
            end -= 1;
        }
        end
    }
}
