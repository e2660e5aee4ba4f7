//! PNM files whose samples are given as they are read: P2 and P3, and P5 and P6 whose greatest value isn't 255.
ghost use Rattle.std.specs.Prelude.{◌≡◌, ◌≤◌, ◌+◌, ℕ, List, length, Some, false, Err};
ghost use Rattle.jpg_base.specs.declared.stop.Stop.{Stop as Stopped};
ghost use Rattle.jpg_pnm_bmp.specs.PnmSamples.{pnm_samples_kind};
ghost use Rattle.jpg_pnm_bmp.specs.Samples.{CanGo};

use crate::read::piece::Fed2;
use crate::read::pnm_samples::end_given;
use crate::read::samples::SampleReader;
use crate::read::work::Work;
use jpg_base::{Bytes, Stop};

/// Gives the samples of a PNM file, scaled to 0 to 255, as they are read. It is made of a `PixelReader`. It keeps a few
/// thousand samples between pieces, and has memory for those of a piece.
#[derive(Drop)]
pub struct PnmSamples {
    // What it was given so far.
    pub(crate) reader: SampleReader<Work>,
    ghost going: { CanGo pnm_samples_kind reader },
}

impl PnmSamples {
    ghost use Rattle.jpg_pnm_bmp.specs.PnmGiven.{given_taken, given_stop, is_all_given, Asks, Gives, Ends, EndsDone, KeepsDone, KeepsInfo};

    /// Takes a further piece of the file, of any length, and appends samples: some of those that are known then, in their
    /// order, and all once the last one is known. Returns Done then: bytes after it are left unread. Otherwise it returns the
    /// fault of the bytes so far, at the number of bytes up to the one that reveals it, ImageText or ImageValue; or that
    /// there is no memory; otherwise More. After a stop it returns the same stop. It may not be called once all samples were
    /// given (`is_read`), and at most 2^40 bytes may be fed in all.
    pub fn feed(&mut self, piece: &[u8], made: &mut Bytes) -> Result<Fed2, Stop>
        requires open { is_all_given self.old ≡ false }
        requires room { given_taken self.old + length piece.now ≤ 1099511627776 }
        ensures answered { Gives self.old piece.now made.old result self.new made.new }
        ensures info { KeepsInfo self.old result self.new }
        ensures memory { Asks self.old piece.now result }
        ensures done { KeepsDone result self.new }
        ensures stopped { (stop : Stopped) → result ≡ Err stop → given_stop self.new ≡ Some stop }
        ensures again { (stop : Stopped) → given_stop self.old ≡ Some stop → (result ≡ Err stop) × (self.new ≡ self.old) }
        ensures taken { given_taken self.new ≤ given_taken self.old + length piece.now }
    {
        self.reader.feed(piece, made)
    }

    /// How many bytes were taken so far, while more are needed.
    pub fn taken(&self) -> u64
        ensures { result ≡ given_taken self.now }
    {
        self.reader.taken
    }

    /// Whether all samples were given.
    pub fn is_read(&self) -> bool
        ensures { result ≡ is_all_given self.now }
    {
        self.reader.done
    }

    /// The file ends here. Appends the samples that weren't given yet and returns Ok if the image is complete now, which it is
    /// if the last number of P2 or P3 ends with the file; otherwise it returns the fault of a number that ends there,
    /// ImageValue; otherwise ImageShort; or that there is no memory; or the earlier stop. It may not be called once all
    /// samples were given (`is_read`).
    pub fn end(&mut self, made: &mut Bytes) -> Result<(), Stop>
        requires { is_all_given self.old ≡ false }
        ensures answered { Ends self.old made.old result made.new }
        ensures done { EndsDone result self.new }
        ensures stopped { (stop : Stopped) → result ≡ Err stop → given_stop self.new ≡ Some stop }
        ensures again { (stop : Stopped) → given_stop self.old ≡ Some stop → (result ≡ Err stop) × (self.new ≡ self.old) }
    {
        if let Some(stop) = self.reader.stop {
            return Err(stop);
        }
        let taken = self.reader.taken;
        let answer = end_given(&mut self.reader.work, taken, made);
        match answer {
            Ok(()) => self.reader.done = true,
            Err(stop) => self.reader.stop = Some(stop),
        }
        answer
    }
}
