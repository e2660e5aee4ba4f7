//! Targa files whose samples are given as they are read: rows come from the top.
ghost use Rattle.std.specs.Prelude.{◌≡◌, ◌≤◌, ◌+◌, ℕ, List, length, Some, false, Err};
ghost use Rattle.jpg_base.specs.declared.stop.Stop.{Stop as Stopped};
ghost use Rattle.jpg_pnm_bmp.specs.Samples.{CanGo};
ghost use Rattle.jpg_targa.specs.Samples.{targa_samples_kind};

use crate::read::head::info;
use crate::read::work::Work;
use jpg_base::{Bytes, FaultAt, Stop};
use jpg_pnm_bmp::{Fed2, SampleReader};
use jpg_spec::Fault;
use jpg_spec_image::ImageInfo;

/// Gives the samples of a Targa file whose rows come from the top, as they are read. It is made of a `TargaReader`. It keeps
/// a few thousand bytes of pixels between pieces, and has memory for those of a piece.
#[derive(Drop)]
pub struct TargaSamples {
    // What it was given so far.
    pub(crate) reader: SampleReader<Work>,
    ghost going: { CanGo targa_samples_kind reader },
}

impl TargaSamples {
    ghost use Rattle.jpg_targa.specs.TargaGiven.{given_info, given_taken, given_stop, is_all_given, TellsInfo, Asks, Gives, Ends, KeepsDone, KeepsInfo};

    /// Takes a further piece of the file, of any length, and appends samples: some of those that are known then, in their
    /// order, and all once the last pixel is known. Returns Done then: bytes after it are left unread. Otherwise it returns
    /// More; or that there is no memory. After a stop it returns the same stop. It may not be called once all samples were
    /// given (`is_read`), and at most 2^40 bytes may be fed in all.
    pub fn feed(&mut self, piece: &[u8], made: &mut Bytes) -> Result<Fed2, Stop>
        requires open { is_all_given self.old ≡ false }
        requires room { given_taken self.old + length piece.now ≤ 1099511627776 }
        ensures answered { Gives self.old piece.now made.old result self.new made.new }
        ensures info { KeepsInfo self.old result self.new }
        ensures memory { Asks self.old piece.now result }
        ensures done { KeepsDone result self.new }
        ensures stopped { (stop : Stopped) → result ≡ Err stop → given_stop self.new ≡ Some stop }
        ensures again { (stop : Stopped) → given_stop self.old ≡ Some stop → (result ≡ Err stop) × (self.new ≡ self.old) }
        ensures taken { given_taken self.new ≤ given_taken self.old + length piece.now }
    {
        self.reader.feed(piece, made)
    }

    /// How many bytes were taken so far, while more are needed.
    pub fn taken(&self) -> u64
        ensures { result ≡ given_taken self.now }
    {
        self.reader.taken
    }

    /// Whether all samples were given.
    pub fn is_read(&self) -> bool
        ensures { result ≡ is_all_given self.now }
    {
        self.reader.done
    }

    /// The numbers of the image.
    pub fn info(&self) -> ImageInfo
        ensures is { result ≡ given_info self.now }
        ensures told { TellsInfo self.now result }
    {
        info(&self.reader.work.head)
    }

    /// The file ends here, before the last pixel: it returns ImageShort at the file's length, or the earlier stop. It
    /// may not be called once all samples were given (`is_read`).
    pub fn end(&mut self) -> Stop
        requires { is_all_given self.old ≡ false }
        ensures answered { Ends self.old result }
        ensures done { is_all_given self.new ≡ false }
        ensures stopped { given_stop self.new ≡ Some result }
        ensures again { (stop : Stopped) → given_stop self.old ≡ Some stop → (result ≡ stop) × (self.new ≡ self.old) }
    {
        if let Some(stop) = self.reader.stop {
            return stop;
        }
        let stop = Stop::Fault(FaultAt {
            fault: Fault::ImageShort,
            at: self.reader.taken,
        });
        self.reader.stop = Some(stop);
        stop
    }
}
