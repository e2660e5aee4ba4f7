//! Targa files that are read piece by piece.
ghost use Rattle.std.specs.Prelude.{◌≡◌, ◌≤◌, ◌+◌, [], ℕ, List, length, Some, None, true, false, Ok, Err, IfSome, IfNone};
ghost use Rattle.jpg_base.specs.declared.stop.Stop.{Stop as Stopped};
ghost use Rattle.jpg_pnm_bmp.specs.Made.{image_by_parts};
ghost use Rattle.jpg_pnm_bmp.specs.PiecesFed.{CanGo};
ghost use Rattle.jpg_targa.specs.Reader.{targa_kind};

use crate::read::given::TargaSamples;
use crate::read::make::make_image;
use crate::read::samples::begun_info;
use crate::read::work::Work;
use jpg_base::{Bytes, FaultAt, NoMemory, Stop};
use jpg_pnm_bmp::{Fed2, Image, Moved, PieceReader, PieceWork, SampleReader};
use jpg_spec::Fault;
use jpg_spec_image::ImageInfo;
use std::alloc::Global;

/// Reads a Targa file: raw or in packets, of 8 bits a pixel (gray) or 24 (colours).
#[derive(Drop)]
pub struct TargaReader {
    // What it was given so far.
    reader: PieceReader<Work>,
    ghost going: { CanGo targa_kind reader },
}

impl PieceWork for Work {
    ghost kind = { targa_kind };

    fn some(&mut self, piece: &[u8]) -> Moved {
        self.advance(piece)
    }

    fn make(&mut self, made: &mut Bytes) -> Result<ImageInfo, NoMemory> {
        make_image(self, made)
    }
}

impl TargaReader {
    ghost use Rattle.jpg_targa.specs.TargaRead.{targa_read, targa_taken, targa_stop, is_targa_read, HasFedTarga, Asks, Feeds, Ends, KeepsDone};
    ghost use Rattle.jpg_targa.specs.TargaGiven.{begun_info, given_info, given_taken, is_all_given, CanGive, HasGivenSamples, TellsGiven, TellsNotGiven};

    /// A reader that was given no bytes. It takes no memory yet.
    pub fn new(alloc: Global) -> TargaReader
        ensures fed { HasFedTarga [] result }
        ensures done { is_targa_read result ≡ false }
        ensures taken { targa_taken result ≡ 0 }
    {
        TargaReader {
            reader: PieceReader::new(alloc, Work::new(alloc)),
        }
    }

    /// Takes a further piece of the file, of any length. Returns Done if the piece has the byte that makes the last
    /// pixel known: bytes after it are left unread. Otherwise it returns the fault of the header, ImageUnsupported or
    /// ImageHeader, at 18; or that there is no memory, which is never asked for with a byte that reveals a fault.
    /// Otherwise it returns More. After a stop it returns the same stop. It may not be called once the image is complete
    /// (`is_read`), and at most 2^40 bytes may be fed in all.
    pub fn feed(&mut self, piece: &[u8]) -> Result<Fed2, Stop>
        requires open { is_targa_read self.old ≡ false }
        requires room { targa_taken self.old + length piece.now ≤ 1099511627776 }
        ensures answered { Feeds self.old piece.now result self.new }
        ensures memory { Asks self.old piece.now result }
        ensures done { KeepsDone result self.new }
        ensures stopped { (stop : Stopped) → result ≡ Err stop → targa_stop self.new ≡ Some stop }
        ensures again { (stop : Stopped) → targa_stop self.old ≡ Some stop → (result ≡ Err stop) × (self.new ≡ self.old) }
        ensures taken { targa_taken self.new ≤ targa_taken self.old + length piece.now }
    {
        self.reader.feed(piece)
    }

    /// How many bytes were taken so far, while more are needed.
    pub fn taken(&self) -> u64
        ensures { result ≡ targa_taken self.now }
    {
        self.reader.taken
    }

    /// Whether the image is complete.
    pub fn is_read(&self) -> bool
        ensures { result ≡ is_targa_read self.now }
    {
        self.reader.done
    }

    /// The file ends here, before the last pixel: it returns ImageShort at the file's length, or the earlier stop. It
    /// may not be called once the image is complete (`is_read`).
    pub fn end(&mut self) -> Stop
        requires { is_targa_read self.old ≡ false }
        ensures answered { Ends self.old result }
        ensures done { is_targa_read self.new ≡ false }
        ensures stopped { targa_stop self.new ≡ Some result }
        ensures again { (stop : Stopped) → targa_stop self.old ≡ Some stop → (result ≡ stop) × (self.new ≡ self.old) }
    {
        if let Some(stop) = self.reader.stop {
            return stop;
        }
        let stop = Stop::Fault(FaultAt {
            fault: Fault::ImageShort,
            at: self.reader.taken,
        });
        self.reader.stop = Some(stop);
        stop
    }

    /// The numbers of the image, if the pixels have begun, and rows come from the top: samples can be given as they are
    /// read then (`into_samples`). Otherwise None, as after a stop, or once the image is complete.
    pub fn gives(&self) -> Option<ImageInfo>
        ensures some { IfSome result (TellsGiven self.now) }
        ensures none { IfNone result (TellsNotGiven self.now) }
        ensures can { IfSome result (λ info. CanGive self.now × (info ≡ begun_info self.now)) }
        ensures open { IfSome result (λ info. is_targa_read self.now ≡ false) }
        ensures stopped { (stop : Stopped) → targa_stop self.now ≡ Some stop → result ≡ None }
    {
        if self.reader.done || self.reader.stop.is_some() {
            return None;
        }
        begun_info(&self.reader.work)
    }

    /// A reader that gives the samples of the file, all that were read so far too. None were given yet.
    pub fn into_samples(self) -> TargaSamples
        requires { CanGive self }
        ensures fed { (bytes : List ℕ) → HasFedTarga bytes self → HasGivenSamples bytes [] result }
        ensures info { given_info result ≡ begun_info self }
        ensures done { is_all_given result ≡ false }
        ensures taken { given_taken result ≡ targa_taken self }
    {
        let TargaReader { reader, .. } = self;
        let PieceReader { work, taken, .. } = reader;
        TargaSamples {
            reader: SampleReader::new(work, taken),
        }
    }

    /// The image, which must be complete (`is_read`).
    pub fn take(self) -> Image
        requires { is_targa_read self ≡ true }
        ensures { image_by_parts result.info result.samples ≡ targa_read self }
    {
        let TargaReader { reader, .. } = self;
        reader.image
    }
}
