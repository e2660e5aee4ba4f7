//! Image files that are read piece by piece (release 6b's image files).
ghost use Rattle.std.specs.Prelude.{◌≡◌, ◌≤◌, ◌+◌, [], ℕ, List, length, Some, None, true, false, Ok, Err, IfSome, IfNone};
ghost use Rattle.jpg_base.specs.declared.stop.Stop.{Stop as Stopped};
ghost use Rattle.jpg_spec_image.specs.declared.image.ImageInfo.{ImageInfo as Numbers};
ghost use Rattle.jpg_pnm_bmp.specs.Made.{image_by_parts};
ghost use Rattle.jpg_pnm_bmp.specs.Pieces.{IsGoing};
ghost use Rattle.jpg_pnm_bmp.specs.PiecesFed.{CanGo};
ghost use Rattle.jpg_pnm_bmp.specs.Reader.{EndsRead, pixels_kind};

use crate::read::make::make_image;
use crate::read::piece::{Answer, Fed2, Moved, PieceReader, PieceWork, make_whole};
use crate::read::pnm_given::PnmSamples;
use crate::read::samples::SampleReader;
use crate::read::work::Work;
use jpg_base::{Bytes, FaultAt, NoMemory, Stop};
use jpg_spec_image::ImageInfo;
use std::alloc::Global;

/// An image: its numbers, and its samples by rows from the top: one for each pixel of a gray image, red, green and blue
/// for each of a colour image.
#[derive(Drop)]
pub struct Image {
    pub info: ImageInfo,
    pub samples: Bytes,
}

/// Reads an image file: P2, P3, P5, P6, or a BMP of 8 or 24 bits a pixel.
#[derive(Drop)]
pub struct PixelReader {
    // What it was given so far.
    reader: PieceReader<Work>,
    ghost going: { CanGo pixels_kind reader },
}

impl PieceWork for Work {
    ghost kind = { pixels_kind };

    fn some(&mut self, piece: &[u8]) -> Moved {
        self.advance(piece)
    }

    fn make(&mut self, made: &mut Bytes) -> Result<ImageInfo, NoMemory> {
        make_image(self, made)
    }
}

impl PixelReader {
    ghost use Rattle.jpg_pnm_bmp.specs.PixelsRead.{image_read, pixels_taken, pixels_stop, is_image_read, HasFedImage, Asks, Feeds, Ends, KeepsDone, EndsDone};
    ghost use Rattle.jpg_pnm_bmp.specs.PlainSamples.{samples_so_far, TellsPlain, TellsNotPlain};
    ghost use Rattle.jpg_pnm_bmp.specs.PnmGiven.{given_info, given_taken, is_all_given, CanGive, HasGivenSamples, TellsRight, TellsNotGiven};

    /// A reader that was given no bytes. It takes no memory yet.
    pub fn new(alloc: Global) -> PixelReader
        ensures fed { HasFedImage [] result }
        ensures done { is_image_read result ≡ false }
        ensures taken { pixels_taken result ≡ 0 }
    {
        PixelReader {
            reader: PieceReader::new(alloc, Work::new(alloc)),
        }
    }

    /// Takes a further piece of the file, of any length. Returns Done if the piece has the byte that makes the last
    /// sample known: bytes after it are left unread. Otherwise it returns the fault of the bytes so far, at the number
    /// of bytes up to the one that reveals it: ImageText, ImageUnsupported, ImageHeader or ImageValue; or that there is
    /// no memory, which is never asked for with a byte that reveals a fault. Otherwise it returns More. After a stop it
    /// returns the same stop. It may not be called once the image is complete (`is_read`), and at most 2^40 bytes may be
    /// fed in all.
    pub fn feed(&mut self, piece: &[u8]) -> Result<Fed2, Stop>
        requires open { is_image_read self.old ≡ false }
        requires room { pixels_taken self.old + length piece.now ≤ 1099511627776 }
        ensures answered { Feeds self.old piece.now result self.new }
        ensures memory { Asks self.old piece.now result }
        ensures done { KeepsDone result self.new }
        ensures stopped { (stop : Stopped) → result ≡ Err stop → pixels_stop self.new ≡ Some stop }
        ensures again { (stop : Stopped) → pixels_stop self.old ≡ Some stop → (result ≡ Err stop) × (self.new ≡ self.old) }
        ensures taken { pixels_taken self.new ≤ pixels_taken self.old + length piece.now }
    {
        self.reader.feed(piece)
    }

    /// How many bytes were taken so far, while more are needed.
    pub fn taken(&self) -> u64
        ensures { result ≡ pixels_taken self.now }
    {
        self.reader.taken
    }

    /// Whether the image is complete.
    pub fn is_read(&self) -> bool
        ensures { result ≡ is_image_read self.now }
    {
        self.reader.done
    }

    /// The numbers of the image, if the bytes so far are the header of a P5 or P6 file whose greatest value is 255 and
    /// some of its samples, not all: the bytes that follow are the rest of its samples, in the same order, and none can
    /// be wrong. Otherwise None, as after a stop, or once the image is complete.
    pub fn plain(&self) -> Option<ImageInfo>
        ensures some { IfSome result (TellsPlain self.now) }
        ensures none { IfNone result (TellsNotPlain self.now) }
        ensures more { IfSome result (λ info. is_image_read self.now ≡ false) }
        ensures stopped { (stop : Stopped) → pixels_stop self.now ≡ Some stop → result ≡ None }
    {
        if self.reader.done || self.reader.stop.is_some() {
            return None;
        }
        self.reader.work.unscaled()
    }

    /// The samples so far, of a file of which `plain` tells; of others none.
    pub fn samples(&self) -> &[u8]
        ensures { result.now ≡ samples_so_far self.now }
    {
        match self.reader.work.unscaled() {
            Some(_) => self.reader.work.samples.as_slice(),
            None => &[],
        }
    }

    /// The numbers of the image, if the bytes so far are those of a P2 or P3 file, or of a P5 or P6 file whose greatest value
    /// isn't 255, up to at least 3,072 of its samples, not all: samples can be given as they are read then (`into_samples`).
    /// Otherwise None, as after a stop, or once the image is complete.
    pub fn gives(&self) -> Option<ImageInfo>
        ensures can { IfSome result (λ info. CanGive info self.now) }
        ensures right { IfSome result (TellsRight self.now) }
        ensures none { IfNone result (TellsNotGiven self.now) }
        ensures open { IfSome result (λ info. is_image_read self.now ≡ false) }
        ensures stopped { (stop : Stopped) → pixels_stop self.now ≡ Some stop → result ≡ None }
    {
        if self.reader.done || self.reader.stop.is_some() {
            return None;
        }
        self.reader.work.giving()
    }

    /// A reader that gives the samples of the file, all that were read so far too, where `gives` tells the numbers of its
    /// image. None were given yet.
    pub fn into_samples(self) -> PnmSamples
        requires { (info : Numbers) × CanGive info self }
        ensures fed { (bytes : List ℕ) → HasFedImage bytes self → HasGivenSamples bytes [] result }
        ensures info { (info : Numbers) → CanGive info self → given_info result ≡ info }
        ensures done { is_all_given result ≡ false }
        ensures taken { given_taken result ≡ pixels_taken self }
    {
        let PixelReader { reader, .. } = self;
        let PieceReader { work, taken, .. } = reader;
        PnmSamples {
            reader: SampleReader::new(work, taken),
        }
    }

    /// The file ends here. Returns Ok if the image is complete now, which it is if the last number of P2 or P3 ends
    /// with the file; otherwise the fault of a number that ends there, ImageUnsupported, ImageHeader or ImageValue;
    /// otherwise ImageShort; or that there is no memory for an image that is complete now; or the earlier stop. It may
    /// not be called once the image is complete (`is_read`).
    pub fn end(&mut self) -> Result<(), Stop>
        requires { is_image_read self.old ≡ false }
        ensures answered { Ends self.old result self.new }
        ensures done { EndsDone result self.new }
        ensures stopped { (stop : Stopped) → result ≡ Err stop → pixels_stop self.new ≡ Some stop }
        ensures again { (stop : Stopped) → pixels_stop self.old ≡ Some stop → (result ≡ Err stop) × (self.new ≡ self.old) }
    {
        if let Some(stop) = self.reader.stop {
            return Err(stop);
        }
        let taken = self.reader.taken;
        let answer = end_image(&mut self.reader.work, taken, &mut self.reader.image);
        match answer {
            Ok(()) => self.reader.done = true,
            Err(stop) => self.reader.stop = Some(stop),
        }
        answer
    }

    /// The image, which must be complete (`is_read`).
    pub fn take(self) -> Image
        requires { is_image_read self ≡ true }
        ensures { image_by_parts result.info result.samples ≡ image_read self }
    {
        let PixelReader { reader, .. } = self;
        reader.image
    }
}

// The bytes end here. Returns Ok if the image is complete now, or its fault; or NoMemory for its last sample or for the
// image that is made.
fn end_image(work: &mut Work, taken: u64, image: &mut Image) -> Result<(), Stop>
    requires { IsGoing pixels_kind work.old }
    ensures { EndsRead work.old taken result (image_by_parts image.new.info image.new.samples) }
{
    match work.end() {
        Answer::Whole => match make_whole(work, image) {
            Ok(_) => Ok(()),
            Err(stop) => Err(stop),
        },
        Answer::Fault(fault) => Err(Stop::Fault(FaultAt { fault, at: taken })),
        Answer::NoMemory => Err(Stop::NoMemory),
        Answer::More => unreachable!(),
    }
}
