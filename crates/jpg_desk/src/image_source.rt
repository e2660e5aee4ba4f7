//! Readers of image files that are given pieces, by the format of the file (release 6b's image files; Truevision TGA
//! File Format Specification, version 2.0).
ghost use Rattle.std.specs.Prelude.{◌≡◌, ◌≤◌, ◌<◌, ◌+◌, [], ℕ, IfNone, IfSome, length, true, false};
ghost use Rattle.jpg_spec_image.specs.declared.image.ImageInfo.{ImageInfo as Numbers};
ghost use Rattle.jpg_pnm_bmp.specs.Made.{image_by_parts};
ghost use Rattle.jpg_pnm_bmp.specs.PixelsRead.{is_image_read, pixels_taken};
ghost use Rattle.jpg_targa.specs.TargaRead.{is_targa_read, targa_taken};
ghost use Rattle.jpg_desk.specs.ImageSource.{EndsPixels, EndsTarga, TakesPixels, TakesTarga, step_of};

use crate::image_samples::ImageSamples;
use crate::pieces::why_stopped;
use jpg_base::Stop;
use jpg_pnm_bmp::{Fed2, Image, PixelReader};
use jpg_spec_image::ImageInfo;
use jpg_spec_words::Why;
use jpg_targa::TargaReader;
use std::alloc::Global;

/// A reader of an image file.
#[derive(Drop)]
pub enum ImageSource {
    /// Of PNM or BMP, as the first bytes tell.
    Pixels(PixelReader),
    /// Of Targa, which no bytes tell.
    Targa(TargaReader),
}

impl ImageSource {
    ghost use Rattle.jpg_desk.specs.ImageSamples.{is_samples_read, is_targa_given, samples_taken};
    ghost use Rattle.jpg_desk.specs.ImageTaken.{is_targa};
    ghost use Rattle.jpg_desk.specs.ImageSource.{CanGiveSamples, EndsImage, GivesFrom, HasFed, TakesImagePiece, TellsNotGiving, TellsNoSamples, TellsRight, TellsSamples, is_source_read, source_read, source_samples, source_taken};

    /// A reader that was given no bytes. It takes no memory yet.
    pub fn new(alloc: Global, targa: bool) -> ImageSource
        ensures { HasFed targa [] result }
    {
        if targa {
            ImageSource::Targa(TargaReader::new(alloc))
        } else {
            ImageSource::Pixels(PixelReader::new(alloc))
        }
    }

    /// How many bytes were taken so far, while more are needed.
    pub fn taken(&self) -> u64
        ensures { result ≡ source_taken self.now }
    {
        match self {
            ImageSource::Pixels(reader) => reader.taken(),
            ImageSource::Targa(reader) => reader.taken(),
        }
    }

    /// Whether the image is complete.
    pub fn is_read(&self) -> bool
        ensures { result ≡ is_source_read self.now }
    {
        match self {
            ImageSource::Pixels(reader) => reader.is_read(),
            ImageSource::Targa(reader) => reader.is_read(),
        }
    }

    /// Takes a further piece of the file. Returns whether the image is complete.
    pub fn feed(&mut self, piece: &[u8]) -> Result<bool, Why>
        requires more { is_source_read self.old ≡ false }
        requires room { source_taken self.old + length piece.now ≤ 1099511627776 }
        requires short { length piece.now ≤ 65536 }
        requires some { 0 < length piece.now }
        ensures { TakesImagePiece self.old piece.now result self.new }
    {
        match self {
            ImageSource::Pixels(reader) => feed_pixels(reader, piece),
            ImageSource::Targa(reader) => feed_targa(reader, piece),
        }
    }

    /// The numbers of the image, if the bytes that follow are the rest of its samples, in the same order, none of which
    /// can be wrong (`PixelReader::plain`).
    pub fn plain(&self) -> Option<ImageInfo>
        ensures some { IfSome result (TellsSamples self.now) }
        ensures none { IfNone result (TellsNoSamples self.now) }
    {
        match self {
            ImageSource::Pixels(reader) => reader.plain(),
            ImageSource::Targa(_) => None,
        }
    }

    /// Its samples so far, where `plain` tells its numbers; otherwise none.
    pub fn samples(&self) -> &[u8]
        ensures { result.now ≡ source_samples self.now }
    {
        match self {
            ImageSource::Pixels(reader) => reader.samples(),
            ImageSource::Targa(_) => &[],
        }
    }

    /// The numbers of the image, if its samples can be given as they are read from here on (`PixelReader::gives`,
    /// `TargaReader::gives`).
    pub fn gives(&self) -> Option<ImageInfo>
        ensures can { IfSome result (λ info. CanGiveSamples info self.now) }
        ensures right { IfSome result (TellsRight self.now) }
        ensures none { IfNone result (TellsNotGiving self.now) }
        ensures open { IfSome result (λ info. is_source_read self.now ≡ false) }
    {
        match self {
            ImageSource::Pixels(reader) => reader.gives(),
            ImageSource::Targa(reader) => reader.gives(),
        }
    }

    /// A reader that gives them, those of the bytes so far too, where `gives` tells the numbers. None were given yet.
    pub fn into_samples(self) -> ImageSamples
        requires { (info : Numbers) × CanGiveSamples info self }
        ensures fed { GivesFrom self result }
        ensures more { is_samples_read result ≡ false }
        ensures taken { samples_taken result ≡ source_taken self }
        ensures targa { is_targa_given result ≡ is_targa self }
    {
        match self {
            ImageSource::Pixels(reader) => ImageSamples::Pnm(reader.into_samples()),
            ImageSource::Targa(reader) => ImageSamples::Targa(reader.into_samples()),
        }
    }

    /// The file ends here: the image is complete, and None is returned, or this is its fault.
    pub fn end(&mut self) -> Result<Option<u64>, Why>
        requires { is_source_read self.old ≡ false }
        ensures { EndsImage self.old result self.new }
    {
        match self {
            ImageSource::Pixels(reader) => end_pixels(reader),
            ImageSource::Targa(reader) => end_targa(reader),
        }
    }

    /// The image, which must be complete.
    pub fn take(self) -> Image
        requires { is_source_read self ≡ true }
        ensures { image_by_parts result.info result.samples ≡ source_read self }
    {
        match self {
            ImageSource::Pixels(reader) => reader.take(),
            ImageSource::Targa(reader) => reader.take(),
        }
    }
}

// Takes a piece of PNM or BMP.
fn feed_pixels(reader: &mut PixelReader, piece: &[u8]) -> Result<bool, Why>
    requires more { is_image_read reader.old ≡ false }
    requires room { pixels_taken reader.old + length piece.now ≤ 1099511627776 }
    requires short { length piece.now ≤ 65536 }
    requires some { 0 < length piece.now }
    ensures { TakesPixels reader.old piece.now result reader.new }
{
    step_of(reader.feed(piece))
}

// Takes a piece of Targa.
fn feed_targa(reader: &mut TargaReader, piece: &[u8]) -> Result<bool, Why>
    requires more { is_targa_read reader.old ≡ false }
    requires room { targa_taken reader.old + length piece.now ≤ 1099511627776 }
    requires short { length piece.now ≤ 65536 }
    ensures { TakesTarga reader.old piece.now result reader.new }
{
    step_of(reader.feed(piece))
}

// Whether the image is complete, for what a reader returned.
pub(crate) fn step_of(answer: Result<Fed2, Stop>) -> Result<bool, Why>
    ensures { result ≡ step_of answer }
{
    match answer {
        Ok(Fed2::More) => Ok(false),
        Ok(Fed2::Done) => Ok(true),
        Err(stop) => Err(why_stopped(stop)),
    }
}

// The input ends after bytes of PNM or BMP.
fn end_pixels(reader: &mut PixelReader) -> Result<Option<u64>, Why>
    requires { is_image_read reader.old ≡ false }
    ensures { EndsPixels reader.old result reader.new }
{
    match reader.end() {
        Ok(()) => Ok(None),
        Err(stop) => Err(why_stopped(stop)),
    }
}

// The input ends after bytes of Targa: its last pixel isn't there.
fn end_targa(reader: &mut TargaReader) -> Result<Option<u64>, Why>
    requires { is_targa_read reader.old ≡ false }
    ensures { EndsTarga reader.old result reader.new }
{
    Err(why_stopped(reader.end()))
}
