//! Readers that give the samples of an image file as they are read, by the format of the file (release 6b's image files;
//! Truevision TGA File Format Specification, version 2.0).
ghost use Rattle.std.specs.Prelude.{◌≡◌, ◌≤◌, ◌+◌, length, false};
ghost use Rattle.jpg_pnm_bmp.specs.PnmGiven as pnm;
ghost use Rattle.jpg_targa.specs.TargaGiven as targa;
ghost use Rattle.jpg_desk.specs.ImageSamples.{EndsPnm, EndsTarga, GivesPnm, GivesTarga, LastsHere};

use crate::image_source::step_of;
use crate::pieces::why_stopped;
use jpg_base::{Bytes, Stop};
use jpg_pnm_bmp::{Fed2, PnmSamples};
use jpg_spec::{Fault, FaultAt, Limits};
use jpg_spec_words::Why;
use jpg_targa::TargaSamples;

/// What gives the samples of an image file, from the top.
#[derive(Drop)]
pub enum ImageSamples {
    /// Of PNM, as numbers or scaled.
    Pnm(PnmSamples),
    /// Of Targa whose rows come from the top.
    Targa(TargaSamples),
}

impl ImageSamples {
    ghost use Rattle.jpg_desk.specs.ImageSamples.{EndsSamples, GivesPiece, is_samples_read, samples_taken};

    /// How many bytes were taken so far, while more are needed.
    pub fn taken(&self) -> u64
        ensures { result ≡ samples_taken self.now }
    {
        match self {
            ImageSamples::Pnm(samples) => samples.taken(),
            ImageSamples::Targa(samples) => samples.taken(),
        }
    }

    /// Takes a further piece of the file, of at most 65,536 bytes, and appends samples: some of those that are known then, and
    /// all once the last one is. Returns whether that is so; or the fault of the bytes so far; or InputTooLong if as many
    /// were taken as may be; or that there is no memory.
    pub fn feed(&mut self, piece: &[u8], made: &mut Bytes) -> Result<bool, Why>
        requires more { is_samples_read self.old ≡ false }
        requires room { samples_taken self.old + length piece.now ≤ 1099511627776 }
        requires short { length piece.now ≤ 65536 }
        ensures { GivesPiece self.old piece.now made.old result self.new made.new }
    {
        match self {
            ImageSamples::Pnm(samples) => feed_pnm(samples, piece, made),
            ImageSamples::Targa(samples) => feed_targa(samples, piece, made),
        }
    }

    /// The file ends here: the samples that weren't given yet are appended, if the image is complete; or this is the file's
    /// fault; or there is no memory.
    pub fn end(&mut self, made: &mut Bytes) -> Result<(), Why>
        requires { is_samples_read self.old ≡ false }
        ensures { EndsSamples self.old made.old result made.new }
    {
        match self {
            ImageSamples::Pnm(samples) => end_pnm(samples, made),
            ImageSamples::Targa(samples) => end_targa(samples),
        }
    }
}

// Takes a piece of PNM.
fn feed_pnm(samples: &mut PnmSamples, piece: &[u8], made: &mut Bytes) -> Result<bool, Why>
    requires more { pnm.is_all_given samples.old ≡ false }
    requires room { pnm.given_taken samples.old + length piece.now ≤ 1099511627776 }
    requires short { length piece.now ≤ 65536 }
    ensures { GivesPnm samples.old piece.now made.old result samples.new made.new }
{
    match samples.feed(piece, made) {
        Ok(fed) => match fed {
            Fed2::More => goes_on(samples.taken()),
            Fed2::Done => Ok(true),
        },
        Err(stop) => Err(why_stopped(stop)),
    }
}

// Takes a piece of Targa, which is never longer than may be.
fn feed_targa(samples: &mut TargaSamples, piece: &[u8], made: &mut Bytes) -> Result<bool, Why>
    requires more { targa.is_all_given samples.old ≡ false }
    requires room { targa.given_taken samples.old + length piece.now ≤ 1099511627776 }
    requires short { length piece.now ≤ 65536 }
    ensures { GivesTarga samples.old piece.now made.old result samples.new made.new }
{
    step_of(samples.feed(piece, made))
}

// After so many bytes more are needed: a fault, if they are as many as may be taken.
fn goes_on(taken: u64) -> Result<bool, Why>
    ensures { LastsHere taken result }
{
    let most = Limits::standard().input;
    if taken == most {
        return Err(Why::Refused(FaultAt {
            fault: Fault::InputTooLong,
            at: most,
        }));
    }
    Ok(false)
}

// The input ends after bytes of PNM.
fn end_pnm(samples: &mut PnmSamples, made: &mut Bytes) -> Result<(), Why>
    requires { pnm.is_all_given samples.old ≡ false }
    ensures { EndsPnm samples.old made.old result made.new }
{
    match samples.end(made) {
        Ok(()) => Ok(()),
        Err(stop) => Err(why_stopped(stop)),
    }
}

// The input ends after bytes of Targa: its last pixel isn't there.
fn end_targa(samples: &mut TargaSamples) -> Result<(), Why>
    requires { targa.is_all_given samples.old ≡ false }
    ensures { EndsTarga samples.old result }
{
    Err(why_stopped(samples.end()))
}
