//! What takes the samples of an image (the manual of cjpeg): as planes, or as the data of its one scan.
ghost use Rattle.std.specs.Prelude.{◌≡◌, ◌≤◌, ◌+◌, List, OnOk, Option, length, ℕ};
ghost use Rattle.jpg_spec_image.specs.declared.image.ImageInfo.{ImageInfo as Numbers};
ghost use Rattle.jpg_color.specs.EncodeRows.{RowScan};
ghost use Rattle.jpg_color.specs.declared.encode.Encoding.{Encoding as Asked};

use crate::encode::row_encoder::RowEncoder;
use crate::encode::sampler::Sampler;
use jpg_base::NoMemory;

/// An image that is encoded while its samples come.
#[derive(Drop)]
pub enum ImageEncoder<'a> {
    /// Its planes are kept.
    Planes(Sampler),
    /// The data of its one scan are.
    Rows(RowEncoder<'a>),
}

impl<'a> ImageEncoder<'a> {
    ghost use Rattle.jpg_color.specs.ImageEncoder.{AddsTaken, HasTaken, encoder_left};

    /// How many samples of the image are still to come.
    pub fn left(&self) -> usize
        ensures { result ≡ encoder_left self.now }
    {
        match self {
            ImageEncoder::Planes(sampler) => sampler.left(),
            ImageEncoder::Rows(rows) => rows.left(),
        }
    }

    /// Takes the next samples, of which there are at most those that are left. After NoMemory no more may be taken.
    pub fn feed(&mut self, samples: &[u8]) -> Result<(), NoMemory>
        requires few { length samples.now ≤ encoder_left self.old }
        requires has { (w : Option RowScan) × (info : Numbers) × (a : Asked) × (given : List ℕ) × HasTaken w info a given self.old }
        ensures adds { OnOk result (AddsTaken self.old samples.now self.new) }
        ensures left { OnOk result (encoder_left self.new + length samples.now ≡ encoder_left self.old) }
    {
        match self {
            ImageEncoder::Planes(sampler) => sampler.feed(samples),
            ImageEncoder::Rows(rows) => rows.feed(samples),
        }
    }
}
