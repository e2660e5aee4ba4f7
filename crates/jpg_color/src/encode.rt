//! A picture made of an image (the manual of cjpeg; T.81, A.1.1, A.2, A.3).
ghost use Rattle.std.specs.Prelude.{◌≡◌, ◌≤◌, [], IfOk, length};
ghost use Rattle.jpg_color.specs.Encode.{CanEncode, image_view};
ghost use Rattle.jpg_color.specs.EncodeAnswer.{IsEncoded, IsEncodedAs};
ghost use Rattle.jpg_color.specs.EncodeSampling.{HasSampled, samples_left};
ghost use Rattle.jpg_color.specs.declared.encode.Encoding.{Encoding as Asked};

pub mod block_row;
pub mod filling;
pub mod head;
pub mod image_encoder;
pub mod image_head;
pub mod lanes;
pub mod planes;
pub mod row_encoder;
pub mod row_view;
pub mod rows;
pub mod sampler;
pub mod strips;
pub mod view;
pub mod ycc;

use crate::encode::sampler::Sampler;
use arrayvec::ArrayVec;
use jpg_base::{NoMemory, QuantTable};
use jpg_file::Picture;
use jpg_pnm_bmp::Image;
use jpg_spec_write::PictureFault;
use std::alloc::Global;

/// How an image is encoded.
#[derive(Drop)]
pub struct Encoding {
    /// In grayscale, whatever its colours.
    pub gray: bool,
    /// For progressive scans.
    pub progressive: bool,
    /// The horizontal and the vertical factor of each component.
    pub factors: ArrayVec<(u8, u8), 4>,
    /// The table of the first component, and that of the others.
    pub tables: [QuantTable; 2],
}

impl Encoding {
    /// A copy of it.
    pub fn copy(&self) -> Encoding
        ensures gray { result.gray ≡ self.now.gray }
        ensures progressive { result.progressive ≡ self.now.progressive }
        ensures factors { result.factors.items ≡ self.now.factors.items }
        ensures tables { result.tables ≡ self.now.tables }
    {
        let mut factors = ArrayVec::new();
        let _ = factors.try_extend_from_slice(self.factors.as_slice());
        Encoding {
            gray: self.gray,
            progressive: self.progressive,
            factors,
            tables: self.tables,
        }
    }
}

/// Why no picture was made.
#[derive(Clone, Copy, Debug, PartialEq, Eq)]
pub enum EncodeStop {
    Picture(PictureFault),
    NoMemory,
}

/// The picture of an image. Returns FractionalFactors with the first component whose ratio to the greatest factors
/// isn't an integer, and then TooManyBlocks if the padded grids have more than 8388608 blocks. In addition to the
/// picture it takes memory for the planes of the components and for the rows of an MCU row.
pub fn encode_picture(
    alloc: Global,
    image: &Image,
    encoding: &Encoding,
) -> Result<Picture, EncodeStop>
    requires { CanEncode image.now encoding.now }
    ensures { IsEncoded image.now encoding.now result }
{
    match Sampler::new(alloc, image.info, encoding.copy()) {
        Ok(sampler) => match picture_of(alloc, image, sampler) {
            Ok(picture) => Ok(picture),
            Err(NoMemory) => Err(EncodeStop::NoMemory),
        },
        Err(stop) => Err(stop),
    }
}

// The picture of an image whose samples are still to come.
fn picture_of(alloc: Global, image: &Image, sampler: Sampler) -> Result<Picture, NoMemory>
    requires { length image.now.samples ≤ samples_left sampler }
    ensures { IfOk result (λ p. (a : Asked) → HasSampled image.now.info a [] sampler → IsEncodedAs image.now a p) }
{
    let mut sampler = sampler;
    sampler.feed(image.samples.as_slice())?;
    sampler.finish()?.picture(alloc)
}
