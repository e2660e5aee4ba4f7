//! A picture, and its invariant (T.81, B.2.1).
ghost use Rattle.jpg_file.specs.Read.PictureKept.{ArePictureParts};

use arrayvec::ArrayVec;
use jpg_base::{Frame, QuantTable};
use jpg_coefs::Coefs;
use jpg_markers::{Jfif, KeptList};
use jpg_spec::Colour;

/// What a file means, if it is complete or ends early. The invariant of each picture: it has one table for each
/// component, without zeros, its coefficients are in the frame's grids and bounds, and its colours and its JFIF header
/// are those that its components and kept markers determine.
#[derive(Drop)]
pub struct Picture {
    /// Its frame header.
    pub frame: Frame,
    /// Its colours.
    pub colour: Colour,
    /// The quantisation table of each component at its first scan.
    pub quants: ArrayVec<QuantTable, 4>,
    /// All coefficients.
    pub coefs: Coefs,
    /// The markers that are kept.
    pub kept: KeptList,
    /// The last JFIF header.
    pub jfif: Jfif,
    pub ghost keeps: { ArePictureParts (record { frame = frame; colour = colour; quants = quants.items; coefs = coefs; kept = kept; jfif = jfif }) },
}
