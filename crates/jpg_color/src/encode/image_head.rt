//! What the head of an encoded image's file is made from (T.81, B.2.1, Figure B.2).
use arrayvec::ArrayVec;
use jpg_base::{Frame, QuantTable};
use jpg_markers::{Jfif, KeptList};
use jpg_spec::Colour;

/// All that the file of an encoded image has before its scans.
#[derive(Drop)]
pub struct ImageHead {
    /// The frame header of the picture.
    pub frame: Frame,
    /// Its colours.
    pub colour: Colour,
    /// The quantisation table of each component.
    pub quants: ArrayVec<QuantTable, 4>,
    /// Its kept markers: the JFIF header.
    pub kept: KeptList,
    /// What that header means.
    pub jfif: Jfif,
}
