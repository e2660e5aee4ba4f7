//! What the head of a file is written from.
use arrayvec::ArrayVec;
use jpg_base::{Frame, QuantTable};
use jpg_spec::{Colour, Copying, Jfif};

/// What the head of a file is written from.
#[derive(Drop)]
pub struct OutHead {
    /// Its frame header.
    pub frame: Frame,
    /// Its colours.
    pub colour: Colour,
    /// The quantisation table of each component, in the frame's order.
    pub quants: ArrayVec<QuantTable, 4>,
    /// The JFIF header of the input.
    pub jfif: Jfif,
    /// Which of the kept markers are passed on.
    pub copying: Copying,
}
