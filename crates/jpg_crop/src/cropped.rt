//! A cropped picture, as a view of the picture before (the manual of libjpeg-turbo's jpegtran, `-crop`).
ghost use Rattle.jpg_crop.specs.CroppedBlocks.{HasPlaces};

use jpg_base::Frame;
use jpg_coefs::BlockView;

/// A cropped picture: a view of the view that it was cropped from, with the frame of the area. It takes no memory.
#[derive(Drop)]
pub struct Cropped<'a, V: BlockView> {
    // The view that it was cropped from.
    pub(crate) view: &'a V,
    // The frame of the area.
    pub(crate) frame: &'a Frame,
    // By component, how many columns of blocks are left out before it.
    pub(crate) columns: [u32; 4],
    // By component, how many rows of blocks are left out above it.
    pub(crate) rows: [u32; 4],
    ghost places: { HasPlaces (V.numbers view.now) columns rows frame.now },
}
