//! A transformed picture, as a view of the picture that was read (the manual of jpegtran).
ghost use Rattle.jpg_transform.specs.Places.{HasSources};

use jpg_base::Frame;
use jpg_file::Picture;

/// A transformed picture: a view of the picture that was read, with the output's frame. It takes no memory.
#[derive(Drop)]
pub struct Moved<'a> {
    // The picture that was read.
    pub(crate) picture: &'a Picture,
    // The output's frame.
    pub(crate) frame: &'a Frame,
    // Rows become columns.
    pub(crate) over: bool,
    // By component, how many columns of the output are mirrored.
    pub(crate) columns: [u32; 4],
    // By component, how many rows of the output are mirrored.
    pub(crate) rows: [u32; 4],
    ghost reaches: { HasSources picture.now.frame over columns rows frame.now },
}
