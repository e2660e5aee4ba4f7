//! Image files: PNM and BMP files written row by row and read in pieces (release 6b's image files).
#![tactic(auto)]

mod laws;
mod read;
mod write;

pub use jpg_base::{Bytes, NoMemory};
pub use jpg_spec_image::{EndKind, ImageInfo, ImageKind};
pub use laws::{
    fed_bytes_are_open, given_samples_go_on, images_are_right, images_are_written_whole,
    plain_samples_are_read,
};
pub use read::piece::{Answer, Fed2, Moved, PieceReader, PieceWork, one_byte};
pub use read::pixels::{Image, PixelReader};
pub use read::pnm_given::PnmSamples;
pub use read::samples::{SampleReader, SampleWork};
pub use write::bmp::BmpEnd;
pub use write::end::{Finish, ImageEnd};
pub use write::file_row::{add_file_row, file_row};
pub use write::pnm::PnmEnd;
