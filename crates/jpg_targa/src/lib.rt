//! Targa files, written row by row and read in pieces (Truevision TGA File Format Specification, version 2.0).
#![tactic(auto)]

mod end;
mod read;

pub use end::TargaEnd;
pub use jpg_base::{Bytes, NoMemory, Stop};
pub use jpg_pnm_bmp::{Fed2, Finish, Image, ImageEnd};
pub use jpg_spec_image::targa_laws::targa_texts_have_their_image;
pub use jpg_spec_image::{EndKind, ImageInfo, ImageKind};
pub use read::given::TargaSamples;
pub use read::laws::{fed_targas_are_open, given_targas_go_on, targas_are_right};
pub use read::reader::TargaReader;
