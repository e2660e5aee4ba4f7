//! The image that a picture shows (T.81, A.3.3, JFIF 1.02, release 6b's djpeg): samples, colours, and the texts of
//! image files; and its laws.
#![tactic(auto)]

pub mod encoding_examples;
pub mod encoding_laws;
pub mod front_examples;
pub mod front_laws;
mod image;
pub mod image_examples;
pub mod image_laws;
pub mod pixel_examples;
pub mod row_laws;
pub mod shown_laws;
pub mod strip_laws;
pub mod targa_examples;
pub mod targa_laws;

pub use image::{EndKind, ImageInfo, ImageKind};
