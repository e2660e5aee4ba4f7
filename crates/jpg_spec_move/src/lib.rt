//! How a picture is moved (the manual of jpegtran): transformed, trimmed, to grayscale, cropped, and headed for writing;
//! and the laws of the eight transforms.
#![tactic(auto)]

mod area;
pub mod crop_examples;
pub mod moved_laws;
mod transform;
pub mod transform_examples;
pub mod transform_laws;

pub use area::Area;
pub use transform::Transform;
