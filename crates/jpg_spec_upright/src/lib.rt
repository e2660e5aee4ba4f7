//! The orientation that Exif data tell of a picture, and the picture turned upright; laws.
#![tactic(auto)]

pub mod upright_laws;
