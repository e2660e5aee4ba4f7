//! The picture that an image is encoded as, and the file that it is written in (release 6b's cjpeg); and its laws.
#![tactic(auto)]

pub mod encoding_examples;
pub mod encoding_laws;
