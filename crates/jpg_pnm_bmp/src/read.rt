//! Images read piece by piece.

pub mod bmp;
pub mod body;
pub mod make;
pub mod numbers;
pub mod piece;
pub mod pixels;
pub mod pnm_given;
pub mod pnm_samples;
pub mod samples;
pub mod work;
