//! Rows of samples upsampled and downsampled (as by release 6b).
#![tactic(auto)]

mod narrow;
mod ratio;
mod repeat;
mod smooth;

pub use narrow::down_rows;
pub use ratio::{FractionalSampling, Ratio};
pub use repeat::repeat_row;
pub use smooth::{up_row, up_rows2};
