//! The orientation in the Exif segment of kept markers (Exif 2.3, 4.6.4; TIFF 6.0, section 2).
#![tactic(auto)]

mod directory;
mod numbers;
mod upright;

pub use jpg_markers::KeptList;
pub use jpg_spec_move::Transform;
pub use upright::mark_upright;
