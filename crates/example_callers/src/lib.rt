//! How another program calls the libraries, for the gate: docs/CALLING.md shows these texts.
#![tactic(auto)]

mod comments;
mod fronts;
mod images;
mod pictures;
mod segments;

pub use comments::{comments_of, comments_of_pieces};
pub use fronts::first_scans;
pub use images::{encode, read_image};
pub use pictures::{NotTurned, read_picture, turn, turn_coefs};
pub use segments::{Listed, list_segments};
