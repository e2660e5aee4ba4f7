//! The result of bytes of a file that is read.

use jpg_base::Stop;

/// The result of some bytes.
#[derive(Clone, Copy, Debug, PartialEq, Eq)]
pub enum Step {
    /// The file goes on.
    More,
    /// A further MCU row is complete.
    Row,
    /// The file is complete.
    Whole,
    /// It stops.
    Ended(Stop),
}
