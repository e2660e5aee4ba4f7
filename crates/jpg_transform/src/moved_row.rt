//! One MCU row of a picture, as a view of the transformed picture, where rows stay rows (T.81, A.2).
ghost use Rattle.jpg_transform.specs.Places.{HasRowSources};

use jpg_base::Frame;
use jpg_coefs::Coefs;

/// One MCU row of a picture, as a view of the transformed picture: each row of blocks of the output is the one of the MCU
/// row that has its number there. Only those that come from this MCU row are right.
#[derive(Drop)]
pub(crate) struct MovedRow<'a> {
    // The blocks of the MCU row.
    pub(crate) row: &'a Coefs,
    // The output's frame.
    pub(crate) frame: &'a Frame,
    // By component, how many columns of the output are mirrored.
    pub(crate) columns: &'a [u32; 4],
    // By component, how many rows of blocks an MCU row has.
    pub(crate) rows: &'a [u32; 4],
    ghost reaches: { HasRowSources row.now frame.now columns.now rows.now },
}
