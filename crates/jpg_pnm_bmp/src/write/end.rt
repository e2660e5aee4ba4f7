//! Image writers, which make an image file from an image's rows.
ghost use Rattle.std.specs.Prelude.{◌≡◌, None};
ghost use Rattle.jpg_pnm_bmp.specs.EndState.{EndState, IsImageInfo, CanTakeRow, CanFinish, Starts, TakesRow, Finishes};

use jpg_base::{Bytes, NoMemory};
use jpg_spec_image::{EndKind, ImageInfo};

/// Whether `finish` is to be called again.
#[derive(Clone, Copy, Debug, PartialEq, Eq)]
pub enum Finish {
    More,
    Done,
}

/// Makes an image file of an image's rows, in one format. `start` is called once, then `row` for each row from the top
/// down, then `finish` until it returns `Done`. What they append, one after another, is the file.
///
/// Each call returns NoMemory if there is no memory. The writer and what is appended to are then as they were. `row`
/// and `finish` return it only if they have something to append: memory for rows that are kept is asked for by `start`.
pub trait ImageEnd: Drop {
    /// The image that it was given, and what it appended.
    ghost progress: { Self → EndState };

    /// The format.
    fn kind(&self) -> EndKind
        ensures { result ≡ (progress self.now).kind };

    /// Begins an image of sides from 1 to 65500 and at most 2^30 pixels. It appends the first part of the file, if that
    /// is written before the rows.
    fn start(&mut self, info: &ImageInfo, out: &mut Bytes) -> Result<(), NoMemory>
        requires new { (progress self.old).info ≡ None }
        requires info { IsImageInfo info.now }
        ensures { Starts (progress self.old) out.old info.now result (progress self.new) out.new };

    /// Takes the next row: one byte per pixel for gray, three (red, green, blue) for colours. It appends the row, if
    /// rows are written in this order.
    fn row(&mut self, row: &[u8], out: &mut Bytes) -> Result<(), NoMemory>
        requires { CanTakeRow (progress self.old) row.now }
        ensures { TakesRow (progress self.old) out.old row.now result (progress self.new) out.new };

    /// Appends the next part of what follows the rows, at most one row. Returns whether there are more parts.
    fn finish(&mut self, out: &mut Bytes) -> Result<Finish, NoMemory>
        requires { CanFinish (progress self.old) }
        ensures { Finishes (progress self.old) out.old result (progress self.new) out.new };
}
