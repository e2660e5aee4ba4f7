//! Where the MCU rows of a picture go that is transformed while it is read (T.81, A.2.3).
ghost use Rattle.std.specs.Prelude.{◌≡◌, ℕ, OnOk};
ghost use Rattle.jpg_spec.specs.Geometry.{Frame as FrameOf};
ghost use Rattle.jpg_spec.specs.Scan.{Blocks};
ghost use Rattle.jpg_desk.specs.RowsTo.{CanEndRows, CanPut, EndsRows, Puts};

use crate::row_picture::RowPicture;
use jpg_base::NoMemory;
use jpg_coefs::Coefs;
use jpg_file::SoleScan;
use jpg_transform::{Job, RowMover};

/// Where the MCU rows of a picture go.
#[derive(Drop)]
pub enum RowsTo<'a> {
    /// Into the data of the output's one scan, for this job and with what the scan is written with.
    Moved {
        job: &'a Job,
        scan: &'a SoleScan,
        mover: RowMover<'a>,
    },
    /// Into a picture.
    Kept(RowPicture),
}

impl<'a> RowsTo<'a> {
    /// Takes the next MCU row. After NoMemory no more may be taken.
    pub fn put(&mut self, row: &Coefs) -> Result<(), NoMemory>
        requires { (f : FrameOf) × (k : ℕ) × (blocks : Blocks) × CanPut f k blocks row.now self.old }
        ensures { OnOk result (Puts self.old row.now self.new) }
    {
        match self {
            RowsTo::Moved { mover, .. } => mover.put(row),
            RowsTo::Kept(picture) => {
                picture.put(row);
                Ok(())
            }
        }
    }

    /// Takes the rows that are missing where the file ended early: this one, if one is missing, and zero rows after it.
    pub fn put_rest(&mut self, row: &Coefs) -> Result<(), NoMemory>
        requires { (f : FrameOf) × (k : ℕ) × (blocks : Blocks) × CanEndRows f k blocks row.now self.old }
        ensures { OnOk result (EndsRows self.old row.now self.new) }
    {
        match self {
            RowsTo::Moved { mover, .. } => {
                if mover.is_whole() {
                    return Ok(());
                }
                mover.put(row)?;
                mover.put_zeros()
            }
            RowsTo::Kept(picture) => {
                if !picture.is_whole() {
                    picture.put(row);
                }
                Ok(())
            }
        }
    }
}
