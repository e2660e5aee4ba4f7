//! A piece of a file, read up to the next MCU row if its first scan has all components, or up to the end of a scan's data
//! (T.81, A.2.3, B.1.1, B.2.1).
ghost use Rattle.std.specs.Prelude.{ℕ, List, ◌≡◌, None, true, false};
ghost use Rattle.jpg_file.specs.Read.File.{limits_of};
ghost use Rattle.jpg_file.specs.Read.ReadFile.{ReadsPiece, RowsOpen};
ghost use Rattle.jpg_file.specs.Read.Strips.{seen_of};
ghost use Rattle.jpg_file.specs.Read.Window.{rows_in};

use crate::read::file::FileState;
use crate::read::step::Step;
use jpg_base::Stop;

/// The result of a piece of a file that is read MCU row by MCU row.
#[derive(Clone, Copy, Debug, PartialEq, Eq)]
pub enum FedRow {
    /// No further MCU row is complete, nor the file, and nothing is wrong.
    More,
    /// A further MCU row is complete with this many bytes of the piece.
    Row { used: u64 },
    /// The file is complete with this many bytes of the piece.
    Done { used: u64 },
}

/// The result of a piece of a file that is fed up to the end of a scan's data.
#[derive(Clone, Copy, Debug, PartialEq, Eq)]
pub enum FedScan {
    /// The data of no scan end in the piece, the file isn't complete, and nothing is wrong.
    More,
    /// The data of a scan end with this many bytes of the piece, the last of which is the code of the marker after them.
    Scan { used: u64 },
    /// The file is complete with this many bytes of the piece.
    Done { used: u64 },
}

/// Takes the bits that wait, and then the bytes of a piece up to the last bit of the next MCU row, or to the one that
/// completes the file. With `scans`, where no MCU rows are read, it goes up to the code of the marker that ends the data of
/// a scan, and returns Row there.
pub fn read_piece(work: &mut FileState, piece: &[u8], scans: bool) -> Result<FedRow, Stop>
    requires open { (bytes : List ℕ) × RowsOpen (limits_of work.old) bytes (rows_in work.old.window) work.old }
    requires plain { scans ≡ true → (work.old.by_row ≡ false) × (rows_in work.old.window ≡ None) }
    ensures { ReadsPiece scans (limits_of work.old) (seen_of work.old) piece.now result (seen_of work.new) }
{
    let limits = work.items.limits();
    let mut step = work.resume();
    let ended = work.scans_ended();
    let mut done = 0usize;
    loop {
        match step {
            Step::More => {}
            Step::Row => return Ok(FedRow::Row { used: done as u64 }),
            Step::Whole => return Ok(FedRow::Done { used: done as u64 }),
            Step::Ended(stop) => return Err(stop),
        }
        if work.taken >= limits.input {
            return Err(Stop::too_long(limits.input));
        }
        if scans && work.scans_ended() != ended {
            return Ok(FedRow::Row { used: done as u64 });
        }
        if done == piece.len() {
            return Ok(FedRow::More);
        }
        let (n, next) = work.some(&piece[done..]);
        done += n;
        step = next;
    }
}
