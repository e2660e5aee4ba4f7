//! The MCU rows of a picture taken as they are read, and each transformed and written at once, as data of the output's one
//! scan, where rows stay rows (T.81, A.2, F.1.2).
ghost use Rattle.std.specs.Prelude.{◌≡◌, ◌*◌, ◌<◌, ◌≤◌, ℕ, IfOk, OnOk, length, min, slice_index};
ghost use Rattle.jpg_spec.specs.Scan.{Blocks};
ghost use Rattle.jpg_spec.specs.Segments.{head_components};
ghost use Rattle.jpg_base.specs.Cursor.{AreIn};
ghost use Rattle.jpg_seq.specs.Reader.{row_units, rows_in_mcu};
ghost use Rattle.jpg_transform.specs.RowsMoved.{MovedScan, rows_of_output};

use crate::Job;
use crate::moved_block::all_columns;
use crate::moved_row::MovedRow;
use crate::zero_row::ZeroRow;
use jpg_base::{Bytes, Frame, NoMemory, ScanHead};
use jpg_coefs::{BlockView, Coefs, WrittenScan};
use jpg_huff::EncoderSet;
use jpg_seq::KeptScan;
use std::alloc::Global;

// The rows of blocks of a component in an MCU row: one, if it is the only component (T.81, A.2.2).
fn rows_of(source: &Frame, i: u8) -> u32
    requires { i < length source.now.components }
    ensures { result ≡ rows_in_mcu source.now i }
{
    if source.count() == 1 {
        1
    } else {
        u32::from(source.component(i).v)
    }
}

// Those of the first `count` components.
fn all_rows(source: &Frame, count: u8) -> [u32; 4]
    requires few { count ≤ 4 }
    requires there { (i : ℕ) → i < count → i < length source.now.components }
    ensures { (i : ℕ) → i < count → slice_index result i ≡ rows_in_mcu source.now i }
{
    let mut rows = [1; 4];
    for i in 0..count {
        rows[i as usize] = rows_of(source, i);
    }
    rows
}

// How many rows of MCUs of the output are in one of the picture that is read: several, if only the first component of
// several is kept.
fn rows_of_output(source: &Frame, out: &Frame) -> u8
    ensures value { result ≡ rows_of_output source.now out.now }
    ensures few { result ≤ 4 }
{
    source.checked();
    if source.count() == out.count() {
        return 1;
    }
    source.component(0).v
}

// How many units of the output's scan an MCU row of the picture that is read has.
fn units_moved(source: &Frame, out: &Frame, head: &ScanHead) -> u64
    requires { AreIn out.now (head_components head.now) }
    ensures { result ≡ row_units out.now (head_components head.now) * rows_of_output source.now out.now }
{
    let row = u64::from(out.scan_mcus(head).wide) * u64::from(out.mcu_units(head));
    row * u64::from(rows_of_output(source, out))
}

/// Takes the MCU rows of a picture, from the top, and writes the data of the transformed picture's one scan into memory. It
/// keeps no blocks.
#[derive(Drop)]
pub struct RowMover<'a> {
    // The output's frame.
    frame: &'a Frame,
    // By component, how many columns of the output are mirrored.
    columns: [u32; 4],
    // By component, how many rows of blocks an MCU row has.
    rows: [u32; 4],
    // The scan.
    scan: KeptScan<'a>,
    // How many units of the scan an MCU row has; the last one may have fewer.
    units: u64,
}

impl<'a> RowMover<'a> {
    ghost use Rattle.jpg_transform.specs.RowsMoved.{CanMove, CanMoveZero, CanMoveZeros, GivesMoved, HasAllMoved, HasMoved, IsMovedScan, MovesRow, MovesZero, MovesZeros, TellsWhole, moved_scan};

    /// The output of this job, of a picture with this frame of which no MCU row was taken. Rows stay rows in it
    /// (`row_scan`), and it has this one scan, by these tables. It takes no memory yet.
    pub fn new(
        alloc: Global,
        source: &Frame,
        job: &'a Job,
        scan: WrittenScan<'a>,
        encoders: EncoderSet<'a>,
    ) -> RowMover<'a>
        requires { IsMovedScan (moved_scan source.now job.now scan.head.now encoders scan.interval) }
        ensures { (blocks : Blocks) → HasMoved (moved_scan source.now job.now scan.entry.head.now encoders.entry scan.entry.interval) 0 blocks result }
    {
        let frame = &job.plan.out.frame;
        frame.checked();
        let columns = all_columns(job.transform, frame);
        let rows = all_rows(source, frame.count());
        let WrittenScan { head, interval } = scan;
        let scan = KeptScan::new(alloc, frame, head, encoders, interval);
        let units = units_moved(source, frame, head);
        RowMover {
            frame,
            columns,
            rows,
            scan,
            units,
        }
    }

    // How many units the next MCU row has.
    fn next_units(&self) -> u64
        ensures { result ≡ min self.now.units self.now.scan.units.left }
    {
        self.units.min(self.scan.left())
    }

    /// Takes the blocks of the next MCU row, which are stored without the rest of the picture. After NoMemory no more may be
    /// taken.
    pub fn put(&mut self, row: &Coefs) -> Result<(), NoMemory>
        requires { (w : MovedScan) × (k : ℕ) × (blocks : Blocks) × CanMove w k blocks row.now self.old }
        ensures { OnOk result (MovesRow self.old row.now self.new) }
    {
        let count = self.next_units();
        let view = MovedRow {
            row,
            frame: self.frame,
            columns: &self.columns,
            rows: &self.rows,
        };
        self.scan.put(&view, count)
    }

    /// Takes a next MCU row all whose blocks are zero. After NoMemory no more may be taken.
    pub fn put_zero(&mut self) -> Result<(), NoMemory>
        requires { (w : MovedScan) × (k : ℕ) × (blocks : Blocks) × CanMoveZero w k blocks self.old }
        ensures { OnOk result (MovesZero self.old self.new) }
    {
        let count = self.next_units();
        let view = ZeroRow { frame: self.frame };
        self.scan.put(&view, count)
    }

    /// Takes MCU rows all whose blocks are zero until there are all. After NoMemory no more may be taken.
    pub fn put_zeros(&mut self) -> Result<(), NoMemory>
        requires { (w : MovedScan) × (k : ℕ) × (blocks : Blocks) × CanMoveZeros w k blocks self.old }
        ensures { OnOk result (MovesZeros self.old self.new) }
    {
        while !self.is_whole() {
            self.put_zero()?;
        }
        Ok(())
    }

    /// Whether all MCU rows were taken.
    pub fn is_whole(&self) -> bool
        ensures { (w : MovedScan) (k : ℕ) (blocks : Blocks) → HasMoved w k blocks self.now → TellsWhole w k result }
    {
        self.scan.left() == 0
    }

    /// The data of the scan, after all MCU rows.
    pub fn finish(self) -> Result<Bytes, NoMemory>
        requires { (w : MovedScan) × (k : ℕ) × (blocks : Blocks) × HasAllMoved w k blocks self }
        ensures { IfOk result (GivesMoved self.entry) }
    {
        self.scan.finish()
    }
}
