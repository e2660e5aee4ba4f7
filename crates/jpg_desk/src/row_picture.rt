//! A picture whose MCU rows are put in one at a time, from the top (T.81, A.2.3).
ghost use Rattle.std.specs.Prelude.{◌≡◌, ◌<◌, ℕ, IfOk, length};
ghost use Rattle.jpg_spec.specs.Geometry.{mcu_row_frame};
ghost use Rattle.jpg_spec.specs.Scan.{Blocks};
ghost use Rattle.jpg_base.specs.Cursor.{IsPadded};
ghost use Rattle.jpg_coefs.specs.Copied.{CopiesBlocks, in_grid_row};
ghost use Rattle.jpg_transform.specs.RowsMoved.{mcu_rows};
ghost use Rattle.jpg_desk.specs.RowsKept.{IsNextRow, in_mcu_row, in_part, line_blocks, row_blocks};

use jpg_base::{Frame, NoMemory};
use jpg_coefs::{BlockOrder, BlockView, Coefs};
use std::alloc::Global;

/// A picture whose MCU rows are put in from the top, one at a time. All other blocks are zero.
#[derive(Drop)]
pub struct RowPicture {
    // Its blocks.
    coefs: Coefs,
    // How many MCU rows were put in.
    rows: u32,
}

impl RowPicture {
    ghost use Rattle.jpg_spec.specs.Geometry.{Frame as Numbers};
    ghost use Rattle.jpg_desk.specs.RowsKept.{CanKeep, HasKept, IsToldWhole, KeepsRow};

    /// One of this frame in which no MCU row is put yet. NoMemory if there is no memory for its blocks, which are packed, as
    /// each is put once.
    pub fn new(alloc: Global, frame: &Frame) -> Result<RowPicture, NoMemory>
        ensures { IfOk result (λ r. (blocks : Blocks) → HasKept frame.now 0 blocks r) }
    {
        frame.checked();
        let coefs = Coefs::packed(alloc, frame, BlockOrder::ByRows)?;
        Ok(RowPicture { coefs, rows: 0 })
    }

    /// Puts in the blocks of the next MCU row, which are stored without the rest of the picture. One is left to be put.
    pub fn put(&mut self, row: &Coefs)
        requires { (f : Numbers) × (k : ℕ) × (blocks : Blocks) × CanKeep f k blocks row.now self.old }
        ensures { KeepsRow self.old row.now self.new }
    {
        put_row(row, self.rows, &mut self.coefs);
        self.rows += 1;
    }

    /// Whether all MCU rows were put in.
    pub fn is_whole(&self) -> bool
        ensures { (f : Numbers) (k : ℕ) (blocks : Blocks) → HasKept f k blocks self.now → IsToldWhole f k result }
    {
        self.rows >= mcu_rows(self.coefs.frame())
    }

    /// Its coefficients: the MCU rows that were put, and zeros after them.
    pub fn into_coefs(self) -> Coefs
        ensures { result ≡ self.coefs }
    {
        self.coefs
    }
}

// How many MCU rows a scan of all components has: of one component each row of blocks is one (T.81, A.2.2).
fn mcu_rows(frame: &Frame) -> u32
    ensures { result ≡ mcu_rows frame.now }
{
    frame.checked();
    if frame.count() == 1 {
        frame.blocks(0).high
    } else {
        frame.mcus().high
    }
}

// Puts MCU row `k`.
fn put_row(row: &Coefs, k: u32, coefs: &mut Coefs)
    requires { IsNextRow coefs.old.frame k row.now.frame }
    ensures { CopiesBlocks (in_mcu_row coefs.old.frame k) (row_blocks coefs.old.frame k row.now) coefs.old coefs.new }
{
    for i in 0..row.frame().count() {
        put_part(row, i, k, coefs);
    }
}

// Puts the blocks of a component of MCU row `k`.
fn put_part(row: &Coefs, i: u8, k: u32, coefs: &mut Coefs)
    requires next { IsNextRow coefs.old.frame k row.now.frame }
    requires there { i < length coefs.old.frame.components }
    ensures { CopiesBlocks (in_part coefs.old.frame k i) (row_blocks coefs.old.frame k row.now) coefs.old coefs.new }
{
    let high = row.frame().blocks(i).high;
    let top = k * high;
    for y in 0..high {
        put_line(row, i, y, top + y, coefs);
    }
}

// Puts a row of blocks, those of a row of an MCU row.
fn put_line(row: &Coefs, i: u8, from: u32, to: u32, coefs: &mut Coefs)
    requires frame { row.now.frame ≡ mcu_row_frame coefs.old.frame }
    requires from { IsPadded row.now.frame i 0 from }
    requires to { IsPadded coefs.old.frame i 0 to }
    ensures { CopiesBlocks (in_grid_row coefs.old.frame i to) (line_blocks row.now from) coefs.old coefs.new }
{
    let wide = row.frame().blocks(i).wide;
    for x in 0..wide {
        coefs.checked();
        coefs.set_block(i, x, to, &row.block(i, x, from));
    }
}
