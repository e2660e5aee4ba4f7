//! The blocks of one MCU row of a picture, each transformed when it is asked for, where rows stay rows (T.81, A.2).
ghost use Rattle.std.specs.Prelude.{◌≡◌, ◌%◌, ◌<◌, ◌≤◌, slice_index};
ghost use Rattle.jpg_spec.specs.Geometry.{IsReal};
ghost use Rattle.jpg_base.specs.Cursor.{IsPadded};
ghost use Rattle.jpg_coefs.specs.Picture.{map_of};
ghost use Rattle.jpg_transform.specs.RowsMoved.{row_blocks};

use crate::moved_block::opposite;
use crate::moved_row::MovedRow;
use crate::signs::signed;
use jpg_base::{Block, Frame};
use jpg_coefs::BlockView;

// The row that y is among so many, which are repeated. It divides only by 3 and 4.
#[inline(always)]
fn row_among(rows: u32, y: u32) -> u32
    requires { 1 ≤ rows }
    ensures { result ≡ y % rows }
{
    match rows {
        1 => 0,
        2 => y % 2,
        _ => y % rows,
    }
}

impl<'a> MovedRow<'a> {
    // A block of the MCU row, for a row of the output.
    #[inline(always)]
    fn source(&self, component: u8, x: u32, y: u32) -> Block
        requires few { component < 4 }
        requires some { 1 ≤ slice_index self.now.rows.now component }
        requires there { IsPadded self.now.row.now.frame component x (y % slice_index self.now.rows.now component) }
        ensures { result ≡ map_of self.now.row.now component x (y % slice_index self.now.rows.now component) }
    {
        self.row
            .block(component, x, row_among(self.rows[component as usize], y))
    }

    // A block of the output, mirrored.
    #[inline(never)]
    fn mirrored(&self, component: u8, x: u32, y: u32) -> Block
        requires { IsReal self.now.frame.now component x y }
        ensures { result ≡ row_blocks self.now component x y }
    {
        let columns = self.columns[component as usize];
        signed(
            x < columns,
            false,
            &self.source(component, opposite(columns, x), y),
        )
    }
}

impl<'a> BlockView for MovedRow<'a> {
    ghost numbers = { λ v. v.frame.now };

    ghost blocks = { λ v. row_blocks v };

    fn frame(&self) -> &Frame {
        self.frame
    }

    // It remains a call, so that a block that isn't mirrored is copied once.
    #[inline(never)]
    fn block(&self, component: u8, x: u32, y: u32) -> Block {
        if x < self.columns[component as usize] {
            return self.mirrored(component, x, y);
        }
        self.source(component, x, y)
    }
}
