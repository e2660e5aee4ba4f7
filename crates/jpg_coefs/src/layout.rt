//! Where the blocks of a frame are stored.
ghost use Rattle.std.specs.Prelude.{◌≡◌, ◌≤◌, ℕ};
ghost use Rattle.jpg_spec.specs.Geometry.{Frame as Numbers, padded_blocks};
ghost use Rattle.jpg_base.specs.Cursor.{IsPadded};
ghost use Rattle.jpg_coefs.specs.Stored.{IsLaidOut, in_line, line_length, stored_index};

use jpg_base::{Frame, Grid};

/// The order in which the blocks of a component are stored. It changes how fast blocks are found that are wanted in one
/// order or the other, and nothing else.
#[derive(Clone, Copy, Debug, PartialEq, Eq)]
pub enum BlockOrder {
    /// Row by row of its padded grid.
    ByRows,
    /// Column by column.
    ByColumns,
}

/// Where the blocks of a frame are stored, component by component.
#[derive(Clone, Copy)]
pub struct Layout {
    /// The order of the blocks of a component.
    pub order: BlockOrder,
    /// By component, where its first block is.
    pub offsets: [u32; 4],
    /// By component, how many blocks a line has: a row, or a column.
    pub strides: [u32; 4],
}

impl Layout {
    /// Where the blocks of a frame are stored in this order, and how many they are.
    pub fn new(frame: &Frame, order: BlockOrder) -> (Layout, u32)
        ensures order { result.0.order ≡ order }
        ensures laid { IsLaidOut frame.now result.0 }
        ensures count { result.1 ≡ padded_blocks frame.now }
    {
        let mut offsets = [0; 4];
        let mut strides = [0; 4];
        let mut total: u32 = 0;
        frame.checked();
        for i in 0..frame.count() {
            let grid = frame.padded(i);
            offsets[i as usize] = total;
            strides[i as usize] = line_length(order, grid);
            total += grid.wide * grid.high;
        }
        let layout = Layout {
            order,
            offsets,
            strides,
        };
        (layout, total)
    }

    /// Where the block of a component is stored, by its column and row.
    #[inline]
    pub fn place(&self, component: u8, x: u32, y: u32) -> usize
        requires { (f : Numbers) × IsLaidOut f self.now × IsPadded f component x y }
        ensures { (f : Numbers) → IsLaidOut f self.now → IsPadded f component x y → result ≡ stored_index f self.now.order component x y }
    {
        let i = component as usize;
        let (line, at) = in_line(self.order, x, y);
        self.offsets[i] as usize + (line as usize * self.strides[i] as usize + at as usize)
    }
}

// How many blocks a line of a grid has.
fn line_length(order: BlockOrder, grid: Grid) -> u32
    ensures { result ≡ line_length order grid }
{
    match order {
        BlockOrder::ByRows => grid.wide,
        BlockOrder::ByColumns => grid.high,
    }
}

// The line of a block, by its column and row, and its place in the line.
#[inline]
fn in_line(order: BlockOrder, x: u32, y: u32) -> (u32, u32)
    ensures { result ≡ in_line order x y }
{
    match order {
        BlockOrder::ByRows => (y, x),
        BlockOrder::ByColumns => (x, y),
    }
}
