//! The blocks of MCU rows of an image, each made when it is asked for (T.81, A.3.3, A.3.4).
ghost use Rattle.std.specs.Prelude.{◌≡◌, ◌<◌, ℕ, length};
ghost use Rattle.jpg_color.specs.EncodeBlocks.{AreRows, plane_at};
ghost use Rattle.jpg_color.specs.EncodedParts.{table_by};

use crate::encode::block_row::BlockRow;
use crate::encode::strips::Planes;
use jpg_base::{Block, Frame};
use jpg_coefs::BlockView;
use jpg_dct::Divisors;

/// Rows of blocks of the components of an image, as a view of its picture: blocks of other MCU rows are zero.
#[derive(Drop)]
pub(crate) struct RowView<'a> {
    /// The frame header of the picture.
    pub frame: &'a Frame,
    /// The planes of the components, in rows of complete blocks.
    pub planes: &'a Planes,
    /// The quantisers of the first component, prepared.
    pub first: &'a Divisors,
    /// Those of the others.
    pub others: &'a Divisors,
    /// How many MCU rows are before them.
    pub top: u32,
    pub ghost rows: { (i : ℕ) → i < length frame.now.components → AreRows frame.now i (plane_at planes.now i) },
}

impl<'a> RowView<'a> {
    ghost use Rattle.jpg_spec.specs.Geometry.{IsReal};
    ghost use Rattle.jpg_color.specs.EncodeRows.{window_blocks};

    // The rows of blocks of a component.
    fn rows(&self, component: u8) -> &'a [BlockRow]
        ensures { result.now ≡ plane_at self.now.planes.now component }
    {
        match component {
            0 => self.planes.ys.as_slice(),
            1 => self.planes.cbs.as_slice(),
            _ => self.planes.crs.as_slice(),
        }
    }

    // The quantisers of a component.
    fn divisors(&self, component: u8) -> &'a Divisors
        ensures { result.now ≡ table_by self.now.first.now self.now.others.now component }
    {
        if component == 0 {
            self.first
        } else {
            self.others
        }
    }

    // The block at a place, by a name other than that of the trait.
    #[inline(never)]
    fn real_block(&self, component: u8, x: u32, y: u32) -> Block
        requires { IsReal self.now.frame.now component x y }
        ensures { result ≡ window_blocks self.now.frame.now self.now.planes.now self.now.first.now self.now.others.now self.now.top component x y }
    {
        let start = u64::from(self.frame.component(component).v) * u64::from(self.top);
        let rows = self.rows(component);
        if u64::from(y) < start {
            return Block::zero();
        }
        let y = (u64::from(y) - start) as usize;
        if y >= rows.len() {
            return Block::zero();
        }
        let samples = rows[y].block(x as usize);
        Block::of(self.divisors(component).block(samples))
    }
}

impl<'a> BlockView for RowView<'a> {
    ghost use Rattle.jpg_color.specs.EncodeRows.{window_blocks};

    ghost numbers = { λ v. v.frame.now };

    ghost blocks = { λ v. window_blocks v.frame.now v.planes.now v.first.now v.others.now v.top };

    fn frame(&self) -> &Frame {
        self.frame
    }

    fn block(&self, component: u8, x: u32, y: u32) -> Block {
        self.real_block(component, x, y)
    }
}
