//! The coefficients of a picture: the blocks of all padded grids (T.81, A.2.4).
ghost use Rattle.std.specs.Prelude.{◌≡◌, IfOk, replicate, length, slice_set, ℕ};
ghost use Rattle.jpg_spec.specs.Elements.{zeros};
ghost use Rattle.jpg_spec.specs.Geometry.{padded_blocks};
ghost use Rattle.jpg_base.specs.Cursor.{IsPadded};
ghost use Rattle.jpg_coefs.specs.Picture.{block_in, map_of, with_block};

use crate::BlockView;
use crate::layout::{BlockOrder, Layout};
use crate::store::BlockStore;
use jpg_base::{Block, Frame, NoMemory};
use std::alloc::Global;
use std::marker::Model;

/// All blocks of the padded grids of a frame.
#[derive(Drop)]
pub struct Coefs {
    // The header that bounds the grids.
    frame: Frame,
    // Where they are stored.
    layout: Layout,
    // All blocks.
    blocks: BlockStore,
}

impl Model for Coefs {
    ghost use Rattle.std.specs.Prelude.{◌≡◌, length};
    ghost use Rattle.jpg_spec.specs.Geometry.{padded_blocks};
    ghost use Rattle.jpg_coefs.specs.Picture.{Picture};
    ghost use Rattle.jpg_coefs.specs.Stored.{IsLaidOut, by_rows};

    ghost Value = { Picture };

    ghost view = { λ c. record { frame = c.frame; blocks = by_rows c.frame c.layout.order c.blocks } };

    ghost invariant = { λ c. IsLaidOut c.frame c.layout × (length c.blocks ≡ padded_blocks c.frame) };
}

impl Coefs {
    /// The block of a component, by its index in the frame, at a column and a row of its padded grid.
    pub fn block(&self, component: u8, x: u32, y: u32) -> Block
        requires { IsPadded self.now.frame component x y }
        ensures { result ≡ block_in self.now component x y }
    {
        self.blocks.get(self.layout.place(component, x, y))
    }

    /// States, for proofs, that each block has 64 values, and that there is one for each place of the padded grids. It
    /// does nothing.
    pub fn checked(&self)
        ensures sizes { (i x y : ℕ) → length (map_of self.now i x y) ≡ 64 }
        ensures count { length self.now.blocks ≡ padded_blocks self.now.frame }
    {
        self.blocks.sized();
    }

    /// Puts a block of a component at a column and a row of its padded grid. All others remain.
    pub fn set_block(&mut self, component: u8, x: u32, y: u32, block: &Block)
        requires { IsPadded self.old.frame component x y }
        ensures { self.new ≡ with_block self.old component x y block.now }
    {
        let place = self.layout.place(component, x, y);
        self.blocks.set(place, block);
    }

    /// Changes the DC of the block of a component at a column and a row of its padded grid. All else remains.
    pub fn set_dc(&mut self, component: u8, x: u32, y: u32, value: i16)
        requires { IsPadded self.old.frame component x y }
        ensures { self.new ≡ with_block self.old component x y (slice_set (block_in self.old component x y) 0 value) }
    {
        let place = self.layout.place(component, x, y);
        self.blocks.set_dc(place, value);
    }

    /// Makes all blocks zero. The frame remains.
    pub fn clear(&mut self)
        ensures frame { self.new.frame ≡ self.old.frame }
        ensures zero { self.new.blocks ≡ replicate (padded_blocks self.old.frame) (zeros 64) }
    {
        self.blocks.clear();
    }
}

impl Coefs {
    /// All blocks of the padded grids of the frame, zero, stored row by row. NoMemory if there is no memory for them.
    pub fn new(alloc: Global, frame: &Frame) -> Result<Coefs, NoMemory>
        ensures frame { IfOk result (λ c. c.frame ≡ frame.now) }
        ensures zero { IfOk result (λ c. c.blocks ≡ replicate (padded_blocks frame.now) (zeros 64)) }
    {
        Coefs::in_order(alloc, frame, BlockOrder::ByRows)
    }

    /// The same, stored in this order. Nothing else depends on it.
    pub fn in_order(alloc: Global, frame: &Frame, order: BlockOrder) -> Result<Coefs, NoMemory>
        ensures frame { IfOk result (λ c. c.frame ≡ frame.now) }
        ensures zero { IfOk result (λ c. c.blocks ≡ replicate (padded_blocks frame.now) (zeros 64)) }
    {
        let (layout, count) = Layout::new(frame, order);
        let blocks = BlockStore::whole(alloc, count)?;
        Ok(Coefs {
            frame: frame.copy(),
            layout,
            blocks,
        })
    }

    /// The same, where a block takes half of the memory if its AC fit into a byte each: for blocks that are put once.
    pub fn packed(alloc: Global, frame: &Frame, order: BlockOrder) -> Result<Coefs, NoMemory>
        ensures frame { IfOk result (λ c. c.frame ≡ frame.now) }
        ensures zero { IfOk result (λ c. c.blocks ≡ replicate (padded_blocks frame.now) (zeros 64)) }
    {
        let (layout, count) = Layout::new(frame, order);
        let blocks = BlockStore::packed(alloc, count)?;
        Ok(Coefs {
            frame: frame.copy(),
            layout,
            blocks,
        })
    }
}

impl Coefs {
    // The block at a place, by a name other than that of the trait.
    fn padded_block(&self, component: u8, x: u32, y: u32) -> Block
        requires { IsPadded self.now.frame component x y }
        ensures { result ≡ block_in self.now component x y }
    {
        self.block(component, x, y)
    }
}

impl BlockView for Coefs {
    ghost numbers = { λ c. c.frame };

    ghost blocks = { map_of };

    fn frame(&self) -> &Frame {
        &self.frame
    }

    fn block(&self, component: u8, x: u32, y: u32) -> Block {
        let _ = &self.layout;
        self.padded_block(component, x, y)
    }
}
