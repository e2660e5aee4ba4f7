//! Blocks by number, as they are or packed.
ghost use Rattle.std.specs.Prelude.{◌≡◌, ◌<◌, All, IfOk, length, replicate, slice_index_or, slice_set};
ghost use Rattle.jpg_spec.specs.Elements.{zeros};

use crate::packed::PackedBlocks;
use jpg_base::{Block, NoMemory};
use std::alloc::Global;
use std::marker::Model;
use std::vec::Vec;

/// How blocks are stored.
#[derive(Drop)]
pub enum Kept {
    /// As they are: found and changed fast.
    Whole(Vec<Block>),
    /// In half of the memory, most of them.
    Packed(PackedBlocks),
}

/// Blocks by number. Their count is fixed.
#[derive(Drop)]
pub struct BlockStore {
    kept: Kept,
}

impl Model for BlockStore {
    ghost use Rattle.std.specs.Prelude.{◌≡◌, List, ℤ, All, length};
    ghost use Rattle.jpg_coefs.specs.Kept.{kept_blocks};

    ghost Value = { List (List ℤ) };

    ghost view = { λ s. kept_blocks s.kept };

    ghost invariant = { λ s. All (λ b. length b ≡ 64) (kept_blocks s.kept) };
}

impl BlockStore {
    /// So many zero blocks, stored as they are. NoMemory if there is no memory for them.
    pub fn whole(alloc: Global, count: u32) -> Result<BlockStore, NoMemory>
        ensures { IfOk result (λ s. s ≡ replicate count (zeros 64)) }
    {
        let Ok(mut blocks) = Vec::with_capacity(alloc, count as usize) else {
            return Err(NoMemory);
        };
        match blocks.resize(count as usize, Block::zero()) {
            Ok(()) => Ok(BlockStore {
                kept: Kept::Whole(blocks),
            }),
            Err(_) => Err(NoMemory),
        }
    }

    /// So many zero blocks, packed. NoMemory if there is no memory for them.
    pub fn packed(alloc: Global, count: u32) -> Result<BlockStore, NoMemory>
        ensures { IfOk result (λ s. s ≡ replicate count (zeros 64)) }
    {
        let blocks = PackedBlocks::new(alloc, count)?;
        Ok(BlockStore {
            kept: Kept::Packed(blocks),
        })
    }

    /// The block of this number.
    #[inline(always)]
    pub fn get(&self, n: usize) -> Block
        requires { n < length self.now }
        ensures { result ≡ slice_index_or self.now n (zeros 64) }
    {
        match &self.kept {
            Kept::Whole(blocks) => blocks[n],
            Kept::Packed(blocks) => blocks.get(n),
        }
    }

    /// Puts a block in the place of that of this number.
    #[inline(always)]
    pub fn set(&mut self, n: usize, block: &Block)
        requires { n < length self.old }
        ensures { self.new ≡ slice_set self.old n block.now }
    {
        block.long();
        match &mut self.kept {
            Kept::Whole(blocks) => blocks[n] = *block,
            Kept::Packed(blocks) => blocks.set(n, block),
        }
    }

    /// Changes the DC of the block of this number.
    #[inline(always)]
    pub fn set_dc(&mut self, n: usize, value: i16)
        requires { n < length self.old }
        ensures { self.new ≡ slice_set self.old n (slice_set (slice_index_or self.old n (zeros 64)) 0 value) }
    {
        match &mut self.kept {
            Kept::Whole(blocks) => blocks[n].set(0, value),
            Kept::Packed(blocks) => blocks.set_dc(n, value),
        }
    }

    /// Makes all blocks zero.
    pub fn clear(&mut self)
        ensures { self.new ≡ replicate (length self.old) (zeros 64) }
    {
        match &mut self.kept {
            Kept::Whole(blocks) => blocks.fill(Block::zero()),
            Kept::Packed(blocks) => blocks.clear(),
        }
    }

    /// States, for proofs, that each block has 64 values. It does nothing.
    pub fn sized(&self)
        ensures { All (λ b. length b ≡ 64) self.now }
    {
        let _ = &self.kept;
    }
}
