//! A row of blocks of a component's plane, block after block (T.81, A.2.4).
ghost use Rattle.std.specs.Prelude.{◌≡◌, ◌*◌, ◌<◌, [], IfOk, length, slice_index_or};
ghost use Rattle.jpg_color.specs.PlaneRows.{cut_in_blocks};

use crate::encode::planes::block_at;
use jpg_base::NoMemory;
use std::alloc::Global;
use std::marker::Model;
use std::vec::Vec;

/// The blocks of eight rows of samples, from the left, each with its 64 samples row by row: a block is one piece of
/// memory.
#[derive(Drop)]
pub(crate) struct BlockRow {
    blocks: Vec<[u8; 64]>,
}

impl Model for BlockRow {
    ghost use Rattle.std.specs.Prelude.{List, ℕ};

    ghost Value = { List (List ℕ) };

    ghost view = { λ r. r.blocks.items };
}

impl BlockRow {
    /// The blocks of eight rows of samples, each of `wide` samples.
    pub(crate) fn of(alloc: Global, rows: &[u8], wide: usize) -> Result<BlockRow, NoMemory>
        requires { length rows.now ≡ 8 * wide }
        ensures { IfOk result (λ r. r ≡ cut_in_blocks wide rows.now) }
    {
        let count = wide / 8;
        let Ok(mut blocks) = Vec::with_capacity(alloc, count) else {
            return Err(NoMemory);
        };
        for x in 0..count {
            blocks.push_reserved(block_at(rows, wide, x));
        }
        Ok(BlockRow { blocks })
    }

    /// Block x.
    #[inline(always)]
    pub(crate) fn block(&self, x: usize) -> &[u8; 64]
        requires { x < length self.now }
        ensures { result.now ≡ slice_index_or self.now x [] }
    {
        &self.blocks[x]
    }
}
