//! A picture all whose blocks are zero, as a view (T.81, A.2).
ghost use Rattle.jpg_spec.specs.FileMeaning.{no_blocks};

use jpg_base::{Block, Frame};
use jpg_coefs::BlockView;

/// Blocks of zeros, in this frame.
#[derive(Drop)]
pub(crate) struct ZeroRow<'a> {
    pub(crate) frame: &'a Frame,
}

impl<'a> BlockView for ZeroRow<'a> {
    ghost numbers = { λ v. v.frame.now };

    ghost blocks = { λ v. no_blocks };

    fn frame(&self) -> &Frame {
        self.frame
    }

    fn block(&self, component: u8, x: u32, y: u32) -> Block {
        let _ = (component, x, y);
        Block::zero()
    }
}
