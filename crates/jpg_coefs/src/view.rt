//! A view of the blocks of a picture.
ghost use Rattle.std.specs.Prelude.{◌≡◌};
ghost use Rattle.jpg_spec.specs.Geometry.{Frame as Numbers, IsReal};
ghost use Rattle.jpg_spec.specs.Scan.{Blocks};

use jpg_base::{Block, Frame};

/// The blocks of a picture, place by place of the real grids.
pub trait BlockView {
    ghost numbers: { Self → Numbers };

    ghost blocks: { Self → Blocks };

    /// The frame of the picture.
    fn frame(&self) -> &Frame
        ensures { result.now ≡ numbers self.now };

    /// The block of a component, by its index in the frame, at a column and a row of its real grid.
    fn block(&self, component: u8, x: u32, y: u32) -> Block
        requires { IsReal (numbers self.now) component x y }
        ensures { result ≡ blocks self.now component x y };
}
