//! The orders in which the blocks of a picture are stored.
ghost use Rattle.std.specs.Prelude.{◌≡◌, IfOk, replicate};
ghost use Rattle.jpg_spec.specs.Elements.{zeros};
ghost use Rattle.jpg_spec.specs.Geometry.{padded_blocks};

use jpg_base::{Frame, NoMemory};
use jpg_coefs::{BlockOrder, Coefs};
use std::alloc::Global;

/// The orders in which the blocks of a picture are stored, by its kind. The scans of a sequential file put each block once,
/// so they are packed; those of a progressive one go over all blocks several times.
#[derive(Clone, Copy)]
pub struct Orders {
    /// Of a sequential picture.
    pub sequential: BlockOrder,
    /// Of a progressive picture.
    pub progressive: BlockOrder,
}

impl Orders {
    /// All by rows.
    pub fn by_rows() -> Orders {
        Orders {
            sequential: BlockOrder::ByRows,
            progressive: BlockOrder::ByRows,
        }
    }

    /// All blocks of the padded grids of the frame, zero, stored in the order for it. NoMemory if there is no memory for
    /// them.
    pub fn coefs(self, alloc: Global, frame: &Frame) -> Result<Coefs, NoMemory>
        ensures frame { IfOk result (λ c. c.frame ≡ frame.now) }
        ensures zero { IfOk result (λ c. c.blocks ≡ replicate (padded_blocks frame.now) (zeros 64)) }
    {
        if frame.is_progressive() {
            Coefs::in_order(alloc, frame, self.progressive)
        } else {
            Coefs::packed(alloc, frame, self.sequential)
        }
    }
}
