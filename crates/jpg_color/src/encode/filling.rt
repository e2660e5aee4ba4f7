//! The coefficients of an encoded image, for scans that go through its blocks more than once (T.81, G.1.1).
ghost use Rattle.std.specs.Prelude.{◌≡◌, ◌<◌, length, IfOk};
ghost use Rattle.jpg_spec.specs.Geometry.{IsReal};
ghost use Rattle.jpg_spec.specs.Meaning.{real_blocks};
ghost use Rattle.jpg_coefs.specs.Picture.{map_of};
ghost use Rattle.jpg_coefs.specs.Copied.{CopiesBlocks, in_grids, in_grid, in_grid_row, is_place};
ghost use Rattle.jpg_color.specs.EncodeView.{view_blocks};

use crate::encode::view::EncodedImage;
use jpg_base::NoMemory;
use jpg_coefs::Coefs;
use std::alloc::Global;

/// The blocks of the view in the real grids, and zeros elsewhere.
pub(crate) fn coefs_of(alloc: Global, view: &EncodedImage) -> Result<Coefs, NoMemory>
    ensures frame { IfOk result (λ c. c.frame ≡ view.now.frame) }
    ensures blocks { IfOk result (λ c. map_of c ≡ real_blocks view.now.frame (view_blocks view.now)) }
{
    let mut coefs = Coefs::new(alloc, &view.frame)?;
    put_components(view, &mut coefs);
    Ok(coefs)
}

// Puts all blocks.
fn put_components(view: &EncodedImage, coefs: &mut Coefs)
    requires { coefs.old.frame ≡ view.now.frame }
    ensures { CopiesBlocks (in_grids view.now.frame) (view_blocks view.now) coefs.old coefs.new }
{
    for i in 0..view.frame.count() {
        put_rows(view, i, coefs);
    }
}

// Puts the blocks of a component.
fn put_rows(view: &EncodedImage, i: u8, coefs: &mut Coefs)
    requires frame { coefs.old.frame ≡ view.now.frame }
    requires there { i < length view.now.frame.components }
    ensures { CopiesBlocks (in_grid view.now.frame i) (view_blocks view.now) coefs.old coefs.new }
{
    let high = view.frame.blocks(i).high;
    for y in 0..high {
        put_row(view, i, y, coefs);
    }
}

// Puts a row of a component's blocks.
fn put_row(view: &EncodedImage, i: u8, y: u32, coefs: &mut Coefs)
    requires frame { coefs.old.frame ≡ view.now.frame }
    requires there { IsReal view.now.frame i 0 y }
    ensures { CopiesBlocks (in_grid_row view.now.frame i y) (view_blocks view.now) coefs.old coefs.new }
{
    let wide = view.frame.blocks(i).wide;
    for x in 0..wide {
        put_block(view, i, x, y, coefs);
    }
}

// Puts a block.
fn put_block(view: &EncodedImage, i: u8, x: u32, y: u32, coefs: &mut Coefs)
    requires frame { coefs.old.frame ≡ view.now.frame }
    requires there { IsReal view.now.frame i x y }
    ensures { CopiesBlocks (is_place i x y) (view_blocks view.now) coefs.old coefs.new }
{
    view.frame.checked();
    coefs.checked();
    coefs.set_block(i, x, y, &view.real_block(i, x, y));
}
