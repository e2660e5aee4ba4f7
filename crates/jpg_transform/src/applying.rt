//! The coefficients of a transformed picture (the manual of jpegtran).
ghost use Rattle.std.specs.Prelude.{◌≡◌, ◌<◌, length, IfOk};
ghost use Rattle.jpg_spec.specs.Geometry.{IsReal};
ghost use Rattle.jpg_spec.specs.Meaning.{real_blocks};
ghost use Rattle.jpg_spec_move.specs.Moved.{Choice};
ghost use Rattle.jpg_coefs.specs.Picture.{map_of};
ghost use Rattle.jpg_coefs.specs.Copied.{CopiesBlocks, in_grids, in_grid, in_grid_row, is_place};
ghost use Rattle.jpg_transform.specs.MovedBlocks.{ShowsJob, WritesJob, moved_blocks, moved_numbers};
ghost use Rattle.jpg_transform.specs.Planned.{IsJobFor};

use crate::{Job, Moved};
use jpg_base::NoMemory;
use jpg_coefs::{BlockView, Coefs};
use jpg_file::Picture;
use std::alloc::Global;

/// The coefficients of the picture converted to grayscale, transformed and trimmed, as the job that `plan` gave for it
/// says: in the job's frame they are those of the transformed picture, and all blocks outside the real grids are zero.
/// Returns NoMemory if there is no memory for them.
pub fn apply(alloc: Global, picture: &Picture, job: &Job) -> Result<Coefs, NoMemory>
    requires { (choice : Choice) × IsJobFor picture.now choice job.now }
    ensures frame { IfOk result (λ c. c.frame ≡ job.now.plan.out.frame) }
    ensures shows { IfOk result (λ c. ShowsJob picture.now job.now (map_of c)) }
    ensures zero { IfOk result (λ c. real_blocks job.now.plan.out.frame (map_of c) ≡ map_of c) }
    ensures writes { IfOk result (λ c. WritesJob picture.now job.now c.frame (map_of c)) }
{
    job.plan.out.frame.checked();
    let moved = Moved::new(picture, job);
    let mut coefs = Coefs::new(alloc, moved.frame())?;
    put_components(&moved, &mut coefs);
    Ok(coefs)
}

// Puts all blocks of a transformed picture.
fn put_components(moved: &Moved, coefs: &mut Coefs)
    requires { coefs.old.frame ≡ moved_numbers moved.now }
    ensures { CopiesBlocks (in_grids (moved_numbers moved.now)) (moved_blocks moved.now) coefs.old coefs.new }
{
    for i in 0..moved.frame().count() {
        put_rows(moved, i, coefs);
    }
}

// Puts the blocks of a component.
fn put_rows(moved: &Moved, i: u8, coefs: &mut Coefs)
    requires frame { coefs.old.frame ≡ moved_numbers moved.now }
    requires there { i < length (moved_numbers moved.now).components }
    ensures { CopiesBlocks (in_grid (moved_numbers moved.now) i) (moved_blocks moved.now) coefs.old coefs.new }
{
    let high = moved.frame().blocks(i).high;
    for y in 0..high {
        put_row(moved, i, y, coefs);
    }
}

// Puts a row of a component's blocks.
fn put_row(moved: &Moved, i: u8, y: u32, coefs: &mut Coefs)
    requires frame { coefs.old.frame ≡ moved_numbers moved.now }
    requires there { IsReal (moved_numbers moved.now) i 0 y }
    ensures { CopiesBlocks (in_grid_row (moved_numbers moved.now) i y) (moved_blocks moved.now) coefs.old coefs.new }
{
    let wide = moved.frame().blocks(i).wide;
    for x in 0..wide {
        put_block(moved, i, x, y, coefs);
    }
}

// Puts a block.
fn put_block(moved: &Moved, i: u8, x: u32, y: u32, coefs: &mut Coefs)
    requires frame { coefs.old.frame ≡ moved_numbers moved.now }
    requires there { IsReal (moved_numbers moved.now) i x y }
    ensures { CopiesBlocks (is_place i x y) (moved_blocks moved.now) coefs.old coefs.new }
{
    moved.frame().checked();
    coefs.checked();
    coefs.set_block(i, x, y, &moved.block(i, x, y));
}
