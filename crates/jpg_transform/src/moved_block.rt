//! The blocks of a transformed picture, each found and transformed when it is asked for (the manual of jpegtran).
ghost use Rattle.std.specs.Prelude.{◌≡◌, ◌<◌, ℕ, length, slice_index};
ghost use Rattle.jpg_spec.specs.Geometry.{IsReal};
ghost use Rattle.jpg_spec_move.specs.Moved.{Choice, columns_in, rows_in};
ghost use Rattle.jpg_spec_move.specs.Transforms.{opposite};
ghost use Rattle.jpg_coefs.specs.Picture.{map_of};
ghost use Rattle.jpg_transform.specs.Places.{HasOpposites};
ghost use Rattle.jpg_transform.specs.Planned.{IsJobFor};
ghost use Rattle.jpg_transform.specs.MovedBlocks.{ShowsJob, WritesJob, moved_blocks, moved_numbers};

use crate::signs::{signed, signed_over};
use crate::table::{mirrors_across, mirrors_down, transposes};
use crate::{Job, Moved};
use jpg_base::{Block, Frame};
use jpg_coefs::BlockView;
use jpg_file::Picture;
use jpg_spec_move::Transform;

// How many columns of a component of the output are mirrored.
fn columns_of(transform: Transform, frame: &Frame, i: u8) -> u32
    requires { i < length frame.now.components }
    ensures { result ≡ columns_in transform frame.now i }
{
    if mirrors_across(transform) {
        let component = frame.component(i);
        frame.width() / (8 * u32::from(frame.h_max())) * u32::from(component.h)
    } else {
        0
    }
}

// How many rows of a component of the output are mirrored.
fn rows_of(transform: Transform, frame: &Frame, i: u8) -> u32
    requires { i < length frame.now.components }
    ensures { result ≡ rows_in transform frame.now i }
{
    if mirrors_down(transform) {
        let component = frame.component(i);
        frame.height() / (8 * u32::from(frame.v_max())) * u32::from(component.v)
    } else {
        0
    }
}

/// The mirrored columns of all components.
pub(crate) fn all_columns(transform: Transform, frame: &Frame) -> [u32; 4]
    ensures { (i : ℕ) → i < length frame.now.components → slice_index result i ≡ columns_in transform frame.now i }
{
    let mut columns = [0; 4];
    for i in 0..frame.count() {
        columns[i as usize] = columns_of(transform, frame, i);
    }
    columns
}

// The mirrored rows of all components.
fn all_rows(transform: Transform, frame: &Frame) -> [u32; 4]
    ensures { (i : ℕ) → i < length frame.now.components → slice_index result i ≡ rows_in transform frame.now i }
{
    let mut rows = [0; 4];
    for i in 0..frame.count() {
        rows[i as usize] = rows_of(transform, frame, i);
    }
    rows
}

/// The opposite column or row, if it is one of those that are mirrored.
#[inline(always)]
pub(crate) fn opposite(changed: u32, x: u32) -> u32
    ensures { result ≡ opposite changed x }
{
    if x < changed { changed - 1 - x } else { x }
}

impl<'a> Moved<'a> {
    /// The picture converted to grayscale, transformed and trimmed, as the job that `plan` gave for it says.
    /// `write_file` may write it by the job's plan, and the file is that of the transformed picture, which it means if
    /// some bytes mean the picture. It takes no memory.
    pub fn new(picture: &'a Picture, job: &'a Job) -> Moved<'a>
        requires { (choice : Choice) × IsJobFor picture.now choice job.now }
        ensures frame { moved_numbers result ≡ job.now.plan.out.frame }
        ensures shows { ShowsJob picture.now job.now (moved_blocks result) }
        ensures writes { WritesJob picture.now job.now (moved_numbers result) (moved_blocks result) }
    {
        let frame = &job.plan.out.frame;
        frame.checked();
        Moved {
            picture,
            frame,
            over: transposes(job.transform),
            columns: all_columns(job.transform, frame),
            rows: all_rows(job.transform, frame),
        }
    }

    // States, for proofs, that each value of the picture can change its sign. It does nothing.
    #[tactic(auto, using(crate::proofs::Opposites::opposites))]
    #[inline(always)]
    fn checked(&self)
        ensures { HasOpposites self.now.picture.now.frame (map_of self.now.picture.now.coefs) }
    {
        let _ = &self.picture;
    }

    // A block of the picture.
    #[inline(always)]
    fn source(&self, component: u8, x: u32, y: u32) -> Block
        requires { IsReal self.now.picture.now.frame component x y }
        ensures { result ≡ map_of self.now.picture.now.coefs component x y }
    {
        self.picture.coefs.block(component, x, y)
    }

    // A block of the output, transformed.
    #[inline(never)]
    fn turned(&self, component: u8, x: u32, y: u32) -> Block
        requires { IsReal (moved_numbers self.now) component x y }
        ensures { result ≡ moved_blocks self.now component x y }
    {
        self.checked();
        let columns = self.columns[component as usize];
        let rows = self.rows[component as usize];
        let column = opposite(columns, x);
        let row = opposite(rows, y);
        if self.over {
            signed_over(x < columns, y < rows, &self.source(component, row, column))
        } else {
            signed(x < columns, y < rows, &self.source(component, column, row))
        }
    }
}

impl<'a> BlockView for Moved<'a> {
    ghost numbers = { λ m. moved_numbers m };

    ghost blocks = { λ m. moved_blocks m };

    fn frame(&self) -> &Frame {
        self.frame
    }

    // It remains a call, so that a block that isn't transformed is copied once.
    #[inline(never)]
    fn block(&self, component: u8, x: u32, y: u32) -> Block {
        if self.over || x < self.columns[component as usize] || y < self.rows[component as usize] {
            return self.turned(component, x, y);
        }
        self.source(component, x, y)
    }
}
