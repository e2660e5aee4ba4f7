//! An encoded image as a view of blocks, each made when it is asked for (T.81, A.3.3, A.3.4).
ghost use Rattle.std.specs.Prelude.{◌≡◌, IfOk};
ghost use Rattle.jpg_color.specs.EncodeBlocks.{plane_at};
ghost use Rattle.jpg_color.specs.EncodedParts.{AreViewParts, HasAllRows, blocks_of, parts_by, table_by};

use crate::encode::block_row::BlockRow;
use crate::encode::filling::coefs_of;
use crate::encode::strips::Planes;
use arrayvec::ArrayVec;
use jpg_base::{Block, Frame, NoMemory, QuantTable};
use jpg_coefs::BlockView;
use jpg_dct::Divisors;
use jpg_file::Picture;
use jpg_markers::{Jfif, KeptList};
use jpg_spec::Colour;
use std::alloc::Global;

/// What the picture of an image has, with the planes of its components in place of its coefficients: a view whose
/// blocks are taken from the planes, transformed and quantised each time that they are asked for. The invariant of each
/// encoded image: it has one table for each component, without zeros, its real blocks are in the frame's bounds, and
/// its colours and its JFIF header are those that its components and kept markers determine.
#[derive(Drop)]
pub struct EncodedImage {
    /// The frame header of the picture.
    pub frame: Frame,
    /// Its colours.
    pub colour: Colour,
    /// The quantisation table of each component.
    pub quants: ArrayVec<QuantTable, 4>,
    /// Its kept markers: the JFIF header.
    pub kept: KeptList,
    /// What that header means.
    pub jfif: Jfif,
    // The planes of the components, in rows of whole blocks.
    pub(crate) planes: Planes,
    // The quantisers of the first component, prepared.
    pub(crate) first: Divisors,
    // Those of the others.
    pub(crate) others: Divisors,
    pub ghost keeps: { AreViewParts (parts_by frame colour quants.items (blocks_of planes first others) kept jfif) },
    pub ghost rows: { HasAllRows frame planes },
}

impl EncodedImage {
    ghost use Rattle.jpg_spec.specs.Geometry.{IsReal};
    ghost use Rattle.jpg_file.specs.Read.PictureRead.{picture_meaning};
    ghost use Rattle.jpg_color.specs.EncodeView.{view_blocks, view_meaning};

    // The rows of blocks of a component.
    fn rows(&self, component: u8) -> &[BlockRow]
        ensures { result.now ≡ plane_at self.now.planes component }
    {
        match component {
            0 => self.planes.ys.as_slice(),
            1 => self.planes.cbs.as_slice(),
            _ => self.planes.crs.as_slice(),
        }
    }

    // The quantisers of a component.
    fn divisors(&self, component: u8) -> &Divisors
        ensures { result.now ≡ table_by self.now.first self.now.others component }
    {
        if component == 0 {
            &self.first
        } else {
            &self.others
        }
    }

    /// The block at a place, by a name other than that of the trait.
    #[inline(never)]
    pub(crate) fn real_block(&self, component: u8, x: u32, y: u32) -> Block
        requires { IsReal self.now.frame component x y }
        ensures { result ≡ view_blocks self.now component x y }
    {
        let samples = self.rows(component)[y as usize].block(x as usize);
        Block::of(self.divisors(component).block(samples))
    }

    /// The encoded image as a picture with its coefficients.
    pub fn picture(self, alloc: Global) -> Result<Picture, NoMemory>
        ensures means { IfOk result (λ p. picture_meaning p ≡ view_meaning self) }
        ensures jfif { IfOk result (λ p. p.jfif ≡ self.jfif) }
    {
        let coefs = coefs_of(alloc, &self)?;
        Ok(Picture {
            frame: self.frame,
            colour: self.colour,
            quants: self.quants,
            coefs,
            kept: self.kept,
            jfif: self.jfif,
        })
    }
}

impl BlockView for EncodedImage {
    ghost use Rattle.jpg_color.specs.EncodeView.{view_blocks};

    ghost numbers = { λ v. v.frame };

    ghost blocks = { view_blocks };

    fn frame(&self) -> &Frame {
        &self.frame
    }

    fn block(&self, component: u8, x: u32, y: u32) -> Block {
        self.real_block(component, x, y)
    }
}
