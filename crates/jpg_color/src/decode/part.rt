//! One component that is displayed: its rows of samples, and its row of the image.
ghost use Rattle.std.specs.Prelude.{◌≡◌, ◌<◌, ◌≤◌, ◌+◌, ◌-◌, ◌*◌, ◌/◌, ◌%◌, ◌==◌, min, if◌then◌else◌, IfOk, length, true};
ghost use Rattle.jpg_spec.specs.Geometry.{div_up};
ghost use Rattle.jpg_spec_image.specs.Upsampling.{has_far_rows, is_smoothed};
ghost use Rattle.jpg_file.specs.Read.PictureKept.{IsStripHead};
ghost use Rattle.jpg_color.specs.PartState.{CanDraw, CanFill, CanFillGray, IsNewPart, IsSized, drawn, filled, grayed_part, head_picture, upsampled_from};

use crate::decode::sample_rows::{ComponentRows, SampleRows};
use jpg_base::{NoMemory, QuantTable};
use jpg_coefs::Coefs;
use jpg_file::StripHead;
use jpg_sample::{Ratio, repeat_row, up_row, up_rows2};
use std::alloc::Global;
use std::marker::Model;
use std::vec::Vec;

/// One component that is displayed: the rows of samples that are kept of it, and its row of the image, not yet cut to
/// the image's width.
#[derive(Drop)]
pub(crate) struct Part {
    // Its index in the frame.
    component: u8,
    // Samples of a row of its plane.
    wide: u32,
    // Rows of its plane.
    high: u32,
    // The ratios of the greatest factors to its own.
    ratio: Ratio,
    // Rows are smoothed where they are upsampled.
    smooth: bool,
    // How many rows of blocks it has in an MCU row.
    block_rows: u8,
    // Its quantisation table.
    quants: QuantTable,
    // The rows of samples that are kept.
    rows: SampleRows,
    // Its row of the image.
    line: Vec<u8>,
}

impl Model for Part {
    ghost use Rattle.jpg_color.specs.PartState.{PartState, IsMeasured, state_of, stretch_by};

    ghost Value = { PartState };

    ghost view = { λ p. state_of p.component (stretch_by p.wide p.high p.ratio p.smooth) p.block_rows p.quants p.rows p.line.items };

    ghost invariant = { λ p. IsMeasured (state_of p.component (stretch_by p.wide p.high p.ratio p.smooth) p.block_rows p.quants p.rows p.line.items) };
}

// A side in samples of a component.
fn samples(side: u32, factor: u8, most: u8) -> u32
    requires side { side ≤ 65500 }
    requires factor { factor ≤ 4 }
    requires most { (1 ≤ most) × (most ≤ 4) }
    ensures { result ≡ div_up (side * factor) most }
{
    (side * u32::from(factor) + u32::from(most) - 1) / u32::from(most)
}

// The rows of blocks of a component in an MCU row.
fn rows_of(count: u8, factor: u8) -> u8
    ensures { result ≡ (if count == 1 then 1 else factor) }
{
    if count == 1 { 1 } else { factor }
}

// This many bytes.
pub(crate) fn bytes(alloc: Global, count: usize) -> Result<Vec<u8>, NoMemory>
    requires { count ≤ 4000000 }
    ensures { IfOk result (λ v. length v.items ≡ count) }
{
    let Ok(mut bytes) = Vec::with_capacity(alloc, count) else {
        return Err(NoMemory);
    };
    match bytes.resize(count, 0) {
        Ok(()) => Ok(bytes),
        Err(_) => Err(NoMemory),
    }
}

// The row above or below that of row y of the image, if one row of samples becomes two.
fn far(y: u32, high: u32) -> u32
    requires { (1 ≤ high) × (high ≤ 65500) }
    ensures { result ≡ (if y % 2 == 0 then y / 2 - 1 else min (y / 2 + 1) (high - 1)) }
{
    if y % 2 == 0 {
        (y / 2).saturating_sub(1)
    } else {
        (y / 2 + 1).min(high - 1)
    }
}

// How many rows of samples are known after this many MCU rows.
fn known(block_rows: u8, high: u32, pushed: u32) -> u32
    requires rows { block_rows ≤ 4 }
    requires pushed { pushed ≤ 65536 }
    ensures { result ≡ min (8 * block_rows * pushed) high }
{
    (8 * u32::from(block_rows) * pushed).min(high)
}

// The first row of samples that is kept after this many MCU rows.
fn top(block_rows: u8, pushed: u32) -> u32
    requires rows { block_rows ≤ 4 }
    requires pushed { pushed ≤ 65536 }
    ensures { result ≡ 8 * block_rows * (pushed - 1) - 1 }
{
    (8 * u32::from(block_rows) * pushed.saturating_sub(1)).saturating_sub(1)
}

// A row of the image from the row of samples near it, and the far one if it is made from two.
fn upsample(near: &[u8], far: &[u8], smoothed: bool, ratio: Ratio, out: &mut [u8])
    requires smoothed { smoothed ≡ true → (2 < length near.now) × (ratio.across ≡ 2) }
    requires same { length far.now ≡ length near.now }
    requires room { length out.old ≡ ratio.across * length near.now }
    ensures { out.new ≡ upsampled_from near.now far.now smoothed ratio.across ratio.down }
{
    if smoothed && ratio.down == 2 {
        up_rows2(near, far, out);
    } else if smoothed && ratio.down == 1 {
        up_row(near, out);
    } else {
        repeat_row(near, ratio.across, out);
    }
}

impl Part {
    /// Component `i` of a picture, with room for its rows. Returns NoMemory if there is no memory for them.
    pub(crate) fn new(
        alloc: Global,
        head: &StripHead,
        i: u8,
        smooth: bool,
    ) -> Result<Part, NoMemory>
        requires head { IsStripHead head.now }
        requires there { i < length head.now.frame.components }
        requires sizes { IsSized head.now smooth i }
        ensures { IfOk result (λ p. IsNewPart (head_picture head.now) smooth i p) }
    {
        let frame = &head.frame;
        frame.checked();
        let of = frame.component(i);
        let wide = samples(frame.width(), of.h, frame.h_max());
        let high = samples(frame.height(), of.v, frame.v_max());
        let across = frame.h_max() / of.h;
        let down = frame.v_max() / of.v;
        let block_rows = rows_of(frame.count(), of.v);
        let rows = SampleRows::new(alloc, wide, 8 * u32::from(block_rows) + 1)?;
        let line = bytes(alloc, across as usize * wide as usize)?;
        Ok(Part {
            component: i,
            wide,
            high,
            ratio: Ratio { across, down },
            smooth,
            block_rows,
            quants: head.quants[i as usize],
            rows,
            line,
        })
    }

    /// Adds the rows of the next MCU row after the last one that is kept. Its blocks are those of a complete picture,
    /// or of only this MCU row.
    pub(crate) fn fill(&mut self, coefs: &Coefs, whole: bool, pushed: u32)
        requires { CanFill coefs.now whole pushed self.old }
        ensures { self.new ≡ filled coefs.now whole pushed self.old }
    {
        let first = if whole {
            pushed * u32::from(self.block_rows)
        } else {
            0
        };
        let before = known(self.block_rows, self.high, pushed);
        let count = known(self.block_rows, self.high, pushed + 1) - before;
        self.rows.fill(ComponentRows {
            coefs,
            component: self.component,
            quants: &self.quants,
            first,
            count,
        });
    }

    /// Adds the rows of samples of an MCU row whose blocks are zero.
    pub(crate) fn fill_gray(&mut self, pushed: u32)
        requires { CanFillGray pushed self.old }
        ensures { self.new ≡ grayed_part pushed self.old }
    {
        let before = known(self.block_rows, self.high, pushed);
        let count = known(self.block_rows, self.high, pushed + 1) - before;
        self.rows.fill_gray(count);
    }

    /// Makes its part of row `y` of the image, from the rows that are kept after this many MCU rows.
    pub(crate) fn draw(&mut self, y: u32, pushed: u32)
        requires { CanDraw y pushed self.old }
        ensures { self.new ≡ drawn y pushed self.old }
    {
        let first = top(self.block_rows, pushed);
        let smoothed = self.is_smoothed();
        let near = self.rows.row(y / u32::from(self.ratio.down) - first);
        let far = if smoothed && self.ratio.down == 2 {
            self.rows.row(far(y, self.high) - first)
        } else {
            near
        };
        upsample(near, far, smoothed, self.ratio, &mut self.line);
    }

    /// Whether its rows of the image are made from two rows of samples.
    pub(crate) fn is_waiting(&self) -> bool
        ensures { result ≡ has_far_rows self.now.stretch }
    {
        self.is_smoothed() && self.ratio.down == 2
    }

    // Whether its rows of samples are smoothed where they are upsampled.
    fn is_smoothed(&self) -> bool
        ensures { result ≡ is_smoothed self.now.stretch }
    {
        self.smooth && (2 < self.wide && self.ratio.across == 2)
    }

    /// The row of the image that was made last.
    pub(crate) fn line(&self) -> &[u8]
        ensures value { result.now ≡ self.now.line }
        ensures long { length result.now ≡ self.now.stretch.across * self.now.stretch.wide }
    {
        &self.line
    }

    /// The rows of samples that are kept.
    pub(crate) fn rows(&self) -> &SampleRows
        ensures { result.now ≡ self.now.kept }
    {
        &self.rows
    }
}
