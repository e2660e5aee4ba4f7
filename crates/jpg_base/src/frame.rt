//! The header of a frame, and the grids that it bounds (T.81, A.1.1, A.2.3, A.2.4, B.2.2).
ghost use Rattle.std.specs.Prelude.{◌≡◌, ◌*◌, ◌<◌, ◌≤◌, true, length, IfOk};
ghost use Rattle.jpg_spec.specs.Geometry.{h_max, v_max, bounds, is_progressive, component_at, padded_blocks, mcu_row_frame};
ghost use Rattle.jpg_spec.specs.FrameHeader.{AreLimits, is_precision, HasFactors, IsFrame, checked_frame, mcu_grid, real_grid, padded_grid, padded_across, padded_down};
ghost use Rattle.jpg_base.specs.Frame.{numbers_of};

use crate::frame_checks::{
    greatest_factors, has_more_blocks, has_same_ids, has_wrong_count, has_wrong_factors,
    has_wrong_precision, has_wrong_slots, is_empty, is_larger, mcu_side, padded_side, real_side,
};
use arrayvec::ArrayVec;
use jpg_spec::{Bounds, Component, Fault, Grid, Limits, Process};
use std::marker::Model;

/// A frame header whose numbers passed all checks (T.81, B.2.2): width and height from 1 to 65500 samples, 8 bits per
/// sample, or 12 where the process isn't baseline, one to four components with factors 1 to 4, distinct identifiers and
/// quantisation slots 0 to 3, and at most 8388608 blocks in the padded grids.
#[derive(Drop)]
pub struct Frame {
    // By the code of the header's marker.
    process: Process,
    // P: bits of a sample.
    precision: u8,
    // X: samples of a line.
    width: u32,
    // Y: lines.
    height: u32,
    // In the order of the header.
    components: ArrayVec<Component, 4>,
    // The greatest horizontal factor of the components.
    h_max: u8,
    // The greatest vertical factor.
    v_max: u8,
}

impl Model for Frame {
    ghost use Rattle.jpg_spec.specs.Geometry.{Frame as Numbers};
    ghost use Rattle.jpg_base.specs.Frame.{IsCheckedFrame, numbers_of};

    ghost Value = { Numbers };

    ghost view = { λ f. numbers_of f.process f.precision f.width f.height f.components.items };

    ghost invariant = { λ f. IsCheckedFrame (numbers_of f.process f.precision f.width f.height f.components.items) f.h_max f.v_max };
}

impl Frame {
    /// The frame of these numbers, or the first of these faults: EmptyImage (a side is 0), TooLarge (a side above
    /// `limits.side`), Precision (not 8, and not 12 with a process other than baseline), ComponentCount (not one to
    /// four), Sampling (a factor not 1 to 4), DuplicateComponent (two equal identifiers), QuantSlot (above 3),
    /// TooManyBlocks (more than `limits.blocks` in the padded grids) (T.81, B.2.2). It takes no memory.
    #[tactic(auto, unfolding(jpg_spec::specs::FrameHeader::checked_frame))]
    pub fn new(
        process: Process,
        precision: u8,
        height: u32,
        width: u32,
        components: &[Component],
        limits: &Limits,
    ) -> Result<Frame, Fault>
        requires { AreLimits limits.now }
        ensures value { result ≡ checked_frame limits.now (numbers_of process precision width height components.now) }
        ensures numbers { IfOk result (λ frame. frame ≡ numbers_of process precision width height components.now) }
    {
        if is_empty(width, height) {
            return Err(Fault::EmptyImage);
        }
        if is_larger(width, height, limits.side) {
            return Err(Fault::TooLarge);
        }
        if has_wrong_precision(process, precision) {
            return Err(Fault::Precision);
        }
        if has_wrong_count(components) {
            return Err(Fault::ComponentCount);
        }
        if has_wrong_factors(components) {
            return Err(Fault::Sampling);
        }
        if has_same_ids(components) {
            return Err(Fault::DuplicateComponent);
        }
        if has_wrong_slots(components) {
            return Err(Fault::QuantSlot);
        }
        if has_more_blocks(width, height, components, limits.blocks) {
            return Err(Fault::TooManyBlocks);
        }
        let (h_max, v_max) = greatest_factors(components);
        Ok(Frame {
            process,
            precision,
            width,
            height,
            components: kept(components),
            h_max,
            v_max,
        })
    }

    /// A copy of the frame.
    pub fn copy(&self) -> Frame
        ensures { result ≡ self.now }
    {
        Frame {
            process: self.process,
            precision: self.precision,
            width: self.width,
            height: self.height,
            components: kept(self.components.as_slice()),
            h_max: self.h_max,
            v_max: self.v_max,
        }
    }

    /// The frame with this process, which allows its precision.
    pub fn with_process(&self, process: Process) -> Frame
        requires { is_precision process self.now.precision ≡ true }
        ensures { result ≡ record (self.now) { process = process } }
    {
        Frame {
            process,
            precision: self.precision,
            width: self.width,
            height: self.height,
            components: kept(self.components.as_slice()),
            h_max: self.h_max,
            v_max: self.v_max,
        }
    }

    /// One row of the MCUs of a scan of all components, as a frame: it has 8 lines if there is one component, otherwise
    /// 8 times the greatest vertical factor (T.81, A.2.3).
    pub fn row(&self) -> Frame
        ensures { result ≡ mcu_row_frame self.now }
    {
        self.checked();
        Frame {
            process: self.process,
            precision: self.precision,
            width: self.width,
            height: self.mcu_lines(),
            components: kept(self.components.as_slice()),
            h_max: self.h_max,
            v_max: self.v_max,
        }
    }

    // The lines of an MCU of a scan of all components.
    fn mcu_lines(&self) -> u32
        ensures { result ≡ (mcu_row_frame self.now).height }
    {
        if self.components.len() == 1 {
            8
        } else {
            8 * u32::from(self.v_max)
        }
    }

    /// States, for proofs, the facts of `IsFrame`, which hold of each frame's numbers since they passed the checks. It
    /// does nothing.
    pub fn checked(&self)
        ensures { IsFrame self.now }
    {
        let _ = &self.precision;
    }

    /// The coding process (T.81, Table B.1).
    pub fn process(&self) -> Process
        ensures { result ≡ self.now.process }
    {
        self.process
    }

    /// Whether the process is progressive, SOF2 (T.81, Table B.1).
    pub fn is_progressive(&self) -> bool
        ensures { result ≡ is_progressive self.now.process }
    {
        match self.process {
            Process::Baseline => false,
            Process::Extended => false,
            Process::Progressive => true,
        }
    }

    /// Bits per sample.
    pub fn precision(&self) -> u8
        ensures { result ≡ self.now.precision }
    {
        self.precision
    }

    /// Samples in a row of the image.
    pub fn width(&self) -> u32
        ensures { result ≡ self.now.width }
    {
        self.width
    }

    /// Rows of samples in the image.
    pub fn height(&self) -> u32
        ensures { result ≡ self.now.height }
    {
        self.height
    }

    /// How many components there are, from 1 to 4.
    pub fn count(&self) -> u8
        ensures value { result ≡ length self.now.components }
        ensures low { 1 ≤ result }
        ensures high { result ≤ 4 }
    {
        self.components.len() as u8
    }

    /// The greatest horizontal factor.
    pub fn h_max(&self) -> u8
        ensures value { result ≡ h_max self.now }
        ensures low { 1 ≤ result }
        ensures high { result ≤ 4 }
    {
        self.h_max
    }

    /// The greatest vertical factor.
    pub fn v_max(&self) -> u8
        ensures value { result ≡ v_max self.now }
        ensures low { 1 ≤ result }
        ensures high { result ≤ 4 }
    {
        self.v_max
    }

    /// The grid of MCUs of an interleaved scan (T.81, A.2.3).
    pub fn mcus(&self) -> Grid
        ensures value { result ≡ mcu_grid self.now }
        ensures some { (1 ≤ result.wide) × (1 ≤ result.high) }
        ensures few { (result.wide ≤ 65532) × (result.high ≤ 65532) }
    {
        Grid {
            wide: mcu_side(self.width, self.h_max),
            high: mcu_side(self.height, self.v_max),
        }
    }

    /// The component at index `i` of the header, from 0.
    pub fn component(&self, i: u8) -> Component
        requires { i < length self.now.components }
        ensures value { result ≡ component_at self.now i }
        ensures factors { HasFactors result }
        ensures slot { result.quant ≤ 3 }
    {
        self.components[i as usize]
    }

    /// The real blocks of component `i`: those that its samples fill (T.81, A.1.1, A.2.2).
    pub fn blocks(&self, i: u8) -> Grid
        requires { i < length self.now.components }
        ensures value { result ≡ real_grid self.now (component_at self.now i) }
        ensures some { (1 ≤ result.wide) × (1 ≤ result.high) }
        ensures wide { result.wide ≤ padded_across self.now (component_at self.now i) }
        ensures high { result.high ≤ padded_down self.now (component_at self.now i) }
    {
        let component = self.component(i);
        Grid {
            wide: real_side(self.width, component.h, self.h_max),
            high: real_side(self.height, component.v, self.v_max),
        }
    }

    /// The padded grid of component `i`: its factors times the MCUs (T.81, A.2.4).
    pub fn padded(&self, i: u8) -> Grid
        requires { i < length self.now.components }
        ensures value { result ≡ padded_grid self.now (component_at self.now i) }
        ensures few { result.wide * result.high ≤ padded_blocks self.now }
    {
        let component = self.component(i);
        let mcus = self.mcus();
        Grid {
            wide: padded_side(mcus.wide, component.h),
            high: padded_side(mcus.high, component.v),
        }
    }

    /// The ranges of coefficients that the precision allows (T.81, F.1.2, F.1.5, G.1.1.1.1): with 8 bits DC from -1024
    /// to 1023 and AC from -1023 to 1023, with 12 bits DC from -16384 to 16383 and AC from -16383 to 16383.
    pub fn bounds(&self) -> Bounds
        ensures { result ≡ bounds self.now }
    {
        match self.precision {
            12 => Bounds {
                dc_low: -16384,
                dc_high: 16383,
                ac: 16383,
                dc_cat: 15,
                ac_cat: 14,
                al: 13,
            },
            _ => Bounds {
                dc_low: -1024,
                dc_high: 1023,
                ac: 1023,
                dc_cat: 11,
                ac_cat: 10,
                al: 10,
            },
        }
    }
}

// The components as a list of the frame's own.
fn kept(components: &[Component]) -> ArrayVec<Component, 4>
    requires { length components.now ≤ 4 }
    ensures { result.items ≡ components.now }
{
    let mut list = ArrayVec::new();
    let _ = list.try_extend_from_slice(components);
    list
}
