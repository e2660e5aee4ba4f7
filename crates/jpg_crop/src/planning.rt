//! How a transformed picture is written that is cropped to an area (the manual of libjpeg-turbo's jpegtran, `-crop`).
ghost use Rattle.std.specs.Prelude.{◌≡◌, ◌<◌, ◌≤◌, ◌*◌, ◌↔◌, true, false, Err};
ghost use Rattle.jpg_spec.specs.Geometry.{h_max, v_max};
ghost use Rattle.jpg_spec_move.specs.Cropped.{cropped_frame, cropped_side, is_area_of, on_grid};
ghost use Rattle.jpg_spec_move.specs.Moved.{Choice};
ghost use Rattle.jpg_spec_write.specs.declared.picture_fault.PictureFault.TheVariants.{CropOutside};
ghost use Rattle.jpg_transform.specs.Planned.{IsJobFor};
ghost use Rattle.jpg_spec_move.specs.Cropped.{IsArea};
ghost use Rattle.jpg_crop.specs.CropPlanned.{IsCropPlan};

use jpg_base::{Frame, QuantTable};
use jpg_file::{Picture, Plan};
use jpg_markers::OutHead;
use jpg_spec_move::Area;
use jpg_spec_write::PictureFault;
use jpg_transform::{Job, with_sides};

/// How a transformed picture is written that is cropped to an area: its plan, and the column and row of samples where
/// the corner of the area is on the grid of iMCUs.
#[derive(Drop)]
pub struct CropJob {
    pub plan: Plan,
    pub x0: u32,
    pub y0: u32,
}

/// How a picture is written that is transformed as the job says, which `plan` gave for it, and then cropped to an area;
/// or CropOutside, exactly if the area isn't inside the output's frame. It takes no memory.
pub fn crop_plan(picture: &Picture, job: &Job, area: &Area) -> Result<CropJob, PictureFault>
    requires job { (choice : Choice) × IsJobFor picture.now choice job.now }
    requires area { IsArea area.now }
    ensures plan { IsCropPlan picture.now job.now area.now result }
    ensures outside { (result ≡ Err CropOutside) ↔ (is_area_of area.now job.now.plan.out.frame.width job.now.plan.out.frame.height ≡ false) }
{
    let _ = picture;
    let out = &job.plan.out;
    out.frame.checked();
    if !is_inside(area, &out.frame) {
        return Err(PictureFault::CropOutside);
    }
    Ok(CropJob {
        plan: Plan {
            out: OutHead {
                frame: cropped_frame(area, &out.frame),
                colour: out.colour,
                quants: QuantTable::copied(out.quants.as_slice()),
                jfif: out.jfif,
                copying: out.copying,
            },
            script: job.plan.script.copy(),
            huffman: job.plan.huffman,
            restart: job.plan.restart,
        },
        x0: corner_across(area, &out.frame),
        y0: corner_down(area, &out.frame),
    })
}

// Whether all samples of an area are in a frame.
fn is_inside(area: &Area, frame: &Frame) -> bool
    requires { IsArea area.now }
    ensures { result ≡ is_area_of area.now frame.now.width frame.now.height }
{
    area.x + area.w <= frame.width() && area.y + area.h <= frame.height()
}

// A corner moved left or up to the grid of iMCUs of this size.
fn on_grid(mcu: u32, corner: u32) -> u32
    requires { 0 < mcu }
    ensures { result ≡ on_grid mcu corner }
{
    mcu * (corner / mcu)
}

// The side from there to the opposite corner.
fn cropped_side(mcu: u32, corner: u32, side: u32) -> u32
    requires mcu { 0 < mcu }
    requires corner { corner ≤ 99999 }
    requires side { side ≤ 99999 }
    ensures { result ≡ cropped_side mcu corner side }
{
    corner - on_grid(mcu, corner) + side
}

// The column of the corner on the grid.
fn corner_across(area: &Area, frame: &Frame) -> u32
    ensures { result ≡ on_grid (8 * h_max frame.now) area.now.x }
{
    on_grid(8 * u32::from(frame.h_max()), area.x)
}

// The row of the corner on the grid.
fn corner_down(area: &Area, frame: &Frame) -> u32
    ensures { result ≡ on_grid (8 * v_max frame.now) area.now.y }
{
    on_grid(8 * u32::from(frame.v_max()), area.y)
}

// The frame cropped to an area.
#[tactic(auto, using(jpg_spec_move::proofs::CroppedFrames::cropped_is, jpg_transform::proofs::MovedFrame::same_sides))]
fn cropped_frame(area: &Area, frame: &Frame) -> Frame
    requires area { IsArea area.now }
    requires inside { is_area_of area.now frame.now.width frame.now.height ≡ true }
    ensures { result ≡ cropped_frame area.now frame.now }
{
    frame.checked();
    let width = cropped_side(8 * u32::from(frame.h_max()), area.x, area.w);
    let height = cropped_side(8 * u32::from(frame.v_max()), area.y, area.h);
    with_sides(frame, width, height)
}
