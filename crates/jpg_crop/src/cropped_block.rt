//! The blocks of a cropped picture, each found when it is asked for (the manual of libjpeg-turbo's jpegtran, `-crop`).
ghost use Rattle.std.specs.Prelude.{◌≡◌, ◌*◌, ◌/◌, ◌<◌, ◌≤◌, ℕ, length, slice_index};
ghost use Rattle.jpg_spec.specs.Geometry.{component_at, h_max, v_max};
ghost use Rattle.jpg_spec_move.specs.declared.area.Area.{Area};
ghost use Rattle.jpg_crop.specs.CroppedBlocks.{ShowsCropped, WritesCropped, blocks_from};
ghost use Rattle.jpg_crop.specs.CropPlanned.{IsCutFrom};

use crate::{CropJob, Cropped};
use jpg_base::{Block, Frame};
use jpg_coefs::BlockView;

// The columns of each component in the iMCUs left of a column of samples on their grid.
fn all_columns(frame: &Frame, x0: u32) -> [u32; 4]
    requires { x0 ≤ 65500 }
    ensures { (i : ℕ) → i < length frame.now.components → slice_index result i ≡ (x0 / (8 * h_max frame.now)) * (component_at frame.now i).h }
{
    let mcus = x0 / (8 * u32::from(frame.h_max()));
    let mut columns = [0; 4];
    for i in 0..frame.count() {
        columns[i as usize] = mcus * u32::from(frame.component(i).h);
    }
    columns
}

// The rows of each component in the iMCUs above a row of samples on their grid.
fn all_rows(frame: &Frame, y0: u32) -> [u32; 4]
    requires { y0 ≤ 65500 }
    ensures { (i : ℕ) → i < length frame.now.components → slice_index result i ≡ (y0 / (8 * v_max frame.now)) * (component_at frame.now i).v }
{
    let mcus = y0 / (8 * u32::from(frame.v_max()));
    let mut rows = [0; 4];
    for i in 0..frame.count() {
        rows[i as usize] = mcus * u32::from(frame.component(i).v);
    }
    rows
}

impl<'a, V: BlockView> Cropped<'a, V> {
    /// The view cropped to an area, as the job says that `crop_plan` gave for the view's frame. If the view shows a
    /// picture transformed by a choice, this one shows it cropped too; `write_file` may write it by the job's plan, and
    /// the file is that of the transformed picture for the choice with the area. It takes no memory.
    pub fn new(view: &'a V, job: &'a CropJob) -> Cropped<'a, V>
        requires { (area : Area) × IsCutFrom area (V.numbers view.now) job.now }
        ensures frame { result.frame.now ≡ job.now.plan.out.frame }
        ensures shows { ShowsCropped job.now (V.numbers view.now) (V.blocks view.now) (blocks_from result.columns result.rows (V.blocks result.view.now)) }
        ensures writes { WritesCropped job.now (V.numbers view.now) (V.blocks view.now) result.frame.now (blocks_from result.columns result.rows (V.blocks result.view.now)) }
    {
        view.frame().checked();
        let frame = &job.plan.out.frame;
        frame.checked();
        Cropped {
            view,
            frame,
            columns: all_columns(frame, job.x0),
            rows: all_rows(frame, job.y0),
        }
    }
}

impl<'a, V: BlockView> BlockView for Cropped<'a, V> {
    ghost numbers = { λ c. c.frame.now };

    ghost blocks = { λ c. blocks_from c.columns c.rows (V.blocks c.view.now) };

    fn frame(&self) -> &Frame {
        self.frame
    }

    fn block(&self, component: u8, x: u32, y: u32) -> Block {
        let column = x + self.columns[component as usize];
        let row = y + self.rows[component as usize];
        self.view.block(component, column, row)
    }
}
