//! A picture that was read, transformed and written (the manual of jpegtran).
ghost use Rattle.std.specs.Prelude.{◌≡◌, IfSome};
ghost use Rattle.jpg_base.specs.Desk.{Creates};
ghost use Rattle.jpg_file.specs.Write.WriteFile.{CanWriteFile, file_bytes};
ghost use Rattle.jpg_transform.specs.Planned.{choice_view};
ghost use Rattle.jpg_spec_move.specs.Cropped.{IsArea};
ghost use Rattle.jpg_desk.specs.Stays.{OnlyWorks};
ghost use Rattle.jpg_desk.specs.Writing.{AfterOutput, WritesMoved, WritesOwn, in_area};

use jpg_base::{Desk, Name, Put};
use jpg_coefs::BlockView;
use jpg_crop::{Cropped, crop_plan};
use jpg_file::{Picture, Plan, write_file};
use jpg_markers::KeptList;
use jpg_spec_move::Area;
use jpg_spec_write::PictureFault;
use jpg_transform::{Choice, Moved, plan};

/// The result of writing a transformed picture.
#[derive(Clone, Copy, Debug, PartialEq, Eq)]
pub enum Wrote {
    /// The output has the complete file.
    Done,
    /// The picture has this fault, and no output was created.
    Picture(PictureFault),
    /// The output wasn't created.
    OpenFault,
    /// The output has a first part of the file.
    WriteFault,
}

/// Writes a picture to an output of this name, transformed as the choice says and cropped to the area, if there is one:
/// the text of its file, in the scans of the choice. If some bytes mean the picture, as those that it was read from, the
/// text means the transformed picture, also if markers that the choice doesn't pass on weren't kept. The output is
/// created when it is known that the picture has no fault and the area is inside. It asks for no memory.
#[inline(never)]
pub fn write_moved<D: Desk>(
    picture: &Picture,
    choice: &Choice,
    output: &Name,
    area: &Option<Area>,
    desk: &mut D,
) -> Wrote
    requires { IfSome area.now IsArea }
    ensures kept { OnlyWorks (D.state desk.old) (D.state desk.new) }
    ensures left { (D.state desk.new).left ≡ (D.state desk.old).left }
    ensures wrote { WritesMoved (in_area area.now (choice_view choice.now)) picture.now output.now (D.state desk.old) result (D.state desk.new) }
    ensures own { WritesOwn (in_area area.now (choice_view choice.now)) picture.now output.now (D.state desk.old) result (D.state desk.new) }
{
    match plan(picture, choice) {
        Err(fault) => Wrote::Picture(fault),
        Ok(job) => {
            let moved = Moved::new(picture, &job);
            match area {
                None => write_view(&job.plan, &picture.kept, &moved, output, desk),
                Some(area) => match crop_plan(picture, &job, area) {
                    Err(fault) => Wrote::Picture(fault),
                    Ok(crop) => {
                        let cropped = Cropped::new(&moved, &crop);
                        write_view(&crop.plan, &picture.kept, &cropped, output, desk)
                    }
                },
            }
        }
    }
}

/// Creates the output. It remains a call, so that its stack is free again when the file is written.
#[inline(never)]
pub(crate) fn create_output<D: Desk>(output: &Name, desk: &mut D) -> Put
    ensures { Creates (D.state desk.old) output.now result (D.state desk.new) }
{
    desk.create(output)
}

/// Creates the output, and writes to it the file of the plan with these blocks and kept markers.
pub fn write_view<V: BlockView, D: Desk>(
    plan: &Plan,
    kept: &KeptList,
    view: &V,
    output: &Name,
    desk: &mut D,
) -> Wrote
    requires { CanWriteFile plan.now kept.now (V.numbers view.now) (V.blocks view.now) }
    ensures kept { OnlyWorks (D.state desk.old) (D.state desk.new) }
    ensures left { (D.state desk.new).left ≡ (D.state desk.old).left }
    ensures output { AfterOutput output.now (D.state desk.old) (file_bytes plan.now kept.now (V.blocks view.now)) result (D.state desk.new) }
{
    match create_output(output, desk) {
        Put::Failed => Wrote::OpenFault,
        Put::Done => match write_file(plan, kept, view, desk) {
            Ok(()) => Wrote::Done,
            Err(_) => Wrote::WriteFault,
        },
    }
}
