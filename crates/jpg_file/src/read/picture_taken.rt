//! The picture of a file that is complete or ended early, made of the state of its reader (T.81, B.2.1).
ghost use Rattle.std.specs.Prelude.{◌≡◌, ◌<◌, ℕ, [], false, is_none, length, None, slice_index_or, unwrap_or};
ghost use Rattle.jpg_spec.specs.QuantContents.{quant_in};
ghost use Rattle.jpg_spec.specs.declared.frame.Limits.{Limits};
ghost use Rattle.jpg_file.specs.Read.File.{limits_of};
ghost use Rattle.jpg_file.specs.Read.Left.{LeavesPicture};
ghost use Rattle.jpg_file.specs.Read.PictureRead.{RevealsFile};
ghost use Rattle.jpg_file.specs.Read.Window.{rows_in};

use crate::read::file::FileState;
use crate::read::first_header::colours;
use crate::read::picture::Picture;
use crate::read::scan_history::ScanHistory;
use crate::read::window::Window;
use arrayvec::ArrayVec;
use jpg_base::{Frame, QuantTable};
use jpg_markers::KeptList;
use std::mem;

/// The picture of a file that is complete or ended early. It is moved out of the state, which is of no use then.
pub fn picture_of(file: &mut FileState) -> Picture
    requires { (limits : Limits) × LeavesPicture limits file.old }
    ensures reveals { RevealsFile file.old result }
    ensures limits { limits_of file.new ≡ limits_of file.old }
    ensures none { rows_in file.new.window ≡ None }
{
    let held = &mut file.items.held;
    let Some(frame) = held.frame.take() else {
        unreachable!();
    };
    frame.checked();
    let Window::All(coefs) = mem::replace(&mut file.window, Window::None) else {
        unreachable!();
    };
    let kept = mem::replace(&mut held.kept, KeptList::new(file.alloc));
    let jfif = held.jfif;
    let colour = colours(&frame, &jfif, &kept);
    let quants = tables_of(&frame, &file.begun);
    Picture {
        frame,
        colour,
        quants,
        coefs,
        kept,
        jfif,
    }
}

/// The table of each component.
pub fn tables_of(frame: &Frame, begun: &ScanHistory) -> ArrayVec<QuantTable, 4>
    requires { (i : ℕ) → i < length frame.now.components → is_none (quant_in begun.now.quants i) ≡ false }
    ensures count { length result.items ≡ length frame.now.components }
    ensures tables { (i : ℕ) → i < length frame.now.components → slice_index_or result.items i [] ≡ unwrap_or (quant_in begun.now.quants i) [] }
{
    let mut tables = ArrayVec::new();
    for i in 0..frame.count() {
        let Some(table) = begun.quants[i as usize] else {
            unreachable!();
        };
        tables.push(table);
    }
    tables
}
