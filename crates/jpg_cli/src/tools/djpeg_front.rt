//! The front of a picture's file read, and decoded to an image (`djpeg -preview`).
ghost use Rattle.std.specs.Prelude.{◌≡◌, ◌≤◌};
ghost use Rattle.jpg_pnm_bmp.specs.EndState.{new_end};
ghost use Rattle.jpg_cli.specs.Tools.FrontShown.{FrontShown};
ghost use Rattle.jpg_cli.specs.Tools.Showing.{showing_view};
ghost use Rattle.jpg_desk.specs.Stays.{OnlyWorks};

use crate::tools::djpeg::write_image;
use jpg_base::Desk;
use jpg_desk::{done_as, read_front};
use jpg_pnm_bmp::ImageEnd;
use jpg_spec_words::Why;
use jpg_words::ShowWords;
use std::alloc::Global;

/// Writes the image of the picture that the front of the input means for so many scans to the output, in the format of
/// `end`. The input is read in pieces of at most 16,384 bytes, up to the one with the end of the front; what follows
/// isn't read. The output is created when the front was read, so it may have the input's name. An input that ends
/// before is shown with what it has, and the result warns of it.
#[inline(never)]
pub fn show_front<D: Desk>(
    alloc: Global,
    scans: u16,
    words: &ShowWords,
    end: &mut Box<dyn ImageEnd>,
    desk: &mut D,
) -> Why
    requires some { 1 ≤ scans }
    requires end { progress end.old ≡ new_end words.now.kind }
    ensures kept { OnlyWorks (D.state desk.old) (D.state desk.new) }
    ensures shown { FrontShown scans (showing_view words.now) (D.state desk.old) result (D.state desk.new) }
{
    match read_front(alloc, &words.files.input, scans, words.gray, desk) {
        Err(why) => why,
        Ok((picture, early)) => match write_image(alloc, &picture, words, end, desk) {
            Ok(()) => done_as(early),
            Err(why) => why,
        },
    }
}
