//! A picture decoded by the image writers that a call is given.
ghost use Rattle.std.specs.Prelude.{◌≡◌, map};
ghost use Rattle.jpg_cli.specs.Tools.Ends.{AreNewEnds, formats_of, has_format, is_same_format};
ghost use Rattle.jpg_pnm_bmp.specs.EndState.{new_end};
ghost use Rattle.jpg_cli.specs.Tools.FrontShown.{ShownAs, ShownBy};
ghost use Rattle.jpg_cli.specs.Tools.Showing.{showing_view};
ghost use Rattle.jpg_desk.specs.Stays.{OnlyWorks};

use crate::tools::djpeg::show_picture;
use crate::tools::djpeg_front::show_front;
use jpg_base::Desk;
use jpg_pnm_bmp::ImageEnd;
use jpg_spec_image::EndKind;
use jpg_spec_words::{Usage, UsageFault, Why};
use jpg_words::ShowWords;
use std::alloc::Global;

fn is_same_format(a: EndKind, b: EndKind) -> bool
    ensures { result ≡ is_same_format a b }
{
    match a {
        EndKind::Pnm => matches!(b, EndKind::Pnm),
        EndKind::Bmp => matches!(b, EndKind::Bmp),
        EndKind::Targa => matches!(b, EndKind::Targa),
    }
}

fn is_of(end: &Box<dyn ImageEnd>, kind: EndKind) -> bool
    ensures { result ≡ is_same_format kind (progress end.now).kind }
{
    is_same_format(kind, end.kind())
}

/// Whether one of the image writers has this format.
pub fn has_end(ends: &[Box<dyn ImageEnd>], kind: EndKind) -> bool
    ensures { result ≡ has_format kind (formats_of (map (λ e. progress e) ends.now)) }
{
    for end in ends {
        if is_of(end, kind) {
            return true;
        }
    }
    false
}

// Decodes the picture, or the front of its file, as the words ask for it.
fn show_as<D: Desk>(
    alloc: Global,
    words: &ShowWords,
    end: &mut Box<dyn ImageEnd>,
    desk: &mut D,
) -> Why
    requires { progress end.old ≡ new_end words.now.kind }
    ensures kept { OnlyWorks (D.state desk.old) (D.state desk.new) }
    ensures shown { ShownAs words.now.preview (showing_view words.now) (D.state desk.old) result (D.state desk.new) }
{
    match words.preview {
        None => show_picture(alloc, words, end, desk),
        Some(scans) => show_front(alloc, scans, words, end, desk),
    }
}

/// Decodes the picture, or the front of its file, with the first image writer of the format that is asked for. If there is none, the words are
/// wrong, and no file is opened or created.
#[inline(never)]
pub fn show_by<D: Desk>(
    alloc: Global,
    words: &ShowWords,
    desk: &mut D,
    ends: Vec<Box<dyn ImageEnd>>,
) -> Why
    requires { AreNewEnds (map (λ e. progress e) ends.items) }
    ensures kept { OnlyWorks (D.state desk.old) (D.state desk.new) }
    ensures shown { ShownBy (has_format words.now.kind (formats_of (map (λ e. progress e) ends.items))) words.now (D.state desk.old) result (D.state desk.new) }
{
    for end in ends {
        if is_of(&end, words.kind) {
            let mut end = end;
            return show_as(alloc, words, &mut end, desk);
        }
    }
    Why::Usage(Usage {
        fault: UsageFault::NoEnd,
        word: words.kind_word,
    })
}
