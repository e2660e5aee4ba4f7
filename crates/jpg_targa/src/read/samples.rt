//! The samples of a Targa file whose rows come from the top, given as they are read.
ghost use Rattle.std.specs.Prelude.{◌≡◌, ◌<◌, ◌≤◌, ◌+◌, ◌*◌, ◌/◌, ◌++◌, length, drop, OnOk, OnErr, IfSome, IfNone};
ghost use Rattle.jpg_spec_image.specs.ImageText.{file_samples};
ghost use Rattle.jpg_spec_image.specs.TargaFile.{pixel_size, targa_info};
ghost use Rattle.jpg_spec_image.specs.TargaSteps.{total};
ghost use Rattle.jpg_targa.specs.Samples.{targa_samples_kind, HasBegun, IsMore, GivesFirst, GivesMore, GivesLast};

use crate::read::head::{info, is_from_top, kind};
use crate::read::work::{Stage, Work};
use jpg_base::{Bytes, NoMemory};
use jpg_pnm_bmp::{Answer, Moved, SampleWork, file_row};
use jpg_spec_image::{ImageInfo, ImageKind};

// The numbers of the image, if its pixels have begun, and its rows come from the top.
pub(crate) fn begun_info(work: &Work) -> Option<ImageInfo>
    ensures some { IfSome result (λ info. HasBegun work.now × (info ≡ targa_info work.now.head)) }
    ensures none { IfNone result (HasBegun work.now → ⊥) }
{
    if !is_from_top(&work.head) {
        return None;
    }
    match work.stage {
        Stage::Head(_) => None,
        Stage::Identifier(_) => None,
        Stage::Packet => Some(info(&work.head)),
        Stage::Copies(_) => Some(info(&work.head)),
        Stage::Pixels(_) => Some(info(&work.head)),
    }
}

// Samples are given once there are this many bytes of pixels, or all of them.
const ENOUGH: usize = 3072;

// How many of the bytes are of whole pixels.
fn whole_long(kind: ImageKind, held: usize) -> usize
    ensures within { result ≤ held }
    ensures rest { held < result + 3 }
    ensures whole { result ≡ held / pixel_size kind * pixel_size kind }
{
    match kind {
        ImageKind::Gray => held,
        ImageKind::Rgb => held / 3 * 3,
    }
}

// Appends the samples of whole pixels. Those of colours are made in `line`, whatever is in it before.
fn add_samples(
    pixels: &[u8],
    kind: ImageKind,
    line: &mut Vec<u8>,
    made: &mut Bytes,
) -> Result<(), NoMemory>
    ensures whole { OnOk result (made.new ≡ made.old ++ file_samples kind pixels.now) }
    ensures same { OnErr result (made.new ≡ made.old) }
{
    match kind {
        ImageKind::Gray => return made.push_all(pixels),
        ImageKind::Rgb => {}
    }
    match file_row(line, kind, pixels) {
        Ok(()) => made.push_all(line.as_slice()),
        Err(fault) => Err(fault),
    }
}

// Removes the first bytes; at most two are left.
fn remove_first(pixels: &mut Bytes, count: usize) -> Result<(), NoMemory>
    requires inside { count ≤ length pixels.old }
    requires few { length pixels.old < count + 3 }
    ensures { OnOk result (pixels.new ≡ drop count pixels.old) }
{
    match &pixels.as_slice()[count..] {
        [] => {
            pixels.clear();
            Ok(())
        }
        [one] => {
            let rest = [*one];
            pixels.clear();
            pixels.push_all(&rest)
        }
        [one, two] => {
            let rest = [*one, *two];
            pixels.clear();
            pixels.push_all(&rest)
        }
        _ => unreachable!(),
    }
}

// Gives the samples of the first bytes of pixels, all but two at most, and removes those.
fn give_first(work: &mut Work, count: usize, made: &mut Bytes) -> Result<(), NoMemory>
    requires inside { count ≤ length work.old.pixels }
    requires few { length work.old.pixels < count + 3 }
    ensures given { OnOk result (GivesFirst count work.old made.old work.new made.new) }
    ensures more { OnErr result (IsMore made.old made.new) }
{
    let pixels = &work.pixels.as_slice()[..count];
    match add_samples(pixels, kind(&work.head), &mut work.line, made) {
        Ok(()) => {}
        Err(fault) => return Err(fault),
    }
    match remove_first(&mut work.pixels, count) {
        Ok(()) => {
            work.before = work.before.saturating_add(count as u64);
            Ok(())
        }
        Err(fault) => Err(fault),
    }
}

// Gives the samples of whole pixels, once there are enough.
fn give_more(work: &mut Work, made: &mut Bytes) -> Answer
    ensures given { GivesMore work.old made.old result work.new made.new }
    ensures few { result ≡ Answer.More → length work.new.pixels < 3072 }
{
    let held = work.pixels.as_slice().len();
    if held < ENOUGH {
        return Answer::More;
    }
    let count = whole_long(kind(&work.head), held);
    match give_first(work, count, made) {
        Ok(()) => Answer::More,
        Err(_) => Answer::NoMemory,
    }
}

// Gives the samples of the last pixels, which are all there.
fn give_last(work: &mut Work, made: &mut Bytes) -> Answer
    requires { total work.old.head ≤ work.old.before + length work.old.pixels }
    ensures { GivesLast work.old made.old result work.new made.new }
{
    let due = work.due() as usize;
    let pixels = &work.pixels.as_slice()[..due];
    match add_samples(pixels, kind(&work.head), &mut work.line, made) {
        Ok(()) => Answer::Whole,
        Err(_) => Answer::NoMemory,
    }
}

impl SampleWork for Work {
    ghost kind = { targa_samples_kind };

    fn give(&mut self, piece: &[u8], made: &mut Bytes) -> Moved {
        let Moved { used, answer } = self.advance(piece);
        match answer {
            Answer::More => Moved {
                used,
                answer: give_more(self, made),
            },
            Answer::Whole => Moved {
                used,
                answer: give_last(self, made),
            },
            Answer::Fault(fault) => Moved {
                used,
                answer: Answer::Fault(fault),
            },
            Answer::NoMemory => Moved {
                used,
                answer: Answer::NoMemory,
            },
        }
    }
}
