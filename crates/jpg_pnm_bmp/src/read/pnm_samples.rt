//! The samples of P2, P3, P5 and P6 files, given as they are read.
ghost use Rattle.std.specs.Prelude.{◌≡◌, ◌≤◌, ◌++◌, [], List, length, map, OnOk, OnErr};
ghost use Rattle.jpg_spec_image.specs.PnmText.{greatest_sample, scaled_sample};
ghost use Rattle.jpg_pnm_bmp.specs.Known.{list_of};
ghost use Rattle.jpg_pnm_bmp.specs.Made.{AreBytes, IsMore};
ghost use Rattle.jpg_pnm_bmp.specs.Reader.{AreAllNumbers};
ghost use Rattle.jpg_pnm_bmp.specs.Samples.{IsGiving};
ghost use Rattle.jpg_pnm_bmp.specs.PnmSamples.{pnm_samples_kind, EndsGiven, GivesEnough, GivesHeld, GivesKnown};

use crate::read::make::add_scaled;
use crate::read::numbers::Numbers;
use crate::read::piece::{Answer, Moved};
use crate::read::samples::SampleWork;
use crate::read::work::Work;
use jpg_base::{Bytes, FaultAt, NoMemory, Stop};

// Samples are given once as many are held, or all of them.
pub(crate) const ENOUGH: u64 = 3072;

// Appends samples of a file as those of its image.
fn add_samples(samples: &[u8], most: u8, made: &mut Bytes) -> Result<(), NoMemory>
    requires { 1 ≤ most }
    ensures given { OnOk result (AreBytes (map (scaled_sample most) samples.now) → made.new ≡ made.old ++ map (scaled_sample most) samples.now) }
    ensures more { OnErr result (IsMore made.old made.new) }
{
    if most == 255 {
        return match made.push_all(samples) {
            Ok(()) => Ok(()),
            Err(fault) => Err(fault),
        };
    }
    match add_scaled(samples, most, made) {
        Ok(()) => Ok(()),
        Err(fault) => Err(fault),
    }
}

// The greatest sample, which is known.
fn most_of(numbers: Numbers) -> u8
    requires { AreAllNumbers numbers }
    ensures most { result ≡ greatest_sample (list_of numbers []) }
    ensures some { 1 ≤ result }
{
    match numbers {
        Numbers::All(_, _, most) => most,
        Numbers::Nothing => unreachable!(),
        Numbers::Width(_) => unreachable!(),
        Numbers::Sides(_, _) => unreachable!(),
    }
}

// Gives the samples that are held, which leave the state then.
pub(crate) fn give_held(work: &mut Work, made: &mut Bytes) -> Result<(), NoMemory>
    requires { AreAllNumbers work.old.numbers }
    ensures given { OnOk result (GivesHeld work.old made.old work.new made.new) }
    ensures more { OnErr result (IsMore made.old made.new) }
{
    let samples = work.samples.as_slice();
    match add_samples(samples, most_of(work.numbers), made) {
        Ok(()) => {}
        Err(fault) => return Err(fault),
    }
    work.before = work.before.saturating_add(work.held());
    work.samples.clear();
    Ok(())
}

// Gives those that are held, once there are enough.
fn give_enough(work: &mut Work, made: &mut Bytes) -> Result<(), NoMemory>
    requires { AreAllNumbers work.old.numbers }
    ensures given { OnOk result (GivesEnough work.old made.old work.new made.new) }
    ensures more { OnErr result (IsMore made.old made.new) }
{
    if work.held() < ENOUGH {
        return Ok(());
    }
    match give_held(work, made) {
        Ok(()) => Ok(()),
        Err(fault) => Err(fault),
    }
}

// The result of some bytes, once the samples that they made known are given, or kept where they are few.
fn give_known(work: &mut Work, answer: Answer, made: &mut Bytes) -> Answer
    requires { AreAllNumbers work.old.numbers }
    ensures { GivesKnown work.old answer made.old result work.new made.new }
{
    match answer {
        Answer::More => match give_enough(work, made) {
            Ok(()) => Answer::More,
            Err(_) => Answer::NoMemory,
        },
        Answer::Whole => match give_held(work, made) {
            Ok(()) => Answer::Whole,
            Err(_) => Answer::NoMemory,
        },
        Answer::Fault(fault) => Answer::Fault(fault),
        Answer::NoMemory => Answer::NoMemory,
    }
}

// The bytes end here. Returns Ok if all samples were given now, or the fault of the bytes; or NoMemory.
pub(crate) fn end_given(work: &mut Work, taken: u64, made: &mut Bytes) -> Result<(), Stop>
    requires { IsGiving pnm_samples_kind work.old }
    ensures { EndsGiven work.old taken made.old result made.new }
{
    match work.end() {
        Answer::Whole => match give_held(work, made) {
            Ok(()) => Ok(()),
            Err(_) => Err(Stop::NoMemory),
        },
        Answer::Fault(fault) => Err(Stop::Fault(FaultAt { fault, at: taken })),
        Answer::NoMemory => Err(Stop::NoMemory),
        Answer::More => unreachable!(),
    }
}

impl SampleWork for Work {
    ghost kind = { pnm_samples_kind };

    fn give(&mut self, piece: &[u8], made: &mut Bytes) -> Moved {
        let step = self.advance(piece);
        let answer = give_known(self, step.answer, made);
        Moved {
            used: step.used,
            answer,
        }
    }
}
