//! The entry point for all commands.
ghost use Rattle.std.specs.Prelude.{◌≤◌, length, map, string_bytes};
ghost use Rattle.jpg_spec_words.specs.Messages.{message};
ghost use Rattle.jpg_cli.specs.Tools.Ends.{AreNewEnds, formats_of};
ghost use Rattle.jpg_desk.specs.Stays.{OnlySays};
ghost use Rattle.jpg_words.specs.Commands.{command_asked};
ghost use Rattle.jpg_cli.specs.Run.{IsMissing, Ran, Works, SaysText};

use crate::message::message_of;
use crate::tools::cjpeg::encode;
use crate::tools::image_writer::{has_end, show_by};
use crate::tools::jpegtran::transform;
use crate::tools::jpgwork::do_work;
use crate::tools::rdjpgcom::print_comments;
use crate::tools::wrjpgcom::insert_comment;
use jpg_base::{Desk, Put};
use jpg_pnm_bmp::ImageEnd;
use jpg_spec_words::{Usage, UsageFault, Why};
use jpg_words::{Asked, WordsStop, format_asked, read_words, tool_name};
use std::alloc::Global;

/// How a command ended: its exit status, and why.
#[derive(Clone, Copy, Debug, PartialEq, Eq)]
pub struct Ended {
    pub code: u8,
    pub why: Why,
}

/// Says why a command ended; nothing for Done.
pub fn tell<D: Desk>(tool: &str, why: Why, desk: &mut D)
    requires { length tool.now ≤ 8 }
    ensures kept { OnlySays (D.state desk.old) (D.state desk.new) }
    ensures said { SaysText (D.state desk.old) (message tool.now why) (D.state desk.new) }
{
    let message = message_of(tool, why);
    if message.is_empty() {
        return;
    }
    match desk.say(message.as_slice()) {
        Put::Done => {}
        Put::Failed => {}
    }
}

// What is wrong with words of djpeg that ask for a format that none of the image writers has.
fn missing_end(words: &[String], ends: &[Box<dyn ImageEnd>]) -> Option<Usage>
    ensures { IsMissing (formats_of (map (λ e. progress e) ends.now)) (command_asked (map string_bytes words.now)) result }
{
    let Some(format) = format_asked(words) else {
        return None;
    };
    if has_end(ends, format.0) {
        return None;
    }
    Some(Usage {
        fault: UsageFault::NoEnd,
        word: format.1,
    })
}

// The work, without its message. No memory is asked for before it is known that an image writer has the format.
fn work<D: Desk>(alloc: Global, words: &[String], desk: &mut D, ends: Vec<Box<dyn ImageEnd>>) -> Why
    requires { AreNewEnds (map (λ e. progress e) ends.items) }
    ensures { Works (formats_of (map (λ e. progress e) ends.items)) (map string_bytes words.now) (D.state desk.old) result (D.state desk.new) }
{
    if let Some(usage) = missing_end(words, &ends) {
        return Why::Usage(usage);
    }
    match read_words(alloc, words) {
        Err(WordsStop::Usage(usage)) => Why::Usage(usage),
        Err(WordsStop::NoMemory) => Why::NoMemory,
        Ok(Asked::Jpegtran(words)) => transform(alloc, &words, desk),
        Ok(Asked::Djpeg(words)) => show_by(alloc, &words, desk, ends),
        Ok(Asked::Cjpeg(words)) => encode(alloc, words, desk),
        Ok(Asked::Rdjpgcom(files)) => print_comments(alloc, &files, desk),
        Ok(Asked::Wrjpgcom(words)) => insert_comment(alloc, &words, desk),
        Ok(Asked::Jpgwork(number)) => do_work(alloc, number, desk, ends),
    }
}

/// Runs the command that the words name over a desk, and says how it ended. `ends` has the image writers of `djpeg` and
/// `jpgwork`: of those with the format that is asked for the first one is used, and if there is none the words are
/// wrong. `Ran` (specs/Run.antt) is the theorem about all commands; the manual pages say what each of them does.
#[tactic(auto, using(crate::proofs::Outcomes::Ending::ran))]
pub fn run<D: Desk>(
    alloc: Global,
    words: &[String],
    desk: &mut D,
    ends: Vec<Box<dyn ImageEnd>>,
) -> Ended
    requires { AreNewEnds (map (λ e. progress e) ends.items) }
    ensures { Ran (formats_of (map (λ e. progress e) ends.items)) (map string_bytes words.now) (D.state desk.old) result (D.state desk.new) }
{
    let why = work(alloc, words, desk, ends);
    tell(tool_name(words), why, desk);
    Ended {
        code: why.code(),
        why,
    }
}
