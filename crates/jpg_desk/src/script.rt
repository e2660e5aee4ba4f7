//! The scans that a picture is written in, taken from their source (the manuals of jpegtran and wizard.txt in release
//! 6b).
ghost use Rattle.jpg_desk.specs.ScriptTaken.{AfterScans, AfterScript};
ghost use Rattle.jpg_desk.specs.Stays.{Keeps};
ghost use Rattle.jpg_words.specs.TransformWords.{script_view};

use crate::file::take_file;
use jpg_base::{Desk, Name, Text};
use jpg_spec_words::{Which, Why};
use jpg_transform::{Scans, Script};
use jpg_words::ScriptFrom;
use std::alloc::Global;

// One byte more than the text of a script may have.
const LIMIT: usize = 65_537;

/// The default scans, or those of a script's file, which is read to its end or up to 65,537 bytes: one more than its
/// text may have.
#[inline(never)]
pub fn take_scans<D: Desk>(alloc: Global, from: &ScriptFrom, desk: &mut D) -> Result<Scans, Why>
    ensures kept { Keeps (D.state desk.old) (D.state desk.new) }
    ensures after { AfterScans (script_view from.now) (D.state desk.old) result (D.state desk.new) }
{
    match from {
        ScriptFrom::Sequential => Ok(Scans::Sequential),
        ScriptFrom::Standard => Ok(Scans::Standard),
        ScriptFrom::File(text) => match Text::new(alloc, text.as_str()) {
            Ok(name) => take_script(alloc, &Name::File(name), desk),
            Err(_) => Err(Why::NoMemory),
        },
    }
}

// The scans of the file of this name.
fn take_script<D: Desk>(alloc: Global, name: &Name, desk: &mut D) -> Result<Scans, Why>
    ensures kept { Keeps (D.state desk.old) (D.state desk.new) }
    ensures after { AfterScript name.now (D.state desk.old) result (D.state desk.new) }
{
    match take_file(alloc, name, LIMIT, Which::Script, desk) {
        Err(why) => Err(why),
        Ok(text) => match Script::parse(text.as_slice()) {
            Ok(script) => Ok(Scans::Given(script)),
            Err(fault) => Err(Why::Refused(fault)),
        },
    }
}
