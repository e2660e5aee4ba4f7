//! The words of a call: which command they name, and what they ask for.
ghost use Rattle.std.specs.Prelude.{◌≡◌, ◌≤◌, IfOk, IfSome, IfNone, codes, drop, length, map, true, false, string_bytes};
ghost use Rattle.std.specs.Str.{bytes_eq};
ghost use Rattle.jpg_spec_words.specs.Words.{is_tool, tool_of};
ghost use Rattle.jpg_words.specs.declared.files.WordsStop.TheVariants.{Usage as wrong};
ghost use Rattle.jpg_words.specs.Commands.{IsCommand, IsFormatAsked, IsSized, command_asked, known_command};

use crate::cjpeg::cjpeg_words;
use crate::cjpeg_request::EncodeWords;
use crate::comments::{WriteWords, rdjpgcom_words, wrjpgcom_words};
use crate::djpeg::{djpeg_format, djpeg_words};
use crate::djpeg_request::ShowWords;
use crate::files::{Files, WordsStop};
use crate::jpegtran::jpegtran_words;
use crate::jpegtran_request::TransformWords;
use crate::jpgwork::jpgwork_words;
use jpg_spec_image::EndKind;
use jpg_spec_words::{Usage, UsageFault};
use std::alloc::Global;

/// What the words of a call ask for.
#[derive(Drop)]
pub enum Asked {
    /// `jpegtran`, with its files and what is asked for the picture.
    Jpegtran(TransformWords),
    /// `djpeg`, with its files and how the picture is decoded.
    Djpeg(ShowWords),
    /// `cjpeg`, with its files and how the image is encoded.
    Cjpeg(EncodeWords),
    /// `rdjpgcom`, with its files.
    Rdjpgcom(Files),
    /// `wrjpgcom`, with its files, the comment's source and whether it replaces others.
    Wrjpgcom(WriteWords),
    /// `jpgwork`, with its number, from 1 to 400.
    Jpgwork(u16),
}

/// The command of this name.
pub fn known_tool(word: &str) -> Option<&'static str>
    ensures known { IfSome result (λ tool. (is_tool word.now ≡ true) × (tool.now ≡ word.now) × (length tool.now ≤ 8)) }
    ensures unknown { IfNone result (is_tool word.now ≡ false) }
{
    match word {
        "jpegtran" => Some("jpegtran"),
        "djpeg" => Some("djpeg"),
        "cjpeg" => Some("cjpeg"),
        "rdjpgcom" => Some("rdjpgcom"),
        "wrjpgcom" => Some("wrjpgcom"),
        "jpgwork" => Some("jpgwork"),
        _ => None,
    }
}

/// The name that messages begin with: the command, or the program if the words name none.
pub fn tool_name(words: &[String]) -> &'static str
    ensures name { result.now ≡ tool_of (map string_bytes words.now) }
    ensures short { length result.now ≤ 8 }
{
    match words {
        [] => "jpgsuite",
        [tool, ..] => match known_tool(tool.as_str()) {
            Some(name) => name,
            None => "jpgsuite",
        },
    }
}

/// What the words ask for. Words that are wrong give their first fault: `NoTool`, `UnknownTool` at the
/// command, or those of the command's own words; they take no memory.
pub fn read_words(alloc: Global, words: &[String]) -> Result<Asked, WordsStop>
    ensures asked { IsCommand (command_asked (map string_bytes words.now)) result }
    ensures sized { IfOk result IsSized }
{
    match words {
        [] => Err(first_word(UsageFault::NoTool)),
        [tool, ..] => match known_tool(tool.as_str()) {
            None => Err(first_word(UsageFault::UnknownTool)),
            Some(_) => known_words(alloc, tool.as_str(), words),
        },
    }
}

/// The format that right words of djpeg ask for, and the index of the word that does; none of other words.
pub fn format_asked(words: &[String]) -> Option<(EndKind, u64)>
    ensures { IsFormatAsked (command_asked (map string_bytes words.now)) result }
{
    match words {
        [] => None,
        [tool, ..] => match known_tool(tool.as_str()) {
            None => None,
            Some(_) => known_format(tool.as_str(), words),
        },
    }
}

// The same of the words of this command.
fn known_format(tool: &str, words: &[String]) -> Option<(EndKind, u64)>
    ensures { IsFormatAsked (known_command tool.now (drop 1 (map string_bytes words.now))) result }
{
    if is_djpeg(tool) {
        return djpeg_format(words);
    }
    None
}

fn is_djpeg(tool: &str) -> bool
    ensures { result ≡ bytes_eq tool.now (codes "djpeg") }
{
    tool == "djpeg"
}

// What the words of this command ask for.
fn known_words(alloc: Global, tool: &str, words: &[String]) -> Result<Asked, WordsStop>
    ensures asked { IsCommand (known_command tool.now (drop 1 (map string_bytes words.now))) result }
    ensures sized { IfOk result IsSized }
{
    match tool {
        "jpegtran" => jpegtran_words(alloc, words).map(Asked::Jpegtran),
        "djpeg" => djpeg_words(alloc, words).map(Asked::Djpeg),
        "cjpeg" => cjpeg_words(alloc, words).map(Asked::Cjpeg),
        "rdjpgcom" => rdjpgcom_words(alloc, words).map(Asked::Rdjpgcom),
        "wrjpgcom" => wrjpgcom_words(alloc, words).map(Asked::Wrjpgcom),
        _ => jpgwork_words(words)
            .map(Asked::Jpgwork)
            .map_err(WordsStop::Usage),
    }
}

// The fault of the first word, or of no words.
fn first_word(fault: UsageFault) -> WordsStop
    ensures { result ≡ wrong (record { fault = fault; word = 0 }) }
{
    WordsStop::Usage(Usage { fault, word: 0 })
}
