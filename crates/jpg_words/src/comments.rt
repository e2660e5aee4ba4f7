//! The words of rdjpgcom and wrjpgcom (their manuals in release 6b).
ghost use Rattle.std.specs.Prelude.{◌≡◌, IfOk, map, drop, string_bytes};
ghost use Rattle.jpg_spec_words.specs.CommentWords.{WriteAsked, are_both_input, rdjpgcom, read_asked, wrjpgcom, write_asked};
ghost use Rattle.jpg_spec_words.specs.Requests.{FilesAsked, standard_input};
ghost use Rattle.jpg_words.specs.CommentWords.{comment_said, comment_view, write_said, write_words_view};
ghost use Rattle.jpg_words.specs.Files.{file_said, files_said, files_view};
ghost use Rattle.jpg_words.specs.Requests.{IsAnswer};

use crate::files::{Files, FilesSaid, NO_FILES, WordsStop};
use crate::requests::{Asks, read_request, read_words, usage};
use crate::switches::Switch;
use jpg_base::{NoMemory, Text};
use jpg_spec_words::Purpose::{Alone, LeftOut, Valued};
use jpg_spec_words::{Flag, Setting, Usage, UsageFault};
use std::alloc::Global;

static RDJPGCOM_SWITCHES: [Switch<'static>; 1] = [("verbose", 1, LeftOut)];

static WRJPGCOM_SWITCHES: [Switch<'static>; 3] = [
    ("replace", 1, Alone(Flag::Replace)),
    ("comment", 1, Valued(Setting::Comment)),
    ("cfile", 2, Valued(Setting::CommentFile)),
];

/// Where a comment comes from: standard input, the words, or a file.
#[derive(Drop)]
pub enum CommentFrom {
    Input,
    Given(Text),
    File(Text),
}

/// What the words of wrjpgcom ask for.
#[derive(Drop)]
pub struct WriteWords {
    pub files: Files,
    pub comment: CommentFrom,
    /// Whether the comments of the input are left out.
    pub replace: bool,
}

/// The files that the words of rdjpgcom ask for; the word with index 0 is the command. Words that are wrong give their
/// first fault and take no memory: `LeftOutSwitch`, `UnknownSwitch`, or `TooManyFiles` at the word after the file.
pub fn rdjpgcom_words(alloc: Global, words: &[String]) -> Result<Files, WordsStop>
    ensures { IsAnswer files_view (read_asked (drop 1 (map string_bytes words.now))) result }
{
    read_words(alloc, NO_FILES, &RDJPGCOM_SWITCHES, words)
}

impl<'a> Asks<'a> for FilesSaid<'a> {
    type Words = Files;

    ghost Asked = { FilesAsked };

    ghost tool = { rdjpgcom };

    ghost said = { files_said };

    ghost meaning = { files_view };

    fn named(self, name: &'a str) -> Self {
        self.from(name)
    }

    fn flag(self, _: Flag, index: usize) -> Result<Self, Usage> {
        Err(usage(UsageFault::UnknownSwitch, index))
    }

    fn setting(self, _: Setting, _: &'a str, index: usize) -> Result<Self, Usage> {
        Err(usage(UsageFault::UnknownSwitch, index))
    }

    fn to_words(self, alloc: Global) -> Result<Files, NoMemory> {
        self.to_files(alloc)
    }
}

/// What the words of wrjpgcom ask for; the word with index 0 is the command. Words that are wrong give their first
/// fault and take no memory: `UnknownSwitch`, `MissingValue` and `TwoComments` at the switch, `TooManyFiles` at the
/// word after the file, or `NeedsInput` at the number of words, if both the comment and the file would be standard
/// input.
pub fn wrjpgcom_words(alloc: Global, words: &[String]) -> Result<WriteWords, WordsStop>
    ensures { IsAnswer write_words_view (write_asked (drop 1 (map string_bytes words.now))) result }
{
    let start = WriteSaid {
        files: NO_FILES,
        comment: CommentSaid::Input,
        replace: false,
    };
    let said = match read_request(start, &WRJPGCOM_SWITCHES, words) {
        Ok(said) => said,
        Err(usage) => return Err(WordsStop::Usage(usage)),
    };
    if said.needs_input() {
        let fault = usage(UsageFault::NeedsInput, words.len().max(1));
        return Err(WordsStop::Usage(fault));
    }
    match said.to_words(alloc) {
        Ok(words) => Ok(words),
        Err(_) => Err(WordsStop::NoMemory),
    }
}

// What the words so far ask for.
#[derive(Clone, Copy)]
struct WriteSaid<'a> {
    files: FilesSaid<'a>,
    comment: CommentSaid<'a>,
    replace: bool,
}

// The source of a comment, as the words name it.
#[derive(Clone, Copy)]
enum CommentSaid<'a> {
    Input,
    Given(&'a str),
    File(&'a str),
}

impl<'a> Asks<'a> for WriteSaid<'a> {
    type Words = WriteWords;

    ghost Asked = { WriteAsked };

    ghost tool = { wrjpgcom };

    ghost said = { write_said };

    ghost meaning = { write_words_view };

    fn named(self, name: &'a str) -> Self {
        WriteSaid {
            files: self.files.from(name),
            ..self
        }
    }

    fn flag(self, flag: Flag, index: usize) -> Result<Self, Usage> {
        match flag {
            Flag::Replace => Ok(WriteSaid {
                replace: true,
                ..self
            }),
            _ => Err(usage(UsageFault::UnknownSwitch, index)),
        }
    }

    fn setting(self, setting: Setting, value: &'a str, index: usize) -> Result<Self, Usage> {
        match setting {
            Setting::Comment => match self.comment {
                CommentSaid::File(_) => Err(usage(UsageFault::TwoComments, index)),
                _ => Ok(WriteSaid {
                    comment: CommentSaid::Given(value),
                    ..self
                }),
            },
            Setting::CommentFile => match self.comment {
                CommentSaid::Given(_) => Err(usage(UsageFault::TwoComments, index)),
                _ => Ok(WriteSaid {
                    comment: CommentSaid::File(value),
                    ..self
                }),
            },
            _ => Err(usage(UsageFault::UnknownSwitch, index)),
        }
    }

    fn to_words(self, alloc: Global) -> Result<WriteWords, NoMemory> {
        Ok(WriteWords {
            files: self.files.to_files(alloc)?,
            comment: self.comment.to_comment(alloc)?,
            replace: self.replace,
        })
    }
}

impl<'a> WriteSaid<'a> {
    // Whether both the comment and the file would be standard input.
    fn needs_input(self) -> bool
        ensures { result ≡ are_both_input (comment_said self.entry.comment) (file_said standard_input self.entry.files.input) }
    {
        matches!((self.comment, self.files.input), (CommentSaid::Input, None))
    }
}

impl<'a> CommentSaid<'a> {
    // The source of the comment, with copies of its texts.
    fn to_comment(self, alloc: Global) -> Result<CommentFrom, NoMemory>
        ensures { IfOk result (λ comment. comment_view comment ≡ comment_said self.entry) }
    {
        Ok(match self {
            CommentSaid::Input => CommentFrom::Input,
            CommentSaid::Given(text) => CommentFrom::Given(Text::new(alloc, text)?),
            CommentSaid::File(name) => CommentFrom::File(Text::new(alloc, name)?),
        })
    }
}
