//! The line after the message for wrong words: which word it is, and what to write.
use crate::switches::{asked_elsewhere, nearest, written_here};
use crate::values::value_of;
use jpg_spec_words::{Usage, UsageFault};
use std::alloc::Global;

/// What to write: about which word, and for a word that looks like a switch of the command, which one.
#[derive(Clone, Copy, Debug)]
pub struct Hint<'a> {
    /// The word of the call, or nothing where it has too few.
    pub word: &'a str,
    /// What to write, in words.
    pub text: &'static str,
    /// The name of the switch that the word resembles, without its hyphen, after the text.
    pub switch: &'static str,
}

fn word_at<'a>(words: &'a [String], at: u64) -> &'a str {
    for (number, word) in words.iter().enumerate() {
        if number as u64 == at {
            return word.as_str();
        }
    }
    ""
}

fn with_text<'a>(word: &'a str, text: &'static str) -> Hint<'a> {
    Hint {
        word,
        text,
        switch: "",
    }
}

// What to write in place of a switch that the command hasn't.
fn for_switch<'a>(alloc: Global, tool: &str, word: &'a str) -> Hint<'a> {
    if let Some(text) = written_here(tool, word) {
        return with_text(word, text);
    }
    if let Some(text) = asked_elsewhere(tool, word) {
        return with_text(word, text);
    }
    match nearest(alloc, tool, word) {
        Some(switch) => Hint {
            word,
            text: "there is",
            switch,
        },
        None => with_text(word, "there is no such switch"),
    }
}

/// What to write in place of the word that is wrong, in a call of this command.
pub fn hint_for<'a>(alloc: Global, tool: &str, words: &'a [String], usage: Usage) -> Hint<'a> {
    let word = word_at(words, usage.word);
    match usage.fault {
        UsageFault::NoTool => with_text(
            "",
            "jpgsuite --help lists the commands and their switches",
        ),
        UsageFault::UnknownTool => with_text(
            word,
            "the commands are jpegtran, djpeg, cjpeg, rdjpgcom and wrjpgcom; jpgsuite --help lists their switches",
        ),
        UsageFault::UnknownSwitch | UsageFault::LeftOutSwitch => for_switch(alloc, tool, word),
        UsageFault::MissingValue => with_text(word, value_of(tool, word)),
        UsageFault::BadValue => {
            with_text(
                word,
                value_of(tool, word_at(words, usage.word.saturating_sub(1))),
            )
        }
        UsageFault::TwoTransforms => with_text(
            word,
            "one transform a call; for two, write jpegtran .. FILE | jpegtran ..",
        ),
        UsageFault::TooManyFiles => with_text(
            word,
            "nothing may follow the input; switches stand before it, and an output after -outfile or >",
        ),
        UsageFault::TwoComments => with_text(word, "either -comment or -cfile"),
        UsageFault::NeedsInput => with_text(
            word,
            "standard input is the comment, so the picture needs a name; or write -comment TEXT",
        ),
        UsageFault::NoEnd => with_text(word, "this program can't write that format"),
    }
}
