//! What the words of a command ask for, switch by switch (the manuals of the commands in release 6b).
ghost use Rattle.std.specs.Prelude.{◌≡◌, ◌+◌, ◌<◌, ◌≤◌, IfOk, length, map, drop, true, false, string_bytes};
ghost use Rattle.jpg_spec_words.specs.Requests.{Tool, request};
ghost use Rattle.jpg_spec_words.specs.Switches.{is_switch};
ghost use Rattle.jpg_spec_words.specs.declared.answers.UsageFault.TheVariants.{BadValue};
ghost use Rattle.jpg_words.specs.Requests.{AnswersWords, IsAnswer, IsStep, IsValue, asked_from, usage_view, word_at};
ghost use Rattle.jpg_words.specs.Switches.{switch_view};

use crate::files::WordsStop;
use crate::switches::{Switch, is_switch, purpose_of};
use jpg_base::NoMemory;
use jpg_spec_words::{Flag, Purpose, Setting, Usage, UsageFault};
use std::alloc::Global;

/// What the words of a command ask for, by the switches so far. Names are lent by the words.
pub trait Asks<'a>: Copy {
    /// What the words ask for, with copies of the names.
    type Words: Drop;

    /// The meaning of both, and the command.
    ghost Asked: { Type 0 };

    ghost tool: { Tool Self.Asked };

    ghost said: { Self → Self.Asked };

    ghost meaning: { Self.Words → Self.Asked };

    /// What is asked for after a further word, the name of the input.
    fn named(self, name: &'a str) -> Self
        ensures { said result ≡ tool.named name.now (said self) };

    /// What is asked for after a further switch, the word of this index.
    fn flag(self, flag: Flag, index: usize) -> Result<Self, Usage>
        ensures { AnswersWords said (tool.flag flag index (said self)) result };

    /// What is asked for after a further switch, the word of this index, and its value.
    fn setting(self, setting: Setting, value: &'a str, index: usize) -> Result<Self, Usage>
        requires { index < 18446744073709551615 }
        ensures { AnswersWords said (tool.setting setting index value.now (said self)) result };

    /// All of it, with copies of the names.
    fn to_words(self, alloc: Global) -> Result<Self::Words, NoMemory>
        ensures { IfOk result (λ words. meaning words ≡ said self) };
}

/// What the words of a command with these switches ask for; the word with index 0 is the command, and without switches
/// `start` is asked for. Words that are wrong give their first fault and take no memory.
pub(crate) fn read_words<'a, A: Asks<'a>>(
    alloc: Global,
    start: A,
    switches: &[Switch<'_>],
    words: &'a [String],
) -> Result<A::Words, WordsStop>
    requires { map switch_view switches.now ≡ A.tool.switches }
    ensures { IsAnswer A.meaning (request A.tool (A.said start) (drop 1 (map string_bytes words.now))) result }
{
    match read_request(start, switches, words) {
        Ok(said) => match said.to_words(alloc) {
            Ok(words) => Ok(words),
            Err(_) => Err(WordsStop::NoMemory),
        },
        Err(usage) => Err(WordsStop::Usage(usage)),
    }
}

/// What the words of a command with these switches ask for, with names that are lent: `UnknownSwitch`, `LeftOutSwitch`
/// and `MissingValue` are at the switch, `TooManyFiles` at the word after the file, and other faults where the command
/// says.
pub(crate) fn read_request<'a, A: Asks<'a>>(
    start: A,
    switches: &[Switch<'_>],
    words: &'a [String],
) -> Result<A, Usage>
    requires { map switch_view switches.now ≡ A.tool.switches }
    ensures { AnswersWords A.said (request A.tool (A.said start) (drop 1 (map string_bytes words.now))) result }
{
    let mut said = start;
    let mut index = 1;
    while index < words.len() {
        if !is_switch(word_at(words, index)) {
            return with_input(said, words, index);
        }
        let (next, after) = after_switch(said, switches, words, index)?;
        said = next;
        index = after;
    }
    Ok(said)
}

// What is asked for with the input of this index, which nothing may follow.
fn with_input<'a, A: Asks<'a>>(said: A, words: &'a [String], index: usize) -> Result<A, Usage>
    requires within { index < length words.now }
    requires file { is_switch (word_at (map string_bytes words.now) index) ≡ false }
    ensures { AnswersWords A.said (asked_from A.tool (map string_bytes words.now) index (A.said said)) result }
{
    if index + 1 < words.len() {
        return Err(usage(UsageFault::TooManyFiles, index + 1));
    }
    Ok(said.named(word_at(words, index)))
}

// What is asked for after the switch of this index, and the index after it and its value.
fn after_switch<'a, A: Asks<'a>>(
    said: A,
    switches: &[Switch<'_>],
    words: &'a [String],
    index: usize,
) -> Result<(A, usize), Usage>
    requires table { map switch_view switches.now ≡ A.tool.switches }
    requires within { index < length words.now }
    requires switch { is_switch (word_at (map string_bytes words.now) index) ≡ true }
    ensures told { IsStep A.tool A.said (map string_bytes words.now) index said result }
    ensures after { IfOk result (λ p. (index < p.1) × (p.1 ≤ length words.now)) }
{
    match purpose_of(switches, word_at(words, index)) {
        None => Err(usage(UsageFault::UnknownSwitch, index)),
        Some(Purpose::LeftOut) => Err(usage(UsageFault::LeftOutSwitch, index)),
        Some(Purpose::Alone(flag)) => match said.flag(flag, index) {
            Ok(next) => Ok((next, index + 1)),
            Err(usage) => Err(usage),
        },
        Some(Purpose::Valued(setting)) => match value_of(words, index) {
            Ok(value) => match said.setting(setting, value, index) {
                Ok(next) => Ok((next, index + 2)),
                Err(usage) => Err(usage),
            },
            Err(usage) => Err(usage),
        },
    }
}

// The value of the switch of this index: the word after it.
fn value_of(words: &[String], index: usize) -> Result<&str, Usage>
    requires { index < length words.now }
    ensures { IsValue (map string_bytes words.now) index result }
{
    match words.get(index + 1) {
        Some(text) => Ok(text.as_str()),
        None => Err(usage(UsageFault::MissingValue, index)),
    }
}

fn word_at(words: &[String], index: usize) -> &str
    requires { index < length words.now }
    ensures { result.now ≡ word_at (map string_bytes words.now) index }
{
    words[index].as_str()
}

pub(crate) fn usage(fault: UsageFault, index: usize) -> Usage
    ensures { result ≡ usage_view fault index }
{
    Usage {
        fault,
        word: index as u64,
    }
}

// What is wrong with the value of the switch of this index.
pub(crate) fn bad_value(index: usize) -> Usage
    requires { index < 18446744073709551615 }
    ensures { result ≡ usage_view BadValue (index + 1) }
{
    usage(UsageFault::BadValue, index + 1)
}
