//! The words of jpgwork.
ghost use Rattle.std.specs.Prelude.{◌≤◌, IfOk, IfSome, drop, map, string_bytes, ◌≡◌};
ghost use Rattle.jpg_spec_words.specs.Requests.{number_of};
ghost use Rattle.jpg_spec_words.specs.WorkWords.{with_size, work_asked, work_size};
ghost use Rattle.std.specs.Prelude.{option_and_then};
ghost use Rattle.jpg_words.specs.Requests.{AnswersWords};

use crate::values::number_of;
use jpg_spec_words::{Usage, UsageFault};

// The number that a word says, from 1 to 400.
fn size_named(value: &[u8]) -> Option<u16>
    ensures value { result ≡ option_and_then work_size (number_of value.now) }
    ensures range { IfSome result (λ n. (1 ≤ n) × (n ≤ 400)) }
{
    match number_of(value) {
        Some(n) if n >= 1 && n <= 400 => Some(n as u16),
        _ => None,
    }
}

/// The number that the words of jpgwork ask for; the word with index 0 is the command. Words that are wrong give their
/// first fault: `MissingValue` or `BadValue` at the number, `TooManyFiles` at the word after it.
pub fn jpgwork_words(words: &[String]) -> Result<u16, Usage>
    ensures told { AnswersWords (λ n. n) (work_asked (drop 1 (map string_bytes words.now))) result }
    ensures range { IfOk result (λ n. (1 ≤ n) × (n ≤ 400)) }
{
    let Some(word) = words.get(1) else {
        return Err(wrong(UsageFault::MissingValue, 1));
    };
    match size_named(word.as_str().as_bytes()) {
        None => Err(wrong(UsageFault::BadValue, 1)),
        Some(_) if words.len() > 2 => Err(wrong(UsageFault::TooManyFiles, 2)),
        Some(number) => Ok(number),
    }
}

fn wrong(fault: UsageFault, word: u64) -> Usage
    ensures { result ≡ record { fault = fault; word = word } }
{
    Usage { fault, word }
}
