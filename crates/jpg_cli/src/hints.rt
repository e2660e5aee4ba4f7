//! What is said after the message for wrong words. It is only said: no contract of `run` speaks of it.
use jpg_base::{Desk, Put};
use jpg_hints::hint_for;
use jpg_spec_words::Usage;
use jpg_words::tool_name;
use std::alloc::Global;

// Says a part of a line; if that fails, nothing comes of it.
fn say_part<D: Desk>(part: &str, desk: &mut D) {
    match desk.say(part.as_bytes()) {
        Put::Done => {}
        Put::Failed => {}
    }
}

/// Says which word of a call is wrong and what to write, after the name of the command.
pub fn say_hint<D: Desk>(alloc: Global, words: &[String], usage: Usage, desk: &mut D) {
    let tool = tool_name(words);
    let hint = hint_for(alloc, tool, words, usage);
    say_part(tool, desk);
    say_part(": ", desk);
    if !hint.word.is_empty() {
        say_part(hint.word, desk);
        say_part(": ", desk);
    }
    say_part(hint.text, desk);
    if !hint.switch.is_empty() {
        say_part(" -", desk);
        say_part(hint.switch, desk);
    }
    say_part("\n", desk);
}
