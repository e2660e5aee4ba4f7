//! The commands: their words, their work over a desk, and their messages.
#![tactic(auto)]

mod ending;
mod faults;
mod help;
mod hints;
mod laws;
mod message;
mod program;
mod tools;
mod top;

pub use ending::{Ending, incomplete_outputs_are_removed};
pub use jpg_desk::{Wrote, write_moved};
pub use jpg_words::{
    Asked, CommentFrom, EncodeWords, Files, ScriptFrom, ShowWords, TransformWords, WordsStop,
    WriteWords, read_words,
};
pub use laws::{
    answers_are_due, encodings_are_due, faults_are_answered,
    files_with_a_frame_header_have_the_comment_inserted, fronts_are_shown,
    inserted_comments_are_due, pictures_are_shown, pictures_are_turned, pictures_are_turned_back,
    printed_comments_are_due, refusals_are_one, shown_answers_are_due, shown_fronts_are_due,
    unwanted_markers_are_not_missed, whole_files_have_their_comments_printed,
};
pub use program::{add_end, run_program};
pub use top::{Ended, run};
