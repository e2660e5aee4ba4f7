//! The comment that wrjpgcom inserts, taken from its source (its manual in release 6b).
ghost use Rattle.std.specs.Prelude.{◌≡◌, MatchResult};
ghost use Rattle.jpg_spec_words.specs.declared.answers.Why.TheVariants.{NoMemory as wants_memory};
ghost use Rattle.jpg_desk.specs.CommentTaken.{AfterComment};
ghost use Rattle.jpg_words.specs.CommentWords.{comment_view};
ghost use Rattle.jpg_desk.specs.Stays.{Keeps};

use crate::file::take_file;
use jpg_base::{Bytes, Desk, Name, Text};
use jpg_comments::LONGEST_COMMENT;
use jpg_spec_words::{Which, Why};
use jpg_words::CommentFrom;
use std::alloc::Global;

// One byte more than a comment may have.
const LIMIT: usize = LONGEST_COMMENT + 1;

/// The comment from the words, or from a file or standard input, which is read to its end or up to
/// 65,001 bytes: one more than a comment may have.
#[inline(never)]
pub fn take_comment<D: Desk>(alloc: Global, from: &CommentFrom, desk: &mut D) -> Result<Bytes, Why>
    ensures kept { Keeps (D.state desk.old) (D.state desk.new) }
    ensures after { AfterComment (D.state desk.old) (comment_view from.now) result (D.state desk.new) }
{
    match from {
        CommentFrom::Input => take_file(alloc, &Name::In, LIMIT, Which::Comment, desk),
        CommentFrom::Given(text) => copy_text(alloc, text),
        CommentFrom::File(text) => match Text::new(alloc, text.as_str()) {
            Ok(name) => take_file(alloc, &Name::File(name), LIMIT, Which::Comment, desk),
            Err(_) => Err(Why::NoMemory),
        },
    }
}

// The bytes of the text.
fn copy_text(alloc: Global, text: &Text) -> Result<Bytes, Why>
    ensures { MatchResult result (λ bytes. bytes ≡ text.now) (λ stop. stop ≡ wants_memory) }
{
    let mut bytes = Bytes::new(alloc);
    match bytes.push_all(text.as_str().as_bytes()) {
        Ok(()) => Ok(bytes),
        Err(_) => Err(Why::NoMemory),
    }
}
