//! The comments of a file as rdjpgcom prints them, by `jpg_comments` (T.81, B.2.4.5).
ghost use Rattle.example_callers.specs.Calling.{IsCommentsOf};

use jpg_comments::{Bytes, Comments, Fed, Limits, Stop};
use std::alloc::Global;

/// The text of the comments of a file up to its first scan, or up to EOI before any. Returns the first fault of
/// markers and lengths up to there, at the number of bytes that reveal it, Truncated at the file's length and
/// InputTooLong at 2^40 among them; and NoMemory.
pub fn comments_of(alloc: Global, file: &[u8]) -> Result<Bytes, Stop>
    ensures { IsCommentsOf file.now result }
{
    let mut comments = Comments::new(alloc, Limits::standard());
    let mut text = Bytes::new(alloc);
    match comments.feed(file, &mut text) {
        Ok(Fed::Done { .. }) => Ok(text),
        Ok(Fed::More) => Err(comments.end()),
        Err(stop) => Err(stop),
    }
}

/// The text of the comments of a file in pieces of any length. Those after its end are ignored.
pub fn comments_of_pieces(alloc: Global, pieces: &[&[u8]]) -> Result<Bytes, Stop> {
    let mut comments = Comments::new(alloc, Limits::standard());
    let mut text = Bytes::new(alloc);
    for piece in pieces {
        comments.feed(piece, &mut text)?;
        if comments.is_done() {
            return Ok(text);
        }
    }
    Err(comments.end())
}
