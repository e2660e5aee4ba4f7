//! The comments of a file, printed (T.81, B.2.4.5, the manual of rdjpgcom in release 6b).
ghost use Rattle.std.specs.Prelude.{◌≡◌, ◌≤◌, [], length, true, false};
ghost use Rattle.jpg_spec.specs.Segments.{standard_limits};
ghost use Rattle.jpg_base.specs.Desk.{AfterWrite};
ghost use Rattle.jpg_huff.specs.Out.{OnlyWrites};
ghost use Rattle.jpg_comments.specs.SegmentsSoFar.{Appends};
ghost use Rattle.jpg_comments.specs.ReadComments.{comments_limits, is_done, is_ready, HasRead};
ghost use Rattle.jpg_desk.specs.Stays.{OnlyCopies, OnlyWorks};
ghost use Rattle.jpg_cli.specs.Tools.ReadComments.{EndsCopying, PrintedOrNot, TakesPiece, print_kind};

use jpg_base::{Bytes, Desk, Fed, Put};
use jpg_comments::Comments;
use jpg_desk::{PieceSink, ended_as, pump, why_stopped};
use jpg_spec::Limits;
use jpg_spec_words::{Which, Why};
use jpg_words::Files;
use std::alloc::Global;

/// Takes the memory to read any segment, opens the input, creates the output and prints the comments of the input to it,
/// each when it is complete. The input is read in pieces of at most 16,384 bytes, and fewer bytes than that are read after
/// the end of its first scan header, or an EOI before any, or the byte that reveals a fault.
#[inline(never)]
pub fn print_comments<D: Desk>(alloc: Global, files: &Files, desk: &mut D) -> Why
    ensures kept { OnlyWorks (D.state desk.old) (D.state desk.new) }
    ensures printed { PrintedOrNot files.now.input files.now.output (D.state desk.old) result (D.state desk.new) }
{
    let mut comments = Comments::new(alloc, Limits::standard());
    if comments.reserve().is_err() {
        return Why::NoMemory;
    }
    match desk.open(&files.input) {
        Put::Failed => Why::OpenFault(Which::Input),
        Put::Done => match desk.create(&files.output) {
            Put::Failed => Why::OpenFault(Which::Output),
            Put::Done => copy_comments(alloc, comments, desk),
        },
    }
}

// Prints the comments of the open input, piece by piece.
fn copy_comments<D: Desk>(alloc: Global, comments: Comments, desk: &mut D) -> Why
    requires read { HasRead [] [] comments }
    requires ready { is_ready comments ≡ true }
    requires limits { comments_limits comments ≡ standard_limits }
    requires open { (D.state desk.old).input_open ≡ true }
    requires created { (D.state desk.old).output_created ≡ true }
    ensures { OnlyCopies (D.state desk.old) (D.state desk.new) × EndsCopying (D.state desk.old) result (D.state desk.new) }
{
    let mut sink = PrintSink {
        comments,
        out: Bytes::new(alloc),
    };
    ended_as(pump(desk, &mut sink))
}

// A reader of comments, and the text that is pending: none between two pieces.
#[derive(Drop)]
struct PrintSink {
    comments: Comments,
    out: Bytes,
}

impl<D: Desk> PieceSink<D> for PrintSink {
    ghost kind = { print_kind };

    #[tactic(auto, using(crate::proofs::Pieces::InputMost::input_most))]
    fn most(&self) -> u64 {
        Limits::standard().input
    }

    fn feed(&mut self, piece: &[u8], desk: &mut D) -> Result<bool, Why> {
        let due = take_piece(&mut self.comments, piece, &mut self.out);
        match write_text(&mut self.out, desk) {
            Put::Done => due,
            Put::Failed => Err(Why::WriteFault),
        }
    }

    fn end(&mut self, _desk: &mut D) -> Result<Option<u64>, Why> {
        Err(why_stopped(self.comments.end()))
    }
}

// Appends the text of the comments that are complete with this piece. Returns whether the file is complete.
fn take_piece(comments: &mut Comments, piece: &[u8], out: &mut Bytes) -> Result<bool, Why>
    requires more { is_done comments.old ≡ false }
    requires ready { is_ready comments.old ≡ true }
    requires limits { comments_limits comments.old ≡ standard_limits }
    requires short { length piece.now ≤ 65536 }
    ensures taken { TakesPiece comments.old piece.now out.old result out.new comments.new }
    ensures ready { is_ready comments.new ≡ true }
    ensures limits { comments_limits comments.new ≡ standard_limits }
{
    match comments.feed(piece, out) {
        Ok(Fed::More) => Ok(false),
        Ok(Fed::Done { .. }) => Ok(true),
        Err(stop) => Err(why_stopped(stop)),
    }
}

/// Writes the text, if there is any, and clears it.
#[tactic(auto, using(crate::proofs::Comments::CommentsCopied::none_written, jpg_dct::proofs::TableFronts::none_of))]
pub fn write_text<D: Desk>(text: &mut Bytes, desk: &mut D) -> Put
    requires { (D.state desk.old).output_created ≡ true }
    ensures kept { OnlyWrites (D.state desk.old) (D.state desk.new) }
    ensures written { AfterWrite (D.state desk.old) text.old result (D.state desk.new) }
    ensures empty { text.new ≡ [] }
{
    if text.as_slice().is_empty() {
        return Put::Done;
    }
    let answer = desk.write(text.as_slice());
    text.clear();
    answer
}
