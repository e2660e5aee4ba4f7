//! A comment inserted into a file, which is read and written piece by piece (T.81, B.2.4.5, the manual of
//! wrjpgcom in release 6b).
ghost use Rattle.std.specs.Prelude.{◌≡◌, List, ℕ, true};
ghost use Rattle.jpg_base.specs.Desk.{DeskState};
ghost use Rattle.jpg_spec.specs.Segments.{standard_limits};
ghost use Rattle.jpg_comments.specs.WriteInserted.{insert_limits, is_replacing, HasInserted};
ghost use Rattle.jpg_cli.specs.Tools.CommentInserted.{EndsTask, Inserted, IsBegunFor, Task, insert_kind, task_view};
ghost use Rattle.jpg_cli.specs.Tools.InsertComment.{AfterAll, InsertsPiece, IsBegunWith, WritesRest};
ghost use Rattle.jpg_desk.specs.Stays.{OnlyWorks};

use crate::tools::rdjpgcom::write_text;
use jpg_base::{Bytes, Desk, Name, Put};
use jpg_comments::Insert;
use jpg_desk::{PieceSink, ended_as, pump, take_comment, why_stopped};
use jpg_spec::Limits;
use jpg_spec_words::{Which, Why};
use jpg_words::WriteWords;
use std::alloc::Global;

/// Takes the comment, opens the input, and writes it to the output with the comment before its frame header. The output
/// is created when the marker of the frame header is read. The input is read in pieces of at most 16,384 bytes to its
/// end, or to fewer bytes than that after the one that reveals a fault.
pub fn insert_comment<D: Desk>(alloc: Global, words: &WriteWords, desk: &mut D) -> Why
    ensures kept { OnlyWorks (D.state desk.old) (D.state desk.new) }
    ensures inserted { Inserted (task_view words.now) (D.state desk.old) result (D.state desk.new) }
{
    let comment = match take_comment(alloc, &words.comment, desk) {
        Ok(comment) => comment,
        Err(why) => return why,
    };
    let insert = match with_comment(alloc, comment.as_slice(), words.replace) {
        Ok(insert) => insert,
        Err(why) => return why,
    };
    match desk.open(&words.files.input) {
        Put::Failed => Why::OpenFault(Which::Input),
        Put::Done => insert_into(alloc, insert, &words.files.output, desk),
    }
}

// An inserter of this comment.
fn with_comment(alloc: Global, comment: &[u8], replace: bool) -> Result<Insert, Why>
    ensures { IsBegunWith comment.now replace result }
{
    match Insert::new(alloc, Limits::standard(), comment, replace) {
        Ok(insert) => Ok(insert),
        Err(stop) => Err(why_stopped(stop)),
    }
}

// Writes the open input to the output.
#[inline(never)]
fn insert_into<D: Desk>(alloc: Global, insert: Insert, output: &Name, desk: &mut D) -> Why
    requires open { (D.state desk.old).input_open ≡ true }
    requires limits { insert_limits insert ≡ standard_limits }
    requires begun { (task : Task) × (comment : List ℕ) × (start : DeskState) × IsBegunFor task comment start output.now insert (D.state desk.old) }
    ensures kept { OnlyWorks (D.state desk.old) (D.state desk.new) }
    ensures after { EndsTask output.now insert (D.state desk.old) result (D.state desk.new) }
{
    let mut sink = InsertSink {
        insert,
        output,
        out: Bytes::new(alloc),
        created: false,
    };
    ended_as(pump(desk, &mut sink))
}

// What a file with an inserted comment is made of and written to.
#[derive(Drop)]
struct InsertSink<'a> {
    // What makes its text of the pieces.
    insert: Insert,
    // The name of the output.
    output: &'a Name,
    // The text that is pending: none between two pieces.
    out: Bytes,
    // The output was created.
    created: bool,
}

impl<'a, D: Desk> PieceSink<D> for InsertSink<'a> {
    ghost kind = { insert_kind };

    #[tactic(auto, using(crate::proofs::Pieces::InputMost::input_most))]
    fn most(&self) -> u64 {
        Limits::standard().input
    }

    fn feed(&mut self, piece: &[u8], desk: &mut D) -> Result<bool, Why> {
        let due = take_piece(&mut self.insert, piece, &mut self.out);
        if self.created {
            return write_rest(due, &mut self.out, desk);
        }
        if self.out.as_slice().is_empty() {
            return due;
        }
        match desk.create(self.output) {
            Put::Failed => Err(Why::OpenFault(Which::Output)),
            Put::Done => {
                self.created = true;
                write_rest(due, &mut self.out, desk)
            }
        }
    }

    fn end(&mut self, _desk: &mut D) -> Result<Option<u64>, Why> {
        at_end(&mut self.insert)
    }
}

// Writes the pending text; or returns why the writing ends.
fn write_rest<D: Desk>(due: Result<bool, Why>, out: &mut Bytes, desk: &mut D) -> Result<bool, Why>
    requires { (D.state desk.old).output_created ≡ true }
    ensures { WritesRest due out.old (D.state desk.old) result out.new (D.state desk.new) }
{
    match write_text(out, desk) {
        Put::Done => due,
        Put::Failed => Err(Why::WriteFault),
    }
}

// Appends the text for this piece. Returns why the writing ends, if it does.
fn take_piece(insert: &mut Insert, piece: &[u8], out: &mut Bytes) -> Result<bool, Why>
    requires limits { insert_limits insert.old ≡ standard_limits }
    ensures taken { InsertsPiece insert.old piece.now out.old result out.new insert.new }
    ensures limits { insert_limits insert.new ≡ standard_limits }
    ensures replace { is_replacing insert.new ≡ is_replacing insert.old }
{
    match insert.feed(piece, out) {
        Ok(_) => Ok(false),
        Err(stop) => Err(why_stopped(stop)),
    }
}

// The result for an input that ends here.
fn at_end(insert: &mut Insert) -> Result<Option<u64>, Why>
    requires { insert_limits insert.old ≡ standard_limits }
    ensures { (comment bytes text : List ℕ) → HasInserted comment bytes text insert.old → AfterAll comment (is_replacing insert.old) bytes text result }
{
    match insert.end() {
        Ok(()) => Ok(None),
        Err(stop) => Err(why_stopped(stop)),
    }
}
