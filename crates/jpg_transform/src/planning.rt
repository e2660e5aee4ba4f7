//! How a picture is written for a choice (the manual of jpegtran).
ghost use Rattle.std.specs.Prelude.{◌≡◌, ◌≤◌, IfNone, IfSome, length, map, None, false, true};
ghost use Rattle.jpg_spec.specs.Transposed.{transposed};
ghost use Rattle.jpg_spec_move.specs.Moved.{Choice as Asked, is_gray_or_ycbcr};
ghost use Rattle.jpg_spec_write.specs.ScansAsked.{script_due};
ghost use Rattle.jpg_spec_write.specs.WrittenFile.{IsRestart};
ghost use Rattle.jpg_file.specs.Read.PictureKept.{IsStripHead};
ghost use Rattle.jpg_file.specs.Write.WriteFile.{IsOfAll, IsSole};
ghost use Rattle.jpg_file.specs.declared.read.picture.Picture.{Picture as Read};
ghost use Rattle.jpg_scans.specs.Restarts.{restart_of};
ghost use Rattle.jpg_transform.specs.Places.{keeps_rows};
ghost use Rattle.jpg_transform.specs.RowsMoved.{goes_by_rows};
ghost use Rattle.jpg_transform.specs.Planned.{IsHeadOf, IsJobFor, IsOutHeadBy, IsPlan, choice_view, head_fault, is_first_greatest, moved_tables, process_in, process_of, scans_view};

use crate::frames::moved_frame;
use crate::table::{keeps_rows, transposes};
use crate::{Choice, Job, Scans};
use arrayvec::ArrayVec;
use jpg_base::{Frame, QuantTable};
use jpg_file::{Picture, Plan, Restart, SoleScan, StripHead, sole_scan};
use jpg_markers::{OutHead, is_wide};
use jpg_scans::Script;
use jpg_spec::{Colour, Process};
use jpg_spec_write::PictureFault;

/// How a picture is written for a choice, or its first fault: GrayColour if colours other than gray and YCbCr are to be
/// converted to grayscale, GrayFactors if the first component of such a picture doesn't have the greatest factors, and
/// then those of the script on the output's frame (`Script::check`), of which the default scripts have none. It takes
/// no memory.
pub fn plan(picture: &Picture, choice: &Choice) -> Result<Job, PictureFault>
    ensures { IsPlan picture.now (choice_view choice.now) result }
{
    plan_head(&StripHead::of(picture), choice)
}

/// The same of a picture of which only this is known: whatever else it has, `plan` gives this result.
pub fn plan_head(head: &StripHead, choice: &Choice) -> Result<Job, PictureFault>
    requires { IsStripHead head.now }
    ensures { (p : Read) → IsHeadOf head.now p → IsPlan p (choice_view choice.now) result }
{
    if let Some(fault) = gray_fault(head, choice.gray) {
        return Err(fault);
    }
    counted(choice.restart);
    let out = head_of(head, choice);
    let script = script_due(&choice.scans, &out.frame, out.colour);
    match script.check(&out.frame) {
        Err(fault) => Err(fault),
        Ok(()) => Ok(Job {
            plan: Plan {
                out,
                script,
                huffman: choice.huffman,
                restart: choice.restart,
            },
            transform: choice.transform,
            gray: choice.gray,
        }),
    }
}

/// What the output's only scan is written with, if rows stay rows and the job's plan has one scan with typical tables
/// (`sole_scan`): then a `RowMover` can write it. Otherwise None.
pub fn row_scan(job: &Job) -> Option<SoleScan>
    requires { (p : Read) × (choice : Asked) × IsJobFor p choice job.now }
    ensures stays { IfSome result (λ s. keeps_rows job.now.transform ≡ true) }
    ensures sole { IfSome result (IsSole job.now.plan) }
    ensures all { IfSome result (IsOfAll job.now.plan.out.frame) }
    ensures none { IfNone result (goes_by_rows job.now ≡ false) }
{
    if !keeps_rows(job.transform) {
        return None;
    }
    job.plan.out.frame.checked();
    sole_scan(&job.plan)
}

/// States, for proofs, that an interval fits into two bytes. It does nothing.
pub fn counted(restart: Restart)
    ensures { IsRestart (restart_of restart) }
{
    let _ = restart;
}

/// The scans for the output's frame and colours.
pub fn script_due(scans: &Scans, frame: &Frame, colour: Colour) -> Script
    ensures { result ≡ script_due (scans_view scans.now) frame.now colour }
{
    match scans {
        Scans::Sequential => Script::sequential(frame),
        Scans::Standard => Script::standard(frame, colour),
        Scans::Given(script) => script.copy(),
    }
}

// Whether a picture of these colours can be converted to grayscale.
fn is_gray_or_ycbcr(colour: Colour) -> bool
    ensures { result ≡ is_gray_or_ycbcr colour }
{
    matches!(colour, Colour::Gray | Colour::YCbCr)
}

// The fault of a picture that is to be converted to grayscale.
fn gray_fault(head: &StripHead, gray: bool) -> Option<PictureFault>
    ensures { result ≡ head_fault gray head.now }
{
    if gray && !is_gray_or_ycbcr(head.colour) {
        return Some(PictureFault::GrayColour);
    }
    if gray && !is_first_greatest(&head.frame) {
        return Some(PictureFault::GrayFactors);
    }
    None
}

// Whether the first component has the greatest factors.
fn is_first_greatest(frame: &Frame) -> bool
    ensures { result ≡ is_first_greatest frame.now }
{
    frame.checked();
    let first = frame.component(0);
    first.h == frame.h_max() && first.v == frame.v_max()
}

// What the head of the output is written from.
fn head_of(head: &StripHead, choice: &Choice) -> OutHead
    requires head { IsStripHead head.now }
    requires admitted { head_fault choice.now.gray head.now ≡ None }
    ensures { IsOutHeadBy (choice_view choice.now) head.now result }
{
    let quants = moved_tables(head.quants.as_slice(), choice);
    let process = process_in(&choice.scans, head.frame.precision(), quants.as_slice());
    OutHead {
        frame: moved_frame(&head.frame, choice).with_process(process),
        colour: if choice.gray {
            Colour::Gray
        } else {
            head.colour
        },
        quants,
        jfif: head.jfif,
        copying: choice.copying,
    }
}

// The tables of the output.
fn moved_tables(tables: &[QuantTable], choice: &Choice) -> ArrayVec<QuantTable, 4>
    requires { length tables.now ≤ 4 }
    ensures { result.items ≡ moved_tables (choice_view choice.now) tables.now }
{
    let kept = if choice.gray && !tables.is_empty() {
        &tables[..1]
    } else {
        tables
    };
    if transposes(choice.transform) {
        turned(kept)
    } else {
        QuantTable::copied(kept)
    }
}

// The tables with their axes exchanged.
fn turned(tables: &[QuantTable]) -> ArrayVec<QuantTable, 4>
    requires { length tables.now ≤ 4 }
    ensures { result.items ≡ map (transposed 0) tables.now }
{
    let mut list = ArrayVec::new();
    for table in tables {
        list.push(table.transposed());
    }
    list
}

// The process of a file of this precision in these scans with these tables: SOF0, SOF1 or SOF2 (T.81, B.2.2).
fn process_in(scans: &Scans, precision: u8, tables: &[QuantTable]) -> Process
    ensures { result ≡ process_in (scans_view scans.now) precision tables.now }
{
    if scans.progressive() {
        Process::Progressive
    } else {
        process_of(precision, tables)
    }
}

// The process of a sequential file of this precision with these tables.
fn process_of(precision: u8, tables: &[QuantTable]) -> Process
    ensures { result ≡ process_of precision tables.now }
{
    if precision != 8 {
        return Process::Extended;
    }
    for table in tables {
        if is_wide(table) {
            return Process::Extended;
        }
    }
    Process::Baseline
}
