//! An image that is written row by row, while the MCU rows of its picture are read.
ghost use Rattle.std.specs.Prelude.{◌≡◌, ◌≤◌, ◌<◌, ◌==◌, true, None, [], Err, IfOk, length};
ghost use Rattle.jpg_file.specs.Read.PictureKept.{IsStripHead};
ghost use Rattle.jpg_pnm_bmp.specs.EndState.{new_end};
ghost use Rattle.jpg_color.specs.Shown.{IsNextRowDue, IsMcuRow, display_fault, display_of, all_rows, zero_row};
ghost use Rattle.jpg_color.specs.declared.decode.DecodeStop.TheVariants as stop;
ghost use Rattle.jpg_color.specs.DecodeRows.{SendsImage};
ghost use Rattle.jpg_color.specs.StripImage.{BeginsDrawing, CanTakeNext, DrawsRow, EndsDrawing, IsEndOf, IsNewDrawing, IsNewOf, IsAllGiven, SendsReady, StaysDrawn};

use crate::decode::strips::Strips;
use crate::decode::{DecodeStop, info_of, send, send_end, send_row, start_image};
use jpg_base::{Bytes, Desk, NoMemory};
use jpg_coefs::Coefs;
use jpg_file::StripHead;
use jpg_pnm_bmp::{ImageEnd, ImageInfo};
use std::alloc::Global;
use std::marker::Model;

/// An image that is written row by row, and the pending part of its text. It takes memory only in `new`, except for the
/// pending text and what the image writer keeps.
#[derive(Drop)]
pub struct StripImage {
    strips: Strips,
    info: ImageInfo,
    out: Bytes,
}

impl Model for StripImage {
    ghost use Rattle.std.specs.Prelude.{◌<◌, length};
    ghost use Rattle.jpg_color.specs.StripImage.{Drawing, IsToldOf};

    ghost Value = { Drawing };

    ghost view = { λ s. record { strips = s.strips; info = s.info; out = s.out } };

    ghost invariant = { λ s. IsToldOf s.strips.display s.info × (length s.out < 32768) };
}

// Gives an image writer all rows that are ready.
fn send_ready<D: Desk>(
    strips: &mut Strips,
    end: &mut Box<dyn ImageEnd>,
    out: &mut Bytes,
    desk: &mut D,
) -> Result<(), DecodeStop>
    requires some { strips.old.pushed ≤ all_rows strips.old.display }
    requires end { CanTakeNext strips.old (progress end.old) }
    requires created { (D.state desk.old).output_created ≡ true }
    ensures sends { SendsReady (D.state desk.old) strips.old (progress end.old) out.old result strips.new (progress end.new) out.new (D.state desk.new) }
    ensures few { length out.old < 32768 → length out.new < 32768 }
{
    strips.checked();
    while strips.advance() {
        send_row(strips.row(), end, out, desk)?;
    }
    Ok(())
}

// Writes the pending text, if there is any.
fn send_any<D: Desk>(out: &mut Bytes, desk: &mut D) -> Result<(), DecodeStop>
    requires { (D.state desk.old).output_created ≡ true }
    ensures sent { SendsImage (D.state desk.old) out.old [] result out.new (D.state desk.new) }
    ensures all { IfOk result (λ u. out.new ≡ []) }
    ensures empty { out.new ≡ [] }
    ensures memory { result ≡ Err stop.NoMemory → ⊥ }
{
    if out.as_slice().is_empty() {
        return Ok(());
    }
    send(out, desk)
}

impl StripImage {
    /// An image before its first MCU row. Returns NoMemory if there is no memory.
    pub fn new(
        alloc: Global,
        head: &StripHead,
        gray: bool,
        smooth: bool,
    ) -> Result<StripImage, NoMemory>
        requires head { IsStripHead head.now }
        requires admitted { display_fault (display_of head.now gray smooth) ≡ None }
        ensures { IfOk result (λ s. IsNewOf head.now gray smooth s) }
    {
        let strips = Strips::new(alloc, head, gray, smooth)?;
        Ok(StripImage {
            strips,
            info: info_of(&head.frame, head.colour, head.jfif, gray),
            out: Bytes::new(alloc),
        })
    }

    /// Begins it, in the format of `end`. The first part of its text waits then.
    pub fn start(&mut self, end: &mut Box<dyn ImageEnd>) -> Result<(), NoMemory>
        requires new { IsNewDrawing self.old }
        requires end { progress end.old ≡ new_end (progress end.old).kind }
        ensures { IfOk result (λ u. BeginsDrawing self.old (progress end.old) self.new (progress end.new)) }
    {
        self.strips.checked();
        start_image(&self.info, end, &mut self.out)
    }

    /// Takes the blocks of the next MCU row, which are stored without the rest of the picture, and gives `end` the rows
    /// that are ready then. Their text is written, or waits, of which there are always fewer than 32,768 bytes.
    pub fn push<D: Desk>(
        &mut self,
        row: &Coefs,
        end: &mut Box<dyn ImageEnd>,
        desk: &mut D,
    ) -> Result<(), DecodeStop>
        requires due { IsNextRowDue self.old.strips }
        requires row { IsMcuRow self.old.strips.display.frame row.now }
        requires end { IsEndOf self.old (progress end.old) }
        requires created { (D.state desk.old).output_created ≡ true }
        ensures { DrawsRow (D.state desk.old) self.old (progress end.old) row.now result self.new (progress end.new) (D.state desk.new) }
    {
        self.strips.push(row);
        send_ready(&mut self.strips, end, &mut self.out, desk)
    }

    /// Takes a next MCU row whose blocks are all zero, and gives `end` the rows that are ready then.
    pub fn push_zero<D: Desk>(
        &mut self,
        end: &mut Box<dyn ImageEnd>,
        desk: &mut D,
    ) -> Result<(), DecodeStop>
        requires due { IsNextRowDue self.old.strips }
        requires end { IsEndOf self.old (progress end.old) }
        requires created { (D.state desk.old).output_created ≡ true }
        ensures { DrawsRow (D.state desk.old) self.old (progress end.old) (zero_row self.old.strips.display) result self.new (progress end.new) (D.state desk.new) }
    {
        self.strips.push_zero();
        send_ready(&mut self.strips, end, &mut self.out, desk)
    }

    /// States, for proofs, that fewer than 32,768 bytes of text wait, whatever was called before, and whether it failed
    /// or not. It does nothing.
    pub fn checked(&self)
        ensures { length self.now.out < 32768 }
    {
        let _ = &self.out;
    }

    /// Whether all MCU rows were taken.
    pub fn is_whole(&self) -> bool
        ensures { result ≡ (self.now.strips.pushed == all_rows self.now.strips.display) }
    {
        self.strips.is_whole()
    }

    /// Writes all text that waits. It takes no memory.
    #[tactic(auto, using(crate::proofs::Drawn::stays))]
    pub fn flush<D: Desk>(&mut self, desk: &mut D) -> Result<(), DecodeStop>
        requires { (D.state desk.old).output_created ≡ true }
        ensures sent { SendsImage (D.state desk.old) self.old.out [] result self.new.out (D.state desk.new) }
        ensures out { IfOk result (λ u. self.new.out ≡ []) }
        ensures memory { result ≡ Err stop.NoMemory → ⊥ }
        ensures stays { StaysDrawn self.old self.new }
    {
        send_any(&mut self.out, desk)
    }

    /// Writes what follows the rows, after all were given.
    pub fn finish<D: Desk>(
        &mut self,
        end: &mut Box<dyn ImageEnd>,
        desk: &mut D,
    ) -> Result<(), DecodeStop>
        requires whole { IsAllGiven self.old.strips }
        requires end { IsEndOf self.old (progress end.old) }
        requires created { (D.state desk.old).output_created ≡ true }
        ensures { EndsDrawing (D.state desk.old) self.old (progress end.old) result self.new (progress end.new) (D.state desk.new) }
    {
        send_end(end, &mut self.out, desk)?;
        send_any(&mut self.out, desk)
    }
}
