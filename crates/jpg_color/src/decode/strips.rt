//! A picture row by row, while its MCU rows are read.
ghost use Rattle.std.specs.Prelude.{◌≡◌, ◌<◌, ◌≤◌, ◌+◌, ◌*◌, ◌==◌, ℕ, Bool, IfNone, IfOk, IfSome, None, false, if◌then◌else◌, length, map, slice_index_or, All};
ghost use Rattle.jpg_spec.specs.Geometry.{bounds, div_up, v_max};
ghost use Rattle.jpg_spec.specs.Lists.{below, any_of};
ghost use Rattle.jpg_spec_image.specs.Pixels.{is_colour_out};
ghost use Rattle.jpg_spec.specs.Ranges.{AreInRange};
ghost use Rattle.jpg_spec_image.specs.Strips.{needed};
ghost use Rattle.jpg_spec_image.specs.Upsampling.{has_far_rows};
ghost use Rattle.jpg_coefs.specs.Picture.{map_of};
ghost use Rattle.jpg_file.specs.Read.PictureKept.{IsStripHead};
ghost use Rattle.jpg_color.specs.PartState.{AreSized, CanDraw, CanFill, CanFillGray, head_picture, no_rows, drawn, filled, grayed_part};
ghost use Rattle.jpg_color.specs.Shown.{Advances, IsNextRowDue, IsFreshRows, IsMcuRow, IsPushed, IsShowable, all_rows, at_due, at_top, display_fault, display_of, parts, rows_made_ready, rows_in, zero_row};
ghost use Rattle.jpg_color.specs.StripsState.{AreNewParts, AreWide, HasMcuRow, coloured, coloured_length, line_at, part_at, start_of};

use crate::decode::kinds::is_gray;
use crate::decode::part::{Part, bytes};
use crate::decode::rgb::{interleaved_row, rgb_row};
use crate::decode::sample_rows::SampleRows;
use arrayvec::ArrayVec;
use jpg_base::{Frame, NoMemory, QuantTable};
use jpg_coefs::Coefs;
use jpg_file::StripHead;
use jpg_spec::Colour;
use std::alloc::Global;
use std::marker::Model;
use std::vec::Vec;

/// A picture that is displayed row by row, while its MCU rows are read: it keeps the rows of samples of the last of
/// these and the one above them, for each component that is displayed. It takes memory only in `new`.
#[derive(Drop)]
pub struct Strips {
    // The frame header of the picture.
    frame: Frame,
    // Its colours.
    colour: Colour,
    // The quantisation table of each component.
    quants: ArrayVec<QuantTable, 4>,
    // Only luminance is displayed.
    gray: bool,
    // Rows are smoothed where they are upsampled.
    smooth: bool,
    // How many MCU rows were pushed.
    pushed: u32,
    // How many rows of the image were given.
    given: u32,
    // How many MCU rows the picture has.
    all: u32,
    // Lines of the image in an MCU row.
    lines: u32,
    // The last line of an MCU row needs the row of samples after it.
    waits: bool,
    // The components that are displayed.
    parts: Vec<Part>,
    // The last row of the image that was given.
    last: Vec<u8>,
}

impl Model for Strips {
    ghost use Rattle.jpg_color.specs.Shown.{ShownState};
    ghost use Rattle.jpg_color.specs.StripsState.{AreStrips, shown_of, display_for};

    ghost Value = { ShownState };

    ghost view = { λ s. shown_of (display_for s.frame s.colour s.quants.items s.gray s.smooth) s.pushed s.given s.parts.items s.last.items };

    ghost invariant = { λ s. AreStrips (display_for s.frame s.colour s.quants.items s.gray s.smooth) s.pushed s.given s.parts.items s.last.items s.all s.lines s.waits };
}

// How many components are displayed.
fn needed_parts(colour: Colour, gray: bool) -> u8
    ensures { result ≡ needed colour gray }
{
    if is_gray(colour, gray) { 1 } else { 3 }
}

// The bytes of a row of the image.
fn row_bytes(colour: Colour, gray: bool, width: u32) -> usize
    requires { width ≤ 65500 }
    ensures value { result ≡ coloured_length colour gray width }
    ensures few { result ≤ 1000000 }
{
    if is_gray(colour, gray) {
        width as usize
    } else {
        3 * width as usize
    }
}

// The lines of the image in an MCU row.
fn mcu_lines(frame: &Frame) -> u32
    ensures value { result ≡ (if length frame.now.components == 1 then 8 else 8 * v_max frame.now) }
    ensures bounds { (1 ≤ result) × (result ≤ 32) }
{
    if frame.count() == 1 {
        8
    } else {
        8 * u32::from(frame.v_max())
    }
}

// The MCU rows of a picture.
fn mcu_rows(height: u32, lines: u32) -> u32
    requires height { height ≤ 65500 }
    requires lines { (1 ≤ lines) × (lines ≤ 32) }
    ensures { result ≡ div_up height lines }
{
    (height + lines - 1) / lines
}

// The first components of a picture, without rows.
fn new_parts(
    alloc: Global,
    head: &StripHead,
    count: u8,
    smooth: bool,
) -> Result<Vec<Part>, NoMemory>
    requires head { IsStripHead head.now }
    requires there { count ≤ length head.now.frame.components }
    requires sizes { AreSized head.now smooth count }
    ensures { IfOk result (λ v. AreNewParts (head_picture head.now) smooth count v.items) }
{
    let Ok(mut parts) = Vec::with_capacity(alloc, count as usize) else {
        return Err(NoMemory);
    };
    for i in 0..count {
        let part = Part::new(alloc, head, i, smooth)?;
        match parts.push(part) {
            Ok(()) => {}
            Err(_) => return Err(NoMemory),
        }
    }
    Ok(parts)
}

// Whether rows of some part are made from two rows of samples.
fn is_any_waiting(parts: &[Part]) -> bool
    ensures { result ≡ any_of (λ i. has_far_rows (part_at parts.now i).stretch) (below (length parts.now)) }
{
    let mut any = false;
    for i in 0..parts.len() {
        any = any || parts[i].is_waiting();
    }
    any
}

fn fill_parts(parts: &mut [Part], coefs: &Coefs, whole: bool, pushed: u32)
    requires { All (CanFill coefs.now whole pushed) parts.old }
    ensures { parts.new ≡ map (filled coefs.now whole pushed) parts.old }
{
    for i in 0..parts.len() {
        parts[i].fill(coefs, whole, pushed);
    }
}

fn gray_parts(parts: &mut [Part], pushed: u32)
    requires { All (CanFillGray pushed) parts.old }
    ensures { parts.new ≡ map (grayed_part pushed) parts.old }
{
    for i in 0..parts.len() {
        parts[i].fill_gray(pushed);
    }
}

fn draw_parts(parts: &mut [Part], y: u32, pushed: u32)
    requires { All (CanDraw y pushed) parts.old }
    ensures { parts.new ≡ map (drawn y pushed) parts.old }
{
    for i in 0..parts.len() {
        parts[i].draw(y, pushed);
    }
}

// The line of part i, cut to this width.
fn line_of(parts: &[Part], i: usize, width: usize) -> &[u8]
    requires there { i < length parts.now }
    requires wide { width ≤ (part_at parts.now i).stretch.across * (part_at parts.now i).stretch.wide }
    ensures value { result.now ≡ line_at width parts.now i }
    ensures long { length result.now ≡ width }
{
    &parts[i].line()[..width]
}

// Makes the row of the image from the lines of the parts.
fn colour(colour: Colour, gray: bool, width: usize, parts: &[Part], last: &mut [u8])
    requires shown { is_colour_out colour gray ≡ false }
    requires parts { AreWide colour gray width parts.now }
    requires room { length last.old ≡ coloured_length colour gray width }
    ensures { last.new ≡ coloured colour gray width parts.now }
{
    let first = line_of(parts, 0, width);
    if is_gray(colour, gray) {
        last.copy_from_slice(first);
        return;
    }
    let second = line_of(parts, 1, width);
    let third = line_of(parts, 2, width);
    if colour == Colour::YCbCr {
        rgb_row(first, second, third, last);
    } else {
        interleaved_row(first, second, third, last);
    }
}

impl Strips {
    /// Strips before the first row of a picture and its first MCU row. Returns NoMemory if there is no memory.
    pub fn new(
        alloc: Global,
        head: &StripHead,
        gray: bool,
        smooth: bool,
    ) -> Result<Strips, NoMemory>
        requires head { IsStripHead head.now }
        requires admitted { display_fault (display_of head.now gray smooth) ≡ None }
        ensures { IfOk result (λ s. IsFreshRows head.now gray smooth s) }
    {
        let frame = head.frame.copy();
        frame.checked();
        let count = needed_parts(head.colour, gray);
        let parts = new_parts(alloc, head, count, smooth)?;
        let last = bytes(alloc, row_bytes(head.colour, gray, frame.width()))?;
        let lines = mcu_lines(&frame);
        let all = mcu_rows(frame.height(), lines);
        let waits = is_any_waiting(&parts);
        Ok(Strips {
            frame,
            colour: head.colour,
            quants: QuantTable::copied(head.quants.as_slice()),
            gray,
            smooth,
            pushed: 0,
            given: 0,
            all,
            lines,
            waits,
            parts,
            last,
        })
    }

    // How many rows of the image are made of the MCU rows so far.
    fn ready(&self) -> u32
        ensures value { result ≡ rows_made_ready self.now.display self.now.pushed }
        ensures low { self.now.given ≤ result }
        ensures high { result ≤ 65500 }
    {
        if self.pushed == self.all {
            self.frame.height()
        } else if self.waits {
            (self.lines * self.pushed).saturating_sub(1)
        } else {
            self.lines * self.pushed
        }
    }

    // Takes the blocks of the next MCU row: those of a complete picture, or of only this MCU row.
    fn take(&mut self, coefs: &Coefs, whole: bool)
        requires due { IsNextRowDue self.old }
        requires blocks { HasMcuRow self.old whole coefs.now }
        ensures { IsPushed self.old (start_of whole self.old) coefs.now self.new }
    {
        fill_parts(&mut self.parts, coefs, whole, self.pushed);
        self.pushed += 1;
    }

    /// Takes the blocks of the next MCU row, which are stored without the rest of the picture. All rows that were ready
    /// must have been given.
    pub fn push(&mut self, row: &Coefs)
        requires due { IsNextRowDue self.old }
        requires row { IsMcuRow self.old.display.frame row.now }
        ensures { IsPushed self.old at_top row.now self.new }
    {
        self.checked();
        self.take(row, false);
    }

    /// Takes the blocks of the next MCU row, which are among those of the complete picture.
    pub(crate) fn push_from(&mut self, coefs: &Coefs)
        requires due { IsNextRowDue self.old }
        requires frame { coefs.now.frame ≡ self.old.display.frame }
        requires range { AreInRange (bounds self.old.display.frame) (map_of coefs.now) }
        ensures { IsPushed self.old (at_due self.old) coefs.now self.new }
    {
        self.checked();
        self.take(coefs, true);
    }

    /// Takes the next MCU row, if all of its blocks are zero, as `push` takes it.
    pub fn push_zero(&mut self)
        requires due { IsNextRowDue self.old }
        ensures { IsPushed self.old at_top (zero_row self.old.display) self.new }
    {
        self.checked();
        gray_parts(&mut self.parts, self.pushed);
        self.pushed += 1;
    }

    /// Goes to the next row of the image, which `row` lends then. Returns false exactly if all rows that are made of
    /// the MCU rows so far were given.
    pub(crate) fn advance(&mut self) -> bool
        ensures { Advances self.old result self.new }
    {
        if self.given == self.ready() {
            return false;
        }
        draw_parts(&mut self.parts, self.given, self.pushed);
        let width = self.frame.width() as usize;
        colour(self.colour, self.gray, width, &self.parts, &mut self.last);
        self.given += 1;
        true
    }

    /// The current row of the image.
    pub(crate) fn row(&self) -> &[u8]
        ensures { result.now ≡ self.now.last }
    {
        &self.last
    }

    /// Whether all MCU rows were taken.
    pub fn is_whole(&self) -> bool
        ensures { result ≡ (self.now.pushed == all_rows self.now.display) }
    {
        self.pushed == self.all
    }

    /// States, for proofs, that the picture can be displayed. It does nothing.
    pub(crate) fn checked(&self)
        ensures { IsShowable self.now.display }
    {
        let _ = &self.pushed;
    }

    /// The rows of samples that are kept of a component: at most those of an MCU row and the one above. None are kept of
    /// components that aren't displayed.
    pub fn held(&self, component: u8) -> Option<&SampleRows>
        ensures displayed { IfSome result (λ rows. component < parts self.now.display) }
        ensures value { IfSome result (λ rows. rows.now ≡ slice_index_or self.now.held component no_rows) }
        ensures few { IfSome result (λ rows. length rows.now.rows ≤ 8 * rows_in self.now.display component + 1) }
        ensures none { IfNone result (parts self.now.display ≤ component) }
    {
        if self.parts.len() <= component as usize {
            return None;
        }
        Some(self.parts[component as usize].rows())
    }
}
