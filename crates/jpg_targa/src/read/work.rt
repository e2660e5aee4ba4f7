//! The state of a Targa file that is read.
ghost use Rattle.std.specs.Prelude.{◌≡◌, ◌<◌, ◌≤◌, ◌+◌, ◌-◌, ◌++◌, ◌∷◌, [], ℕ, List, length, take, None, OnOk};
ghost use Rattle.jpg_spec_image.specs.TargaFile.{targa_fault};
ghost use Rattle.jpg_spec_image.specs.TargaSteps.{at_start, total, in_pixels, body_begun, identifier_left, head_so_far, packet_byte, copied, copies_so_far, pixels_so_far, with_copies, run};
ghost use Rattle.jpg_targa.specs.declared.read.work.Work.{Work as Worked};
ghost use Rattle.jpg_targa.specs.Reader.{standing, standing_of, after_pixels, Reaches, Leads, LeadsOn, HasRoom, IsBody, Stays, HasAll, Grows, AddsCopies, CanStretch, StretchesBy};

use crate::read::head::{head_fault, is_packed, size, total};
use jpg_base::{Bytes, NoMemory};
use jpg_pnm_bmp::{Answer, Moved, one_byte};
use jpg_spec::Fault;
use std::alloc::Global;

// The state after the bytes so far: see TargaState of the definitions.
#[derive(Clone, Copy)]
pub enum Stage {
    Head(usize),
    Identifier(u8),
    Packet,
    Copies(u8),
    Pixels(u64),
}

// The state of a Targa file that is read.
#[derive(Drop)]
pub struct Work {
    // Where the next byte is.
    pub stage: Stage,
    // The header so far.
    pub head: [u8; 18],
    // The pixel that is to be copied, so far.
    pub pixel: Bytes,
    // How many bytes of pixels were given away before: none where the image is made at once.
    pub before: u64,
    // The bytes of the pixels after them so far, in the file's order.
    pub pixels: Bytes,
    // Memory for a row of the image that is made of them.
    pub line: Vec<u8>,
}

// A number of bytes, at least one, up to those that are left, those that are missing, and at most `most`.
fn part_long(left: u64, missing: u64, most: usize) -> usize
    requires { 1 ≤ most }
    ensures some { 1 ≤ result }
    ensures within { result ≤ most }
    ensures left { 1 ≤ left → result ≤ left }
    ensures missing { 1 ≤ missing → result ≤ missing }
    ensures far { result < most → result < left → missing ≤ result }
{
    left.min(missing).min(most as u64).max(1) as usize
}

// After pixels of a packet, of which so many bytes are left.
fn after_pixels(left: u64) -> Stage
    ensures stands { (front : List ℕ) (w : Worked) → standing_of front result w ≡ after_pixels front left w }
    ensures body { IsBody result }
{
    if left == 0 {
        return Stage::Packet;
    }
    Stage::Pixels(left)
}

// Appends copies of a pixel of one byte, without those that pass the end.
fn add_grays(pixels: &mut Bytes, gray: u8, count: u8, end: u64) -> Result<(), NoMemory>
    ensures { AddsCopies end count (gray ∷ []) result pixels.old pixels.new }
{
    let missing = end.saturating_sub(pixels.as_slice().len() as u64);
    let part = missing.min(u64::from(count)) as usize;
    match pixels.push_all(&[gray; 255][..part]) {
        Ok(()) => Ok(()),
        Err(fault) => Err(fault),
    }
}

// Appends copies of a pixel, without those that pass the end.
fn add_copies(pixels: &mut Bytes, pixel: &[u8], count: u8, end: u64) -> Result<(), NoMemory>
    ensures { AddsCopies end count pixel.now result pixels.old pixels.new }
{
    if let [gray] = pixel {
        return add_grays(pixels, *gray, count, end);
    }
    for done in 0..count {
        let missing = end.saturating_sub(pixels.as_slice().len() as u64);
        let part = missing.min(pixel.len() as u64) as usize;
        match pixels.push_all(&pixel[..part]) {
            Ok(()) => {}
            Err(fault) => return Err(fault),
        }
    }
    Ok(())
}

impl Work {
    pub fn new(alloc: Global) -> Work
        ensures stands { standing [] result ≡ at_start }
        ensures before { result.before ≡ 0 }
    {
        Work {
            stage: Stage::Head(0),
            head: [0; 18],
            pixel: Bytes::new(alloc),
            before: 0,
            pixels: Bytes::new(alloc),
            line: Vec::new(alloc),
        }
    }

    fn head_byte(&mut self, n: usize, byte: u8) -> Answer
        ensures led { n < 18 → Reaches [] (head_so_far (take n self.old.head ++ byte ∷ [])) result self.new }
        ensures all { HasAll result self.new }
        ensures sparing { result ≡ Answer.NoMemory → 18 ≤ n }
        ensures same { self.new.before ≡ self.old.before }
    {
        if n >= 18 {
            return Answer::NoMemory;
        }
        self.head[n] = byte;
        if n < 17 {
            self.stage = Stage::Head(n + 1);
            return Answer::More;
        }
        self.head_grown()
    }

    fn head_grown(&mut self) -> Answer
        ensures led { Reaches [] (head_so_far self.old.head) result self.new }
        ensures all { HasAll result self.new }
        ensures sparing { result ≡ Answer.NoMemory → ⊥ }
        ensures same { self.new.before ≡ self.old.before }
    {
        match head_fault(&self.head) {
            Some(fault) => Answer::Fault(fault),
            None => self.identifier_left(self.head[0]),
        }
    }

    fn identifier_left(&mut self, left: u8) -> Answer
        ensures led { Reaches [] (identifier_left self.old.head left) result self.new }
        ensures all { HasAll result self.new }
        ensures sparing { result ≡ Answer.NoMemory → ⊥ }
        ensures same { self.new.before ≡ self.old.before }
    {
        if left == 0 {
            return self.begin();
        }
        self.stage = Stage::Identifier(left);
        Answer::More
    }

    fn begin(&mut self) -> Answer
        ensures led { Reaches [] (body_begun self.old.head) result self.new }
        ensures all { HasAll result self.new }
        ensures sparing { result ≡ Answer.NoMemory → ⊥ }
        ensures same { self.new.before ≡ self.old.before }
    {
        self.pixels.clear();
        if is_packed(&self.head) {
            self.stage = Stage::Packet;
            return Answer::More;
        }
        self.stage = Stage::Pixels(total(&self.head));
        Answer::More
    }

    fn packet_byte(&mut self, byte: u8) -> Answer
        ensures led { Leads self.old (λ front. packet_byte self.old.head (front ++ self.old.pixels) byte) result self.new }
        ensures all { HasAll result self.new }
        ensures sparing { result ≡ Answer.NoMemory → ⊥ }
        ensures stays { Stays self.old self.new }
    {
        if byte < 128 {
            self.stage = Stage::Pixels((u64::from(byte) + 1) * u64::from(size(&self.head)));
            return Answer::More;
        }
        self.pixel.clear();
        self.stage = Stage::Copies(byte - 127);
        Answer::More
    }

    fn copies_byte(&mut self, count: u8, byte: u8) -> Answer
        ensures led { HasRoom self.old → Leads self.old (λ front. copies_so_far self.old.head (front ++ self.old.pixels) count (self.old.pixel ++ byte ∷ [])) result self.new }
        ensures all { HasAll result self.new }
        ensures stays { Stays self.old self.new }
    {
        match self.pixel.push_all(&[byte]) {
            Ok(()) => self.copies_so_far(count),
            Err(_) => Answer::NoMemory,
        }
    }

    fn copies_so_far(&mut self, count: u8) -> Answer
        ensures led { HasRoom self.old → Leads self.old (λ front. copies_so_far self.old.head (front ++ self.old.pixels) count self.old.pixel) result self.new }
        ensures all { HasAll result self.new }
        ensures stays { Stays self.old self.new }
    {
        if self.pixel.as_slice().len() < usize::from(size(&self.head)) {
            self.stage = Stage::Copies(count);
            return Answer::More;
        }
        let end = self.due();
        match add_copies(&mut self.pixels, self.pixel.as_slice(), count, end) {
            Ok(()) => self.grown(Stage::Packet),
            Err(_) => Answer::NoMemory,
        }
    }

    // How many bytes the pixels have from those in `pixels` on.
    pub fn due(&self) -> u64
        ensures { result ≡ total self.now.head - self.now.before }
    {
        total(&self.head).saturating_sub(self.before)
    }

    // Goes on at a stage, if pixels are missing.
    fn grown(&mut self, stage: Stage) -> Answer
        ensures led { Grows self.old stage result self.new }
        ensures all { HasAll result self.new }
        ensures stays { IsBody stage → Stays self.old self.new }
    {
        if (self.pixels.as_slice().len() as u64) < self.due() {
            self.stage = stage;
            return Answer::More;
        }
        Answer::Whole
    }

    // Takes bytes of pixels, up to the end of the packet, of the image, or of the piece.
    fn stretch(&mut self, left: u64, piece: &[u8]) -> Moved
        requires { 1 ≤ length piece.now }
        ensures some { 1 ≤ result.used }
        ensures within { result.used ≤ length piece.now }
        ensures led { CanStretch left self.old → StretchesBy left self.old piece.now result self.new }
        ensures all { HasAll result.answer self.new }
        ensures stays { Stays self.old self.new }
    {
        let held = self.pixels.as_slice().len() as u64;
        let long = part_long(left, self.due().saturating_sub(held), piece.len());
        match self.pixels.push_all(&piece[..long]) {
            Ok(()) => {
                let left = left.saturating_sub(long as u64);
                Moved {
                    used: long,
                    answer: self.grown(after_pixels(left)),
                }
            }
            Err(_) => Moved {
                used: long,
                answer: Answer::NoMemory,
            },
        }
    }

    // Takes some of the bytes, at least one.
    pub fn advance(&mut self, piece: &[u8]) -> Moved
        requires { 1 ≤ length piece.now }
        ensures some { 1 ≤ result.used }
        ensures within { result.used ≤ length piece.now }
        ensures led { LeadsOn self.old piece.now result self.new }
        ensures all { HasAll result.answer self.new }
        ensures stays { Stays self.old self.new }
    {
        let byte = piece[0];
        match self.stage {
            Stage::Head(n) => one_byte(self.head_byte(n, byte)),
            Stage::Identifier(left) => one_byte(self.identifier_left(left.saturating_sub(1))),
            Stage::Packet => one_byte(self.packet_byte(byte)),
            Stage::Copies(count) => one_byte(self.copies_byte(count, byte)),
            Stage::Pixels(left) => self.stretch(left, piece),
        }
    }
}
