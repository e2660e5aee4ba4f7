//! The state of an image file that is read.
ghost use Rattle.std.specs.Prelude.{◌≡◌, ◌<◌, ◌≤◌, ◌++◌, ◌∷◌, [], ℕ, List, length, take, true, false, None, Ok, OnOk, IfSome, IfNone};
ghost use Rattle.jpg_spec_image.specs.PnmText.{is_number_due, number_fault};
ghost use Rattle.jpg_spec_image.specs.BmpFile.{palette_bytes};
ghost use Rattle.jpg_spec_image.specs.ImageFaults.{ImageHead, body_of};
ghost use Rattle.jpg_spec_image.specs.ImageSteps.{at_start, first_byte, second_byte, gap_byte, head_so_far, bmp_front, front_byte};
ghost use Rattle.jpg_pnm_bmp.specs.Known.{list_of};
ghost use Rattle.jpg_pnm_bmp.specs.Reader.{standing, numbers_list, IsEnd, IsGoingOn, HasAll, HasScale, KeepsStage, Stays, Reaches, LeadsNumber, LeadsNumberBytes, LeadsGapBytes, LeadsAfter, LeadsOn, LeadsToEnd, IsRightNext, IsDueAfter, AppendsNumber, AddsNumber, HoldsBodyPart, StretchesBy, EndsNumber, EndsRight, EndsLast};
ghost use Rattle.jpg_pnm_bmp.specs.Shapes.{body_view};
ghost use Rattle.jpg_pnm_bmp.specs.PlainSamples.{unscaled_view};
ghost use Rattle.jpg_pnm_bmp.specs.PnmSamples.{CanGiveNow, CanNotGive};

use crate::read::bmp::{bmp_offset, bmp_shape, head_fault, palette_bytes};
use crate::read::body::{Shape, part_long, pnm_shape, wrong_in};
use crate::read::numbers::{
    Numbers, begins_gap, is_due_after, is_left_out, is_plain, is_read, known_info, may_follow,
    number_fault, unscaled_info, with_digit, with_digits,
};
use crate::read::piece::{Answer, Moved, one_byte};
use crate::read::pnm_samples::ENOUGH;
use jpg_base::{Bytes, NoMemory};
use jpg_spec::Fault;
use jpg_spec_image::ImageInfo;
use jpg_texts::is_digit;
use std::alloc::Global;

// The state after the bytes so far: see ImageState of the definitions.
#[derive(Clone, Copy)]
pub enum Stage {
    Start,
    First(u8),
    Gap { some: bool, commented: bool },
    Number(u32),
    BmpHead,
    BmpFront(u32),
    PnmBody,
    BmpBody,
}

// The state of an image file that is read.
#[derive(Drop)]
pub struct Work {
    // Where the next byte is.
    pub stage: Stage,
    // Of a PNM file the byte after P.
    pub format: u8,
    // Its numbers so far.
    pub numbers: Numbers,
    // The header of a BMP file so far.
    pub head: Bytes,
    // Its palette.
    pub palette: Bytes,
    // How many samples were given away before: none where the image is made at once, and none of a BMP file.
    pub before: u64,
    // The samples after them so far, as the file has them.
    pub samples: Bytes,
    // A row of samples, while the image is made.
    pub line: Vec<u8>,
}

// A sample that isn't above the greatest one, as a byte.
fn sample_byte(n: u32, most: u8) -> u8
    requires { n ≤ most }
    ensures { result ≡ n }
{
    n.min(u32::from(most)) as u8
}

// 53 bytes and one more.
fn completed(held: &[u8], byte: u8) -> [u8; 54]
    requires { length held.now ≡ 53 }
    ensures { result ≡ held.now ++ byte ∷ [] }
{
    let mut head = [byte; 54];
    for k in 0..53usize {
        head[k] = held[k];
    }
    head
}

impl Work {
    pub fn new(alloc: Global) -> Work
        ensures stands { standing [] result ≡ at_start }
        ensures before { result.before ≡ 0 }
    {
        Work {
            stage: Stage::Start,
            format: 0,
            numbers: Numbers::Nothing,
            head: Bytes::new(alloc),
            palette: Bytes::new(alloc),
            before: 0,
            samples: Bytes::new(alloc),
            line: Vec::new(alloc),
        }
    }

    fn first_byte(&mut self, byte: u8) -> Answer
        ensures led { Reaches [] (first_byte byte) result self.new }
        ensures all { HasAll result self.new }
        ensures sparing { result ≡ Answer.NoMemory → ⊥ }
        ensures same { self.new.before ≡ self.old.before }
    {
        if byte == b'P' || byte == b'B' {
            self.stage = Stage::First(byte);
            return Answer::More;
        }
        Answer::Fault(Fault::ImageText)
    }

    fn second_byte(&mut self, first: u8, byte: u8) -> Answer
        ensures led { Reaches [] (second_byte first byte) result self.new }
        ensures all { HasAll result self.new }
        ensures asked { result ≡ Answer.NoMemory → first ≡ 66 }
        ensures same { self.new.before ≡ self.old.before }
    {
        if first == b'B' {
            return self.bmp_begun(byte);
        }
        if is_read(byte) {
            self.stage = Stage::Gap {
                some: false,
                commented: false,
            };
            self.format = byte;
            self.numbers = Numbers::Nothing;
            return Answer::More;
        }
        if is_left_out(byte) {
            return Answer::Fault(Fault::ImageUnsupported);
        }
        Answer::Fault(Fault::ImageText)
    }

    fn bmp_begun(&mut self, byte: u8) -> Answer
        ensures led { Reaches [] (second_byte 66 byte) result self.new }
        ensures all { HasAll result self.new }
        ensures same { self.new.before ≡ self.old.before }
    {
        if byte == b'M' {
            self.head.clear();
            if self.head.push_all(&[b'B', b'M']).is_err() {
                return Answer::NoMemory;
            }
            self.stage = Stage::BmpHead;
            return Answer::More;
        }
        Answer::Fault(Fault::ImageText)
    }

    fn gap_byte(&mut self, some: bool, commented: bool, byte: u8) -> Answer
        ensures led { (front : List ℕ) → Reaches front (gap_byte self.old.format (numbers_list front self.old) some commented byte) result self.new }
        ensures all { HasAll result self.new }
        ensures sparing { result ≡ Answer.NoMemory → ⊥ }
        ensures stays { Stays self.old self.new }
    {
        if commented || begins_gap(byte) {
            let commented = if commented {
                byte != b'\n'
            } else {
                byte == b'#'
            };
            self.stage = Stage::Gap {
                some: true,
                commented,
            };
            return Answer::More;
        }
        if some && is_digit(byte) {
            self.stage = Stage::Number(u32::from(byte - b'0'));
            return Answer::More;
        }
        Answer::Fault(Fault::ImageText)
    }

    fn number_byte(&mut self, n: u32, byte: u8) -> Answer
        requires { HasScale self.old.numbers }
        ensures led { LeadsNumber self.old n byte result self.new }
        ensures all { HasAll result self.new }
        ensures stays { Stays self.old self.new }
    {
        if is_digit(byte) {
            self.stage = Stage::Number(with_digit(n, byte));
            return Answer::More;
        }
        let due = is_due_after(self.format, self.numbers, self.before, self.held());
        if !may_follow(self.format, due, byte) {
            return Answer::Fault(Fault::ImageText);
        }
        match number_fault(self.numbers, n) {
            Some(fault) => Answer::Fault(fault),
            None => self.number_ended(n, due, byte),
        }
    }

    // Takes a byte of a gap, and, if it begins a number, the bytes of that and the one after it.
    #[inline(always)]
    fn gap_bytes(&mut self, some: bool, commented: bool, piece: &[u8]) -> Moved
        requires some { 1 ≤ length piece.now }
        requires scale { HasScale self.old.numbers }
        ensures some { 1 ≤ result.used }
        ensures within { result.used ≤ length piece.now }
        ensures led { LeadsGapBytes self.old some commented piece.now result self.new }
        ensures all { HasAll result.answer self.new }
        ensures stays { Stays self.old self.new }
    {
        let byte = piece[0];
        if some && !commented && is_digit(byte) {
            let rest = self.number_bytes(u32::from(byte - b'0'), &piece[1..]);
            return Moved {
                used: rest.used + 1,
                answer: rest.answer,
            };
        }
        one_byte(self.gap_byte(some, commented, byte))
    }

    // Takes the digits of a number, and the byte after them.
    fn number_bytes(&mut self, n: u32, piece: &[u8]) -> Moved
        requires { HasScale self.old.numbers }
        ensures within { result.used ≤ length piece.now }
        ensures some { 1 ≤ length piece.now → 1 ≤ result.used }
        ensures led { LeadsNumberBytes self.old n piece.now result self.new }
        ensures all { HasAll result.answer self.new }
        ensures stays { Stays self.old self.new }
    {
        let (number, long) = with_digits(n, piece);
        if long == piece.len() {
            self.stage = Stage::Number(number);
            return Moved {
                used: long,
                answer: Answer::More,
            };
        }
        let answer = self.number_byte(number, piece[long]);
        Moved {
            used: long + 1,
            answer,
        }
    }

    // A number has ended; `due` is whether a further one is expected.
    fn number_ended(&mut self, n: u32, due: bool, byte: u8) -> Answer
        requires right { IsRightNext self.old.numbers n }
        requires due { IsDueAfter self.old n due }
        requires scale { HasScale self.old.numbers }
        ensures led { LeadsAfter self.old n byte result self.new }
        ensures all { HasAll result self.new }
        ensures stays { Stays self.old self.new }
    {
        match self.add_number(n) {
            Ok(()) => {}
            Err(_) => return Answer::NoMemory,
        }
        if due {
            self.stage = Stage::Gap {
                some: true,
                commented: byte == b'#',
            };
            return Answer::More;
        }
        self.stage = Stage::PnmBody;
        if is_plain(self.format) {
            return Answer::Whole;
        }
        Answer::More
    }

    fn add_number(&mut self, n: u32) -> Result<(), NoMemory>
        requires { IsRightNext self.old.numbers n }
        ensures added { OnOk result (AppendsNumber self.old n self.new) }
        ensures kept { KeepsStage self.old self.new }
        ensures all { AddsNumber self.old.numbers self.new }
    {
        match self.numbers {
            Numbers::Nothing => self.numbers = Numbers::Width(n.min(65535) as u16),
            Numbers::Width(width) => self.numbers = Numbers::Sides(width, n.min(65535) as u16),
            Numbers::Sides(width, height) => {
                self.numbers = Numbers::All(width, height, n.min(255) as u8);
                self.samples.clear();
            }
            Numbers::All(_, _, most) => {
                return self.samples.push_all(&[sample_byte(n, most)]);
            }
        }
        Ok(())
    }

    fn head_byte(&mut self, byte: u8) -> Answer
        requires { length self.old.head < 54 }
        ensures led { Reaches [] (head_so_far (self.old.head ++ byte ∷ [])) result self.new }
        ensures all { HasAll result self.new }
        ensures same { self.new.before ≡ self.old.before }
    {
        match self.head.push_all(&[byte]) {
            Ok(()) => self.head_grown(),
            Err(_) => self.head_lost(byte),
        }
    }

    // There is no memory for a byte of the header: its fault, if it is complete with this byte and has one.
    #[cold]
    fn head_lost(&mut self, byte: u8) -> Answer
        requires { length self.old.head < 54 }
        ensures led { Reaches [] (head_so_far (self.old.head ++ byte ∷ [])) result self.new }
        ensures all { HasAll result self.new }
        ensures same { self.new.before ≡ self.old.before }
    {
        let held = self.head.as_slice();
        if held.len() < 53 {
            return Answer::NoMemory;
        }
        match head_fault(&completed(held, byte)) {
            Some(fault) => Answer::Fault(fault),
            None => Answer::NoMemory,
        }
    }

    fn head_grown(&mut self) -> Answer
        ensures led { Reaches [] (head_so_far self.old.head) result self.new }
        ensures all { HasAll result self.new }
        ensures sparing { result ≡ Answer.NoMemory → ⊥ }
        ensures same { self.new.before ≡ self.old.before }
    {
        if self.head.as_slice().len() < 54 {
            self.stage = Stage::BmpHead;
            return Answer::More;
        }
        match head_fault(self.head.as_slice()) {
            Some(fault) => Answer::Fault(fault),
            None => {
                self.palette.clear();
                self.front_so_far(0)
            }
        }
    }

    fn front_so_far(&mut self, passed: u64) -> Answer
        requires long { 54 ≤ length self.old.head }
        requires few { passed ≤ 4294967296 }
        ensures led { Reaches [] (bmp_front self.old.head self.old.palette passed) result self.new }
        ensures all { HasAll result self.new }
        ensures sparing { result ≡ Answer.NoMemory → ⊥ }
        ensures same { self.new.before ≡ self.old.before }
    {
        if 54 + passed < u64::from(bmp_offset(self.head.as_slice())) {
            self.stage = Stage::BmpFront(passed as u32);
            return Answer::More;
        }
        self.samples.clear();
        self.stage = Stage::BmpBody;
        Answer::More
    }

    fn front_byte(&mut self, passed: u32, byte: u8) -> Answer
        requires { 54 ≤ length self.old.head }
        ensures led { Reaches [] (front_byte self.old.head self.old.palette passed byte) result self.new }
        ensures all { HasAll result self.new }
        ensures asked { result ≡ Answer.NoMemory → passed < palette_bytes self.old.head }
        ensures same { self.new.before ≡ self.old.before }
    {
        if u64::from(passed) < palette_bytes(self.head.as_slice()) {
            if self.palette.push_all(&[byte]).is_err() {
                return Answer::NoMemory;
            }
        }
        self.front_so_far(u64::from(passed) + 1)
    }

    pub fn held(&self) -> u64
        ensures { result ≡ length self.now.samples }
    {
        self.samples.as_slice().len() as u64
    }

    // Keeps a part of a body too. Returns whether it is complete then.
    fn hold(&mut self, count: u64, part: &[u8]) -> Answer
        ensures part { HoldsBodyPart self.old part.now count result self.new }
        ensures stays { Stays self.old self.new }
    {
        match self.samples.push_all(part) {
            Ok(()) => {
                if self.held() < count.saturating_sub(self.before) {
                    return Answer::More;
                }
                Answer::Whole
            }
            Err(_) => Answer::NoMemory,
        }
    }

    // Takes bytes of a body, up to the end of a line's samples, or of a line.
    fn stretch(&mut self, shape: Shape, piece: &[u8]) -> Moved
        requires { 1 ≤ length piece.now }
        ensures some { 1 ≤ result.used }
        ensures within { result.used ≤ length piece.now }
        ensures led { (head : ImageHead) → body_view shape ≡ body_of head → StretchesBy head self.old piece.now result self.new }
        ensures stays { Stays self.old self.new }
    {
        let at = self.before.saturating_add(self.held());
        let long = part_long(shape, at, piece.len());
        match wrong_in(shape, at, &piece[..long]) {
            Some(wrong) => Moved {
                used: wrong + 1,
                answer: Answer::Fault(Fault::ImageValue),
            },
            None => {
                let answer = self.hold(shape.count, &piece[..long]);
                Moved { used: long, answer }
            }
        }
    }

    // The numbers of an image whose samples aren't scaled, in its body.
    pub fn unscaled(&self) -> Option<ImageInfo>
        ensures { result ≡ unscaled_view self.now }
    {
        match self.stage {
            Stage::Start => None,
            Stage::First(_) => None,
            Stage::Gap { .. } => None,
            Stage::Number(_) => None,
            Stage::BmpHead => None,
            Stage::BmpFront(_) => None,
            Stage::PnmBody => unscaled_info(self.format, self.numbers),
            Stage::BmpBody => None,
        }
    }

    // The numbers of a PNM file's image, if its samples are scaled or numbers, and enough of them are held to be given.
    pub fn giving(&self) -> Option<ImageInfo>
        ensures some { IfSome result (λ info. CanGiveNow info self.now) }
        ensures none { IfNone result (CanNotGive self.now) }
    {
        if self.held() < ENOUGH || self.unscaled().is_some() {
            return None;
        }
        match self.stage {
            Stage::Start => None,
            Stage::First(_) => None,
            Stage::Gap { .. } => known_info(self.format, self.numbers),
            Stage::Number(_) => known_info(self.format, self.numbers),
            Stage::BmpHead => None,
            Stage::BmpFront(_) => None,
            Stage::PnmBody => known_info(self.format, self.numbers),
            Stage::BmpBody => None,
        }
    }

    // Takes some of the bytes, at least one.
    pub fn advance(&mut self, piece: &[u8]) -> Moved
        requires some { 1 ≤ length piece.now }
        requires going { IsGoingOn self.old }
        ensures some { 1 ≤ result.used }
        ensures within { result.used ≤ length piece.now }
        ensures led { LeadsOn self.old piece.now result self.new }
        ensures all { HasAll result.answer self.new }
        ensures stays { Stays self.old self.new }
    {
        let byte = piece[0];
        match self.stage {
            Stage::Start => one_byte(self.first_byte(byte)),
            Stage::First(first) => one_byte(self.second_byte(first, byte)),
            Stage::Gap { some, commented } => self.gap_bytes(some, commented, piece),
            Stage::Number(n) => self.number_bytes(n, piece),
            Stage::BmpHead => one_byte(self.head_byte(byte)),
            Stage::BmpFront(passed) => one_byte(self.front_byte(passed, byte)),
            Stage::PnmBody => {
                let shape = pnm_shape(self.format, self.numbers);
                self.stretch(shape, piece)
            }
            Stage::BmpBody => {
                let shape = bmp_shape(self.head.as_slice());
                self.stretch(shape, piece)
            }
        }
    }

    // The bytes end here: a number at their end is judged.
    pub fn end(&mut self) -> Answer
        requires { IsGoingOn self.old }
        ensures led { LeadsToEnd self.old result self.new }
        ensures stops { IsEnd result }
        ensures all { HasAll result self.new }
        ensures stays { Stays self.old self.new }
    {
        match self.stage {
            Stage::Start => Answer::Fault(Fault::ImageShort),
            Stage::First(_) => Answer::Fault(Fault::ImageShort),
            Stage::Gap { .. } => Answer::Fault(Fault::ImageShort),
            Stage::Number(n) => self.number_end(n),
            Stage::BmpHead => Answer::Fault(Fault::ImageShort),
            Stage::BmpFront(_) => Answer::Fault(Fault::ImageShort),
            Stage::PnmBody => Answer::Fault(Fault::ImageShort),
            Stage::BmpBody => Answer::Fault(Fault::ImageShort),
        }
    }

    fn number_end(&mut self, n: u32) -> Answer
        requires { HasScale self.old.numbers }
        ensures led { EndsNumber self.old n result self.new }
        ensures stops { IsEnd result }
        ensures all { HasAll result self.new }
        ensures stays { Stays self.old self.new }
    {
        match number_fault(self.numbers, n) {
            Some(fault) => Answer::Fault(fault),
            None => self.right_end(n),
        }
    }

    fn right_end(&mut self, n: u32) -> Answer
        requires right { IsRightNext self.old.numbers n }
        requires scale { HasScale self.old.numbers }
        ensures led { EndsRight self.old n result self.new }
        ensures stops { IsEnd result }
        ensures all { HasAll result self.new }
        ensures stays { Stays self.old self.new }
    {
        let due = is_due_after(self.format, self.numbers, self.before, self.held());
        if is_plain(self.format) && !due {
            return self.last_end(n);
        }
        Answer::Fault(Fault::ImageShort)
    }

    fn last_end(&mut self, n: u32) -> Answer
        requires right { IsRightNext self.old.numbers n }
        requires last { IsDueAfter self.old n false }
        requires scale { HasScale self.old.numbers }
        ensures led { EndsLast self.old n result self.new }
        ensures stops { IsEnd result }
        ensures all { HasAll result self.new }
        ensures stays { Stays self.old self.new }
    {
        match self.add_number(n) {
            Ok(()) => {}
            Err(_) => return Answer::NoMemory,
        }
        self.stage = Stage::PnmBody;
        Answer::Whole
    }
}
