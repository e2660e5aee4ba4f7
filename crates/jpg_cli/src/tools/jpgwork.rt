//! An image made from a number, encoded, rotated, rotated back and decoded; and what is reported of it.
ghost use Rattle.std.specs.Prelude.{◌≡◌, ◌≤◌, IfSome, None, length, map, true};
ghost use Rattle.jpg_spec_image.specs.declared.image.EndKind.TheVariants as kind;
ghost use Rattle.jpg_spec_image.specs.ImageText.{pnm_header};
ghost use Rattle.jpg_spec_words.specs.Work.{first_picture, first_text, turned_picture, turned_text, work_info, work_text};
ghost use Rattle.jpg_desk.specs.Stays.{OnlyWorks};
ghost use Rattle.jpg_words.specs.TransformWords.{script_view};
ghost use Rattle.jpg_cli.specs.Tools.Ends.{AreNewEnds, formats_of, has_format};
ghost use Rattle.jpg_cli.specs.Tools.Worked.{DidWork, HasFile, HoldsInput, ReportsShown, ShowsFile, TurnsFile, WritesReport, work_choice, scans_by};

use crate::tools::cjpeg::write_encoded;
use crate::tools::image_writer::{has_end, show_by};
use crate::tools::jpegtran::transform;
use crate::tools::work_image::image_of;
use crate::tools::work_lines::{WorkFiles, lines_of, samples_sum};
use jpg_base::{Bytes, Desk, MemoryDesk, Name, Put};
use jpg_pnm_bmp::ImageEnd;
use jpg_spec::Copying;
use jpg_spec_image::EndKind;
use jpg_spec_move::Transform;
use jpg_spec_words::{Usage, UsageFault, Which, Why};
use jpg_transform::{Huffman, Restart, Scans};
use jpg_words::{EncodeWords, Factors, Files, ScriptFrom, ShowWords, TransformWords};
use std::alloc::Global;

// The most bytes that a desk in memory gives in a read.
const PIECE: u32 = 16384;

/// Does the work of this number, and writes its five lines to standard output. The steps are those of the commands,
/// each over a desk in memory of its own, on which a call fails only if there is no memory. The decoded image goes
/// through the first of the image writers that makes PNM; if there is none, which is looked at first, the words are
/// wrong. The output is created when the lines are known; from then on no memory is asked for.
#[inline(never)]
pub fn do_work<D: Desk>(alloc: Global, size: u16, desk: &mut D, ends: Vec<Box<dyn ImageEnd>>) -> Why
    requires small { size ≤ 400 }
    requires ends { AreNewEnds (map (λ e. progress e) ends.items) }
    ensures kept { OnlyWorks (D.state desk.old) (D.state desk.new) }
    ensures worked { DidWork (has_format kind.Pnm (formats_of (map (λ e. progress e) ends.items))) size (D.state desk.old) result (D.state desk.new) }
{
    if !has_end(&ends, EndKind::Pnm) {
        return Why::Usage(Usage {
            fault: UsageFault::NoEnd,
            word: 2,
        });
    }
    match report_of(alloc, size, ends) {
        None => Why::NoMemory,
        Some(report) => write_report(report.as_slice(), desk),
    }
}

// Writes a text to standard output.
fn write_report<D: Desk>(report: &[u8], desk: &mut D) -> Why
    ensures kept { OnlyWorks (D.state desk.old) (D.state desk.new) }
    ensures left { (D.state desk.new).left ≡ (D.state desk.old).left }
    ensures wrote { WritesReport report.now (D.state desk.old) result (D.state desk.new) }
{
    match desk.create(&Name::Out) {
        Put::Failed => Why::OpenFault(Which::Output),
        Put::Done => match desk.write(report) {
            Put::Done => Why::Done,
            Put::Failed => Why::WriteFault,
        },
    }
}

// The five lines of this number; none if there is no memory.
fn report_of(alloc: Global, size: u16, ends: Vec<Box<dyn ImageEnd>>) -> Option<Bytes>
    requires small { size ≤ 400 }
    requires ends { AreNewEnds (map (λ e. progress e) ends.items) }
    requires has { has_format kind.Pnm (formats_of (map (λ e. progress e) ends.items)) ≡ true }
    ensures { IfSome result (λ text. text ≡ work_text size) }
{
    let Some(first) = first_file(alloc, size) else {
        return None;
    };
    match turned_file(alloc, first.output(0), Transform::Rotate90, false) {
        None => None,
        Some(turned) => report_turned(alloc, size, &first, &turned, ends),
    }
}

// The five lines, by the desks with the first two files; none if there is no memory.
fn report_turned(
    alloc: Global,
    size: u16,
    first: &MemoryDesk,
    turned: &MemoryDesk,
    ends: Vec<Box<dyn ImageEnd>>,
) -> Option<Bytes>
    requires small { size ≤ 400 }
    requires first { HasFile (first_picture size) (first_text size) first.now }
    requires turned { HasFile (turned_picture size) (turned_text size) turned.now }
    requires ends { AreNewEnds (map (λ e. progress e) ends.items) }
    requires has { has_format kind.Pnm (formats_of (map (λ e. progress e) ends.items)) ≡ true }
    ensures { IfSome result (λ text. text ≡ work_text size) }
{
    let Some(back) = turned_file(alloc, turned.output(0), Transform::Rotate270, true) else {
        return None;
    };
    match shown_file(alloc, back.output(0), ends) {
        None => None,
        Some(shown) => {
            let files = WorkFiles {
                first: first.output(0),
                turned: turned.output(0),
                back: back.output(0),
            };
            report_shown(alloc, size, files, shown.output(0))
        }
    }
}

// The five lines, by the texts of the three files and of the image; none if there is no memory.
fn report_shown(alloc: Global, size: u16, files: WorkFiles, image: &[u8]) -> Option<Bytes>
    requires small { size ≤ 400 }
    requires header { length (pnm_header (work_info size)) ≤ length image.now }
    ensures { ReportsShown size files.entry.first.now files.entry.turned.now files.entry.back.now image.now result }
{
    let Some(samples) = samples_sum(size, image) else {
        return None;
    };
    match lines_of(alloc, size, files, samples) {
        Ok(lines) => Some(lines),
        Err(_) => None,
    }
}

// A desk whose output is the first file; none if there is no memory. It remains a call, as do the next steps, so that
// no step needs the stack of another.
#[inline(never)]
fn first_file(alloc: Global, size: u16) -> Option<MemoryDesk>
    requires { size ≤ 400 }
    ensures { IfSome result (HasFile (first_picture size) (first_text size)) }
{
    let Some(image) = image_of(alloc, size) else {
        return None;
    };
    let words = EncodeWords {
        files: Files {
            input: Name::In,
            output: Name::Out,
        },
        targa: false,
        quality: None,
        gray: false,
        baseline: false,
        script: ScriptFrom::Standard,
        huffman: Huffman::Plain,
        restart: Restart::Off,
        factors: Factors::new(),
        tables: None,
    };
    let mut desk = MemoryDesk::new(alloc, PIECE);
    match write_encoded(alloc, &image, &words, Scans::Standard, &mut desk) {
        Why::Done => Some(desk),
        _ => None,
    }
}

// A desk that has these bytes as standard input; none if there is no memory.
fn desk_of(alloc: Global, input: &[u8]) -> Option<MemoryDesk>
    ensures { IfSome result (HoldsInput input.now) }
{
    let mut desk = MemoryDesk::new(alloc, PIECE);
    match desk.add_file(&Name::In, input) {
        Ok(()) => Some(desk),
        Err(_) => None,
    }
}

// The default scans of a kind.
fn scans_from(progressive: bool) -> ScriptFrom
    ensures { script_view result ≡ scans_by progressive }
{
    if progressive {
        ScriptFrom::Standard
    } else {
        ScriptFrom::Sequential
    }
}

// A desk whose output is the file of the transformed picture of another file; none if there is no memory.
#[inline(never)]
fn turned_file(
    alloc: Global,
    input: &[u8],
    transformed: Transform,
    progressive: bool,
) -> Option<MemoryDesk>
    ensures { TurnsFile (work_choice transformed progressive) input.now result }
{
    let Some(mut desk) = desk_of(alloc, input) else {
        return None;
    };
    let words = TransformWords {
        files: Files {
            input: Name::In,
            output: Name::Out,
        },
        transform: transformed,
        upright: false,
        trim: false,
        gray: false,
        crop: None,
        copying: Copying::Comments,
        script: scans_from(progressive),
        huffman: Huffman::Plain,
        restart: Restart::Off,
    };
    match transform(alloc, &words, &mut desk) {
        Why::Done => Some(desk),
        _ => None,
    }
}

// A desk whose output is the image of a file; none if there is no memory.
#[inline(never)]
fn shown_file(alloc: Global, input: &[u8], ends: Vec<Box<dyn ImageEnd>>) -> Option<MemoryDesk>
    requires ends { AreNewEnds (map (λ e. progress e) ends.items) }
    requires has { has_format kind.Pnm (formats_of (map (λ e. progress e) ends.items)) ≡ true }
    ensures { ShowsFile input.now result }
{
    let Some(mut desk) = desk_of(alloc, input) else {
        return None;
    };
    let words = ShowWords {
        files: Files {
            input: Name::In,
            output: Name::Out,
        },
        kind: EndKind::Pnm,
        kind_word: 2,
        gray: false,
        smooth: true,
        preview: None,
    };
    match show_by(alloc, &words, &mut desk, ends) {
        Why::Done => Some(desk),
        _ => None,
    }
}
