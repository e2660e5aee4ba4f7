//! An image read, encoded and written (the manual of cjpeg).
ghost use Rattle.std.specs.Prelude.{◌≡◌, []};
ghost use Rattle.jpg_transform.specs.Planned.{scans_view};
ghost use Rattle.jpg_color.specs.Encode.{image_view};
ghost use Rattle.jpg_color.specs.EncodeView.{view_parts};
ghost use Rattle.jpg_pnm_bmp.specs.Made.{IsRightImage};
ghost use Rattle.jpg_words.specs.EncodeWords.{encode_view};
ghost use Rattle.jpg_cli.specs.Tools.EncodingAsked.{lent_tables};
ghost use Rattle.jpg_cli.specs.Tools.ImageEncoded.{Encoded, EncodedAfter, EncodedAsAsked, task_after};
ghost use Rattle.jpg_cli.specs.Tools.ImageWritten.{EncodesImage, IsEncodedBy, IsPlanOf, WritesAsItIs, WritesEncoded, WritesView};
ghost use Rattle.jpg_desk.specs.Writing.{why_wrote};
ghost use Rattle.jpg_desk.specs.Stays.{OnlyWorks};

use crate::tools::cjpeg_encoding::encoding_of;
use crate::tools::cjpeg_image::{read_encoded, why_not_encoded};
use jpg_base::{Desk, QuantTable};
use jpg_color::{EncodedImage, encode_picture};
use jpg_desk::{
    EncodedPicture, Tables, Wrote, take_scans, take_tables, write_moved, write_rows, write_view,
};
use jpg_file::{Picture, Plan};
use jpg_markers::OutHead;
use jpg_pnm_bmp::Image;
use jpg_scans::Script;
use jpg_spec::Copying;
use jpg_spec_move::Transform;
use jpg_spec_words::{Which, Why};
use jpg_transform::{Choice, Scans, counted, script_due};
use jpg_words::EncodeWords;
use std::alloc::Global;

/// Takes the scans and the tables, reads the image of the input, and writes the file of its picture to the output, as
/// the words ask for it. The file of a script and then the file of tables are read and judged before the input is
/// opened. The input is read in pieces of at most 16,384 bytes, up to the one with its last sample or its first fault.
/// The output is created when the picture is complete and has no fault, so it may have the input's name; from then on
/// no memory is asked for.
#[inline(never)]
pub fn encode<D: Desk>(alloc: Global, words: EncodeWords, desk: &mut D) -> Why
    ensures kept { OnlyWorks (D.state desk.old) (D.state desk.new) }
    ensures encoded { EncodedAsAsked (encode_view words) (D.state desk.old) result (D.state desk.new) }
{
    match take_scans(alloc, &words.script, desk) {
        Err(why) => why,
        Ok(scans) => encode_in(alloc, words, &scans, desk),
    }
}

// Takes the tables, reads the image of the input, and writes the file of its picture in these scans.
fn encode_in<D: Desk>(alloc: Global, words: EncodeWords, scans: &Scans, desk: &mut D) -> Why
    ensures kept { OnlyWorks (D.state desk.old) (D.state desk.new) }
    ensures encoded { EncodedAfter (encode_view words) (scans_view scans.now) (D.state desk.old) result (D.state desk.new) }
{
    let mut words = words;
    match take_tables(alloc, words.tables.take(), desk) {
        Err(why) => why,
        Ok(tables) => encode_by(alloc, &words, scans, tables.as_ref(), desk),
    }
}

// Reads the image of the input, and writes the file of its picture in these scans and by the tables of a file, if there
// is one.
fn encode_by<D: Desk>(
    alloc: Global,
    words: &EncodeWords,
    scans: &Scans,
    tables: Option<&Tables>,
    desk: &mut D,
) -> Why
    ensures kept { OnlyWorks (D.state desk.old) (D.state desk.new) }
    ensures encoded { Encoded (task_after [] (encode_view words.now) (scans_view scans.now) (lent_tables tables.entry)) (D.state desk.old) result (D.state desk.new) }
{
    match read_encoded(alloc, words, scans, tables, desk) {
        Err(why) => why,
        Ok(EncodedPicture::Planes(image)) => write_image(alloc, image, words, scans, desk),
        Ok(EncodedPicture::Rows(rows)) => why_wrote(write_rows(&rows, &words.files.output, desk)),
    }
}

// Writes the encoded image to the output: a sequential file block by block as they are encoded, a progressive one from
// all its blocks.
fn write_image<D: Desk>(
    alloc: Global,
    image: EncodedImage,
    words: &EncodeWords,
    scans: &Scans,
    desk: &mut D,
) -> Why
    requires { IsEncodedBy words.now (scans_view scans.now) image }
    ensures kept { OnlyWorks (D.state desk.old) (D.state desk.new) }
    ensures left { (D.state desk.new).left ≡ (D.state desk.old).left }
    ensures wrote { WritesEncoded words.now (scans_view scans.now) image (D.state desk.old) result (D.state desk.new) }
{
    if scans.progressive() {
        return match image.picture(alloc) {
            Ok(picture) => write_picture(&picture, words, scans, desk),
            Err(_) => Why::NoMemory,
        };
    }
    why_wrote(write_blocks(&image, words, scans, desk))
}

// Writes the encoded image block by block, as they are encoded. It remains a call, so that a progressive file doesn't
// need its stack.
#[inline(never)]
fn write_blocks<D: Desk>(
    image: &EncodedImage,
    words: &EncodeWords,
    scans: &Scans,
    desk: &mut D,
) -> Wrote
    requires { IsEncodedBy words.now (scans_view scans.now) image.now }
    ensures kept { OnlyWorks (D.state desk.old) (D.state desk.new) }
    ensures left { (D.state desk.new).left ≡ (D.state desk.old).left }
    ensures wrote { WritesView words.now (scans_view scans.now) image.now (D.state desk.old) result (D.state desk.new) }
{
    let script = script_due(scans, &image.frame, image.colour);
    match script.check(&image.frame) {
        Err(fault) => Wrote::Picture(fault),
        Ok(()) => {
            let plan = plan_of(image, script, words);
            write_view(&plan, &image.kept, image, &words.files.output, desk)
        }
    }
}

// How the file is written in these scans: no kept marker is passed on.
#[inline(never)]
fn plan_of(image: &EncodedImage, script: Script, words: &EncodeWords) -> Plan
    ensures { IsPlanOf words.now (view_parts image.now) script result }
{
    image.frame.checked();
    Plan {
        out: OutHead {
            frame: image.frame.copy(),
            colour: image.colour,
            quants: QuantTable::copied(image.quants.as_slice()),
            jfif: image.jfif,
            copying: Copying::None,
        },
        script,
        huffman: words.huffman,
        restart: words.restart,
    }
}

/// Makes the picture of the image, by no tables of a file, and writes it to the output.
pub fn write_encoded<D: Desk>(
    alloc: Global,
    image: &Image,
    words: &EncodeWords,
    scans: Scans,
    desk: &mut D,
) -> Why
    requires { IsRightImage (image_view image.now) }
    ensures kept { OnlyWorks (D.state desk.old) (D.state desk.new) }
    ensures left { (D.state desk.new).left ≡ (D.state desk.old).left }
    ensures wrote { EncodesImage words.now (scans_view scans) image.now (D.state desk.old) result (D.state desk.new) }
{
    counted(words.restart);
    let encoding = encoding_of(words, &scans, None, image.info.kind);
    match encode_picture(alloc, image, &encoding) {
        Err(stop) => why_not_encoded(stop),
        Ok(picture) => write_picture(&picture, words, &scans, desk),
    }
}

// A copy of the scans.
#[inline(never)]
fn copy_of(scans: &Scans) -> Scans
    ensures { scans_view result ≡ scans_view scans.now }
{
    match scans {
        Scans::Sequential => Scans::Sequential,
        Scans::Standard => Scans::Standard,
        Scans::Given(script) => Scans::Given(script.copy()),
    }
}

// Writes a picture as it is, in these scans. It remains a call, so that a sequential file doesn't need its stack.
#[inline(never)]
fn write_picture<D: Desk>(
    picture: &Picture,
    words: &EncodeWords,
    scans: &Scans,
    desk: &mut D,
) -> Why
    ensures kept { OnlyWorks (D.state desk.old) (D.state desk.new) }
    ensures left { (D.state desk.new).left ≡ (D.state desk.old).left }
    ensures wrote { WritesAsItIs words.now (scans_view scans.now) picture.now (D.state desk.old) result (D.state desk.new) }
{
    let choice = Choice {
        transform: Transform::Keep,
        trim: false,
        gray: false,
        copying: Copying::None,
        scans: copy_of(scans),
        huffman: words.huffman,
        restart: words.restart,
    };
    why_wrote(write_moved(picture, &choice, &words.files.output, &None, desk))
}

// Why the writing ended.
fn why_wrote(wrote: Wrote) -> Why
    ensures { result ≡ why_wrote wrote }
{
    match wrote {
        Wrote::Done => Why::Done,
        Wrote::Picture(fault) => Why::Picture(fault),
        Wrote::OpenFault => Why::OpenFault(Which::Output),
        Wrote::WriteFault => Why::WriteFault,
    }
}
