//! A picture read, transformed and written (the manual of jpegtran).
ghost use Rattle.std.specs.Prelude.{◌≡◌, true, false, IfSome, None};
ghost use Rattle.jpg_transform.specs.Planned.{choice_view, scans_view};
ghost use Rattle.jpg_spec_move.specs.Cropped.{IsArea};
ghost use Rattle.jpg_desk.specs.Writing.{as_early, in_area, why_wrote};
ghost use Rattle.jpg_desk.specs.Stays.{OnlyWorks};
ghost use Rattle.jpg_words.specs.TransformWords.{transform_view};
ghost use Rattle.jpg_cli.specs.Tools.Turned.{Transformed, Turned, turning_view};
ghost use Rattle.jpg_file.specs.Read.PictureRead.{picture_meaning};
ghost use Rattle.jpg_spec_upright.specs.Upright.{marked, upright_choice};
ghost use Rattle.jpg_spec_words.specs.TransformWords.{choice_asked};

use jpg_base::Desk;
use jpg_desk::{Wrote, done_as, read_moved, read_picture, take_scans, write_input, write_moved};
use jpg_exif::mark_upright;
use jpg_file::{Orders, Picture};
use jpg_spec::Copying;
use jpg_spec_move::{Area, Transform};
use jpg_spec_words::{Which, Why};
use jpg_spec_write::Huffman;
use jpg_transform::{Choice, Scans};
use jpg_words::{Files, TransformWords};
use std::alloc::Global;

/// Takes the scans of the output, reads the picture of the input, and writes it to the output, transformed and cropped
/// as the words or its Exif orientation ask for it. A script's file is read and judged before the input is opened. The input is read in pieces
/// of at most 16,384 bytes, up to the one that completes it or reveals a fault, or up to its end; from then on no
/// memory is needed. An input that ends early is transformed with what it has, and the result warns of it. The output
/// is created when the picture is complete and has no fault, so it may have the input's name.
#[inline(never)]
pub fn transform<D: Desk>(alloc: Global, words: &TransformWords, desk: &mut D) -> Why
    ensures kept { OnlyWorks (D.state desk.old) (D.state desk.new) }
    ensures transformed { Transformed (transform_view words.now) (D.state desk.old) result (D.state desk.new) }
{
    match take_scans(alloc, &words.script, desk) {
        Err(why) => why,
        Ok(scans) => {
            let choice = choice_of(words, scans);
            if words.upright {
                turn_upright(alloc, &words.files, choice, &words.crop, desk)
            } else {
                turn(alloc, &words.files, &choice, &words.crop, desk)
            }
        }
    }
}

// What the words ask for but the area, in these scans.
fn choice_of(words: &TransformWords, scans: Scans) -> Choice
    ensures { in_area words.now.crop (choice_view result) ≡ choice_asked (transform_view words.now) (scans_view scans) }
{
    Choice {
        transform: words.transform,
        trim: words.trim,
        gray: words.gray,
        copying: words.copying,
        scans,
        huffman: words.huffman,
        restart: words.restart,
    }
}

// Reads the picture of the input, and writes it to the output, transformed as the choice says and cropped to the area.
fn turn<D: Desk>(
    alloc: Global,
    files: &Files,
    choice: &Choice,
    area: &Option<Area>,
    desk: &mut D,
) -> Why
    requires { IfSome area.now IsArea }
    ensures kept { OnlyWorks (D.state desk.old) (D.state desk.new) }
    ensures turned { Turned (turning_view files.now choice.now false area.now) (D.state desk.old) result (D.state desk.new) }
{
    if area.is_none() && goes_by_rows(choice) {
        return turn_rows(alloc, files, choice, desk);
    }
    let orders = choice.orders();
    match read_picture(alloc, &files.input, choice.copying, orders, desk) {
        Err(why) => why,
        Ok((picture, early)) => ended(
            write_moved(&picture, choice, &files.output, area, desk),
            early,
        ),
    }
}

// Whether rows stay rows, and a picture may be written in one scan with typical tables: then it isn't read into memory.
fn goes_by_rows(choice: &Choice) -> bool {
    choice.keeps_rows()
        && matches!(choice.scans, Scans::Sequential)
        && choice.huffman == Huffman::Plain
}

// The same, of a choice by which rows stay rows: each MCU row is transformed as it is read, where that can be done.
fn turn_rows<D: Desk>(alloc: Global, files: &Files, choice: &Choice, desk: &mut D) -> Why
    ensures kept { OnlyWorks (D.state desk.old) (D.state desk.new) }
    ensures turned { Turned (turning_view files.now choice.now false None) (D.state desk.old) result (D.state desk.new) }
{
    match read_moved(alloc, &files.input, choice, desk) {
        Err(why) => why,
        Ok((input, early)) => ended(write_input(&input, choice, &files.output, desk), early),
    }
}

// Reads the picture of the input with all its markers, and writes it to the output, turned upright, otherwise as the
// choice says, and cropped to the area.
fn turn_upright<D: Desk>(
    alloc: Global,
    files: &Files,
    choice: Choice,
    area: &Option<Area>,
    desk: &mut D,
) -> Why
    requires { IfSome area.now IsArea }
    ensures kept { OnlyWorks (D.state desk.old) (D.state desk.new) }
    ensures turned { Turned (turning_view files.now choice true area.now) (D.state desk.old) result (D.state desk.new) }
{
    match read_picture(alloc, &files.input, Copying::All, Orders::by_rows(), desk) {
        Err(why) => why,
        Ok((picture, early)) => {
            let upright = upright_of(picture, choice);
            ended(
                write_moved(&upright.picture, &upright.choice, &files.output, area, desk),
                early,
            )
        }
    }
}

// Why transforming ended, by how the output was written, and where the input ended early.
fn ended(wrote: Wrote, early: Option<u64>) -> Why
    ensures { result ≡ as_early early (why_wrote wrote) }
{
    match wrote {
        Wrote::Done => done_as(early),
        Wrote::Picture(fault) => Why::Picture(fault),
        Wrote::OpenFault => Why::OpenFault(Which::Output),
        Wrote::WriteFault => Why::WriteFault,
    }
}

// A picture whose kept markers have orientation 1, and how it is transformed.
#[derive(Drop)]
struct Upright {
    picture: Picture,
    choice: Choice,
}

// The picture marked as upright, and the choice with the transform that its Exif orientation asks for.
fn upright_of(picture: Picture, choice: Choice) -> Upright
    ensures picture { picture_meaning result.picture ≡ marked (picture_meaning picture) }
    ensures choice { choice_view result.choice ≡ upright_choice (choice_view choice) (picture_meaning picture) }
{
    let Picture {
        frame,
        colour,
        quants,
        coefs,
        mut kept,
        jfif,
    } = picture;
    let transform = mark_upright(&mut kept);
    Upright {
        picture: Picture {
            frame,
            colour,
            quants,
            coefs,
            kept,
            jfif,
        },
        choice: Choice {
            transform,
            ..choice
        },
    }
}
