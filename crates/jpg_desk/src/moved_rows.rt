//! A picture that is read to be transformed: MCU row by MCU row where rows stay rows, so that it is never stored (the
//! manual of jpegtran; T.81, A.2.3).
ghost use Rattle.std.specs.Prelude.{◌≡◌, true, IfOk, IfSome};
ghost use Rattle.jpg_huff.specs.Encoder.{AreEncodersOf};
ghost use Rattle.jpg_spec.specs.declared.frame.Copying.{Copying as Keeping};
ghost use Rattle.jpg_spec_move.specs.Moved.{Choice as Asked};
ghost use Rattle.jpg_file.specs.Read.ReadFile.{ReaderState};
ghost use Rattle.jpg_file.specs.declared.read.picture.Picture.{Picture as Read};
ghost use Rattle.jpg_transform.specs.Planned.{choice_view};
ghost use Rattle.jpg_desk.specs.MovedRead.{CanGoOn, EndsMoved, HasKeptRows, IsInputOf, IsKeptPicture, IsNewReader, IsRowJob, IsSomeHead, MovedRead, HasMovedAll, GivesData, MovesFrom, TakesData};
ghost use Rattle.jpg_desk.specs.Stays.{Keeps, OnlyReads, OnlyWorks};
ghost use Rattle.jpg_desk.specs.Writing.{WritesMoved};

use crate::encoded_rows::{EncodedRows, OneScan, write_rows};
use crate::moved::{Wrote, write_moved};
use crate::pieces::pump;
use crate::row_picture::RowPicture;
use crate::rows_read::{RowsFront, RowsRead, read_rows};
use crate::rows_to::RowsTo;
use jpg_base::{Bytes, Desk, Name, NoMemory, Put, QuantTable};
use jpg_coefs::WrittenScan;
use jpg_file::{FedRow, Picture, Reader, SoleScan, StripHead};
use jpg_huff::{EncoderPlaces, EncoderSet, TableSet};
use jpg_spec::{Copying, Limits};
use jpg_spec_words::{Which, Why};
use jpg_transform::{Choice, Job, RowMover, plan_head, row_scan};
use std::alloc::Global;
use std::boxed::Box;

/// What was read to be transformed.
#[derive(Drop)]
pub enum MovedInput {
    /// The picture.
    Picture(Picture),
    /// The file of the transformed picture.
    Rows(EncodedRows),
}

/// Reads the file of this name to write it transformed for a choice by which rows stay rows: its picture, or, if that can
/// be written in one scan with typical tables, the file of the transformed picture; and if it ended early, after how many
/// bytes. The file is read in pieces of at most 16,384 bytes, up to its end or the one that completes it or reveals a fault.
#[inline(never)]
pub fn read_moved<D: Desk>(
    alloc: Global,
    name: &Name,
    choice: &Choice,
    desk: &mut D,
) -> Result<(MovedInput, Option<u64>), Why>
    ensures kept { Keeps (D.state desk.old) (D.state desk.new) }
    ensures read { MovedRead (choice_view choice.now) name.now (D.state desk.old) result (D.state desk.new) }
{
    match desk.open(name) {
        Put::Failed => Err(Why::OpenFault(Which::Input)),
        Put::Done => take_moved(alloc, choice, desk),
    }
}

// The same of the open input.
fn take_moved<D: Desk>(
    alloc: Global,
    choice: &Choice,
    desk: &mut D,
) -> Result<(MovedInput, Option<u64>), Why>
    requires open { (D.state desk.old).input_open ≡ true }
    ensures kept { OnlyReads (D.state desk.old) (D.state desk.new) }
    ensures read { EndsMoved (choice_view choice.now) (D.state desk.old) result (D.state desk.new) }
{
    let Ok(reader) = boxed_reader(alloc, choice.copying) else {
        return Err(Why::NoMemory);
    };
    let mut front = RowsFront {
        reader,
        piece: Bytes::new(alloc),
        answer: Ok(FedRow::More),
    };
    match pump(desk, &mut front) {
        Err(why) => Err(why),
        Ok(early) => match front.reader.strip() {
            None => Ok((MovedInput::Picture(front.reader.take()), early)),
            Some(head) => take_rows(alloc, front, head, choice, desk),
        },
    }
}

// A reader of MCU rows that keeps markers, in memory: so large a value would take much stack.
#[inline(never)]
fn boxed_reader(alloc: Global, copying: Copying) -> Result<Box<Reader, Global>, NoMemory>
    ensures is { IfOk result (λ b. IsNewReader copying b.value) }
    ensures some { (r : ReaderState) × IsNewReader copying r }
{
    let reader = Reader::strips_keeping(alloc, Limits::standard(), copying);
    match Box::new(alloc, reader) {
        Ok(reader) => Ok(reader),
        Err(_) => Err(NoMemory),
    }
}

// Takes the MCU rows of the picture with this head, which began in the last piece, and those that follow.
fn take_rows<D: Desk>(
    alloc: Global,
    front: RowsFront,
    head: StripHead,
    choice: &Choice,
    desk: &mut D,
) -> Result<(MovedInput, Option<u64>), Why>
    requires open { (D.state desk.old).input_open ≡ true }
    requires began { CanGoOn (choice_view choice.now).copying head front (D.state desk.old) }
    ensures { MovesFrom (choice_view choice.now) head front (D.state desk.old) result (D.state desk.new) }
{
    match job_for(alloc, &head, choice) {
        None => keep_rows(alloc, front, &head, desk),
        Some(job) => move_rows(alloc, front, &head, job, desk),
    }
}

// How a picture is written whose rows stay rows, in one scan with typical tables.
#[derive(Drop)]
struct RowJob {
    job: Job,
    scan: Box<SoleScan, Global>,
}

// How the picture with this head is written, if it has no fault, one scan with typical tables, and there is memory.
#[inline(never)]
fn job_for(alloc: Global, head: &StripHead, choice: &Choice) -> Option<RowJob>
    requires { IsSomeHead head.now }
    ensures { IfSome result (IsRowJob head.now (choice_view choice.now)) }
{
    let Ok(job) = plan_head(head, choice) else {
        return None;
    };
    let Ok(scan) = Box::new(alloc, row_scan(&job)?) else {
        return None;
    };
    Some(RowJob { job, scan })
}

// Puts the MCU rows into a picture.
fn keep_rows<D: Desk>(
    alloc: Global,
    front: RowsFront,
    head: &StripHead,
    desk: &mut D,
) -> Result<(MovedInput, Option<u64>), Why>
    requires open { (D.state desk.old).input_open ≡ true }
    requires began { (keeping : Keeping) × CanGoOn keeping head.now front (D.state desk.old) }
    ensures { (choice : Asked) → MovesFrom choice head.now front (D.state desk.old) result (D.state desk.new) }
{
    let Ok(picture) = RowPicture::new(alloc, &head.frame) else {
        return Err(Why::NoMemory);
    };
    match read_rows(head, front, RowsTo::Kept(picture), desk) {
        Err(why) => Err(why),
        Ok((rows, early)) => Ok((MovedInput::Picture(picture_of(rows)), early)),
    }
}

// The picture whose rows were put into one.
fn picture_of(rows: RowsRead<'_>) -> Picture
    requires { HasKeptRows rows }
    ensures { IsKeptPicture rows.entry result }
{
    let RowsRead {
        head,
        mut reader,
        to,
    } = rows;
    match to {
        RowsTo::Moved { .. } => unreachable!(),
        RowsTo::Kept(picture) => Picture {
            frame: head.frame.copy(),
            colour: head.colour,
            quants: QuantTable::copied(head.quants.as_slice()),
            coefs: picture.into_coefs(),
            kept: reader.take_kept(),
            jfif: head.jfif,
        },
    }
}

// Transforms the MCU rows, and encodes them as the data of the one scan of the output.
#[inline(never)]
fn move_rows<D: Desk>(
    alloc: Global,
    front: RowsFront,
    head: &StripHead,
    job: RowJob,
    desk: &mut D,
) -> Result<(MovedInput, Option<u64>), Why>
    requires open { (D.state desk.old).input_open ≡ true }
    requires job { (choice : Asked) × IsRowJob head.now choice job × CanGoOn choice.copying head.now front (D.state desk.old) }
    ensures { (choice : Asked) → IsRowJob head.now choice job → MovesFrom choice head.now front (D.state desk.old) result (D.state desk.new) }
{
    match rows_data(alloc, front, head, &job, desk) {
        Err(why) => Err(why),
        Ok(rows) => match Box::new(alloc, job.job.plan) {
            Err(_) => Err(Why::NoMemory),
            Ok(plan) => {
                let RowsData {
                    mut reader,
                    data,
                    early,
                } = rows;
                let file = OneScan {
                    plan,
                    kept: reader.take_kept(),
                    scan: job.scan,
                };
                Ok((MovedInput::Rows(EncodedRows { file, bytes: data }), early))
            }
        },
    }
}

// What is there once all MCU rows were moved.
#[derive(Drop)]
struct RowsData {
    // The reader.
    reader: Box<Reader, Global>,
    // The data of the output's one scan.
    data: Bytes,
    // After how many bytes the file ended early, if it did.
    early: Option<u64>,
}

// The data of the output's one scan, of the MCU rows that began in the last piece, and of those that follow.
fn rows_data<D: Desk>(
    alloc: Global,
    front: RowsFront,
    head: &StripHead,
    job: &RowJob,
    desk: &mut D,
) -> Result<RowsData, Why>
    requires open { (D.state desk.old).input_open ≡ true }
    requires job { (choice : Asked) × IsRowJob head.now choice job.now × CanGoOn choice.copying head.now front (D.state desk.old) }
    ensures { TakesData head.now front job.now (D.state desk.old) result (D.state desk.new) }
{
    let Ok(places) = places_for(alloc, &job.scan.tables) else {
        return Err(Why::NoMemory);
    };
    let scan = job.scan.as_ref();
    let encoders = EncoderSet::new(&scan.tables, places.as_ref());
    let due = &scan.due;
    let job = &job.job;
    job.plan.out.frame.checked();
    let written = WrittenScan {
        head: &due.head,
        interval: due.interval,
    };
    let mover = RowMover::new(alloc, &head.frame, job, written, encoders);
    let to = RowsTo::Moved { job, scan, mover };
    match read_rows(head, front, to, desk) {
        Err(why) => Err(why),
        Ok((rows, early)) => {
            let RowsRead { reader, to, .. } = rows;
            match data_of(to) {
                Err(NoMemory) => Err(Why::NoMemory),
                Ok(data) => Ok(RowsData {
                    reader,
                    data,
                    early,
                }),
            }
        }
    }
}

// The data of the output's one scan, where all MCU rows were moved.
fn data_of(to: RowsTo<'_>) -> Result<Bytes, NoMemory>
    requires { HasMovedAll to }
    ensures { IfOk result (GivesData to.entry) }
{
    match to {
        RowsTo::Kept(_) => unreachable!(),
        RowsTo::Moved { mover, .. } => mover.finish(),
    }
}

// The encoders of a set of tables.
#[inline(never)]
fn places_for(alloc: Global, tables: &TableSet) -> Result<Box<EncoderPlaces, Global>, NoMemory>
    ensures { IfOk result (λ p. AreEncodersOf tables.now p.value.ac) }
{
    let Ok(places) = Box::new(alloc, EncoderPlaces::new()) else {
        return Err(NoMemory);
    };
    let mut places = places;
    places.fill(tables);
    Ok(places)
}

/// Writes what was read to an output of this name: the picture transformed as the choice says, or its file as it is.
/// The output is created when it is known that the picture has no fault. It asks for no memory.
pub fn write_input<D: Desk>(
    input: &MovedInput,
    choice: &Choice,
    output: &Name,
    desk: &mut D,
) -> Wrote
    requires { (p : Read) × IsInputOf (choice_view choice.now) p input.now }
    ensures kept { OnlyWorks (D.state desk.old) (D.state desk.new) }
    ensures left { (D.state desk.new).left ≡ (D.state desk.old).left }
    ensures wrote { (p : Read) → IsInputOf (choice_view choice.now) p input.now → WritesMoved (choice_view choice.now) p output.now (D.state desk.old) result (D.state desk.new) }
{
    match input {
        MovedInput::Picture(picture) => write_moved(picture, choice, output, &None, desk),
        MovedInput::Rows(rows) => write_rows(rows, output, desk),
    }
}
