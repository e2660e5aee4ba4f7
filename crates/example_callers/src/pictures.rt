//! A picture read, and transformed without loss, by `jpg_file` and `jpg_transform` (T.81, B.2; the manual of jpegtran).
ghost use Rattle.jpg_file.specs.Read.PictureRead.{picture_meaning};
ghost use Rattle.jpg_transform.specs.Planned.{IsJobFor, choice_view};
ghost use Rattle.example_callers.specs.Calling.{IsPictureOf, IsTurned, IsTurnedCoefs, HoldsTurned};

use jpg_base::{Desk, MemoryDesk, Name, Put};
use jpg_file::{End, Fed, Limits, Picture, Reader, Stop, write_file};
use jpg_transform::{Choice, Coefs, Job, Moved, PictureFault, apply, plan};
use std::alloc::Global;

/// Why a file isn't transformed.
#[derive(Clone, Copy, Debug, PartialEq, Eq)]
pub enum NotTurned {
    /// The file is refused, or there is no memory.
    Stop(Stop),
    /// The picture can't be converted to grayscale.
    Picture(PictureFault),
}

/// The picture of a file, complete or ended early. Returns the file's first fault, at the number of bytes that
/// reveal it, Truncated at the file's length and InputTooLong at 2^40 among them, and NoMemory. Bytes after EOI are
/// ignored.
pub fn read_picture(alloc: Global, file: &[u8]) -> Result<Picture, Stop>
    ensures { IsPictureOf file.now result }
{
    let mut reader = Reader::new(alloc, Limits::standard());
    match reader.feed(file) {
        Ok(Fed::Done { .. }) => Ok(reader.take()),
        Ok(Fed::More) => match reader.end() {
            End::Early(_) => Ok(reader.take()),
            End::Stop(stop) => Err(stop),
        },
        Err(stop) => Err(stop),
    }
}

/// A desk whose one output, named `Name::Out`, has the file of the transformed picture. Returns what `read_picture`
/// stops at, the picture's fault if it can't be converted to grayscale, or NoMemory.
pub fn turn(alloc: Global, file: &[u8], choice: &Choice) -> Result<MemoryDesk, NotTurned>
    ensures { IsTurned file.now (choice_view choice.now) result }
{
    let picture = match read_picture(alloc, file) {
        Ok(picture) => picture,
        Err(stop) => return Err(NotTurned::Stop(stop)),
    };
    match plan(&picture, choice) {
        Ok(job) => write_turned(alloc, &picture, choice, &job),
        Err(fault) => Err(NotTurned::Picture(fault)),
    }
}

/// The file of the transformed picture, as the job says, in a desk as `turn` returns it.
pub fn write_turned(
    alloc: Global,
    picture: &Picture,
    choice: &Choice,
    job: &Job,
) -> Result<MemoryDesk, NotTurned>
    requires { IsJobFor picture.now (choice_view choice.now) job.now }
    ensures { HoldsTurned (choice_view choice.now) (picture_meaning picture.now) result }
{
    let moved = Moved::new(picture, job);
    let mut desk = MemoryDesk::new(alloc, 1);
    match desk.create(&Name::Out) {
        Put::Failed => Err(NotTurned::Stop(Stop::NoMemory)),
        Put::Done => match write_file(&job.plan, &picture.kept, &moved, &mut desk) {
            Ok(()) => Ok(desk),
            Err(_) => Err(NotTurned::Stop(Stop::NoMemory)),
        },
    }
}

/// The coefficients of the transformed picture, without a file. Returns the same stops and faults.
pub fn turn_coefs(alloc: Global, file: &[u8], choice: &Choice) -> Result<Coefs, NotTurned>
    ensures { IsTurnedCoefs file.now (choice_view choice.now) result }
{
    let picture = match read_picture(alloc, file) {
        Ok(picture) => picture,
        Err(stop) => return Err(NotTurned::Stop(stop)),
    };
    let job = match plan(&picture, choice) {
        Ok(job) => job,
        Err(fault) => return Err(NotTurned::Picture(fault)),
    };
    match apply(alloc, &picture, &job) {
        Ok(coefs) => Ok(coefs),
        Err(_) => Err(NotTurned::Stop(Stop::NoMemory)),
    }
}
