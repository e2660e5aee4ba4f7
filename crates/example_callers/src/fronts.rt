//! The picture that the first scans of a file give, by `jpg_preview` (T.81, B.2.1, G.1.1.1).
ghost use Rattle.std.specs.Prelude.{◌≤◌};
ghost use Rattle.example_callers.specs.FirstScans.{IsFirstScansOf};

use jpg_preview::{End, Fed, Limits, Picture, Preview, Stop};
use std::alloc::Global;

/// The picture after so many scans of a file, or after the first later one with which each component is in some scan;
/// of a file with fewer scans, or one that ends before, all of its picture. Returns the first fault of the bytes up to
/// the marker after that scan, and NoMemory. What follows them isn't looked at.
pub fn first_scans(alloc: Global, file: &[u8], scans: u16) -> Result<Picture, Stop>
    requires { 1 ≤ scans }
    ensures { IsFirstScansOf scans file.now result }
{
    let mut preview = Preview::new(alloc, Limits::standard(), scans);
    match preview.feed(file) {
        Ok(Fed::Done { .. }) => Ok(preview.take()),
        Ok(Fed::More) => match preview.end() {
            End::Early(_) => Ok(preview.take()),
            End::Stop(stop) => Err(stop),
        },
        Err(stop) => Err(stop),
    }
}
