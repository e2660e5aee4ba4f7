//! Standard streams that were closed before the program began: no file that it opens may take their numbers.
use std::fs;
use std::fs::File;
use std::os::fd::AsRawFd;

// The number of the last standard stream.
const LAST: i32 = 2;

// A descriptor of a folder, which can neither be read nor written, if the next number is that of a standard stream.
fn hold_next(rt: &HostRuntime) -> Option<File> {
    let held = fs::open(rt, "/").ok()?;
    if held.as_raw_fd() <= LAST {
        Some(held)
    } else {
        None
    }
}

/// Takes the numbers of the standard streams that are closed, until what it returns is dropped: reading and writing them
/// fails as before.
pub fn hold_streams(rt: &HostRuntime) -> [Option<File>; 3] {
    [hold_next(rt), hold_next(rt), hold_next(rt)]
}
