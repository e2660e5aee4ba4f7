//! Files that a killed call left beside a place. Contracts don't see what the file system holds.
use crate::beside::{PathText, open_to_write};
use crate::system::{Holder, Identity, RealFiles};
use arrayvec::ArrayString;
use std::fmt::Write;
use std::fs;
use std::io::Read;

// How many times the folder is read, which ends the reading of one that grows.
const READS: u32 = 1_000_000;

// From how many bytes on a folder is large: some thousand names, which take longer to read than a small picture to write.
const LARGE: u64 = 131_072;

// In a large folder one call of so many looks for leftovers.
const SELDOM: u32 = 64;

/// Removes what killed calls left in a folder: files with names of this program that nobody holds.
pub fn remove_leftovers<R: RealFiles>(rt: &R, folder: &str) {
    let path = if folder.is_empty() { "./" } else { folder };
    if is_searched(rt, path) {
        match rt.open_dir(path) {
            Ok(mut names) => remove_listed(rt, folder, &mut names),
            Err(_) => {}
        }
    }
}

// Whether this call looks for leftovers in the folder of this path.
fn is_searched<R: RealFiles>(rt: &R, path: &str) -> bool {
    match fs::metadata(rt, path) {
        Ok(found) => found.len() < LARGE || rt.process() % SELDOM == 0,
        Err(_) => false,
    }
}

// Removes the leftovers of a folder whose names are read.
fn remove_listed<R: RealFiles, N: Read>(rt: &R, folder: &str, names: &mut N) {
    let mut buffer = [0u8; 4096];
    for _ in 0..READS {
        match names.read(&mut buffer) {
            Ok(0) => return,
            Ok(count) => remove_named(rt, folder, &buffer[..count]),
            Err(_) => return,
        }
    }
}

// Removes the leftovers among names, each of which a zero ends.
fn remove_named<R: RealFiles>(rt: &R, folder: &str, names: &[u8]) {
    for name in names.split(|byte| *byte == 0) {
        if is_ours(name) {
            remove_leftover(rt, folder, name);
        }
    }
}

// Whether a name is that of a file beside a place.
fn is_ours(name: &[u8]) -> bool {
    match name.strip_prefix(b".jpgsuite-") {
        Some(rest) => rest
            .iter()
            .all(|byte| *byte == b'-' || byte.is_ascii_digit()),
        None => false,
    }
}

// Writes the path of a file in a folder; false if it is too long, or the name no text.
fn put_path(folder: &str, name: &[u8], path: &mut PathText) -> bool {
    match str::from_utf8(name) {
        Ok(name) => write!(path, "{folder}{name}").is_ok(),
        Err(_) => false,
    }
}

// Removes a file that nobody holds.
fn remove_leftover<R: RealFiles>(rt: &R, folder: &str, name: &[u8]) {
    let mut path: PathText = ArrayString::new();
    if put_path(folder, name, &mut path) {
        match fs::symlink_metadata(rt, path.as_str()) {
            Ok(found) if found.is_file() => {
                remove_found(rt, path.as_str(), Identity::of(&found));
            }
            _ => {}
        }
    }
}

// Removes the file that was found under this path, if nobody holds it. It is opened so that a pipe of this name doesn't
// wait, and is held until it is removed.
fn remove_found<R: RealFiles>(rt: &R, path: &str, found: Identity) {
    match open_to_write(rt, path, true) {
        Some(file) if found.is_of(&file) && is_left::<R>(&file) => match fs::remove_file(rt, path) {
            Ok(()) => {}
            Err(_) => {}
        },
        _ => {}
    }
}

// Holds an open file; whether nobody else does.
fn is_left<R: RealFiles>(file: &R::File) -> bool {
    match R::hold(file) {
        Holder::Ours => true,
        Holder::Another | Holder::Unknown => false,
    }
}
