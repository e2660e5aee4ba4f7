//! How a complete file beside its place gets there. Contracts don't see what the file system holds.
ghost use Rattle.std.specs.Prelude.{◌≤◌};

use crate::Put;
use crate::beside::{Beside, PathText, Seen, Way, open_to_write, seen_at};
use crate::system::{Identity, RealFiles};
use arrayvec::ArrayString;
use std::fs;
use std::fs::OpenFile;
use std::io::{ErrorKind, Read, Seek, SeekFrom, Write};

/// What is left beside a place, because it can't be removed, or because the place has a part of it.
#[derive(Clone, Copy)]
pub enum Left {
    Nothing,
    /// The file beside, under its first name.
    Beside,
    /// The complete file, under the name that no call removes.
    Whole,
}

/// What came of a file beside its place: whether it is there and stored, and what is left.
#[derive(Clone, Copy)]
pub struct Placed {
    pub put: Put,
    pub left: Left,
}

/// It is done, and nothing is left.
pub const DONE: Placed = Placed {
    put: Put::Done,
    left: Left::Nothing,
};

const FAILED: Placed = Placed {
    put: Put::Failed,
    left: Left::Nothing,
};

const NOT_SEEN: Placed = Placed {
    put: Put::Failed,
    left: Left::Beside,
};

/// Stores a complete file, and puts it into its place.
pub fn place<R: RealFiles>(rt: &R, file: R::File, beside: &Beside) -> Placed {
    match file.metadata() {
        Ok(found) => match beside.is_of(rt, &found) {
            Some(true) if found.len() > 0 => place_bytes(rt, file, beside),
            Some(true) => removed(rt, beside, Left::Beside, Put::Done),
            Some(false) => FAILED,
            None => NOT_SEEN,
        },
        Err(_) => removed(rt, beside, Left::Beside, Put::Failed),
    }
}

// Stores a complete file that has bytes, and puts it into its place.
fn place_bytes<R: RealFiles>(rt: &R, file: R::File, beside: &Beside) -> Placed {
    if file.sync_all().is_err() {
        return removed(rt, beside, Left::Beside, Put::Failed);
    }
    match beside.way {
        Way::IsCopied(old) => copy(rt, file, beside, old),
        Way::New => rename(rt, file, beside, None),
        Way::Replaces(old) => rename(rt, file, beside, Some(old)),
    }
}

/// Removes what is left beside, after this was done with it.
pub fn removed<R: RealFiles>(rt: &R, beside: &Beside, left: Left, put: Put) -> Placed {
    let mut name: PathText = ArrayString::new();
    let is_named = beside.put_left_name(left, &mut name);
    let left = if is_named && fs::remove_file(rt, name.as_str()).is_ok() {
        Left::Nothing
    } else {
        left
    };
    Placed { put, left }
}

// What came of a rename: it is done, the name can't be exchanged, or it failed for another reason.
enum Renamed {
    Done,
    Kept,
    Failed,
}

// Gives a file another name.
fn give_name<R: RealFiles>(rt: &R, name: &str, new: &str) -> Renamed {
    match fs::rename(rt, name, new) {
        Ok(()) => Renamed::Done,
        Err(error) => match error.kind() {
            ErrorKind::CrossesDevices | ErrorKind::ResourceBusy | ErrorKind::PermissionDenied =>
                Renamed::Kept,
            _ => Renamed::Failed,
        },
    }
}

// Gives the file beside the name of its place.
fn rename<R: RealFiles>(rt: &R, file: R::File, beside: &Beside, old: Option<Identity>) -> Placed {
    let mut name: PathText = ArrayString::new();
    if !beside.put_name(&mut name) {
        return FAILED;
    }
    match (give_name(rt, name.as_str(), beside.place.as_str()), old) {
        (Renamed::Done, _) => stored(rt, beside, DONE),
        (Renamed::Kept, Some(old)) => copy(rt, file, beside, old),
        (Renamed::Kept, None) => link(rt, beside, name.as_str()),
        (Renamed::Failed, _) => removed(rt, beside, Left::Beside, Put::Failed),
    }
}

// Gives the file beside the name of its place, which nothing has, as a second name.
fn link<R: RealFiles>(rt: &R, beside: &Beside, name: &str) -> Placed {
    match fs::hard_link(rt, name, beside.place.as_str()) {
        Ok(()) => {
            let done = removed(rt, beside, Left::Beside, Put::Done);
            stored(rt, beside, done)
        }
        Err(_) => removed(rt, beside, Left::Beside, Put::Failed),
    }
}

/// Waits until an open file is stored; what stores nothing, such as a device, is done.
pub fn synced<F: OpenFile>(file: &F) -> Put {
    match file.sync_all() {
        Ok(()) => Put::Done,
        Err(error) => match error.kind() {
            ErrorKind::InvalidInput | ErrorKind::Unsupported => Put::Done,
            _ => Put::Failed,
        },
    }
}

// Waits until the folder of the place is stored, as far as it can be opened and stores anything: what came of it then.
fn stored<R: RealFiles>(rt: &R, beside: &Beside, done: Placed) -> Placed {
    let folder = beside.folder();
    let put = match fs::open(rt, if folder.is_empty() { "." } else { folder }) {
        Ok(folder) => synced(&folder),
        Err(_) => Put::Done,
    };
    match put {
        Put::Done => done,
        Put::Failed => Placed {
            put,
            left: done.left,
        },
    }
}

// Copies the complete file into the one at its place.
fn copy<R: RealFiles>(rt: &R, file: R::File, beside: &Beside, old: Identity) -> Placed {
    match opened(rt, beside, old) {
        Some(to) => copy_into(rt, file, beside, to),
        None => removed(rt, beside, Left::Beside, Put::Failed),
    }
}

// Copies the complete file into this one, which is at its place. While that is done it has a name that no call removes,
// unless its folder lets no name be taken away.
fn copy_into<R: RealFiles>(rt: &R, file: R::File, beside: &Beside, to: R::File) -> Placed {
    R::wait_for(&to);
    match take_whole_name(rt, beside) {
        Some(left) => copy_named(rt, file, beside, to, left),
        None => removed(rt, beside, Left::Beside, Put::Failed),
    }
}

// Copies the complete file, which has this name, into the one at its place.
fn copy_named<R: RealFiles>(
    rt: &R,
    file: R::File,
    beside: &Beside,
    to: R::File,
    left: Left,
) -> Placed {
    let named = Placed {
        put: Put::Done,
        left,
    };
    let copied = match stored(rt, beside, named).put {
        Put::Done => copy_parts(file, to),
        Put::Failed => Copied::Nothing,
    };
    match copied {
        Copied::All => {
            let done = removed(rt, beside, left, Put::Done);
            stored(rt, beside, done)
        }
        Copied::Nothing => removed(rt, beside, left, Put::Failed),
        Copied::Partly => Placed {
            put: Put::Failed,
            left,
        },
    }
}

// The file at the place, if it is still the one that was found there.
fn opened<R: RealFiles>(rt: &R, beside: &Beside, old: Identity) -> Option<R::File> {
    match open_to_write(rt, beside.place.as_str(), false) {
        Some(file) if old.is_of(&file) => Some(file),
        _ => None,
    }
}

// Gives the file beside the name of a complete file. The name that it has then; none if that one is taken, or a rename fails
// for another reason than that it can't be exchanged.
fn take_whole_name<R: RealFiles>(rt: &R, beside: &Beside) -> Option<Left> {
    let mut name: PathText = ArrayString::new();
    let mut whole: PathText = ArrayString::new();
    if !beside.put_name(&mut name) || !beside.put_whole_name(&mut whole) {
        return None;
    }
    match seen_at(rt, whole.as_str()) {
        Seen::Nothing => left_as(give_name(rt, name.as_str(), whole.as_str())),
        _ => None,
    }
}

// The name that a complete file has after it was to be given one.
fn left_as(renamed: Renamed) -> Option<Left> {
    match renamed {
        Renamed::Done => Some(Left::Whole),
        Renamed::Kept => Some(Left::Beside),
        Renamed::Failed => None,
    }
}

// How much of a file was copied into another one: all of it, nothing that was not undone, or a part.
enum Copied {
    All,
    Nothing,
    Partly,
}

// Copies first what makes the other file longer, which is undone if there is no room for it, or if no more can be copied.
fn copy_parts<F: Read + Write + Seek + OpenFile + Drop>(file: F, to: F) -> Copied {
    let (mut from, mut to) = (file, to);
    match (length_of(&from), length_of(&to)) {
        (Some(new), Some(old)) => copy_over(&mut from, &mut to, new, old),
        _ => Copied::Nothing,
    }
}

// How many bytes an open file has, if that can be seen.
fn length_of<F: OpenFile>(file: &F) -> Option<u64> {
    match file.metadata() {
        Ok(found) => Some(found.len()),
        Err(_) => None,
    }
}

// Copies a file of this new length over one of this old length.
fn copy_over<F: Read + Write + Seek + OpenFile>(
    from: &mut F,
    to: &mut F,
    new: u64,
    old: u64,
) -> Copied {
    let more = new.saturating_sub(old);
    if copy_part(from, to, old, more) < more || more > 0 && to.sync_all().is_err() {
        return undone(to, old);
    }
    let copied = copy_part(from, to, 0, new - more);
    if copied == 0 && copied < new - more {
        return undone(to, old);
    }
    if copied == new - more && to.set_len(new).is_ok() && to.sync_all().is_ok() {
        Copied::All
    } else {
        Copied::Partly
    }
}

// Takes from a file what was added to it, after which it is as it was.
fn undone<F: OpenFile>(file: &F, old: u64) -> Copied {
    match file.set_len(old) {
        Ok(()) => Copied::Nothing,
        Err(_) => Copied::Partly,
    }
}

// Copies this many bytes from a place on; how many were copied.
fn copy_part<F: Read + Write + Seek>(from: &mut F, to: &mut F, at: u64, count: u64) -> u64
    ensures { result ≤ count }
{
    if to.seek(SeekFrom::Start(at)).is_err() {
        return 0;
    }
    let mut buffer = [0u8; 8192];
    let mut done = 0;
    while done < count {
        let some = copy_some(from, to, at.saturating_add(done), count - done, &mut buffer);
        if some == 0 {
            return done;
        }
        done += some;
    }
    done
}

// Copies some bytes from a place on, at most so many; how many were copied.
fn copy_some<F: Read + Write + Seek>(
    from: &mut F,
    to: &mut F,
    at: u64,
    most: u64,
    buffer: &mut [u8; 8192],
) -> u64
    ensures { result ≤ most }
{
    if from.seek(SeekFrom::Start(at)).is_err() {
        return 0;
    }
    let most = most.min(8192) as usize;
    match from.read(&mut buffer[..most]) {
        Ok(read) => match to.write(&buffer[..read]) {
            Ok(written) => written as u64,
            Err(_) => 0,
        },
        Err(_) => 0,
    }
}
