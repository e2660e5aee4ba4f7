//! What a desk over real files asks of the system beyond `Runtime`.
use std::fs::{File, Metadata, OpenFile, TryLockError};
use std::io::Read;
use std::os::unix::fs::{MetadataExt, fchown};
use std::rt::Runtime;
use std::{fs, process};

// The line of the system's text on limits that has the greatest size of a file.
const FILE_SIZE: &[u8] = b"Max file size";

/// Which file a name has: two names with the same numbers are of one file.
#[derive(Clone, Copy)]
pub struct Identity {
    device: u64,
    number: u64,
}

impl Identity {
    /// Of the file that was found.
    pub fn of(found: &Metadata) -> Identity {
        Identity {
            device: found.dev(),
            number: found.ino(),
        }
    }

    /// Whether an open file is a plain one with these numbers.
    pub fn is_of<F: OpenFile>(self, file: &F) -> bool {
        match file.metadata() {
            Ok(found) => found.is_file() && Identity::of(&found).is_same(self),
            Err(_) => false,
        }
    }

    /// Whether both are of one file.
    pub fn is_same(self, other: Identity) -> bool {
        self.device == other.device && self.number == other.number
    }
}

/// Who holds an open file: this process since the call, another one, or nobody knows, where files can't be held.
#[derive(Clone, Copy)]
pub enum Holder {
    Ours,
    Another,
    Unknown,
}

// The greatest size of a file by the system's text on limits; without a limit the greatest number.
fn file_limit(text: &[u8]) -> u64 {
    for line in text.split(|byte| *byte == b'\n') {
        if let Some(rest) = line.strip_prefix(FILE_SIZE) {
            return first_number(rest);
        }
    }
    u64::MAX
}

// The number that a text begins with after spaces; without one the greatest number.
fn first_number(text: &[u8]) -> u64 {
    let mut number: Option<u64> = None;
    for byte in text {
        match *byte {
            b' ' if number.is_none() => {}
            b'0'..=b'9' => {
                let digit = u64::from(*byte - b'0');
                number = Some(number.unwrap_or(0).saturating_mul(10).saturating_add(digit));
            }
            _ => break,
        }
    }
    number.unwrap_or(u64::MAX)
}

/// Real files: what they can do by their descriptors, and what the system says of the process.
pub trait RealFiles: Runtime {
    /// The number of the process.
    fn process(&self) -> u32;

    /// How many bytes a file of this process may have; a write beyond them would end it by a signal.
    fn most_bytes(&self) -> u64;

    /// The file that is read as standard input, if it can be found.
    fn standard_input(&self) -> Option<Identity>;

    /// Gives the open file to an owner and a group; whether that is done.
    fn give(file: &Self::File, owner: u32, group: u32) -> bool;

    /// Holds the open file until it is closed, if nobody holds it.
    fn hold(file: &Self::File) -> Holder;

    /// Waits until no other holds the open file, and holds it; where files can't be held, nothing.
    fn wait_for(file: &Self::File);
}

impl RealFiles for HostRuntime {
    fn process(&self) -> u32 {
        process::id(HostRuntime::process(self))
    }

    fn most_bytes(&self) -> u64 {
        let mut text = [0u8; 512];
        match fs::open(self, "/proc/self/limits") {
            Ok(mut limits) => match limits.read(&mut text) {
                Ok(count) => file_limit(&text[..count]),
                Err(_) => u64::MAX,
            },
            Err(_) => u64::MAX,
        }
    }

    fn standard_input(&self) -> Option<Identity> {
        match fs::metadata(self, "/dev/stdin") {
            Ok(found) => Some(Identity::of(&found)),
            Err(_) => None,
        }
    }

    fn give(file: &File, owner: u32, group: u32) -> bool {
        fchown(file, Some(owner), Some(group)).is_ok()
    }

    fn hold(file: &File) -> Holder {
        match file.try_lock() {
            Ok(()) => Holder::Ours,
            Err(TryLockError::WouldBlock) => Holder::Another,
            Err(TryLockError::Error(_)) => Holder::Unknown,
        }
    }

    fn wait_for(file: &File) {
        match file.lock() {
            Ok(()) => {}
            Err(_) => {}
        }
    }
}
