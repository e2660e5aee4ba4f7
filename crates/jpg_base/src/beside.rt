//! A new file beside the one that it replaces. Contracts don't see what the file system holds.
use crate::leftovers::remove_leftovers;
use crate::placing::Left;
use crate::system::{Holder, Identity, RealFiles};
use arrayvec::ArrayString;
use std::fmt::Write;
use std::fs;
use std::fs::{Metadata, OpenFile, OpenOptions, Permissions};
use std::io::{Error, ErrorKind};
use std::os::unix::fs::{MetadataExt, OpenOptionsExt, PermissionsExt};

/// A path: the system takes names of at most 4,095 bytes.
pub type PathText = ArrayString<4200>;

// How many names are tried for a file beside another one.
const TRIES: u32 = 1000;

// How many symbolic links are followed, as the system does.
const LINKS: u32 = 40;

// The mode of a new file, less the bits of the process's mask.
const NEW_MODE: u32 = 0o666;

// The mode of a new file that replaces another, until it has that one's owner, group and mode.
const OWN_MODE: u32 = 0o600;

// What is at a place: nothing, a file that may be written, anything else, or what can't be seen.
enum There {
    Nothing,
    Plain(Metadata),
    Other,
    Unknown,
}

/// How a complete file beside its place gets there.
#[derive(Clone, Copy)]
pub enum Way {
    /// It takes the name; nothing had it.
    New,
    /// It takes the name of the file that was found there.
    Replaces(Identity),
    /// It is copied into the file that was found there.
    IsCopied(Identity),
}

/// Where an output with a name is written.
pub enum Made<F> {
    /// Into this file beside its place.
    Beside(F),
    /// At its place, at once.
    AtOnce,
    /// Nowhere.
    Nowhere,
}

/// The place of an output, and the file beside it, which has the number of the process and one of its own in its name. It
/// isn't moved, since it would take the room of the path of the stack again at each call.
#[derive(Drop)]
pub struct Beside {
    /// The path of the place, with no symbolic link at its end.
    pub place: PathText,
    /// How the complete file gets there.
    pub way: Way,
    // The number of the process, in the name of the file beside.
    process: u32,
    // The number of its own.
    number: u32,
}

impl Beside {
    /// No place yet.
    pub fn new() -> Beside {
        Beside {
            place: ArrayString::new(),
            way: Way::New,
            process: 0,
            number: 0,
        }
    }

    /// The folder of the place, with the slash that ends it, or nothing where that is the folder of the call.
    pub fn folder(&self) -> &str {
        folder_of(self.place.as_str())
    }

    /// Writes the name of the file beside; false if it is too long.
    pub fn put_name(&self, name: &mut PathText) -> bool {
        self.put(".", name)
    }

    /// Writes the name that a complete file has while it is copied, which no call removes; false if it is too long.
    pub fn put_whole_name(&self, name: &mut PathText) -> bool {
        self.put("", name)
    }

    // Writes a name beside that begins with this; false if it is too long.
    fn put(&self, before: &str, name: &mut PathText) -> bool {
        name.clear();
        let (folder, process, number) = (self.folder(), self.process, self.number);
        write!(name, "{folder}{before}jpgsuite-{process}-{number}").is_ok()
    }

    /// Writes the name of what is left beside; false if there is nothing, or it is too long.
    pub fn put_left_name(&self, left: Left, name: &mut PathText) -> bool {
        match left {
            Left::Nothing => false,
            Left::Beside => self.put_name(name),
            Left::Whole => self.put_whole_name(name),
        }
    }

    /// Whether the name of the file beside is still that of this file and not free or of another. None if that can't
    /// be seen.
    pub fn is_of<R: RealFiles>(&self, rt: &R, file: &Metadata) -> Option<bool> {
        let mut name = ArrayString::new();
        if !self.put_name(&mut name) {
            return None;
        }
        match seen_at(rt, name.as_str()) {
            Seen::There(found) => Some(Identity::of(&found).is_same(Identity::of(file))),
            Seen::Nothing => Some(false),
            Seen::Unknown => None,
        }
    }

    // Takes the path that the output is asked for under as its place, with no symbolic link at its end; false if that
    // can't be.
    fn find_place<R: RealFiles>(&mut self, rt: &R, path: &str) -> bool {
        self.place.clear();
        if path.is_empty() || !push(&mut self.place, path) {
            return false;
        }
        for _ in 0..LINKS {
            if !self.is_link(rt) {
                return true;
            }
            if !self.follow(rt) {
                return false;
            }
        }
        false
    }

    // Whether a symbolic link is at the end of the path, and not what a process has open.
    fn is_link<R: RealFiles>(&self, rt: &R) -> bool {
        let path = self.place.as_str();
        match fs::symlink_metadata(rt, path) {
            Ok(found) => found.is_symlink() && !is_of_a_process(path),
            Err(_) => false,
        }
    }

    // Follows the symbolic link at the end of the path; false if that can't be.
    fn follow<R: RealFiles>(&mut self, rt: &R) -> bool {
        match fs::read_link(rt, self.place.as_str()) {
            Ok(target) => self.go_to(target.as_os_str()),
            Err(_) => false,
        }
    }

    // Takes what the symbolic link at the end of the path leads to as the path; false if that is too long.
    fn go_to(&mut self, target: &str) -> bool {
        let mut next: PathText = ArrayString::new();
        let is_whole = target.starts_with('/') || push(&mut next, self.folder());
        if !is_whole || !push(&mut next, target) {
            return false;
        }
        self.place.clear();
        push(&mut self.place, next.as_str())
    }

    // A file that wasn't there before, with the next name that is free, which is held. Its mode is this one, less the bits
    // of the process's mask.
    fn new_file<R: RealFiles>(&mut self, rt: &R, mode: u32) -> Result<R::File, Error> {
        let mut options = OpenOptions::new();
        options.read(true).write(true).create_new(true).mode(mode);
        self.process = rt.process();
        for number in 0..TRIES {
            self.number = number;
            if let Some(file) = self.numbered(rt, &options)? {
                return Ok(file);
            }
        }
        Err(Error::from(ErrorKind::AlreadyExists))
    }

    // A new file with the name of its number, which is held; None if the name is taken.
    fn numbered<R: RealFiles>(
        &self,
        rt: &R,
        options: &OpenOptions,
    ) -> Result<Option<R::File>, Error> {
        let mut name = ArrayString::new();
        if !self.put_name(&mut name) {
            return Err(Error::from(ErrorKind::InvalidFilename));
        }
        match options.open(rt, name.as_str()) {
            Ok(file) if self.is_held(rt, &file) => Ok(Some(file)),
            Ok(_) => Ok(None),
            Err(error) => match error.kind() {
                ErrorKind::AlreadyExists => Ok(None),
                _ => Err(error),
            },
        }
    }

    // Holds a new file; false if another call took it for a leftover meanwhile.
    fn is_held<R: RealFiles>(&self, rt: &R, file: &R::File) -> bool {
        match (R::hold(file), file.metadata()) {
            (Holder::Another, _) => false,
            (_, Ok(found)) => self.is_of(rt, &found).unwrap_or(true),
            (_, Err(_)) => true,
        }
    }

    // Gives a new file the owner, the group and the mode of the one that it replaces; whether that is done.
    fn make_like<R: RealFiles>(file: &R::File, old: &Metadata) -> bool {
        let (owner, group) = (old.uid(), old.gid());
        let is_owned = match file.metadata() {
            Ok(new) => { new.uid() == owner && new.gid() == group || R::give(file, owner, group) }
            Err(_) => false,
        };
        let mode = Permissions::from_mode(kept_mode(old.mode()));
        is_owned && file.set_permissions(mode).is_ok()
    }

    // The file beside a place that has none.
    fn beside_nothing<R: RealFiles>(&mut self, rt: &R) -> Result<R::File, Error> {
        remove_leftovers(rt, self.folder());
        self.way = Way::New;
        self.new_file(rt, NEW_MODE)
    }

    // The file beside the one that was found at the place.
    fn beside_old<R: RealFiles>(&mut self, rt: &R, old: &Metadata) -> Result<R::File, Error> {
        remove_leftovers(rt, self.folder());
        let file = self.new_file(rt, OWN_MODE)?;
        let found = Identity::of(old);
        let is_alone = old.nlink() == 1 && !is_for_group(old.mode());
        self.way = if is_alone && Beside::make_like::<R>(&file, old) {
            Way::Replaces(found)
        } else {
            Way::IsCopied(found)
        };
        Ok(file)
    }

    /// An empty file beside the place of this name, or beside where it would be. A plain file that may be written is
    /// replaced; what else has the name, and what is in a folder that takes no new name, is written at once.
    pub fn create<R: RealFiles>(&mut self, rt: &R, path: &str) -> Made<R::File> {
        if !self.find_place(rt, path) {
            return Made::Nowhere;
        }
        if is_of_a_process(self.place.as_str()) {
            return Made::AtOnce;
        }
        match found_at(rt, self.place.as_str()) {
            There::Nothing => made_of(self.beside_nothing(rt)),
            There::Plain(old) => made_of(self.beside_old(rt, &old)),
            There::Other => Made::AtOnce,
            There::Unknown => Made::Nowhere,
        }
    }
}

// Where an output is written, by what came of a file beside its place.
fn made_of<F>(file: Result<F, Error>) -> Made<F> {
    match file {
        Ok(file) => Made::Beside(file),
        Err(error) => match error.kind() {
            ErrorKind::PermissionDenied
            | ErrorKind::ReadOnlyFilesystem
            | ErrorKind::InvalidFilename => Made::AtOnce,
            _ => Made::Nowhere,
        },
    }
}

// Appends a text to a path; false if it gets too long.
fn push(path: &mut PathText, text: &str) -> bool {
    path.try_push_str(text).is_ok()
}

/// The folder of a path, with the slash that ends it.
pub fn folder_of(path: &str) -> &str {
    match path.rfind('/') {
        Some(at) => match path.split_at_checked(at + 1) {
            Some((folder, _)) => folder,
            None => "",
        },
        None => "",
    }
}

// Whether a path leads to what a process has open, such as its standard output: that has the text of a path, but needn't be
// there.
fn is_of_a_process(path: &str) -> bool {
    path.starts_with("/proc/") || path.starts_with("/dev/fd/")
}

// The mode of a new file in the place of one of this mode. The bits of the group are those of all that an access list
// names, if there is one, which the new file hasn't: so they are at most those of others.
fn kept_mode(mode: u32) -> u32 {
    mode & (0o707 | (mode & 0o7) << 3)
}

// Whether the group, or whom an access list names, may read what others may not.
fn is_for_group(mode: u32) -> bool {
    mode & 0o044 == 0o040
}

// A plain file that may be written can be replaced.
fn found_at<R: RealFiles>(rt: &R, path: &str) -> There {
    match seen_at(rt, path) {
        Seen::There(found) if found.is_file() && open_to_write(rt, path, false).is_some() => {
            There::Plain(found)
        }
        Seen::There(_) => There::Other,
        Seen::Nothing => There::Nothing,
        Seen::Unknown => There::Unknown,
    }
}

/// What has a name: nothing, this, which may be a symbolic link, or what can't be seen.
#[derive(Drop)]
pub enum Seen {
    Nothing,
    There(Metadata),
    Unknown,
}

/// What has this name.
pub fn seen_at<R: RealFiles>(rt: &R, path: &str) -> Seen {
    match fs::symlink_metadata(rt, path) {
        Ok(found) => Seen::There(found),
        Err(error) => match error.kind() {
            ErrorKind::NotFound => Seen::Nothing,
            _ => Seen::Unknown,
        },
    }
}

/// The file of this name, opened to be written, and read too if so asked; None if that can't be.
pub fn open_to_write<R: RealFiles>(rt: &R, path: &str, reads: bool) -> Option<R::File> {
    let mut options = OpenOptions::new();
    options.read(reads).write(true);
    options.open(rt, path).ok()
}
