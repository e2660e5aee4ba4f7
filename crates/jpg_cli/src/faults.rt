//! What is said after the message that a file couldn't be opened or read: its name and, as far as the system says when it
//! is asked again, the reason. It is only said: no contract of `run` speaks of it.
use jpg_base::{Name, Text};
use jpg_spec_words::{Which, Why};
use jpg_words::{
    Asked, CommentFrom, EncodeWords, Files, ScriptFrom, TransformWords, WriteWords, read_words,
    tool_name,
};
use std::alloc::Global;
use std::fs;
use std::fs::OpenOptions;
use std::io::ErrorKind;
use std::rt::Runtime;

// The reason of a failure, in words; nothing if there are none for it.
fn reason_of(kind: ErrorKind) -> &'static str {
    match kind {
        ErrorKind::NotFound => ": there is no such file",
        ErrorKind::PermissionDenied => ": permission denied",
        ErrorKind::IsADirectory => ": it is a folder",
        ErrorKind::NotADirectory => ": a part of its path is no folder",
        ErrorKind::FilesystemLoop => ": its symbolic links lead in a circle",
        ErrorKind::InvalidFilename => ": its name is too long",
        ErrorKind::ReadOnlyFilesystem => ": its file system is read-only",
        _ => "",
    }
}

// Why a file can't be opened or read.
fn reason_to_read<R: Runtime>(rt: &R, path: &str) -> &'static str {
    match fs::metadata(rt, path) {
        Ok(found) if found.is_dir() => reason_of(ErrorKind::IsADirectory),
        Ok(found) if found.is_file() => match fs::open(rt, path) {
            Ok(_file) => "",
            Err(error) => reason_of(error.kind()),
        },
        Ok(_) => "",
        Err(error) => reason_of(error.kind()),
    }
}

// Why a file that is there can't be written. It is opened at its end, and closed again.
fn reason_to_change<R: Runtime>(rt: &R, path: &str) -> &'static str {
    match OpenOptions::new().append(true).open(rt, path) {
        Ok(_file) => ": its folder takes no new file",
        Err(error) => reason_of(error.kind()),
    }
}

// The folder of a file.
fn folder_of(path: &str) -> &str {
    match path.rsplit_once('/') {
        Some(("", _)) => "/",
        Some((folder, _)) => folder,
        None => ".",
    }
}

// Why a file that isn't there can't be made.
fn reason_to_make<R: Runtime>(rt: &R, path: &str) -> &'static str {
    match fs::metadata(rt, folder_of(path)) {
        Ok(found) if found.is_dir() => ": its folder takes no new file",
        Ok(_) => reason_of(ErrorKind::NotADirectory),
        Err(error) => match error.kind() {
            ErrorKind::NotFound => ": its folder isn't there",
            kind => reason_of(kind),
        },
    }
}

// Why an output can't be created.
fn reason_to_create<R: Runtime>(rt: &R, path: &str) -> &'static str {
    match fs::metadata(rt, path) {
        Ok(found) if found.is_dir() => reason_of(ErrorKind::IsADirectory),
        Ok(found) if found.is_file() => reason_to_change(rt, path),
        Ok(_) => "",
        Err(error) => match (error.kind(), fs::symlink_metadata(rt, path)) {
            (ErrorKind::NotFound, Ok(_)) => ": its symbolic link leads to no place",
            (ErrorKind::NotFound, Err(_)) => reason_to_make(rt, path),
            (kind, _) => reason_of(kind),
        },
    }
}

fn path_of(name: &Name) -> Option<&str> {
    match name {
        Name::File(path) => Some(path.as_str()),
        _ => None,
    }
}

fn path_of_text(text: &Option<Text>) -> Option<&str> {
    match text {
        Some(path) => Some(path.as_str()),
        None => None,
    }
}

fn path_of_script(script: &ScriptFrom) -> Option<&str> {
    match script {
        ScriptFrom::File(path) => Some(path.as_str()),
        _ => None,
    }
}

fn path_of_comment(comment: &CommentFrom) -> Option<&str> {
    match comment {
        CommentFrom::File(path) => Some(path.as_str()),
        _ => None,
    }
}

// The name of the input or the output, if it isn't a standard stream.
fn name_in(files: &Files, which: Which) -> Option<&str> {
    match which {
        Which::Input => path_of(&files.input),
        Which::Output => path_of(&files.output),
        _ => None,
    }
}

// The name that jpegtran has for one of its files.
fn jpegtran_name(words: &TransformWords, which: Which) -> Option<&str> {
    match which {
        Which::Script => path_of_script(&words.script),
        _ => name_in(&words.files, which),
    }
}

// The name that cjpeg has for one of its files.
fn cjpeg_name(words: &EncodeWords, which: Which) -> Option<&str> {
    match which {
        Which::Script => path_of_script(&words.script),
        Which::Tables => path_of_text(&words.tables),
        _ => name_in(&words.files, which),
    }
}

// The name that wrjpgcom has for one of its files.
fn wrjpgcom_name(words: &WriteWords, which: Which) -> Option<&str> {
    match which {
        Which::Comment => path_of_comment(&words.comment),
        _ => name_in(&words.files, which),
    }
}

// The file that couldn't be opened or read, if that is why.
fn file_of(why: Why) -> Option<Which> {
    match why {
        Why::OpenFault(which) => Some(which),
        Why::ReadFault(which) => Some(which),
        _ => None,
    }
}

// Why a file of this name can't be opened, read or created.
fn reason_for<R: Runtime>(rt: &R, which: Which, name: &str) -> &'static str {
    match which {
        _ if name.is_empty() => "its name is empty",
        Which::Output => reason_to_create(rt, name),
        _ => reason_to_read(rt, name),
    }
}

// Says this name, if there is one, and the reason, after the name of the command.
fn say_reason<R: Runtime>(rt: &R, words: &[String], which: Which, name: Option<&str>) {
    if let Some(name) = name {
        let tool = tool_name(words);
        let reason = reason_for(rt, which, name);
        let _ = eprintln!(rt; "{tool}: {name}{reason}");
    }
}

/// Says which file couldn't be opened or read, and why, after the name of the command; nothing after another end, of a
/// standard stream, and where there is no memory.
#[inline(never)]
pub fn say_file<R: Runtime>(rt: &R, alloc: Global, words: &[String], why: Why) {
    let Some(which) = file_of(why) else {
        return;
    };
    match read_words(alloc, words) {
        Err(_) => {}
        Ok(Asked::Jpegtran(asked)) => say_reason(rt, words, which, jpegtran_name(&asked, which)),
        Ok(Asked::Djpeg(asked)) => say_reason(rt, words, which, name_in(&asked.files, which)),
        Ok(Asked::Cjpeg(asked)) => say_reason(rt, words, which, cjpeg_name(&asked, which)),
        Ok(Asked::Rdjpgcom(files)) => say_reason(rt, words, which, name_in(&files, which)),
        Ok(Asked::Wrjpgcom(asked)) => say_reason(rt, words, which, wrjpgcom_name(&asked, which)),
        Ok(Asked::Jpgwork(_)) => {}
    }
}
