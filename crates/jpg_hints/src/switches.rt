//! Switches that other programs of this name have, and what is written here in place of them (the manuals of release 6b,
//! of libjpeg-turbo and of mozjpeg).
use std::alloc::Global;
use strsim::levenshtein;

// For each command, by its first letter, the names of switches of others, and what to write here. A word is the first
// one of its command that it is the beginning of.
static OTHERS: [(&str, &str, &str); 48] = [
    ("jc", "optimize", "write -huffman fitted"),
    ("jc", "optimise", "write -huffman fitted"),
    (
        "j",
        "perfect",
        "to see whether all blocks can be transformed, compare the outputs with and without -trim",
    ),
    (
        "j",
        "icc",
        "profiles are kept by -copy all; none can be added",
    ),
    ("j", "drop", "pictures can't be put into one another here"),
    (
        "j",
        "wipe",
        "no part of a picture can be blanked here; -crop cuts one out",
    ),
    ("j", "autorotate", "write -upright"),
    ("j", "auto-orient", "write -upright"),
    ("j", "revert", "leave it out: that is what is written"),
    ("j", "fastcrush", "leave it out: scans aren't searched here"),
    (
        "jdc",
        "arithmetic",
        "arithmetic coding isn't there; -huffman fitted makes the smallest files",
    ),
    (
        "jdc",
        "maxmemory",
        "leave it out; ulimit -v limits the memory of any call",
    ),
    (
        "jdc",
        "maxscans",
        "leave it out; ulimit -t limits the time of any call",
    ),
    (
        "jdc",
        "strict",
        "leave it out: damage is always refused, with its place",
    ),
    ("jdc", "report", "leave it out: there is no report"),
    ("jdcr", "verbose", "leave it out: nothing more can be said"),
    ("jdc", "debug", "leave it out: nothing more can be said"),
    ("jdcrw", "version", "write --version as the only word"),
    ("jdcrw", "help", "write --help as the only word"),
    (
        "d",
        "colors",
        "write a PNM, and reduce its colours with pnmquant or ImageMagick",
    ),
    (
        "d",
        "colours",
        "write a PNM, and reduce its colours with pnmquant or ImageMagick",
    ),
    (
        "d",
        "quantize",
        "write a PNM, and reduce its colours with pnmquant or ImageMagick",
    ),
    (
        "d",
        "dither",
        "write a PNM, and reduce its colours with pnmquant or ImageMagick",
    ),
    (
        "d",
        "map",
        "write a PNM, and reduce its colours with pnmremap or ImageMagick",
    ),
    ("d", "onepass", "leave it out: colours aren't reduced here"),
    (
        "d",
        "fast",
        "leave it out: the exact arithmetic is what is done",
    ),
    (
        "d",
        "gif",
        "write a PNM, and convert it with ppmtogif or ImageMagick",
    ),
    (
        "d",
        "png",
        "write a PNM, and convert it with pnmtopng or ImageMagick",
    ),
    ("d", "os2", "write -bmp, which is the format of Windows"),
    ("d", "windows", "write -bmp"),
    ("d", "tga", "write -targa"),
    (
        "d",
        "rle",
        "write a PNM, and convert it with another program",
    ),
    ("d", "rgb", "leave it out: that is what is written"),
    ("d", "rgb565", "write -pnm: there are 8 bits a sample"),
    ("d", "crop", "write jpegtran -crop WxH+X+Y FILE | djpeg"),
    ("d", "skip", "write jpegtran -crop WxH+X+Y FILE | djpeg"),
    ("d", "memsrc", "leave it out"),
    (
        "dc",
        "icc",
        "profiles aren't passed on here; exiftool -icc_profile -tagsfromfile copies one",
    ),
    (
        "c",
        "smooth",
        "smooth the image before, as pamgauss or ImageMagick do",
    ),
    (
        "c",
        "qslots",
        "leave it out: luminance has the first table, and colours have the second one",
    ),
    (
        "c",
        "fastdct",
        "leave it out: the exact arithmetic is what is done",
    ),
    ("c", "memdst", "leave it out"),
    ("c", "rgb", "leave it out: colours are stored as YCbCr"),
    (
        "c",
        "bmp",
        "leave it out: a BMP is recognised by its first bytes",
    ),
    ("c", "precision", "leave it out: there are 8 bits a sample"),
    (
        "r",
        "raw",
        "leave it out: comments are printed as release 6b prints them",
    ),
    ("rw", "outfile", "write > NAME after the call"),
    (
        "c",
        "tune",
        "leave it out: there is one kind of tables for a quality",
    ),
];

// The switches of each command, by its first letter.
static OWN: [(&str, &str); 29] = [
    ("jdcrw", "help"),
    ("j", "copy"),
    ("j", "crop"),
    ("j", "flip"),
    ("jdc", "grayscale"),
    ("jc", "huffman"),
    ("jdc", "outfile"),
    ("jc", "progressive"),
    ("jc", "restart"),
    ("j", "rotate"),
    ("jc", "scans"),
    ("j", "transpose"),
    ("j", "transverse"),
    ("j", "trim"),
    ("j", "upright"),
    ("d", "pnm"),
    ("d", "bmp"),
    ("dc", "targa"),
    ("d", "nosmooth"),
    ("dc", "dct"),
    ("d", "scale"),
    ("d", "preview"),
    ("c", "quality"),
    ("c", "baseline"),
    ("c", "sample"),
    ("c", "qtables"),
    ("w", "replace"),
    ("w", "comment"),
    ("w", "cfile"),
];

// Whether a command's first letter is among these.
fn is_of(tool: &str, letters: &str) -> bool {
    match tool.as_bytes() {
        [first, ..] => letters.as_bytes().contains(first),
        [] => false,
    }
}

// The letters of a switch, without its hyphens and what follows an equals sign.
fn letters_of(word: &str) -> &str {
    let letters = word.trim_start_matches('-');
    match letters.split_once('=') {
        Some((name, _)) => name,
        None => letters,
    }
}

// Whether a name begins with these letters, in any case.
fn begins(name: &str, letters: &str) -> bool {
    match name.as_bytes().split_at_checked(letters.len()) {
        Some((front, _)) => front.eq_ignore_ascii_case(letters.as_bytes()),
        None => false,
    }
}

/// What a command has in place of a switch of others.
pub fn written_here(tool: &str, word: &str) -> Option<&'static str> {
    let letters = letters_of(word);
    for (tools, name, text) in &OTHERS {
        if !letters.is_empty() && is_of(tool, tools) && begins(name, letters) {
            return Some(text);
        }
    }
    None
}

/// Which other command has a switch.
pub fn asked_elsewhere(tool: &str, word: &str) -> Option<&'static str> {
    let letters = letters_of(word);
    for (tools, name) in &OWN {
        if 2 <= letters.len() && !is_of(tool, tools) && begins(name, letters) {
            return Some(command_of(tools));
        }
    }
    None
}

// The commands that have a switch, by their first letters.
fn command_of(tools: &str) -> &'static str {
    match tools {
        "j" => "that is a switch of jpegtran",
        "d" => "that is a switch of djpeg",
        "c" => "that is a switch of cjpeg",
        "w" => "that is a switch of wrjpgcom",
        "jc" => "that is a switch of jpegtran and cjpeg",
        "dc" => "that is a switch of djpeg and cjpeg",
        _ => "that is a switch of jpegtran, djpeg and cjpeg",
    }
}

/// The switch of a command whose name is nearest: at most two letters have to be changed, left out or put in.
pub fn nearest(alloc: Global, tool: &str, word: &str) -> Option<&'static str> {
    let letters = letters_of(word);
    let mut found = None;
    let mut least = 3;
    for (tools, name) in &OWN {
        let changes = if is_of(tool, tools) {
            levenshtein(alloc, letters, name).unwrap_or(3)
        } else {
            3
        };
        if changes < least {
            least = changes;
            found = Some(*name);
        }
    }
    found
}
