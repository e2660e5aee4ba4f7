//! The words of djpeg (its manual in release 6b).
ghost use Rattle.std.specs.Prelude.{◌≡◌, ◌+◌, ◌≤◌, length, map, drop, string_bytes};
ghost use Rattle.jpg_spec_words.specs.ShowWords.{ShowAsked, djpeg, is_whole_scale, scans_from, show_asked, show_default};
ghost use Rattle.jpg_words.specs.Requests.{IsAnswer};
ghost use Rattle.jpg_words.specs.Scans.{scans_or_one};
ghost use Rattle.jpg_words.specs.ShowWords.{IsFormat, show_said, show_view};

use crate::djpeg_request::ShowWords;
use crate::files::{FilesSaid, NO_FILES, WordsStop};
use crate::requests::{Asks, bad_value, read_request, read_words, usage};
use crate::switches::Switch;
use crate::values::{is_int, scans_named};
use jpg_base::NoMemory;
use jpg_spec_image::EndKind;
use jpg_spec_words::Purpose::{Alone, LeftOut, Valued};
use jpg_spec_words::{Flag, Setting, Usage, UsageFault};
use std::alloc::Global;

static DJPEG_SWITCHES: [Switch<'static>; 24] = [
    ("pnm", 1, Alone(Flag::Pnm)),
    ("ppm", 1, Alone(Flag::Pnm)),
    ("bmp", 1, Alone(Flag::Bmp)),
    ("targa", 1, Alone(Flag::Targa)),
    ("grayscale", 2, Alone(Flag::Gray)),
    ("greyscale", 2, Alone(Flag::Gray)),
    ("nosmooth", 3, Alone(Flag::NoSmooth)),
    ("dct", 2, Valued(Setting::Dct)),
    ("scale", 1, Valued(Setting::Scale)),
    ("outfile", 4, Valued(Setting::Output)),
    ("preview", 3, Valued(Setting::Preview)),
    ("colors", 1, LeftOut),
    ("colours", 1, LeftOut),
    ("quantize", 1, LeftOut),
    ("dither", 2, LeftOut),
    ("fast", 1, LeftOut),
    ("gif", 1, LeftOut),
    ("map", 3, LeftOut),
    ("maxmemory", 3, LeftOut),
    ("onepass", 3, LeftOut),
    ("os2", 3, LeftOut),
    ("rle", 1, LeftOut),
    ("verbose", 1, LeftOut),
    ("debug", 1, LeftOut),
];

/// What the words of djpeg ask for; the word with index 0 is the command. Words that are wrong give their first fault
/// and take no memory.
pub fn djpeg_words(alloc: Global, words: &[String]) -> Result<ShowWords, WordsStop>
    ensures { IsAnswer show_view (show_asked (drop 1 (map string_bytes words.now))) result }
{
    read_words(alloc, start_of(words), &DJPEG_SWITCHES, words)
}

/// The format that right words of djpeg ask for, and the index of the word that does.
pub fn djpeg_format(words: &[String]) -> Option<(EndKind, u64)>
    ensures { IsFormat (show_asked (drop 1 (map string_bytes words.now))) result }
{
    match read_request(start_of(words), &DJPEG_SWITCHES, words) {
        Ok(said) => Some((said.kind, said.kind_word)),
        Err(_) => None,
    }
}

// What is asked for without switches.
fn start_of<'a>(words: &'a [String]) -> ShowSaid<'a>
    ensures { show_said result ≡ show_default (length (drop 1 (map string_bytes words.now)) + 1) }
{
    ShowSaid {
        files: NO_FILES,
        kind: EndKind::Pnm,
        kind_word: words.len().max(1) as u64,
        gray: false,
        smooth: true,
        preview: 0,
    }
}

// What the words so far ask for.
#[derive(Clone, Copy)]
struct ShowSaid<'a> {
    // The input and the output.
    files: FilesSaid<'a>,
    // -pnm, -ppm, -bmp or -targa
    kind: EndKind,
    // The index of the word that says so.
    kind_word: u64,
    // -grayscale
    gray: bool,
    // No -nosmooth.
    smooth: bool,
    // -preview; 0: all scans are shown.
    preview: u16,
}

impl<'a> Asks<'a> for ShowSaid<'a> {
    type Words = ShowWords;

    ghost Asked = { ShowAsked };

    ghost tool = { djpeg };

    ghost said = { show_said };

    ghost meaning = { show_view };

    fn named(self, name: &'a str) -> Self {
        ShowSaid {
            files: self.files.from(name),
            ..self
        }
    }

    fn flag(self, flag: Flag, index: usize) -> Result<Self, Usage> {
        match flag {
            Flag::Pnm => Ok(ShowSaid {
                kind: EndKind::Pnm,
                kind_word: index as u64,
                ..self
            }),
            Flag::Bmp => Ok(ShowSaid {
                kind: EndKind::Bmp,
                kind_word: index as u64,
                ..self
            }),
            Flag::Targa => Ok(ShowSaid {
                kind: EndKind::Targa,
                kind_word: index as u64,
                ..self
            }),
            Flag::Gray => Ok(ShowSaid { gray: true, ..self }),
            Flag::NoSmooth => Ok(ShowSaid {
                smooth: false,
                ..self
            }),
            _ => Err(usage(UsageFault::UnknownSwitch, index)),
        }
    }

    fn setting(self, setting: Setting, value: &'a str, index: usize) -> Result<Self, Usage> {
        match setting {
            Setting::Output => Ok(ShowSaid {
                files: self.files.to(value),
                ..self
            }),
            Setting::Dct => match is_int(value) {
                true => Ok(self),
                false => Err(bad_value(index)),
            },
            Setting::Scale => match is_whole_scale(value) {
                true => Ok(self),
                false => Err(bad_value(index)),
            },
            Setting::Preview => match scans_named(value.as_bytes()) {
                Some(preview) => Ok(ShowSaid { preview, ..self }),
                None => Err(bad_value(index)),
            },
            _ => Err(usage(UsageFault::UnknownSwitch, index)),
        }
    }

    fn to_words(self, alloc: Global) -> Result<ShowWords, NoMemory> {
        Ok(ShowWords {
            files: self.files.to_files(alloc)?,
            kind: self.kind,
            kind_word: self.kind_word,
            gray: self.gray,
            smooth: self.smooth,
            preview: scans_from(self.preview),
        })
    }
}

// How many scans are shown, if not all are.
fn scans_from(n: u16) -> Option<u16>
    ensures scans { result ≡ scans_from n }
    ensures some { 1 ≤ scans_or_one result }
{
    match n {
        0 => None,
        n => Some(n),
    }
}

// Whether the value of -scale is right: only a scale of one is.
fn is_whole_scale(value: &str) -> bool
    ensures { result ≡ is_whole_scale value.now }
{
    value == "1/1"
}
