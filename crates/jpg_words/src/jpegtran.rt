//! The words of jpegtran (its manual in release 6b).
ghost use Rattle.std.specs.Prelude.{◌≡◌, ◌<◌, IfOk, map, drop, string_bytes};
ghost use Rattle.jpg_spec_move.specs.Cropped.{IsArea};
ghost use Rattle.jpg_words.specs.Areas.{area_or_one};
ghost use Rattle.jpg_spec_words.specs.Requests.{with_value};
ghost use Rattle.jpg_spec_words.specs.TransformWords.{TransformAsked, copying_named, flip_named, jpegtran, rotation_named, transform_asked, transform_number, with_progressive, with_transform, with_upright};
ghost use Rattle.jpg_words.specs.Files.{text_view};
ghost use Rattle.jpg_words.specs.Requests.{AnswersWords, IsAnswer};
ghost use Rattle.jpg_words.specs.TransformWords.{area_said, script_said, script_view, transform_said, transform_view};

use crate::areas::area_named;
use crate::files::{Files, FilesSaid, NO_FILES, WordsStop};
use crate::jpegtran_request::TransformWords;
use crate::requests::{Asks, bad_value, read_words, usage};
use crate::switches::{Switch, abbreviates};
use crate::values::{huffman_named, number_of, restart_named};
use jpg_base::{NoMemory, Text};
use jpg_scans::Restart;
use jpg_spec::Copying;
use jpg_spec_move::{Area, Transform};
use jpg_spec_words::Purpose::{Alone, LeftOut, Valued};
use jpg_spec_words::{Flag, Setting, Usage, UsageFault};
use jpg_spec_write::Huffman;
use std::alloc::Global;

static JPEGTRAN_SWITCHES: [Switch<'static>; 21] = [
    ("copy", 1, Valued(Setting::Copy)),
    ("crop", 2, Valued(Setting::Crop)),
    ("flip", 1, Valued(Setting::Flip)),
    ("grayscale", 1, Alone(Flag::Gray)),
    ("greyscale", 1, Alone(Flag::Gray)),
    ("huffman", 1, Valued(Setting::Huffman)),
    ("outfile", 4, Valued(Setting::Output)),
    ("progressive", 1, Alone(Flag::Progressive)),
    ("restart", 1, Valued(Setting::Restart)),
    ("rotate", 2, Valued(Setting::Rotate)),
    ("scans", 1, Valued(Setting::Scans)),
    ("transpose", 1, Alone(Flag::Transpose)),
    ("transverse", 6, Alone(Flag::Transverse)),
    ("trim", 3, Alone(Flag::Trim)),
    ("upright", 1, Alone(Flag::Upright)),
    ("optimize", 1, LeftOut),
    ("optimise", 1, LeftOut),
    ("arithmetic", 1, LeftOut),
    ("verbose", 1, LeftOut),
    ("debug", 1, LeftOut),
    ("maxmemory", 3, LeftOut),
];

/// The source of the scans that a picture is written in: the default sequential or progressive ones, or the script in
/// the file of this name.
#[derive(Drop)]
pub enum ScriptFrom {
    Sequential,
    Standard,
    File(Text),
}

/// What the words of jpegtran ask for; the word with index 0 is the command. Words that are wrong give their first
/// fault and take no memory.
pub fn jpegtran_words(alloc: Global, words: &[String]) -> Result<TransformWords, WordsStop>
    ensures { IsAnswer transform_view (transform_asked (drop 1 (map string_bytes words.now))) result }
{
    let start = TransformSaid {
        files: NO_FILES,
        transform: Transform::Keep,
        upright: false,
        trim: false,
        gray: false,
        crop: None,
        copying: Copying::Comments,
        script: ScriptSaid::Sequential,
        huffman: Huffman::Plain,
        restart: Restart::Off,
    };
    read_words(alloc, start, &JPEGTRAN_SWITCHES, words)
}

// What the words so far ask for, with the area as it is written.
#[derive(Clone, Copy)]
struct TransformSaid<'a> {
    // The input and the output.
    files: FilesSaid<'a>,
    // -flip, -rotate, -transpose or -transverse
    transform: Transform,
    // -upright
    upright: bool,
    // -trim
    trim: bool,
    // -grayscale
    gray: bool,
    // -crop
    crop: Option<&'a str>,
    // -copy
    copying: Copying,
    // -progressive or -scans
    script: ScriptSaid<'a>,
    // -huffman
    huffman: Huffman,
    // -restart
    restart: Restart,
}

impl<'a> Asks<'a> for TransformSaid<'a> {
    type Words = TransformWords;

    ghost Asked = { TransformAsked };

    ghost tool = { jpegtran };

    ghost said = { transform_said };

    ghost meaning = { transform_view };

    fn named(self, name: &'a str) -> Self {
        TransformSaid {
            files: self.files.from(name),
            ..self
        }
    }

    fn flag(self, flag: Flag, index: usize) -> Result<Self, Usage> {
        match flag {
            Flag::Transpose => self.turned(Transform::Transpose, index),
            Flag::Transverse => self.turned(Transform::Transverse, index),
            Flag::Upright => self.upright(index),
            Flag::Trim => Ok(TransformSaid { trim: true, ..self }),
            Flag::Gray => Ok(TransformSaid { gray: true, ..self }),
            Flag::Progressive => Ok(TransformSaid {
                script: self.script.progressive(),
                ..self
            }),
            _ => Err(usage(UsageFault::UnknownSwitch, index)),
        }
    }

    fn setting(self, setting: Setting, value: &'a str, index: usize) -> Result<Self, Usage> {
        match setting {
            Setting::Copy => match copying_named(value) {
                Some(copying) => Ok(TransformSaid { copying, ..self }),
                None => Err(bad_value(index)),
            },
            Setting::Crop => match area_named(value.as_bytes()) {
                Some(_) => Ok(TransformSaid {
                    crop: Some(value),
                    ..self
                }),
                None => Err(bad_value(index)),
            },
            Setting::Flip => self.turned_by(flip_named(value), index),
            Setting::Rotate => self.turned_by(rotation_named(value.as_bytes()), index),
            Setting::Output => Ok(TransformSaid {
                files: self.files.to(value),
                ..self
            }),
            Setting::Scans => Ok(TransformSaid {
                script: ScriptSaid::File(value),
                ..self
            }),
            Setting::Huffman => match huffman_named(value) {
                Some(huffman) => Ok(TransformSaid { huffman, ..self }),
                None => Err(bad_value(index)),
            },
            Setting::Restart => match restart_named(value.as_bytes()) {
                Some(restart) => Ok(TransformSaid { restart, ..self }),
                None => Err(bad_value(index)),
            },
            _ => Err(usage(UsageFault::UnknownSwitch, index)),
        }
    }

    fn to_words(self, alloc: Global) -> Result<TransformWords, NoMemory> {
        Ok(TransformWords {
            files: self.files.to_files(alloc)?,
            transform: self.transform,
            upright: self.upright,
            trim: self.trim,
            gray: self.gray,
            crop: area_of(self.crop),
            copying: self.copying,
            script: self.script.to_script(alloc)?,
            huffman: self.huffman,
            restart: self.restart,
        })
    }
}

impl<'a> TransformSaid<'a> {
    // What is asked for with this transform too. Two different ones may not be asked for.
    fn turned(self, transform: Transform, index: usize) -> Result<Self, Usage>
        ensures { AnswersWords transform_said (with_transform index transform (transform_said self.entry)) result }
    {
        let before = transform_number(self.transform);
        if !self.upright && (before == 0 || before == transform_number(transform)) {
            Ok(TransformSaid { transform, ..self })
        } else {
            Err(usage(UsageFault::TwoTransforms, index))
        }
    }

    // What is asked for with the transform that the Exif orientation chooses, and no other.
    fn upright(self, index: usize) -> Result<Self, Usage>
        ensures { AnswersWords transform_said (with_upright index (transform_said self.entry)) result }
    {
        if transform_number(self.transform) == 0 {
            Ok(TransformSaid {
                upright: true,
                ..self
            })
        } else {
            Err(usage(UsageFault::TwoTransforms, index))
        }
    }

    // What is asked for with the transform that the value after the switch names, if it names one.
    fn turned_by(self, transform: Option<Transform>, index: usize) -> Result<Self, Usage>
        requires { index < 18446744073709551615 }
        ensures { AnswersWords transform_said (with_value index transform (λ t. with_transform index t (transform_said self.entry))) result }
    {
        match transform {
            Some(transform) => self.turned(transform, index),
            None => Err(bad_value(index)),
        }
    }
}

// The area of this text, if there is one.
fn area_of(value: Option<&str>) -> Option<Area>
    ensures value { result ≡ area_said (text_view value.entry) }
    ensures area { IsArea (area_or_one result) }
{
    match value {
        Some(value) => area_named(value.as_bytes()),
        None => None,
    }
}

// The source of the scans by the words so far.
#[derive(Clone, Copy)]
pub(crate) enum ScriptSaid<'a> {
    Sequential,
    Standard,
    File(&'a str),
}

impl<'a> ScriptSaid<'a> {
    // The default progressive scans, unless a file has priority over them.
    pub(crate) fn progressive(self) -> Self
        ensures { script_said result ≡ with_progressive (script_said self.entry) }
    {
        match self {
            ScriptSaid::File(name) => ScriptSaid::File(name),
            _ => ScriptSaid::Standard,
        }
    }

    // The source of the scans, with a copy of the name.
    pub(crate) fn to_script(self, alloc: Global) -> Result<ScriptFrom, NoMemory>
        ensures { IfOk result (λ script. script_view script ≡ script_said self.entry) }
    {
        Ok(match self {
            ScriptSaid::Sequential => ScriptFrom::Sequential,
            ScriptSaid::Standard => ScriptFrom::Standard,
            ScriptSaid::File(name) => ScriptFrom::File(Text::new(alloc, name)?),
        })
    }
}

// Which of the eight transforms this is.
fn transform_number(transform: Transform) -> u8
    ensures { result ≡ transform_number transform }
{
    match transform {
        Transform::Keep => 0,
        Transform::FlipH => 1,
        Transform::FlipV => 2,
        Transform::Transpose => 3,
        Transform::Transverse => 4,
        Transform::Rotate90 => 5,
        Transform::Rotate180 => 6,
        Transform::Rotate270 => 7,
    }
}

fn copying_named(value: &str) -> Option<Copying>
    ensures { result ≡ copying_named value.now }
{
    let letters = value.as_bytes();
    if abbreviates(1, b"none", letters) {
        Some(Copying::None)
    } else if abbreviates(1, b"comments", letters) {
        Some(Copying::Comments)
    } else if abbreviates(1, b"all", letters) {
        Some(Copying::All)
    } else {
        None
    }
}

fn flip_named(value: &str) -> Option<Transform>
    ensures { result ≡ flip_named value.now }
{
    let letters = value.as_bytes();
    if abbreviates(1, b"horizontal", letters) {
        Some(Transform::FlipH)
    } else if abbreviates(1, b"vertical", letters) {
        Some(Transform::FlipV)
    } else {
        None
    }
}

fn rotation_named(value: &[u8]) -> Option<Transform>
    ensures { result ≡ rotation_named value.now }
{
    match number_of(value) {
        Some(90) => Some(Transform::Rotate90),
        Some(180) => Some(Transform::Rotate180),
        Some(270) => Some(Transform::Rotate270),
        _ => None,
    }
}
