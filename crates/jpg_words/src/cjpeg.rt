//! The words of cjpeg (its manual in release 6b).
ghost use Rattle.std.specs.Prelude.{◌≡◌, ◌<◌, ◌≤◌, All, IfOk, IfSome, map, drop, string_bytes};
ghost use Rattle.jpg_spec_words.specs.EncodeWords.{EncodeAsked, cjpeg, encode_asked};
ghost use Rattle.jpg_spec_encode.specs.EncodingLaws.{AreFactors};
ghost use Rattle.jpg_words.specs.EncodeWords.{encode_said, encode_view, factors_said, huffman_asked, quality_said};
ghost use Rattle.jpg_words.specs.Files.{text_view};
ghost use Rattle.jpg_words.specs.Requests.{AnswersWords, IsAnswer};
ghost use Rattle.jpg_spec_words.specs.Requests.{with_value};

use crate::cjpeg_request::EncodeWords;
use crate::cjpeg_values::{Factors, factors_named, quality_named};
use crate::files::{FilesSaid, NO_FILES, WordsStop};
use crate::jpegtran::ScriptSaid;
use crate::requests::{Asks, bad_value, read_words, usage};
use crate::switches::Switch;
use crate::values::{huffman_named, is_int, restart_named};
use arrayvec::ArrayVec;
use jpg_base::{NoMemory, Text};
use jpg_scans::Restart;
use jpg_spec_words::Purpose::{Alone, LeftOut, Valued};
use jpg_spec_words::{Flag, Setting, Usage, UsageFault};
use jpg_spec_write::Huffman;
use std::alloc::Global;

static CJPEG_SWITCHES: [Switch<'static>; 21] = [
    ("quality", 1, Valued(Setting::Quality)),
    ("grayscale", 2, Alone(Flag::Gray)),
    ("greyscale", 2, Alone(Flag::Gray)),
    ("targa", 1, Alone(Flag::Targa)),
    ("baseline", 1, Alone(Flag::Baseline)),
    ("progressive", 1, Alone(Flag::Progressive)),
    ("scans", 4, Valued(Setting::Scans)),
    ("restart", 1, Valued(Setting::Restart)),
    ("huffman", 1, Valued(Setting::Huffman)),
    ("sample", 2, Valued(Setting::Sample)),
    ("qtables", 2, Valued(Setting::Tables)),
    ("dct", 2, Valued(Setting::Dct)),
    ("outfile", 4, Valued(Setting::Output)),
    ("optimize", 1, LeftOut),
    ("optimise", 1, LeftOut),
    ("arithmetic", 1, LeftOut),
    ("verbose", 1, LeftOut),
    ("debug", 1, LeftOut),
    ("maxmemory", 3, LeftOut),
    ("smooth", 2, LeftOut),
    ("qslots", 2, LeftOut),
];

/// What the words of cjpeg ask for; the word with index 0 is the command. Words that are wrong give their first fault
/// and take no memory.
pub fn cjpeg_words(alloc: Global, words: &[String]) -> Result<EncodeWords, WordsStop>
    ensures { IsAnswer encode_view (encode_asked (drop 1 (map string_bytes words.now))) result }
{
    let start = EncodeSaid {
        files: NO_FILES,
        targa: false,
        quality: None,
        gray: false,
        baseline: false,
        script: ScriptSaid::Sequential,
        huffman: Huffman::Plain,
        restart: Restart::Off,
        factors: None,
        tables: None,
    };
    read_words(alloc, start, &CJPEG_SWITCHES, words)
}

// What the words so far ask for, with the quality and the factors as they are written.
#[derive(Clone, Copy)]
struct EncodeSaid<'a> {
    // The input and the output.
    files: FilesSaid<'a>,
    // -targa
    targa: bool,
    // -quality
    quality: Option<&'a str>,
    // -grayscale
    gray: bool,
    // -baseline
    baseline: bool,
    // -progressive or -scans
    script: ScriptSaid<'a>,
    // -huffman
    huffman: Huffman,
    // -restart
    restart: Restart,
    // -sample
    factors: Option<&'a str>,
    // -qtables
    tables: Option<&'a str>,
}

impl<'a> Asks<'a> for EncodeSaid<'a> {
    type Words = EncodeWords;

    ghost Asked = { EncodeAsked };

    ghost tool = { cjpeg };

    ghost said = { encode_said };

    ghost meaning = { encode_view };

    fn named(self, name: &'a str) -> Self {
        EncodeSaid {
            files: self.files.from(name),
            ..self
        }
    }

    fn flag(self, flag: Flag, index: usize) -> Result<Self, Usage> {
        match flag {
            Flag::Gray => Ok(EncodeSaid { gray: true, ..self }),
            Flag::Targa => Ok(EncodeSaid {
                targa: true,
                ..self
            }),
            Flag::Baseline => Ok(EncodeSaid {
                baseline: true,
                ..self
            }),
            Flag::Progressive => Ok(EncodeSaid {
                script: self.script.progressive(),
                ..self
            }),
            _ => Err(usage(UsageFault::UnknownSwitch, index)),
        }
    }

    fn setting(self, setting: Setting, value: &'a str, index: usize) -> Result<Self, Usage> {
        match setting {
            Setting::Quality => match quality_named(value.as_bytes()) {
                Some(_) => Ok(EncodeSaid {
                    quality: Some(value),
                    ..self
                }),
                None => Err(bad_value(index)),
            },
            Setting::Scans => Ok(EncodeSaid {
                script: ScriptSaid::File(value),
                ..self
            }),
            Setting::Huffman => self.with_huffman(huffman_named(value), index),
            Setting::Restart => match restart_named(value.as_bytes()) {
                Some(restart) => Ok(EncodeSaid { restart, ..self }),
                None => Err(bad_value(index)),
            },
            Setting::Sample => match factors_named(value.as_bytes()) {
                Some(_) => Ok(EncodeSaid {
                    factors: Some(value),
                    ..self
                }),
                None => Err(bad_value(index)),
            },
            Setting::Tables => Ok(EncodeSaid {
                tables: Some(value),
                ..self
            }),
            Setting::Dct => match is_int(value) {
                true => Ok(self),
                false => Err(bad_value(index)),
            },
            Setting::Output => Ok(EncodeSaid {
                files: self.files.to(value),
                ..self
            }),
            _ => Err(usage(UsageFault::UnknownSwitch, index)),
        }
    }

    fn to_words(self, alloc: Global) -> Result<EncodeWords, NoMemory> {
        Ok(EncodeWords {
            files: self.files.to_files(alloc)?,
            targa: self.targa,
            quality: quality_of(self.quality),
            gray: self.gray,
            baseline: self.baseline,
            script: self.script.to_script(alloc)?,
            huffman: self.huffman,
            restart: self.restart,
            factors: factors_of(self.factors),
            tables: tables_from(alloc, self.tables)?,
        })
    }
}

impl<'a> EncodeSaid<'a> {
    // What is asked for with the Huffman tables that the value after the switch names, if it names any.
    fn with_huffman(self, huffman: Option<Huffman>, index: usize) -> Result<Self, Usage>
        requires { index < 18446744073709551615 }
        ensures { AnswersWords encode_said (with_value index huffman (huffman_asked (encode_said self.entry))) result }
    {
        match huffman {
            Some(huffman) => Ok(EncodeSaid { huffman, ..self }),
            None => Err(bad_value(index)),
        }
    }
}

// The name of a file of tables, if there is one.
fn tables_from(alloc: Global, name: Option<&str>) -> Result<Option<Text>, NoMemory>
    ensures { IfOk result (λ tables. tables ≡ text_view name.entry) }
{
    match name {
        Some(name) => Ok(Some(Text::new(alloc, name)?)),
        None => Ok(None),
    }
}

// The quality of this text.
fn quality_of(value: Option<&str>) -> Option<u8>
    ensures value { result ≡ quality_said (text_view value.entry) }
    ensures range { IfSome result (λ q. (1 ≤ q) × (q ≤ 100)) }
{
    match value {
        Some(value) => quality_named(value.as_bytes()),
        None => None,
    }
}

// The factors of this text; none if they aren't given.
fn factors_of(value: Option<&str>) -> Factors
    ensures value { result.items ≡ factors_said (text_view value.entry) }
    ensures range { All AreFactors result.items }
{
    if let Some(value) = value {
        if let Some(factors) = factors_named(value.as_bytes()) {
            return factors;
        }
    }
    ArrayVec::new()
}
