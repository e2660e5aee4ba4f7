//! The program: its words, real files and the standard streams, and its exit status.
ghost use Rattle.std.specs.Prelude.{◌≡◌, OnOk, map};
ghost use Rattle.jpg_pnm_bmp.specs.EndState.{new_end};
ghost use Rattle.jpg_cli.specs.Tools.Ends.{AreNewEnds};

use crate::ending::end_output;
use crate::faults::say_file;
use crate::help::{BEGIN, HELP};
use crate::hints::say_hint;
use crate::top::run;
use jpg_base::{NoMemory, RealFiles, StdDesk};
use jpg_pnm_bmp::{BmpEnd, ImageEnd, PnmEnd};
use jpg_spec_words::Why;
use jpg_targa::TargaEnd;
use jpg_words::{known_tool, tool_name};
use std::alloc::{AllocError, Global};
use std::env;
use std::io::ErrorKind;
use std::process::ExitCode;
use std::rt::Runtime;

const VERSION: &str = "jpgsuite 1.13.0\n";

static ABOUT: [&str; 1] = [VERSION];

// The help for a command; none for a trial of the program itself.
fn help_for(tool: &str) -> Option<&'static [&'static str]> {
    match tool {
        "jpegtran" => Some(&HELP[0..1]),
        "djpeg" => Some(&HELP[1..2]),
        "cjpeg" => Some(&HELP[2..3]),
        "rdjpgcom" => Some(&HELP[3..4]),
        "wrjpgcom" => Some(&HELP[4..5]),
        _ => None,
    }
}

// The texts that one word asks for: this help, or the version.
fn asked(word: &str, help: &'static [&'static str]) -> Option<&'static [&'static str]> {
    match word {
        "--help" | "-help" | "-h" | "-?" => Some(help),
        "--version" => Some(&ABOUT),
        _ => None,
    }
}

// The texts about the program itself, or one of its commands, if the words ask only for that.
fn texts_asked_for(words: &[String]) -> Option<&'static [&'static str]> {
    match words {
        [word] => match word.as_str() {
            "help" => Some(&HELP),
            "version" => Some(&ABOUT),
            word => asked(word, &HELP),
        },
        [tool, word] => asked(word.as_str(), help_for(tool.as_str())?),
        _ => None,
    }
}

// Prints the texts; the exit status.
fn print_all<R: Runtime>(rt: &R, texts: &[&str]) -> u8 {
    for text in texts {
        if print!(rt; "{text}").is_err() {
            return 1;
        }
    }
    0
}

// Says how to begin, before the message of a call without words. That it can't be said changes nothing.
fn say_begin<R: Runtime>(rt: &R) {
    let _ = eprint!(rt; "{BEGIN}");
}

// The command of the name that the program was called by, the last part of a path: none if no command has it.
fn own_command(called: &str) -> Option<&'static str> {
    match called.rsplit_once('/') {
        Some((_, name)) => known_tool(name),
        None => known_tool(called),
    }
}

// The words of a call: those after the program's name, and that name before them where it is a command's. Or the exit
// status.
fn words<R: Runtime<A = Global>>(rt: &R) -> Result<Vec<String>, u8> {
    let mut words = Vec::new(rt.alloc());
    let mut args = match env::args(rt) {
        Ok(args) => args,
        Err(error) => match error.kind() {
            ErrorKind::OutOfMemory => return Err(3),
            _ => return Err(1),
        },
    };
    if let Some(called) = args.next()
        && let Some(tool) = own_command(called.as_str())
    {
        let Ok(tool) = String::from_str(rt.alloc(), tool) else {
            return Err(3);
        };
        if words.push(tool).is_err() {
            return Err(3);
        }
    }
    for word in args {
        match words.push(word) {
            Ok(()) => {}
            Err(_) => return Err(3),
        }
    }
    Ok(words)
}

/// Adds an image writer.
#[tactic(auto, using(crate::proofs::ByRow::FoundEnds::one_more_new))]
pub fn add_end(ends: &mut Vec<Box<dyn ImageEnd>>, end: Box<dyn ImageEnd>) -> Result<(), NoMemory>
    requires ends { AreNewEnds (map (λ e. progress e) ends.old.items) }
    requires end { progress end ≡ new_end (progress end).kind }
    ensures { OnOk result (AreNewEnds (map (λ e. progress e) ends.new.items)) }
{
    match ends.push(end) {
        Ok(()) => Ok(()),
        Err(_) => Err(NoMemory),
    }
}

// Runs the command that the words ask for over real files and the standard streams; the exit status.
fn run_over_files<R: RealFiles>(
    rt: R,
    alloc: Global,
    words: &[String],
    ends: Vec<Box<dyn ImageEnd>>,
) -> u8
    requires { AreNewEnds (map (λ e. progress e) ends.items) }
{
    let second: Result<R, AllocError> = rt.clone();
    let mut desk = StdDesk::replacing(rt);
    let ended = run(alloc, words, &mut desk, ends);
    if let Why::Usage(usage) = ended.why
        && !words.is_empty()
    {
        say_hint(alloc, words, usage, &mut desk);
    }
    if let Ok(rt) = second {
        say_file(&rt, alloc, words, ended.why);
    }
    end_output(tool_name(words), ended, &mut desk)
}

// Runs the command that the words ask for with an image writer of each format; the exit status.
fn run_with_ends<R: RealFiles>(rt: R, alloc: Global, words: &[String]) -> u8 {
    let mut ends: Vec<Box<dyn ImageEnd>> = Vec::new(alloc);
    let Ok(pnm) = Box::new(alloc, PnmEnd::new()) else {
        return 3;
    };
    let Ok(bmp) = Box::new(alloc, BmpEnd::new(alloc)) else {
        return 3;
    };
    let Ok(targa) = Box::new(alloc, TargaEnd::new(alloc)) else {
        return 3;
    };
    if add_end(&mut ends, pnm).is_err()
        || add_end(&mut ends, bmp).is_err()
        || add_end(&mut ends, targa).is_err()
    {
        return 3;
    }
    run_over_files(rt, alloc, words, ends)
}

/// Runs the command that the program's words ask for over real files and the standard streams, and ends with its exit
/// status. Where the program was called by the name of a command, that is the first word. A single `--help`, `-help`,
/// `-h`, `-?` or `--version`, also after the name of a command, and a single `help` or `version` print the help, all of it
/// or that for the command, or the version. For a call without words standard error has how to begin, and
/// then the message; a message for other wrong words is followed by what to write, and one for a file that couldn't be opened
/// or read by its name and the reason. An output with a name takes its place
/// when it is complete (`StdDesk::replacing`). If there is no memory for the words the status is 3, and if a
/// word isn't UTF-8 it is 1, both without a message.
pub fn run_program<R: RealFiles<A = Global>>(rt: R) -> ExitCode {
    let alloc = rt.alloc();
    let words = match words(&rt) {
        Ok(words) => words,
        Err(code) => return ExitCode::from(code),
    };
    if let Some(texts) = texts_asked_for(words.as_slice()) {
        return ExitCode::from(print_all(&rt, texts));
    }
    if words.is_empty() {
        say_begin(&rt);
    }
    ExitCode::from(run_with_ends(rt, alloc, words.as_slice()))
}
