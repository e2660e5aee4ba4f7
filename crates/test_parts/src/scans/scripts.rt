// Scripts, and the history of scans, asked with the numbers of a scan header.
ghost use Rattle.std.specs.Prelude.{◌<◌, All};

use crate::answer::Answer;
use crate::row::{Row, is_first, small};
use crate::scans::heads::{factors_of, frame_of};
use arrayvec::ArrayVec;
use jpg_base::{Component, Frame, Limits, Process, ScanHead, ScanPart};
use jpg_scans::{Entry, Progress, Script};

// Parts of the first four of these components, each in 0 to 3.
fn parts_of(components: &[u8]) -> ArrayVec<ScanPart, 4>
    ensures { All (λ p. p.component < 4) result.items }
{
    let mut parts = ArrayVec::new();
    for component in components {
        let _ = parts.try_push(ScanPart {
            component: component % 4,
            dc: 0,
            ac: 0,
        });
    }
    parts
}

/// Begins the history of the scans of a frame of three components.
pub fn history(history: &mut Option<Progress>, row: &Row, answer: &mut Answer) {
    let process = if is_first(row.field(0), "progressive", "extended", answer) {
        Process::Progressive
    } else {
        Process::Extended
    };
    match frame_by(process) {
        Some(frame) => {
            *history = Some(Progress::new(&frame));
            answer.say("begun");
        }
        None => answer.say("no frame"),
    }
}

fn frame_by(process: Process) -> Option<Frame> {
    let part = Component {
        id: 1,
        h: 1,
        v: 1,
        quant: 0,
    };
    let parts = [
        part,
        Component { id: 2, ..part },
        Component { id: 3, ..part },
    ];
    Frame::new(process, 8, 8, 8, &parts, &Limits::standard()).ok()
}

/// What the history answers to a scan of components with its Ss, Se, Ah and Al, and whether then each component had its scan.
pub fn scan(history: &mut Option<Progress>, row: &Row, answer: &mut Answer) {
    match history {
        Some(progress) => admit(progress, row, answer),
        None => answer.say("no history"),
    }
}

fn admit(progress: &mut Progress, row: &Row, answer: &mut Answer) {
    let components = numbers(row.field(0), answer);
    let band = numbers(row.field(1), answer);
    let [ss, se, ah, al] = band.as_slice() else {
        return answer.unread(row.field(1));
    };
    let head = ScanHead {
        parts: parts_of(components.as_slice()),
        ss: *ss,
        se: *se,
        ah: *ah,
        al: *al,
    };
    match progress.admit(&head) {
        Ok(()) => answer.say("ok"),
        Err(fault) => answer.say_shown(&fault),
    }
    if progress.is_complete() {
        answer.say("complete");
    }
}

// At most four numbers of a byte each.
fn numbers(text: &str, answer: &mut Answer) -> ArrayVec<u8, 4> {
    let mut list = ArrayVec::new();
    for word in text.split_whitespace() {
        if list.try_push(small(word, answer)).is_err() {
            answer.unread(text);
        }
    }
    list
}

/// The scans of the sequential script of a frame of 16 by 16, each as a script has it.
pub fn script(row: &Row, answer: &mut Answer) {
    let factors = factors_of(row.field(0), answer);
    match frame_of(factors.as_slice(), 16, 16) {
        Some(frame) => say_script(&Script::sequential(&frame), answer),
        None => answer.say("no frame"),
    }
}

fn say_script(script: &Script, answer: &mut Answer) {
    answer.say(if script.progressive() {
        "progressive"
    } else {
        "sequential"
    });
    for i in 0..script.len() {
        add_entry(&script.entry(i), answer);
    }
}

fn add_entry(entry: &Entry, answer: &mut Answer) {
    for component in entry.components.as_slice() {
        answer.add(" ");
        answer.add_number(u64::from(*component));
    }
    answer.add(": ");
    answer.add_number(u64::from(entry.ss));
    answer.add("-");
    answer.add_number(u64::from(entry.se));
    answer.add(", ");
    answer.add_number(u64::from(entry.ah));
    answer.add(", ");
    answer.add_number(u64::from(entry.al));
    answer.add(";");
}
