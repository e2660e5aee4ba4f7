// Rows of the crates below the commands, by their kinds.
use crate::answer::{Answer, judge};
use crate::base::{desks, frames, places, quiet};
use crate::images::{callers, samples};
use crate::lines::Rows;
use crate::markers::{comments, contents, heads, segments, tables, written};
use crate::row::{Row, large};
use crate::scans::{bits, codes, data, files, intervals, scripts, walks};
use jpg_scans::Progress;

/// Calls of the crates below the commands.
#[derive(Drop)]
pub struct Parts {
    rt: HostRuntime,
    // the history of scans that the row before left
    history: Option<Progress>,
}

impl Parts {
    /// Without a history of scans.
    pub fn new(rt: HostRuntime) -> Parts {
        Parts { rt, history: None }
    }

    // Runs a row with pieces of a size.
    fn run_once(&mut self, row: &Row, piece: &str, said: &mut Answer) {
        let mut came = Answer::new(row.alloc);
        let size = large(piece, &mut came).max(1);
        if row.kind == "real desk" {
            desks::real(self.rt, row, &mut came);
        } else if !(ask_scripts(&mut self.history, row, &mut came) || ask(row, size, &mut came)) {
            came.unread(row.kind);
        }
        judge(row, &came, said);
        if !said.is_silent() {
            said.say("in pieces of ");
            said.add(piece);
        }
    }
}

impl Rows for Parts {
    fn run(&mut self, row: &Row, said: &mut Answer) {
        let pieces = row.setting("piece ").unwrap_or(usual_pieces(row.kind));
        for piece in pieces.split_whitespace() {
            if said.is_silent() {
                self.run_once(row, piece, said);
            }
        }
    }
}

// The sizes of the pieces where a row names none.
fn usual_pieces(kind: &str) -> &str {
    match kind {
        "file" => "1 1000",
        "first scan" => "1 1000",
        "picture" => "7",
        "data" => "1 65536",
        _ => "1",
    }
}

// Makes the calls of a row. False where its kind is unknown.
fn ask(row: &Row, size: u32, answer: &mut Answer) -> bool {
    ask_base(row, size, answer)
        || ask_contents(row, answer)
        || ask_markers(row, size, answer)
        || ask_codes(row, answer)
        || ask_scans(row, size, answer)
        || ask_samples(row, answer)
        || ask_callers(row, answer)
}

fn ask_base(row: &Row, size: u32, answer: &mut Answer) -> bool {
    match row.kind {
        "frame" => frames::frame(row, answer),
        "grids" => frames::grids(row, answer),
        "quantisers" => frames::quantisers(row, answer),
        "block" => frames::block(row, answer),
        "bytes" => frames::bytes(row, answer),
        "desk" => desks::memory(row, size, answer),
        "names" => desks::names(row, answer),
        "quiet reads" => quiet::quiet_reads(row, answer),
        "quiet writes" => quiet::quiet_writes(row, answer),
        "places" => places::places(row, answer),
        "sum of places" => places::sum(row, answer),
        _ => return false,
    }
    true
}

fn ask_contents(row: &Row, answer: &mut Answer) -> bool {
    match row.kind {
        "restart interval" => contents::interval(row, answer),
        "frame header" => contents::frame_header(row, answer),
        "scan header" => contents::scan_header(row, answer),
        "application" => contents::application(row, answer),
        "colour" => contents::colour(row, answer),
        "tables" => tables::tables(row, answer),
        _ => return false,
    }
    true
}

fn ask_markers(row: &Row, size: u32, answer: &mut Answer) -> bool {
    match row.kind {
        "segments" => segments::segments(row, answer),
        "after scan" => segments::after_scan(row, answer),
        "head" => heads::head(row, answer),
        "kept" => heads::kept(row, answer),
        "written" => written::written(row, answer),
        "printed" => comments::printed(row, answer),
        "appended" => comments::appended(row, answer),
        "comments" => comments::comments(row, size, answer),
        "fed" => comments::fed(row, answer),
        "inserted" => comments::inserted(row, size, answer),
        _ => return false,
    }
    true
}

fn ask_codes(row: &Row, answer: &mut Answer) -> bool {
    match row.kind {
        "table" => codes::table(row, answer),
        "code" => codes::code(row, answer),
        "same codes" => codes::same_codes(row, answer),
        "set" => codes::set(row, answer),
        "walk" => walks::walk(row, answer),
        "walks" => walks::walks(row, answer),
        "look" => walks::look(row, answer),
        "looks" => walks::looks(row, answer),
        "gate" => walks::gate(row, answer),
        _ => return false,
    }
    true
}

fn ask_scripts(history: &mut Option<Progress>, row: &Row, answer: &mut Answer) -> bool {
    match row.kind {
        "history" => scripts::history(history, row, answer),
        "scan" => scripts::scan(history, row, answer),
        "script" => scripts::script(row, answer),
        _ => return false,
    }
    true
}

fn ask_scans(row: &Row, size: u32, answer: &mut Answer) -> bool {
    match row.kind {
        "bits out" => bits::bits_out(row, answer),
        "data" => data::data(row, size, answer),
        "interval" => intervals::interval(row, answer),
        "fault" => intervals::fault(row, answer),
        "file" => files::file(row, size, answer),
        "first scan" => files::head(row, size, answer),
        "picture" => files::picture(row, size, answer),
        "feed" => files::feed(row, answer),
        _ => return false,
    }
    true
}

fn ask_samples(row: &Row, answer: &mut Answer) -> bool {
    match row.kind {
        "flat" => samples::flat(row, answer),
        "up" => samples::up(row, answer),
        "up2" => samples::up2(row, answer),
        "repeat" => samples::repeat(row, answer),
        "rgb" => samples::rgb(row, answer),
        _ => return false,
    }
    true
}

fn ask_callers(row: &Row, answer: &mut Answer) -> bool {
    match row.kind {
        "list segments" => callers::segments(row, answer),
        "text of comments" => callers::comments(row, answer),
        "pieces" => callers::pieces(row, answer),
        "turn" => callers::turned(row, answer),
        "coefficient" => callers::coefficient(row, answer),
        "scans" => callers::shown(row, answer),
        "encode" => callers::encoded(row, answer),
        _ => return false,
    }
    true
}
