//! The rows of the gate: runs of the commands over desks in memory, each a row of standard input with the expected answer, and calls of
//! the crates below them, which are rows of the files in data. A line is printed for each row.
#![tactic(auto)]

mod asked;
mod cut_desk;
mod judge;
mod runs;

use runs::Commands;
use std::process::ExitCode;
use std::{fs, io};
use test_parts::{Parts, Report, take_lines};

// The files of rows of the crates below the commands.
const FILES: [&str; 3] = ["images.rows", "scans.rows", "segments.rows"];

fn main(rt: HostRuntime) -> io::Result<ExitCode> {
    let text = io::read_to_string(rt.alloc(), rt.reader())?;
    let large = fs::read(&rt, "large.jpg")?;
    let mut report = Report::new(rt.alloc());
    report.keep("large.jpg", large.as_slice());
    take_lines(text.as_str(), &mut Commands, &mut report);
    print!(&rt; "{}", report.lines())?;
    let mut others = report.others();
    let mut parts = Parts::new(rt);
    for file in FILES {
        others = take_file(&rt, file, &mut parts)?.max(others);
    }
    Ok(ExitCode::from(u8::from(others > 0)))
}

// Tries the rows of a file: how many aren't as expected.
fn take_file(rt: &HostRuntime, file: &str, parts: &mut Parts) -> io::Result<u64> {
    let text = fs::read_to_string(rt, file)?;
    let mut report = Report::new(rt.alloc());
    take_lines(text.as_str(), parts, &mut report);
    print!(rt; "{}", report.lines())?;
    Ok(report.others())
}
