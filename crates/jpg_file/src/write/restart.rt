//! Restart intervals of scans that are written (T.81, B.2.4.4).
ghost use Rattle.std.specs.Prelude.{◌≡◌, ◌*◌, ◌≤◌, ◌^◌, min};
ghost use Rattle.jpg_spec.specs.Segments.{head_components};
ghost use Rattle.jpg_spec_write.specs.FileText.{interval_of};
ghost use Rattle.jpg_base.specs.Cursor.{AreIn};
ghost use Rattle.jpg_scans.specs.Restarts.{restart_of};

use jpg_base::{Frame, ScanHead};
use jpg_scans::Restart;

/// How many MCUs an interval of this scan has, 0 if there are no restart markers.
pub fn interval_of(frame: &Frame, head: &ScanHead, restart: Restart) -> u16
    requires { AreIn frame.now (head_components head.now) }
    ensures { result ≡ interval_of frame.now head.now (restart_of restart) }
{
    match restart {
        Restart::Off => 0,
        Restart::Rows(rows) => rows_interval(rows, frame.scan_mcus(head).wide),
        Restart::Mcus(mcus) => mcus,
    }
}

// The MCUs of a number of rows, at most 65,535.
fn rows_interval(rows: u16, wide: u32) -> u16
    requires { wide ≤ 2 ^ 20 }
    ensures { result ≡ min (rows * wide) 65535 }
{
    let mcus = u64::from(rows) * u64::from(wide);
    mcus.min(65535) as u16
}
