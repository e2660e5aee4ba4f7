//! A scan of a file that is written (T.81, B.2.3).
ghost use Rattle.std.specs.Prelude.{◌≡◌, Ok};
ghost use Rattle.jpg_spec.specs.Geometry.{Frame as FrameOf};
ghost use Rattle.jpg_spec.specs.Scan.{Blocks};
ghost use Rattle.jpg_spec_write.specs.FileText.{nothing_written};
ghost use Rattle.jpg_huff.specs.BitOut.{CanSend, Sends};
ghost use Rattle.jpg_file.specs.Write.WriteScan.{CanStart, CanWriteDue, CanWritePlanned, IsDue, due_data, due_written, planned_bytes, planned_written, so_far, start_text};

use crate::write::Plan;
use crate::write::head::{Needed, head_of, needed_of, write_head};
use crate::write::restart::interval_of;
use crate::write::sets::put_tables;
use crate::write::tables::write_due;
use jpg_base::{Desk, Frame, ScanHead, WriteFault};
use jpg_coefs::{BlockView, WrittenScan};
use jpg_huff::{BitOut, TableSet};
use jpg_prog_write::write_scan as write_prog_scan;
use jpg_scans::Entry;
use jpg_seq::write_seq_scan;

/// What was written so far: the last table of each class and slot, and the restart interval.
#[derive(Drop)]
pub struct Given {
    pub tables: TableSet,
    pub interval: u16,
}

impl Given {
    /// No tables, and no interval.
    pub fn new() -> Given
        ensures { so_far result ≡ nothing_written }
    {
        Given {
            tables: TableSet::new(),
            interval: 0,
        }
    }
}

/// What a scan is written with beside its tables: its header, its restart interval, and which tables it needs.
#[derive(Drop)]
pub struct ScanDue {
    pub head: ScanHead,
    pub interval: u16,
    pub needed: Needed,
}

/// A scan that is planned: an entry of a plan's script.
#[derive(Clone, Copy)]
pub struct PlannedScan<'a> {
    pub plan: &'a Plan,
    pub entry: &'a Entry,
}

/// A scan that is due in a file with this frame, and the tables that it is written with.
#[derive(Clone, Copy)]
pub struct DueScan<'a> {
    pub frame: &'a Frame,
    pub due: &'a ScanDue,
    pub tables: &'a TableSet,
}

/// Writes a scan of a picture: a DHT segment for each table that it needs and that isn't the last one of its class and
/// slot, a DRI segment if its restart interval isn't the one before, its header, and its data.
pub fn write_scan<V: BlockView, D: Desk>(
    planned: PlannedScan<'_>,
    given: &mut Given,
    view: &V,
    out: &mut BitOut,
    desk: &mut D,
) -> Result<(), WriteFault>
    requires can { CanSend (D.state desk.old) out.old }
    requires scan { CanWritePlanned planned (V.numbers view.now) (V.blocks view.now) }
    ensures sends { Sends (D.state desk.old) out.old (planned_bytes planned.entry (V.numbers view.now) (V.blocks view.now) (so_far given.old)) result out.new (D.state desk.new) }
    ensures given { (u : Unit {0}) → result ≡ Ok u → so_far given.new ≡ planned_written planned.entry (V.numbers view.now) (V.blocks view.now) (so_far given.old) }
{
    let due = due_of(planned);
    let plan = planned.plan;
    let scan = WrittenScan {
        head: &due.head,
        interval: due.interval,
    };
    let mut tables = TableSet::new();
    put_tables(plan.huffman, &plan.out.frame, view, scan, &mut tables);
    let due_scan = DueScan {
        frame: &plan.out.frame,
        due: &due,
        tables: &tables,
    };
    write_start(due_scan, given, out, desk)?;
    write_data(due_scan, view, out, desk)
}

/// What a scan that is planned is written with beside its tables.
pub fn due_of(planned: PlannedScan<'_>) -> ScanDue
    requires { (f : FrameOf) × (blocks : Blocks) × CanWritePlanned planned f blocks }
    ensures { IsDue planned.entry.plan.now planned.entry.entry.now result }
{
    let PlannedScan { plan, entry } = planned;
    let is_prog = plan.out.frame.is_progressive();
    let head = head_of(is_prog, plan.out.colour, entry);
    let interval = interval_of(&plan.out.frame, &head, plan.restart);
    let needed = needed_of(is_prog, entry, &head);
    ScanDue {
        head,
        interval,
        needed,
    }
}

/// Writes what stands before the data of a scan: a DHT segment for each table that it needs and that isn't the last one
/// of its class and slot, a DRI segment if its restart interval isn't the one before, and its header.
pub fn write_start<D: Desk>(
    scan: DueScan<'_>,
    given: &mut Given,
    out: &mut BitOut,
    desk: &mut D,
) -> Result<(), WriteFault>
    requires can { CanSend (D.state desk.old) out.old }
    requires due { CanStart scan.frame.now scan.due.now scan.tables.now }
    ensures sends { Sends (D.state desk.old) out.old (start_text scan.entry.frame.now (so_far given.old) scan.entry.due.now scan.entry.tables.now) result out.new (D.state desk.new) }
    ensures given { (u : Unit {0}) → result ≡ Ok u → so_far given.new ≡ due_written (so_far given.old) scan.entry.due.now scan.entry.tables.now }
{
    let DueScan { frame, due, tables } = scan;
    let last = given.interval;
    given.interval = due.interval;
    write_due(due.needed.as_slice(), tables, &mut given.tables, out, desk)?;
    let written = WrittenScan {
        head: &due.head,
        interval: due.interval,
    };
    write_head(frame, written, last, out, desk)
}

// Writes the data.
fn write_data<V: BlockView, D: Desk>(
    scan: DueScan<'_>,
    view: &V,
    out: &mut BitOut,
    desk: &mut D,
) -> Result<(), WriteFault>
    requires can { CanSend (D.state desk.old) out.old }
    requires due { CanWriteDue scan.frame.now (V.numbers view.now) (V.blocks view.now) scan.due.now scan.tables.now }
    ensures { Sends (D.state desk.old) out.old (due_data (V.numbers view.now) (V.blocks view.now) scan.entry.due.now scan.entry.tables.now) result out.new (D.state desk.new) }
{
    let DueScan { frame, due, tables } = scan;
    if frame.is_progressive() {
        write_prog_scan(view, &due.head, tables, due.interval, out, desk)
    } else {
        write_seq_scan(view, &due.head, tables, due.interval, out, desk)
    }
}
