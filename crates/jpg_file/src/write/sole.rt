//! A file of one scan, whose data were encoded before it is written (T.81, B.2.1).
ghost use Rattle.std.specs.Prelude.{◌≡◌, ℕ, List, IfNone, IfSome, false, true};
ghost use Rattle.jpg_spec.specs.Geometry.{Frame as FrameOf};
ghost use Rattle.jpg_spec.specs.Scan.{Blocks};
ghost use Rattle.jpg_file.specs.Write.WriteFile.{CanWriteFile, IsAllOf, IsSole, IsSoleData, WritesSole, is_sole};

use crate::write::scan::{DueScan, Given, PlannedScan, ScanDue, due_of, write_start};
use crate::write::sets::{has_typical, typical_set};
use crate::write::{Plan, write_end};
use jpg_base::{Desk, WriteFault};
use jpg_huff::{BitOut, TableSet};
use jpg_markers::{KeptList, file_head};

/// What the only scan of a file is written with.
#[derive(Drop)]
pub struct SoleScan {
    /// Its header, its restart interval, and which tables it needs.
    pub due: ScanDue,
    /// Its tables.
    pub tables: TableSet,
}

/// What the only scan of a file is written with, if the plan has one scan, with the typical tables: the file is
/// sequential, of precision 8, and no fitted tables are asked for. Otherwise None. The scan has all components of the
/// file, and its tables are the same for all blocks.
pub fn sole_scan(plan: &Plan) -> Option<SoleScan>
    requires { (kept : List (ℕ × List ℕ)) × (f : FrameOf) × (blocks : Blocks) × CanWriteFile plan.now kept f blocks }
    ensures sole { IfSome result (IsSole plan.now) }
    ensures all { IfSome result (IsAllOf plan.now) }
    ensures none { IfNone result (is_sole plan.now ≡ false) }
{
    if plan.script.len() != 1 || !has_typical(plan.huffman, &plan.out.frame) {
        return None;
    }
    let entry = &plan.script.entry(0);
    Some(SoleScan {
        due: due_of(PlannedScan { plan, entry }),
        tables: typical_set(),
    })
}

/// Writes a complete file of one scan, whose data these are, to the output that was created last, as `write_file` does
/// for the blocks that were encoded. It takes no memory. After WriteFault a first part of the file is written.
pub fn write_sole<D: Desk>(
    plan: &Plan,
    kept: &KeptList,
    scan: &SoleScan,
    data: &[u8],
    desk: &mut D,
) -> Result<(), WriteFault>
    requires created { (D.state desk.old).output_created ≡ true }
    requires data { (f : FrameOf) × (blocks : Blocks) × IsSoleData plan.now kept.now f blocks scan.now data.now }
    ensures { WritesSole plan.now kept.now scan.now data.now (D.state desk.old) result (D.state desk.new) }
{
    let mut out = BitOut::new();
    file_head(&plan.out, kept, &mut out, desk)?;
    let only = DueScan {
        frame: &plan.out.frame,
        due: &scan.due,
        tables: &scan.tables,
    };
    write_start(only, &mut Given::new(), &mut out, desk)?;
    out.raw(data, desk)?;
    write_end(&mut out, desk)
}
