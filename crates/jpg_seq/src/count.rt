//! The symbols that a sequential scan writes, counted (T.81, F.1.2.1, F.1.2.2, K.2).
ghost use Rattle.std.specs.Prelude.{◌≡◌, ◌≤◌, ◌<◌, false, drop, All};
ghost use Rattle.jpg_spec.specs.Numbers.{category as category_of};
ghost use Rattle.jpg_spec.specs.Geometry.{is_progressive};
ghost use Rattle.jpg_spec.specs.Segments.{head_components};
ghost use Rattle.jpg_spec_write.specs.WrittenFile.{HasBlocksIn};
ghost use Rattle.jpg_base.specs.Cursor.{AreIn};
ghost use Rattle.jpg_huff.specs.Counts.{AreCounts, Notes};
ghost use Rattle.jpg_coefs.specs.MarkSinks.{HasSlots, CountsClass, mark_kind};
ghost use Rattle.jpg_seq.specs.ScanWritten.{AreFew, run_marks, band_marks, block_marks, seq_counter};

use crate::write::difference;
use jpg_base::{Block, ScanHead, ScanPart, WriteFault};
use jpg_coefs::{BlockView, GivenUnit, UnitSink, WrittenScan, part_of, put_scan};
use jpg_huff::{SymbolCounts, category};

// Counts the symbols of a value after a run of zeros, of which each sixteen have one of their own.
#[inline(always)]
fn count_run(slot: u8, run: u8, value: i16, counts: &mut SymbolCounts)
    requires counts { AreCounts counts.old }
    requires slot { slot < 2 }
    requires few { category_of value ≤ 14 }
    ensures { Notes counts.old (run_marks slot run value) counts.new }
{
    let mut left = run;
    while left >= 16 {
        counts.count_ac(slot, 0xf0);
        left -= 16;
    }
    counts.count_ac(slot, 16 * left + category(i32::from(value)));
}

// Counts the symbols of the values after the first one, and that of an EOB if zeros are left (T.81, Figure F.2).
#[inline(always)]
fn count_band(slot: u8, block: &Block, counts: &mut SymbolCounts)
    requires counts { AreCounts counts.old }
    requires slot { slot < 2 }
    requires few { AreFew block.now }
    ensures { Notes counts.old (band_marks slot (drop 1 block.now)) counts.new }
{
    block.long();
    let mut next = 1;
    let mut rest = (block.nonzero() >> 1) << 1;
    while rest != 0 {
        let k = rest.trailing_zeros() as u8;
        count_run(slot, k - next, block.get(k), counts);
        next = k + 1;
        rest &= rest - 1;
    }
    if next < 64 {
        counts.count_ac(slot, 0);
    }
}

// Counts the symbols of a block, by the tables of its part, after this DC value.
fn count_block(part: ScanPart, prediction: i16, block: &Block, counts: &mut SymbolCounts)
    requires counts { AreCounts counts.old }
    requires slots { HasSlots part }
    requires few { AreFew block.now }
    ensures { Notes counts.old (block_marks part prediction block.now) counts.new }
{
    counts.count_dc(part.dc, category(difference(block, prediction)));
    count_band(part.ac, block, counts);
}

// What counts the symbols of the units of a sequential scan.
#[derive(Drop)]
pub(crate) struct SeqCounter<'a> {
    pub(crate) head: &'a ScanHead,
}

impl<'a> UnitSink<SymbolCounts, ()> for SeqCounter<'a> {
    ghost kind = { mark_kind seq_counter };

    #[inline(always)]
    fn unit(
        &mut self,
        unit: GivenUnit<'_>,
        counts: &mut SymbolCounts,
        desk: &mut (),
    ) -> Result<(), WriteFault> {
        count_block(
            part_of(self.head, unit.component),
            unit.last,
            unit.block,
            counts,
        );
        Ok(())
    }

    fn end(
        &mut self,
        marker: Option<u8>,
        counts: &mut SymbolCounts,
        desk: &mut (),
    ) -> Result<(), WriteFault> {
        Ok(())
    }
}

/// How often `write_seq_scan` writes each symbol of this scan, by class and slot, at most 2^32 - 1 (T.81, F.1.2). The
/// header names one to four components of the frame, with slots 0 or 1; all values are in the range of the frame's
/// precision. It takes no memory.
pub fn count_seq_scan<V: BlockView>(view: &V, head: &ScanHead, interval: u16) -> SymbolCounts
    requires sequential { is_progressive (V.numbers view.now).process ≡ false }
    requires components { AreIn (V.numbers view.now) (head_components head.now) }
    requires slots { All HasSlots head.now.parts }
    requires blocks { HasBlocksIn (V.numbers view.now) (V.blocks view.now) }
    ensures dc { CountsClass (V.numbers view.now) head.now interval (V.blocks view.now) 0 result.dc }
    ensures ac { CountsClass (V.numbers view.now) head.now interval (V.blocks view.now) 1 result.ac }
{
    let mut counts = SymbolCounts::none();
    let mut units = SeqCounter { head };
    let scan = WrittenScan { head, interval };
    let counted = put_scan(view, scan, &mut units, &mut counts, &mut ());
    let _ = counted;
    counts
}
