//! The tables of a scan that is written: typical ones (T.81, K.3), those of codes of one length (Annex C), or those
//! made for how often each symbol is sent (K.2).
ghost use Rattle.std.specs.Prelude.{◌≡◌, ℕ, List};
ghost use Rattle.jpg_spec.specs.FlatTable.{flat_table};
ghost use Rattle.jpg_spec_fit.specs.Fitted.{fitted};
ghost use Rattle.jpg_spec_write.specs.ScanText.{is_plain, scan_tables, typical_table};
ghost use Rattle.jpg_huff.specs.Tables.{table_of};
ghost use Rattle.jpg_file.specs.Write.WriteScan.{AreFew, CanCount, CountsScan, HasCounts, UsesSymbols, GivesTables, HasFourTables, has_typical, written_elements};

use jpg_base::Frame;
use jpg_coefs::{BlockView, WrittenScan};
use jpg_fit::fitted;
use jpg_huff::{SymbolCounts, Table, TableSet, Typical, flat, typical};
use jpg_prog_write::count_scan;
use jpg_seq::count_seq_scan;
use jpg_spec_write::Huffman;

/// Puts the tables of a scan into slots 0 and 1 of a set: those that are made for it, if they are asked for;
/// otherwise in a sequential file of precision 8 the typical ones, and in any other those of codes of one length for
/// what the scan writes. It remains a call, so that its stack is free again when the scan is written.
#[inline(never)]
pub fn put_tables<V: BlockView>(
    huffman: Huffman,
    frame: &Frame,
    view: &V,
    scan: WrittenScan<'_>,
    set: &mut TableSet,
)
    requires { CanCount frame.now (V.numbers view.now) (V.blocks view.now) scan.head.now }
    ensures { GivesTables set.new (scan_tables huffman frame.now scan.entry.head.now (written_elements scan.entry (V.numbers view.now) (V.blocks view.now))) }
{
    if has_typical(huffman, frame) {
        put_typical(set);
        return;
    }
    let counts = counts_of(frame, view, scan);
    match huffman {
        Huffman::Plain => put_flat(&counts, set),
        Huffman::Fitted => put_fitted(&counts, set),
    }
}

// Whether plain tables are asked for.
fn is_plain(huffman: Huffman) -> bool
    ensures { result ≡ is_plain huffman }
{
    match huffman {
        Huffman::Plain => true,
        Huffman::Fitted => false,
    }
}

/// Whether a file has the typical tables.
pub fn has_typical(huffman: Huffman, frame: &Frame) -> bool
    ensures { result ≡ has_typical huffman frame.now }
{
    !frame.is_progressive() && (frame.precision() == 8 && is_plain(huffman))
}

/// The typical tables, Tables K.3 and K.5 in slot 0, K.4 and K.6 in slot 1 (T.81, K.3).
pub fn typical_set() -> TableSet
    ensures { GivesTables result typical_table }
{
    let mut set = TableSet::new();
    put_typical(&mut set);
    set
}

// How often the scan writes each symbol.
fn counts_of<V: BlockView>(frame: &Frame, view: &V, scan: WrittenScan<'_>) -> SymbolCounts
    requires { CanCount frame.now (V.numbers view.now) (V.blocks view.now) scan.head.now }
    ensures { CountsScan result scan.entry.head.now (written_elements scan.entry (V.numbers view.now) (V.blocks view.now)) }
{
    view.frame().checked();
    if frame.is_progressive() {
        count_scan(view, scan.head, scan.interval)
    } else {
        count_seq_scan(view, scan.head, scan.interval)
    }
}

// Puts Tables K.3 and K.5 into slot 0, K.4 and K.6 into slot 1 (T.81, K.3).
#[inline(never)]
fn put_typical(set: &mut TableSet)
    ensures { GivesTables set.new typical_table }
{
    put_four(
        &typical(Typical::DcLuma),
        &typical(Typical::DcChroma),
        &typical(Typical::AcLuma),
        &typical(Typical::AcChroma),
        set,
    );
}

// Puts the tables of codes of one length for the symbols that are used.
#[inline(never)]
fn put_flat(counts: &SymbolCounts, set: &mut TableSet)
    requires { AreFew counts.now }
    ensures { (symbols : ℕ → ℕ → List ℕ) → UsesSymbols counts.now symbols → GivesTables set.new (λ class slot. flat_table (symbols class slot)) }
{
    put_four(
        &flat(&counts.dc[0]),
        &flat(&counts.dc[1]),
        &flat(&counts.ac[0]),
        &flat(&counts.ac[1]),
        set,
    );
}

// Puts the tables that are made for these counts.
#[inline(never)]
fn put_fitted(counts: &SymbolCounts, set: &mut TableSet)
    ensures { (numbers : ℕ → ℕ → List ℕ) → HasCounts counts.now numbers → GivesTables set.new (λ class slot. fitted (numbers class slot)) }
{
    put_four(
        &fitted(&counts.dc[0]),
        &fitted(&counts.dc[1]),
        &fitted(&counts.ac[0]),
        &fitted(&counts.ac[1]),
        set,
    );
}

// Puts these tables into slots 0 and 1, two for DC and two for AC.
fn put_four(dc: &Table, dc_chroma: &Table, ac: &Table, ac_chroma: &Table, set: &mut TableSet)
    ensures { HasFourTables set.new (table_of dc.now) (table_of dc_chroma.now) (table_of ac.now) (table_of ac_chroma.now) }
{
    set.slots();
    set.set_dc(0, dc);
    set.set_dc(1, dc_chroma);
    set.set_ac(0, ac);
    set.set_ac(1, ac_chroma);
}
