//! Laws over the scans that are written, and over the typical tables (T.81, K.3.3).
ghost use Rattle.std.specs.Prelude.{◌≡◌, ℕ, List};
ghost use Rattle.jpg_spec.specs.Geometry.{Frame};
ghost use Rattle.jpg_spec.specs.Segments.{HuffmanTable, ScanHead};
ghost use Rattle.jpg_spec_write.specs.ScanText.{UnitDue, typical_table, typical_tables};
ghost use Rattle.jpg_spec_write.specs.Written.{sequential_bits, SpellsDue};
ghost use Rattle.jpg_spec.specs.Sound.{AreTables};
ghost use Rattle.jpg_spec_write.specs.Laws.{coding_by, AreWritable, HaveCodes};

/// The four typical tables are valid (T.81, K.3.3).
pub fn typical_tables_are_valid()
    ensures { AreTables typical_tables }
{}

/// What a sequential scan writes of an interval, by tables that have codes for it and by their first codes, is a
/// complete interval of its units, and encodes their values. With 8 bits the typical tables have the codes.
pub fn written_scans_are_in_the_grammar()
    ensures any { (f : Frame) (head : ScanHead) (due : List UnitDue) (tables : ℕ → ℕ → HuffmanTable) → AreWritable f head due → HaveCodes tables head due
        → SpellsDue (coding_by tables f head) due (sequential_bits tables head due) }
    ensures typical { (f : Frame) (head : ScanHead) (due : List UnitDue) → AreWritable f head due → f.precision ≡ 8 → HaveCodes typical_table head due }
{}
