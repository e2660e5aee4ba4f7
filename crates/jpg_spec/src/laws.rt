//! Laws over the definitions: bits have at most one meaning, and data with a fault have none.
ghost use Rattle.std.specs.Prelude.{◌≡◌, ℕ, Bool, true, List, length, sum};
ghost use Rattle.jpg_spec.specs.Bits.{Packs, SpellsData, whole_bytes, padded, data_of};
ghost use Rattle.jpg_spec.specs.Codes.{codes, AreCodes, are_codes};
ghost use Rattle.jpg_spec.specs.Typical.{dc_luma_counts, dc_luma_values, ac_luma_counts, ac_luma_values, dc_chroma_counts, dc_chroma_values, ac_chroma_counts, ac_chroma_values};
ghost use Rattle.jpg_spec.specs.Geometry.{Frame};
ghost use Rattle.jpg_spec.specs.Segments.{ScanHead};
ghost use Rattle.jpg_spec.specs.Elements.{Coding, UnitLeft};
ghost use Rattle.jpg_spec.specs.Scan.{TablesInForce, scan_coding};
ghost use Rattle.jpg_spec.specs.Sound.{IsSound, AreTables};
ghost use Rattle.jpg_spec.specs.Laws.{LeadingCode, LeadingInterval, LeadingFault, PackedInterval};

/// Counts that pass the test give codes that fit their lengths, and none is all ones.
pub fn tested_counts_give_codes()
    ensures { (counts : List ℕ) → are_codes 1 0 counts ≡ true → AreCodes 1 0 counts }
{}

/// No code of a valid table is a prefix of another, so bits are split into codes in one way.
pub fn no_code_begins_another()
    ensures { (counts symbols : List ℕ) (bits : List Bool) (a b : LeadingCode (codes counts symbols) bits) → AreCodes 1 0 counts → a.code ≡ b.code }
{}

/// The typical DC tables have 12 codes, and the typical AC tables 162 (T.81, K.3.3).
pub fn typical_tables_have_their_codes()
    ensures dc_luma { (sum dc_luma_counts ≡ 12) × (length dc_luma_values ≡ 12) }
    ensures dc_chroma { (sum dc_chroma_counts ≡ 12) × (length dc_chroma_values ≡ 12) }
    ensures ac_luma { (sum ac_luma_counts ≡ 162) × (length ac_luma_values ≡ 162) }
    ensures ac_chroma { (sum ac_chroma_counts ≡ 162) × (length ac_chroma_values ≡ 162) }
{}

/// A scan's coding is sound if the tables in force are valid.
pub fn codings_are_sound()
    ensures { (f : Frame) (tables : TablesInForce) (head : ScanHead) → AreTables tables → IsSound (scan_coding f tables head) }
{}

/// Of two complete intervals neither is a prefix of the other, unless they are the same bits and values.
pub fn intervals_are_spelled_once()
    ensures { (c : Coding) (due : List UnitLeft) (bits : List Bool) (a b : LeadingInterval c due bits) → IsSound c → (a.told ≡ b.told) × (a.front ≡ b.front) }
{}

/// Data with a fault are no prefix of a complete interval, nor is a complete interval a prefix of them.
pub fn faults_exclude_intervals()
    ensures { (c : Coding) (units : List UnitLeft) (bits : List Bool) → IsSound c → LeadingFault c units bits → LeadingInterval c units bits → ⊥ }
{}

/// Bytes encode at most one interval: the same bits, and so the same pad bits.
pub fn bytes_hold_one_interval()
    ensures { (c : Coding) (units : List UnitLeft) (coded : List ℕ) (a b : PackedInterval c units coded) → IsSound c → (a.told ≡ b.told) × (a.bits ≡ b.bits) }
{}

/// The data that are written of bits are these bits, with fewer than eight pad bits, stuffed.
pub fn written_data_hold_their_bits()
    ensures packs { (bits : List Bool) → Packs bits (whole_bytes (padded bits)) }
    ensures spells { (bits : List Bool) → SpellsData (whole_bytes (padded bits)) (data_of bits) }
{}
