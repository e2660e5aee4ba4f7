//! Laws over the definitions of this crate, each on a function that does nothing.
ghost use Rattle.std.specs.Prelude.{◌≡◌, ℕ, List, length, take, flat_map};
ghost use Rattle.jpg_spec.specs.Geometry.{Frame as Numbers, mcu_row_frame, units};
ghost use Rattle.jpg_spec.specs.Lists.{below};
ghost use Rattle.jpg_spec.specs.ScanRows.{scan_row};
ghost use Rattle.jpg_spec.specs.declared.frame.Place.{Place};
ghost use Rattle.jpg_base.specs.Cursor.{scan_mcus_down};
ghost use Rattle.jpg_seq.specs.Reader.{AreInRow, IsNext, row_units, sequential};
ghost use Rattle.jpg_coefs.specs.Machine.{KeepsUnits};
ghost use Rattle.jpg_seq.specs.declared.reader.SeqReader.{SeqReader};

/// In each state of the machine of a sequential scan complete units are in the picture, and a part of one more may
/// follow (T.81, F.2.2).
#[tactic(auto, using(crate::proofs::Machines::keeps_units))]
pub fn sequential_machines_keep_units()
    ensures { KeepsUnits SeqReader sequential }
{}

/// The scan of all components of a frame has its places MCU row by MCU row, and the remaining places of an MCU row are
/// in it.
#[tactic(auto, using(crate::proofs::Machines::length_row, crate::proofs::Machines::units_by_row))]
pub fn scans_have_rows()
    ensures rows { (f : Numbers) (ids : List ℕ) → units f ids ≡ flat_map (scan_row f ids) (below (scan_mcus_down f ids)) }
    ensures long { (f : Numbers) (ids : List ℕ) (k : ℕ) → length (scan_row f ids k) ≡ row_units f ids }
    ensures inside { (f : Numbers) (ids tops : List ℕ) (places : List Place) (k left : ℕ) → IsNext f ids tops places k left → AreInRow (mcu_row_frame f) tops (take left places) }
{}
