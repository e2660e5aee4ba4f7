//! Progressive scans, read (T.81, G.1.2, G.2).
#![tactic(auto)]

mod ac_reader;
mod band;
mod codes;
mod dc;
mod dc_bits;
mod dc_first;
mod dc_laws;
mod dc_looks;
mod dc_refine;
mod dc_units;
mod extra;
mod laws;
mod numbers;
mod places;
mod scan;
mod stage;
mod symbols;
mod table_copy;

pub use ac_reader::AcReader;
pub use dc_first::DcFirst;
pub use dc_laws::{dc_machines_keep_units, known_dc_values_have_room};
pub use dc_refine::DcRefine;
pub use laws::{
    ac_intervals_follow, ac_machines_keep_units, bands_are_due, dc_values_are_due,
    known_bands_have_room, known_values_take_the_next_bit, scans_tell_coefficients_down_to_a_bit,
    values_are_known_down_to_al,
};
pub use scan::{BandScan, DcScan};
