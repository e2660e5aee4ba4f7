//! The coefficients of a picture, and the traits of what reads and writes them (T.81, A.2, F.1.1.5).
#![tactic(auto)]

mod cell;
mod coefs;
mod end;
mod intervals;
mod laws;
mod layout;
mod machine;
mod packed;
mod store;
mod view;

pub use coefs::Coefs;
pub use end::end_interval;
pub use intervals::{GivenUnit, NextUnits, ScanUnits, UnitSink, WrittenScan, part_of, put_scan};
pub use laws::{
    bits_are_taken_in_order, faults_change_no_block, one_block_changes, zero_blocks_are_none,
};
pub use layout::BlockOrder;
pub use machine::{ScanMachine, Taken, UnitFault, UnitStep};
pub use view::BlockView;
