//! Sequential scans: read, their symbols counted, and written (T.81, F.1.2, F.2.2).
#![tactic(auto)]

mod count;
mod kept;
mod kept_scan;
mod laws;
mod reader;
mod scan_write;
mod source;
mod values;
mod work;
mod write;

pub use count::count_seq_scan;
pub use kept_scan::KeptScan;
pub use laws::{scans_have_rows, sequential_machines_keep_units};
pub use reader::{BytesTaken, SeqReader};
pub use scan_write::write_seq_scan;
