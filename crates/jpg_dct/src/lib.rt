//! The transform between the coefficients of a block and its samples, and their quantisers (T.81, A.3.3, A.3.4).
#![tactic(auto)]

mod forward;
mod inverse;
mod laws;
mod quality;
mod table_text;
mod tables;

pub use forward::blocks::Divisors;
pub use forward::fdct;
pub use forward::quantising::quantise;
pub use inverse::flat::{flat_block, flat_lanes};
pub use inverse::multipliers::Multipliers;
pub use inverse::{dequantise, idct};
pub use laws::{numbers_are_told_by_rows, texts_tell_tables_once, wrong_tables_have_a_place};
pub use quality::{quality_scale, scaled_quantiser};
pub use table_text::read_tables;
pub use tables::{chrominance_table, encoding_tables, luminance_table, scaled_table};
