//! The quantisers that images are encoded by (T.81, K.1; the manual of cjpeg).
ghost use Rattle.std.specs.Prelude.{◌≡◌, ◌≤◌, All, option_copied, option_map, slice_get};
ghost use Rattle.jpg_spec_image.specs.Quality.{quality_scale, scaled_table, luminance_table, chrominance_table};
ghost use Rattle.jpg_spec_image.specs.TableText.{IsQuality, encoding_tables, file_scale, quality_due, table_due, file_tables};
ghost use Rattle.jpg_spec.specs.Segments.{AreQuantisers};
ghost use Rattle.jpg_dct.specs.Both.{both};

use crate::quality::{quality_scale, scaled_quantiser};
use arrayvec::ArrayVec;
use jpg_base::QuantTable;

// Table K.1 (T.81, K.1), in zigzag order.
static LUMINANCE: [u16; 64] = [
    16, 11, 12, 14, 12, 10, 16, 14, 13, 14, 18, 17, 16, 19, 24, 40, 26, 24, 22, 22, 24, 49, 35, 37,
    29, 40, 58, 51, 61, 60, 57, 51, 56, 55, 64, 72, 92, 78, 64, 68, 87, 69, 55, 56, 80, 109, 81,
    87, 95, 98, 103, 104, 103, 62, 77, 113, 121, 112, 100, 120, 92, 101, 103, 99,
];

// Table K.2.
static CHROMINANCE: [u16; 64] = [
    17, 18, 18, 24, 21, 24, 47, 26, 26, 47, 99, 66, 56, 66, 99, 99, 99, 99, 99, 99, 99, 99, 99, 99,
    99, 99, 99, 99, 99, 99, 99, 99, 99, 99, 99, 99, 99, 99, 99, 99, 99, 99, 99, 99, 99, 99, 99, 99,
    99, 99, 99, 99, 99, 99, 99, 99, 99, 99, 99, 99, 99, 99, 99, 99,
];

/// The table of luminance for quality 50.
pub fn luminance_table() -> QuantTable
    ensures { result ≡ luminance_table }
{
    QuantTable::of(LUMINANCE)
}

/// The table of chrominance for quality 50.
pub fn chrominance_table() -> QuantTable
    ensures { result ≡ chrominance_table }
{
    QuantTable::of(CHROMINANCE)
}

/// Each quantiser scaled by a percentage, rounded: at least 1, and at most 32767, or 255 if a baseline file is asked
/// for.
pub fn scaled_table(base: &QuantTable, scale: u32, baseline: bool) -> QuantTable
    requires { scale ≤ 5000 }
    ensures value { result ≡ scaled_table scale baseline base.now }
    ensures quantisers { AreQuantisers result }
{
    base.long();
    let quants = base.values();
    let mut values = [1; 64];
    for k in 0..64 {
        values[k] = scaled_quantiser(quants[k], scale, baseline);
    }
    QuantTable::of(values)
}

// The quality that was asked for, or 75.
fn quality_due(quality: Option<u8>) -> u8
    requires { IsQuality quality }
    ensures value { result ≡ quality_due quality }
    ensures bounds { (1 ≤ result) × (result ≤ 100) }
{
    match quality {
        None => 75,
        Some(quality) => quality,
    }
}

// The scale of tables of a file: 100 percent if no quality was asked for.
fn file_scale(quality: Option<u8>) -> u32
    requires { IsQuality quality }
    ensures value { result ≡ file_scale quality }
    ensures most { result ≤ 5000 }
{
    match quality {
        None => 100,
        Some(quality) => quality_scale(quality),
    }
}

// A table of a file, or the standard one.
fn table_due(
    quality: Option<u8>,
    baseline: bool,
    standard: &QuantTable,
    given: Option<QuantTable>,
) -> QuantTable
    requires { IsQuality quality }
    ensures value { result ≡ table_due quality baseline standard.now given }
    ensures quantisers { AreQuantisers result }
{
    match given {
        None => scaled_table(standard, quality_scale(quality_due(quality)), baseline),
        Some(table) => scaled_table(&table, file_scale(quality), baseline),
    }
}

// A table of a file, if it has one at this index.
fn parsed_table(file: Option<&ArrayVec<QuantTable, 4>>, i: usize) -> Option<QuantTable>
    ensures { result ≡ slice_get (file_tables (option_map (λ v. v.items) (option_copied file.entry))) i }
{
    match file {
        None => None,
        Some(tables) => tables.as_slice().get(i).copied(),
    }
}

/// The tables of an image's first component and of the others. The first tables of the file are taken, scaled if a
/// quality is asked for; a table that the file doesn't have is the standard one of luminance or chrominance, scaled by
/// the quality, or by 75.
pub fn encoding_tables(
    quality: Option<u8>,
    baseline: bool,
    file: Option<&ArrayVec<QuantTable, 4>>,
) -> [QuantTable; 2]
    requires { IsQuality quality }
    ensures tables { result ≡ both (encoding_tables quality baseline (option_map (λ v. v.items) (option_copied file.entry))) }
    ensures quantisers { All AreQuantisers result }
{
    let first = table_due(quality, baseline, &luminance_table(), parsed_table(file, 0));
    let others = table_due(
        quality,
        baseline,
        &chrominance_table(),
        parsed_table(file, 1),
    );
    [first, others]
}
