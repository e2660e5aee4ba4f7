// Tables by the words of rows.
ghost use Rattle.test_parts.specs.Heads.{HasFour};

use crate::answer::Answer;
use crate::row::Row;
use crate::scans::heads::tables_of;
use jpg_huff::{Table, TableFault, TableSet, Typical, typical};

/// The table of `dc luma` and the like, or of `COUNTS / VALUES`.
pub fn table(row: &Row, text: &str, answer: &mut Answer) -> Table {
    match text {
        "dc luma" => typical(Typical::DcLuma),
        "dc chroma" => typical(Typical::DcChroma),
        "ac luma" => typical(Typical::AcLuma),
        "ac chroma" => typical(Typical::AcChroma),
        _ => match made(row, text, answer) {
            Ok(table) => table,
            Err(fault) => {
                answer.say_shown(&fault);
                typical(Typical::DcLuma)
            }
        },
    }
}

/// The table that these counts and values make: `COUNTS / VALUES`.
pub fn made(row: &Row, text: &str, answer: &mut Answer) -> Result<Table, TableFault> {
    let (counts, values) = text.split_once('/').unwrap_or((text, ""));
    let counts = row.spelled(counts, answer);
    let values = row.spelled(values, answer);
    if counts.as_slice().len() != 16 {
        answer.unread(text);
    }
    Table::new(&sixteen(counts.as_slice()), values.as_slice())
}

// The first sixteen of these bytes.
fn sixteen(bytes: &[u8]) -> [u8; 16] {
    let mut counts = [0; 16];
    for (count, byte) in counts.iter_mut().zip(bytes) {
        *count = *byte;
    }
    counts
}

// The table of counts and values at the front of bytes, and what follows.
fn first_table<'b>(bytes: &'b [u8], answer: &mut Answer) -> (Table, &'b [u8]) {
    let (counts, rest) = bytes.split_at(bytes.len().min(16));
    let mut many = 0usize;
    for count in counts {
        many = many.saturating_add(usize::from(*count));
    }
    let (values, rest) = rest.split_at(rest.len().min(many));
    match Table::new(&sixteen(counts), values) {
        Ok(table) => (table, rest),
        Err(fault) => {
            answer.say_shown(&fault);
            (typical(Typical::DcLuma), rest)
        }
    }
}

/// The tables of a scan: `typical`, or four tables of counts and values one after another.
pub fn coding(row: &Row, text: &str, answer: &mut Answer) -> TableSet
    ensures { HasFour result }
{
    if text == "typical" {
        return typical_set();
    }
    let bytes = row.spelled(text, answer);
    four_tables(bytes.as_slice(), answer)
}

/// The tables of T.81, K.3: those for luminance in slots 0, those for chrominance in slots 1.
pub fn typical_set() -> TableSet
    ensures { HasFour result }
{
    tables_of(
        &typical(Typical::DcLuma),
        &typical(Typical::AcLuma),
        &typical(Typical::DcChroma),
        &typical(Typical::AcChroma),
    )
}

fn four_tables(bytes: &[u8], answer: &mut Answer) -> TableSet
    ensures { HasFour result }
{
    let (dc, bytes) = first_table(bytes, answer);
    let (ac, bytes) = first_table(bytes, answer);
    let (other_dc, bytes) = first_table(bytes, answer);
    let (other_ac, _) = first_table(bytes, answer);
    tables_of(&dc, &ac, &other_dc, &other_ac)
}
