//! Huffman tables, parsed (T.81, B.2.4.2, Figure B.7).
ghost use Rattle.std.specs.Prelude.{◌≡◌, ◌%◌, ◌<◌, Ok, Err, drop, IfOk, IfErr};
ghost use Rattle.jpg_spec.specs.HuffContents.{definition_size, huffman_table_of, parsed_huffmans, put_definition};
ghost use Rattle.jpg_huff.specs.Definitions.{definitions_of};
ghost use Rattle.jpg_huff.specs.New.{AreRight};
ghost use Rattle.jpg_markers.specs.Huffmans.{definition_in, parsed_table, tables_judged};

use jpg_huff::{DefinitionSet, TableFault, judged_total};
use jpg_spec::Fault;

// A table as it is in a segment: its counts, its symbols, and the bytes after them.
#[derive(Drop)]
struct Definition<'a> {
    counts: &'a [u8; 16],
    symbols: &'a [u8],
    rest: &'a [u8],
}

/// Puts the tables of a segment's contents into their slots, where a later one replaces an earlier one of its slot, or
/// returns the first fault of the contents and changes no table. Each table is judged in this order: BadHuffman (its
/// class above 1 or its slot above 3), BadLength (fewer than 16 counts), BadHuffman (more than 256 codes), BadLength
/// (the segment ends inside its values), BadHuffman (a code doesn't fit its length, or is all ones) (T.81, B.2.4.2 and
/// Annex C). It takes no memory.
pub fn read_dht(contents: &[u8], tables: &mut DefinitionSet) -> Result<(), Fault>
    ensures accepted { IfOk result (λ _. parsed_huffmans (definitions_of tables.old) contents.now ≡ Ok (definitions_of tables.new)) }
    ensures refused { IfErr result (λ fault. parsed_huffmans (definitions_of tables.old) contents.now ≡ Err fault) }
    ensures unchanged { IfErr result (λ _. tables.new ≡ tables.old) }
{
    // All tables are judged before the first one is put.
    match judge(contents) {
        Ok(()) => put_all(contents, tables),
        Err(fault) => Err(fault),
    }
}

// The first fault of these contents, if any.
fn judge(contents: &[u8]) -> Result<(), Fault>
    ensures { result ≡ tables_judged contents.now }
{
    let mut rest = contents;
    while let [head, tail @ ..] = rest {
        match table_at(*head, tail) {
            Ok(table) => rest = table.rest,
            Err(fault) => return Err(fault),
        }
    }
    Ok(())
}

// Puts the tables of these contents into their slots, up to the first fault.
fn put_all(contents: &[u8], tables: &mut DefinitionSet) -> Result<(), Fault>
    ensures accepted { IfOk result (λ _. parsed_huffmans (definitions_of tables.old) contents.now ≡ Ok (definitions_of tables.new)) }
    ensures refused { IfErr result (λ fault. parsed_huffmans (definitions_of tables.old) contents.now ≡ Err fault) }
{
    let mut rest = contents;
    while let [head, tail @ ..] = rest {
        match table_at(*head, tail) {
            Ok(table) => {
                put(tables, *head, &table);
                rest = table.rest;
            }
            Err(fault) => return Err(fault),
        }
    }
    Ok(())
}

// Puts a table into the slot of its class.
#[tactic(auto, using(crate::proofs::Definitions::put_dc, crate::proofs::Definitions::put_ac))]
fn put(tables: &mut DefinitionSet, head: u8, table: &Definition)
    requires slot { head % 16 < 4 }
    requires right { AreRight table.now.counts.now table.now.symbols.now }
    ensures { definitions_of tables.new ≡ put_definition (definitions_of tables.old) (definition_in head table.now) }
{
    if head / 16 == 0 {
        tables.put_dc(head % 16, table.counts, table.symbols);
    } else {
        tables.put_ac(head % 16, table.counts, table.symbols);
    }
}

// The table after the byte of its class and slot.
#[tactic(auto, unfolding(jpg_spec::specs::HuffContents::huffman_table_of))]
fn table_at(head: u8, bytes: &[u8]) -> Result<Definition, Fault>
    ensures value { parsed_table head result ≡ huffman_table_of head bytes.now }
    ensures slot { IfOk result (λ _. head % 16 < 4) }
    ensures right { IfOk result (λ table. AreRight table.counts.now table.symbols.now) }
    ensures rest { IfOk result (λ table. table.rest.now ≡ drop (definition_size bytes.now) bytes.now) }
{
    if head / 16 > 1 || head % 16 > 3 {
        return Err(Fault::BadHuffman);
    }
    let Some((counts, values)) = bytes.split_first_chunk::<16>() else {
        return Err(Fault::BadLength);
    };
    match judged_total(counts, values) {
        Ok(total) => {
            let (symbols, rest) = values.split_at(total as usize);
            Ok(Definition {
                counts,
                symbols,
                rest,
            })
        }
        Err(TableFault::TooManyCodes) => Err(Fault::BadHuffman),
        Err(TableFault::ShortValues) => Err(Fault::BadLength),
        Err(TableFault::OverfullCodes) => Err(Fault::BadHuffman),
    }
}
