//! The tables that a scan needs; those are written that aren't the last ones of their class and slot (T.81, B.2.4.2,
//! Figure B.7).
ghost use Rattle.std.specs.Prelude.{◌≡◌, ◌<◌, ◌≤◌, ◌==◌, ◌∷◌, ◌++◌, [], if◌then◌else◌, length, All, Ok};
ghost use Rattle.std.specs.Option.{option_map};
ghost use Rattle.jpg_spec_write.specs.FileText.{holds_table, tables_given, tables_text, with_table};
ghost use Rattle.jpg_spec_write.specs.ScanText.{is_same};
ghost use Rattle.jpg_huff.specs.BitOut.{CanSend, Sends};
ghost use Rattle.jpg_huff.specs.Sets.{in_slot};
ghost use Rattle.jpg_huff.specs.Tables.{table_of};
ghost use Rattle.jpg_prog_write.specs.Written.{tables_in};
ghost use Rattle.jpg_file.specs.Write.WriteScan.{GivesTables, IsTablePlace, class_tables, given_by};

use arrayvec::ArrayVec;
use jpg_base::codes::DHT;
use jpg_base::{Desk, WriteFault};
use jpg_huff::{BitOut, Table, TableSet};
use jpg_markers::write_segment;

/// A class of tables, 0 for DC and 1 for AC, and slot 0 or 1.
pub type TablePlace = (u8, u8);

// The contents of a DHT segment: one byte for class and slot, 16 counts, at most 256 symbols.
type Contents = ArrayVec<u8, 273>;

#[tactic(auto, using(std::proofs::lemmas::List::append_assoc, std::proofs::lemmas::List::take_more))]
fn contents_of(place: u8, table: &Table) -> Contents
    requires counts { length (table_of table.now).counts ≡ 16 }
    requires symbols { length (table_of table.now).symbols ≤ 256 }
    ensures { result.items ≡ place ∷ (table_of table.now).counts ++ (table_of table.now).symbols }
{
    let mut contents = counted(place, table);
    for symbol in table.symbols() {
        contents.push(*symbol);
    }
    contents
}

// The contents before the symbols.
#[tactic(auto, using(std::proofs::lemmas::List::take_more))]
fn counted(place: u8, table: &Table) -> Contents
    requires { length (table_of table.now).counts ≡ 16 }
    ensures value { result.items ≡ place ∷ (table_of table.now).counts }
    ensures long { length result.items ≡ 17 }
{
    let mut contents = Contents::new();
    contents.push(place);
    for i in 0..16 {
        contents.push(table.count(i + 1));
    }
    contents
}

// The table of a class and slot.
fn table_in(tables: &TableSet, class: u8, slot: u8) -> Option<&Table>
    ensures { option_map (λ t. t.now) result ≡ in_slot (class_tables tables.now class) slot }
{
    if class == 0 {
        tables.dc(slot)
    } else {
        tables.ac(slot)
    }
}

// Whether the tables have the same codes.
fn is_same(old: &Table, table: &Table) -> bool
    requires old { length (table_of old.now).counts ≡ 16 }
    requires new { length (table_of table.now).counts ≡ 16 }
    ensures { result ≡ is_same (table_of old.now) (table_of table.now) }
{
    counted(0, old).as_slice() == counted(0, table).as_slice() && old.symbols() == table.symbols()
}

// Whether the table is the last one of its class and slot.
fn holds(given: &TableSet, class: u8, slot: u8, table: &Table) -> bool
    requires class { class < 2 }
    requires new { length (table_of table.now).counts ≡ 16 }
    ensures { result ≡ holds_table (given_by given.now class slot) (table_of table.now) }
{
    match table_in(given, class, slot) {
        Some(old) => is_same(old, table),
        None => false,
    }
}

// Notes the table as the last one of its class and slot.
fn put(given: &mut TableSet, class: u8, slot: u8, table: &Table)
    requires class { class < 2 }
    requires slot { slot < 4 }
    ensures { given_by given.new ≡ with_table (given_by given.old) class slot (table_of table.now) }
{
    given.slots();
    if class == 0 {
        given.set_dc(slot, table);
    } else {
        given.set_ac(slot, table);
    }
}

// Writes a DHT segment of a table, if it isn't the last one of its class and slot.
fn write_table<D: Desk>(
    place: TablePlace,
    tables: &TableSet,
    given: &mut TableSet,
    out: &mut BitOut,
    desk: &mut D,
) -> Result<(), WriteFault>
    requires can { CanSend (D.state desk.old) out.old }
    requires place { IsTablePlace place }
    requires tables { GivesTables tables.now (tables_in tables.now) }
    ensures sends { Sends (D.state desk.old) out.old (tables_text (given_by given.old) (tables_in tables.now) (place ∷ [])) result out.new (D.state desk.new) }
    ensures given { given_by given.new ≡ with_table (given_by given.old) place.0 place.1 (tables_in tables.now place.0 place.1) }
{
    let (class, slot) = place;
    let Some(table) = table_in(tables, class, slot) else {
        return Ok(());
    };
    let is_held = holds(given, class, slot, table);
    put(given, class, slot, table);
    if is_held {
        return Ok(());
    }
    let contents = contents_of(16 * class + slot, table);
    write_segment(DHT, contents.as_slice(), out, desk)
}

/// Writes a DHT segment for each of these tables that isn't the last one of its class and slot.
pub fn write_due<D: Desk>(
    needed: &[TablePlace],
    tables: &TableSet,
    given: &mut TableSet,
    out: &mut BitOut,
    desk: &mut D,
) -> Result<(), WriteFault>
    requires can { CanSend (D.state desk.old) out.old }
    requires needed { All IsTablePlace needed.now }
    requires tables { GivesTables tables.now (tables_in tables.now) }
    ensures sends { Sends (D.state desk.old) out.old (tables_text (given_by given.old) (tables_in tables.now) needed.now) result out.new (D.state desk.new) }
    ensures given { (u : Unit {0}) → result ≡ Ok u → given_by given.new ≡ tables_given (given_by given.old) (tables_in tables.now) needed.now }
{
    for place in needed {
        write_table(*place, tables, given, out, desk)?;
    }
    Ok(())
}
