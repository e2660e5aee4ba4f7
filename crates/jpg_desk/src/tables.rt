//! The tables of quantisers, taken from a file if one is named (the manual of cjpeg in release 6b).
ghost use Rattle.jpg_desk.specs.Stays.{Keeps};
ghost use Rattle.jpg_desk.specs.TablesTaken.{AfterTables, AfterTablesFile};

use crate::file::take_file;
use arrayvec::ArrayVec;
use jpg_base::{Desk, Name, QuantTable, Text};
use jpg_dct::read_tables;
use jpg_spec_words::{Which, Why};
use std::alloc::Global;

// One byte more than the text of tables may have.
const LIMIT: usize = 65_537;

/// Up to four tables.
pub type Tables = ArrayVec<QuantTable, 4>;

/// The tables of the file of this name, if there is one. It is read to its end or up to 65,537 bytes: one more than its
/// text may have.
#[inline(never)]
pub fn take_tables<D: Desk>(
    alloc: Global,
    from: Option<Text>,
    desk: &mut D,
) -> Result<Option<Tables>, Why>
    ensures kept { Keeps (D.state desk.old) (D.state desk.new) }
    ensures after { AfterTables from (D.state desk.old) result (D.state desk.new) }
{
    match from {
        None => Ok(None),
        Some(text) => match take_told(alloc, &Name::File(text), desk) {
            Ok(tables) => Ok(Some(tables)),
            Err(why) => Err(why),
        },
    }
}

// The tables of the file of this name.
fn take_told<D: Desk>(alloc: Global, name: &Name, desk: &mut D) -> Result<Tables, Why>
    ensures kept { Keeps (D.state desk.old) (D.state desk.new) }
    ensures after { AfterTablesFile name.now (D.state desk.old) result (D.state desk.new) }
{
    match take_file(alloc, name, LIMIT, Which::Tables, desk) {
        Err(why) => Err(why),
        Ok(text) => match read_tables(text.as_slice()) {
            Ok(tables) => Ok(tables),
            Err(fault) => Err(Why::Refused(fault)),
        },
    }
}
