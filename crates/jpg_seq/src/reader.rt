//! The machine that reads a sequential scan (T.81, F.2.1.3.1, F.2.2).
ghost use Rattle.std.specs.Prelude.{◌≡◌, ◌≤◌, ◌<◌, ◌*◌, length, take, Some, All};
ghost use Rattle.jpg_seq.specs.declared.work.Coder.{Coder as Coded};
ghost use Rattle.jpg_seq.specs.Reader.{HasTables, IsBare, IsCoderOf, AreFilled, IsSeqScan, IsOfScan, no_coders, AreInRow, CanPut, CanReadInto, PassesPlaces, PutsUnit, ReadsBytesInto, ReadsInto, ReadsPlaces, CanRead, ReadsOn, with_work, sequential};
ghost use Rattle.jpg_spec.specs.Segments.{head_components};
ghost use Rattle.jpg_base.specs.Cursor.{AreIn};
ghost use Rattle.jpg_coefs.specs.Machine.{Interval};
ghost use Rattle.jpg_seq.specs.Source.{bits_in};

use crate::source::Source;
use crate::values::{ValueDecoder, fill, no_short_value};
use crate::work::{Coder, UnitEnd, UnitEnv, UnitWork};
use jpg_base::{BitStore, Bounds, Cursor, Frame, Place, ScanHead, ScanPart};
use jpg_coefs::{Coefs, ScanMachine, Taken, UnitFault, UnitStep};
use jpg_huff::{Decoder, TableSet};

/// A machine that reads a sequential scan (T.81, F.2.2).
#[derive(Drop)]
pub struct SeqReader {
    // What the precision allows.
    bounds: Bounds,
    // The tables by component.
    coders: [Option<Coder>; 4],
    // The places that are left.
    cursor: Cursor,
    // PRED by component (F.1.1.5.1).
    predictions: [i16; 4],
    // The current unit.
    unit: UnitWork,
    // How many units of the interval are left.
    left: u64,
}

// Puts the decoders of a part's tables into a place. They take some kilobytes, so the values by ten bits are filled in
// there.
#[cold]
#[inline(never)]
fn put_coder(place: &mut Option<Coder>, part: &ScanPart, tables: &TableSet)
    requires { HasTables tables.now part.now }
    ensures { (coder : Coded) × (place.new ≡ Some coder) × IsCoderOf tables.now part.now coder }
{
    let (Some(dc), Some(ac)) = (tables.dc(part.dc), tables.ac(part.ac)) else {
        unreachable!();
    };
    let mut ac = ValueDecoder {
        decoder: Decoder::new(ac),
        entries: [no_short_value(); 1024],
    };
    fill(&ac.decoder, &mut ac.entries);
    *place = Some(Coder {
        dc: Decoder::new(dc),
        ac,
    });
}

// Puts the decoders of the parts' tables into places, by component.
#[cold]
#[inline(never)]
fn put_coders(coders: &mut [Option<Coder>; 4], parts: &[ScanPart], tables: &TableSet)
    requires none { coders.old ≡ no_coders }
    requires there { All (HasTables tables.now) parts.now }
    requires small { All (λ p. p.component < 4) parts.now }
    ensures { AreFilled tables.now parts.now (length parts.now) coders.new }
{
    for part in parts {
        put_coder(&mut coders[part.component as usize], part, tables);
    }
}

impl SeqReader {
    /// A machine before the first unit of a scan, between intervals. The frame is sequential, the head's components are
    /// distinct ones of it, and the tables that it names are there.
    pub fn new(frame: &Frame, head: &ScanHead, tables: &TableSet) -> SeqReader
        requires { IsSeqScan frame.now head.now tables.now }
        ensures { (i : Interval) → IsOfScan frame.now head.now tables.now i → sequential.ready result i }
    {
        let mut reader = SeqReader::bare(frame, head);
        reader.put_tables(frame, head, tables);
        reader
    }

    /// A machine without the tables. They take tens of kilobytes, so `put_tables` builds them where the machine is
    /// stored.
    #[inline(always)]
    pub fn bare(frame: &Frame, head: &ScanHead) -> SeqReader
        requires { AreIn frame.now (head_components head.now) }
        ensures { IsBare frame.now head.now result }
    {
        SeqReader {
            bounds: frame.bounds(),
            coders: [None, None, None, None],
            cursor: Cursor::new(frame, head),
            predictions: [0; 4],
            unit: UnitWork::new(),
            left: 0,
        }
    }

    /// Puts in the tables that the head names.
    pub fn put_tables(&mut self, frame: &Frame, head: &ScanHead, tables: &TableSet)
        requires scan { IsSeqScan frame.now head.now tables.now }
        requires bare { IsBare frame.now head.now self.old }
        ensures { (i : Interval) → IsOfScan frame.now head.now tables.now i → sequential.ready self.new i }
    {
        frame.checked();
        put_coders(&mut self.coders, head.parts.as_slice(), tables);
    }

    // Takes bits of the current unit.
    #[inline(always)]
    fn unit_bits(&self, component: u8, unit: &mut UnitWork, source: &mut Source<'_>) -> UnitEnd
        requires { CanRead (with_work self.now unit.old) component }
        ensures { ReadsOn (with_work self.now unit.old) component (bits_in source.old) result unit.new (bits_in source.new) }
    {
        let Some(coder) = &self.coders[component as usize] else {
            return UnitEnd::Empty;
        };
        let env = UnitEnv {
            bounds: &self.bounds,
            coder,
            prediction: self.predictions[component as usize],
        };
        unit.take(&env, source)
    }
}

impl SeqReader {
    // Puts the block of a complete unit into those that are stored, and begins the next unit.
    #[inline(always)]
    fn put(&mut self, unit: &mut UnitWork, coefs: &mut Coefs, tops: &[u32; 4], place: Place)
        requires { CanPut (with_work self.old unit.old) coefs.old.frame tops.now place }
        ensures { PutsUnit tops.now (with_work self.old unit.old) coefs.old place (with_work self.new unit.new) coefs.new }
    {
        coefs.checked();
        let block = unit.block();
        let top = tops[place.component as usize];
        coefs.set_block(place.component, place.x, place.y - top, &block);
        self.predictions[place.component as usize] = block.get(0);
        *unit = UnitWork::new();
        self.cursor.step();
        self.left -= 1;
    }

    // Takes bits of the source, and puts the blocks into those that are stored: those of a row of MCUs, or of a complete
    // picture. By component, `tops` are the rows of the grids with which they begin; the next `most` units are among them.
    #[inline(always)]
    fn read(
        &mut self,
        unit: &mut UnitWork,
        source: &mut Source<'_>,
        coefs: &mut Coefs,
        tops: &[u32; 4],
        most: u64,
    ) -> Taken
        requires open { CanReadInto tops.now (with_work self.old unit.old) coefs.old }
        requires inside { AreInRow coefs.old.frame tops.now (take most self.old.cursor) }
        requires some { 1 ≤ most }
        ensures { ReadsPlaces most tops.now (with_work self.old unit.old) coefs.old (bits_in source.old) result (with_work self.new unit.new) coefs.new (bits_in source.new) }
    {
        let mut done = 0;
        loop {
            let place = self.cursor.place();
            match self.unit_bits(place.component, unit, source) {
                UnitEnd::Empty => return Taken::More,
                UnitEnd::Fault(fault) => return Taken::Fault(fault),
                UnitEnd::Done => {
                    self.put(unit, coefs, tops, place);
                    if self.left == 0 {
                        return Taken::IntervalDone;
                    }
                    done += 1;
                    if done >= most {
                        return Taken::Units;
                    }
                }
            }
        }
    }

    /// Takes bits from the start of the store as `bits` does, where the blocks that are stored begin at these rows of the
    /// components' grids: those of a picture, at 0, or of one row of its MCUs. The next `most` units are among them.
    pub fn bits_from(
        &mut self,
        store: &mut BitStore,
        coefs: &mut Coefs,
        tops: &[u32; 4],
        most: u64,
    ) -> Taken
        requires open { CanReadInto tops.now self.old coefs.old }
        requires inside { AreInRow coefs.old.frame tops.now (take most self.old.cursor) }
        requires some { 1 ≤ most }
        ensures takes { ReadsInto most tops.now self.old coefs.old store.old result self.new coefs.new store.new }
        ensures passes { PassesPlaces most self.old result self.new }
    {
        let mut unit = self.unit.copy();
        let _ = store.len();
        let mut source = Source {
            store: store.copy(),
            bytes: &[],
        };
        let taken = self.read(&mut unit, &mut source, coefs, tops, most);
        source.take_all();
        self.unit = unit;
        *store = source.store;
        taken
    }

    /// Takes the bits of data bytes, without stuffing, as `bits_from` takes those of a store.
    pub fn bytes(
        &mut self,
        bytes: &[u8],
        coefs: &mut Coefs,
        tops: &[u32; 4],
        most: u64,
    ) -> BytesTaken
        requires open { CanReadInto tops.now self.old coefs.old }
        requires inside { AreInRow coefs.old.frame tops.now (take most self.old.cursor) }
        requires some { 1 ≤ most }
        requires few { length bytes.now < 4294967296 }
        ensures takes { ReadsBytesInto most tops.now self.old coefs.old bytes.now result self.new coefs.new }
        ensures within { result.bits ≤ 8 * length bytes.now }
        ensures passes { PassesPlaces most self.old result.taken self.new }
    {
        let mut unit = self.unit.copy();
        let mut source = Source {
            store: BitStore::new(),
            bytes,
        };
        let all = source.len();
        let taken = self.read(&mut unit, &mut source, coefs, tops, most);
        self.unit = unit;
        BytesTaken {
            taken,
            bits: all - source.len(),
        }
    }
}

/// The result of bytes, and how many of their bits were taken.
#[derive(Clone, Copy, Debug, PartialEq, Eq)]
pub struct BytesTaken {
    pub taken: Taken,
    pub bits: u64,
}

impl ScanMachine for SeqReader {
    ghost kind = { sequential };

    #[tactic(auto, using(crate::proofs::Readings::all_inside, crate::proofs::Readings::all_taken))]
    fn bits(&mut self, store: &mut BitStore, coefs: &mut Coefs, most: u64) -> Taken {
        self.bits_from(store, coefs, &[0; 4], most)
    }

    fn bit(&mut self, bit: bool, coefs: &mut Coefs) -> Result<UnitStep, UnitFault> {
        let mut store = BitStore::new();
        store.push_bit(bit);
        match self.bits(&mut store, coefs, 1) {
            Taken::More => Ok(UnitStep::More),
            Taken::Units => Ok(UnitStep::More),
            Taken::IntervalDone => Ok(UnitStep::IntervalDone),
            Taken::Fault(fault) => Err(fault),
        }
    }

    // PRED is 0 at the start of each interval (T.81, F.2.1.3.1).
    #[tactic(auto, using(crate::proofs::Readings::begins))]
    fn restart(&mut self, units: u64) {
        self.unit = UnitWork::new();
        self.predictions = [0; 4];
        self.left = units;
    }

    fn units_left(&self) -> u64 {
        self.left
    }
}
