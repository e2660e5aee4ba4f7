//! The machine that reads a scan, of whatever kind it is, and the data bytes that are given to it (T.81, F.2.2, G.2).
ghost use Rattle.std.specs.Prelude.{◌<◌, ◌≤◌, Bool, List, [], length, ◌≡◌, false, take};
ghost use Rattle.jpg_spec.specs.Bits.{bits_of_bytes};
ghost use Rattle.jpg_coefs.specs.Machine.{Interval};
ghost use Rattle.jpg_file.specs.Read.Machine.{GivesRun, any_scan, IsBareScan, IsOfHeader, IsScanHeader};

use jpg_base::{BitStore, Frame, ScanHead};
use jpg_coefs::{Coefs, ScanMachine, Taken};
use jpg_huff::TableSet;
use jpg_prog_read::{AcReader, DcFirst, DcRefine};
use jpg_seq::SeqReader;

/// A machine that reads a scan, by its kind.
#[derive(Drop)]
pub enum ScanReader {
    /// Of a scan of a sequential frame.
    Sequential(SeqReader),
    /// Of a first pass of DC.
    DcFirst(DcFirst),
    /// Of a refinement of DC.
    DcRefine(DcRefine),
    /// Of a band of AC.
    Ac(AcReader),
}

impl ScanReader {
    /// Puts in the tables that the header names, if they aren't there yet.
    #[cold]
    #[inline(never)]
    pub fn put_tables(&mut self, frame: &Frame, head: &ScanHead, tables: &TableSet)
        requires header { IsScanHeader frame.now head.now tables.now }
        requires bare { IsBareScan frame.now head.now tables.now self.old }
        ensures { (i : Interval) → IsOfHeader frame.now head.now tables.now i → any_scan.ready self.new i }
    {
        match self {
            ScanReader::Sequential(machine) => machine.put_tables(frame, head, tables),
            ScanReader::DcFirst(machine) => machine.put_tables(frame, head, tables),
            ScanReader::DcRefine(_) => {}
            ScanReader::Ac(_) => {}
        }
    }

    /// Takes the bits of some data bytes, up to the byte whose bits end the interval or reveal a fault. Returns how
    /// many bytes were taken, and the result. Bits after the interval's last one are dropped.
    #[inline]
    pub fn run(&mut self, coefs: &mut Coefs, bytes: &[u8]) -> (usize, Taken)
        requires open { (i : Interval) × (bits : List Bool) × any_scan.stands self.old i bits coefs.old }
        requires left { 1 ≤ any_scan.left self.old }
        requires some { 1 ≤ length bytes.now }
        requires few { length bytes.now < 4294967296 }
        ensures { GivesRun _ any_scan self.old coefs.old bytes.now result.0 result.1 [] self.new coefs.new }
    {
        match self {
            ScanReader::Sequential(machine) => {
                let all = machine.units_left();
                let got = machine.bytes(bytes, coefs, &[0; 4], all);
                (got.bits.div_ceil(8) as usize, got.taken)
            }
            ScanReader::DcFirst(machine) => take_run(machine, coefs, bytes),
            ScanReader::DcRefine(machine) => take_run(machine, coefs, bytes),
            ScanReader::Ac(machine) => take_run(machine, coefs, bytes),
        }
    }

    /// Begins the next interval of the scan, of this many units, with predictions 0 (T.81, F.2.1.3.1) and no bits.
    pub fn restart(&mut self, units: u64)
        requires ready { (i : Interval) × any_scan.ready self.old i × (length i.places ≡ units) }
        requires some { 1 ≤ units }
        ensures begun { (i : Interval) → any_scan.ready self.old i → length i.places ≡ units → any_scan.stands self.new i [] i.before }
        ensures left { any_scan.left self.new ≡ units }
    {
        match self {
            ScanReader::Sequential(machine) => machine.restart(units),
            ScanReader::DcFirst(machine) => machine.restart(units),
            ScanReader::DcRefine(machine) => machine.restart(units),
            ScanReader::Ac(machine) => machine.restart(units),
        }
    }
}

// The bits of at most eight bytes.
fn bits_of_few(bytes: &[u8]) -> BitStore
    requires { length bytes.now ≤ 8 }
    ensures { result ≡ bits_of_bytes bytes.now }
{
    let mut store = BitStore::new();
    for byte in bytes {
        store.push(*byte);
    }
    store
}

/// Gives any machine the bits of some data bytes, eight bytes at a time, up to the byte whose bits end the interval or
/// reveal a fault. Returns how many bytes were given, and the result.
pub fn take_run<M: ScanMachine>(machine: &mut M, coefs: &mut Coefs, bytes: &[u8]) -> (usize, Taken)
    requires open { (i : Interval) × (bits : List Bool) × M.kind.stands machine.old i bits coefs.old }
    requires left { 1 ≤ M.kind.left machine.old }
    requires some { 1 ≤ length bytes.now }
    ensures { GivesRun _ M.kind machine.old coefs.old bytes.now result.0 result.1 [] machine.new coefs.new }
{
    let mut rest = bytes;
    loop {
        let front = &rest[..rest.len().min(8)];
        let mut store = bits_of_few(front);
        let most = machine.units_left();
        let taken = machine.bits(&mut store, coefs, most);
        let given = bytes.len() - rest.len() + (front.len() - store.len() as usize / 8);
        if rest.len() <= 8 || taken != Taken::More {
            return (given, taken);
        }
        rest = &rest[8..];
    }
}
