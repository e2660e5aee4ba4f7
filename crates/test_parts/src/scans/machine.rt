// What the machine of a sequential scan makes of the bits of its only interval.
ghost use Rattle.std.specs.Prelude.{◌≡◌, ◌≤◌, ◌*◌, ◌/◌, length, IfSome};
ghost use Rattle.jpg_spec.specs.Geometry.{is_progressive};
ghost use Rattle.jpg_seq.specs.Reader.{IsSeqScan};
ghost use Rattle.test_parts.specs.Heads.{HasFour};
ghost use Rattle.test_parts.specs.Open.{IsOpen, GoesOn, IsBlank};

use crate::scans::heads::all_components;
use crate::scans::walks::byte_of;
use arrayvec::ArrayVec;
use jpg_base::{BitStore, Frame, Process, ScanHead};
use jpg_coefs::{Coefs, ScanMachine, Taken, UnitStep};
use jpg_huff::TableSet;
use jpg_seq::SeqReader;

/// What bits came to, and how many of them were taken.
#[derive(Clone, Copy, Debug, PartialEq, Eq)]
pub struct Read {
    pub taken: Taken,
    pub bits: usize,
}

// A machine before the first bit of a scan of one interval. The picture's blocks are zero.
fn begin(frame: &Frame, head: &ScanHead, tables: &TableSet, coefs: &Coefs) -> Option<SeqReader>
    requires scan { IsSeqScan frame.now head.now tables.now }
    requires frame { coefs.now.frame ≡ frame.now }
    requires blank { IsBlank coefs.now }
    ensures { IfSome result (λ machine. IsOpen machine coefs.now) }
{
    let mut machine = SeqReader::new(frame, head, tables);
    let units = frame.scan_units(head);
    if units == 0 {
        return None;
    }
    let _ = coefs;
    machine.restart(units);
    Some(machine)
}

// One bit, with the answer of `bits`.
fn one_bit(machine: &mut SeqReader, coefs: &mut Coefs, bit: bool) -> Taken
    requires { IsOpen machine.old coefs.old }
    ensures { GoesOn result machine.new coefs.new }
{
    match machine.bit(bit, coefs) {
        Ok(step) => match step {
            UnitStep::More => Taken::More,
            UnitStep::IntervalDone => Taken::IntervalDone,
        },
        Err(fault) => Taken::Fault(fault),
    }
}

// The bits one by one, up to the first that doesn't come to More.
fn bit_by_bit(machine: &mut SeqReader, coefs: &mut Coefs, bits: &[bool]) -> Read
    requires { IsOpen machine.old coefs.old }
{
    for i in 0..bits.len() {
        let taken = one_bit(machine, coefs, bits[i]);
        if taken != Taken::More {
            return Read { taken, bits: i + 1 };
        }
    }
    Read {
        taken: Taken::More,
        bits: bits.len(),
    }
}

// At most 64 bits in a store of their own.
fn one_store(machine: &mut SeqReader, coefs: &mut Coefs, bits: &[bool]) -> Read
    requires open { IsOpen machine.old coefs.old }
    requires few { length bits.now ≤ 64 }
    ensures goes_on { GoesOn result.taken machine.new coefs.new }
    ensures few { result.bits ≤ length bits.now }
{
    let mut store = BitStore::new();
    for bit in bits {
        store.push_bit(*bit);
    }
    let taken = machine.bits(&mut store, coefs, u64::MAX);
    Read {
        taken,
        bits: bits.len() - (store.len() as usize).min(bits.len()),
    }
}

// At most 64 bits in two stores, the first of which has this many.
fn cut_at(machine: &mut SeqReader, coefs: &mut Coefs, bits: &[bool], at: usize) -> Read
    requires open { IsOpen machine.old coefs.old }
    requires few { length bits.now ≤ 64 }
{
    let at = at.min(bits.len());
    let first = one_store(machine, coefs, &bits[..at]);
    if first.taken != Taken::More {
        return first;
    }
    let second = one_store(machine, coefs, &bits[at..]);
    Read {
        taken: second.taken,
        bits: at + second.bits,
    }
}

// The complete bytes of bits.
fn bytes_of(bits: &[bool]) -> ArrayVec<u8, 8>
    requires { length bits.now ≤ 64 }
    ensures { length result.items ≡ length bits.now / 8 }
{
    let mut bytes = ArrayVec::new();
    for k in 0..bits.len() / 8 {
        bytes.push(byte_of(&bits[8 * k..8 * k + 8]));
    }
    bytes
}

// Bytes in one stretch.
fn one_stretch(machine: &mut SeqReader, coefs: &mut Coefs, bytes: &[u8]) -> Read
    requires open { IsOpen machine.old coefs.old }
    requires few { length bytes.now ≤ 8 }
    ensures goes_on { GoesOn result.taken machine.new coefs.new }
    ensures few { result.bits ≤ 8 * length bytes.now }
{
    let got = machine.bytes(bytes, coefs, &[0; 4], u64::MAX);
    Read {
        taken: got.taken,
        bits: got.bits as usize,
    }
}

// Two stretches, the first of which has this many bytes.
fn stretches(machine: &mut SeqReader, coefs: &mut Coefs, bytes: &[u8], at: usize) -> Read
    requires open { IsOpen machine.old coefs.old }
    requires few { length bytes.now ≤ 8 }
    ensures goes_on { GoesOn result.taken machine.new coefs.new }
    ensures few { result.bits ≤ 64 }
{
    let at = at.min(bytes.len());
    let first = one_stretch(machine, coefs, &bytes[..at]);
    if first.taken != Taken::More {
        return first;
    }
    let second = one_stretch(machine, coefs, &bytes[at..]);
    Read {
        taken: second.taken,
        bits: 8 * at + second.bits,
    }
}

// At most 64 bits, their complete bytes in two stretches, the first of which has this many bytes, and what is
// after them in a store.
fn by_bytes(machine: &mut SeqReader, coefs: &mut Coefs, bits: &[bool], at: usize) -> Read
    requires open { IsOpen machine.old coefs.old }
    requires few { length bits.now ≤ 64 }
{
    let bytes = bytes_of(bits);
    let first = stretches(machine, coefs, bytes.as_slice(), at);
    if first.taken != Taken::More {
        return first;
    }
    let second = one_store(machine, coefs, &bits[8 * bytes.len()..]);
    Read {
        taken: second.taken,
        bits: first.bits + second.bits,
    }
}

/// How bits are handed on: one by one; in two stores, the first of which has so many; or in two stretches of
/// complete bytes, the first of which has so many.
#[derive(Clone, Copy, Debug, PartialEq, Eq)]
pub enum Cut {
    EachBit,
    At(usize),
    Bytes(usize),
}

/// Whether a frame of this process is progressive.
pub fn is_progressive(process: Process) -> bool
    ensures { result ≡ is_progressive process }
{
    match process {
        Process::Baseline => false,
        Process::Extended => false,
        Process::Progressive => true,
    }
}

/// The only interval of a scan of all components, read from bits, of which there are 64 at most, into a picture of zeros. None for a
/// progressive frame.
pub fn read_scan(
    frame: &Frame,
    tables: &TableSet,
    bits: &[bool],
    cut: Cut,
    coefs: &mut Coefs,
) -> Option<Read>
    requires tables { HasFour tables.now }
    requires frame { coefs.old.frame ≡ frame.now }
    requires blank { IsBlank coefs.old }
{
    if is_progressive(frame.process()) || bits.len() > 64 {
        return None;
    }
    frame.checked();
    let head = all_components(frame);
    let Some(mut machine) = begin(frame, &head, tables, coefs) else {
        return None;
    };
    let read = match cut {
        Cut::EachBit => bit_by_bit(&mut machine, coefs, bits),
        Cut::At(at) => cut_at(&mut machine, coefs, bits, at),
        Cut::Bytes(at) => by_bytes(&mut machine, coefs, bits, at),
    };
    Some(read)
}
