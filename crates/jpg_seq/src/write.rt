//! The bits of a block in a sequential scan, written (T.81, F.1.2.1, F.1.2.2).
ghost use Rattle.std.specs.Prelude.{◌≡◌, ◌≤◌, [], drop, slice_index_or, true, pos, negsuc, ◌-ℤ◌, ◌≤ℤ◌};
ghost use Rattle.jpg_spec.specs.Numbers.{category as category_of};
ghost use Rattle.jpg_spec.specs.Codes.{code_of};
ghost use Rattle.jpg_huff.specs.BitOut.{Puts, PutsAfter};
ghost use Rattle.jpg_huff.specs.Tables.{symbol_codes};
ghost use Rattle.jpg_seq.specs.ScanWritten.{IsShort, run_bits, band_bits, dc_bits, coded_block};

use jpg_base::{Block, Desk, WriteFault};
use jpg_huff::{BitOut, Encoder, ExtendedCode, PendingBits, Table, category, extra_bits};

// Writes the first code of a symbol, if any.
#[inline(always)]
fn put_code<D: Desk>(
    encoder: &Encoder,
    symbol: u8,
    out: &mut BitOut,
    desk: &mut D,
) -> Result<(), WriteFault>
    requires { (D.state desk.old).output_created ≡ true }
    ensures { Puts (D.state desk.old) out.old (code_of encoder.now symbol) result out.new (D.state desk.new) }
{
    let code = encoder.code(symbol);
    out.put(u32::from(code.bits), code.length, desk)
}

// Writes the first code of a symbol, if any, after bits that were handed out.
#[inline(always)]
fn put_code_after<D: Desk>(
    encoder: &Encoder,
    symbol: u8,
    held: PendingBits,
    out: &mut BitOut,
    desk: &mut D,
) -> Result<PendingBits, WriteFault>
    requires created { (D.state desk.old).output_created ≡ true }
    requires none { out.old.bits ≡ [] }
    ensures puts { PutsAfter (D.state desk.old) out.old held (code_of encoder.now symbol) result out.new (D.state desk.new) }
    ensures none { out.new.bits ≡ [] }
{
    let code = encoder.code(symbol);
    out.put_after(held, u32::from(code.bits), code.length, desk)
}

// A value that isn't 0, after a run of zeros.
#[derive(Clone, Copy)]
struct RunValue {
    run: u8,
    value: i16,
}

// Writes a value after a run of zeros, of which each sixteen have a code of their own (T.81, F.1.2.2, Figure F.3).
#[inline(never)]
fn put_any_run<D: Desk>(
    ac: &Encoder,
    next: RunValue,
    out: &mut BitOut,
    desk: &mut D,
) -> Result<(), WriteFault>
    requires created { (D.state desk.old).output_created ≡ true }
    requires short { category_of next.value ≤ 15 }
    ensures { Puts (D.state desk.old) out.old (run_bits ac.now next.run next.value) result out.new (D.state desk.new) }
{
    let mut left = next.run;
    while left >= 16 {
        put_code(ac, 0xf0, out, desk)?;
        left -= 16;
    }
    let (bits, count) = ac.any_value(left, next.value);
    out.put(bits, count, desk)
}

// `put_any_run` after bits that were handed out.
#[inline(always)]
fn put_any_after<D: Desk>(
    ac: &Encoder,
    next: RunValue,
    held: PendingBits,
    out: &mut BitOut,
    desk: &mut D,
) -> Result<PendingBits, WriteFault>
    requires created { (D.state desk.old).output_created ≡ true }
    requires short { category_of next.value ≤ 15 }
    requires none { out.old.bits ≡ [] }
    ensures puts { PutsAfter (D.state desk.old) out.old held (run_bits ac.now next.run next.value) result out.new (D.state desk.new) }
    ensures none { out.new.bits ≡ [] }
{
    out.give(held);
    match put_any_run(ac, next, out, desk) {
        Ok(()) => Ok(out.take()),
        Err(fault) => Err(fault),
    }
}

// What gives the codes of values, and whether the values are of mixed sizes: which of two ways one would take can't be
// foreseen then, and all take the same one.
#[derive(Clone, Copy)]
struct RunCodes<'a> {
    ac: &'a Encoder,
    mixed: bool,
}

// Whether a value has an entry of its own.
#[inline(always)]
fn is_small(value: i16) -> bool
    ensures { result ≡ true → (negsuc 31 ≤ℤ value) × (value ≤ℤ pos 31) }
{
    value >= -32 && value < 32
}

// Writes a value after a run of zeros, after bits that were handed out (T.81, F.1.2.2, Figure F.3). After a short run it is
// looked up together with its code.
#[inline(always)]
#[tactic(auto, using(crate::proofs::Written::value_spelled))]
fn put_run<D: Desk>(
    codes: RunCodes<'_>,
    next: RunValue,
    held: PendingBits,
    out: &mut BitOut,
    desk: &mut D,
) -> Result<PendingBits, WriteFault>
    requires created { (D.state desk.old).output_created ≡ true }
    requires short { category_of next.value ≤ 15 }
    requires none { out.old.bits ≡ [] }
    ensures puts { PutsAfter (D.state desk.old) out.old held (run_bits codes.entry.ac.now next.run next.value) result out.new (D.state desk.new) }
    ensures none { out.new.bits ≡ [] }
{
    let RunCodes { ac, mixed } = codes;
    let RunValue { run, value } = next;
    if run >= 16 {
        // a record of its own, so that only this branch stores one
        put_any_after(ac, RunValue { run, value }, held, out, desk)
    } else if !mixed && is_small(value) {
        let (bits, count) = ac.value(run, value);
        out.put_after(held, bits, count, desk)
    } else {
        let (bits, count) = ac.any_value(run, value);
        out.put_after(held, bits, count, desk)
    }
}

// Writes the values after the first one, where a bit of a word says which aren't 0, and an EOB if zeros are left, after
// bits that were handed out (T.81, F.1.2.2, Figure F.2).
#[inline(always)]
fn put_band<D: Desk>(
    codes: RunCodes<'_>,
    block: &Block,
    before: PendingBits,
    out: &mut BitOut,
    desk: &mut D,
) -> Result<PendingBits, WriteFault>
    requires created { (D.state desk.old).output_created ≡ true }
    requires short { IsShort block.now }
    requires none { out.old.bits ≡ [] }
    ensures puts { PutsAfter (D.state desk.old) out.old before (band_bits codes.entry.ac.now (drop 1 block.now)) result out.new (D.state desk.new) }
    ensures none { out.new.bits ≡ [] }
{
    block.long();
    let mut held = before;
    let mut next = 1;
    let mut rest = (block.nonzero() >> 1) << 1;
    while rest != 0 {
        let k = rest.trailing_zeros() as u8;
        let value = RunValue {
            run: k - next,
            value: block.get(k),
        };
        held = put_run(codes, value, held, out, desk)?;
        next = k + 1;
        rest &= rest - 1;
    }
    if next < 64 {
        put_code_after(codes.ac, 0, held, out, desk)
    } else {
        Ok(held)
    }
}

// Whether an eighth of the values have no entry of their own. It remains a call, so that vectors of a block with few values
// aren't kept for it.
#[inline(never)]
fn has_large(block: &Block) -> bool {
    let mut count = 0u8;
    for k in 0..64u8 {
        if !is_small(block.get(k)) {
            count += 1;
        }
    }
    count >= 8
}

// Writes the values after the first one, where they are of mixed sizes.
#[inline(never)]
fn put_mixed<D: Desk>(
    ac: &Encoder,
    block: &Block,
    out: &mut BitOut,
    desk: &mut D,
) -> Result<(), WriteFault>
    requires created { (D.state desk.old).output_created ≡ true }
    requires short { IsShort block.now }
    ensures { Puts (D.state desk.old) out.old (band_bits ac.now (drop 1 block.now)) result out.new (D.state desk.new) }
{
    let before = out.take();
    let codes = RunCodes { ac, mixed: true };
    let held = put_band(codes, block, before, out, desk)?;
    out.give(held);
    Ok(())
}

// Writes the values after the first one, after bits that were handed out. They may be of mixed sizes, as noise of high
// quality has them; either way is right.
#[inline(always)]
fn put_values<D: Desk>(
    ac: &Encoder,
    block: &Block,
    before: PendingBits,
    out: &mut BitOut,
    desk: &mut D,
) -> Result<PendingBits, WriteFault>
    requires created { (D.state desk.old).output_created ≡ true }
    requires short { IsShort block.now }
    requires none { out.old.bits ≡ [] }
    ensures puts { PutsAfter (D.state desk.old) out.old before (band_bits ac.now (drop 1 block.now)) result out.new (D.state desk.new) }
    ensures none { out.new.bits ≡ [] }
{
    if block.nonzero().count_ones() >= 40 && has_large(block) {
        out.give(before);
        match put_mixed(ac, block, out, desk) {
            Ok(()) => Ok(out.take()),
            Err(fault) => Err(fault),
        }
    } else {
        put_band(RunCodes { ac, mixed: false }, block, before, out, desk)
    }
}

/// The difference of a block's DC value to that of the block before it (T.81, F.1.1.5.1).
#[inline(always)]
pub(crate) fn difference(block: &Block, prediction: i16) -> i32
    ensures value { result ≡ slice_index_or block.now 0 (pos 0) -ℤ prediction }
    ensures within { (negsuc 65534 ≤ℤ result) × (result ≤ℤ pos 65535) }
{
    i32::from(block.get(0)) - i32::from(prediction)
}

// What gives the codes of a block: its DC table, the codes of its AC table, and the DC value before it.
#[derive(Clone, Copy)]
pub(crate) struct BlockCodes<'a> {
    pub(crate) dc: &'a Table,
    pub(crate) ac: &'a Encoder,
    pub(crate) prediction: i16,
}

// Writes the category of the difference of DC values, and then its extra bits, after bits that were handed out (T.81,
// F.1.2.1).
#[inline(always)]
fn put_difference<D: Desk>(
    codes: BlockCodes<'_>,
    block: &Block,
    held: PendingBits,
    out: &mut BitOut,
    desk: &mut D,
) -> Result<PendingBits, WriteFault>
    requires created { (D.state desk.old).output_created ≡ true }
    requires none { out.old.bits ≡ [] }
    ensures puts { PutsAfter (D.state desk.old) out.old held (dc_bits (symbol_codes codes.entry.dc.now) codes.entry.prediction block.now) result out.new (D.state desk.new) }
    ensures none { out.new.bits ≡ [] }
{
    let value = difference(block, codes.prediction);
    let size = category(value);
    let code = ExtendedCode {
        code: codes.dc.written(size),
        extra: extra_bits(value),
        size,
    };
    out.put_code_after(held, code, desk)
}

// Writes a block, after the DC value before it. It remains a call: where the caller's block is in sight, its first value is
// kept apart, and the vectors that read the block wait for both parts.
#[inline(never)]
pub(crate) fn put_block<D: Desk>(
    codes: BlockCodes<'_>,
    block: &Block,
    out: &mut BitOut,
    desk: &mut D,
) -> Result<(), WriteFault>
    requires created { (D.state desk.old).output_created ≡ true }
    requires short { IsShort block.now }
    ensures { Puts (D.state desk.old) out.old (coded_block codes.entry block.now) result out.new (D.state desk.new) }
{
    let before = out.take();
    let first = put_difference(codes, block, before, out, desk)?;
    let held = put_values(codes.ac, block, first, out, desk)?;
    out.give(held);
    Ok(())
}
