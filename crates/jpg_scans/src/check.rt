//! The check of a script on a frame (T.81, B.2.3, G.1.1.1).
ghost use Rattle.std.specs.Prelude.{◌≡◌, ◌≤◌, [], nat_lt, true, false, length};
ghost use Rattle.jpg_spec.specs.Geometry.{factor_sum};
ghost use Rattle.jpg_spec.specs.Lists.{all_of};
ghost use Rattle.jpg_spec.specs.ScanContents.{is_band, are_bits};
ghost use Rattle.jpg_spec_write.specs.ScriptFaults.{ascend, entry_head, has_wrong_component, has_large_mcu, fault_after};
ghost use Rattle.jpg_scans.specs.Judged.{script_process, has_numbers, TakesEntry};

use crate::{Entry, Progress};
use arrayvec::ArrayVec;
use jpg_base::{Frame, Process, ScanHead, ScanPart};
use jpg_spec_write::PictureFault;

// The first fault of entries on a frame.
pub fn fault_of(entries: &[Entry], is_progressive: bool, frame: &Frame) -> Option<PictureFault>
    requires { length entries.now ≤ 100 }
    ensures { result ≡ fault_after is_progressive frame.now [] 0 entries.now }
{
    frame.checked();
    let mut history = Progress::new(&frame.with_process(process_due(is_progressive)));
    let mut number = 0;
    for entry in entries {
        let fault = take_entry(&mut history, frame, is_progressive, number, entry);
        if fault.is_some() {
            return fault;
        }
        number += 1;
    }
    history.first_unknown()
}

// A process of the script's kind that allows all precisions.
fn process_due(is_progressive: bool) -> Process
    ensures { result ≡ script_process is_progressive }
{
    if is_progressive {
        Process::Progressive
    } else {
        Process::Extended
    }
}

// The fault of an entry; an entry without one is noted.
fn take_entry(
    history: &mut Progress,
    frame: &Frame,
    is_progressive: bool,
    number: u8,
    entry: &Entry,
) -> Option<PictureFault>
    ensures { TakesEntry is_progressive frame.now history.old number entry.now result history.new }
{
    frame.checked();
    if has_wrong_component(frame, entry) {
        return Some(PictureFault::ScriptComponent { entry: number });
    }
    if has_large_mcu(frame, entry) {
        return Some(PictureFault::ScriptMcu { entry: number });
    }
    let head = head_of(entry);
    if !has_numbers(frame, is_progressive, &head) {
        return Some(PictureFault::ScriptBand { entry: number });
    }
    match history.admit(&head) {
        Ok(()) => None,
        Err(_) => Some(PictureFault::ScriptBand { entry: number }),
    }
}

// No component, one that isn't in the frame, or some that don't ascend.
fn has_wrong_component(frame: &Frame, entry: &Entry) -> bool
    ensures { result ≡ has_wrong_component frame.now entry.now }
{
    let components = entry.components.as_slice();
    components.is_empty() || (!are_below(frame.count(), components) || !ascend(components))
}

fn are_below(count: u8, components: &[u8]) -> bool
    ensures { result ≡ all_of (λ i. nat_lt i count) components.now }
{
    for i in components {
        if *i >= count {
            return false;
        }
    }
    true
}

fn ascend(components: &[u8]) -> bool
    ensures { result ≡ ascend components.now }
{
    let Some((first, rest)) = components.split_first() else {
        return true;
    };
    let mut last = *first;
    for i in rest {
        if last >= *i {
            return false;
        }
        last = *i;
    }
    true
}

// Several components whose MCU has more than ten blocks.
fn has_large_mcu(frame: &Frame, entry: &Entry) -> bool
    requires { has_wrong_component frame.now entry.now ≡ false }
    ensures { result ≡ has_large_mcu frame.now entry.now }
{
    entry.components.len() > 1 && factor_sum(frame, entry.components.as_slice()) > 10
}

fn factor_sum(frame: &Frame, components: &[u8]) -> u32
    requires known { all_of (λ i. nat_lt i (length frame.now.components)) components.now ≡ true }
    requires few { length components.now ≤ 4 }
    ensures { result ≡ factor_sum frame.now components.now }
{
    let mut sum = 0;
    for i in components {
        let component = frame.component(*i);
        sum += u32::from(component.h) * u32::from(component.v);
    }
    sum
}

// The scan header of an entry, with table slots 0.
fn head_of(entry: &Entry) -> ScanHead
    ensures { result ≡ entry_head entry.now }
{
    let mut parts = ArrayVec::new();
    for i in entry.components.as_slice() {
        parts.push(ScanPart {
            component: *i,
            dc: 0,
            ac: 0,
        });
    }
    ScanHead {
        parts,
        ss: entry.ss,
        se: entry.se,
        ah: entry.ah,
        al: entry.al,
    }
}

// A sequential scan has all coefficients with all their bits, a progressive one the parameters of a scan header.
fn has_numbers(frame: &Frame, is_progressive: bool, head: &ScanHead) -> bool
    ensures { result ≡ has_numbers is_progressive frame.now head.now }
{
    if is_progressive {
        has_band(head) && has_bits(frame, head)
    } else {
        head.ss == 0 && (head.se == 63 && (head.ah == 0 && head.al == 0))
    }
}

// The band is DC, or AC of one component.
fn has_band(head: &ScanHead) -> bool
    ensures { result ≡ is_band (length head.now.parts) head.now }
{
    if head.ss == 0 {
        head.se == 0
    } else {
        head.parts.len() == 1 && (head.ss <= head.se && head.se <= 63)
    }
}

// Ah is 0 or one more than Al.
fn has_bits(frame: &Frame, head: &ScanHead) -> bool
    ensures { result ≡ are_bits frame.now head.now }
{
    (head.ah == 0 || u16::from(head.ah) == u16::from(head.al) + 1) && head.al <= frame.bounds().al
}
