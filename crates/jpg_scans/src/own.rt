//! Default scans that are added to a script: of all components, of each, of one.
ghost use Rattle.std.specs.Prelude.{◌≡◌, ◌<◌, ◌≤◌, ◌+◌, [], ◌∷◌, ◌++◌, length, map};
ghost use Rattle.jpg_spec.specs.Geometry.{factor_sum};
ghost use Rattle.jpg_spec.specs.Lists.{below};
ghost use Rattle.jpg_spec_write.specs.Script.{of_all, all_components};
ghost use Rattle.jpg_spec_write.specs.ScriptFaults.{of_one, of_each};
ghost use Rattle.jpg_scans.specs.Own.{with_band};

use crate::Entry;
use arrayvec::ArrayVec;
use jpg_base::Frame;

// The band and the bits of a scan.
#[derive(Clone, Copy)]
pub struct Band {
    // The first place, in zigzag order.
    pub ss: u8,
    // The last place.
    pub se: u8,
    // The bit down to which earlier scans sent it, 0 for none.
    pub ah: u8,
    // The bit down to which this one sends it.
    pub al: u8,
}

impl Band {
    pub fn new(ss: u8, se: u8, ah: u8, al: u8) -> Band
        ensures { result ≡ record { ss = ss; se = se; ah = ah; al = al } }
    {
        Band { ss, se, ah, al }
    }
}

// Adds a scan of all components, or one of each if an MCU of all would have more than ten blocks.
pub fn push_all(entries: &mut ArrayVec<Entry, 100>, frame: &Frame, band: Band)
    requires { length entries.old.items + 4 ≤ 100 }
    ensures items { entries.new.items ≡ entries.old.items ++ of_all frame.now band.ss band.se band.ah band.al }
    ensures long { length entries.new.items ≤ length entries.old.items + 4 }
{
    frame.checked();
    let count = frame.count();
    if count > 1 && factor_sum_of_all(frame) > 10 {
        push_each(entries, frame, band);
    } else {
        push_together(entries, count, band);
    }
}

// Adds a scan of each component.
pub fn push_each(entries: &mut ArrayVec<Entry, 100>, frame: &Frame, band: Band)
    requires { length entries.old.items + 4 ≤ 100 }
    ensures items { entries.new.items ≡ entries.old.items ++ of_each frame.now band.ss band.se band.ah band.al }
    ensures long { length entries.new.items ≤ length entries.old.items + 4 }
{
    for i in 0..frame.count() {
        push_one(entries, i, band);
    }
}

// Adds a scan of component `i`.
pub fn push_one(entries: &mut ArrayVec<Entry, 100>, i: u8, band: Band)
    requires { length entries.old.items < 100 }
    ensures items { entries.new.items ≡ entries.old.items ++ of_one i band.ss band.se band.ah band.al ∷ [] }
    ensures long { length entries.new.items ≡ length entries.old.items + 1 }
{
    let mut components = ArrayVec::new();
    components.push(i);
    entries.push(entry_of(components, band));
}

// Adds one scan of the first `count` components.
fn push_together(entries: &mut ArrayVec<Entry, 100>, count: u8, band: Band)
    requires few { count ≤ 4 }
    requires room { length entries.old.items < 100 }
    ensures items { entries.new.items ≡ entries.old.items ++ with_band (below count) band ∷ [] }
    ensures long { length entries.new.items ≡ length entries.old.items + 1 }
{
    let mut components = ArrayVec::new();
    for i in 0..count {
        components.push(i);
    }
    entries.push(entry_of(components, band));
}

fn entry_of(components: ArrayVec<u8, 4>, band: Band) -> Entry
    ensures { result ≡ with_band components.items band }
{
    Entry {
        components,
        ss: band.ss,
        se: band.se,
        ah: band.ah,
        al: band.al,
    }
}

// The blocks of an MCU of all components.
fn factor_sum_of_all(frame: &Frame) -> u32
    requires { length frame.now.components ≤ 4 }
    ensures { result ≡ factor_sum frame.now (all_components frame.now) }
{
    frame.checked();
    let mut sum = 0;
    for i in 0..frame.count() {
        let component = frame.component(i);
        sum += u32::from(component.h) * u32::from(component.v);
    }
    sum
}
