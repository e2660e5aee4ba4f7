//! The units of a scan, given one after another to what writes or counts them (T.81, A.2.2 to A.2.4, E.1.4).
ghost use Rattle.std.specs.Prelude.{◌≡◌, ◌≤◌, ◌<◌, ◌+◌, ◌==◌, ◌∷◌, if◌then◌else◌, true, drop, length, IfSome, OnOk};
ghost use Rattle.jpg_spec.specs.Scan.{Blocks};
ghost use Rattle.jpg_spec.specs.Elements.{zeros};
ghost use Rattle.jpg_spec.specs.Geometry.{IsReal};
ghost use Rattle.jpg_spec.specs.Scan.{part_of as part_in};
ghost use Rattle.jpg_spec.specs.Segments.{head_components};
ghost use Rattle.jpg_base.specs.Cursor.{AreIn};
ghost use Rattle.jpg_coefs.specs.ScanUnits.{AgreeAt, CanGive, GivenScan, GivesNext, IsUngiven, TakesPlaceOf};
ghost use Rattle.jpg_coefs.specs.Sinks.{SinkKind, at, scan_due, IsNext, TakesUnit, IsOpen, Ends, Begins, IsNextPlace};

use crate::BlockView;
use jpg_base::{Block, Cursor, Frame, Place, ScanHead, ScanPart, WriteFault};

/// A unit of a scan that is given to a sink: a block of a component, after one with this DC value (0 if there was none).
#[derive(Clone, Copy)]
pub struct GivenUnit<'a> {
    pub component: u8,
    pub last: i16,
    pub block: &'a Block,
}

/// A scan that is written: its header, and the restart interval (0: none).
#[derive(Clone, Copy)]
pub struct WrittenScan<'a> {
    pub head: &'a ScanHead,
    pub interval: u16,
}

/// The next units of a scan, `count` of them, whose blocks a view has.
#[derive(Clone, Copy)]
pub struct NextUnits<'a, V> {
    pub view: &'a V,
    pub count: u64,
}

// A place of a scan, and the view that has its block if it is a real one.
#[derive(Clone, Copy)]
struct ViewedPlace<'a, V> {
    view: &'a V,
    place: Place,
}

/// What takes the units of a scan, interval by interval: it writes or counts them. The results go to `out`, and from
/// there to `desk`. After a fault nothing more is given to it.
pub trait UnitSink<O, D> {
    /// What its states mean.
    ghost kind: { SinkKind Self O D };

    /// Takes the next unit of the interval.
    fn unit(&mut self, unit: GivenUnit<'_>, out: &mut O, desk: &mut D) -> Result<(), WriteFault>
        requires { IsNext kind (unit.component, unit.block.now) unit.last (at self.old out.old desk.old) }
        ensures { TakesUnit kind (unit.entry.component, unit.entry.block.now) unit.entry.last (at self.old out.old desk.old) result (at self.new out.new desk.new) };

    /// Ends an interval: the last one, or before the next one, with the restart marker of this number, 0 to 7.
    fn end(&mut self, marker: Option<u8>, out: &mut O, desk: &mut D) -> Result<(), WriteFault>
        requires marker { IfSome marker (λ n. n < 8) }
        requires open { IsOpen kind (at self.old out.old desk.old) }
        ensures { Ends kind marker (at self.old out.old desk.old) result (at self.new out.new desk.new) };
}

/// The part of a scan's header for a component, by its index in the frame.
pub fn part_of(head: &ScanHead, component: u8) -> ScanPart
    ensures { result ≡ part_in head.now component }
{
    for part in head.parts.as_slice() {
        if part.component == component {
            return *part;
        }
    }
    ScanPart {
        component,
        dc: 0,
        ac: 0,
    }
}

// A padding block: this DC value and no AC (T.81, A.2.4).
fn padding(last: i16) -> Block
    ensures { result ≡ last ∷ zeros 63 }
{
    let mut block = Block::zero();
    block.set(0, last);
    block
}

// Gives a padding block to a sink, after this DC value of its component, which it has too. It remains a call: where blocks
// of both kinds are made in one place, each is copied in two parts, and what reads it waits for both.
#[cold]
#[inline(never)]
fn put_padding<O, D, S: UnitSink<O, D>>(
    component: u8,
    last: i16,
    sink: &mut S,
    out: &mut O,
    desk: &mut D,
) -> Result<(), WriteFault>
    requires { IsNext S.kind (component, last ∷ zeros 63) last (at sink.old out.old desk.old) }
    ensures { TakesUnit S.kind (component, last ∷ zeros 63) last (at sink.old out.old desk.old) result (at sink.new out.new desk.new) }
{
    let block = padding(last);
    let unit = GivenUnit {
        component,
        last,
        block: &block,
    };
    sink.unit(unit, out, desk)
}

// Gives the unit at a place to a sink, after these DC values of the components.
#[inline(always)]
fn put_place<V: BlockView, O, D, S: UnitSink<O, D>>(
    due: ViewedPlace<'_, V>,
    last: &mut [i16; 4],
    sink: &mut S,
    out: &mut O,
    desk: &mut D,
) -> Result<(), WriteFault>
    requires real { due.place.real ≡ true → IsReal (V.numbers due.view.now) due.place.component due.place.x due.place.y }
    requires four { due.place.component < 4 }
    requires next { (blocks : Blocks) × AgreeAt blocks (V.blocks due.view.now) due.place × IsNextPlace S.kind blocks last.old due.place (at sink.old out.old desk.old) }
    ensures { TakesPlaceOf S.kind (V.blocks due.entry.view.now) last.old due.entry.place (at sink.old out.old desk.old) result last.new (at sink.new out.new desk.new) }
{
    let place = due.place;
    let before = last[place.component as usize];
    if place.real {
        let block = due.view.block(place.component, place.x, place.y);
        last[place.component as usize] = block.get(0);
        let unit = GivenUnit {
            component: place.component,
            last: before,
            block: &block,
        };
        sink.unit(unit, out, desk)
    } else {
        last[place.component as usize] = before;
        put_padding(place.component, before, sink, out, desk)
    }
}

/// The units of a scan that are left, while they are given to a sink in one call or in several (T.81, A.2.2 to A.2.4).
#[derive(Drop)]
pub struct ScanUnits {
    // The places that are left.
    cursor: Cursor,
    // How many they are.
    left: u64,
    // How many units an interval has.
    each: u64,
    // How many units of the current interval are left.
    due: u64,
    // The number of the restart marker after it.
    turn: u8,
    // The last DC value of each component.
    last: [i16; 4],
}

impl ScanUnits {
    /// All units of a scan, with an end of an interval after each `interval` MCUs (0: none). The header names one to four
    /// components of the frame.
    #[inline(always)]
    pub fn new(frame: &Frame, head: &ScanHead, interval: u16) -> ScanUnits
        requires { AreIn frame.now (head_components head.now) }
        ensures { IsUngiven frame.now head.now interval result }
    {
        frame.checked();
        let left = frame.scan_units(head);
        let each = each_interval(u64::from(interval) * u64::from(frame.mcu_units(head)), left);
        ScanUnits {
            cursor: Cursor::new(frame, head),
            left,
            each,
            due: each,
            turn: 0,
            last: [0; 4],
        }
    }

    /// How many units are left.
    #[inline(always)]
    pub fn left(&self) -> u64
        ensures { result ≡ self.now.left }
    {
        self.left
    }

    /// Gives the next units to a sink, of a view that has the blocks of their places, and ends each interval after its last
    /// one. After the scan's last unit, or a fault, no more may be given.
    #[inline(always)]
    pub fn give<V: BlockView, O, D, S: UnitSink<O, D>>(
        &mut self,
        next: NextUnits<'_, V>,
        sink: &mut S,
        out: &mut O,
        desk: &mut D,
    ) -> Result<(), WriteFault>
        requires some { (1 ≤ next.count) × (next.count ≤ self.old.left) }
        requires can { (g : GivenScan S O D) × CanGive S.kind g (V.numbers next.view.now) (V.blocks next.view.now) next.count self.old (at sink.old out.old desk.old) }
        ensures cursor { OnOk result (self.new.cursor ≡ drop next.entry.count self.old.cursor) }
        ensures left { OnOk result (self.new.left + next.entry.count ≡ self.old.left) }
        ensures given { GivesNext S.kind V.numbers V.blocks next.entry self.old (at sink.old out.old desk.old) result self.new (at sink.new out.new desk.new) }
    {
        let mut rest = next.count;
        loop {
            let due = ViewedPlace {
                view: next.view,
                place: self.cursor.place(),
            };
            put_place(due, &mut self.last, sink, out, desk)?;
            self.cursor.step();
            self.left -= 1;
            self.due -= 1;
            if self.left == 0 {
                return sink.end(None, out, desk);
            }
            if self.due == 0 {
                sink.end(Some(self.turn), out, desk)?;
                self.due = self.each;
                self.turn = (self.turn + 1) % 8;
                self.last = [0; 4];
            }
            rest -= 1;
            if rest == 0 {
                return Ok(());
            }
        }
    }
}

/// Gives all units of a scan to a sink, with an end of an interval after each `interval` MCUs (0: none). A padding
/// block has the DC value of the block before it of its component, and no AC values. The header names one to four
/// components of the frame.
pub fn put_scan<V: BlockView, O, D, S: UnitSink<O, D>>(
    view: &V,
    scan: WrittenScan<'_>,
    sink: &mut S,
    out: &mut O,
    desk: &mut D,
) -> Result<(), WriteFault>
    requires scan { AreIn (V.numbers view.now) (head_components scan.head.now) }
    requires begins { Begins S.kind (scan_due (V.numbers view.now) scan (V.blocks view.now)) (at sink.old out.old desk.old) }
    ensures { S.kind.ended (at sink.old out.old desk.old) (scan_due (V.numbers view.now) scan.entry (V.blocks view.now)) result out.new desk.new }
{
    let frame = view.frame();
    frame.checked();
    let mut units = ScanUnits::new(frame, scan.head, scan.interval);
    let all = units.left();
    units.give(NextUnits { view, count: all }, sink, out, desk)
}

// How many units an interval has: all of them for 0.
fn each_interval(units: u64, all: u64) -> u64
    requires { 1 ≤ all }
    ensures { (1 ≤ result) × (result ≡ (if units == 0 then all else units)) }
{
    if units == 0 { all } else { units }
}
