// The data of sequential scans, written of pictures whose blocks are all the same (T.81, F.1.2, E.1.4).
ghost use Rattle.std.specs.Prelude.{◌≡◌};
ghost use Rattle.jpg_spec.specs.Geometry.{bounds_of};
ghost use Rattle.jpg_spec.specs.Elements.{IsBlockIn};

use crate::answer::Answer;
use crate::row::{Row, middle, short, small, word};
use crate::scans::bits::say_only;
use crate::scans::heads::{all_components, asked_frame};
use crate::scans::machine::is_progressive;
use crate::scans::tables::typical_set;
use jpg_base::{Block, Desk, Frame, MemoryDesk, Name, Put, WriteFault};
use jpg_coefs::BlockView;
use jpg_huff::BitOut;
use jpg_seq::write_seq_scan;

// A picture with this block at each place.
#[derive(Clone, Copy)]
struct Same<'a> {
    frame: &'a Frame,
    block: Block,
}

impl<'a> BlockView for Same<'a> {
    ghost numbers = { λ s. s.frame.now };

    ghost blocks = { λ s i x y. s.block };

    fn frame(&self) -> &Frame {
        self.frame
    }

    fn block(&self, component: u8, x: u32, y: u32) -> Block {
        let _ = (component, x, y);
        self.block
    }
}

/// The data of a scan of all components of a picture with these values at each real place, zeros elsewhere, with a restart marker
/// after each interval of so many MCUs (0: none), by a desk of pieces of a size.
pub fn data(row: &Row, piece: u32, answer: &mut Answer) {
    let block = block_of(row.field(2), answer);
    let interval = middle(row.field(3), answer);
    let mut desk = MemoryDesk::new(row.alloc, piece.max(1));
    let is_sent = match asked_frame(row, answer) {
        Some(frame) => send(&frame, &block, interval, &mut desk).is_ok(),
        None => false,
    };
    if is_sent {
        say_only(&desk, answer);
    } else {
        answer.say("fails");
    }
}

// A value of a block by its place; one out of bounds is left out.
fn set(block: &mut Block, k: u8, value: i16)
    requires { IsBlockIn (bounds_of 8) block.old }
    ensures { IsBlockIn (bounds_of 8) block.new }
{
    if k == 0 {
        if -1024 <= value && value <= 1023 {
            block.set(0, value);
        }
    } else if k < 64 && -1023 <= value && value <= 1023 {
        block.set(k, value);
    }
}

// Values by their places, as `0 5, 63 -1`.
fn block_of(text: &str, answer: &mut Answer) -> Block
    ensures { IsBlockIn (bounds_of 8) result }
{
    let mut block = Block::zero();
    for part in text.split(',') {
        let (place, value) = word(part);
        set(&mut block, small(place, answer), short(value, answer));
    }
    block
}

// By tables K.3 and K.5 for component 0, by K.4 and K.6 for the others.
fn send(
    frame: &Frame,
    block: &Block,
    interval: u16,
    desk: &mut MemoryDesk,
) -> Result<(), WriteFault>
    requires { IsBlockIn (bounds_of 8) block.now }
{
    if is_progressive(frame.process()) || frame.precision() != 8 {
        return Err(WriteFault);
    }
    let Put::Done = desk.create(&Name::Out) else {
        return Err(WriteFault);
    };
    frame.checked();
    let head = all_components(frame);
    let tables = typical_set();
    let view = Same {
        frame,
        block: *block,
    };
    let mut out = BitOut::new();
    write_seq_scan(&view, &head, &tables, interval, &mut out, desk)?;
    out.flush(desk)
}
