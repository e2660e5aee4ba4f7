//! An image file, read from the input piece by piece (release 6b's image files, and Targa).
ghost use Rattle.std.specs.Prelude.{◌≡◌, ◌≤◌, Bool, List, ℕ, true, false};
ghost use Rattle.jpg_base.specs.Desk.{DeskState};
ghost use Rattle.jpg_desk.specs.ImageSource.{is_source_read};
ghost use Rattle.jpg_desk.specs.ImageTaken.{IsSourceFed, ReadsRest, ReadsSource, StopsHere, image_reader};
ghost use Rattle.jpg_desk.specs.Pump.{of_reader};
ghost use Rattle.jpg_desk.specs.Stays.{OnlyReads};

use crate::image_source::ImageSource;
use crate::pieces::{PieceSink, pump, pump_on};
use jpg_base::Desk;
use jpg_pnm_bmp::Image;
use jpg_spec::{Fault, FaultAt, Limits};
use jpg_spec_words::Why;
use std::alloc::Global;

/// Reads the open input, in pieces of at most 16,384 bytes, to the end of its image, or only up to the piece after which
/// the bytes are samples (`ImageSource::plain`) or samples can be given as they are read (`ImageSource::gives`).
pub fn read_source<D: Desk>(alloc: Global, targa: bool, desk: &mut D) -> Result<ImageSource, Why>
    requires { (D.state desk.old).input_open ≡ true }
    ensures kept { OnlyReads (D.state desk.old) (D.state desk.new) }
    ensures read { ReadsSource targa (D.state desk.old) result (D.state desk.new) }
{
    let mut sink = ImageSink {
        source: ImageSource::new(alloc, targa),
        to_end: false,
    };
    match pump(desk, &mut sink) {
        Ok(_) => {
            let ImageSink { source, .. } = sink;
            Ok(source)
        }
        Err(why) => Err(why),
    }
}

/// Reads from there on, where the image isn't complete, to its end.
pub fn read_rest<D: Desk>(source: ImageSource, desk: &mut D) -> Result<Image, Why>
    requires open { (D.state desk.old).input_open ≡ true }
    requires fed { (targa : Bool) × (start : DeskState) × (bytes : List ℕ) × IsSourceFed targa start bytes source (D.state desk.old) }
    ensures { ReadsRest source (D.state desk.old) result (D.state desk.new) }
{
    let taken = source.taken();
    let mut sink = ImageSink {
        source,
        to_end: true,
    };
    match pump_on(desk, taken, &mut sink) {
        Ok(_) => {
            let ImageSink { source, .. } = sink;
            Ok(source.take())
        }
        Err(why) => Err(why),
    }
}

// A reader of an image, and whether it reads to the image's end.
#[derive(Drop)]
struct ImageSink {
    source: ImageSource,
    to_end: bool,
}

impl<D: Desk> PieceSink<D> for ImageSink {
    ghost kind = { of_reader image_reader };

    fn most(&self) -> u64 {
        Limits::standard().input
    }

    fn feed(&mut self, piece: &[u8], _desk: &mut D) -> Result<bool, Why> {
        match self.source.feed(piece) {
            Err(why) => Err(why),
            Ok(whole) => {
                if whole {
                    return Ok(true);
                }
                stops_here(self)
            }
        }
    }

    fn end(&mut self, _desk: &mut D) -> Result<Option<u64>, Why> {
        self.source.end()
    }
}

// Whether it stops where the image isn't complete: at the limit with a fault, or where the bytes that follow are samples,
// or samples can be given as they are read.
fn stops_here(sink: &ImageSink) -> Result<bool, Why>
    ensures { StopsHere sink.now result }
{
    let most = Limits::standard().input;
    if sink.source.taken() == most {
        return Err(Why::Refused(FaultAt {
            fault: Fault::InputTooLong,
            at: most,
        }));
    }
    if sink.to_end {
        return Ok(false);
    }
    match sink.source.plain() {
        Some(_) => Ok(true),
        None => Ok(sink.source.gives().is_some()),
    }
}
