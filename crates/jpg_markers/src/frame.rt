//! The frame header, parsed (T.81, B.2.2, Figure B.3).
ghost use Rattle.std.specs.Prelude.{◌≡◌, ◌≤◌, length};
ghost use Rattle.jpg_spec.specs.FrameHeader.{AreLimits};
ghost use Rattle.jpg_spec.specs.FrameContents.{parsed_components, frame_header};

use arrayvec::ArrayVec;
use byteorder::{BigEndian, ByteOrder};
use jpg_base::Frame;
use jpg_spec::{Component, Fault, Limits, Process};

/// The frame of a frame header's contents, or their first fault: BadLength (not six bytes and three for each component
/// that they count), then those of `Frame::new` in its order (T.81, B.2.2). It takes no memory.
pub fn read_sof(process: Process, contents: &[u8], limits: &Limits) -> Result<Frame, Fault>
    requires { AreLimits limits.now }
    ensures { result ≡ frame_header limits.now process contents.now }
{
    match contents {
        [precision, _, _, _, _, count, parts @ ..] => {
            if parts.len() != 3 * usize::from(*count) {
                return Err(Fault::BadLength);
            }
            let height = u32::from(BigEndian::read_u16(&contents[1..]));
            let width = u32::from(BigEndian::read_u16(&contents[3..]));
            let components = components_of(parts);
            Frame::new(
                process,
                *precision,
                height,
                width,
                components.as_slice(),
                limits,
            )
        }
        _ => Err(Fault::BadLength),
    }
}

// The components, of three bytes each.
fn components_of(parts: &[u8]) -> ArrayVec<Component, 255>
    requires { length parts.now ≤ 765 }
    ensures { result.items ≡ parsed_components parts.now }
{
    let mut components = ArrayVec::new();
    let mut rest = parts;
    while let [id, factors, quant, tail @ ..] = rest {
        components.push(Component {
            id: *id,
            h: *factors / 16,
            v: *factors % 16,
            quant: *quant,
        });
        rest = tail;
    }
    components
}
