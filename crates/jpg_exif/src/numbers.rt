//! Numbers in a TIFF file, the lowest byte first or last (TIFF 6.0, section 2).
ghost use Rattle.std.specs.Prelude.{◌≡◌, ◌≤◌, ◌+◌, length};
ghost use Rattle.jpg_spec_upright.specs.Exif.{pair_at, quad_at};

/// The number of two bytes at this place.
pub(crate) fn pair_at(little: bool, bytes: &[u8], place: usize) -> u16
    requires { place + 2 ≤ length bytes.now }
    ensures { result ≡ pair_at little bytes.now place }
{
    let pair = [bytes[place], bytes[place + 1]];
    if little {
        u16::from_le_bytes(pair)
    } else {
        u16::from_be_bytes(pair)
    }
}

/// The number of four bytes at this place.
pub(crate) fn quad_at(little: bool, bytes: &[u8], place: usize) -> u32
    requires { place + 4 ≤ length bytes.now }
    ensures { result ≡ quad_at little bytes.now place }
{
    let first = u32::from(pair_at(little, bytes, place));
    let second = u32::from(pair_at(little, bytes, place + 2));
    if little {
        65536 * second + first
    } else {
        65536 * first + second
    }
}
