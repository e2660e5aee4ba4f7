//! What both passes over the DC values do (T.81, G.1.2.1).
ghost use Rattle.std.specs.Prelude.{◌≡◌, ◌≤◌, length};
ghost use Rattle.jpg_spec.specs.Geometry.{bounds, padded_blocks};
ghost use Rattle.jpg_base.specs.Cursor.{IsPadded};
ghost use Rattle.jpg_coefs.specs.Picture.{block_in};
ghost use Rattle.jpg_prog_read.specs.DcNew.{dc_scan_of};
ghost use Rattle.jpg_prog_read.specs.DcPlaces.{with_dc};
ghost use Rattle.std.specs.Prelude.{slice_index_or, pos};

use crate::scan::DcScan;
use jpg_base::{Frame, Place};
use jpg_coefs::Coefs;

/// The parameters of a DC scan of the frame, whose values are multiples of `2 ^ al`.
pub fn dc_scan(frame: &Frame, al: u8) -> DcScan
    requires { al ≤ (bounds frame.now).al }
    ensures { result ≡ dc_scan_of frame.now al }
{
    let bounds = frame.bounds();
    DcScan {
        low: bounds.dc_low,
        high: bounds.dc_high,
        scale: 1 << al,
        most_category: bounds.dc_cat,
    }
}

/// The DC value of the block at a place.
pub fn dc_of(coefs: &Coefs, place: Place) -> i16
    requires { IsPadded coefs.now.frame place.component place.x place.y }
    ensures { result ≡ slice_index_or (block_in coefs.now place.component place.x place.y) 0 (pos 0) }
{
    coefs.block(place.component, place.x, place.y).get(0)
}

/// Puts a DC value into the block at a place. All else remains.
pub fn put_dc(coefs: &mut Coefs, place: Place, value: i16)
    requires { IsPadded coefs.old.frame place.component place.x place.y }
    ensures count { length coefs.old.blocks ≡ padded_blocks coefs.old.frame }
    ensures block { coefs.new ≡ with_dc coefs.old place value }
{
    coefs.checked();
    coefs.set_dc(place.component, place.x, place.y, value);
}
