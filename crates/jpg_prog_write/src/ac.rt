//! The bands of a progressive AC scan, put block by block (T.81, G.1.2.2, Figure G.3; G.1.2.3, Figure G.7).
ghost use Rattle.std.specs.Prelude.{◌≡◌, ◌≤◌, length};
ghost use Rattle.jpg_coefs.specs.BitSinks.{bit_kind};
ghost use Rattle.jpg_prog_write.specs.Bands.{IsBandOf};
ghost use Rattle.jpg_prog_write.specs.Written.{first_slot as slot_of};
ghost use Rattle.jpg_prog_write.specs.ScanSinks.{IsAcHead, AreBandsOf, ac_units};

use crate::band::Band;
use crate::bands::Bands;
use crate::put::{AcCodes, put_band, put_end};
use jpg_base::{Desk, ScanHead, WriteFault};
use jpg_coefs::{GivenUnit, UnitSink, end_interval};
use jpg_huff::BitOut;

// The band of a scan.
fn band_of(head: &ScanHead) -> Band
    requires { head.now.se ≤ 63 }
    ensures { IsBandOf head.now result }
{
    Band {
        start: head.ss,
        end: head.se + 1,
        al: head.al,
        refines: head.ah > 0,
    }
}

// The AC slot of a scan of one component.
pub(crate) fn first_slot(head: &ScanHead) -> u8
    requires { 1 ≤ length head.now.parts }
    ensures { result ≡ slot_of head.now }
{
    head.parts[0].ac
}

/// No band of a scan, and no EOB run.
pub(crate) fn no_bands(head: &ScanHead) -> Bands
    requires { IsAcHead head.now }
    ensures bands { AreBandsOf head.now result }
    ensures none { result.bands ≡ 0 }
{
    Bands::new(band_of(head))
}

/// What writes the bands of a scan.
#[derive(Drop)]
pub(crate) struct AcUnits<'a> {
    // the header of the scan
    pub(crate) head: &'a ScanHead,
    pub(crate) codes: AcCodes<'a>,
    // the current band, and the EOB run that waits
    pub(crate) bands: Bands,
}

impl<'a, D: Desk> UnitSink<BitOut, D> for AcUnits<'a> {
    ghost kind = { bit_kind ac_units D.state };

    #[inline(always)]
    fn unit(
        &mut self,
        unit: GivenUnit<'_>,
        out: &mut BitOut,
        desk: &mut D,
    ) -> Result<(), WriteFault> {
        self.bands.begin(unit.block);
        put_band(&mut self.bands, self.codes, out, desk)
    }

    fn end(
        &mut self,
        marker: Option<u8>,
        out: &mut BitOut,
        desk: &mut D,
    ) -> Result<(), WriteFault> {
        put_end(&mut self.bands, self.codes, out, desk)?;
        self.bands = no_bands(self.head);
        end_interval(marker, out, desk)
    }
}
