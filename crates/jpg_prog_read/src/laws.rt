//! Laws of the bits that a reader of bands was given.
ghost use Rattle.std.specs.Prelude.{◌≡◌, ◌≤◌, ◌+◌, ◌-◌, ◌^◌, ◌++◌, ℕ, true, List, pos};
ghost use Rattle.jpg_spec.specs.Elements.{Coding};
ghost use Rattle.jpg_coefs.specs.Machine.{Interval, KeepsUnits};
ghost use Rattle.jpg_spec.specs.PictureInWork.{AreDistinct};
ghost use Rattle.jpg_prog_read.specs.declared.ac_reader.AcReader.{AcReader};
ghost use Rattle.jpg_prog_read.specs.declared.scan.BandScan.{BandScan};
ghost use Rattle.jpg_prog_read.specs.DcWork.{DcWork, IsDcOpen};
ghost use Rattle.jpg_prog_read.specs.RepresentsAcScan.{BandHasRoom, IsAcInterval, NextIsAc, progressive_ac};
ghost use Rattle.jpg_prog_read.specs.Due.{BandIsDue, NextIsDue, DcIsDue, NextDcIsDue};
ghost use Rattle.jpg_prog_read.specs.Known.{LeavesRoom, TellsMultiples, GivesRoom, EachHasRoom, IsProgressiveAfter, LeadsToKnown};
ghost use Rattle.jpg_spec.specs.Items.{Item};
ghost use Rattle.jpg_spec.specs.declared.frame.Limits.{Limits};
ghost use Rattle.jpg_spec.specs.Scan.{Blocks, Scan};
ghost use Rattle.jpg_spec.specs.declared.frame.Place.{Place};
ghost use Rattle.jpg_prog_read.specs.InWork.{InWork, IsOpenBand};

/// In a unit of a band the bits so far are complete elements and a part of one more (T.81, G.1.2.2 and G.1.2.3); and so
/// they are between two units, unless an end-of-band run goes on over values without corrections.
pub fn bands_are_due()
    ensures inside { (b : BandScan) (s : InWork) → IsOpenBand b s → BandIsDue s }
    ensures between { (s : InWork) → NextIsDue s }
{}

/// In a unit of a DC difference the bits so far are a part of it, and between two units of either DC pass there are
/// none (T.81, G.1.2.1).
pub fn dc_values_are_due()
    ensures inside { (s : DcWork) → IsDcOpen s → DcIsDue s }
    ensures between { NextDcIsDue }
{}

/// In each state of the machine of a progressive AC scan complete units are in the picture, and a part of one more may
/// follow (T.81, G.1.2).
pub fn ac_machines_keep_units()
    ensures { KeepsUnits AcReader progressive_ac }
{}

/// What follows an interval of a band of AC whose old values have room for the next bit is such an interval too (T.81,
/// E.1.4, G.1.2.3).
pub fn ac_intervals_follow()
    ensures { (i : Interval) → AreDistinct (i.places ++ i.later) → IsAcInterval i → NextIsAc i }
{}

/// A magnitude that is a multiple of 2 ^ (al + 1) and below a power of two remains below it with bit al added (T.81,
/// G.1.2.3).
pub fn known_values_take_the_next_bit()
    ensures { (al category : ℕ) → al + 1 ≤ category → LeavesRoom al category }
{}

/// A scan decodes multiples of 2 ^ al, if the values before it were multiples of 2 ^ (al + 1) (T.81, G.1.1.1.2).
pub fn values_are_known_down_to_al()
    ensures { (c : Coding) → TellsMultiples c }
{}

/// A band has room for the next bit if each of its coefficients has, and in a refinement a coefficient has if it is known
/// down to the bit before and is within the bounds (T.81, G.1.2.3).
pub fn known_bands_have_room()
    ensures value { (c : Coding) (category : ℕ) → c.refines ≡ true → c.al + 1 ≤ category → c.bounds.ac ≡ pos (2 ^ category - 1) → GivesRoom c category }
    ensures band { (s : Scan) (before : Blocks) (p : Place) → EachHasRoom s before p → BandHasRoom s before p }
{}

/// In a progressive frame a coefficient that the scans so far sent down to bit n is a multiple of 2 ^ n, and one that
/// none of them sent is zero (T.81, G.1.1.1).
pub fn scans_tell_coefficients_down_to_a_bit()
    ensures { (limits : Limits) (items : List Item) → IsProgressiveAfter limits items → LeadsToKnown limits items }
{}
