//! The meaning of a symbol RS of an AC table in a progressive scan (T.81, G.1.2.2, Table G.1; G.1.2.3).
ghost use Rattle.jpg_prog_read.specs.Judge.{Judges};

/// What follows a code.
#[derive(Clone, Copy)]
pub enum ProgressiveSymbol {
    /// A value of this category after a run of zeros.
    Value { run: u8, size: u8 },
    /// Sixteen zeros.
    Long,
    /// The end of this band.
    End,
    /// An end-of-band run, whose length has this many more bits.
    Count { size: u8 },
    /// A category that no value of the scan has.
    BadSymbol,
    /// A run past the end of the band.
    BadRun,
}

/// The meaning of the symbol where `zeros` values of the unit's band that are zero are left, and `most_category` is the
/// greatest category of a value, 15 at most.
pub fn judge(most_category: u8, zeros: u8, symbol: u8) -> ProgressiveSymbol
    ensures { Judges most_category zeros symbol result }
{
    let run = symbol / 16;
    let size = symbol % 16;
    if size > most_category {
        ProgressiveSymbol::BadSymbol
    } else if size > 0 {
        if run >= zeros {
            ProgressiveSymbol::BadRun
        } else {
            ProgressiveSymbol::Value { run, size }
        }
    } else if run == 15 {
        ProgressiveSymbol::Long
    } else if run == 0 {
        ProgressiveSymbol::End
    } else {
        ProgressiveSymbol::Count { size: run }
    }
}
