//! The next row of strips, lent at once.
ghost use Rattle.std.specs.Prelude.{option_map};
ghost use Rattle.std.specs.Borrow.{sem};
ghost use Rattle.std.specs.Io.BufRead.{Rests};
ghost use Rattle.jpg_color.specs.Shown.{GivesRow};
ghost use Rattle.jpg_color.specs.StripsState.{TellsRow};
ghost use Rattle.jpg_color.specs.contracts.decode.strips.Strips.{the_row};

use crate::decode::strips::Strips;

impl Strips {
    /// The next row of the image: one byte per pixel, or three (red, green, blue). It returns None exactly if all
    /// rows that are made of the MCU rows so far were given.
    #[tactic(auto, using(crate::proofs::StripsNext::lent, crate::proofs::StripsNext::next_row))]
    pub fn next(&mut self) -> Option<&[u8]>
        ensures row { TellsRow self.old (option_map (λ r. r.now) result) }
        ensures* after_borrow { sem 𝓛 (Rests the_row self.entry (λ new. GivesRow self.old (option_map (λ r. r.now) result) new)) }
    {
        if self.advance() {
            Some(self.row())
        } else {
            None
        }
    }
}
