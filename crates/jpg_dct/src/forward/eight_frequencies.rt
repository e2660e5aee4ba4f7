//! The frequencies of a block by vectors: first of the rows and then of the columns (T.81, A.3.3).
ghost use Rattle.std.specs.Prelude.{◌≡◌, ◌+◌, ◌*◌, ◌<◌, ℕ};
ghost use Rattle.jpg_spec_image.specs.Dct.{number_at};
ghost use Rattle.jpg_spec_image.specs.ForwardDct.{forward_dct};
ghost use Rattle.jpg_dct.specs.Eights.{IsEight, vector};

use crate::forward::lanes::{Eight, lines, turned};
use crate::forward::sample_columns::levels;

/// Eight times the coefficients of 64 samples: vector v is row v of them.
#[inline(always)]
pub(crate) fn frequencies(samples: &[u8; 64]) -> Eight
    ensures all { (v : ℕ) → v < 8 → IsEight 8192 (vector result v) }
    ensures at { (u v : ℕ) → u < 8 → v < 8 → number_at (vector result v) u ≡ number_at (forward_dct samples.now) (8 * v + u) }
{
    let columns = levels(samples);
    let rows = lines(columns);
    let across = turned(rows);
    lines(across)
}
