//! What each transform does to the blocks (the manual of jpegtran).
//!
//! With C columns and R rows of a component of the output that are mirrored, the block at column x and row y comes from
//! column a and row b of the source, and these of its signs are changed:
//!
//!     transform   rows become columns   C        R        source (a, b)      signs of odd frequencies, where
//!     Keep        no                    0        0        (x, y)             none
//!     FlipH       no                    whole    0        (x', y)            horizontal, x < C
//!     FlipV       no                    0        whole    (x, y')            vertical, y < R
//!     Rotate180   no                    whole    whole    (x', y')           both of these
//!     Transpose   yes                   0        0        (y, x)             none
//!     Rotate90    yes                   whole    0        (y, x')            horizontal, x < C
//!     Rotate270   yes                   0        whole    (y', x)            vertical, y < R
//!     Transverse  yes                   whole    whole    (y', x')           both of these
//!
//! whole: the columns, or rows, of complete iMCUs of the output; x' is C - 1 - x if x < C, otherwise x, and y' is R - 1
//! - y if y < R, otherwise y. Where rows become columns, the axes of the frequencies are exchanged first, and so are
//! those of the tables.
ghost use Rattle.std.specs.Prelude.{◌≡◌};
ghost use Rattle.jpg_spec_move.specs.Transforms.{transposes, mirrors_across, mirrors_down};
ghost use Rattle.jpg_transform.specs.Places.{keeps_rows};

use jpg_spec_move::Transform;

/// Whether rows become columns.
pub fn transposes(transform: Transform) -> bool
    ensures { result ≡ transposes transform }
{
    match transform {
        Transform::Keep | Transform::FlipH | Transform::FlipV | Transform::Rotate180 => false,
        Transform::Transpose | Transform::Rotate90 | Transform::Rotate270 | Transform::Transverse =>
            true,
    }
}

/// Whether columns of the output are mirrored.
pub fn mirrors_across(transform: Transform) -> bool
    ensures { result ≡ mirrors_across transform }
{
    match transform {
        Transform::FlipH | Transform::Rotate90 | Transform::Rotate180 | Transform::Transverse => {
            true
        }
        Transform::Keep | Transform::FlipV | Transform::Transpose | Transform::Rotate270 => false,
    }
}

/// Whether rows of the output are mirrored.
pub fn mirrors_down(transform: Transform) -> bool
    ensures { result ≡ mirrors_down transform }
{
    match transform {
        Transform::FlipV | Transform::Rotate270 | Transform::Rotate180 | Transform::Transverse => {
            true
        }
        Transform::Keep | Transform::FlipH | Transform::Transpose | Transform::Rotate90 => false,
    }
}

/// Whether rows stay rows, in their order.
pub fn keeps_rows(transform: Transform) -> bool
    ensures { result ≡ keeps_rows transform }
{
    !transposes(transform) && !mirrors_down(transform)
}
