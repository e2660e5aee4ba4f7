//! Values of a progressive scan by their numbers: the point transform undone (T.81, G.1.1.1), and corrections
//! (G.1.2.3).
ghost use Rattle.std.specs.Prelude.{◌≡◌, ◌≤◌, ◌+◌, ◌^◌, ℕ, pos, nat_abs, ◌*ℤ◌};
ghost use Rattle.jpg_spec.specs.Elements.{grown};
ghost use Rattle.jpg_prog_read.specs.Scaled.{IsScaled};

// The number times the scale.
fn product(value: i16, scale: u16) -> i32
    ensures { result ≡ value *ℤ pos scale }
{
    i32::from(value) * i32::from(scale)
}

// The number in a smaller word, which it fits.
fn narrow(x: i32) -> i16
    requires { nat_abs x ≤ 32767 }
    ensures { result ≡ x }
{
    x as i16
}

/// A number times 2 ^ al: of a magnitude within a limit, or beyond it.
#[derive(Clone, Copy)]
pub enum Scaled {
    Within(i16),
    Beyond,
}

/// The number times the scale 2 ^ al, where its magnitude is within the limit.
pub fn scaled_within(value: i16, scale: u16, limit: u16) -> Scaled
    requires { limit ≤ 32767 }
    ensures { IsScaled limit (value *ℤ pos scale) result }
{
    let x = product(value, scale);
    if x.unsigned_abs() > u32::from(limit) {
        Scaled::Beyond
    } else {
        Scaled::Within(narrow(x))
    }
}

/// An old value by its correction: where the bit is 1 the magnitude grows by the scale 2 ^ al (T.81, G.1.2.3).
pub fn corrected(value: i16, scale: u16, bit: bool) -> i16
    requires { nat_abs value + scale ≤ 32767 }
    ensures { (al : ℕ) → scale ≡ 2 ^ al → result ≡ grown al bit value }
{
    if !bit {
        value
    } else if value >= 0 {
        value + scale as i16
    } else {
        value - scale as i16
    }
}
