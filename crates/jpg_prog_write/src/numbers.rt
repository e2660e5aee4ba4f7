//! What is sent of a value down to a bit: the point transform (T.81, G.1.1.1, G.1.2.1, G.1.2.2).
ghost use Rattle.std.specs.Prelude.{◌≡◌, ◌≤◌, ◌%◌, ◌==◌, nat_abs};
ghost use Rattle.jpg_spec_write.specs.Sending.{shifted, divided};
ghost use Rattle.jpg_prog_write.specs.Bands.{kept_of};

// A DC value shifted right by `al` bits.
#[inline(always)]
pub(crate) fn shifted(value: i16, al: u8) -> i16
    requires { al ≤ 13 }
    ensures { result ≡ shifted al value }
{
    value >> al
}

// An AC value divided by `2 ^ al`, towards 0.
#[inline(always)]
pub(crate) fn divided(value: i16, al: u8) -> i32
    requires { al ≤ 13 }
    ensures { result ≡ divided al value }
{
    let magnitude = i32::from(value.unsigned_abs() >> al);
    if value < 0 { -magnitude } else { magnitude }
}

// The value, or 0 if its magnitude is 0 without its low bits.
#[inline(always)]
pub(crate) fn kept_value(value: i16, al: u8) -> i16
    requires { al ≤ 13 }
    ensures { result ≡ kept_of al value }
{
    if value.unsigned_abs() >> al == 0 {
        0
    } else {
        value
    }
}

// The lowest bit of a number.
#[inline(always)]
pub(crate) fn is_odd(value: i16) -> bool
    ensures { result ≡ (nat_abs value % 2 == 1) }
{
    value.unsigned_abs() % 2 == 1
}
