//! Frequencies as multiples of quantisers (T.81, A.3.4): by division, and by two multiplications instead.
ghost use Rattle.std.specs.Prelude.{◌≡◌, ◌+◌, ◌-◌, ◌*◌, ◌/◌, ◌≤◌, ◌<◌, nat_abs, min, map, ℕ, ℤ, pos, length, slice_index, All};
ghost use Rattle.jpg_spec.specs.Zigzag.{zigzag};
ghost use Rattle.jpg_spec_image.specs.Dct.{number_at};
ghost use Rattle.jpg_spec_image.specs.ForwardDct.{multiples, quantised, quantised_block, forward_dct};
ghost use Rattle.jpg_dct.specs.Division.{with_sign, Divides, IsNear};

#[inline(always)]
fn multiples(size: u32, q: u16) -> u32
    requires some { 1 ≤ q }
    requires small { size ≤ 16384 }
    ensures value { result ≡ multiples size q }
    ensures bound { result ≤ 16384 }
{
    (size + 4 * u32::from(q)) / (8 * u32::from(q))
}

// A magnitude with the sign of a number.
#[inline(always)]
fn signed(value: i32, size: u32) -> i32
    requires { size ≤ 16384 }
    ensures { result ≡ with_sign value size }
{
    if value < 0 {
        -(size as i32)
    } else {
        size as i32
    }
}

/// Eight times a coefficient as a multiple of a quantiser: the nearest one, or of two equally near ones the one farther
/// from 0.
pub fn quantise(value: i32, q: u16) -> i32
    requires some { 1 ≤ q }
    requires small { nat_abs value ≤ 16384 }
    ensures { result ≡ quantised value q }
{
    let size = multiples(value.unsigned_abs(), q);
    signed(value, size)
}

// A power of two close below d.
fn near(d: u32) -> u32
    requires { (8 ≤ d) × (d ≤ 16392) }
    ensures { IsNear d result }
{
    if d <= 12 {
        4
    } else if d <= 24 {
        8
    } else if d <= 48 {
        16
    } else if d <= 96 {
        32
    } else if d <= 192 {
        64
    } else if d <= 384 {
        128
    } else if d <= 768 {
        256
    } else if d <= 1536 {
        512
    } else if d <= 3072 {
        1024
    } else if d <= 6144 {
        2048
    } else if d <= 12288 {
        4096
    } else {
        8192
    }
}

// The numbers that divide as a quantiser does.
pub(crate) struct Divisor {
    pub(crate) half: u16,
    pub(crate) factor: u16,
    pub(crate) scale: u16,
}

// A power of two divided by d and rounded up.
fn factor_of(d: u32, v: u32) -> u16
    requires { IsNear d v × (d ≤ 16392) }
    ensures { result ≡ (65536 * v + (d - 1)) / d }
{
    ((65536 * v + (d - 1)) / d) as u16
}

fn scale_of(v: u32) -> u16
    requires { 4 ≤ v }
    ensures { result ≡ 65536 / v }
{
    (65536 / v) as u16
}

fn fewer(q: u16) -> u32
    requires { 1 ≤ q }
    ensures value { result ≡ min q 2049 }
    ensures bounds { (1 ≤ result) × (result ≤ 2049) }
{
    if q < 2049 { u32::from(q) } else { 2049 }
}

pub(crate) fn divisor_of(q: u16) -> Divisor
    requires { 1 ≤ q }
    ensures { Divides q result.half result.factor result.scale }
{
    // larger ones give 0 for any coefficient
    let few = fewer(q);
    let v = near(8 * few);
    Divisor {
        half: (4 * few) as u16,
        factor: factor_of(8 * few, v),
        scale: scale_of(v),
    }
}
