//! Red, green and blue from luminance and chrominance (JFIF 1.02).
ghost use Rattle.std.specs.Prelude.{◌≡◌, ◌+◌, ◌*◌, ◌<◌, ◌++◌, ◌+ℤ◌, ◌-ℤ◌, ◌*ℤ◌, ◌≤ℤ◌, neg_ℤ, pos, length, take};
ghost use Rattle.std.specs.Int.{int_shr};
ghost use Rattle.jpg_spec_image.specs.RedGreenBlue.{clamped, about_middle, to_rgb, rgb_row, interleaved_row};

// A chrominance sample minus 128.
#[inline(always)]
fn about(n: u8) -> i16
    ensures value { result ≡ about_middle n }
    ensures low { neg_ℤ (pos 128) ≤ℤ result }
    ensures high { result ≤ℤ pos 127 }
{
    i16::from(n) - 128
}

#[inline(always)]
fn clamped(x: i16) -> u8
    ensures { result ≡ clamped x }
{
    x.clamp(0, 255) as u8
}

#[inline(always)]
fn double(d: i16) -> i16
    requires { (neg_ℤ (pos 128) ≤ℤ d) × (d ≤ℤ pos 127) }
    ensures value { result ≡ d *ℤ pos 2 }
    ensures low { neg_ℤ (pos 256) ≤ℤ result }
    ensures high { result ≤ℤ pos 254 }
{
    d * 2
}

// The half of a number, rounded up.
#[inline(always)]
fn half(u: i16) -> i16
    requires { (neg_ℤ (pos 256) ≤ℤ u) × (u ≤ℤ pos 256) }
    ensures value { result ≡ int_shr (u +ℤ pos 1) 1 }
    ensures low { neg_ℤ (pos 129) ≤ℤ result }
    ensures high { result ≤ℤ pos 129 }
{
    (u + 1) >> 1
}

// The sum of two parts.
#[inline(always)]
fn sum(a: i16, b: i16) -> i16
    requires first { (neg_ℤ (pos 300) ≤ℤ a) × (a ≤ℤ pos 300) }
    requires second { (neg_ℤ (pos 300) ≤ℤ b) × (b ≤ℤ pos 300) }
    ensures value { result ≡ a +ℤ b }
    ensures low { neg_ℤ (pos 600) ≤ℤ result }
    ensures high { result ≤ℤ pos 600 }
{
    a + b
}

// The difference of two parts.
#[inline(always)]
fn less(a: i16, b: i16) -> i16
    requires first { (neg_ℤ (pos 300) ≤ℤ a) × (a ≤ℤ pos 300) }
    requires second { (neg_ℤ (pos 300) ≤ℤ b) × (b ≤ℤ pos 300) }
    ensures value { result ≡ a -ℤ b }
    ensures low { neg_ℤ (pos 600) ≤ℤ result }
    ensures high { result ≤ℤ pos 600 }
{
    a - b
}

// The upper half of what is added to the difference itself: 26345 is 91881 - 65536.
#[inline(always)]
fn red_upper(t: i16) -> i16
    requires { (neg_ℤ (pos 256) ≤ℤ t) × (t ≤ℤ pos 254) }
    ensures value { result ≡ int_shr (t *ℤ pos 26345) 16 }
    ensures low { neg_ℤ (pos 256) ≤ℤ result }
    ensures high { result ≤ℤ pos 256 }
{
    upper_half(i32::from(t) * 26345)
}

// The upper half of what is subtracted from twice the difference: 14942 is 131072 - 116130.
#[inline(always)]
fn blue_upper(t: i16) -> i16
    requires { (neg_ℤ (pos 256) ≤ℤ t) × (t ≤ℤ pos 254) }
    ensures value { result ≡ int_shr (pos 0 -ℤ (t *ℤ pos 14942)) 16 }
    ensures low { neg_ℤ (pos 256) ≤ℤ result }
    ensures high { result ≤ℤ pos 256 }
{
    upper_half(0 - i32::from(t) * 14942)
}

#[inline(always)]
fn wide(d: i16) -> i32
    requires { (neg_ℤ (pos 128) ≤ℤ d) × (d ≤ℤ pos 127) }
    ensures value { result ≡ d }
    ensures low { neg_ℤ (pos 128) ≤ℤ result }
    ensures high { result ≤ℤ pos 127 }
{
    i32::from(d)
}

// What both chrominance samples subtract from green, except for the red one itself: 18734 is 65536 - 46802.
#[inline(always)]
fn green_sum(b: i32, r: i32) -> i32
    requires blue { (neg_ℤ (pos 128) ≤ℤ b) × (b ≤ℤ pos 127) }
    requires red { (neg_ℤ (pos 128) ≤ℤ r) × (r ≤ℤ pos 127) }
    ensures value { result ≡ (pos 32768 -ℤ (b *ℤ pos 22554)) +ℤ (r *ℤ pos 18734) }
    ensures low { neg_ℤ (pos 6000000) ≤ℤ result }
    ensures high { result ≤ℤ pos 6000000 }
{
    32768 - b * 22554 + r * 18734
}

#[inline(always)]
fn upper_half(z: i32) -> i16
    requires { (neg_ℤ (pos 8000000) ≤ℤ z) × (z ≤ℤ pos 8000000) }
    ensures value { result ≡ int_shr z 16 }
    ensures low { neg_ℤ (pos 128) ≤ℤ result }
    ensures high { result ≤ℤ pos 128 }
{
    (z >> 16) as i16
}

#[inline(always)]
fn red_part(d: i16) -> i16
    requires { (neg_ℤ (pos 128) ≤ℤ d) × (d ≤ℤ pos 127) }
    ensures value { result ≡ int_shr ((d *ℤ pos 91881) +ℤ pos 32768) 16 }
    ensures low { neg_ℤ (pos 600) ≤ℤ result }
    ensures high { result ≤ℤ pos 600 }
{
    let twice = double(d);
    let upper = red_upper(twice);
    let more = half(upper);
    sum(d, more)
}

#[inline(always)]
fn blue_part(d: i16) -> i16
    requires { (neg_ℤ (pos 128) ≤ℤ d) × (d ≤ℤ pos 127) }
    ensures value { result ≡ int_shr ((d *ℤ pos 116130) +ℤ pos 32768) 16 }
    ensures low { neg_ℤ (pos 600) ≤ℤ result }
    ensures high { result ≤ℤ pos 600 }
{
    let twice = double(d);
    let upper = blue_upper(twice);
    let more = half(upper);
    sum(twice, more)
}

// What both chrominance samples subtract from green.
#[inline(always)]
fn green_part(b: i16, r: i16) -> i16
    requires blue { (neg_ℤ (pos 128) ≤ℤ b) × (b ≤ℤ pos 127) }
    requires red { (neg_ℤ (pos 128) ≤ℤ r) × (r ≤ℤ pos 127) }
    ensures value { result ≡ int_shr ((pos 32768 -ℤ (b *ℤ pos 22554)) -ℤ (r *ℤ pos 46802)) 16 }
    ensures low { neg_ℤ (pos 600) ≤ℤ result }
    ensures high { result ≤ℤ pos 600 }
{
    let wide_b = wide(b);
    let wide_r = wide(r);
    let all = green_sum(wide_b, wide_r);
    let upper = upper_half(all);
    less(upper, r)
}

// Luminance plus a part, limited to a byte.
#[inline(always)]
fn shown(y: u8, part: i16) -> u8
    requires { (neg_ℤ (pos 600) ≤ℤ part) × (part ≤ℤ pos 600) }
    ensures { result ≡ clamped (pos y +ℤ part) }
{
    clamped(i16::from(y) + part)
}

/// The colours of a pixel: red, green and blue.
#[inline(always)]
pub fn to_rgb(y: u8, cb: u8, cr: u8) -> [u8; 3]
    ensures { result ≡ to_rgb y cb cr }
{
    let b = about(cb);
    let r = about(cr);
    let with_red = red_part(r);
    let with_green = green_part(b, r);
    let with_blue = blue_part(b);
    let red = shown(y, with_red);
    let green = shown(y, with_green);
    let blue = shown(y, with_blue);
    [red, green, blue]
}

#[tactic(auto, using(crate::proofs::Pixels::put_three))]
#[inline(always)]
fn put(out: &mut [u8], i: usize, pixel: &[u8; 3])
    requires { 3 * i + 2 < length out.old }
    ensures long { length out.new ≡ length out.old }
    ensures value { take (3 * i + 3) out.new ≡ take (3 * i) out.old ++ pixel.now }
{
    out[3 * i] = pixel[0];
    out[3 * i + 1] = pixel[1];
    out[3 * i + 2] = pixel[2];
}

/// Three rows of samples as a row of colours.
pub fn rgb_row(ys: &[u8], cbs: &[u8], crs: &[u8], out: &mut [u8])
    requires blue { length cbs.now ≡ length ys.now }
    requires red { length crs.now ≡ length ys.now }
    requires room { length out.old ≡ 3 * length ys.now }
    ensures { out.new ≡ rgb_row ys.now cbs.now crs.now }
{
    for i in 0..ys.len() {
        put(out, i, &to_rgb(ys[i], cbs[i], crs[i]));
    }
}

/// Three rows, red, green and blue, as a row of colours.
pub fn interleaved_row(rs: &[u8], gs: &[u8], bs: &[u8], out: &mut [u8])
    requires green { length gs.now ≡ length rs.now }
    requires blue { length bs.now ≡ length rs.now }
    requires room { length out.old ≡ 3 * length rs.now }
    ensures { out.new ≡ interleaved_row rs.now gs.now bs.now }
{
    for i in 0..rs.len() {
        put(out, i, &[rs[i], gs[i], bs[i]]);
    }
}
