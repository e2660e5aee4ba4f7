//! A line of eight frequencies in 64 bits, for large coefficients (T.81, A.3.3).
ghost use Rattle.std.specs.Prelude.{◌≡◌, ◌+ℤ◌, ◌-ℤ◌, ◌*ℤ◌, pos, ◌+◌, ◌≤◌, ◌<◌, ◌/◌, ◌%◌, ◌^◌, map, All, nat_abs, length, slice_index_or};
ghost use Rattle.std.specs.Int.{int_wrap, int_shr, cast_unsigned, w64};
ghost use Rattle.jpg_spec_image.specs.Dct.{even_sums, odd_sums, column, columns, ranged, sample_row, inverse_dct};
ghost use Rattle.jpg_dct.specs.Lines.{sums_of};

#[inline(always)]
fn plus(a: i64, b: i64) -> i64
    ensures { result ≡ int_wrap w64 (a +ℤ b) }
{
    a.wrapping_add(b)
}

#[inline(always)]
fn minus(a: i64, b: i64) -> i64
    ensures { result ≡ int_wrap w64 (a -ℤ b) }
{
    a.wrapping_sub(b)
}

#[inline(always)]
fn times(a: i64, b: i64) -> i64
    ensures { result ≡ int_wrap w64 (a *ℤ b) }
{
    a.wrapping_mul(b)
}

// The part of the even frequencies.
#[inline(always)]
fn even(i0: i64, i2: i64, i4: i64, i6: i64) -> [i64; 4]
    ensures { result ≡ map (int_wrap w64) (even_sums i0 i2 i4 i6) }
{
    let sum = plus(i2, i6);
    let a = times(sum, 4433);
    let p6 = times(i6, 15137);
    let t2 = minus(a, p6);
    let p2 = times(i2, 6270);
    let t3 = plus(a, p2);
    let near = plus(i0, i4);
    let t0 = times(near, 8192);
    let gap = minus(i0, i4);
    let t1 = times(gap, 8192);
    let b0 = plus(t0, t3);
    let b1 = plus(t1, t2);
    let b2 = minus(t1, t2);
    let b3 = minus(t0, t3);
    [b0, b1, b2, b3]
}

// The part of the odd frequencies.
#[inline(always)]
fn odd(i1: i64, i3: i64, i5: i64, i7: i64) -> [i64; 4]
    ensures { result ≡ map (int_wrap w64) (odd_sums i1 i3 i5 i7) }
{
    let low = plus(i1, i3);
    let high = plus(i5, i7);
    let all = plus(low, high);
    let z5 = times(all, 9633);
    let s71 = plus(i7, i1);
    let z1 = times(s71, 7373);
    let s53 = plus(i5, i3);
    let z2 = times(s53, 20995);
    let s73 = plus(i7, i3);
    let p73 = times(s73, 16069);
    let z3 = minus(z5, p73);
    let s51 = plus(i5, i1);
    let p51 = times(s51, 3196);
    let z4 = minus(z5, p51);
    let p7 = times(i7, 2446);
    let d0 = minus(p7, z1);
    let o0 = plus(d0, z3);
    let p5 = times(i5, 16819);
    let d1 = minus(p5, z2);
    let o1 = plus(d1, z4);
    let p3 = times(i3, 25172);
    let d2 = minus(p3, z2);
    let o2 = plus(d2, z3);
    let p1 = times(i1, 12299);
    let d3 = minus(p1, z1);
    let o3 = plus(d3, z4);
    [o0, o1, o2, o3]
}

// The sums of a line.
#[inline(always)]
fn line(i: [i64; 8]) -> [i64; 8]
    ensures { result ≡ map (int_wrap w64) (sums_of i) }
{
    let b = even(i[0], i[2], i[4], i[6]);
    let o = odd(i[1], i[3], i[5], i[7]);
    let e0 = plus(b[0], o[3]);
    let e1 = plus(b[1], o[2]);
    let e2 = plus(b[2], o[1]);
    let e3 = plus(b[3], o[0]);
    let e4 = minus(b[3], o[0]);
    let e5 = minus(b[2], o[1]);
    let e6 = minus(b[1], o[2]);
    let e7 = minus(b[0], o[3]);
    [e0, e1, e2, e3, e4, e5, e6, e7]
}

// A sum of a column, as four times a sample.
#[inline(always)]
fn rounded(e: i64) -> i64
    ensures { result ≡ int_shr (int_wrap w64 (e +ℤ pos 1024)) 11 }
{
    plus(e, 1024) >> 11
}

// A sum of a row, as a sample.
#[inline(always)]
fn sample(e: i64) -> u8
    ensures { result ≡ ranged (cast_unsigned w64 (int_wrap w64 (e +ℤ pos 131072)) / 2 ^ 18 % 1024) }
{
    let low = plus(e, 131072).cast_unsigned() >> 18;
    (((low + 512) % 1024).clamp(384, 639) - 384) as u8
}

// A coefficient in 64 bits.
#[inline(always)]
fn at(values: &[i32; 64], k: usize) -> i64
    requires { k < 64 }
    ensures { result ≡ slice_index_or values.now k (pos 0) }
{
    i64::from(values[k])
}

#[inline(always)]
fn column(values: &[i32; 64], u: usize) -> [i64; 8]
    requires place { u < 8 }
    requires small { All (λ x. nat_abs x ≤ 67108864) values.now }
    ensures { result ≡ column values.now u }
{
    let v0 = at(values, u);
    let v1 = at(values, 8 + u);
    let v2 = at(values, 16 + u);
    let v3 = at(values, 24 + u);
    let v4 = at(values, 32 + u);
    let v5 = at(values, 40 + u);
    let v6 = at(values, 48 + u);
    let v7 = at(values, 56 + u);
    let e = line([v0, v1, v2, v3, v4, v5, v6, v7]);
    let r0 = rounded(e[0]);
    let r1 = rounded(e[1]);
    let r2 = rounded(e[2]);
    let r3 = rounded(e[3]);
    let r4 = rounded(e[4]);
    let r5 = rounded(e[5]);
    let r6 = rounded(e[6]);
    let r7 = rounded(e[7]);
    [r0, r1, r2, r3, r4, r5, r6, r7]
}

#[inline(always)]
fn row(done: &[[i64; 8]; 8], v: usize) -> [u8; 8]
    requires { v < 8 }
    ensures value { result ≡ sample_row done.now v }
    ensures long { length result ≡ 8 }
{
    let e = line([
        done[0][v], done[1][v], done[2][v], done[3][v], done[4][v], done[5][v], done[6][v],
        done[7][v],
    ]);
    let s0 = sample(e[0]);
    let s1 = sample(e[1]);
    let s2 = sample(e[2]);
    let s3 = sample(e[3]);
    let s4 = sample(e[4]);
    let s5 = sample(e[5]);
    let s6 = sample(e[6]);
    let s7 = sample(e[7]);
    [s0, s1, s2, s3, s4, s5, s6, s7]
}

/// The samples of a block: the columns, and then the rows.
pub fn block(values: &[i32; 64]) -> [u8; 64]
    requires { All (λ x. nat_abs x ≤ 67108864) values.now }
    ensures { result ≡ inverse_dct values.now }
{
    let mut done = [[0; 8]; 8];
    for u in 0..8 {
        done[u] = column(values, u);
    }
    let mut samples = [0; 64];
    for v in 0..8 {
        samples[8 * v..8 * v + 8].copy_from_slice(&row(&done, v));
    }
    samples
}
