//! Rows upsampled to twice the width, each new sample weighted towards the neighbour on its side.
ghost use Rattle.std.specs.Prelude.{◌≡◌, ◌+◌, ◌-◌, ◌*◌, ◌/◌, ◌≤◌, ◌<◌, length, slice_index, slice_set};
ghost use Rattle.jpg_spec_image.specs.Upsampling.{left_of, right_of, up_row, column_sum, left_of2, right_of2, up_rows2};

#[inline(always)]
fn put(out: &mut [u8], i: usize, left: u8, right: u8)
    requires { 2 * i + 1 < length out.old }
    ensures { out.new ≡ slice_set (slice_set out.old (2 * i) left) (2 * i + 1) right }
{
    out[2 * i] = left;
    out[2 * i + 1] = right;
}

#[inline(always)]
fn left(row: &[u8], i: usize) -> u8
    requires { (1 ≤ i) × (i < length row.now) }
    ensures { result ≡ (3 * slice_index row.now i + slice_index row.now (i - 1) + 1) / 4 }
{
    ((3 * u32::from(row[i]) + u32::from(row[i - 1]) + 1) / 4) as u8
}

#[inline(always)]
fn right(row: &[u8], i: usize) -> u8
    requires { i + 1 < length row.now }
    ensures { result ≡ (3 * slice_index row.now i + slice_index row.now (i + 1) + 2) / 4 }
{
    ((3 * u32::from(row[i]) + u32::from(row[i + 1]) + 2) / 4) as u8
}

/// A row upsampled to twice the width.
pub fn up_row(row: &[u8], out: &mut [u8])
    requires some { 3 ≤ length row.now }
    requires room { length out.old ≡ 2 * length row.now }
    ensures { out.new ≡ up_row row.now }
{
    let last = row.len() - 1;
    put(out, 0, row[0], right(row, 0));
    for i in 1..last {
        put(out, i, left(row, i), right(row, i));
    }
    put(out, last, left(row, last), row[last]);
}

// The weighted sum of a column of two rows: three times the near sample and the far one.
#[inline(always)]
fn sum(near: &[u8], far: &[u8], i: usize) -> u16
    requires { (i < length near.now) × (i < length far.now) }
    ensures value { result ≡ column_sum near.now far.now i }
    ensures bound { result ≤ 1020 }
{
    3 * u16::from(near[i]) + u16::from(far[i])
}

// A sample from the sum of its column and that of a neighbour, or its own again.
#[inline(always)]
fn mixed(c: u16, other: u16, more: u16) -> u8
    requires { (c ≤ 1020) × (other ≤ 1020) × (more ≤ 8) }
    ensures { result ≡ (3 * c + other + more) / 16 }
{
    ((3 * c + other + more) / 16) as u8
}

/// Two rows upsampled to one of twice the width.
pub fn up_rows2(near: &[u8], far: &[u8], out: &mut [u8])
    requires some { 3 ≤ length near.now }
    requires same { length far.now ≡ length near.now }
    requires room { length out.old ≡ 2 * length near.now }
    ensures { out.new ≡ up_rows2 near.now far.now }
{
    let last = near.len() - 1;
    let first = sum(near, far, 0);
    let second = sum(near, far, 1);
    let first_left = mixed(first, first, 8);
    let first_right = mixed(first, second, 7);
    put(out, 0, first_left, first_right);
    for i in 1..last {
        let here = sum(near, far, i);
        let before = sum(near, far, i - 1);
        let after = sum(near, far, i + 1);
        let to_left = mixed(here, before, 8);
        let to_right = mixed(here, after, 7);
        put(out, i, to_left, to_right);
    }
    let end = sum(near, far, last);
    let front = sum(near, far, last - 1);
    let last_left = mixed(end, front, 8);
    let last_right = mixed(end, end, 7);
    put(out, last, last_left, last_right);
}
