//! Rows of samples upsampled by repeating samples.
ghost use Rattle.std.specs.Prelude.{◌≡◌, ◌+◌, ◌*◌, ◌≤◌, ◌++◌, length, take, replicate};
ghost use Rattle.jpg_spec_image.specs.Upsampling.{repeat_row};

#[inline(always)]
fn fill(out: &mut [u8], at: usize, times: usize, sample: u8)
    requires { at + times ≤ length out.old }
    ensures long { length out.new ≡ length out.old }
    ensures value { take (at + times) out.new ≡ take at out.old ++ replicate times sample }
{
    for k in 0..times {
        out[at + k] = sample;
    }
}

// Puts the same sample at two places.
#[inline(always)]
fn fill_two(out: &mut [u8], at: usize, sample: u8)
    requires { at + 2 ≤ length out.old }
    ensures long { length out.new ≡ length out.old }
    ensures value { take (at + 2) out.new ≡ take at out.old ++ replicate 2 sample }
{
    out[at] = sample;
    out[at + 1] = sample;
}

// Each sample once.
#[inline(always)]
fn once(row: &[u8], out: &mut [u8])
    requires { length out.old ≡ length row.now }
    ensures { out.new ≡ repeat_row 1 row.now }
{
    out.copy_from_slice(row);
}

// Each sample twice.
#[inline(always)]
fn twice(row: &[u8], out: &mut [u8])
    requires { length out.old ≡ 2 * length row.now }
    ensures { out.new ≡ repeat_row 2 row.now }
{
    for i in 0..row.len() {
        fill_two(out, 2 * i, row[i]);
    }
}

// Each sample `times` times.
fn often(row: &[u8], times: usize, out: &mut [u8])
    requires { length out.old ≡ times * length row.now }
    ensures { out.new ≡ repeat_row times row.now }
{
    for i in 0..row.len() {
        fill(out, times * i, times, row[i]);
    }
}

/// Each sample `times` times.
pub fn repeat_row(row: &[u8], times: u8, out: &mut [u8])
    requires { length out.old ≡ times * length row.now }
    ensures { out.new ≡ repeat_row times row.now }
{
    if times == 1 {
        once(row, out);
    } else if times == 2 {
        twice(row, out);
    } else {
        often(row, times as usize, out);
    }
}
