//! Sizes above 16 are adjusted, and the reserved symbol's code is taken away (T.81, Annex K.2, Figure K.3). Counts of
//! codes begin with the longest size.
ghost use Rattle.std.specs.Prelude.{◌≡◌, ◌<◌, ◌≤◌, ◌+◌, All, sum, drop, reverse, slice_index};
ghost use Rattle.jpg_spec_fit.specs.Fitted.{longest_moved, limited, one_less, fitted_counts, sizes_counted};
ghost use Rattle.jpg_fit.specs.Split.{split_at};

use crate::counted::sizes_counted;

// The longest of the codes that are shorter than the sizes up to `at` gets one bit more, and a code of its new size is
// added.
fn split(counts: &mut [u16; 272], at: usize)
    requires within { at < 272 }
    requires few { sum (drop at counts.old) ≤ 300 }
    ensures { counts.new ≡ split_at at counts.old }
{
    let mut i = at;
    while i < 271 && counts[i + 1] == 0 {
        i += 1;
    }
    if i < 271 {
        counts[i] += 2;
        counts[i + 1] -= 1;
    }
}

// The codes of the size at `at` become shorter, two at a time.
fn move_longest(counts: &mut [u16; 272], at: usize)
    requires within { at < 271 }
    requires few { sum (drop at counts.old) ≤ 257 }
    ensures moved { drop (at + 1) counts.new ≡ longest_moved (slice_index counts.old at) (drop (at + 1) counts.old) }
    ensures few { sum (drop (at + 1) counts.new) ≤ 257 }
{
    let mut left = counts[at];
    while left >= 2 {
        counts[at + 1] += 1;
        split(counts, at + 1);
        left -= 2;
    }
}

// The codes of the 256 longest sizes become shorter.
fn limit(counts: &mut [u16; 272])
    requires { sum counts.old ≤ 257 }
    ensures { drop 256 counts.new ≡ limited 256 counts.old }
{
    for at in 0..256usize {
        move_longest(counts, at);
    }
}

// The counts of the sizes from 16 down.
fn short_sizes(counts: &[u16; 272]) -> [u16; 16]
    ensures { result ≡ drop 256 counts.now }
{
    let mut short = [0; 16];
    for i in 0..16usize {
        short[i] = counts[256 + i];
    }
    short
}

// One code of the longest size less.
fn one_less(counts: &mut [u16; 16])
    ensures { counts.new ≡ one_less counts.old }
{
    let mut i = 0;
    while i < 16 && counts[i] == 0 {
        i += 1;
    }
    if i < 16 {
        counts[i] -= 1;
    }
}

// The counts from size 1 on.
fn turned(counts: &[u16; 16]) -> [u8; 16]
    requires { All (λ n. n < 256) counts.now }
    ensures { result ≡ reverse counts.now }
{
    let mut bits = [0; 16];
    for i in 0..16usize {
        bits[i] = counts[15 - i] as u8;
    }
    bits
}

// How many codes there are of each size from 1 to 16, without the reserved symbol's.
pub(crate) fn table_counts(sizes: &[u16; 257]) -> [u8; 16]
    requires { All (λ n. n < 256) (fitted_counts 256 sizes.now) }
    ensures { result ≡ reverse (fitted_counts 256 sizes.now) }
{
    let mut counts = sizes_counted(sizes);
    limit(&mut counts);
    let mut short = short_sizes(&counts);
    one_less(&mut short);
    turned(&short)
}
