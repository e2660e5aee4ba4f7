//! How many codes there are of each size (T.81, Annex K.2, Figure K.2).
ghost use Rattle.std.specs.Prelude.{◌≡◌, ◌≤◌, sum};
ghost use Rattle.jpg_fit.specs.Sizes.{all_sizes, with_size};

// One code of this size more, if it is from 1 to 272.
fn count_size(counts: &mut [u16; 272], size: u16)
    requires { sum counts.old ≤ 257 }
    ensures { counts.new ≡ with_size counts.old size }
{
    if size > 0 && size <= 272 {
        counts[272 - size as usize] += 1;
    }
}

// How many codes there are of each size, from 272 down to 1.
pub(crate) fn sizes_counted(sizes: &[u16; 257]) -> [u16; 272]
    ensures { result ≡ all_sizes sizes.now }
{
    let mut counts = [0; 272];
    for size in sizes {
        count_size(&mut counts, *size);
    }
    counts
}
