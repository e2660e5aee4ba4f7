//! The groups of the least counts (T.81, Annex K.2, Figure K.1).
ghost use Rattle.std.specs.Prelude.{◌≡◌, ◌<◌, IfSome, slice_set};
ghost use Rattle.jpg_spec_fit.specs.Fitted.{lesser, least, least_below};

// Of a group, if any, and the group of a greater number the one of the lesser count; the latter, if these are equal.
fn lesser(counts: &[u64; 257], best: Option<u16>, later: u16) -> Option<u16>
    requires best { IfSome best (λ a. a < 257) }
    requires later { later < 257 }
    ensures value { result ≡ lesser counts.now best later }
    ensures within { IfSome result (λ a. a < 257) }
{
    let count = counts[later as usize];
    match best {
        None => { if count == 0 { None } else { Some(later) } }
        Some(a) => {
            if count == 0 || counts[a as usize] < count {
                Some(a)
            } else {
                Some(later)
            }
        }
    }
}

// The group of the least count.
pub(crate) fn least(counts: &[u64; 257]) -> Option<u16>
    ensures value { result ≡ least counts.now }
    ensures within { IfSome result (λ a. a < 257) }
{
    let mut best = None;
    for number in 0..257u16 {
        best = lesser(counts, best, number);
    }
    best
}

// The group of the least count of the others.
pub(crate) fn next(counts: &mut [u64; 257], first: u16) -> Option<u16>
    requires { first < 257 }
    ensures value { result ≡ least (slice_set counts.old first 0) }
    ensures within { IfSome result (λ a. a < 257) }
    ensures same { counts.new ≡ counts.old }
{
    let count = counts[first as usize];
    counts[first as usize] = 0;
    let found = least(counts);
    counts[first as usize] = count;
    found
}
