//! The sizes of codes (T.81, Annex K.2, Figure K.1).
ghost use Rattle.std.specs.Prelude.{◌≡◌, ◌++◌, ◌∷◌, [], map};
ghost use Rattle.jpg_spec.specs.Lists.{below};
ghost use Rattle.jpg_spec_fit.specs.Fitted.{code_sizes};

use crate::join::join_least;

// The counts, and that of the reserved symbol.
fn all_counts(counts: &[u32; 256]) -> [u64; 257]
    ensures { result ≡ counts.now ++ 1 ∷ [] }
{
    let mut all = [1; 257];
    for i in 0..256usize {
        all[i] = counts[i] as u64;
    }
    all
}

// Each symbol alone, with a code of no bits.
fn alone() -> [(u16, u16); 257]
    ensures { result ≡ map (λ symbol. (symbol, 0)) (below 257) }
{
    let mut members = [(0, 0); 257];
    for i in 0..257usize {
        members[i] = (i as u16, 0);
    }
    members
}

// The sizes of the codes of members.
fn sizes_of(members: &[(u16, u16); 257]) -> [u16; 257]
    ensures { result ≡ map (λ m. m.1) members.now }
{
    let mut sizes = [0; 257];
    for i in 0..257usize {
        sizes[i] = members[i].1;
    }
    sizes
}

// The sizes of the symbols' codes, 0 where the count is 0, and that of the reserved symbol.
pub(crate) fn code_sizes(counts: &[u32; 256]) -> [u16; 257]
    ensures { result ≡ code_sizes counts.now }
{
    let mut all = all_counts(counts);
    let mut members = alone();
    let mut left = 256u16;
    while left > 0 {
        left = if join_least(&mut all, &mut members) {
            left - 1
        } else {
            0
        };
    }
    sizes_of(&members)
}
