//! The signs and the order of the frequencies of one block (T.81, A.3.3 and A.3.6).
ghost use Rattle.std.specs.Prelude.{◌≡◌, ◌≤ℤ◌, negsuc, neg_ℤ, All, pos, if◌then◌else◌, int_lt};
ghost use Rattle.jpg_spec_move.specs.Transforms.{signed};
ghost use Rattle.jpg_spec.specs.Transposed.{transposed};
ghost use Rattle.jpg_transform.specs.Changed.{AreMasks};

use jpg_base::Block;

// -1 for each place in zigzag order whose sign is changed, otherwise 0.
static SIGNS: [[i16; 64]; 4] = [
    // no signs
    [
        0, 0, 0, 0, 0, 0, 0, 0, 0, 0, 0, 0, 0, 0, 0, 0, 0, 0, 0, 0, 0, 0, 0, 0, 0, 0, 0, 0, 0, 0,
        0, 0, 0, 0, 0, 0, 0, 0, 0, 0, 0, 0, 0, 0, 0, 0, 0, 0, 0, 0, 0, 0, 0, 0, 0, 0, 0, 0, 0, 0,
        0, 0, 0, 0,
    ],
    // odd horizontal frequencies
    [
        0, -1, 0, 0, -1, 0, -1, 0, -1, 0, 0, -1, 0, -1, 0, -1, 0, -1, 0, -1, 0, 0, -1, 0, -1, 0,
        -1, 0, -1, 0, -1, 0, -1, 0, -1, 0, -1, 0, -1, 0, -1, 0, -1, -1, 0, -1, 0, -1, 0, -1, 0, -1,
        0, -1, -1, 0, -1, 0, -1, 0, -1, -1, 0, -1,
    ],
    // odd vertical frequencies
    [
        0, 0, -1, 0, -1, 0, 0, -1, 0, -1, 0, -1, 0, -1, 0, 0, -1, 0, -1, 0, -1, 0, -1, 0, -1, 0,
        -1, 0, 0, -1, 0, -1, 0, -1, 0, -1, -1, 0, -1, 0, -1, 0, -1, 0, -1, 0, -1, 0, -1, -1, 0, -1,
        0, -1, 0, -1, 0, -1, -1, 0, -1, 0, -1, -1,
    ],
    // one of both odd
    [
        0, -1, -1, 0, 0, 0, -1, -1, -1, -1, 0, 0, 0, 0, 0, -1, -1, -1, -1, -1, -1, 0, 0, 0, 0, 0,
        0, 0, -1, -1, -1, -1, -1, -1, -1, -1, 0, 0, 0, 0, 0, 0, 0, -1, -1, -1, -1, -1, -1, 0, 0, 0,
        0, 0, -1, -1, -1, -1, 0, 0, 0, -1, -1, 0,
    ],
];

// The value, or with a mask of -1 the value with its sign changed.
#[inline(always)]
fn masked(mask: i16, value: i16) -> i16
    requires { negsuc 32766 ≤ℤ value }
    ensures { result ≡ (if int_lt mask (pos 0) then neg_ℤ value else value) }
{
    if mask < 0 { -value } else { value }
}

// The masks of a block that is mirrored in these directions.
#[tactic(auto, using(crate::proofs::OneBlock::pick_four))]
#[inline(always)]
fn masks(across: bool, down: bool) -> &'static [i16; 64]
    ensures { AreMasks across down result.now }
{
    &SIGNS[usize::from(across) + 2 * usize::from(down)]
}

/// The block with its signs changed: those of odd horizontal frequencies if `across`, those of odd vertical frequencies
/// if `down`.
pub fn signed(across: bool, down: bool, block: &Block) -> Block
    requires { All (λ v. negsuc 32766 ≤ℤ v) block.now }
    ensures { result ≡ signed across down block.now }
{
    let masks = masks(across, down);
    block.long();
    let mut turned = *block;
    for k in 0..64 {
        turned.set(k, masked(masks[k as usize], block.get(k)));
    }
    turned
}

/// The block with its axes exchanged, with its signs changed as by `signed`.
pub fn signed_over(across: bool, down: bool, block: &Block) -> Block
    requires { All (λ v. negsuc 32766 ≤ℤ v) block.now }
    ensures { result ≡ signed across down (transposed (pos 0) block.now) }
{
    signed(across, down, &block.transposed())
}
