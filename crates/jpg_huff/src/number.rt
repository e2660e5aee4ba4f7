//! A number's category and its extra bits (T.81, F.1.2.1 and F.1.2.2, Tables F.1 and F.2), and the number that these
//! encode (F.2.2.1, Figure F.12).
ghost use Rattle.std.specs.Prelude.{◌≡◌, ◌≤◌, ◌<◌, ◌*◌, ◌-◌, ◌^◌, nat_abs, pos, ◌-ℤ◌};
ghost use Rattle.jpg_spec.specs.Bits.{bits_of};
ghost use Rattle.jpg_spec.specs.Numbers.{digits, category as category_of, extra_bits as extra_of};

// The number of binary digits, 0 for 0.
fn binary_digits(magnitude: u32) -> u8
    ensures digits { result ≡ digits magnitude }
    ensures fits { result ≤ 32 }
{
    (63 - (2 * u64::from(magnitude) + 1).leading_zeros()) as u8
}

/// The category: the number of binary digits of the magnitude, 0 to 32 (T.81, Tables F.1 and F.2).
pub fn category(value: i32) -> u8
    ensures category { result ≡ category_of value }
    ensures fits { result ≤ 32 }
{
    binary_digits(value.unsigned_abs())
}

/// The extra bits, as a number of as many bits as the category (T.81, F.1.2.1).
pub fn extra_bits(value: i32) -> u32
    ensures extra { bits_of (category_of value) result ≡ extra_of value }
    ensures fits { result < 2 ^ category_of value }
{
    let magnitude = value.unsigned_abs();
    let below = ((1u64 << binary_digits(magnitude)) - 1 - u64::from(magnitude)) as u32;
    if value >= 0 { magnitude } else { below }
}

// The number minus another one.
#[inline(always)]
fn lowered(number: u32, less: u32) -> i16
    requires number { number < 2 ^ 15 }
    requires less { less < 2 ^ 15 }
    ensures { result ≡ pos number -ℤ pos less }
{
    number as i16 - less as i16
}

// What these extra bits are lowered by: nothing if the first is 1, and else by the number of as many bits that are all 1
// (T.81, Figure F.12). There is no branch on the first bit, which could not be foreseen.
#[inline(always)]
fn deduction(size: u8, bits: u32) -> u32
    requires size { size ≤ 15 }
    requires bits { bits < 2 ^ size }
    ensures high { 2 ^ size ≤ 2 * bits → result ≡ 0 }
    ensures low { 2 * bits < 2 ^ size → result ≡ 2 ^ size - 1 }
    ensures fits { result < 2 ^ 15 }
{
    let ones = (1 << size) - 1;
    ones * (1 - (2 * bits >> size))
}

/// EXTEND (T.81, F.2.2.1, Figure F.12): the number of this category, 0 to 15, that has these extra bits, given as a
/// number of as many bits.
pub fn extend(size: u8, bits: u32) -> i16
    requires size { size ≤ 15 }
    requires bits { bits < 2 ^ size }
    ensures category { category_of result ≡ size }
    ensures extra { extra_of result ≡ bits_of size bits }
{
    lowered(bits, deduction(size, bits))
}
