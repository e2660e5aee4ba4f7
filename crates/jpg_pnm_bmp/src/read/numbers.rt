//! The numbers of a PNM text that are known so far, and what is wrong with a further one.
ghost use Rattle.std.specs.Prelude.{◌≡◌, ◌≤◌, ◌+◌, ◌-◌, ◌*◌, ◌++◌, ◌∷◌, ◌||◌, [], ℕ, List, true, length, take, codes, if◌then◌else◌, IfSome, IfNone};
ghost use Rattle.jpg_spec.specs.Lists.{is_among};
ghost use Rattle.jpg_spec.specs.NumberTexts.{is_digit};
ghost use Rattle.jpg_spec_image.specs.ImageSteps.{capped};
ghost use Rattle.jpg_spec_image.specs.Images.{is_side, sample_count, are_few_pixels};
ghost use Rattle.jpg_spec_image.specs.PnmText.{is_plain, is_read, is_left_out, is_pnm_space, begins_gap, pnm_info, is_number_due, number_fault};
ghost use Rattle.jpg_pnm_bmp.specs.Known.{list_of};
ghost use Rattle.jpg_pnm_bmp.specs.PlainSamples.{unscaled_info};
ghost use Rattle.jpg_pnm_bmp.specs.Reader.{AreAllNumbers, ReadsDigits};

use jpg_spec::Fault;
use jpg_spec_image::{ImageInfo, ImageKind};
use jpg_texts::is_digit;

// None, the width, both sides, or also the greatest sample.
#[derive(Clone, Copy)]
pub enum Numbers {
    Nothing,
    Width(u16),
    Sides(u16, u16),
    All(u16, u16, u8),
}

pub(crate) fn is_plain(format: u8) -> bool
    ensures { result ≡ is_plain format }
{
    b'2' == format || b'3' == format
}

pub(crate) fn is_read(format: u8) -> bool
    ensures { result ≡ is_read format }
{
    is_plain(format) || (b'5' == format || b'6' == format)
}

pub(crate) fn is_left_out(format: u8) -> bool
    ensures { result ≡ is_left_out format }
{
    b'1' == format || (b'4' == format || b'7' == format)
}

pub(crate) fn is_gray(format: u8) -> bool
    ensures { result ≡ is_among format (codes "25") }
{
    b'2' == format || b'5' == format
}

pub(crate) fn is_space(byte: u8) -> bool
    ensures { result ≡ is_pnm_space byte }
{
    b' ' == byte || (b'\t' == byte || (b'\n' == byte || b'\r' == byte))
}

pub(crate) fn begins_gap(byte: u8) -> bool
    ensures { result ≡ begins_gap byte }
{
    is_space(byte) || byte == b'#'
}

fn is_side(n: u32) -> bool
    ensures { result ≡ is_side n }
{
    1 <= n && n <= 65500
}

fn are_few_pixels(width: u16, height: u32) -> bool
    ensures { result ≡ are_few_pixels width height }
{
    u64::from(width) * u64::from(height) <= 268_435_456
}

// How many samples an image of these sides has.
pub(crate) fn sample_count(format: u8, width: u16, height: u16) -> u64
    ensures count { (rest : List ℕ) → result ≡ sample_count (pnm_info format (width ∷ height ∷ rest)) }
    ensures most { result ≤ 12884901888 }
{
    let row = if is_gray(format) {
        u64::from(width)
    } else {
        3 * u64::from(width)
    };
    u64::from(height) * row
}

// The number with one more digit, up to a bound.
pub(crate) fn with_digit(n: u32, digit: u8) -> u32
    requires { is_digit digit ≡ true }
    ensures { result ≡ capped (10 * n + (digit - 48)) }
{
    (10 * n.min(100_000) + u32::from(digit - b'0')).min(100_000)
}

// The number with the digits at the start of a piece, and how many those are.
pub(crate) fn with_digits(n: u32, piece: &[u8]) -> (u32, usize)
    ensures inside { result.1 ≤ length piece.now }
    ensures read { ReadsDigits n (take result.1 piece.now) result.0 }
{
    let mut number = n;
    let mut at: usize = 0;
    while at < piece.len() {
        let byte = piece[at];
        if !is_digit(byte) {
            return (number, at);
        }
        number = with_digit(number, byte);
        at += 1;
    }
    (number, at)
}

// What is wrong with a number that follows those that are known, and any samples.
pub(crate) fn number_fault(numbers: Numbers, n: u32) -> Option<Fault>
    ensures { (samples : List ℕ) → result ≡ number_fault (list_of numbers samples) n }
{
    match numbers {
        Numbers::Nothing => {
            if is_side(n) {
                return None;
            }
            Some(Fault::ImageHeader)
        }
        Numbers::Width(width) => {
            if is_side(n) && are_few_pixels(width, n) {
                return None;
            }
            Some(Fault::ImageHeader)
        }
        Numbers::Sides(_, _) => {
            if n == 0 {
                return Some(Fault::ImageHeader);
            }
            if 255 < n {
                return Some(Fault::ImageUnsupported);
            }
            None
        }
        Numbers::All(_, _, most) => {
            if u32::from(most) < n {
                return Some(Fault::ImageValue);
            }
            None
        }
    }
}

fn one_less(count: u64) -> u64
    ensures { result ≡ count - 1 }
{
    count.saturating_sub(1)
}

// Whether a number is expected after these, `before` and `held` samples among them, and one more.
pub(crate) fn is_due_after(format: u8, numbers: Numbers, before: u64, held: u64) -> bool
    ensures { (list : List ℕ) (n : ℕ) → length list ≡ before + held → result ≡ is_number_due format (list_of numbers list ++ n ∷ []) }
{
    match numbers {
        Numbers::Nothing => true,
        Numbers::Width(_) => true,
        Numbers::Sides(width, height) => {
            is_plain(format) && 0 < sample_count(format, width, height)
        }
        Numbers::All(width, height, _) => {
            let due = one_less(sample_count(format, width, height));
            is_plain(format) && held < due.saturating_sub(before)
        }
    }
}

// Whether a byte may follow a number, where a further one is expected or not.
pub(crate) fn may_follow(format: u8, due: bool, byte: u8) -> bool
    ensures { result ≡ (if due then begins_gap byte else is_plain format || is_pnm_space byte) }
{
    if due {
        begins_gap(byte)
    } else {
        is_plain(format) || is_space(byte)
    }
}

pub(crate) fn pnm_info(format: u8, width: u16, height: u16) -> ImageInfo
    ensures { (rest : List ℕ) → result ≡ pnm_info format (width ∷ height ∷ rest) }
{
    let kind = if is_gray(format) {
        ImageKind::Gray
    } else {
        ImageKind::Rgb
    };
    ImageInfo {
        width: u32::from(width),
        height: u32::from(height),
        kind,
        x_metre: 0,
        y_metre: 0,
    }
}

// The numbers of an image, once all of its header are known.
pub(crate) fn known_info(format: u8, numbers: Numbers) -> Option<ImageInfo>
    ensures some { IfSome result (λ info. AreAllNumbers numbers × (info ≡ pnm_info format (list_of numbers []))) }
    ensures none { IfNone result (AreAllNumbers numbers → ⊥) }
{
    match numbers {
        Numbers::All(width, height, most) => {
            if most == 0 {
                return None;
            }
            Some(pnm_info(format, width, height))
        }
        Numbers::Nothing => None,
        Numbers::Width(_) => None,
        Numbers::Sides(_, _) => None,
    }
}

// The numbers of an image whose samples aren't scaled.
pub(crate) fn unscaled_info(format: u8, numbers: Numbers) -> Option<ImageInfo>
    ensures { result ≡ unscaled_info format numbers }
{
    match numbers {
        Numbers::All(width, height, most) => {
            if most == 255 {
                return Some(pnm_info(format, width, height));
            }
            None
        }
        Numbers::Nothing => None,
        Numbers::Width(_) => None,
        Numbers::Sides(_, _) => None,
    }
}
