//! Quantisers by quality (release 6b's scale).
ghost use Rattle.std.specs.Prelude.{◌≡◌, ◌≤◌, max, min};
ghost use Rattle.jpg_spec_image.specs.Quality.{quality_scale, most_quantiser, scaled_quantiser};

/// The percentage that tables are scaled by for a quality from 1 to 100.
pub fn quality_scale(quality: u8) -> u32
    requires { (1 ≤ quality) × (quality ≤ 100) }
    ensures value { result ≡ quality_scale quality }
    ensures most { result ≤ 5000 }
{
    let quality = u32::from(quality);
    if quality < 50 {
        5000 / quality
    } else {
        200 - 2 * quality
    }
}

// The greatest quantiser.
fn most(baseline: bool) -> u32
    ensures value { result ≡ most_quantiser baseline }
    ensures low { 255 ≤ result }
    ensures high { result ≤ 32767 }
{
    if baseline { 255 } else { 32767 }
}

// A number limited to the range from 1 to the most.
fn limited(n: u32, most: u32) -> u16
    requires { (1 ≤ most) × (most ≤ 32767) }
    ensures { result ≡ max 1 (min n most) }
{
    let low = if n < most { n } else { most };
    if low < 1 { 1 } else { low as u16 }
}

/// A quantiser scaled by a percentage, rounded: at least 1, and at most 32767, or 255 if a baseline file is asked for.
pub fn scaled_quantiser(q: u16, scale: u32, baseline: bool) -> u16
    requires { scale ≤ 5000 }
    ensures { result ≡ scaled_quantiser scale baseline q }
{
    limited((u32::from(q) * scale + 50) / 100, most(baseline))
}
