//! The checks of a frame header, one function each (T.81, B.2.2, Table B.2).
ghost use Rattle.std.specs.Prelude.{◌≡◌, ◌+◌, ◌*◌, ◌<◌, ◌≤◌, nat_lt, ◌||◌, ◌==◌, not, length, All};
ghost use Rattle.jpg_spec.specs.Lists.{any_of, is_among, is_distinct};
ghost use Rattle.jpg_spec.specs.Geometry.{div_up};
ghost use Rattle.jpg_spec.specs.FrameHeader.{is_precision, has_bad_factor, has_bad_slot, identifiers, HasFactors};
ghost use Rattle.jpg_base.specs.Frame.{greatest_across, greatest_down, blocks_of};

use jpg_spec::{Component, Process};

/// Whether the width or the height is 0.
pub(crate) fn is_empty(width: u32, height: u32) -> bool
    ensures { result ≡ (width == 0 || height == 0) }
{
    width == 0 || height == 0
}

/// Whether the width or the height is above `side`.
pub(crate) fn is_larger(width: u32, height: u32, side: u32) -> bool
    ensures { result ≡ (nat_lt side width || nat_lt side height) }
{
    width > side || height > side
}

/// Whether samples have a number of bits that isn't read, which is any but 8, and but 12 where the process isn't
/// baseline.
pub(crate) fn has_wrong_precision(process: Process, precision: u8) -> bool
    ensures { result ≡ not (is_precision process precision) }
{
    match process {
        Process::Baseline => precision != 8,
        Process::Extended => precision != 8 && precision != 12,
        Process::Progressive => precision != 8 && precision != 12,
    }
}

/// Whether the number of components isn't from 1 to 4.
pub(crate) fn has_wrong_count(components: &[Component]) -> bool
    ensures { result ≡ (length components.now == 0 || nat_lt 4 (length components.now)) }
{
    components.is_empty() || components.len() > 4
}

// Whether one of a component's factors isn't from 1 to 4.
fn has_wrong_factor(component: Component) -> bool
    ensures { result ≡ has_bad_factor component }
{
    component.h == 0 || component.h > 4 || component.v == 0 || component.v > 4
}

/// Whether a factor of any component isn't from 1 to 4.
pub(crate) fn has_wrong_factors(components: &[Component]) -> bool
    ensures { result ≡ any_of has_bad_factor components.now }
{
    for component in components {
        if has_wrong_factor(*component) {
            return true;
        }
    }
    false
}

/// Whether a component names a quantisation slot above 3.
pub(crate) fn has_wrong_slots(components: &[Component]) -> bool
    ensures { result ≡ any_of has_bad_slot components.now }
{
    for component in components {
        if component.quant > 3 {
            return true;
        }
    }
    false
}

// Whether one of the components has this identifier.
fn has_id(components: &[Component], id: u8) -> bool
    ensures { result ≡ is_among id (identifiers components.now) }
{
    for component in components {
        if component.id == id {
            return true;
        }
    }
    false
}

/// Whether two components have the same identifier.
pub(crate) fn has_same_ids(components: &[Component]) -> bool
    ensures { result ≡ not (is_distinct (identifiers components.now)) }
{
    for i in 0..components.len() {
        if has_id(&components[i + 1..], components[i].id) {
            return true;
        }
    }
    false
}

/// The greatest horizontal and the greatest vertical factor of these components, 0 if there are none (T.81, A.1.1).
pub fn greatest_factors(components: &[Component]) -> (u8, u8)
    ensures value { (result.0 ≡ greatest_across components.now) × (result.1 ≡ greatest_down components.now) }
    ensures low { All HasFactors components.now → 1 ≤ length components.now → (1 ≤ result.0) × (1 ≤ result.1) }
    ensures high { All HasFactors components.now → (result.0 ≤ 4) × (result.1 ≤ 4) }
{
    let mut h_max = 0;
    let mut v_max = 0;
    for component in components {
        h_max = h_max.max(component.h);
        v_max = v_max.max(component.v);
    }
    (h_max, v_max)
}

/// The quotient rounded up.
pub(crate) fn div_up(number: u32, divisor: u32) -> u32
    requires { 0 < divisor }
    ensures value { result ≡ div_up number divisor }
    ensures high { result ≤ number + divisor }
{
    number.div_ceil(divisor)
}

// The blocks of a component's padded grid, from the MCUs across and down.
fn component_blocks(wide: u32, high: u32, component: Component) -> u64
    requires wide { wide ≤ 65532 }
    requires high { high ≤ 65532 }
    requires factors { HasFactors component }
    ensures { result ≡ (wide * component.h) * (high * component.v) }
{
    u64::from(wide * u32::from(component.h)) * u64::from(high * u32::from(component.v))
}

// The blocks of the padded grids of all components, from the MCUs across and down.
fn all_blocks(wide: u32, high: u32, components: &[Component]) -> u64
    requires wide { wide ≤ 65532 }
    requires high { high ≤ 65532 }
    requires count { length components.now ≤ 4 }
    requires factors { All HasFactors components.now }
    ensures { result ≡ blocks_of wide high components.now }
{
    let mut blocks = 0;
    for component in components {
        blocks += component_blocks(wide, high, *component);
    }
    blocks
}

/// Whether the padded grids of all components have more than `most` blocks.
pub(crate) fn has_more_blocks(width: u32, height: u32, components: &[Component], most: u32) -> bool
    requires width { width ≤ 65500 }
    requires height { height ≤ 65500 }
    requires some { 1 ≤ length components.now }
    requires count { length components.now ≤ 4 }
    requires factors { All HasFactors components.now }
    ensures { result ≡ nat_lt most (blocks_of (div_up width (8 * greatest_across components.now)) (div_up height (8 * greatest_down components.now)) components.now) }
{
    let (h_max, v_max) = greatest_factors(components);
    let wide = mcu_side(width, h_max);
    let high = mcu_side(height, v_max);
    all_blocks(wide, high, components) > u64::from(most)
}

/// The MCUs along a side of this many samples, by the greatest factor.
pub(crate) fn mcu_side(side: u32, greatest: u8) -> u32
    requires side { side ≤ 65500 }
    requires low { 1 ≤ greatest }
    requires high { greatest ≤ 4 }
    ensures value { result ≡ div_up side (8 * greatest) }
    ensures low { 1 ≤ side → 1 ≤ result }
    ensures high { result ≤ 65532 }
{
    div_up(side, 8 * u32::from(greatest))
}

/// The real blocks of a component along a side of this many samples, by its factor and the greatest one.
pub(crate) fn real_side(side: u32, factor: u8, greatest: u8) -> u32
    requires side { side ≤ 65500 }
    requires factor { factor ≤ 4 }
    requires low { 1 ≤ greatest }
    ensures value { result ≡ div_up (div_up (side * factor) greatest) 8 }
    ensures low { 1 ≤ side → 1 ≤ factor → 1 ≤ result }
    ensures padded { result ≤ div_up side (8 * greatest) * factor }
{
    div_up(div_up(side * u32::from(factor), u32::from(greatest)), 8)
}

/// The blocks along a side of a padded grid, from the MCUs along it.
pub(crate) fn padded_side(mcus: u32, factor: u8) -> u32
    requires mcus { mcus ≤ 65532 }
    requires factor { factor ≤ 4 }
    ensures { result ≡ mcus * factor }
{
    mcus * u32::from(factor)
}
