//! What is written of an element of a band, before its corrections (T.81, G.1.2.2, G.1.2.3).
ghost use Rattle.std.specs.Prelude.{◌≡◌, ◌≤◌, ◌<◌, List, Bool, pos};
ghost use Rattle.jpg_spec.specs.Numbers.{category as category_of};
ghost use Rattle.jpg_spec.specs.Elements.{value as value_element, long_run as long_element, ends as ends_element};
ghost use Rattle.jpg_prog_write.specs.Items.{IsItem};

use jpg_huff::{category, extra_bits};

/// A symbol, whose code is first, and a number below `2^size` as `size` bits after it.
#[derive(Clone, Copy)]
pub(crate) struct Item {
    pub(crate) symbol: u8,
    pub(crate) extra: u32,
    pub(crate) size: u8,
}

// A value after a run of zeros (T.81, G.1.2.2).
#[inline(always)]
pub(crate) fn value_item(run: u8, value: i32) -> Item
    requires run { run ≤ 15 }
    requires short { category_of value ≤ 14 }
    ensures { (bits : List Bool) → IsItem (value_element run value bits) result bits }
{
    let size = category(value);
    Item {
        symbol: 16 * run + size,
        extra: extra_bits(value),
        size,
    }
}

// A run of sixteen zeros: ZRL (T.81, G.1.2.2).
#[inline(always)]
pub(crate) fn long_item() -> Item
    ensures { (bits : List Bool) → IsItem (long_element bits) result bits }
{
    Item {
        symbol: 0xf0,
        extra: 0,
        size: 0,
    }
}

// The end of this many bands: EOBn (T.81, G.1.2.2, Table G.1).
pub(crate) fn ends_item(bands: u16) -> Item
    requires some { 1 ≤ bands }
    requires few { bands ≤ 32767 }
    ensures { (bits : List Bool) → IsItem (ends_element bands bits) result bits }
{
    let size = category(i32::from(bands)) - 1;
    Item {
        symbol: 16 * size,
        extra: u32::from(bands) % (1 << size),
        size,
    }
}
