//! How often a scan sends each symbol, by the class and the slot of the table: FREQ of T.81, K.2.
ghost use Rattle.std.specs.Prelude.{◌≡◌, ◌<◌, ◌+◌, ◌==◌, ◌&&◌, if◌then◌else◌, [], ◌∷◌, ℕ};
ghost use Rattle.jpg_huff.specs.Counts.{AreRows, AreCounts, Notes, capped, count_of, no_counts};

/// By slot 0 or 1, how often each symbol of DC tables and of AC tables is sent, at most 2^32 - 1.
#[derive(Clone, Copy, Debug, PartialEq, Eq)]
pub struct SymbolCounts {
    pub dc: [[u32; 256]; 2],
    pub ac: [[u32; 256]; 2],
}

// Counts a symbol of the table in a slot.
#[inline(always)]
fn count(rows: &mut [[u32; 256]; 2], slot: u8, symbol: u8)
    requires rows { AreRows rows.old }
    requires slot { slot < 2 }
    requires small { symbol < 255 }
    ensures rows { AreRows rows.new }
    ensures counted { (s n : ℕ) → s < 2 → n < 256 → count_of rows.new s n ≡ capped (count_of rows.old s n + (if slot == s && symbol == n then 1 else 0)) }
{
    let count = rows[slot as usize][symbol as usize];
    rows[slot as usize][symbol as usize] = count.saturating_add(1);
}

impl SymbolCounts {
    /// No symbols.
    pub fn none() -> SymbolCounts
        ensures value { result ≡ no_counts }
        ensures counts { AreCounts result }
    {
        SymbolCounts {
            dc: [[0; 256]; 2],
            ac: [[0; 256]; 2],
        }
    }

    /// Counts a symbol of the DC table in slot 0 or 1. No symbol is 255, so that a table has 255 at most.
    #[inline(always)]
    pub fn count_dc(&mut self, slot: u8, symbol: u8)
        requires counts { AreCounts self.old }
        requires slot { slot < 2 }
        requires small { symbol < 255 }
        ensures { Notes self.old (((0, slot), symbol) ∷ []) self.new }
    {
        count(&mut self.dc, slot, symbol);
    }

    /// Counts a symbol of the AC table in slot 0 or 1. No symbol is 255, so that a table has 255 at most.
    #[inline(always)]
    pub fn count_ac(&mut self, slot: u8, symbol: u8)
        requires counts { AreCounts self.old }
        requires slot { slot < 2 }
        requires small { symbol < 255 }
        ensures { Notes self.old (((1, slot), symbol) ∷ []) self.new }
    {
        count(&mut self.ac, slot, symbol);
    }
}
