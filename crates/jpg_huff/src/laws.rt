//! Laws over the definitions of this crate, each on a function that does nothing.
ghost use Rattle.std.specs.Prelude.{◌≡◌, ◌≢◌, ◌++◌, ◌∷◌, [], ℕ, suc, Bool, List, replicate, Ok};
ghost use Rattle.jpg_base.specs.Desk.{DeskState};
ghost use Rattle.jpg_spec.specs.Bits.{SpellsByte};
ghost use Rattle.jpg_huff.specs.declared.table.Table.{Table};
ghost use Rattle.jpg_huff.specs.declared.set.TableSet.{TableSet};
ghost use Rattle.jpg_huff.specs.declared.gate.Passed.TheVariants.{Data, Marker};
ghost use Rattle.jpg_huff.specs.Tables.{table_of, symbol_codes};
ghost use Rattle.jpg_huff.specs.Sets.{slots_of};
ghost use Rattle.jpg_huff.specs.Laws.{AreApart, HasOneAnswer, HaveTables, IsTable, PadSendsData, PassAs, PutsGoOn, SendsGoOn};
ghost use Rattle.jpg_huff.specs.Waiting.{Waiting};
ghost use Rattle.jpg_huff.specs.BitOut.{Puts, Sends};

/// Every table has sixteen counts, as many symbols as these add up to, and codes that fit (T.81, Annex C).
pub fn tables_fit()
    ensures { (t : Table) → IsTable (table_of t) }
{}

/// Every table in the slots of a set also has codes that fit (T.81, B.2.4.2 and Annex C).
pub fn sets_fit()
    ensures dc { (set : TableSet) → HaveTables (slots_of set).dc }
    ensures ac { (set : TableSet) → HaveTables (slots_of set).ac }
{}

/// No code of a table is a prefix of another one.
pub fn tables_are_apart()
    ensures { (t : Table) → AreApart (symbol_codes t) }
{}

/// At the same bits of a table a walk has one right result, so it returns More exactly if the bits are a proper prefix
/// of a code, and NoCode exactly if they are a prefix of none.
pub fn one_answer()
    ensures { (t : Table) → HasOneAnswer (symbol_codes t) }
{}

/// The bytes that encode a data byte give that byte at their last one, and nothing before (T.81, B.1.1.5).
pub fn gates_pass_data()
    ensures { (byte : ℕ) (bytes : List ℕ) → SpellsByte byte bytes → PassAs (Data byte) bytes }
{}

/// One or more FF and the code of a marker give that code, and nothing before (T.81, B.1.1.2).
pub fn gates_pass_markers()
    ensures { (fill code : ℕ) → code ≢ 0 → code ≢ 255 → PassAs (Marker code) (replicate (suc fill) 255 ++ code ∷ []) }
{}

/// Bits put in two calls have the same effect as all of them put at once.
pub fn puts_follow()
    ensures { (s0 s1 : DeskState) (old mid : Waiting) (xs : List Bool) → Puts s0 old xs (Ok tt) mid s1 → PutsGoOn s0 old xs mid s1 }
{}

/// Bits that are put where none wait, and then a pad, send the data of these bits (T.81, F.1.2.3).
pub fn puts_give_data()
    ensures { (s0 s1 : DeskState) (old mid : Waiting) (xs : List Bool) → old.bits ≡ [] → Puts s0 old xs (Ok tt) mid s1 → PadSendsData s0 old xs mid s1 }
{}

/// Bytes sent in two calls have the same effect as all of them sent at once.
pub fn sends_follow()
    ensures { (s0 s1 : DeskState) (old mid : Waiting) (xs : List ℕ) → Sends s0 old xs (Ok tt) mid s1 → SendsGoOn s0 old xs mid s1 }
{}
