//! When tables are equal.
ghost use Rattle.std.specs.Prelude.{◌≡◌, ◌↔◌, ℕ, IsTrue};
ghost use Rattle.normalizer_tables.specs.Table.{word_at};

use crate::table::CodePointTable;

/// Tables are equal if and only if each number has the same word in both.
pub fn equal_tables_agree(table: &CodePointTable, other: &CodePointTable) -> bool
    ensures { IsTrue result ↔ ((n : ℕ) → word_at table.now n ≡ word_at other.now n) }
{
    table.has_all_words();
    other.has_all_words();
    table == other
}
