//! Tables of words: texts in ascending order of their bytes.
ghost use Rattle.std.specs.Prelude.{◌≡◌, IsTrue};
ghost use Rattle.haya_people.specs.Tables.{texts, is_sorted_table, is_listed};

/// Whether the texts are in ascending order of their bytes. Neighbours may be equal, and the
/// table may be empty. The calls that look a word up in a table ask for this of it.
pub fn is_sorted_table(table: &[&str]) -> bool
    ensures { result ≡ is_sorted_table (texts table.now) }
{
    table.is_sorted()
}

// Whether the text is one of the table, byte for byte.
pub(crate) fn is_listed(table: &[&str], text: &str) -> bool
    requires { IsTrue (is_sorted_table (texts table.now)) }
    ensures { result ≡ is_listed (texts table.now) text.now }
{
    table.binary_search(&text).is_ok()
}
