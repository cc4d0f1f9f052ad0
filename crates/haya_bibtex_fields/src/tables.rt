//! Tables of names and what they stand for.
ghost use Rattle.std.specs.Prelude.{◌≡◌, map, option_map};
ghost use Rattle.haya_bibtex_fields.specs.Tables.{row_view, text_under};

/// The text that a table has for a name.
pub(crate) fn text_under(table: &[(&'static str, &'static str)], name: &str) -> Option<&'static str>
    ensures { option_map (λ t. t.now) result ≡ text_under (map row_view table.now) name.now }
{
    'rows: for (key, text) in table {
        if name == *key {
            return Some(*text);
        }
    }
    None
}
