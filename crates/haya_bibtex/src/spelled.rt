//! Texts are the UTF-8 of their characters.
ghost use Rattle.std.specs.Prelude.{◌≡◌, encode_utf8_all, map, string_bytes};
ghost use Rattle.std.specs.Str.{chars};
ghost use Rattle.haya_bibtex_text.specs.BibliographyViews.{entry_view, field_texts};
ghost use Rattle.haya_bibtex_inherited.specs.Views.{entry_bytes, field_bytes};
ghost use Rattle.haya_bibtex.specs.Spelled.{entry_spelled, field_spelled};

use haya_bibtex_text::{Entry, Field};

/// A text is the UTF-8 of its characters.
#[tactic(auto, using(crate::proofs::Spelling::text_is_spelled))]
pub(crate) fn spell(text: &String)
    ensures { encode_utf8_all (chars (string_bytes text.now)) ≡ string_bytes text.now }
{
    let _text = text.as_str();
}

// So are those of fields.
fn spell_fields(fields: &[Field])
    ensures { map field_spelled (map field_texts fields.now) ≡ map field_bytes fields.now }
{
    'fields: for field in fields {
        spell(&field.name);
        spell(&field.text);
    }
}

/// So are those of entries.
pub(crate) fn spell_entries(entries: &[Entry])
    ensures { map entry_spelled (map entry_view entries.now) ≡ map entry_bytes entries.now }
{
    'entries: for entry in entries {
        spell(&entry.kind);
        spell(&entry.key);
        spell_fields(entry.fields.as_slice());
    }
}
