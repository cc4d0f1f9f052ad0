//! Characters at the front of a text.
ghost use Rattle.std.specs.Prelude.{◌≡◌, ◌+◌, ◌≤◌, ◌++◌, [], ◌∷◌, IfNone, IfSome, length};
ghost use Rattle.std.specs.Char.{encode_utf8};
ghost use Rattle.std.specs.Str.{chars};
ghost use Rattle.haya_text.specs.Characters.{is_numeric};

use unicode::properties::GeneralCategory;

/// Whether a character is numeric: of the general category Nd, Nl or No of Unicode.
pub fn is_numeric(c: char) -> bool
    ensures { result ≡ is_numeric c }
{
    matches!(
        GeneralCategory::for_char(c),
        GeneralCategory::DecimalNumber
            | GeneralCategory::LetterNumber
            | GeneralCategory::OtherNumber
    )
}

/// The first character of a text, and the text behind it. `None` where the text is empty.
pub fn split_char(text: &str) -> Option<(char, &str)>
    ensures end { IfNone result (chars text.now ≡ []) }
    ensures first { IfSome result (λ p. chars text.now ≡ p.0 ∷ chars p.1.now) }
    ensures bytes { IfSome result (λ p. text.now ≡ encode_utf8 p.0 ++ p.1.now) }
    ensures shorter { IfSome result (λ p. length p.1.now + 1 ≤ length text.now) }
{
    let mut characters = text.chars();
    let first = characters.next()?;
    Some((first, characters.as_str()))
}
