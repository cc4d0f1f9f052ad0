//! Which characters numbers are made of.
ghost use Rattle.std.specs.Prelude.{◌≡◌};
ghost use Rattle.haya_numbers.specs.Characters.{is_delimiter};

// Whether a character may stand between two numbers of a set.
pub(crate) fn is_delimiter(c: char) -> bool
    ensures { result ≡ is_delimiter c }
{
    matches!(c, ',' | '&' | '-' | '–')
}
