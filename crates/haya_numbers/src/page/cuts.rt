//! Where the text of a range is cut.
ghost use Rattle.std.specs.Prelude.{◌≡◌, [], ◌∷◌, MatchOption};
ghost use Rattle.std.specs.Str.{chars};
ghost use Rattle.haya_numbers.specs.Cuts.{dash_split, escaped_split, is_dash};

use haya_text::cursor::Cursor;

// The text before its first dash and the text behind that, if it has one.
pub(super) fn split_dash(text: &str) -> Option<(&str, &str)>
    ensures { MatchOption result
        (dash_split (chars text.now) ≡ chars text.now ∷ [])
        (λ cut. dash_split (chars text.now) ≡ chars cut.0.now ∷ dash_split (chars cut.1.now)) }
{
    let mut cursor = Cursor::new(text);
    let start = cursor.eat_while(|c| !is_dash(c));
    cursor.eat()?;
    Some((start, cursor.rest()))
}

// The text before its first escaped hyphen and the text behind that, if it has one.
pub(super) fn split_escaped(text: &str) -> Option<(&str, &str)>
    ensures { MatchOption result
        (escaped_split (chars text.now) ≡ chars text.now ∷ [])
        (λ cut. escaped_split (chars text.now)
        ≡ chars cut.0.now ∷ escaped_split (chars cut.1.now)) }
{
    text.split_once("\\-")
}

// Whether a character is a hyphen or an en dash.
fn is_dash(c: char) -> bool
    ensures { result ≡ is_dash c }
{
    matches!(c, '-' | '–')
}
