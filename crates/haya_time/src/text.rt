//! White space and signs at the front of a text.
ghost use Rattle.std.specs.Prelude.{◌≡◌, MatchOption, None, Some};
ghost use Rattle.std.specs.Char.{is_whitespace};
ghost use Rattle.std.specs.List.{list_all};
ghost use Rattle.std.specs.Str.{chars, skip_leading_whitespace};
ghost use Rattle.haya_time.specs.TextFront.{behind, is_empty};

use haya_text::chars::split_char;

// Whether a text has no characters.
pub(crate) fn is_at_end(text: &str) -> bool
    ensures { result ≡ is_empty (chars text.now) }
{
    split_char(text).is_none()
}

// The text behind the white space at its front.
pub(crate) fn skip_whitespace(text: &str) -> &str
    ensures { chars result.now ≡ skip_leading_whitespace (chars text.now) }
{
    text.trim_start()
}

// Whether a text is white space and nothing else.
pub(crate) fn is_blank(text: &str) -> bool
    ensures { result ≡ list_all is_whitespace (chars text.now) }
{
    is_at_end(skip_whitespace(text))
}

// The text behind the sign at its front, which white space may precede.
pub(crate) fn behind(text: &str, sign: char) -> Option<&str>
    ensures { let rest = behind sign (chars text.now) in
        MatchOption result (rest ≡ None) (λ r. rest ≡ Some (chars r.now)) }
{
    let (first, rest) = split_char(skip_whitespace(text))?;
    if first == sign { Some(rest) } else { None }
}
