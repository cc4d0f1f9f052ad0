//! Characters of names.
ghost use Rattle.std.specs.Prelude.{◌≡◌};
ghost use Rattle.haya_bibtex_names.specs.Signs.{is_free, is_gap, is_letter, is_sign, is_verbatim};
ghost use Rattle.haya_bibtex_names.specs.Signs.{is_white};

use haya_latex::Kind;

// Whether nothing protects a character of a kind.
fn is_free(kind: Kind) -> bool
    ensures { result ≡ is_free kind }
{
    matches!(kind, Kind::Free)
}

/// Whether braces protect the case of a character of a kind.
pub(crate) fn is_verbatim(kind: Kind) -> bool
    ensures { result ≡ is_verbatim kind }
{
    matches!(kind, Kind::Verbatim)
}

/// Whether a character is white, and nothing protects it.
pub(crate) fn is_white(x: &(char, Kind)) -> bool
    ensures { result ≡ is_white x.now }
{
    let (c, kind) = *x;
    c.is_whitespace() && is_free(kind)
}

/// Whether a character is this sign, and nothing protects it.
pub(crate) fn is_sign(sign: char, x: &(char, Kind)) -> bool
    ensures { result ≡ is_sign sign x.now }
{
    let (c, kind) = *x;
    c == sign && is_free(kind)
}

/// Whether a character counts for nothing at the end of a name.
pub(crate) fn is_gap(x: &(char, Kind)) -> bool
    ensures { result ≡ is_gap x.now }
{
    is_white(x) || is_sign(',', x)
}

/// Whether a character is this letter, in one of both cases, and nothing protects it.
pub(crate) fn is_letter(upper: char, lower: char, x: &(char, Kind)) -> bool
    ensures { result ≡ is_letter upper lower x.now }
{
    is_sign(upper, x) || is_sign(lower, x)
}
