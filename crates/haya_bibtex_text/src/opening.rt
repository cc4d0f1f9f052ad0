//! Where entries begin.
ghost use Rattle.std.specs.Prelude.{◌≡◌, ◌≤◌, ◌<◌, IfSome, codes, false, length, option_map};
ghost use Rattle.haya_bibtex_text.specs.ItemViews.{opening_view};
ghost use Rattle.haya_bibtex_text.specs.Openings.{behind_at, behind_white, bracket_behind};
ghost use Rattle.haya_bibtex_text.specs.Openings.{opening_at, opening_of};
ghost use Rattle.haya_bibtex_text.specs.Openings.{is_called, is_remark, is_skipped};

use crate::classes::Class;

/// The type of an entry, the bracket that closes it, and what is left behind the one that opens it.
#[derive(Clone, Copy)]
pub(crate) struct Opening<'a> {
    pub(crate) kind: &'a [char],
    pub(crate) close: char,
    pub(crate) rest: &'a [char],
}

/// What is left behind the next `@` outside of remarks.
pub(crate) fn behind_at(text: &[char]) -> Option<&[char]>
    ensures left { option_map (λ t. t.now) result ≡ behind_at false text.now }
    ensures shorter { IfSome result (λ t. length t.now < length text.now) }
{
    let mut rest = text;
    let mut remark = false;
    'characters: while let Some((first, behind)) = rest.split_first() {
        if remark {
            remark = *first != '\n';
        } else if *first == '@' {
            return Some(behind);
        } else {
            remark = *first == '%';
        }
        rest = behind;
    }
    None
}

// What is left behind white space.
fn behind_white(text: &[char]) -> &[char]
    ensures left { result.now ≡ behind_white text.now }
    ensures shorter { length result.now ≤ length text.now }
{
    let (_, rest) = Class::White.split(text);
    rest
}

/// The opening of an entry behind an `@`, if there is one.
pub(crate) fn read_opening(text: &[char]) -> Option<Opening<'_>>
    ensures opening { option_map opening_view result ≡ opening_at text.now }
    ensures shorter { IfSome result (λ o. length o.rest.now < length text.now) }
{
    name_opening(behind_white(text))
}

// The same behind white space.
fn name_opening(text: &[char]) -> Option<Opening<'_>>
    ensures opening { option_map opening_view result ≡ opening_of text.now }
    ensures shorter { IfSome result (λ o. length o.rest.now < length text.now) }
{
    let count = Class::Name.prefix_len(text);
    if count == 0 {
        return None;
    }
    let (kind, behind) = text.split_at(count);
    bracket_opening(kind, behind_white(behind))
}

// The same behind the type and white space.
fn bracket_opening<'a>(kind: &'a [char], text: &'a [char]) -> Option<Opening<'a>>
    ensures opening { option_map opening_view result ≡ bracket_behind kind.now text.now }
    ensures shorter { IfSome result (λ o. length o.rest.now < length text.now) }
{
    let (first, rest) = text.split_first()?;
    let close = match *first {
        '{' => '}',
        '(' => ')',
        _ => return None,
    };
    Some(Opening { kind, close, rest })
}

// Whether a name is this word, which is in lower case, in any case of ASCII letters.
fn is_called(word: &[u8], name: &[char]) -> bool
    ensures { result ≡ is_called word.now name.now }
{
    let mut letters = word;
    let mut left = name;
    'letters: while let Some((letter, more)) = letters.split_first() {
        let Some((c, behind)) = left.split_first() else {
            return false;
        };
        if c.to_ascii_lowercase() != char::from(*letter) {
            return false;
        }
        letters = more;
        left = behind;
    }
    left.is_empty()
}

/// Whether entries of this type are passed over.
pub(crate) fn is_skipped(kind: &[char]) -> bool
    ensures { result ≡ is_skipped kind.now }
{
    is_called(b"comment", kind) || is_called(b"preamble", kind)
}

/// Whether entries of this type define strings.
pub(crate) fn is_strings(kind: &[char]) -> bool
    ensures { result ≡ is_called (codes "string") kind.now }
{
    is_called(b"string", kind)
}

/// Whether the name behind an `@` that begins no entry is `comment`.
pub(crate) fn is_remark(text: &[char]) -> bool
    ensures { result ≡ is_remark text.now }
{
    let (name, _) = Class::Name.split(behind_white(text));
    is_called(b"comment", name)
}
