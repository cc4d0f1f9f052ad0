//! Words.
ghost use Rattle.std.specs.Prelude.{◌≡◌, ◌∷◌, ◌<◌, ◌≤◌, [], IfOk, IfSome, MatchOption, length};
ghost use Rattle.std.specs.List.{position_or_len};
ghost use Rattle.haya_bibtex_names.specs.Extended.{is_single};
ghost use Rattle.haya_bibtex_names.specs.Signs.{is_white};
ghost use Rattle.haya_bibtex_names.specs.Words.{is_and, is_low, is_others, texts, words};

use crate::parts::white_length;
use crate::signs::{is_letter, is_sign, is_verbatim, is_white};
use haya_latex::Kind;
use std::alloc::{AllocError, Global};

// How many characters at the front aren't white.
fn word_length(text: &[(char, Kind)]) -> usize
    ensures length { result ≡ position_or_len is_white text.now }
    ensures within { result ≤ length text.now }
{
    let mut count = 0;
    'chars: for x in text {
        if is_white(x) {
            return count;
        }
        count += 1;
    }
    count
}

/// The first word of a text, and what is behind it.
pub(crate) fn next_word(text: &[(char, Kind)]) -> Option<(&[(char, Kind)], &[(char, Kind)])>
    ensures words { MatchOption result (words text.now ≡ [])
        (λ p. words text.now ≡ p.0.now ∷ words p.1.now) }
    ensures shorter { IfSome result (λ p. length p.1.now < length text.now) }
{
    let (_, rest) = text.split_at(white_length(text));
    if rest.is_empty() {
        return None;
    }
    Some(rest.split_at(word_length(rest)))
}

/// The words of a text.
pub(crate) fn words_of<'a>(
    alloc: Global,
    text: &'a [(char, Kind)],
) -> Result<Vec<&'a [(char, Kind)]>, AllocError>
    ensures { IfOk result (λ v. texts v.items ≡ words text.now) }
{
    let mut words = Vec::new(alloc);
    let mut left = text;
    'words: while let Some((word, behind)) = next_word(left) {
        words.push(word)?;
        left = behind;
    }
    Ok(words)
}

/// Whether a text has a single word.
pub(crate) fn is_single(text: &[(char, Kind)]) -> bool
    ensures { result ≡ is_single (words text.now) }
{
    match next_word(text) {
        Some((_, behind)) => next_word(behind).is_none(),
        None => false,
    }
}

/// Whether a word is low: its first letter is lower case, and no braces protect it or what is
/// before it.
pub(crate) fn is_low(word: &[(char, Kind)]) -> bool
    ensures { result ≡ is_low word.now }
{
    'chars: for (c, kind) in word {
        if is_verbatim(*kind) {
            return false;
        }
        if c.is_alphabetic() {
            return c.is_lowercase();
        }
    }
    false
}

/// Whether a word is `and`, in any case.
pub(crate) fn is_and(word: &[(char, Kind)]) -> bool
    ensures { result ≡ is_and word.now }
{
    match word {
        [a, n, d] => is_letter('A', 'a', a) && is_letter('N', 'n', n) && is_letter('D', 'd', d),
        _ => false,
    }
}

/// Whether a word is `others`.
pub(crate) fn is_others(word: &[(char, Kind)]) -> bool
    ensures { result ≡ is_others word.now }
{
    match word {
        [o, t, h, e, r, s] => {
            is_sign('o', o)
                && is_sign('t', t)
                && is_sign('h', h)
                && is_sign('e', e)
                && is_sign('r', r)
                && is_sign('s', s)
        }
        _ => false,
    }
}
