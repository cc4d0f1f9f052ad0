//! Texts between signs, and the texts of words.
ghost use Rattle.std.specs.Prelude.{◌≡◌, ◌∷◌, ◌++◌, ◌<◌, ◌≤◌, ℕ, List, map, length};
ghost use Rattle.std.specs.Prelude.{encode_utf8_all, string_bytes, IfOk, IfSome, OnOk, option_map};
ghost use Rattle.std.specs.Prelude.{if◌then◌else◌};
ghost use Rattle.std.specs.List.{position, prefix_len};
ghost use Rattle.haya_bibtex_names.specs.Parts.{is_blank, sides, single_blanks_in, without_end};
ghost use Rattle.haya_bibtex_names.specs.Parts.{words_text};
ghost use Rattle.haya_bibtex_names.specs.Signs.{is_gap, is_sign, is_white};
ghost use Rattle.haya_bibtex_names.specs.Words.{texts, words};

use crate::signs::{is_gap, is_sign, is_white};
use haya_latex::Kind;
use std::alloc::{AllocError, Global};

// A text that is written with a blank for blanks side by side, and none at its ends.
#[derive(Drop)]
struct Spaced {
    text: String,
    // Whether it has a character.
    started: bool,
    // Whether a blank was given behind its last one.
    gap: bool,
}

/// What is before the first such sign that nothing protects, and what is behind it.
pub(crate) fn sides<'a>(
    sign: char,
    text: &'a [(char, Kind)],
) -> Option<(&'a [(char, Kind)], &'a [(char, Kind)])>
    ensures { option_map (λ p. (p.0.now, p.1.now)) result ≡ sides sign text.now }
{
    match place_of(sign, text) {
        Some(place) => Some((&text[..place], &text[place + 1..])),
        None => None,
    }
}

// Where the first such sign is that nothing protects.
fn place_of(sign: char, text: &[(char, Kind)]) -> Option<usize>
    ensures place { result ≡ position (is_sign sign) text.now }
    ensures within { IfSome result (λ n. n < length text.now) }
{
    text.iter().position(|x| is_sign(sign, x))
}

/// How many characters at the front are white.
pub(crate) fn white_length(text: &[(char, Kind)]) -> usize
    ensures length { result ≡ prefix_len is_white text.now }
    ensures within { result ≤ length text.now }
{
    let mut count = 0;
    'chars: for x in text {
        if !is_white(x) {
            return count;
        }
        count += 1;
    }
    count
}

/// The text without white and commas at its end.
pub(crate) fn without_gap(text: &[(char, Kind)]) -> &[(char, Kind)]
    ensures { result.now ≡ without_end is_gap text.now }
{
    let mut left = text;
    'chars: while let Some((last, front)) = left.split_last() {
        if !is_gap(last) {
            return left;
        }
        left = front;
    }
    left
}

/// The text of words: without U+00A0, and with single blanks.
pub(crate) fn words_text(alloc: Global, words: &[&[(char, Kind)]]) -> Result<String, AllocError>
    ensures { IfOk result (λ s. string_bytes s ≡ words_text (texts words.now)) }
{
    let mut spaced = Spaced {
        text: String::with_capacity(alloc, room_for(words))?,
        started: false,
        gap: false,
    };
    'words: for word in words {
        push_single(&mut spaced, ' ')?;
        push_word(&mut spaced, word)?;
    }
    Ok(spaced.text)
}

// A character, or a blank in place of a white one.
fn shown(x: &(char, Kind)) -> char
    ensures { result ≡ (if is_white x.now then 32 else x.now.0) }
{
    let (c, _) = *x;
    if is_white(x) { ' ' } else { c }
}

/// The text of the words of a text: without U+00A0, and with single blanks.
#[tactic(auto, using(crate::proofs::SpacedTexts::spaced))]
pub(crate) fn spaced_text(alloc: Global, text: &[(char, Kind)]) -> Result<String, AllocError>
    ensures { IfOk result (λ s. string_bytes s ≡ words_text (words text.now)) }
{
    let mut spaced = Spaced {
        text: String::with_capacity(alloc, text.len())?,
        started: false,
        gap: true,
    };
    'chars: for x in text {
        push_single(&mut spaced, shown(x))?;
    }
    Ok(spaced.text)
}

/// How many characters words have, with a blank for each.
pub(crate) fn room_for(words: &[&[(char, Kind)]]) -> usize {
    let mut room: usize = 0;
    'words: for word in words {
        room = room.saturating_add(word.len()).saturating_add(1);
    }
    room
}

// Writes the characters of a word behind others.
fn push_word(spaced: &mut Spaced, word: &[(char, Kind)]) -> Result<(), AllocError>
    ensures { OnOk result ((rest : List ℕ) →
        string_bytes spaced.new.text ++ encode_utf8_all
        (single_blanks_in spaced.new.started spaced.new.gap rest)
        ≡ string_bytes spaced.old.text ++ encode_utf8_all
        (single_blanks_in spaced.old.started spaced.old.gap (map (λ x. x.0) word.now ++ rest))) }
{
    'chars: for (c, _) in word {
        push_single(spaced, *c)?;
    }
    Ok(())
}

// Whether a character is a blank, or one that doesn't break.
fn is_blank(c: char) -> bool
    ensures { result ≡ is_blank c }
{
    c == ' ' || c == '\u{a0}'
}

// Writes a character behind others, whatever the rest is.
fn push_single(spaced: &mut Spaced, c: char) -> Result<(), AllocError>
    ensures { OnOk result ((rest : List ℕ) →
        string_bytes spaced.new.text ++ encode_utf8_all
        (single_blanks_in spaced.new.started spaced.new.gap rest)
        ≡ string_bytes spaced.old.text ++ encode_utf8_all
        (single_blanks_in spaced.old.started spaced.old.gap (c ∷ rest))) }
{
    if is_blank(c) {
        spaced.gap = true;
        return Ok(());
    }
    if spaced.started && spaced.gap {
        spaced.text.push(' ')?;
    }
    spaced.text.push(c)?;
    spaced.started = true;
    spaced.gap = false;
    Ok(())
}
