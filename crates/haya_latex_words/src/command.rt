//! What commands mean that are words.
ghost use Rattle.std.specs.Prelude.{◌≡◌, map, option_map};
ghost use Rattle.std.specs.List.{list_any};
ghost use Rattle.std.specs.Map.{lookup};
ghost use Rattle.std.specs.Str.{bytes_eq};
ghost use Rattle.haya_latex_words.specs.Commands.{looks, meaning, meaning_in, others, signs, texts};
ghost use Rattle.haya_latex_words.specs.CommandViews.{meaning_view, row_view, sign_view, word_view};

use crate::accent::Accent;
use crate::tables::{LOOKS, OTHERS, SIGNS, TEXTS};

/// What a command is.
#[derive(Clone, Copy)]
pub enum Meaning {
    /// It stands for a character.
    Sign(char),
    /// It stands for several characters.
    Text(&'static [char]),
    /// It stands for these characters, and white behind it is no part of it.
    Point(&'static [char]),
    /// It is an accent.
    Accent(Accent),
    /// It says how what follows looks.
    Look,
    /// It is left out, with so many arguments.
    LeftOut(usize),
    /// It stands for signs before and behind what follows.
    Around(char, char),
    /// What follows is a formula.
    Formula,
    /// It isn't known.
    Unknown,
}

/// What the command with this word means.
pub fn meaning_of(word: &[char]) -> Meaning
    ensures { meaning_view result ≡ meaning word.now }
{
    if let Some(sign) = sign_of(word) {
        return Meaning::Sign(sign);
    }
    if let Some(text) = text_of(word) {
        return text;
    }
    if is_look(word) {
        return Meaning::Look;
    }
    other_of(word).unwrap_or(Meaning::Unknown)
}

fn sign_of(word: &[char]) -> Option<char>
    ensures { result ≡ lookup (bytes_eq word.now) signs }
{
    sign_in(SIGNS, word)
}

fn is_look(word: &[char]) -> bool
    ensures { result ≡ list_any (bytes_eq word.now) looks }
{
    is_in(LOOKS, word)
}

fn text_of(word: &[char]) -> Option<Meaning>
    ensures { option_map meaning_view result ≡ meaning_in texts word.now }
{
    meaning_in(TEXTS, word)
}

fn other_of(word: &[char]) -> Option<Meaning>
    ensures { option_map meaning_view result ≡ meaning_in others word.now }
{
    meaning_in(OTHERS, word)
}

// What a word means by a table.
fn meaning_in(table: &[(&str, Meaning)], word: &[char]) -> Option<Meaning>
    ensures { option_map meaning_view result ≡ meaning_in (map row_view table.now) word.now }
{
    'rows: for (name, meaning) in table {
        if is_word(word, name) {
            return Some(*meaning);
        }
    }
    None
}

// What character a word stands for by a table.
fn sign_in(table: &[(&str, char)], word: &[char]) -> Option<char>
    ensures { result ≡ lookup (bytes_eq word.now) (map sign_view table.now) }
{
    'rows: for (name, sign) in table {
        if is_word(word, name) {
            return Some(*sign);
        }
    }
    None
}

// Whether a word is in a table.
fn is_in(table: &[&str], word: &[char]) -> bool
    ensures { result ≡ list_any (bytes_eq word.now) (map word_view table.now) }
{
    'rows: for name in table {
        if is_word(word, name) {
            return true;
        }
    }
    false
}

// Whether a word is this one, of ASCII letters.
fn is_word(word: &[char], name: &str) -> bool
    ensures { result ≡ bytes_eq word.now name.now }
{
    if word.len() != name.len() {
        return false;
    }
    let mut left = word;
    'bytes: for byte in name.as_bytes() {
        let Some((first, rest)) = left.split_first() else {
            return false;
        };
        if u32::from(*first) != u32::from(*byte) {
            return false;
        }
        left = rest;
    }
    left.is_empty()
}
