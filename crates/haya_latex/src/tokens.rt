//! The token at the front of a text.
ghost use Rattle.std.specs.Prelude.{◌≡◌, ◌≤◌, ◌<◌, ◌+◌, ◌^◌, [], ◌∷◌, length};
ghost use Rattle.haya_latex.specs.Tokens.{backslash_at, bracket_at, character_at, control_at};
ghost use Rattle.haya_latex.specs.Tokens.{dashes_at, dollar_at, escape_at, rest_length, sign_at};
ghost use Rattle.haya_latex.specs.Tokens.{token_at, white_at};
ghost use Rattle.haya_latex.specs.TokenViews.{IsBelow, output_view, token_view};

use crate::commands::{accent_at, word_at};
use crate::formulas::closing;
use crate::kinds::{Kind, Turn, group_kind};
use crate::scans::{
    begins, begins_white, inner_length, is_blank_sign, is_empty_sign, is_escaped, white_length,
    word_length,
};
use haya_latex_words::Accent;

/// What a token writes.
#[derive(Clone, Copy)]
pub(crate) enum Output<'a> {
    /// Nothing.
    Nothing,
    /// A character.
    One(char),
    /// Two characters.
    Two(char, char),
    /// The character that a command stands for.
    Sign(char),
    /// The text that a command stands for.
    Text(&'static [char]),
    /// A formula.
    Formula(&'a [char]),
    /// Nothing, but this command is to be counted.
    Counted(&'a [char]),
    /// A sign behind a backslash, which is counted too.
    Odd(char, &'a [char]),
}

/// A token.
#[derive(Clone, Copy)]
pub(crate) struct Token<'a> {
    /// What it writes.
    pub(crate) output: Output<'a>,
    /// How many characters it has behind its first.
    pub(crate) length: usize,
    /// What it does with groups.
    pub(crate) turn: Turn,
}

/// A token that leaves groups as they are.
pub(crate) fn plain<'a>(output: Output<'a>, length: usize) -> Token<'a>
    ensures output { result.output ≡ output.entry }
    ensures length { result.length ≡ length }
    ensures turn { result.turn ≡ Turn.Stay }
{
    Token {
        output,
        length,
        turn: Turn::Stay,
    }
}

/// The token of this character and what follows it, in text of a kind, where so many braces are
/// open that begin no group, in a group or outside of all.
pub(crate) fn token_at<'a>(
    kind: Kind,
    depth: usize,
    inside: bool,
    first: char,
    text: &'a [char],
) -> Token<'a>
    requires { depth + length text.now < 2 ^ 63 }
    ensures token { token_view result ≡ token_at kind depth inside first text.now }
    ensures within { result.length ≤ length text.now }
    ensures below { IsBelow depth (result.length + 1) result.turn }
{
    if first.is_whitespace() {
        return white_at(text);
    }
    match first {
        '\\' => backslash_at(kind, depth, inside, text),
        '{' => Token {
            output: Output::Nothing,
            length: 0,
            turn: Turn::Enter(group_kind(kind, begins('\\', text)), None),
        },
        '}' => Token {
            output: Output::Nothing,
            length: 0,
            turn: Turn::Close,
        },
        '$' => dollar_at(depth, inside, text),
        _ => character_at(first, text),
    }
}

fn white_at<'a>(text: &'a [char]) -> Token<'a>
    ensures token { token_view result ≡ white_at text.now }
    ensures within { result.length ≡ 0 }
    ensures stays { result.turn ≡ Turn.Stay }
{
    if begins_white(text) {
        plain(Output::Nothing, 0)
    } else {
        plain(Output::One(' '), 0)
    }
}

// A character that stands for another where it is doubled, or another follows.
fn character_at<'a>(first: char, text: &'a [char]) -> Token<'a>
    ensures token { token_view result ≡ character_at first text.now }
    ensures within { result.length ≤ length text.now }
    ensures stays { result.turn ≡ Turn.Stay }
{
    match first {
        '~' => plain(Output::One('\u{a0}'), 0),
        '-' => dashes_at(text),
        '`' => sign_at('`', '‘', '“', text),
        '\'' => sign_at('\'', '’', '”', text),
        '?' => sign_at('`', '?', '¿', text),
        '!' => sign_at('`', '!', '¡', text),
        _ => plain(Output::One(first), 0),
    }
}

fn sign_at<'a>(c: char, single: char, double: char, text: &'a [char]) -> Token<'a>
    ensures token { token_view result ≡ sign_at c single double text.now }
    ensures within { result.length ≤ length text.now }
    ensures stays { result.turn ≡ Turn.Stay }
{
    if begins(c, text) {
        plain(Output::One(double), 1)
    } else {
        plain(Output::One(single), 0)
    }
}

fn dashes_at<'a>(text: &'a [char]) -> Token<'a>
    ensures token { token_view result ≡ dashes_at text.now }
    ensures within { result.length ≤ length text.now }
    ensures stays { result.turn ≡ Turn.Stay }
{
    match text.split_first() {
        Some((first, behind)) => {
            if *first != '-' {
                plain(Output::One('-'), 0)
            } else if begins('-', behind) {
                plain(Output::One('—'), 2)
            } else {
                plain(Output::One('–'), 1)
            }
        }
        None => plain(Output::One('-'), 0),
    }
}

fn dollar_at<'a>(depth: usize, inside: bool, text: &'a [char]) -> Token<'a>
    requires { depth + length text.now < 2 ^ 63 }
    ensures token { token_view result ≡ dollar_at depth inside text.now }
    ensures within { result.length ≤ length text.now }
    ensures below { IsBelow depth (result.length + 1) result.turn }
{
    match closing('$', depth, inside, text) {
        Some((count, braces)) => Token {
            output: Output::Formula(&text[..count]),
            length: count + 1,
            turn: Turn::Open(braces),
        },
        None => plain(Output::One('$'), 0),
    }
}

// How long math is that nothing closes.
fn rest_length(depth: usize, inside: bool, text: &[char]) -> usize
    requires { depth + length text.now < 2 ^ 63 }
    ensures length { result ≡ rest_length depth inside text.now }
    ensures within { result ≤ length text.now }
{
    if inside {
        inner_length(depth, text)
    } else {
        text.len()
    }
}

fn bracket_at<'a>(closer: char, depth: usize, inside: bool, text: &'a [char]) -> Token<'a>
    requires { depth + length text.now < 2 ^ 63 }
    ensures token { token_view result ≡ bracket_at closer depth inside text.now }
    ensures within { result.length ≤ length text.now + 1 }
    ensures below { IsBelow depth (result.length + 1) result.turn }
{
    match closing(closer, depth, inside, text) {
        Some((count, braces)) => Token {
            output: Output::Formula(&text[..count.saturating_sub(1)]),
            length: count + 2,
            turn: Turn::Open(braces),
        },
        None => {
            let rest = rest_length(depth, inside, text);
            Token {
                output: Output::Formula(&text[..rest]),
                length: rest + 1,
                turn: Turn::Open(0),
            }
        }
    }
}

fn backslash_at<'a>(kind: Kind, depth: usize, inside: bool, text: &'a [char]) -> Token<'a>
    requires { depth + length text.now < 2 ^ 63 }
    ensures token { token_view result ≡ backslash_at kind depth inside text.now }
    ensures within { result.length ≤ length text.now }
    ensures below { IsBelow depth (result.length + 1) result.turn }
{
    if inside && depth == 0 && begins('}', text) {
        plain(Output::One('\\'), 0)
    } else {
        control_at(kind, depth, inside, text)
    }
}

fn control_at<'a>(kind: Kind, depth: usize, inside: bool, text: &'a [char]) -> Token<'a>
    requires { depth + length text.now < 2 ^ 63 }
    ensures token { token_view result ≡ control_at kind depth inside text.now }
    ensures within { result.length ≤ length text.now }
    ensures below { IsBelow depth (result.length + 1) result.turn }
{
    let Some((first, behind)) = text.split_first() else {
        return plain(Output::One('\\'), 0);
    };
    if first.is_ascii_alphabetic() {
        let count = word_length(text);
        return word_at(kind, count, text);
    }
    match Accent::of_sign(*first) {
        Some(accent) => accent_at(kind, accent, 1, behind),
        None => escape_at(depth, inside, *first, behind, &text[..1]),
    }
}

// A backslash and a sign that is no accent.
fn escape_at<'a>(
    depth: usize,
    inside: bool,
    c: char,
    behind: &'a [char],
    name: &'a [char],
) -> Token<'a>
    requires bound { depth + length behind.now + 1 < 2 ^ 63 }
    requires name { name.now ≡ c ∷ [] }
    ensures token { token_view result ≡ escape_at depth inside c behind.now }
    ensures within { result.length ≤ length behind.now + 1 }
    ensures below { IsBelow depth (result.length + 1) result.turn }
{
    if c.is_whitespace() {
        return plain(Output::One(' '), white_length(behind) + 1);
    }
    match c {
        '{' => Token {
            output: Output::One('{'),
            length: 1,
            turn: Turn::Open(depth + 1),
        },
        '}' => Token {
            output: Output::One('}'),
            length: 1,
            turn: Turn::Close,
        },
        '(' => bracket_at(')', depth, inside, behind),
        '[' => bracket_at(']', depth, inside, behind),
        ',' => plain(Output::One('\u{2009}'), 1),
        _ if is_escaped(c) => plain(Output::One(c), 1),
        _ if is_blank_sign(c) => plain(Output::One(' '), 1),
        _ if is_empty_sign(c) => plain(Output::Nothing, 1),
        _ => plain(Output::Odd(c, name), 1),
    }
}
