//! The tokens of commands and accents.
ghost use Rattle.std.specs.Prelude.{◌≡◌, ◌≤◌, ◌<◌, ◌+◌, ◌^◌, length};
ghost use Rattle.haya_latex.specs.Tokens.{accent_at, accent_on, accented, alone_by, around_at};
ghost use Rattle.haya_latex.specs.Tokens.{behind_white, command_by, formula_at, left_out_at};
ghost use Rattle.haya_latex.specs.Tokens.{look_at, unknown_at, with_group, word_at};
ghost use Rattle.haya_latex.specs.TokenViews.{IsBelow, output_view, token_view};
ghost use Rattle.haya_latex.specs.Scans.{white_length};
ghost use Rattle.haya_latex_words.specs.Accents.{alone};
ghost use Rattle.haya_latex_words.specs.CommandViews.{meaning_view};

use crate::kinds::{Kind, Turn, argument_kind};
use crate::scans::{arguments_length, begins, group_length, inner_length, white_length};
use crate::tokens::{Output, Token, plain};
use haya_latex_words::{Accent, Meaning, dotted, meaning_of};

/// The token of a word of so many letters.
pub(crate) fn word_at<'a>(kind: Kind, count: usize, text: &'a [char]) -> Token<'a>
    requires bound { length text.now < 2 ^ 63 }
    requires within { count ≤ length text.now }
    ensures token { token_view result ≡ word_at kind count text.now }
    ensures within { result.length ≤ length text.now }
    ensures below { IsBelow 0 0 result.turn }
{
    let (word, behind) = text.split_at(count);
    command_at(kind, word, count, behind, meaning_of(word))
}

// The token of a command that is so long and means this.
fn command_at<'a>(
    kind: Kind,
    word: &'a [char],
    count: usize,
    text: &'a [char],
    meaning: Meaning,
) -> Token<'a>
    requires { count + length text.now < 2 ^ 63 }
    ensures token { token_view result
        ≡ command_by kind word.now count text.now (meaning_view meaning) }
    ensures within { result.length ≤ count + length text.now }
    ensures below { IsBelow 0 0 result.turn }
{
    match meaning {
        Meaning::Sign(c) => plain(Output::Sign(c), count + white_length(text)),
        Meaning::Text(cs) => plain(Output::Text(cs), count + white_length(text)),
        Meaning::Point(cs) => plain(Output::Text(cs), count),
        Meaning::Accent(accent) => accent_at(kind, accent, count, text),
        Meaning::Look => look_at(kind, count, text),
        Meaning::LeftOut(arguments) => left_out_at(kind, arguments, count, text),
        Meaning::Around(first, last) => around_at(kind, first, last, count, text),
        Meaning::Formula => formula_at(word, count, text),
        Meaning::Unknown => unknown_at(kind, word, count, text),
    }
}

// The token of a command that writes `there` where a group begins behind so many characters, and
// `last` at its end; without a group it writes `nowhere`, and is so long.
fn with_group<'a>(
    kind: Kind,
    count: usize,
    text: &'a [char],
    there: Output<'a>,
    last: Option<char>,
    nowhere: Output<'a>,
    end: usize,
) -> Token<'a>
    requires bound { count + length text.now < 2 ^ 63 }
    requires end { end ≤ count }
    ensures token { token_view result ≡ with_group kind count text.now (output_view there.entry)
        last (output_view nowhere.entry) end }
    ensures within { result.length ≤ count + length text.now }
    ensures below { IsBelow 0 0 result.turn }
{
    match text.split_first() {
        Some(('{', inside)) => Token {
            output: there,
            length: count + 1,
            turn: Turn::Enter(argument_kind(kind, begins('\\', inside)), last),
        },
        _ => plain(nowhere, end),
    }
}

// The same behind white.
fn behind_white<'a>(
    kind: Kind,
    count: usize,
    text: &'a [char],
    there: Output<'a>,
    last: Option<char>,
    nowhere: Output<'a>,
    end: usize,
) -> Token<'a>
    requires bound { count + length text.now < 2 ^ 63 }
    requires end { end ≤ count + white_length text.now }
    ensures token { token_view result ≡ behind_white kind count text.now (output_view there.entry)
        last (output_view nowhere.entry) end }
    ensures within { result.length ≤ count + length text.now }
    ensures below { IsBelow 0 0 result.turn }
{
    let white = white_length(text);
    let (_, rest) = text.split_at(white);
    with_group(kind, count + white, rest, there, last, nowhere, end)
}

fn look_at<'a>(kind: Kind, count: usize, text: &'a [char]) -> Token<'a>
    requires { count + length text.now < 2 ^ 63 }
    ensures token { token_view result ≡ look_at kind count text.now }
    ensures within { result.length ≤ count + length text.now }
    ensures below { IsBelow 0 0 result.turn }
{
    let end = count + white_length(text);
    behind_white(
        kind,
        count,
        text,
        Output::Nothing,
        None,
        Output::Nothing,
        end,
    )
}

// The token of signs around what follows.
fn around_at<'a>(kind: Kind, first: char, last: char, count: usize, text: &'a [char]) -> Token<'a>
    requires { count + length text.now < 2 ^ 63 }
    ensures token { token_view result ≡ around_at kind first last count text.now }
    ensures within { result.length ≤ count + length text.now }
    ensures below { IsBelow 0 0 result.turn }
{
    let end = count + white_length(text);
    let both = Output::Two(first, last);
    behind_white(kind, count, text, Output::One(first), Some(last), both, end)
}

// The token of a command that is left out with so many arguments.
fn left_out_at<'a>(kind: Kind, arguments: usize, count: usize, text: &'a [char]) -> Token<'a>
    requires { count + length text.now < 2 ^ 63 }
    ensures token { token_view result ≡ left_out_at kind arguments count text.now }
    ensures within { result.length ≤ count + length text.now }
    ensures below { IsBelow 0 0 result.turn }
{
    let length = arguments_length(arguments, text);
    if length == 0 {
        return look_at(kind, count, text);
    }
    let (_, rest) = text.split_at(length);
    let end = count + length;
    behind_white(kind, end, rest, Output::Nothing, None, Output::Nothing, end)
}

// The token of a command that isn't known.
fn unknown_at<'a>(kind: Kind, word: &'a [char], count: usize, text: &'a [char]) -> Token<'a>
    requires { count + length text.now < 2 ^ 63 }
    ensures token { token_view result ≡ unknown_at kind word.now count text.now }
    ensures within { result.length ≤ count + length text.now }
    ensures below { IsBelow 0 0 result.turn }
{
    let counted = Output::Counted(word);
    behind_white(kind, count, text, counted, None, counted, count)
}

// The token of a group that is a formula.
fn formula_at<'a>(word: &'a [char], count: usize, text: &'a [char]) -> Token<'a>
    requires { count + length text.now < 2 ^ 63 }
    ensures token { token_view result ≡ formula_at word.now count (white_length text.now) text.now }
    ensures within { result.length ≤ count + length text.now }
    ensures stays { result.turn ≡ Turn.Stay }
{
    let white = white_length(text);
    let (_, group) = text.split_at(white);
    match group.split_first() {
        Some(('{', inside)) => {
            let length = inner_length(0, inside);
            plain(
                Output::Formula(&inside[..length]),
                count + white + group_length(group),
            )
        }
        _ => plain(Output::Counted(word), count),
    }
}

/// The token of an accent, behind so many characters of its command.
pub(crate) fn accent_at<'a>(kind: Kind, accent: Accent, count: usize, text: &'a [char]) -> Token<'a>
    requires { count + length text.now < 2 ^ 63 }
    ensures token { token_view result ≡ accent_at kind accent count text.now }
    ensures within { result.length ≤ count + length text.now }
    ensures below { IsBelow 0 0 result.turn }
{
    let white = white_length(text);
    let (_, rest) = text.split_at(white);
    accent_on(kind, accent, count + white, rest)
}

fn accent_on<'a>(kind: Kind, accent: Accent, count: usize, text: &'a [char]) -> Token<'a>
    requires { count + length text.now < 2 ^ 63 }
    ensures token { token_view result ≡ accent_on kind accent count text.now }
    ensures within { result.length ≤ count + length text.now }
    ensures below { IsBelow 0 0 result.turn }
{
    let Some((first, behind)) = text.split_first() else {
        return plain(alone(accent), count);
    };
    match *first {
        '{' => Token {
            output: Output::Nothing,
            length: count + 1,
            turn: Turn::Under(accent, argument_kind(kind, begins('\\', behind))),
        },
        '\\' => Token {
            output: Output::Nothing,
            length: count,
            turn: Turn::Wait(accent),
        },
        '}' | '$' => plain(alone(accent), count),
        c => plain(accented(accent, c), count + 1),
    }
}

// An accent that nothing carries.
fn alone<'a>(accent: Accent) -> Output<'a>
    ensures { output_view result ≡ alone_by (alone accent) }
{
    match accent.alone() {
        Some(c) => Output::One(c),
        None => Output::Nothing,
    }
}

// A character with an accent.
fn accented<'a>(accent: Accent, c: char) -> Output<'a>
    ensures { output_view result ≡ accented accent c }
{
    let letter = dotted(c);
    match accent.composed(letter) {
        Some(whole) => Output::One(whole),
        None => Output::Two(letter, accent.mark()),
    }
}
