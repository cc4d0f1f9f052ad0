//! The text of a value, and names.
ghost use Rattle.std.specs.Prelude.{◌≡◌, ◌<◌, ◌^◌, [], true, flat_map, length, map, reverse};
ghost use Rattle.std.specs.Prelude.{string_bytes, All, IfOk, OnOk};
ghost use Rattle.std.specs.Str.{chars};
ghost use Rattle.haya_latex.specs.Reading.{read_all, write};
ghost use Rattle.haya_latex.specs.ReadingViews.{reader_view};
ghost use Rattle.haya_latex.specs.RunViews.{HasText, run_bytes, run_kind};
ghost use Rattle.haya_latex.specs.Simple.{behind_quiet, is_simple, left_behind_quiet, of_kind};
ghost use Rattle.haya_latex.specs.Simple.{quiet_front, quiet_rest};
ghost use Rattle.haya_latex.specs.Texts.{alternates, bytes_of, char_bytes, name_chars};
ghost use Rattle.haya_latex.specs.Texts.{name_unknown, text_chars, text_unknown};

use crate::kinds::Kind;
use crate::readers::{Reader, is_inside, put_alone, put_output, settle, start, take_turn};
use crate::runs::{Run, trimmed_runs};
use crate::scans::begins_white;
use crate::simple::{is_literal, is_plain, is_simple};
use crate::tokens::token_at;
use haya_characters::{chars_of, write_chars};
use std::alloc::{AllocError, Global};

/// What the text of a value says.
#[derive(Drop)]
pub struct Text {
    /// Its characters, in runs of a kind: none is empty, and none is of the kind of the next one.
    pub runs: Vec<Run>,
    /// The commands that aren't known, in order, without their backslashes.
    pub unknown: Vec<String>,
}

/// What names say.
#[derive(Drop)]
pub struct Names {
    /// Their characters.
    pub chars: Vec<(char, Kind)>,
    /// The commands that aren't known, in order, without their backslashes.
    pub unknown: Vec<String>,
}

/// Whether a text says just itself, as one run: it is in ASCII, of single blanks and hyphens, and of
/// characters that no other rule of LaTeX is about.
pub fn says_itself(text: &str) -> bool
    ensures bytes { result ≡ true → flat_map char_bytes (text_chars (chars text.now))
        ≡ bytes_of Kind.Normal text.now }
    ensures some { result ≡ true → 0 < length text.now }
    ensures unknown { result ≡ true → text_unknown (chars text.now) ≡ [] }
{
    is_literal(text.as_bytes())
}

/// What the text of a value says: its characters, without blanks at both ends and without each
/// behind another one, and the commands that aren't known.
///
/// `The {DNA} of {\em a} $x^2$ \foo{b}` is `The ` and ` of a `, Normal, with `DNA` between them,
/// Verbatim, then `x^2`, Math, and ` b`, Normal; `foo` isn't known.
///
/// | Text | What it says |
/// |---|---|
/// | `a\cite{x} b` | `a b`: white behind an argument that is left out stays |
/// | `\foo {A}` | `A`, Normal: white between a command and its group is dropped |
/// | `$a {b $ c }` | `a {b`, Math, then ` c`: braces don't keep math open; their partners are dropped |
/// | `\(a` | `a`, Math: math that nothing closes ends with its group, or the text |
/// | `{a\}` | `a\`, Verbatim: a backslash changes nothing about a brace that ends a group |
/// | `\'{ e}`, `\'{$x$}` | an accent is written alone in front of white and math |
/// | `\'{\"{}}` | of two accents that no letter carries the inner one carries the outer one |
/// | `\ensuremath a` | `a`, Normal: without a group `ensuremath` isn't known |
pub fn read_text(alloc: Global, text: &str) -> Result<Text, AllocError>
    ensures bytes { IfOk result (λ t. flat_map run_bytes t.runs.items
        ≡ flat_map char_bytes (text_chars (chars text.now))) }
    ensures runs { IfOk result (λ t. alternates (reverse (map run_kind t.runs.items)) ≡ true) }
    ensures texts { IfOk result (λ t. All HasText t.runs.items) }
    ensures unknown { IfOk result (λ t. map string_bytes t.unknown.items
        ≡ text_unknown (chars text.now)) }
{
    if says_itself(text) {
        return one_run(alloc, text);
    }
    let reader = read(alloc, Kind::Normal, text)?;
    let Reader {
        chars,
        counted,
        inner: _,
        outer: _,
        waiting: _,
    } = reader;
    let runs = trimmed_runs(alloc, chars.as_slice())?;
    Ok(Text {
        runs,
        unknown: counted,
    })
}

/// What names say: their characters, with all their blanks, and the commands that aren't known.
///
/// Each group protects what is in it, the group of a command too, and so does a character that a
/// command stands for protect itself, unless it is white. All blanks stay, since those that are Free
/// separate words: one behind a Verbatim blank isn't dropped.
///
/// `{\'E}tienne \o x {and} Co` is `É`, Special, `tienne `, Free, `ø`, Special, `x `, Free, `and`,
/// Verbatim, and ` Co`, Free.
pub fn read_names(alloc: Global, text: &str) -> Result<Names, AllocError>
    ensures chars { IfOk result (λ n. n.chars.items ≡ name_chars (chars text.now)) }
    ensures unknown { IfOk result (λ n. map string_bytes n.unknown.items
        ≡ name_unknown (chars text.now)) }
{
    let reader = if is_simple(text.as_bytes()) {
        read_simple(alloc, Kind::Free, text.as_bytes())?
    } else {
        read(alloc, Kind::Free, text)?
    };
    let Reader {
        chars,
        counted,
        inner: _,
        outer: _,
        waiting: _,
    } = reader;
    Ok(Names {
        chars,
        unknown: counted,
    })
}

// What a text says that says just itself.
fn one_run(alloc: Global, text: &str) -> Result<Text, AllocError>
    requires bytes { flat_map char_bytes (text_chars (chars text.now))
        ≡ bytes_of Kind.Normal text.now }
    requires some { 0 < length text.now }
    requires unknown { text_unknown (chars text.now) ≡ [] }
    ensures bytes { IfOk result (λ t. flat_map run_bytes t.runs.items
        ≡ flat_map char_bytes (text_chars (chars text.now))) }
    ensures runs { IfOk result (λ t. alternates (reverse (map run_kind t.runs.items)) ≡ true) }
    ensures texts { IfOk result (λ t. All HasText t.runs.items) }
    ensures unknown { IfOk result (λ t. map string_bytes t.unknown.items
        ≡ text_unknown (chars text.now)) }
{
    let run = Run {
        kind: Kind::Normal,
        text: String::from_str(alloc, text)?,
    };
    let mut runs = Vec::with_capacity(alloc, 1)?;
    runs.push(run)?;
    Ok(Text {
        runs,
        unknown: Vec::new(alloc),
    })
}

// The same as a reader, of text of a kind.
fn read_simple(alloc: Global, kind: Kind, text: &[u8]) -> Result<Reader, AllocError>
    requires { is_simple true text.now ≡ true }
    ensures { IfOk result (λ r. reader_view r ≡ read_all kind (chars text.now)) }
{
    let mut reader = start(alloc, kind, text.len())?;
    'bytes: for byte in text {
        put_alone(&mut reader, char::from(*byte), kind)?;
    }
    Ok(reader)
}

// What a text says that is of a kind.
fn read(alloc: Global, kind: Kind, text: &str) -> Result<Reader, AllocError>
    ensures { IfOk result (λ r. reader_view r ≡ read_all kind (chars text.now)) }
{
    let mut room = ['\0'; ROOM];
    if let Some(count) = write_chars(&mut room, text) {
        return read_all(alloc, kind, &room[..count]);
    }
    let chars = chars_of(alloc, text)?;
    read_all(alloc, kind, chars.as_slice())
}

// How many characters of a text are read without a list of them in memory.
const ROOM: usize = 64;

// What characters say that are text of a kind.
fn read_all(alloc: Global, kind: Kind, text: &[char]) -> Result<Reader, AllocError>
    requires { length text.now < 2 ^ 63 }
    ensures { IfOk result (λ r. reader_view r ≡ read_all kind text.now) }
{
    let mut reader = start(alloc, kind, text.len())?;
    let mut left = text;
    'tokens: loop {
        let front = put_front(&mut reader, left)?;
        let Some((first, behind)) = front.split_first() else {
            settle(&mut reader, alloc, 0)?;
            return Ok(reader);
        };
        let inner = reader.inner;
        let token = token_at(inner.kind, inner.depth, is_inside(&reader), *first, behind);
        put_output(&mut reader, alloc, token.output)?;
        take_turn(&mut reader, alloc, token.turn)?;
        let (_, rest) = behind.split_at(token.length);
        left = rest;
    }
}

// Writes the plain and white characters at the front of a text where no accent waits, and returns
// what is left to read.
fn put_front<'a>(reader: &mut Reader, text: &'a [char]) -> Result<&'a [char], AllocError>
    ensures written { OnOk result (reader_view reader.new
        ≡ behind_quiet text.now (reader_view reader.old)) }
    ensures left { IfOk result (λ left. left.now
        ≡ left_behind_quiet text.now (reader_view reader.old)) }
{
    if !reader.waiting.is_empty() {
        return Ok(text);
    }
    let kind = reader.inner.kind;
    put_quiet(reader, text, kind)
}

// The same where it is known that none waits.
fn put_quiet<'a>(
    reader: &mut Reader,
    text: &'a [char],
    kind: Kind,
) -> Result<&'a [char], AllocError>
    ensures written { OnOk result (reader_view reader.new
        ≡ write (of_kind kind (quiet_front text.now)) (reader_view reader.old)) }
    ensures left { IfOk result (λ left. left.now ≡ quiet_rest text.now) }
{
    let mut left = text;
    'chars: while let Some((first, behind)) = left.split_first() {
        if is_plain(*first) {
            put_alone(reader, *first, kind)?;
        } else if !first.is_whitespace() {
            return Ok(left);
        } else if !begins_white(behind) {
            put_alone(reader, ' ', kind)?;
        }
        left = behind;
    }
    Ok(left)
}
