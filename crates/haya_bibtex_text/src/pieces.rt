//! The pieces of a value.
ghost use Rattle.std.specs.Prelude.{◌≡◌, ◌≤◌, ◌<◌, Ok, Err, IfOk, IfErr, length, nat_lt};
ghost use Rattle.std.specs.List.{prefix_len};
ghost use Rattle.haya_bibtex_text.specs.GroupViews.{IsBefore, end_view};
ghost use Rattle.haya_bibtex_text.specs.Groups.{end_of};
ghost use Rattle.haya_bibtex_text.specs.Pieces.{enclosed_piece, piece_at, word_at};
ghost use Rattle.haya_bibtex_text.specs.PieceViews.{piece_view};
ghost use Rattle.haya_bibtex_text.specs.Signs.{close_brace, open_brace, quote};

use crate::classes::Class;
use crate::fault::{FaultKind, Refusal};
use crate::groups::{End, end_of};

/// A piece of a value.
#[derive(Clone, Copy, Drop)]
pub(crate) enum Piece<'a> {
    /// A text: in braces or in quotation marks, which are left out, or a number.
    Text(&'a [char]),
    /// The name of a string, at which so many characters of the text are left.
    Name(usize, &'a [char]),
}

// The piece at the front of a text, and what is left behind it. So many characters are left at the
// entry that it is in.
pub(crate) fn read_piece<'a>(
    entry: usize,
    text: &'a [char],
) -> Result<(Piece<'a>, &'a [char]), Refusal>
    ensures ok { IfOk result (λ p. piece_at entry text.now ≡ Ok (piece_view p.0, p.1.now)) }
    ensures fault { IfErr result (λ f. piece_at entry text.now ≡ Err f) }
    ensures shorter { IfOk result (λ p. length p.1.now < length text.now) }
{
    let Some((first, behind)) = text.split_first() else {
        return Err(Refusal {
            kind: FaultKind::Open,
            left: entry,
        });
    };
    match *first {
        '{' => read_enclosed(text.len(), '}', behind),
        '"' => read_enclosed(text.len(), '"', behind),
        _ => read_word(text),
    }
}

// How many characters of a text are counted, four at a time, that come before its first brace.
fn plain_len(text: &[char]) -> usize
    ensures plain { result ≤ prefix_len (λ c. nat_lt c open_brace) text.now }
    ensures within { result ≤ length text.now }
{
    let mut count = 0;
    let mut rest = text;
    'runs: while let [a, b, c, d, behind @ ..] = rest {
        if *a >= '{' || *b >= '{' || *c >= '{' || *d >= '{' {
            return count;
        }
        count += 4;
        rest = behind;
    }
    count
}

// Where the balanced text ends that a brace closes. Most characters come before both braces.
fn braces_end(text: &[char]) -> End
    ensures end { end_view result ≡ end_of close_brace text.now }
    ensures within { IsBefore (length text.now) result }
{
    let mut depth: usize = 0;
    let mut count = plain_len(text);
    let rest = &text[count..];
    'characters: for c in rest {
        if *c >= '{' {
            if *c == '{' {
                depth += 1;
            } else if *c == '}' {
                if depth == 0 {
                    return End::Closed(count);
                }
                depth -= 1;
            }
        }
        count += 1;
    }
    End::Nowhere
}

// The same where a quotation mark closes it.
fn quotes_end(text: &[char]) -> End
    ensures end { end_view result ≡ end_of quote text.now }
    ensures within { IsBefore (length text.now) result }
{
    let mut depth: usize = 0;
    let mut count: usize = 0;
    'characters: for c in text {
        if *c < '{' {
            if *c == '"' && depth == 0 {
                return End::Closed(count);
            }
        } else if *c == '{' {
            depth += 1;
        } else if *c == '}' {
            if depth == 0 {
                return End::Stray(count);
            }
            depth -= 1;
        }
        count += 1;
    }
    End::Nowhere
}

// Where the balanced text ends that this sign closes.
fn enclosed_end(sign: char, text: &[char]) -> End
    ensures end { end_view result ≡ end_of sign text.now }
    ensures within { IsBefore (length text.now) result }
{
    match sign {
        '}' => braces_end(text),
        '"' => quotes_end(text),
        _ => end_of(sign, text),
    }
}

// The text up to the sign that closes it, and what is left behind that. So many characters are left
// at the sign that opens it.
fn read_enclosed<'a>(
    place: usize,
    sign: char,
    text: &'a [char],
) -> Result<(Piece<'a>, &'a [char]), Refusal>
    ensures ok { IfOk result (λ p.
        enclosed_piece place sign text.now ≡ Ok (piece_view p.0, p.1.now)) }
    ensures fault { IfErr result (λ f. enclosed_piece place sign text.now ≡ Err f) }
    ensures shorter { IfOk result (λ p. length p.1.now ≤ length text.now) }
{
    match enclosed_end(sign, text) {
        End::Closed(count) => Ok((Piece::Text(&text[..count]), &text[count + 1..])),
        End::Stray(count) => Err(Refusal {
            kind: FaultKind::Brace,
            left: text.len() - count,
        }),
        End::Nowhere => Err(Refusal {
            kind: FaultKind::Open,
            left: place,
        }),
    }
}

// The number or the name at the front of a text, and what is left behind it.
fn read_word<'a>(text: &'a [char]) -> Result<(Piece<'a>, &'a [char]), Refusal>
    ensures ok { IfOk result (λ p. word_at text.now ≡ Ok (piece_view p.0, p.1.now)) }
    ensures fault { IfErr result (λ f. word_at text.now ≡ Err f) }
    ensures shorter { IfOk result (λ p. length p.1.now < length text.now) }
{
    let count = Class::Name.prefix_len(text);
    let digits = Class::Digit.prefix_len(text);
    if count == 0 || (digits > 0 && digits != count) {
        return Err(Refusal {
            kind: FaultKind::Value,
            left: text.len(),
        });
    }
    let (word, rest) = text.split_at(count);
    if digits == 0 {
        return Ok((Piece::Name(text.len(), word), rest));
    }
    Ok((Piece::Text(word), rest))
}
