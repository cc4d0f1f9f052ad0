//! The pieces that a text of pages is cut into.
ghost use Rattle.std.specs.Prelude.{◌≡◌, [], ◌∷◌, MatchOption};
ghost use Rattle.std.specs.Iterator.{YieldsFirstBy, item_count};
ghost use Rattle.std.specs.Str.{chars};
ghost use Rattle.haya_numbers.specs.Pieces.{is_separator, pieces};

use haya_text::cursor::Cursor;
use std::marker::Model;

/// The pieces of a text that are left, in order.
#[derive(Drop)]
pub struct PagePieces<'a> {
    rest: &'a str,
}

impl<'a> Model for PagePieces<'a> {
    ghost use Rattle.std.specs.Prelude.{List, ℕ};
    ghost use Rattle.std.specs.Str.{chars};
    ghost use Rattle.haya_numbers.specs.Pieces.{pieces};

    ghost Value = { List (List ℕ) };

    ghost view = { λ p. pieces (chars p.rest.now) };
}

impl<'a> Iterator for PagePieces<'a> {
    type Item = &'a str;

    ghost next_gives = { YieldsFirstBy (λ piece. chars piece.now) (λ left. left) };

    ghost remaining = { item_count (λ left. left) };

    fn next(&mut self) -> Option<&'a str> {
        let (piece, rest) = split_piece(self.rest)?;
        self.rest = rest;
        Some(piece)
    }
}

/// The pieces of a text, in order: each comma and each ampersand is a piece of its own, and so is
/// each longest run of other characters. Takes no memory.
pub fn split_pages(text: &str) -> PagePieces<'_>
    ensures { result ≡ pieces (chars text.now) }
{
    PagePieces { rest: text }
}

// The text cut behind its first piece, if it has one.
fn split_piece(text: &str) -> Option<(&str, &str)>
    ensures { MatchOption result
        (chars text.now ≡ [])
        (λ cut. pieces (chars text.now) ≡ chars cut.0.now ∷ pieces (chars cut.1.now)) }
{
    let mut cursor = Cursor::new(text);
    let first = cursor.eat()?;
    if is_separator(first) {
        return Some(text.split_at(cursor.place()));
    }
    cursor.eat_while(|c| !is_separator(c));
    Some(text.split_at(cursor.place()))
}

// Whether a character is a piece of its own.
fn is_separator(c: char) -> bool
    ensures { result ≡ is_separator c }
{
    matches!(c, ',' | '&')
}
