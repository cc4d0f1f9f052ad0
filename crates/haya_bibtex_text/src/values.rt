//! Values: pieces with number signs between.
ghost use Rattle.std.specs.Prelude.{◌≡◌, ◌<◌, ◌∷◌, [], map, IfOk, IfErr, IfSome, length};
ghost use Rattle.std.specs.Prelude.{option_map};
ghost use Rattle.haya_bibtex_text.specs.FieldViews.{pieces_of};
ghost use Rattle.haya_bibtex_text.specs.PieceViews.{piece_view};
ghost use Rattle.haya_bibtex_text.specs.Stops.{StopsBy};
ghost use Rattle.haya_bibtex_text.specs.Values.{FailsValue, IsValue, behind_sign};

use crate::blanks::behind_blank;
use crate::fault::Stop;
use crate::pieces::{Piece, read_piece};
use std::alloc::Global;
use std::slice;

/// The pieces of a value.
#[derive(Drop)]
pub(crate) enum Pieces<'a> {
    /// One, as most values have: it needs no list.
    One(Piece<'a>),
    /// Several.
    Several(Vec<Piece<'a>>),
}

impl<'a> Pieces<'a> {
    ghost use Rattle.std.specs.Prelude.{◌≡◌, ◌∷◌, [], IfSome, map};
    ghost use Rattle.haya_bibtex_text.specs.FieldViews.{pieces_of};
    ghost use Rattle.haya_bibtex_text.specs.Pieces.{text};
    ghost use Rattle.haya_bibtex_text.specs.PieceViews.{piece_view};

    /// The pieces, in order.
    pub(crate) fn as_slice(&self) -> &[Piece<'a>]
        ensures { result.now ≡ pieces_of self.now }
    {
        match self {
            Pieces::One(piece) => slice::from_ref(piece),
            Pieces::Several(pieces) => pieces.as_slice(),
        }
    }

    /// The text that they are, if it is one.
    pub(crate) fn only_text(&self) -> Option<&'a [char]>
        ensures { IfSome result (λ t. map piece_view (pieces_of self.now) ≡ text t.now ∷ []) }
    {
        match self {
            Pieces::One(Piece::Text(characters)) => Some(*characters),
            _ => None,
        }
    }
}

// What is left behind a sign that begins a text, and the blank behind it.
fn behind_sign(sign: char, text: &[char]) -> Option<&[char]>
    ensures left { option_map (λ t. t.now) result ≡ behind_sign sign text.now }
    ensures shorter { IfSome result (λ t. length t.now < length text.now) }
{
    let (first, behind) = text.split_first()?;
    if *first != sign {
        return None;
    }
    Some(behind_blank(behind))
}

// The piece that a value is, and what is left behind it and a blank. Nothing where the text doesn't
// begin with a value of one piece.
fn read_one<'a>(entry: usize, text: &'a [char]) -> Option<(Piece<'a>, &'a [char])>
    ensures value { IfSome result (λ v.
        IsValue entry text.now (piece_view v.0 ∷ []) v.1.now) }
    ensures shorter { IfSome result (λ v. length v.1.now < length text.now) }
{
    let (piece, behind) = match read_piece(entry, text) {
        Ok(read) => read,
        Err(_) => return None,
    };
    let rest = behind_blank(behind);
    match behind_sign('#', rest) {
        Some(_) => None,
        None => Some((piece, rest)),
    }
}

// The pieces of a value in a list, and what is left behind it and a blank.
fn read_pieces<'a>(
    alloc: Global,
    entry: usize,
    text: &'a [char],
) -> Result<(Vec<Piece<'a>>, &'a [char]), Stop>
    ensures ok { IfOk result (λ v. IsValue entry text.now (map piece_view v.0.items) v.1.now) }
    ensures fault { IfErr result (StopsBy (FailsValue entry text.now)) }
    ensures shorter { IfOk result (λ v. length v.1.now < length text.now) }
{
    let mut pieces = Vec::new(alloc);
    let mut left = text;
    'pieces: loop {
        let (piece, behind) = match read_piece(entry, left) {
            Ok(read) => read,
            Err(fault) => return Err(Stop::Refused(fault)),
        };
        pieces.push(piece)?;
        let rest = behind_blank(behind);
        match behind_sign('#', rest) {
            Some(next) => left = next,
            None => return Ok((pieces, rest)),
        }
    }
}

/// The pieces of a value, and what is left behind it and a blank.
pub(crate) fn read_value<'a>(
    alloc: Global,
    entry: usize,
    text: &'a [char],
) -> Result<(Pieces<'a>, &'a [char]), Stop>
    ensures ok { IfOk result (λ v.
        IsValue entry text.now (map piece_view (pieces_of v.0)) v.1.now) }
    ensures fault { IfErr result (StopsBy (FailsValue entry text.now)) }
    ensures shorter { IfOk result (λ v. length v.1.now < length text.now) }
{
    if let Some((piece, rest)) = read_one(entry, text) {
        return Ok((Pieces::One(piece), rest));
    }
    match read_pieces(alloc, entry, text) {
        Ok((pieces, rest)) => Ok((Pieces::Several(pieces), rest)),
        Err(stop) => Err(stop),
    }
}
