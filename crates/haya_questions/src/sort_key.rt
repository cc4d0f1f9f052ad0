//! The keys of a sort.
ghost use Rattle.std.specs.Prelude.{◌≡◌, Some, IfErr, IfOk, IfSome};
ghost use Rattle.haya_questions.specs.Place.{IsUnknown, unknown_word};
ghost use Rattle.haya_questions.specs.SortText.{sort_key_read, sort_key_view, sort_words};

use crate::error::PlaceError;
use crate::place::Place;
use std::alloc::Global;

/// A key of a sort: a place, and whether its order is turned round.
#[derive(Debug, Drop, PartialEq, Eq)]
pub struct SortKey {
    /// The place.
    pub place: Place,
    /// Whether the order is turned round.
    pub is_reversed: bool,
}

impl SortKey {
    /// The key of a text: a place, as `Place::parse` reads it, with `-` in front where its order is
    /// turned round. `UnknownField`: nothing has the name of the place, which the error holds.
    #[tactic(auto, unfolding(crate::specs::SortText::sort_key_read))]
    pub fn parse(alloc: Global, text: &str) -> Result<SortKey, PlaceError>
        ensures ok { IfOk result (λ key. sort_key_read text.now ≡ Some (sort_key_view key)) }
        ensures fault { IfErr result (λ e.
            IfSome (unknown_word e) (IsUnknown (sort_words text.now).1)) }
    {
        let (is_reversed, word) = split_hyphen(text);
        let place = Place::parse(alloc, word)?;
        Ok(SortKey { place, is_reversed })
    }
}

// Whether a text begins with a hyphen, and the place's text.
fn split_hyphen(text: &str) -> (bool, &str)
    ensures direction { result.0 ≡ (sort_words text.now).0 }
    ensures word { result.1.now ≡ (sort_words text.now).1 }
{
    match text.strip_prefix('-') {
        Some(word) => (true, word),
        None => (false, text),
    }
}
