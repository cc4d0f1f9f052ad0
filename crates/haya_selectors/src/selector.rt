//! Selectors, and the texts that they are read from.
ghost use Rattle.std.specs.Prelude.{◌≡◌, ℕ, IfOk, List};
ghost use Rattle.std.specs.Str.{chars};
ghost use Rattle.haya_selectors.specs.declared.selector.SelectorError.TheVariants as fault;
ghost use Rattle.haya_selectors.specs.Reading.{EndsAt, IsFaultPlace, IsFaultTold, IsRead};
ghost use Rattle.haya_selectors.specs.Reading.{TextGives, without_end};
ghost use Rattle.haya_selectors.specs.Syntax.{syntax};

use crate::parse::expr;
use crate::token::{Tokens, end_before};
use haya_entry::EntryType;
use haya_text::OutOfMemory;
use std::alloc::{AllocError, AllocFailed, Global};
use thiserror::Error;

/// Which entries are meant, and what their parts are called.
pub enum Selector {
    /// `*`: any entry.
    Wildcard,
    /// `book`: an entry of this type.
    Entry(EntryType),
    /// `!s`: an entry that `s` doesn't pick.
    Neg(Box<Selector>),
    /// `n:s`: what `s` picks, called `n`.
    Binding(String, Box<Selector>),
    /// `s[a, b]`: what `s` picks, with all of these names.
    Attr(Box<Selector>, Vec<String>),
    /// `a | b`: what the first of these that holds picks.
    Alt(Vec<Selector>),
    /// `a & b`: parents of which each of these picks one of its own.
    Multi(Vec<Selector>),
    /// `l > r`: what `l` picks, with parents that `r` picks.
    Ancestrage(Box<Selector>, Box<Selector>),
}

// A loop along the first side, on which a text without parentheses grows. What is in parentheses on
// another side is dropped by a call of its own.
impl Drop for Selector {
    fn drop(mut self) {
        loop {
            match self {
                Selector::Wildcard | Selector::Entry(_) => return,
                Selector::Neg(inner) => self = Box::into_inner(inner),
                Selector::Binding(_, inner) => self = Box::into_inner(inner),
                Selector::Attr(inner, _) => self = Box::into_inner(inner),
                Selector::Alt(mut members) => {
                    if members.is_empty() {
                        return;
                    }
                    self = members.swap_remove(0);
                }
                Selector::Multi(mut members) => {
                    if members.is_empty() {
                        return;
                    }
                    self = members.swap_remove(0);
                }
                Selector::Ancestrage(child, _) => self = Box::into_inner(child),
            }
        }
    }
}

impl Selector {
    /// The selector at the front of a text; what follows it is ignored. An error is the first fault
    /// from the left, or out of memory.
    pub fn parse(alloc: Global, text: &str) -> Result<Selector, SelectorError>
        ensures grammar { TextGives (chars text.now) result }
        ensures computed { IsRead (chars text.now) result }
    {
        let mut tokens = Tokens::new(text);
        expr(alloc, &mut tokens)
    }

    /// The same selector, and the byte at which it ends, so that what follows it can be seen: the
    /// end of its last part, before any white space.
    ///
    /// ```
    /// Selector::parse_prefix(alloc, "article > book , web")? // article > book, which ends at 14
    /// ```
    pub fn parse_prefix(alloc: Global, text: &str) -> Result<(Selector, usize), SelectorError>
        ensures grammar { TextGives (chars text.now) (without_end result) }
        ensures computed { IsRead (chars text.now) (without_end result) }
        ensures end { IfOk result (λ p. EndsAt text.now (syntax p.0) p.1) }
    {
        let mut tokens = Tokens::new(text);
        let selector = expr(alloc, &mut tokens)?;
        let end = end_before(text, &tokens);
        Ok((selector, end))
    }

    /// The byte of a text at which it has its first fault, or `None` where it is a selector: where
    /// an unknown type begins, and of any other fault where what is wanted is missing, behind white
    /// space. That may be the end of the text. The only error is `OutOfMemory`.
    ///
    /// ```
    /// Selector::fault_place(alloc, "article > periodcal[issn]")? // Some(10)
    /// ```
    pub fn fault_place(alloc: Global, text: &str) -> Result<Option<usize>, OutOfMemory>
        ensures { IfOk result (IsFaultPlace text.now) }
    {
        let mut tokens = Tokens::new(text);
        let read = expr(alloc, &mut tokens);
        let Some(place) = place_of_fault(read, &mut tokens)? else {
            return Ok(None);
        };
        let is_boundary = text.is_char_boundary(place);
        Ok(Some(if is_boundary { place } else { text.len() }))
    }
}

// Where what was read of a text has a fault, if it has one, before these tokens that are left.
fn place_of_fault(
    read: Result<Selector, SelectorError>,
    tokens: &mut Tokens<'_>,
) -> Result<Option<usize>, OutOfMemory>
    ensures { (text : List ℕ) → IsRead text read → IfOk result (IsFaultTold text) }
{
    match read {
        Ok(_) => Ok(None),
        // An identifier is as long in lower case, and was taken.
        Err(SelectorError::UnknownEntryType(name)) => {
            Ok(Some(tokens.place().saturating_sub(name.len())))
        }
        Err(
            SelectorError::MissingValue
            | SelectorError::MalformedAttribute
            | SelectorError::MissingComma
            | SelectorError::UnbalancedParens,
        ) => Ok(Some(tokens.place_of_next())),
        Err(SelectorError::OutOfMemory) => Err(OutOfMemory),
    }
}

/// Why a text is no selector.
#[derive(Debug, Drop, PartialEq, Eq, Error)]
pub enum SelectorError {
    /// A value was wanted, and something else or the end of the text stands there.
    #[error("missing value")]
    MissingValue,
    /// After `[` or `,` in a list stands neither a name nor `]`.
    #[error("malformed attribute")]
    MalformedAttribute,
    /// After a name in a list stands neither `,` nor `]`.
    #[error("missing comma")]
    MissingComma,
    /// A `(` isn't closed.
    #[error("unbalanced parentheses")]
    UnbalancedParens,
    /// The name of no type, in lower case.
    #[error("unknown entry type: `{0}`")]
    UnknownEntryType(String),
    /// Out of memory, which says nothing of the text.
    #[error("out of memory")]
    OutOfMemory,
}

impl From<OutOfMemory> for SelectorError {
    ghost from_gives = { λ _ e. e ≡ fault.OutOfMemory };

    fn from(_error: OutOfMemory) -> SelectorError {
        SelectorError::OutOfMemory
    }
}

impl From<AllocError> for SelectorError {
    ghost from_gives = { λ _ e. e ≡ fault.OutOfMemory };

    fn from(_error: AllocError) -> SelectorError {
        SelectorError::OutOfMemory
    }
}

impl<T: Drop> From<AllocFailed<T>> for SelectorError {
    ghost from_gives = { λ _ e. e ≡ fault.OutOfMemory };

    fn from(_error: AllocFailed<T>) -> SelectorError {
        SelectorError::OutOfMemory
    }
}
