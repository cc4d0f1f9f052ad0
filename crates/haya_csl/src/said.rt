//! What a value says, and what is lost of it.
ghost use Rattle.std.specs.Prelude.{◌≡◌, IfOk};
ghost use Rattle.json.specs.Value.{value_view};
ghost use Rattle.haya_csl.specs.Said.{not_read, said_view, says, says_none};

use haya_json::{Lost, Why};
use haya_text::OutOfMemory;
use json::Value;
use std::alloc::Global;

/// What a value says, if anything, and what is lost of it.
#[derive(Drop)]
pub(crate) struct Said<T> {
    pub(crate) value: Option<T>,
    pub(crate) lost: Vec<Lost>,
}

impl<T: Drop> Said<T> {
    /// This, and nothing is lost.
    pub(crate) fn of(alloc: Global, value: T) -> Said<T>
        ensures { said_view (λ v. v) result ≡ says value }
    {
        Said {
            value: Some(value),
            lost: Vec::new(alloc),
        }
    }

    /// Nothing, and nothing is lost.
    pub(crate) fn none(alloc: Global) -> Said<T>
        ensures { said_view (λ v. v) result ≡ says_none }
    {
        Said {
            value: None,
            lost: Vec::new(alloc),
        }
    }

    /// Nothing, as the value isn't read for this reason.
    pub(crate) fn unread(alloc: Global, why: Why, json: &Value<'_>) -> Result<Said<T>, OutOfMemory>
        ensures { IfOk result (λ said. said_view (λ v. v) said ≡ not_read why) }
    {
        let mut lost = Vec::with_capacity(alloc, 1)?;
        lost.push_reserved(Lost::unread(alloc, why, json)?);
        Ok(Said { value: None, lost })
    }
}
