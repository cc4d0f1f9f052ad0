//! The key of an item.
ghost use Rattle.std.specs.Prelude.{◌≡◌, Ok, option_map, IfErr, IfOk};
ghost use Rattle.json.specs.Value.{value_view};
ghost use Rattle.haya_json.specs.Refusal.{IsFaultOf};
ghost use Rattle.haya_csl.specs.Items.{citation_key_of, given_or, id_of, item_key};

use crate::kinds::filled;
use haya_json::Why;
use haya_json::reading::{ValueError, read_text, text_in};
use json::Value;
use std::alloc::Global;

/// The member of an item that has its key.
#[derive(Clone, Copy, Debug, PartialEq, Eq)]
pub enum ItemKey {
    /// `citation-key`, where it is a text or a number that isn't empty, and otherwise `id`. Zotero
    /// writes the one under which an item is cited there, and its own address as the `id`.
    CitationKey,
    /// `id`.
    Id,
}

/// The key of an item.
pub(crate) fn item_key<'a>(
    alloc: Global,
    by: ItemKey,
    item: &Value<'a>,
) -> Result<&'a str, ValueError>
    ensures ok { IfOk result (λ key. item_key by (value_view item.now) ≡ Ok key.now) }
    ensures fault { IfErr result (IsFaultOf (item_key by (value_view item.now))) }
{
    match by {
        ItemKey::CitationKey => key_or_id(alloc, citation_key(item), item),
        ItemKey::Id => read_id(alloc, item),
    }
}

// This key, or the `id` where there is none.
fn key_or_id<'a>(
    alloc: Global,
    key: Option<&'a str>,
    item: &Value<'a>,
) -> Result<&'a str, ValueError>
    ensures ok { IfOk result (λ text. given_or (option_map (λ t. t.now) key.entry)
        (id_of (value_view item.now)) ≡ Ok text.now) }
    ensures fault { IfErr result (IsFaultOf
        (given_or (option_map (λ t. t.now) key.entry) (id_of (value_view item.now)))) }
{
    match key {
        Some(key) => Ok(key),
        None => read_id(alloc, item),
    }
}

// The text of `citation-key`, if it has one.
fn citation_key<'a>(item: &Value<'a>) -> Option<&'a str>
    ensures { option_map (λ t. t.now) result ≡ citation_key_of (value_view item.now) }
{
    text_in(filled(item, "citation-key")?)
}

// The text of `id`, which has to be there.
fn read_id<'a>(alloc: Global, item: &Value<'a>) -> Result<&'a str, ValueError>
    ensures ok { IfOk result (λ key. id_of (value_view item.now) ≡ Ok key.now) }
    ensures fault { IfErr result (IsFaultOf (id_of (value_view item.now))) }
{
    let Some(id) = filled(item, "id") else {
        return Err(ValueError::refused(alloc, Why::Missing).in_member(alloc, "id"));
    };
    match read_text(alloc, id) {
        Ok(key) => Ok(key),
        Err(fault) => Err(fault.in_member(alloc, "id")),
    }
}
