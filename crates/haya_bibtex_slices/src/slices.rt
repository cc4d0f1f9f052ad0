//! The items of texts.
ghost use Rattle.std.specs.Prelude.{◌≡◌, ◌<◌, ◌++◌, ◌∷◌, [], ℕ, IfOk, IfSome, List, OnOk, length};
ghost use Rattle.std.specs.Prelude.{map, string_bytes};
ghost use Rattle.haya_bibtex_slices.specs.Items.{AreItemsIn, AreItemsOf, Says};
ghost use Rattle.haya_bibtex_slices.specs.Views.{item_view};

use crate::item::{BibtexItem, EntryKeys};
use crate::place::{Place, next_place};
use haya_bibtex_text::{Entry, ReadError, read_bibliography};
use haya_text::OutOfMemory;
use std::alloc::Global;

/// The items of a text, in order, each as it is in the text, byte for byte: its entries, its
/// definitions of strings, and its preambles, all under the text's number. Comments and what is
/// between items are none. Each was read again by itself, and says one entry, or none.
///
/// `None` is meant for a text that isn't by the grammar; no contract says when it is answered.
pub fn item_slices<'t>(
    alloc: Global,
    number: usize,
    text: &'t str,
) -> Result<Option<Vec<BibtexItem<'t>>>, OutOfMemory>
    ensures { IfOk result (λ found. IfSome found (λ items.
        AreItemsOf text.now (map item_view items.items))) }
{
    let mut items = Vec::new(alloc);
    let mut rest = text;
    'items: while let Some(place) = next_place(rest) {
        let Some((part, behind)) = cut(rest, place) else {
            return Ok(None);
        };
        let Some(item) = read_item(alloc, number, part)? else {
            return Ok(None);
        };
        push_item(&mut items, item)?;
        rest = behind;
    }
    Ok(Some(items))
}

/// The items of texts, those of each behind those of the one before it. The texts have the numbers
/// from 0 on.
///
/// `None`: a text is answered so by `item_slices`.
pub fn items_of<'t>(
    alloc: Global,
    texts: &[&'t str],
) -> Result<Option<Vec<BibtexItem<'t>>>, OutOfMemory>
    ensures { IfOk result (λ found. IfSome found (λ items.
        AreItemsIn (map (λ s. s.now) texts.now) (map item_view items.items))) }
{
    let mut items = Vec::new(alloc);
    let mut number = 0;
    'texts: while number < texts.len() {
        let Some(more) = item_slices(alloc, number, texts[number])? else {
            return Ok(None);
        };
        push_items(&mut items, more)?;
        number += 1;
    }
    Ok(Some(items))
}

// Puts an item behind the others.
fn push_item<'t>(items: &mut Vec<BibtexItem<'t>>, item: BibtexItem<'t>) -> Result<(), OutOfMemory>
    ensures { OnOk result (map item_view items.new.items
        ≡ map item_view items.old.items ++ item_view item.entry ∷ []) }
{
    items.push(item)?;
    Ok(())
}

// Puts items behind the others.
fn push_items<'t>(
    items: &mut Vec<BibtexItem<'t>>,
    mut more: Vec<BibtexItem<'t>>,
) -> Result<(), OutOfMemory>
    ensures { OnOk result (map item_view items.new.items
        ≡ map item_view items.old.items ++ map item_view more.entry.items) }
{
    items.append(&mut more)?;
    Ok(())
}

// The item at a place, and what is behind it.
fn cut<'t>(text: &'t str, place: Place) -> Option<(&'t str, &'t str)>
    ensures parts { IfSome result (λ p. (gap : List ℕ) × (text.now ≡ gap ++ (p.0.now ++ p.1.now))) }
    ensures shorter { IfSome result (λ p. length p.1.now < length text.now) }
{
    let (_, more) = text.split_at_checked(place.start)?;
    let (part, behind) = more.split_at_checked(place.len)?;
    if part.is_empty() {
        return None;
    }
    Some((part, behind))
}

// The item that a part of a text is, read by itself. `None`: it is more than one, or none.
fn read_item<'t>(
    alloc: Global,
    number: usize,
    part: &'t str,
) -> Result<Option<BibtexItem<'t>>, OutOfMemory>
    ensures part { IfOk result (λ found. IfSome found (λ item. item.text.now ≡ part.now)) }
    ensures says { IfOk result (λ found. IfSome found (λ item. Says (item_view item))) }
{
    let read = match read_bibliography(alloc, part) {
        Ok(read) => read,
        Err(ReadError::Refused(_)) => return Ok(None),
        Err(ReadError::OutOfMemory) => return Err(OutOfMemory),
    };
    let entries = read.entries.as_slice();
    let Some(entry) = entries.first() else {
        return Ok(Some(BibtexItem {
            number,
            text: part,
            entry: None,
        }));
    };
    if entries.len() > 1 {
        return Ok(None);
    }
    let keys = keys_of(alloc, entry)?;
    Ok(Some(BibtexItem {
        number,
        text: part,
        entry: Some(keys),
    }))
}

// The key of an entry, and those of the entries that it inherits from.
fn keys_of(alloc: Global, entry: &Entry) -> Result<EntryKeys, OutOfMemory>
    ensures { IfOk result (λ keys. string_bytes keys.key ≡ string_bytes entry.now.key) }
{
    let mut sources = Vec::new(alloc);
    if let Some(keys) = field(entry, "xdata") {
        'keys: for key in keys.split(',') {
            push_key(alloc, &mut sources, key)?;
        }
    }
    if let Some(key) = field(entry, "crossref") {
        push_key(alloc, &mut sources, key)?;
    }
    let key = String::from_str(alloc, entry.key.as_str())?;
    Ok(EntryKeys { key, sources })
}

// The text of a field, if the entry has it.
fn field<'e>(entry: &'e Entry, name: &str) -> Option<&'e str> {
    'fields: for field in entry.fields.as_slice() {
        if field.name.as_str() == name {
            return Some(field.text.as_str());
        }
    }
    None
}

// Adds a key, without white space around it.
fn push_key(alloc: Global, keys: &mut Vec<String>, key: &str) -> Result<(), OutOfMemory> {
    keys.push(String::from_str(alloc, key.trim())?)?;
    Ok(())
}
