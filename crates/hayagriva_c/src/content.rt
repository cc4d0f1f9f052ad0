//! What a pointer of C's leads to.
ghost use Rattle.std.specs.Prelude.{◌≡◌, IfSome, option_map};
ghost use Rattle.std.specs.Option.{option_copied};
ghost use Rattle.haya_entry.specs.Tree.{view};
ghost use Rattle.hayagriva_c.specs.Content.{entry_in, library_in, notes_in, selector_in};
ghost use Rattle.hayagriva_c.specs.Noted.{noted};

use crate::notes::Noted;
use crate::told::Words;
use haya_entry::Entry;
use haya_selectors::CompiledSelector;
use haya_views::{EntryId, entry_at};
use hayagriva::{HashKeys, Library};
use std::alloc::Global;

/// A library, with what was passed over of the text that was read last, and with the keys and the
/// allocator that calls over it use.
#[derive(Drop)]
pub struct Shelf {
    pub library: Library,
    pub notes: Vec<Noted>,
    pub keys: HashKeys,
    pub alloc: Global,
}

/// A selector that was read, and the names that it binds.
#[derive(Drop)]
pub struct Asked {
    pub selector: CompiledSelector,
    pub names: Vec<String>,
}

/// What a pointer of C's leads to.
#[derive(Drop)]
pub enum Content {
    /// A library.
    Library(Shelf),
    /// A selector.
    Selector(Asked),
    /// What there is to say of a refusal.
    Words(Words),
    /// A text that was written.
    Text(Vec<u8>),
}

impl Content {
    /// The allocator that it is of.
    pub fn allocator(&self) -> Global {
        match self {
            Content::Library(shelf) => shelf.alloc,
            Content::Selector(asked) => *asked.names.allocator(),
            Content::Words(words) => *words.reason.allocator(),
            Content::Text(text) => *text.allocator(),
        }
    }
}

/// A box of the content, or nothing where an allocation fails.
pub fn boxed(alloc: Global, content: Content) -> Option<Box<Content>>
    ensures { IfSome result (λ b. b.value ≡ content) }
{
    match Box::new(alloc, content) {
        Ok(boxed) => Some(boxed),
        Err(failed) => {
            drop(failed);
            None
        }
    }
}

/// The library, if it is one.
pub fn library_in(content: &Content) -> Option<&Shelf>
    ensures { option_map (λ s. s.now.library) result ≡ library_in content.now }
{
    match content {
        Content::Library(shelf) => Some(shelf),
        _ => None,
    }
}

/// What was passed over of the text of a library, if it is one.
pub fn notes_in(content: &Content) -> &[Noted]
    ensures { noted result.now ≡ notes_in content.now }
{
    match content {
        Content::Library(shelf) => shelf.notes.as_slice(),
        _ => &[],
    }
}

/// The selector, if it is one.
pub fn selector_in(content: &Content) -> Option<&Asked>
    ensures { option_copied result ≡ selector_in content.now }
{
    match content {
        Content::Selector(asked) => Some(asked),
        _ => None,
    }
}

/// The entry of a library that is meant, if there is one, with the allocator that calls over it use.
pub fn entry_in<'l>(content: &'l Content, id: &EntryId) -> Option<(&'l Entry, Global)>
    ensures { option_map (λ e. view e.0.now) result ≡ entry_in content.now id.now }
{
    let shelf = library_in(content)?;
    let entry = entry_at(&shelf.library, id)?;
    Some((entry, shelf.alloc))
}
