//! Where the entries of a library were read from.
ghost use Rattle.std.specs.Prelude.{◌≡◌, ◌∷◌, ◌++◌, [], ℕ, List, None, OnOk, map, option_map};
ghost use Rattle.std.specs.Prelude.{if◌then◌else◌, Some, length, string_bytes};
ghost use Rattle.std.specs.Str.{bytes_eq};
ghost use Rattle.hayagriva.specs.Library.{from_entries};
ghost use Rattle.haya_source.specs.Elements.{Element, SayEntries, entries_of, parts_of};
ghost use Rattle.haya_source.specs.Places.{ArePlacesOf, kept_part};

use crate::keyed::element_key;
use crate::kind::ElementKind;
use haya_text::OutOfMemory;
use hayagriva::{HashKeys, Library};
use std::alloc::Global;
use std::collections::HashMap;

/// The elements that the entries of a library were read from, under the entries' keys. Of elements
/// with one key the last is kept, as the last entry of a key is.
#[derive(Drop)]
pub struct Places<'t> {
    parts: HashMap<String, &'t str, HashKeys>,
}

impl<'t> Places<'t> {
    /// None, in a map that hashes with these keys.
    pub fn new(alloc: Global, keys: HashKeys) -> Places<'t>
        ensures { ArePlacesOf [] result }
    {
        Places {
            parts: HashMap::with_hasher(alloc, keys),
        }
    }

    /// The element of the entry with this key, if there is one.
    pub fn part(&self, key: &str) -> Option<&'t str>
        ensures { option_map (λ s. s.now) result ≡ kept_part self.now key.now }
    {
        self.parts.get(key).copied()
    }

    /// Keeps the elements of a text, these, behind those of the texts before it: `library` is the
    /// one that the text describes. Where no key comes again in it, each element is that of the
    /// entry at its place; otherwise the elements are read again, for their keys. A map of what is
    /// lost of them hashes with the keys.
    pub fn add(
        &mut self,
        alloc: Global,
        keys: HashKeys,
        kind: ElementKind,
        parts: &[&'t str],
        library: &Library,
    ) -> Result<(), OutOfMemory>
        ensures { (es before : List Element) → map (λ s. s.now) parts.now ≡ parts_of es →
            SayEntries kind es → library.now ≡ from_entries (entries_of es) →
            ArePlacesOf before self.old → OnOk result (ArePlacesOf (before ++ es) self.new) }
    {
        if parts.len() == library.len() {
            self.add_in_order(alloc, parts, library)
        } else {
            self.add_read_again(alloc, keys, kind, parts)
        }
    }

    // Keeps elements under the keys of the entries at their places.
    fn add_in_order(
        &mut self,
        alloc: Global,
        parts: &[&'t str],
        library: &Library,
    ) -> Result<(), OutOfMemory>
        requires { length parts.now ≡ length library.now }
        ensures { (es before : List Element) → map (λ s. s.now) parts.now ≡ parts_of es →
            library.now ≡ entries_of es →
            ArePlacesOf before self.old → OnOk result (ArePlacesOf (before ++ es) self.new) }
    {
        'entries: for place in 0..parts.len() {
            let Some(entry) = library.nth(place) else {
                return Ok(());
            };
            self.put(String::from_str(alloc, entry.key())?, parts[place])?;
        }
        Ok(())
    }

    /// Keeps the elements of a text, these, behind those of the texts before it: they are read
    /// again, for their keys. A map of what is lost of them hashes with the keys.
    pub fn add_read_again(
        &mut self,
        alloc: Global,
        keys: HashKeys,
        kind: ElementKind,
        parts: &[&'t str],
    ) -> Result<(), OutOfMemory>
        ensures { (es before : List Element) → map (λ s. s.now) parts.now ≡ parts_of es →
            SayEntries kind es →
            ArePlacesOf before self.old → OnOk result (ArePlacesOf (before ++ es) self.new) }
    {
        'parts: for place in 0..parts.len() {
            let key = element_key(alloc, keys, kind, parts[place])?;
            self.put(key, parts[place])?;
        }
        Ok(())
    }

    // Keeps an element under a key, in the place of the one that is there.
    fn put(&mut self, key: String, part: &'t str) -> Result<(), OutOfMemory>
        ensures { OnOk result ((k : List ℕ) → kept_part self.new k
            ≡ (if bytes_eq (string_bytes key) k then Some part.now else kept_part self.old k)) }
    {
        self.parts.insert(key, part)?;
        Ok(())
    }
}
