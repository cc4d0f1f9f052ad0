//! The fields of an entry, and their texts by their names.
ghost use Rattle.std.specs.Prelude.{◌≡◌, ◌+◌, ◌*◌, ◌%◌, ◌<◌, false, true, None, length};
ghost use Rattle.std.specs.Prelude.{option_map, slice_index};
ghost use Rattle.haya_bibtex_inherited.specs.Entries.{has_field, text_of};
ghost use Rattle.haya_bibtex_inherited.specs.Views.{fields_view};

use haya_bibtex_inherited::FieldRef;
use std::marker::Model;

/// The fields of an entry, in order.
#[derive(Drop)]
pub(crate) struct Fields<'a> {
    list: &'a [FieldRef<'a>],
    // Whether a name of a field has this place. Most names that are looked for are those of no
    // field, which their places tell.
    taken: [bool; 256],
}

impl<'a> Model for Fields<'a> {
    ghost use Rattle.std.specs.Prelude.{◌≡◌, ◌+◌, ◌*◌, ◌%◌, false, true, List, All, length};
    ghost use Rattle.std.specs.Prelude.{slice_index};
    ghost use Rattle.std.specs.List.{slice_index_or};
    ghost use Rattle.haya_bibtex_inherited.specs.declared.field.FieldRef.{FieldRef};

    ghost Value = { List FieldRef };

    ghost view = { λ f. f.list.now };

    ghost invariant = { λ f. (length f.taken ≡ 256)
        × All (λ r. slice_index_or f.taken
        (16 * (slice_index r.name.now 0 % 16) + length r.name.now % 16) false ≡ true) f.list.now };
}

// The place of a name, by its first byte and its length.
#[inline]
fn place_of(name: &str) -> usize
    ensures place { result ≡ 16 * (slice_index name.now 0 % 16) + length name.now % 16 }
    ensures within { result < 256 }
{
    let first = match name.as_bytes().first() {
        Some(first) => usize::from(*first),
        None => 0,
    };
    16 * (first % 16) + name.len() % 16
}

impl<'a> Fields<'a> {
    /// These fields.
    pub(crate) fn new(list: &'a [FieldRef<'a>]) -> Fields<'a>
        ensures { result ≡ list.now }
    {
        let mut taken = [false; 256];
        'fields: for field in list {
            taken[place_of(field.name)] = true;
        }
        Fields { list, taken }
    }

    /// Each of them.
    pub(crate) fn list(&self) -> &'a [FieldRef<'a>]
        ensures { result.now ≡ self.now }
    {
        self.list
    }

    // Whether there may be a field with this name.
    #[inline]
    fn may_have(&self, name: &str) -> bool
        ensures text { result ≡ false → text_of (fields_view self.now) name.now ≡ None }
        ensures field { result ≡ false → has_field (fields_view self.now) name.now ≡ false }
    {
        self.taken[place_of(name)]
    }
}

/// The text of the field with this name, if it is there.
#[inline]
pub(crate) fn text_of<'a>(fields: &Fields<'a>, name: &str) -> Option<&'a str>
    ensures { option_map (λ t. t.now) result ≡ text_of (fields_view fields.now) name.now }
{
    if fields.may_have(name) {
        text_among(fields.list(), name)
    } else {
        None
    }
}

// The same of fields in a list.
fn text_among<'a>(fields: &[FieldRef<'a>], name: &str) -> Option<&'a str>
    ensures { option_map (λ t. t.now) result ≡ text_of (fields_view fields.now) name.now }
{
    'fields: for field in fields {
        if field.name == name {
            return Some(field.text);
        }
    }
    None
}

/// Whether there is a field with this name.
#[inline]
pub(crate) fn has_field(fields: &Fields<'_>, name: &str) -> bool
    ensures { result ≡ has_field (fields_view fields.now) name.now }
{
    fields.may_have(name) && is_field_among(fields.list(), name)
}

// The same of fields in a list.
fn is_field_among(fields: &[FieldRef<'_>], name: &str) -> bool
    ensures { result ≡ has_field (fields_view fields.now) name.now }
{
    'fields: for field in fields {
        if field.name == name {
            return true;
        }
    }
    false
}
