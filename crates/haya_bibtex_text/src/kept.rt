//! The fields of an entry that stay.
ghost use Rattle.std.specs.Prelude.{◌≡◌, ◌++◌, [], IfOk, OnOk, map, true};
ghost use Rattle.std.specs.Str.{chars};
ghost use Rattle.haya_bibtex_text.specs.Bibliography.{comes_again, field_again, last_fields};
ghost use Rattle.haya_bibtex_text.specs.Bibliography.{other_names};
ghost use Rattle.haya_bibtex_text.specs.BibliographyViews.{field_texts, note_view};

use crate::entry::{Field, PassedOver};
use crate::names::{add_name, no_names};
use std::alloc::{AllocError, Global};

// Up to how many fields are compared each with each.
const FEW: usize = 32;

// Whether a field has this name.
fn has_name(fields: &[Field], name: &str) -> bool
    ensures { result ≡ comes_again (map field_texts fields.now) (chars name.now) }
{
    'fields: for field in fields {
        if field.name.as_str() == name {
            return true;
        }
    }
    false
}

// Whether there are few fields, of which no two have one name: all of them stay.
fn all_stay(fields: &[Field]) -> bool
    ensures last { result ≡ true →
        last_fields (map field_texts fields.now) ≡ map field_texts fields.now }
    ensures others { result ≡ true → other_names (map field_texts fields.now) ≡ [] }
{
    if fields.len() > FEW {
        return false;
    }
    let mut left = fields;
    'fields: while let Some((field, rest)) = left.split_first() {
        if has_name(rest, field.name.as_str()) {
            return false;
        }
        left = rest;
    }
    true
}

/// Of several fields with one name the last. The others go to what is passed over. The error: there
/// was no memory for them.
pub(crate) fn keep_last(
    alloc: Global,
    mut fields: Vec<Field>,
    passed_over: &mut Vec<PassedOver>,
) -> Result<Vec<Field>, AllocError>
    ensures last { IfOk result (λ v.
        map field_texts v.items ≡ last_fields (map field_texts fields.items)) }
    ensures others { OnOk result (map note_view passed_over.new.items
        ≡ map note_view passed_over.old.items
        ++ map field_again (other_names (map field_texts fields.items))) }
{
    if all_stay(fields.as_slice()) {
        return Ok(fields);
    }
    let mut names = no_names(alloc);
    let mut kept = Vec::new(alloc);
    let mut others = Vec::new(alloc);
    'fields: while let Some(field) = fields.pop() {
        let is_last = add_name(alloc, &mut names, field.name.as_str())?;
        if !is_last {
            others.push(PassedOver::Field(field.name))?;
            continue 'fields;
        }
        kept.push(field)?;
    }
    kept.reverse();
    others.reverse();
    passed_over.append(&mut others)?;
    Ok(kept)
}
