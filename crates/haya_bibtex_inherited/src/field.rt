//! The fields of an entry, to which others come.
ghost use Rattle.std.specs.Prelude.{◌≡◌, ◌++◌, ◌∷◌, [], IfOk, OnOk, map};
ghost use Rattle.std.specs.List.{flat_map};
ghost use Rattle.haya_bibtex_inherited.specs.Entries.{has_field};
ghost use Rattle.haya_bibtex_inherited.specs.Inherited.{has_date, kept_field, renamed_field};
ghost use Rattle.haya_bibtex_inherited.specs.Inherited.{with_field, with_fields, with_given};
ghost use Rattle.haya_bibtex_inherited.specs.Views.{field_bytes, field_view, fields_view};
ghost use Rattle.haya_bibtex_inherited.specs.FieldNames.{KnowsNames};

use crate::changes::{Changes, keeps_name, new_name};
use haya_bibtex_text::Field;
use std::alloc::{AllocError, Global};
use std::collections::BTreeMap;

/// A field of an entry, its own or inherited.
#[derive(Clone, Copy)]
pub struct FieldRef<'a> {
    /// Its name, in lower case.
    pub name: &'a str,
    /// Its text, in the entry where it is written.
    pub text: &'a str,
}

/// Fields, and their names.
#[derive(Drop)]
pub(crate) struct Fields<'a> {
    /// The fields, in order.
    pub(crate) list: Vec<FieldRef<'a>>,
    // Names that are made to collide cost no more than others.
    names: BTreeMap<&'a str, ()>,
}

// Whether there is a field with this name.
fn has_field(fields: &Fields<'_>, name: &str) -> bool
    requires { KnowsNames fields.now }
    ensures { result ≡ has_field (fields_view fields.now.list.items) name.now }
{
    fields.names.contains_key(name)
}

// Whether there is a date, or a part of one.
fn has_date(fields: &Fields<'_>) -> bool
    requires { KnowsNames fields.now }
    ensures { result ≡ has_date (fields_view fields.now.list.items) }
{
    has_field(fields, "date")
        || has_field(fields, "year")
        || has_field(fields, "month")
        || has_field(fields, "day")
}

// Adds a field. The error: there was no memory for it.
fn push_field<'a>(fields: &mut Fields<'a>, field: FieldRef<'a>) -> Result<(), AllocError>
    requires knows { KnowsNames fields.old }
    ensures knows { OnOk result (KnowsNames fields.new) }
    ensures fields { OnOk result (fields_view fields.new.list.items
        ≡ fields_view fields.old.list.items ++ field_view field.entry ∷ []) }
{
    fields.names.insert(field.name, ())?;
    fields.list.push(field)?;
    Ok(())
}

// Adds a field, if its name isn't there yet. The error: there was no memory for it.
fn add_field<'a>(fields: &mut Fields<'a>, field: FieldRef<'a>) -> Result<(), AllocError>
    requires knows { KnowsNames fields.old }
    ensures knows { OnOk result (KnowsNames fields.new) }
    ensures fields { OnOk result (fields_view fields.new.list.items
        ≡ with_field (fields_view fields.old.list.items) (field_view field.entry)) }
{
    if has_field(fields, field.name) {
        return Ok(());
    }
    push_field(fields, field)?;
    Ok(())
}

/// References to these fields. The error: there was no memory for them.
pub(crate) fn own_list<'a>(alloc: Global, own: &'a [Field]) -> Result<Vec<FieldRef<'a>>, AllocError>
    ensures { IfOk result (λ v. fields_view v.items ≡ map field_bytes own.now) }
{
    let mut list = Vec::with_capacity(alloc, own.len())?;
    'own: for field in own {
        list.push(FieldRef {
            name: field.name.as_str(),
            text: field.text.as_str(),
        })?;
    }
    Ok(list)
}

/// These fields, and their names. The error: there was no memory for them.
pub(crate) fn own_fields<'a>(alloc: Global, own: &'a [Field]) -> Result<Fields<'a>, AllocError>
    ensures knows { IfOk result KnowsNames }
    ensures fields { IfOk result (λ f. fields_view f.list.items ≡ map field_bytes own.now) }
{
    let mut fields = Fields {
        list: Vec::with_capacity(alloc, own.len())?,
        names: BTreeMap::new(alloc),
    };
    'own: for field in own {
        let field = FieldRef {
            name: field.name.as_str(),
            text: field.text.as_str(),
        };
        push_field(&mut fields, field)?;
    }
    Ok(fields)
}

// Adds the fields whose names change. The error: there was no memory for them.
fn add_renamed<'a>(
    fields: &mut Fields<'a>,
    given: &[FieldRef<'a>],
    changes: Changes,
) -> Result<(), AllocError>
    requires knows { KnowsNames fields.old }
    ensures knows { OnOk result (KnowsNames fields.new) }
    ensures fields { OnOk result (fields_view fields.new.list.items
        ≡ with_fields (fields_view fields.old.list.items)
        (flat_map (renamed_field changes) (fields_view given.now))) }
{
    'given: for field in given {
        let Some(name) = new_name(changes, field.name) else {
            continue 'given;
        };
        let text = field.text;
        add_field(fields, FieldRef { name, text })?;
    }
    Ok(())
}

// Adds the fields whose names stay. The error: there was no memory for them.
fn add_kept<'a>(
    fields: &mut Fields<'a>,
    given: &[FieldRef<'a>],
    changes: Changes,
    dated: bool,
) -> Result<(), AllocError>
    requires knows { KnowsNames fields.old }
    ensures knows { OnOk result (KnowsNames fields.new) }
    ensures fields { OnOk result (fields_view fields.new.list.items
        ≡ with_fields (fields_view fields.old.list.items)
        (flat_map (kept_field changes dated) (fields_view given.now))) }
{
    'given: for field in given {
        if !keeps_name(changes, dated, field.name) {
            continue 'given;
        }
        add_field(fields, *field)?;
    }
    Ok(())
}

/// Adds what a source gives of its fields. The error: there was no memory for it.
pub(crate) fn add_given<'a>(
    fields: &mut Fields<'a>,
    given: &[FieldRef<'a>],
    changes: Changes,
) -> Result<(), AllocError>
    requires knows { KnowsNames fields.old }
    ensures knows { OnOk result (KnowsNames fields.new) }
    ensures fields { OnOk result (fields_view fields.new.list.items
        ≡ with_given changes (fields_view fields.old.list.items) (fields_view given.now)) }
{
    let dated = has_date(fields);
    add_renamed(fields, given, changes)?;
    add_kept(fields, given, changes, dated)?;
    Ok(())
}
