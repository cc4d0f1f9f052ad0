//! The keys by which an entry refers to others.
ghost use Rattle.std.specs.Prelude.{◌≡◌, ◌==◌, ◌++◌, [], IfOk, OnOk, codes, false, map, option_map};
ghost use Rattle.std.specs.List.{slice_split};
ghost use Rattle.haya_bibtex_inherited.specs.Entries.{text_of};
ghost use Rattle.haya_bibtex_inherited.specs.References.{comma, crossref_references, key_in};
ghost use Rattle.haya_bibtex_inherited.specs.References.{keys_in, references, xdata_references};
ghost use Rattle.haya_bibtex_inherited.specs.References.{references_by};
ghost use Rattle.haya_bibtex_inherited.specs.Views.{entry_bytes, field_bytes, reference_view};
ghost use Rattle.haya_bibtex_inherited.specs.declared.reference.Link.TheVariants.{Xdata};

use haya_bibtex_text::{Entry, Field};
use std::alloc::{AllocError, Global};
use std::fmt;

/// The field in which an entry names another.
#[derive(Clone, Copy)]
pub enum Link {
    /// The field `xdata`, which names entries that give their fields as they are.
    Xdata,
    /// The field `crossref`, which names an entry of which this one is a part.
    Crossref,
}

impl fmt::Display for Link {
    ghost use Rattle.std.specs.Prelude.{Some};
    ghost use Rattle.haya_bibtex_inherited.specs.References.{link_name};

    ghost output = { λ l. Some (link_name l) };

    /// The name of the field.
    fn fmt<W: fmt::Write>(&self, f: &mut fmt::Formatter<W>) -> fmt::Result {
        match self {
            Link::Xdata => write!(f, "xdata"),
            Link::Crossref => write!(f, "crossref"),
        }
    }
}

/// A key by which an entry refers to another.
#[derive(Clone, Copy)]
pub struct Reference<'a> {
    /// The field in which it is.
    pub link: Link,
    /// The key, without white space around it.
    pub key: &'a str,
}

// The text of the first of the fields with this name.
fn text_of<'a>(fields: &'a [Field], name: &str) -> Option<&'a str>
    ensures { option_map (λ t. t.now) result
        ≡ text_of (map field_bytes fields.now) name.now }
{
    'fields: for field in fields {
        if field.name.as_str() == name {
            return Some(field.text.as_str());
        }
    }
    None
}

// Adds the key that a text is.
fn push_key<'a>(
    references: &mut Vec<Reference<'a>>,
    link: Link,
    text: &'a str,
) -> Result<(), AllocError>
    ensures { OnOk result (map reference_view references.new.items
        ≡ map reference_view references.old.items ++ references_by link (key_in text.now)) }
{
    let key = text.trim();
    if key.is_empty() {
        return Ok(());
    }
    references.push(Reference { link, key })?;
    Ok(())
}

// The parts of a text between its commas.
fn parts_of<'a>(alloc: Global, text: &'a str) -> Result<Vec<&'a str>, AllocError>
    ensures { IfOk result (λ v.
        map (λ t. t.now) v.items ≡ slice_split (λ b. b == comma) text.now) }
{
    Ok(text.split(',').collect(alloc)?)
}

// Adds the keys of a text between its commas.
fn push_keys<'a>(
    alloc: Global,
    references: &mut Vec<Reference<'a>>,
    text: &'a str,
) -> Result<(), AllocError>
    ensures { OnOk result (map reference_view references.new.items
        ≡ map reference_view references.old.items ++ references_by Xdata (keys_in text.now)) }
{
    let parts = parts_of(alloc, text)?;
    'parts: for part in &parts {
        push_key(references, Link::Xdata, *part)?;
    }
    Ok(())
}

// Adds the keys in `xdata`.
fn push_xdata<'a>(
    alloc: Global,
    references: &mut Vec<Reference<'a>>,
    entry: &'a Entry,
) -> Result<(), AllocError>
    ensures { OnOk result (map reference_view references.new.items
        ≡ map reference_view references.old.items
        ++ xdata_references (text_of (entry_bytes entry.now).fields (codes "xdata"))) }
{
    let Some(text) = text_of(entry.fields.as_slice(), "xdata") else {
        return Ok(());
    };
    push_keys(alloc, references, text)?;
    Ok(())
}

// Adds the key in `crossref`.
fn push_crossref<'a>(
    references: &mut Vec<Reference<'a>>,
    entry: &'a Entry,
) -> Result<(), AllocError>
    ensures { OnOk result (map reference_view references.new.items
        ≡ map reference_view references.old.items
        ++ crossref_references (text_of (entry_bytes entry.now).fields (codes "crossref"))) }
{
    let Some(text) = text_of(entry.fields.as_slice(), "crossref") else {
        return Ok(());
    };
    push_key(references, Link::Crossref, text)?;
    Ok(())
}

/// Whether an entry may refer to others: it has a field in which it would.
pub(crate) fn may_refer(entry: &Entry) -> bool
    ensures { result ≡ false → references (entry_bytes entry.now) ≡ [] }
{
    let fields = entry.fields.as_slice();
    text_of(fields, "xdata").is_some() || text_of(fields, "crossref").is_some()
}

/// The references of an entry: those in `xdata`, and then the one in `crossref`. The error: there
/// was no memory for them.
pub(crate) fn references<'a>(
    alloc: Global,
    entry: &'a Entry,
) -> Result<Vec<Reference<'a>>, AllocError>
    ensures { IfOk result (λ v.
        map reference_view v.items ≡ references (entry_bytes entry.now)) }
{
    let mut references = Vec::new(alloc);
    push_xdata(alloc, &mut references, entry)?;
    push_crossref(&mut references, entry)?;
    Ok(references)
}
