//! What is meant by a word that isn't known: by what people write, otherwise by likeness.
use crate::tables::{FIELDS, PASSED_OVER, TYPES};
use haya_text::OutOfMemory;
use hayagriva::types::{EntryType, FieldName};
use std::alloc::Global;
use std::str::FromStr;
use strsim::osa_distance;

// Longer words are like none of these.
const LONGEST: usize = 40;

// The roles that a place can name.
const ROLES: &[&str] = &[
    "translator",
    "afterword",
    "foreword",
    "introduction",
    "annotator",
    "commentator",
    "holder",
    "compiler",
    "founder",
    "collaborator",
    "organizer",
    "cast-member",
    "composer",
    "producer",
    "executive-producer",
    "writer",
    "cinematography",
    "director",
    "illustrator",
    "narrator",
];

/// A question that begins with a semicolon: which type is meant by the word. It is empty where none
/// is near: where nobody writes so, and more than a third of the word's characters has to change.
pub(crate) fn type_question(alloc: Global, word: &str) -> Result<String, OutOfMemory> {
    let types: &[EntryType] = &EntryType::ALL;
    let mut names = Vec::new(alloc);
    for entry_type in types {
        names.push(entry_type.lower_name())?;
    }
    let meant = meant(alloc, word, names.as_slice(), TYPES)?;
    question(alloc, meant.as_slice())
}

/// The same of the names in brackets that an entry can have. Of what has no place in an entry it
/// says so.
pub(crate) fn field_question(alloc: Global, word: &str) -> Result<String, OutOfMemory> {
    if !among(alloc, word, PASSED_OVER)?.is_empty() {
        return Ok(String::from_str(alloc, "; such a member is passed over")?);
    }
    let fields: &[FieldName] = &FieldName::ALL;
    let mut names = Vec::new(alloc);
    for field in fields {
        names.push(field.as_str())?;
    }
    let meant = meant(alloc, word, names.as_slice(), FIELDS)?;
    question(alloc, meant.as_slice())
}

/// The same of the fields and the roles that a place can have.
pub(crate) fn place_question(alloc: Global, word: &str) -> Result<String, OutOfMemory> {
    let fields: &[FieldName] = &FieldName::ALL;
    let mut names = Vec::new(alloc);
    names.push("key")?;
    names.push("type")?;
    for field in fields {
        names.push(field.as_str())?;
    }
    for role in ROLES {
        names.push(*role)?;
    }
    let meant = meant(alloc, word, names.as_slice(), FIELDS)?;
    question(alloc, meant.as_slice())
}

// Whether one of these is meant.
fn question(alloc: Global, meant: &[&str]) -> Result<String, OutOfMemory> {
    let mut text = String::new(alloc);
    for name in meant {
        text.push_str(if text.is_empty() {
            "; did you mean `"
        } else {
            " or `"
        })?;
        text.push_str(name)?;
        text.push_str("`")?;
    }
    if !text.is_empty() {
        text.push_str("?")?;
    }
    Ok(text)
}

// What is meant by the word: the name that it spells, otherwise what the rows say of it, otherwise
// the names that it is like.
fn meant<'n>(
    alloc: Global,
    word: &str,
    names: &[&'n str],
    rows: &[(&str, &'n str)],
) -> Result<Vec<&'n str>, OutOfMemory> {
    if word.len() > LONGEST {
        return Ok(Vec::new(alloc));
    }
    let spelled = among(alloc, word, names)?;
    if !spelled.is_empty() {
        return Ok(spelled);
    }
    let told = told_of(alloc, word, rows)?;
    if !told.is_empty() {
        return Ok(told);
    }
    nearest(alloc, word, names)
}

// Those of the names that have the word's letters.
fn among<'n>(alloc: Global, word: &str, names: &[&'n str]) -> Result<Vec<&'n str>, OutOfMemory> {
    let wanted = letters(alloc, word)?;
    let mut found = Vec::new(alloc);
    for name in names {
        if letters(alloc, name)? == wanted {
            found.push(*name)?;
        }
    }
    Ok(found)
}

// What the rows say of the word, one after another.
fn told_of<'n>(
    alloc: Global,
    word: &str,
    rows: &[(&str, &'n str)],
) -> Result<Vec<&'n str>, OutOfMemory> {
    let wanted = letters(alloc, word)?;
    let mut told = Vec::new(alloc);
    for (written, name) in rows {
        if letters(alloc, written)? == wanted {
            told.push(*name)?;
        }
    }
    Ok(told)
}

// A word in lower case without its `-`, by which `pageRange` is `page-range`.
fn letters(alloc: Global, word: &str) -> Result<String, OutOfMemory> {
    let mut text = String::new(alloc);
    for c in word.chars() {
        if c != '-' {
            text.push(c.to_ascii_lowercase())?;
        }
    }
    Ok(text)
}

// The names that the fewest changes lead to.
fn nearest<'n>(alloc: Global, word: &str, names: &[&'n str]) -> Result<Vec<&'n str>, OutOfMemory> {
    let mut near = Vec::new(alloc);
    let mut fewest = word.len().div_ceil(3);
    for name in names {
        let changes = osa_distance(alloc, word, name)?;
        if changes < fewest {
            near.clear();
            fewest = changes;
        }
        if changes == fewest {
            near.push(*name)?;
        }
    }
    Ok(near)
}
