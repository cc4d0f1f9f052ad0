//! Messages: what is passed over, what is asked for in vain, and faults.
use crate::error::CommandError;
use crate::marks::{mark, places_text, test_text};
use crate::near::type_question;
use crate::shown::shown;
use haya_json::{Ignored, Notes};
use haya_text::OutOfMemory;
use hayagriva::{Selector, SelectorError};
use std::alloc::Global;

// The names of members that are passed over, each with how often it comes.
fn members_text(alloc: Global, ignored: &Ignored) -> Result<String, OutOfMemory> {
    let mut text = String::new(alloc);
    for (name, count) in ignored {
        if !text.is_empty() {
            text.push_str(", ")?;
        }
        let member = format!(in alloc; "{name} ({count})")?;
        text.push_str(member.as_str())?;
    }
    Ok(text)
}

/// Puts lines behind the notes: what is told of the input that is called so, if anything is.
pub(crate) fn push_notes(
    alloc: Global,
    notes: &mut String,
    name: &str,
    told: &Notes,
) -> Result<(), OutOfMemory> {
    if !told.ignored().is_empty() {
        let members = members_text(alloc, told.ignored())?;
        push_line(
            alloc,
            notes,
            format!(in alloc; "haya: {name}: passed over: {members}")?,
        )?;
    }
    for note in told.lines() {
        push_line(alloc, notes, format!(in alloc; "haya: {name}: {note}")?)?;
    }
    push_more(alloc, notes, name, told.more())
}

// Puts a line behind the notes: how many values more are told of.
fn push_more(alloc: Global, notes: &mut String, name: &str, more: u64) -> Result<(), OutOfMemory> {
    let line = match more {
        0 => return Ok(()),
        1 => format!(in alloc; "haya: {name}: 1 more value was not read")?,
        _ => format!(in alloc; "haya: {name}: {more} more values were not read")?,
    };
    push_line(alloc, notes, line)
}

// Puts a message behind the others, in one line.
fn push_line(alloc: Global, messages: &mut String, message: String) -> Result<(), OutOfMemory> {
    let line = shown(alloc, message.as_str())?;
    messages.push_str(line.as_str())?;
    messages.push('\n')?;
    Ok(())
}

/// What is said of a fault. One of the selector is shown under its text, with a mark at its place.
pub(crate) fn fault_text(
    alloc: Global,
    selector: &str,
    fault: &CommandError,
) -> Result<String, OutOfMemory> {
    match fault {
        CommandError::Selector(SelectorError::OutOfMemory) => {
            Ok(format!(in alloc; "haya: {fault}\n")?)
        }
        CommandError::Selector(error) => selector_text(alloc, selector, error),
        CommandError::SelectorEnd(place) => {
            let mark = mark(alloc, column_of(selector, *place), 1)?;
            Ok(format!(in alloc; "haya: {selector}\n      {mark}{fault}\n")?)
        }
        CommandError::Test(text, error) => test_text(alloc, text.as_str(), error),
        CommandError::Places(text, error) => places_text(alloc, text.as_str(), error),
        CommandError::Unbound(text, name) => {
            let mark = mark(alloc, 0, name.chars().count().max(1))?;
            Ok(format!(in alloc; "haya: {text}\n      {mark}{fault}\n")?)
        }
        _ => {
            let mut text = String::new(alloc);
            push_line(alloc, &mut text, format!(in alloc; "haya: {fault}")?)?;
            Ok(text)
        }
    }
}

// What is said of a selector's fault, and which types are like one that isn't known.
fn selector_text(
    alloc: Global,
    selector: &str,
    error: &SelectorError,
) -> Result<String, OutOfMemory> {
    let (length, like) = match error {
        SelectorError::UnknownEntryType(name) => (name.len(), type_question(alloc, name.as_str())?),
        _ => (1, String::new(alloc)),
    };
    let mark = match Selector::fault_place(alloc, selector)? {
        Some(place) => mark(alloc, column_of(selector, place), length)?,
        None => String::new(alloc),
    };
    Ok(format!(in alloc; "haya: {selector}\n      {mark}{error}{like}\n")?)
}

// How many characters of the selector stand before this byte.
fn column_of(selector: &str, place: usize) -> usize {
    let mut column: usize = 0;
    for (at, _) in selector.char_indices() {
        if at >= place {
            return column;
        }
        column = column.saturating_add(1);
    }
    column
}
