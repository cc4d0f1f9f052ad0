//! Errors of the JSON of a text, with their positions.
ghost use Rattle.haya_json.specs.Libraries.{IsNameTwice, IsNotJson};

use crate::error::ReadError;
use crate::nesting::Nesting;
use crate::position::{position_of_fault, position_of_twice};
use std::alloc::{AllocError, Global};

/// The error of a text that is no JSON.
pub fn not_json(alloc: Global, text: &str) -> ReadError
    ensures { IsNotJson result }
{
    not_so(alloc, text, Nesting::of_text(alloc))
}

/// The error of a line of `haya_json_elements::ElementLines` that is no item of an array. The position is
/// one in the element as it was in its text.
pub fn no_item(alloc: Global, line: &str) -> ReadError
    ensures { IsNotJson result }
{
    not_in_line(alloc, line, Nesting::of_item(alloc))
}

/// The same of one that is no member of an object.
pub fn no_member(alloc: Global, line: &str) -> ReadError
    ensures { IsNotJson result }
{
    not_in_line(alloc, line, Nesting::of_member(alloc))
}

fn not_in_line(alloc: Global, line: &str, nesting: Nesting) -> ReadError
    ensures { IsNotJson result }
{
    match element_text(alloc, line) {
        Ok(text) => not_so(alloc, text.as_str(), nesting),
        Err(_) => ReadError::OutOfMemory,
    }
}

// The element of a line: there a tab takes the place of a line feed, and a comma at the end marks
// the place of a fault.
fn element_text(alloc: Global, line: &str) -> Result<String, AllocError> {
    let element = line.strip_suffix(',').unwrap_or(line);
    element.replace(alloc, '\t', "\n")
}

// The error of a text whose tokens don't stand so.
fn not_so(alloc: Global, text: &str, nesting: Nesting) -> ReadError
    ensures { IsNotJson result }
{
    match position_of_fault(alloc, text, nesting) {
        Ok(position) => ReadError::NotJson(position),
        Err(_) => ReadError::OutOfMemory,
    }
}

/// The error of JSON in which an object has a member twice.
pub fn name_twice(alloc: Global, text: &str) -> ReadError
    ensures { IsNameTwice result }
{
    match position_of_twice(alloc, text) {
        Ok(position) => ReadError::NameTwice(position),
        Err(_) => ReadError::OutOfMemory,
    }
}

/// The same of the element of such a line.
pub fn name_twice_in_line(alloc: Global, line: &str) -> ReadError
    ensures { IsNameTwice result }
{
    match element_text(alloc, line) {
        Ok(text) => name_twice(alloc, text.as_str()),
        Err(_) => ReadError::OutOfMemory,
    }
}
