//! The characters of a text.
ghost use Rattle.std.specs.Prelude.{◌≡◌, ◌≤◌, ◌<◌, ◌++◌, IfOk, IfSome, OnOk, length, take};
ghost use Rattle.std.specs.Str.{chars};

use std::alloc::{AllocError, Global};

// Bytes as characters.
fn bytes_as_chars(alloc: Global, text: &[u8]) -> Result<Vec<char>, AllocError>
    ensures { IfOk result (λ v. v.items ≡ text.now) }
{
    text.iter().map(|byte| char::from(*byte)).collect(alloc)
}

// Adds the characters of a block of a text.
fn push_block(list: &mut Vec<char>, text: &str) -> Result<(), AllocError>
    ensures { OnOk result (list.new.items ≡ list.old.items ++ chars text.now) }
{
    if text.is_ascii() {
        list.extend(text.as_bytes().iter().map(|byte| char::from(*byte)))?;
        return Ok(());
    }
    'chars: for c in text.chars() {
        list.push(c)?;
    }
    Ok(())
}

// How many bytes of a text, or a few more, are made characters at a time, where they are ASCII.
const BLOCK: usize = 64;

// A block at the front of a text, which ends between two characters, and what is left behind it.
fn first_block(text: &str) -> (&str, &str)
    requires { 64 < length text.now }
    ensures whole { chars text.now ≡ chars result.0.now ++ chars result.1.now }
    ensures shorter { length result.1.now < length text.now }
{
    let mut len = BLOCK;
    'lens: while len < text.len() {
        if let Some(cut) = text.split_at_checked(len) {
            return cut;
        }
        len += 1;
    }
    (text, "")
}

/// The characters of a text. The error: there was no memory for them.
pub fn chars_of(alloc: Global, text: &str) -> Result<Vec<char>, AllocError>
    ensures { IfOk result (λ v. v.items ≡ chars text.now) }
{
    if text.is_ascii() {
        return bytes_as_chars(alloc, text.as_bytes());
    }
    let mut list = Vec::with_capacity(alloc, text.len())?;
    let mut left = text;
    'parts: while left.len() > BLOCK {
        let (block, rest) = first_block(left);
        push_block(&mut list, block)?;
        left = rest;
    }
    push_block(&mut list, left)?;
    Ok(list)
}

/// Writes the characters of a text to the front of `room`, and returns how many there are; `None`
/// where there are more than `room` has places, and then the front of the text is in it.
pub fn write_chars(room: &mut [char], text: &str) -> Option<usize>
    ensures chars { IfSome result (λ n. take n room.new ≡ chars text.now) }
    ensures within { IfSome result (λ n. n ≤ length room.new) }
{
    let mut count = 0;
    'chars: for c in text.chars() {
        if count == room.len() {
            return None;
        }
        room[count] = c;
        count += 1;
    }
    Some(count)
}
