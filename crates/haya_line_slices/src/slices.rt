//! The entries of a text.
ghost use Rattle.std.specs.Prelude.{◌≡◌, ◌++◌, ◌∷◌, [], IfOk, OnOk, map};
ghost use Rattle.haya_line_slices.specs.EntryLines.{AreEntryParts};
ghost use Rattle.haya_line_slices.specs.Scan.{EndsAt, IsPartedTo};

use crate::begins::begins_entry;
use std::alloc::{AllocError, Global};

/// The entries of a text in lines, in order, each as it is in the text, byte for byte: its own line
/// and those of its parents, with what ends them. Empty lines in front of the first entry are of
/// none, and those behind an entry are its own. Whether a line says an entry isn't looked at, but
/// for its depth.
pub fn entry_slices<'t>(alloc: Global, text: &'t str) -> Result<Vec<&'t str>, AllocError>
    ensures { IfOk result (λ slices. AreEntryParts text.now (map (λ s. s.now) slices.items)) }
{
    let mut slices = Vec::new(alloc);
    let mut rest = behind_front(text);
    'entries: while !rest.is_empty() {
        let (part, behind) = rest.split_at(entry_len(rest.as_bytes()));
        push(&mut slices, part)?;
        rest = behind;
    }
    Ok(slices)
}

// The text from its first entry on.
fn behind_front(text: &str) -> &str
    ensures { IsPartedTo text.now [] result.now }
{
    if begins_entry(text.as_bytes()) {
        return text;
    }
    let (_, rest) = text.split_at(entry_len(text.as_bytes()));
    rest
}

// Puts a slice behind the others.
fn push<'t>(slices: &mut Vec<&'t str>, slice: &'t str) -> Result<(), AllocError>
    ensures { OnOk result (map (λ s. s.now) slices.new.items
        ≡ map (λ s. s.now) slices.old.items ++ slice.now ∷ []) }
{
    slices.push(slice)?;
    Ok(())
}

// How many bytes there are up to the next line that begins an entry, the first line aside.
pub(crate) fn entry_len(bytes: &[u8]) -> usize
    ensures { EndsAt bytes.now result }
{
    let mut at = 0;
    'bytes: while at < bytes.len() {
        at += 1;
        if bytes[at - 1] == b'\n' && begins_entry(&bytes[at..]) {
            return at;
        }
    }
    at
}
