//! One line: a depth, a key, a type, and fields `name=value`, with a tab between two.
ghost use Rattle.std.specs.Prelude.{◌≡◌, ◌<◌, ◌∷◌, length, Err, IfOk, IfErr, MatchOption};
ghost use Rattle.std.specs.Char.{is_ascii_digit};
ghost use Rattle.std.specs.List.{list_all};
ghost use Rattle.haya_lines.specs.Items.{items};
ghost use Rattle.haya_lines.specs.Line.{depth_read, row_read};
ghost use Rattle.haya_lines.specs.LineReading.{IsFaultOf, IsHead, IsRow};

use crate::error::LineError;
use crate::field::read_fields;
use crate::items::{Items, split_line};
use haya_entry::{Entry, EntryType};
use std::alloc::Global;

// How deep an entry may stand.
const MAX_DEPTH: usize = 500;

/// What a line says before its fields.
#[derive(Clone, Copy)]
pub struct Head<'a> {
    /// How deep the entry stands.
    pub depth: usize,
    /// Its key.
    pub key: &'a str,
    /// Its type.
    pub kind: EntryType,
}

/// The entry of a line, without its parents, and its depth, where that is at most `deepest`: up to
/// three digits, a key, the name of a type, and any number of fields `name=value`, with a tab
/// between two. Fails with the first fault that the line has, or out of memory.
///
/// ```
/// let (depth, entry) = read_line(alloc, "0\tx\tbook\tdoi=10.1/x\tauthor=Doe, Jane", 0)?;
/// ```
pub fn read_line(alloc: Global, line: &str, deepest: usize) -> Result<(usize, Entry), LineError>
    ensures row { IfOk result (IsRow (row_read deepest (items line.now))) }
    ensures fault { IfErr result (IsFaultOf (row_read deepest (items line.now))) }
{
    let mut items = split_line(line);
    let head = read_head(&mut items, deepest)?;
    let mut entry = Entry::new(alloc, head.key, head.kind)?;
    read_fields(alloc, &mut entry, items)?;
    Ok((head.depth, entry))
}

/// Takes the head of a line, of which these are the items: what is left are its fields. Fails with
/// the first fault in it.
pub fn read_head<'a>(items: &mut Items<'a>, deepest: usize) -> Result<Head<'a>, LineError>
    ensures head { IfOk result (IsHead deepest items.old items.new) }
    ensures fault { IfErr result (λ e. row_read deepest items.old ≡ Err e) }
{
    let Some((depth, key, kind)) = take_three(items) else {
        return Err(LineError::Shape);
    };
    let Some(depth) = depth_of(depth, deepest) else {
        return Err(LineError::Depth);
    };
    let Ok(kind) = kind.parse::<EntryType>() else {
        return Err(LineError::UnknownType);
    };
    Ok(Head { depth, key, kind })
}

// Takes three items, if there are so many.
fn take_three<'a>(items: &mut Items<'a>) -> Option<(&'a str, &'a str, &'a str)>
    ensures { MatchOption result
        (length items.old < 3)
        (λ p. items.old ≡ p.0.now ∷ p.1.now ∷ p.2.now ∷ items.new) }
{
    Some((items.next()?, items.next()?, items.next()?))
}

// One to three digits, for a depth of at most 500 that is no deeper than this.
fn depth_of(item: &str, deepest: usize) -> Option<usize>
    ensures { result ≡ depth_read deepest item.now }
{
    if item.len() > 3 || !is_all_digits(item) {
        return None;
    }
    let depth = item.parse::<usize>().ok()?;
    (depth <= MAX_DEPTH && depth <= deepest).then_some(depth)
}

// Whether there are ASCII digits alone.
fn is_all_digits(item: &str) -> bool
    ensures { result ≡ list_all is_ascii_digit item.now }
{
    item.bytes().all(|b| b.is_ascii_digit())
}
