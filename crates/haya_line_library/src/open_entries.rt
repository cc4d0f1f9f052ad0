//! The entries of a text that may still get parents, line by line.
ghost use Rattle.std.specs.Prelude.{◌≡◌, ◌+◌, ◌<◌, ◌≤◌, ◌++◌, ◌∷◌, [], None, length, min};
ghost use Rattle.std.specs.Prelude.{option_map, IfErr, IsOkUnless, OnOk};
ghost use Rattle.hayagriva.specs.Applied.{entry_value};
ghost use Rattle.hayagriva.specs.Lookups.{add_parent};
ghost use Rattle.hayagriva.specs.Tree.{fields, new_entry, view};
ghost use Rattle.haya_line_library.specs.declared.error.InputError.TheVariants.{OutOfMemory};
ghost use Rattle.haya_line_library.specs.Chain.{LastOf, OpensEntry, Stands, TakesLine};
ghost use Rattle.haya_line_library.specs.Chain.{chain_rows, chain_view, left_rows};
ghost use Rattle.haya_line_library.specs.Repeats.{begun_of};
ghost use Rattle.haya_line_library.specs.TextReading.{FaultInLine};
ghost use Rattle.haya_lines.specs.Line.{fields_read};
ghost use Rattle.haya_lines.specs.LineReading.{IsFaultOf};

use crate::error::InputError;
use haya_lines::{Head, Items, LineError, read_fields, read_head, split_line};
use hayagriva::Entry;
use hayagriva::types::EntryType;
use std::alloc::Global;
use std::marker::Model;
use std::mem::swap;

/// The entries of a text that may still get parents, while its lines are taken one after another,
/// and the entry of depth 0 that the last line closed.
///
/// ```
/// let mut entries = OpenEntries::new(alloc);
/// for (number, line) in (1..).zip(text.lines()) {
///     entries.take_line(alloc, line, number)?;
///     if let Some(entry) = entries.closed() {
///         // has all its parents
///     }
/// }
/// entries.end()?;
/// let last = entries.take_closed();
/// ```
#[derive(Drop)]
pub struct OpenEntries {
    // The last entry of each depth from 0 on. Each is to be the next parent of the one before it.
    chain: Vec<Entry>,
    // At most one.
    closed: Vec<Entry>,
}

impl Model for OpenEntries {
    ghost use Rattle.std.specs.Prelude.{◌≤◌, length, slice_get};
    ghost use Rattle.haya_line_library.specs.Opened.{Opened, opened_coded};

    ghost Value = { Opened };

    ghost coded = { opened_coded };

    ghost use Rattle.haya_line_library.specs.Chain.{chain_view};

    ghost view = { λ e. record {
      chain = chain_view e.chain;
      closed = slice_get (chain_view e.closed) 0;
    } };

    ghost invariant = { λ e. length e.closed.items ≤ 1 };
}

impl OpenEntries {
    /// None: no line was taken.
    pub fn new(alloc: Global) -> OpenEntries
        ensures { result ≡ record { chain = []; closed = None } }
    {
        OpenEntries {
            chain: Vec::new(alloc),
            closed: Vec::new(alloc),
        }
    }

    /// Takes the next line, which has this number. An empty line is passed over. A fault is the
    /// line's first, or out of memory: what is open isn't told then.
    pub fn take_line(&mut self, alloc: Global, line: &str, number: usize) -> Result<(), InputError>
        ensures taken { OnOk result (TakesLine line.now self.old.chain self.new) }
        ensures fault { IfErr result (FaultInLine number (length self.old.chain) line.now) }
    {
        self.closed.clear();
        if line.is_empty() {
            return Ok(());
        }
        let mut items = split_line(line);
        let head = match read_head(&mut items, self.chain.len()) {
            Ok(head) => head,
            Err(fault) => return Err(InputError::of_line(number, fault)),
        };
        close_to(&mut self.chain, &mut self.closed, head.depth)?;
        match open_entry(alloc, &mut self.chain, head, items) {
            Ok(()) => Ok(()),
            Err(fault) => Err(InputError::of_line(number, fault)),
        }
    }

    /// Closes what is open: no line is left. The only error is out of memory.
    pub fn end(&mut self) -> Result<(), InputError>
        ensures error { IsOkUnless result OutOfMemory }
        ensures last { OnOk result (LastOf self.old.chain self.new) }
    {
        self.closed.clear();
        close_to(&mut self.chain, &mut self.closed, 0)
    }

    /// The entry that the last line closed, or the end, if there is one: no line gives it parents
    /// any more. The next line drops it, where it isn't taken.
    pub fn closed(&self) -> Option<&Entry>
        ensures { entry_value result ≡ self.now.closed }
    {
        self.closed.first()
    }

    /// The entry that the last line began, where its depth is 0 and it isn't empty.
    pub(crate) fn begun(&self) -> Option<&Entry>
        ensures { entry_value result ≡ begun_of self.now.chain }
    {
        match self.chain.as_slice() {
            [entry] => Some(entry),
            _ => None,
        }
    }

    /// Takes this entry, so that it isn't closed any more.
    pub fn take_closed(&mut self) -> Option<Entry>
        ensures entry { option_map view result ≡ self.old.closed }
        ensures rest { self.new ≡ record self.old { closed = None } }
    {
        self.closed.pop()
    }
}

// Leaves so many entries open, or as many as there are: from the last on, each is put behind the
// parents of the one before it, and that of depth 0 is closed.
fn close_to(chain: &mut Vec<Entry>, closed: &mut Vec<Entry>, depth: usize) -> Result<(), InputError>
    requires { closed.old.items ≡ [] }
    ensures error { IsOkUnless result OutOfMemory }
    ensures length { OnOk result
        (length chain.new.items ≡ min depth (length chain.old.items)) }
    ensures rows { OnOk result (left_rows (chain_view closed.new) (chain_view chain.new) ≡
        chain_rows 0 (chain_view chain.old)) }
    ensures one { length closed.new.items ≤ 1 }
{
    'closing: while chain.len() > depth {
        close_last(chain, closed)?;
    }
    Ok(())
}

// Puts the last open entry behind the parents of the one before it. That of depth 0 is closed where
// it lies: the two lists change places.
fn close_last(chain: &mut Vec<Entry>, closed: &mut Vec<Entry>) -> Result<(), InputError>
    requires some { 0 < length chain.old.items }
    requires none { closed.old.items ≡ [] }
    ensures error { IsOkUnless result OutOfMemory }
    ensures length { OnOk result (length chain.new.items + 1 ≡ length chain.old.items) }
    ensures rows { OnOk result (left_rows (chain_view closed.new) (chain_view chain.new) ≡
        chain_rows 0 (chain_view chain.old)) }
    ensures none { 0 < length chain.new.items → closed.new.items ≡ [] }
    ensures one { length closed.new.items ≤ 1 }
{
    trim_last(chain);
    if chain.len() == 1 {
        swap(chain, closed);
        return Ok(());
    }
    let parent = chain.take_last();
    let child = chain.len() - 1;
    put_parent(&mut chain[child], parent)
}

// Puts the entry of a line behind those that are open, and reads its fields in its place there.
fn open_entry(
    alloc: Global,
    chain: &mut Vec<Entry>,
    head: Head,
    items: Items,
) -> Result<(), LineError>
    ensures opened { OnOk result (OpensEntry
        (fields_read (fields (new_entry head.entry.key.now head.entry.kind)) items.entry)
        (chain_view chain.old) (chain_view chain.new)) }
    ensures fault { IfErr result (IsFaultOf
        (fields_read (fields (new_entry head.entry.key.now head.entry.kind)) items.entry)) }
{
    push_new(alloc, chain, head.key, head.kind)?;
    match chain.last_mut() {
        Some(entry) => read_fields(alloc, entry, items),
        None => Ok(()),
    }
}

// Puts an entry without fields behind those that are open.
fn push_new(
    alloc: Global,
    chain: &mut Vec<Entry>,
    key: &str,
    kind: EntryType,
) -> Result<(), LineError>
    ensures ok { OnOk result (Stands (new_entry key.now kind) chain.old.items chain.new.items) }
    ensures fault { IfErr result (λ e. e ≡ LineError.OutOfMemory) }
{
    chain.reserve(1)?;
    // Without `?`, by which the entry would be moved once more.
    let Ok(entry) = Entry::new(alloc, key, kind) else {
        return Err(LineError::OutOfMemory);
    };
    chain.push_reserved(entry);
    Ok(())
}

// Gives back the room that the last entry's parents and people don't need.
fn trim_last(chain: &mut Vec<Entry>)
    ensures { chain_view chain.new ≡ chain_view chain.old }
{
    if let Some(entry) = chain.last_mut() {
        trim(entry);
    }
}

// Gives back the room that the entry's parents and people don't need.
fn trim(entry: &mut Entry)
    ensures { view entry.new ≡ view entry.old }
{
    entry.parents.shrink_to_fit();
    shrink(&mut entry.authors);
    shrink(&mut entry.editors);
    shrink(&mut entry.affiliated);
}

// Gives back the room that the list doesn't need.
fn shrink<T>(list: &mut Option<Vec<T>>)
    ensures { option_map (λ v. v.items) list.new ≡ option_map (λ v. v.items) list.old }
{
    if let Some(items) = list {
        items.shrink_to_fit();
    }
}

// Puts a parent behind those that the entry has.
fn put_parent(entry: &mut Entry, parent: Entry) -> Result<(), InputError>
    ensures error { IsOkUnless result OutOfMemory }
    ensures ok { OnOk result (view entry.new ≡ add_parent (view parent) (view entry.old)) }
{
    put_behind(&mut entry.parents, parent)?;
    Ok(())
}

// Puts an entry behind those of a list.
fn put_behind(list: &mut Vec<Entry>, entry: Entry) -> Result<(), InputError>
    ensures error { IsOkUnless result OutOfMemory }
    ensures ok { OnOk result (list.new.items ≡ list.old.items ++ entry ∷ []) }
{
    list.reserve(1)?;
    list.push_reserved(entry);
    Ok(())
}
