//! The lines of what lines can say of an entry.
ghost use Rattle.std.specs.Prelude.{◌≡◌, ◌∷◌, ◌++◌, [], IfOk, MatchOption, OnOk, false, map};
ghost use Rattle.std.specs.Prelude.{option_map, option_to_list, string_bytes, true};
ghost use Rattle.haya_entry.specs.Tree.{fields, new_entry, trees, view};
ghost use Rattle.haya_lines.specs.Line.{leaf};
ghost use Rattle.haya_printing.specs.LeftOut.{AreLinesOf, IsAlone, IsPrintable, LeavesMore, Names};
ghost use Rattle.haya_printing.specs.LeftOut.{SaysFields, SaysPart, SaysParts, SetsOver, named};
ghost use Rattle.haya_printing.specs.LeftOut.{parts_of};
ghost use Rattle.haya_printing.specs.Parts.{without_fields};
ghost use Rattle.haya_printing.specs.Printed.{entry_text};

use crate::left_out::{LeftOut, Part};
use crate::lines::{is_said, push_lines};
use crate::parts::{NO_ROOM, has_part, leave_out, leave_out_fields};
use haya_entry::{Entry, FieldName};
use haya_text::OutOfMemory;
use std::alloc::Global;

/// The lines of an entry and of its ancestors, but for what no line says.
#[derive(Debug, Drop, PartialEq, Eq)]
pub struct PrintableLines {
    /// The lines.
    pub text: String,
    /// What is left out: of the entry, and then of each parent with its ancestors. Each part of an
    /// entry is there once.
    pub left_out: Vec<LeftOut>,
}

/// The lines of an entry and of its ancestors as `entry_lines` prints them, but for what no line
/// says: that is left out, and told. Where no line has the key nothing is printed. The only error
/// is out of memory.
pub fn printable_lines(alloc: Global, entry: &Entry) -> Result<PrintableLines, OutOfMemory>
    ensures lines { IfOk result (λ lines. AreLinesOf (view entry.now) (string_bytes lines.text)
        (named lines.left_out)) }
    ensures whole { IfOk result (λ lines. IsPrintable (view entry.now) →
        (string_bytes lines.text ≡ entry_text (view entry.now)) × (lines.left_out.items ≡ [])) }
{
    let text = lines_of(alloc, entry)?;
    let mut left_out = Vec::new(alloc);
    if is_said(alloc, text.as_str(), entry)? {
        return Ok(PrintableLines { text, left_out });
    }
    let part = said_part(alloc, entry, &mut left_out)?;
    let text = lines_of_part(alloc, &part)?;
    Ok(PrintableLines { text, left_out })
}

// No lines where nothing is said.
fn lines_of_part(alloc: Global, part: &Option<Entry>) -> Result<String, OutOfMemory>
    ensures { IfOk result (λ text. MatchOption (option_map view part.now)
        (string_bytes text ≡ []) (λ p. string_bytes text ≡ entry_text p)) }
{
    match part {
        Some(part) => lines_of(alloc, part),
        None => Ok(String::new(alloc)),
    }
}

fn lines_of(alloc: Global, entry: &Entry) -> Result<String, OutOfMemory>
    ensures { IfOk result (λ text. string_bytes text ≡ entry_text (view entry.now)) }
{
    let mut lines = String::new(alloc);
    push_lines(alloc, &mut lines, 0, entry)?;
    Ok(lines)
}

// Whether the entry's lines describe the library of it alone.
fn is_printable(alloc: Global, entry: &Entry) -> Result<bool, OutOfMemory>
    ensures yes { IfOk result (λ b. b ≡ true → IsPrintable (view entry.now)) }
    ensures no { IfOk result (λ b. b ≡ false → ¬ IsPrintable (view entry.now)) }
{
    let lines = lines_of(alloc, entry)?;
    is_said(alloc, lines.as_str(), entry)
}

// What lines say of an entry and of its ancestors, which is printable, if they have its key. What
// is left out is named.
#[cycle(said)]
fn said_part(
    alloc: Global,
    entry: &Entry,
    left_out: &mut Vec<LeftOut>,
) -> Result<Option<Entry>, OutOfMemory>
    ensures { IfOk result (λ part.
        SaysPart left_out.old left_out.new (view entry.now) (option_map view part)) }
{
    if has_line(alloc, entry)? {
        let part = said_fields(alloc, entry, left_out)?;
        let parents = said_parts(alloc, entry.parents.as_slice(), left_out)?;
        let whole = over_parents(alloc, entry.key(), part, parents, left_out)?;
        Ok(Some(whole))
    } else {
        name_part(alloc, left_out, entry.key(), Part::Key)?;
        Ok(None)
    }
}

// The same of each parent. One whose key no line has is left out with its ancestors.
#[cycle(said)]
fn said_parts(
    alloc: Global,
    parents: &[Entry],
    left_out: &mut Vec<LeftOut>,
) -> Result<Vec<Entry>, OutOfMemory>
    ensures { IfOk result (λ parts. SaysParts left_out.old left_out.new
        (trees (map view parents.now)) (trees (map view parts.items))) }
{
    let mut parts = Vec::new(alloc);
    'parents: for parent in parents {
        let part = said_part(alloc, parent, left_out)?;
        put_part(&mut parts, part)?;
    }
    Ok(parts)
}

// Puts the part behind the others, if there is one.
fn put_part(parts: &mut Vec<Entry>, part: Option<Entry>) -> Result<(), OutOfMemory>
    ensures { OnOk result (map view parts.new.items
        ≡ map view parts.old.items ++ option_to_list (option_map view part)) }
{
    if let Some(part) = part {
        parts.push(part)?;
    }
    Ok(())
}

// Whether an entry of the same key and type alone is printable.
fn has_line(alloc: Global, entry: &Entry) -> Result<bool, OutOfMemory>
    ensures yes { IfOk result (λ b. b ≡ true → IsPrintable
        (new_entry (fields (view entry.now)).key (fields (view entry.now)).entry_type)) }
    ensures no { IfOk result (λ b. b ≡ false → ¬ IsPrintable
        (new_entry (fields (view entry.now)).key (fields (view entry.now)).entry_type)) }
{
    let part = Entry::new(alloc, entry.key(), entry.entry_type())?;
    is_printable(alloc, &part)
}

// What lines say of an entry without its parents. What is left out is named.
fn said_fields(
    alloc: Global,
    entry: &Entry,
    left_out: &mut Vec<LeftOut>,
) -> Result<Entry, OutOfMemory>
    requires { IsPrintable
        (new_entry (fields (view entry.now)).key (fields (view entry.now)).entry_type) }
    ensures { IfOk result (λ part.
        SaysFields left_out.old left_out.new (view entry.now) (view part)) }
{
    let mut part = entry.try_clone(alloc)?;
    part.set_parents(Vec::new(alloc));
    let mut parts = Vec::new(alloc);
    leave_out_unsaid(alloc, &mut part, &mut parts)?;
    name_parts(alloc, left_out, entry.key(), &parts)?;
    Ok(part)
}

// Leaves out of an entry without parents what no line says, and puts the parts behind the others.
fn leave_out_unsaid(
    alloc: Global,
    entry: &mut Entry,
    parts: &mut Vec<Part>,
) -> Result<(), OutOfMemory>
    requires alone { IsAlone (view entry.old) }
    requires has_line { IsPrintable
        (new_entry (fields (view entry.old)).key (fields (view entry.old)).entry_type) }
    ensures alone { OnOk result (IsAlone (view entry.new)) }
    ensures printable { OnOk result (IsPrintable (view entry.new)) }
    ensures leaves { OnOk result (LeavesMore parts.old.items parts.new.items
        (fields (view entry.old)) (fields (view entry.new))) }
{
    leave_out_no_room(alloc, entry, parts)?;
    if is_printable(alloc, entry)? {
        return Ok(());
    }
    leave_out_unsaid_fields(alloc, entry, &FieldName::ALL, parts)
}

// Leaves out what lines have no room for.
fn leave_out_no_room(
    alloc: Global,
    entry: &mut Entry,
    parts: &mut Vec<Part>,
) -> Result<(), OutOfMemory>
    requires { IsAlone (view entry.old) }
    ensures alone { OnOk result (IsAlone (view entry.new)) }
    ensures leaves { OnOk result (LeavesMore parts.old.items parts.new.items
        (fields (view entry.old)) (fields (view entry.new))) }
{
    'parts: for part in &NO_ROOM {
        leave_out_if_there(alloc, entry, *part, parts)?;
    }
    Ok(())
}

// Leaves a part that lines have no room for out, where the entry has it.
fn leave_out_if_there(
    alloc: Global,
    entry: &mut Entry,
    part: Part,
    parts: &mut Vec<Part>,
) -> Result<(), OutOfMemory>
    requires { IsAlone (view entry.old) }
    ensures alone { OnOk result (IsAlone (view entry.new)) }
    ensures leaves { OnOk result (LeavesMore parts.old.items parts.new.items
        (fields (view entry.old)) (fields (view entry.new))) }
{
    if !has_part(entry, part) {
        return Ok(());
    }
    leave_out(alloc, entry, part)?;
    parts.push(part)?;
    Ok(())
}

// Leaves out each of these fields that no line says beside those that are kept, where without them
// the entry is printable.
fn leave_out_unsaid_fields(
    alloc: Global,
    entry: &mut Entry,
    names: &[FieldName],
    parts: &mut Vec<Part>,
) -> Result<(), OutOfMemory>
    requires alone { IsAlone (view entry.old) }
    requires without { IsPrintable (leaf (without_fields names.now (fields (view entry.old)))) }
    ensures alone { OnOk result (IsAlone (view entry.new)) }
    ensures printable { OnOk result (IsPrintable (view entry.new)) }
    ensures leaves { OnOk result (LeavesMore parts.old.items parts.new.items
        (fields (view entry.old)) (fields (view entry.new))) }
{
    match names {
        [name, others @ ..] => {
            leave_out_unsaid_field(alloc, entry, *name, others, parts)?;
            leave_out_unsaid_fields(alloc, entry, others, parts)
        }
        [] => Ok(()),
    }
}

// Leaves a field out where the entry without the others isn't printable with it.
fn leave_out_unsaid_field(
    alloc: Global,
    entry: &mut Entry,
    name: FieldName,
    others: &[FieldName],
    parts: &mut Vec<Part>,
) -> Result<(), OutOfMemory>
    requires alone { IsAlone (view entry.old) }
    requires without { IsPrintable
        (leaf (without_fields (name ∷ others.now) (fields (view entry.old)))) }
    ensures alone { OnOk result (IsAlone (view entry.new)) }
    ensures without { OnOk result (IsPrintable
        (leaf (without_fields others.now (fields (view entry.new))))) }
    ensures leaves { OnOk result (LeavesMore parts.old.items parts.new.items
        (fields (view entry.old)) (fields (view entry.new))) }
{
    if is_printable_without(alloc, entry, others)? {
        return Ok(());
    }
    leave_out(alloc, entry, Part::Field(name))?;
    parts.push(Part::Field(name))?;
    Ok(())
}

// Whether an entry without parents is printable without these fields.
fn is_printable_without(
    alloc: Global,
    entry: &Entry,
    names: &[FieldName],
) -> Result<bool, OutOfMemory>
    requires { IsAlone (view entry.now) }
    ensures yes { IfOk result (λ b. b ≡ true →
        IsPrintable (leaf (without_fields names.now (fields (view entry.now))))) }
    ensures no { IfOk result (λ b. b ≡ false →
        ¬ IsPrintable (leaf (without_fields names.now (fields (view entry.now))))) }
{
    let mut rest = entry.try_clone(alloc)?;
    leave_out_fields(&mut rest, names);
    is_printable(alloc, &rest)
}

// Puts parents over an entry that has none, where it is printable with them; otherwise this is
// named.
fn over_parents(
    alloc: Global,
    key: &str,
    entry: Entry,
    parents: Vec<Entry>,
    left_out: &mut Vec<LeftOut>,
) -> Result<Entry, OutOfMemory>
    requires alone { IsAlone (view entry) }
    requires printable { IsPrintable (view entry) }
    ensures { IfOk result (λ whole. SetsOver left_out.old left_out.new key.now
        (fields (view entry)) (trees (map view parents.items)) (view whole)) }
{
    let mut entry = entry;
    entry.set_parents(parents);
    if is_printable(alloc, &entry)? {
        return Ok(entry);
    }
    entry.set_parents(Vec::new(alloc));
    name_part(alloc, left_out, key, Part::Parents)?;
    Ok(entry)
}

// Names what is left out of the entry with this key.
fn name_parts(
    alloc: Global,
    left_out: &mut Vec<LeftOut>,
    key: &str,
    parts: &[Part],
) -> Result<(), OutOfMemory>
    ensures { OnOk result (Names left_out.old left_out.new (parts_of key.now parts.now)) }
{
    'parts: for part in parts {
        name_part(alloc, left_out, key, *part)?;
    }
    Ok(())
}

fn name_part(
    alloc: Global,
    left_out: &mut Vec<LeftOut>,
    key: &str,
    part: Part,
) -> Result<(), OutOfMemory>
    ensures { OnOk result (Names left_out.old left_out.new ((key.now, part) ∷ [])) }
{
    let key = String::from_str(alloc, key)?;
    left_out.push(LeftOut { key, part })?;
    Ok(())
}
