//! Lists and maps over lines.
ghost use Rattle.std.specs.Prelude.{◌≡◌, ◌+◌, ◌<◌, ◌^◌, ◌≤◌, ◌++◌, [], option_map, length};
ghost use Rattle.std.specs.Prelude.{string_bytes, OnOk, IfOk, MatchOption, Err, None, Some};
ghost use Rattle.std.specs.Prelude.{true, false, ◌&&◌, ◌∷◌};
ghost use Rattle.json.specs.Json.{array, object};
ghost use Rattle.haya_yaml_text.specs.Faults.{IsRefused};
ghost use Rattle.haya_yaml_text.specs.Keys.{key};
ghost use Rattle.haya_yaml_text.specs.Signs.{is_end, skip};
ghost use Rattle.haya_yaml_text.specs.Writing.{KeepsBefore};
ghost use Rattle.haya_yaml.specs.Block.{below, item_value, items_at, items_in, items_of};
ghost use Rattle.haya_yaml.specs.Block.{member_value, members_at, members_in, members_of};
ghost use Rattle.haya_yaml.specs.Block.{node, node_with, value};
ghost use Rattle.haya_yaml.specs.Line.{begins_dash, is_dash, texts};
ghost use Rattle.haya_yaml.specs.Saying.{said, said_items, said_members};

use crate::line::{begins_dash, fault, is_dash, skipped, split_indent};
use crate::own::{SpannedLines, own_lines};
use crate::spans::spans_of;
use crate::value::write_value;
use haya_yaml_text::fault::{FaultKind, ReadError, Refusal};
use haya_yaml_text::key::{PlainKey, plain_key, read_key};
use haya_yaml_text::output::{Output, Place};
use haya_yaml_text::white::{begins_with, blanks, ends_key, is_end, is_gap, skip, tail};
use std::alloc::AllocError;

// The line that begins a member, without its indent: its key, its text, and what stands behind the
// colon.
#[derive(Clone, Copy, Drop)]
struct KeyLine<'a> {
    name: &'a str,
    text: &'a str,
    behind: &'a str,
}

// The key that begins a line, and what stands behind its colon. A key is read into `read` where some
// of its signs don't stand for themselves.
fn line_key<'a>(
    read: &'a mut String,
    text: &'a str,
) -> Result<Option<(&'a str, &'a str)>, AllocError>
    requires { string_bytes read.old ≡ [] }
    ensures { IfOk result (λ found. MatchOption found (key text.now ≡ None)
        (λ k. key text.now ≡ Some (k.0.now, k.1.now))) }
{
    match plain_key(text) {
        PlainKey::Found(name, behind) => return Ok(Some((name, behind))),
        PlainKey::Missing => return Ok(None),
        PlainKey::Unclear => {}
    }
    match read_key(read, false, text) {
        Ok(rest) => {
            let colon = skip(true, rest);
            if !ends_key(false, colon.as_bytes()) {
                return Ok(None);
            }
            Ok(Some((read.as_str(), tail(colon))))
        }
        Err(ReadError::Refused(_)) => Ok(None),
        Err(ReadError::OutOfMemory) => Err(AllocError),
    }
}

// Whether items of a list at the column belong to the member behind whose colon this stands.
fn takes_dashes(column: usize, behind: &str, lines: &[&str]) -> bool
    ensures { result ≡ (is_end (skip true behind.now) && begins_dash column (texts lines.now)) }
{
    is_end(skip(true, behind)) && begins_dash(column, lines)
}

// Why a line of a list takes no place in it: the column is another, or it is no item.
fn no_item(number: usize, text: &str) -> ReadError {
    match text.as_bytes() {
        [b'\t', ..] => fault(FaultKind::Tab, number, text),
        _ => fault(FaultKind::Indent, number, text),
    }
}

// Whether the key `<<` begins here.
fn is_merge(text: &str) -> bool {
    match text.as_bytes() {
        [b'<', ..] => {
            let rest = tail(text);
            match rest.as_bytes() {
                [b'<', ..] => ends_key(false, skip(true, tail(rest)).as_bytes()),
                _ => false,
            }
        }
        _ => false,
    }
}

// Why a line of a map takes no place in it: its column is another, or it is no member.
fn no_member(same: bool, number: usize, text: &str) -> ReadError {
    let bytes = text.as_bytes();
    let kind = match bytes {
        [b'\t', ..] => FaultKind::Tab,
        _ if !same || is_dash(text) => FaultKind::Indent,
        [b'?', rest @ ..] if is_gap(rest) => FaultKind::ExplicitKey,
        [b':', rest @ ..] if is_gap(rest) => FaultKind::EmptyKey,
        _ if is_merge(text) => FaultKind::MergeKey,
        [b'&', ..] => FaultKind::Anchor,
        [b'*', ..] => FaultKind::Alias,
        [b'!', ..] => FaultKind::Tag,
        _ => FaultKind::NoKey,
    };
    fault(kind, number, text)
}

// Writes what lines say that no text stands before, behind the line of this number.
#[cycle(node)]
fn write_below(
    out: &mut Output,
    depth: usize,
    edge: Option<usize>,
    head: usize,
    lines: SpannedLines<'_, '_>,
) -> Result<(), ReadError>
    ensures ok { OnOk result (said out.old.writer.tokens
        (below (node depth) edge (texts lines.entry.texts.now)) ≡ Some out.new.writer.tokens) }
    ensures before { OnOk result (KeepsBefore out.old.writer out.new.writer) }
    ensures refused { (f : Refusal) → result ≡ Err (ReadError.Refused f)
        → below (node depth) edge (texts lines.entry.texts.now) ≡ None }
{
    let count = skipped(lines.texts);
    let (_, rest) = lines.split_at(count);
    match rest.split_first() {
        None => {
            out.writer.null()?;
            Ok(())
        }
        Some((line, more)) => {
            let number = head.saturating_add(count).saturating_add(1);
            let (indent, text) = split_indent(line);
            write_node(out, depth, edge, indent, number, text, more)
        }
    }
}

// Writes what a text at a column, in the line of this number, says together with the lines behind
// it.
#[cycle(node)]
fn write_node(
    out: &mut Output,
    depth: usize,
    edge: Option<usize>,
    column: usize,
    head: usize,
    text: &str,
    lines: SpannedLines<'_, '_>,
) -> Result<(), ReadError>
    requires fits { column + length text.now < 2 ^ 64 }
    ensures ok { OnOk result (said out.old.writer.tokens
        (node depth edge column text.now (texts lines.entry.texts.now))
        ≡ Some out.new.writer.tokens) }
    ensures before { OnOk result (KeepsBefore out.old.writer out.new.writer) }
    ensures refused { (f : Refusal) → result ≡ Err (ReadError.Refused f)
        → node depth edge column text.now (texts lines.entry.texts.now) ≡ None }
{
    write_at(out, depth, edge, column, head, text, lines)
}

// Writes it by what begins it.
#[cycle(node)]
fn write_at(
    out: &mut Output,
    depth: usize,
    edge: Option<usize>,
    column: usize,
    head: usize,
    text: &str,
    lines: SpannedLines<'_, '_>,
) -> Result<(), ReadError>
    requires fits { column + length text.now < 2 ^ 64 }
    ensures ok { OnOk result (said out.old.writer.tokens
        (node_with (items_in node depth column text.now (texts lines.entry.texts.now))
        (members_in node depth column text.now (texts lines.entry.texts.now))
        depth edge column text.now (texts lines.entry.texts.now)) ≡ Some out.new.writer.tokens) }
    ensures before { OnOk result (KeepsBefore out.old.writer out.new.writer) }
    ensures refused { (f : Refusal) → result ≡ Err (ReadError.Refused f)
        → node_with (items_in node depth column text.now (texts lines.entry.texts.now))
        (members_in node depth column text.now (texts lines.entry.texts.now))
        depth edge column text.now (texts lines.entry.texts.now) ≡ None }
{
    if is_dash(text) {
        write_list(out, depth, column, head, text, lines)?;
        return Ok(());
    }
    let mut read = String::new(out.alloc);
    match line_key(&mut read, text)? {
        Some((name, behind)) => {
            let first = KeyLine { name, text, behind };
            write_map(out, depth, column, head, first, lines)?;
            Ok(())
        }
        None => match write_value(out, depth, edge, head, text, lines.texts) {
            Ok(()) => Ok(()),
            Err(error) => Err(at_entry(error, head, text)),
        },
    }
}

// The name of a fault where a key could stand.
fn at_entry(error: ReadError, head: usize, text: &str) -> ReadError
    ensures { (f : Refusal) → result ≡ ReadError.Refused f → IsRefused error }
{
    match error {
        ReadError::Refused(refusal) => {
            if refusal.kind == FaultKind::NestedKey && is_merge(text) {
                return fault(FaultKind::MergeKey, head, text);
            }
            if refusal.line != head || refusal.left != text.len() {
                return error;
            }
            match text.as_bytes() {
                [b'?', ..] => fault(FaultKind::ExplicitKey, head, text),
                [b':', ..] => fault(FaultKind::EmptyKey, head, text),
                _ => error,
            }
        }
        ReadError::OutOfMemory => error,
    }
}

// Writes a list, whose first item begins at a column.
#[cycle(node)]
fn write_list(
    out: &mut Output,
    depth: usize,
    column: usize,
    head: usize,
    text: &str,
    lines: SpannedLines<'_, '_>,
) -> Result<(), ReadError>
    requires fits { column + length text.now < 2 ^ 64 }
    requires dash { is_dash text.now ≡ true }
    ensures ok { OnOk result (said out.old.writer.tokens
        (option_map array (items_in node depth column text.now (texts lines.entry.texts.now)))
        ≡ Some out.new.writer.tokens) }
    ensures before { OnOk result (KeepsBefore out.old.writer out.new.writer) }
    ensures refused { (f : Refusal) → result ≡ Err (ReadError.Refused f)
        → items_in node depth column text.now (texts lines.entry.texts.now) ≡ None }
{
    if depth == 0 {
        return Err(fault(FaultKind::TooDeep, head, text));
    }
    out.writer.begin_array()?;
    write_items(out, depth - 1, column, head, text, lines)?;
    Ok(())
}

// Writes items, and the bracket behind them.
#[cycle(node)]
fn write_items(
    out: &mut Output,
    depth: usize,
    column: usize,
    head: usize,
    text: &str,
    lines: SpannedLines<'_, '_>,
) -> Result<(), ReadError>
    requires fits { column + length text.now < 2 ^ 64 }
    requires dash { is_dash text.now ≡ true }
    ensures ok { OnOk result (said_items out.old.writer.tokens
        (items_at depth column text.now (texts lines.entry.texts.now))
        ≡ Some out.new.writer.tokens) }
    ensures before { OnOk result (KeepsBefore out.old.writer out.new.writer) }
    ensures refused { (f : Refusal) → result ≡ Err (ReadError.Refused f)
        → items_at depth column text.now (texts lines.entry.texts.now) ≡ None }
{
    let end = head.saturating_add(lines.texts.len());
    let mut rest = write_one_item(out, depth, column, head, text, lines)?;
    'items: while let Some((line, more)) = rest.split_first() {
        let number = end.saturating_sub(more.texts.len());
        rest = write_next_item(out, depth, column, number, line, more)?;
    }
    out.writer.end_array()?;
    Ok(())
}

// Writes the item that a line begins, and returns the lines behind it.
#[cycle(node)]
fn write_next_item<'l, 'a>(
    out: &mut Output,
    depth: usize,
    column: usize,
    number: usize,
    line: &'a str,
    lines: SpannedLines<'l, 'a>,
) -> Result<SpannedLines<'l, 'a>, ReadError>
    ensures ok { IfOk result (λ rest. said_items out.old.writer.tokens
        (items_of depth column (line.now ∷ texts lines.entry.texts.now))
        ≡ said_items out.new.writer.tokens (items_of depth column (texts rest.texts.now))) }
    ensures fewer { IfOk result (λ rest. length rest.texts.now ≤ length lines.entry.texts.now) }
    ensures before { IfOk result (λ rest. KeepsBefore out.old.writer out.new.writer) }
    ensures refused { (f : Refusal) → result ≡ Err (ReadError.Refused f)
        → items_of depth column (line.now ∷ texts lines.entry.texts.now) ≡ None }
{
    let (indent, text) = split_indent(line);
    if indent != column || !is_dash(text) {
        return Err(no_item(number, text));
    }
    write_one_item(out, depth, column, number, text, lines)
}

// Writes an item, and returns the lines behind it.
#[cycle(node)]
fn write_one_item<'l, 'a>(
    out: &mut Output,
    depth: usize,
    column: usize,
    head: usize,
    text: &str,
    lines: SpannedLines<'l, 'a>,
) -> Result<SpannedLines<'l, 'a>, ReadError>
    requires fits { column + length text.now < 2 ^ 64 }
    requires dash { is_dash text.now ≡ true }
    ensures ok { IfOk result (λ rest. said_items out.old.writer.tokens
        (items_at depth column text.now (texts lines.entry.texts.now))
        ≡ said_items out.new.writer.tokens (items_of depth column (texts rest.texts.now))) }
    ensures fewer { IfOk result (λ rest. length rest.texts.now ≤ length lines.entry.texts.now) }
    ensures before { IfOk result (λ rest. KeepsBefore out.old.writer out.new.writer) }
    ensures refused { (f : Refusal) → result ≡ Err (ReadError.Refused f)
        → items_at depth column text.now (texts lines.entry.texts.now) ≡ None }
{
    let (own, rest) = lines.split_at(own_lines(false, false, column, lines));
    write_item(out, depth, column, head, tail(text), own)?;
    Ok(rest)
}

// Writes what an item says, behind its dash.
#[cycle(node)]
fn write_item(
    out: &mut Output,
    depth: usize,
    column: usize,
    head: usize,
    text: &str,
    lines: SpannedLines<'_, '_>,
) -> Result<(), ReadError>
    requires fits { column + 1 + length text.now < 2 ^ 64 }
    ensures ok { OnOk result (said out.old.writer.tokens
        (item_value (node depth) (value depth) column text.now (texts lines.entry.texts.now))
        ≡ Some out.new.writer.tokens) }
    ensures before { OnOk result (KeepsBefore out.old.writer out.new.writer) }
    ensures refused { (f : Refusal) → result ≡ Err (ReadError.Refused f)
        → item_value (node depth) (value depth) column text.now (texts lines.entry.texts.now)
        ≡ None }
{
    if is_end(skip(true, text)) {
        write_below(out, depth, Some(column), head, lines)?;
        return Ok(());
    }
    let next = skip(false, text);
    if begins_with(b'\t', next.as_bytes()) {
        write_value(
            out,
            depth,
            Some(column),
            head,
            skip(true, text),
            lines.texts,
        )?;
        return Ok(());
    }
    let at = column + 1 + blanks(false, text);
    write_node(out, depth, Some(column), at, head, next, lines)?;
    Ok(())
}

// Writes a map, whose first member begins at a column.
#[cycle(node)]
fn write_map(
    out: &mut Output,
    depth: usize,
    column: usize,
    head: usize,
    first: KeyLine<'_>,
    lines: SpannedLines<'_, '_>,
) -> Result<(), ReadError>
    requires key { key first.text.now ≡ Some (first.name.now, first.behind.now) }
    ensures ok { OnOk result (said out.old.writer.tokens
        (option_map object
        (members_in node depth column first.entry.text.now (texts lines.entry.texts.now)))
        ≡ Some out.new.writer.tokens) }
    ensures before { OnOk result (KeepsBefore out.old.writer out.new.writer) }
    ensures refused { (f : Refusal) → result ≡ Err (ReadError.Refused f)
        → members_in node depth column first.entry.text.now (texts lines.entry.texts.now)
        ≡ None }
{
    if depth == 0 {
        return Err(fault(FaultKind::TooDeep, head, first.text));
    }
    out.writer.begin_object()?;
    write_members(out, depth - 1, column, head, first, lines)?;
    Ok(())
}

// Writes members, and the bracket behind them.
#[cycle(node)]
fn write_members(
    out: &mut Output,
    depth: usize,
    column: usize,
    head: usize,
    first: KeyLine<'_>,
    lines: SpannedLines<'_, '_>,
) -> Result<(), ReadError>
    requires key { key first.text.now ≡ Some (first.name.now, first.behind.now) }
    ensures ok { OnOk result (said_members out.old.writer.tokens
        (members_at depth column first.entry.text.now (texts lines.entry.texts.now))
        ≡ Some out.new.writer.tokens) }
    ensures before { OnOk result (KeepsBefore out.old.writer out.new.writer) }
    ensures refused { (f : Refusal) → result ≡ Err (ReadError.Refused f)
        → members_at depth column first.entry.text.now (texts lines.entry.texts.now) ≡ None }
{
    let end = head.saturating_add(lines.texts.len());
    let mut rest = write_one_member(out, depth, column, head, first, lines)?;
    'members: while let Some((line, more)) = rest.split_first() {
        let number = end.saturating_sub(more.texts.len());
        rest = write_next_member(out, depth, column, number, line, more)?;
    }
    out.writer.end_object()?;
    Ok(())
}

// Writes the member that a line begins, and returns the lines behind it.
#[cycle(node)]
fn write_next_member<'l, 'a>(
    out: &mut Output,
    depth: usize,
    column: usize,
    number: usize,
    line: &'a str,
    lines: SpannedLines<'l, 'a>,
) -> Result<SpannedLines<'l, 'a>, ReadError>
    ensures ok { IfOk result (λ rest. said_members out.old.writer.tokens
        (members_of depth column (line.now ∷ texts lines.entry.texts.now))
        ≡ said_members out.new.writer.tokens (members_of depth column (texts rest.texts.now))) }
    ensures fewer { IfOk result (λ rest. length rest.texts.now ≤ length lines.entry.texts.now) }
    ensures before { IfOk result (λ rest. KeepsBefore out.old.writer out.new.writer) }
    ensures refused { (f : Refusal) → result ≡ Err (ReadError.Refused f)
        → members_of depth column (line.now ∷ texts lines.entry.texts.now) ≡ None }
{
    let (indent, text) = split_indent(line);
    if indent != column {
        return Err(no_member(false, number, text));
    }
    let mut read = String::new(out.alloc);
    match line_key(&mut read, text)? {
        None => Err(no_member(true, number, text)),
        Some((name, behind)) => {
            let member = KeyLine { name, text, behind };
            write_one_member(out, depth, column, number, member, lines)
        }
    }
}

// Writes a member, and returns the lines behind it.
#[cycle(node)]
fn write_one_member<'l, 'a>(
    out: &mut Output,
    depth: usize,
    column: usize,
    head: usize,
    member: KeyLine<'_>,
    lines: SpannedLines<'l, 'a>,
) -> Result<SpannedLines<'l, 'a>, ReadError>
    requires key { key member.text.now ≡ Some (member.name.now, member.behind.now) }
    ensures ok { IfOk result (λ rest. said_members out.old.writer.tokens
        (members_at depth column member.entry.text.now (texts lines.entry.texts.now))
        ≡ said_members out.new.writer.tokens (members_of depth column (texts rest.texts.now))) }
    ensures fewer { IfOk result (λ rest. length rest.texts.now ≤ length lines.entry.texts.now) }
    ensures before { IfOk result (λ rest. KeepsBefore out.old.writer out.new.writer) }
    ensures refused { (f : Refusal) → result ≡ Err (ReadError.Refused f)
        → members_at depth column member.entry.text.now (texts lines.entry.texts.now) ≡ None }
{
    out.keys.push(Place {
        line: head,
        left: member.text.len(),
    })?;
    out.writer.key(member.name)?;
    let dashes = takes_dashes(column, member.behind, lines.texts);
    let (own, rest) = lines.split_at(own_lines(true, dashes, column, lines));
    write_member(out, depth, column, head, member.behind, own)?;
    Ok(rest)
}

// Writes what a member says, behind its colon.
#[cycle(node)]
fn write_member(
    out: &mut Output,
    depth: usize,
    column: usize,
    head: usize,
    text: &str,
    lines: SpannedLines<'_, '_>,
) -> Result<(), ReadError>
    ensures ok { OnOk result (said out.old.writer.tokens
        (member_value (node depth) (value depth) column text.now (texts lines.entry.texts.now))
        ≡ Some out.new.writer.tokens) }
    ensures before { OnOk result (KeepsBefore out.old.writer out.new.writer) }
    ensures refused { (f : Refusal) → result ≡ Err (ReadError.Refused f)
        → member_value (node depth) (value depth) column text.now (texts lines.entry.texts.now)
        ≡ None }
{
    let value = skip(true, text);
    if is_end(value) {
        write_below(out, depth, Some(column), head, lines)?;
        return Ok(());
    }
    write_value(out, depth, Some(column), head, value, lines.texts)?;
    Ok(())
}

/// Writes the value that lines are, behind the line of this number.
///
/// `Refused`: they are none. `OutOfMemory`: there was no memory for it.
pub(crate) fn write_lines(out: &mut Output, head: usize, lines: &[&str]) -> Result<(), ReadError>
    ensures ok { OnOk result (said out.old.writer.tokens (below (node 128) None (texts lines.now))
        ≡ Some out.new.writer.tokens) }
    ensures before { OnOk result (KeepsBefore out.old.writer out.new.writer) }
    ensures refused { (f : Refusal) → result ≡ Err (ReadError.Refused f)
        → below (node 128) None (texts lines.now) ≡ None }
{
    let spans = spans_of(out.alloc, lines)?;
    let all = SpannedLines {
        texts: lines,
        spans: spans.as_slice(),
    };
    write_below(out, 128, None, head, all)
}
