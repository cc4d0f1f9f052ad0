//! Values in brackets and quotes.
ghost use Rattle.std.specs.Prelude.{◌≡◌, ◌+◌, ◌<◌, ◌++◌, [], ◌∷◌, ℕ, suc, List, drop, length};
ghost use Rattle.std.specs.Prelude.{slice_index, string_bytes, IfOk, MatchOption};
ghost use Rattle.std.specs.Prelude.{Err, None, Some, true};
ghost use Rattle.json.specs.Json.{Json, Items, Members, array, object};
ghost use Rattle.json.specs.Token.{key};
ghost use Rattle.haya_yaml_text.specs.Faults.{IsRefused};
ghost use Rattle.haya_yaml_text.specs.Flow.{Reading, at_colon, ends_member, flow_items};
ghost use Rattle.haya_yaml_text.specs.Flow.{flow_members, flow_with, found_map, items_in};
ghost use Rattle.haya_yaml_text.specs.Flow.{items_step, members_in, members_step, one_item};
ghost use Rattle.haya_yaml_text.specs.Flow.{one_member, flow_value, item_behind, member_behind};
ghost use Rattle.haya_yaml_text.specs.Flow.{plain, quoted, value_behind};
ghost use Rattle.haya_yaml_text.specs.FlowTurns.{ItemEnded, ItemTurned, MemberEnded, MemberTurned};
ghost use Rattle.haya_yaml_text.specs.Keys.{key_scalar};
ghost use Rattle.haya_yaml_text.specs.Writing.{KeepsBefore, written};
ghost use Rattle.haya_yaml_text.specs.Writing.{written_items, written_members};

use crate::fault::{FaultKind, ReadError, Refusal};
use crate::key::{begin_fault, read_key};
use crate::output::{Output, Place};
use crate::resolved::write_resolved;
use crate::scalar::{Style, is_alone, read_scalar, room_for};
use crate::white::{begins_plain, begins_with, behind, pass, skip, tail};

/// What is left of a text once an item or a member was read.
#[derive(Drop)]
pub enum Passage<'a> {
    /// There may be more.
    More(&'a str),
    /// What follows the closing bracket.
    Last(&'a str),
}

/// Writes the text of a quoted scalar, and returns what follows it.
fn write_quoted<'a>(out: &mut Output, style: Style, text: &'a str) -> Result<&'a str, ReadError>
    ensures ok { IfOk result (λ rest. written out.old.writer.tokens (quoted style text.now)
        ≡ Some (out.new.writer.tokens, rest.now)) }
    ensures before { IfOk result (λ rest. KeepsBefore out.old.writer out.new.writer) }
    ensures refused { (f : Refusal) → result ≡ Err (ReadError.Refused f)
        → quoted style text.now ≡ None }
{
    let mut content = room_for(out.alloc, text)?;
    let rest = read_scalar(&mut content, true, style, text)?;
    out.writer.string(content.as_str())?;
    Ok(rest)
}

/// Writes the value of a plain scalar that may go on over lines, and returns what follows it.
///
/// `Refused`: the text of the scalar can't be read, as in `read_scalar`. `OutOfMemory`: there was
/// no memory for it.
pub fn write_plain<'a>(out: &mut Output, style: Style, text: &'a str) -> Result<&'a str, ReadError>
    ensures ok { IfOk result (λ rest. written out.old.writer.tokens (plain style text.now)
        ≡ Some (out.new.writer.tokens, rest.now)) }
    ensures before { IfOk result (λ rest. KeepsBefore out.old.writer out.new.writer) }
    ensures refused { (f : Refusal) → result ≡ Err (ReadError.Refused f)
        → plain style text.now ≡ None }
{
    if is_alone(style, text) {
        write_resolved(&mut out.writer, text)?;
        return Ok(behind(text.len(), text));
    }
    let mut content = room_for(out.alloc, text)?;
    let rest = read_scalar(&mut content, true, style, text)?;
    write_resolved(&mut out.writer, content.as_str())?;
    Ok(rest)
}

/// Writes a value in brackets or quotes, or a plain scalar in brackets, where lists and maps nest
/// no deeper than the number, and returns what follows it.
///
/// `Refused`: no such value begins the text. `OutOfMemory`: there was no memory for it.
#[cycle(value)]
pub fn write_flow<'a>(out: &mut Output, depth: usize, text: &'a str) -> Result<&'a str, ReadError>
    ensures ok { IfOk result (λ rest. written out.old.writer.tokens (flow_value depth text.now)
        ≡ Some (out.new.writer.tokens, rest.now)) }
    ensures before { IfOk result (λ rest. KeepsBefore out.old.writer out.new.writer) }
    ensures refused { (f : Refusal) → result ≡ Err (ReadError.Refused f)
        → flow_value depth text.now ≡ None }
{
    write_at(out, depth, text)
}

// Writes it by the sign that begins it.
#[cycle(value)]
fn write_at<'a>(out: &mut Output, depth: usize, text: &'a str) -> Result<&'a str, ReadError>
    ensures ok { IfOk result (λ rest. written out.old.writer.tokens
        (flow_with (items_in flow_value depth) (members_in flow_value depth) text.now)
        ≡ Some (out.new.writer.tokens, rest.now)) }
    ensures before { IfOk result (λ rest. KeepsBefore out.old.writer out.new.writer) }
    ensures refused { (f : Refusal) → result ≡ Err (ReadError.Refused f)
        → flow_with (items_in flow_value depth) (members_in flow_value depth) text.now ≡ None }
{
    match text.as_bytes() {
        [] => Err(Refusal::here(FaultKind::Unclosed, text)),
        [b'[', ..] => write_list(out, depth, text),
        [b'{', ..] => write_map(out, depth, text),
        [b'"', ..] => write_quoted(out, Style::DoubleQuoted, tail(text)),
        [b'\'', ..] => write_quoted(out, Style::SingleQuoted, tail(text)),
        bytes => {
            if !begins_plain(true, bytes) {
                return Err(begin_fault(text));
            }
            write_plain(out, Style::PlainInBrackets, text)
        }
    }
}

// Writes a list, whose bracket begins a text.
#[cycle(value)]
fn write_list<'a>(out: &mut Output, depth: usize, text: &'a str) -> Result<&'a str, ReadError>
    requires some { 0 < length text.now }
    requires ascii { slice_index text.now 0 < 128 }
    ensures ok { IfOk result (λ rest. written out.old.writer.tokens
        (found_map array (items_in flow_value depth (drop 1 text.now)))
        ≡ Some (out.new.writer.tokens, rest.now)) }
    ensures before { IfOk result (λ rest. KeepsBefore out.old.writer out.new.writer) }
    ensures refused { (f : Refusal) → result ≡ Err (ReadError.Refused f)
        → items_in flow_value depth (drop 1 text.now) ≡ None }
{
    if depth == 0 {
        return Err(Refusal::here(FaultKind::TooDeep, text));
    }
    out.writer.begin_array()?;
    write_items(out, depth - 1, text.len(), tail(text))
}

// Writes items, and the bracket behind them, where so many bytes were left at the bracket before.
#[cycle(value)]
fn write_items<'a>(
    out: &mut Output,
    depth: usize,
    begin: usize,
    text: &'a str,
) -> Result<&'a str, ReadError>
    ensures ok { IfOk result (λ rest. written_items out.old.writer.tokens
        (flow_items (flow_value depth) (length text.now) text.now)
        ≡ Some (out.new.writer.tokens, rest.now)) }
    ensures before { IfOk result (λ rest. KeepsBefore out.old.writer out.new.writer) }
    ensures refused { (f : Refusal) → result ≡ Err (ReadError.Refused f)
        → flow_items (flow_value depth) (length text.now) text.now ≡ None }
{
    let mut turns = text.len();
    let mut rest = text;
    'turns: while turns > 0 {
        turns -= 1;
        match write_item(out, depth, begin, pass(rest))? {
            Passage::More(more) => rest = more,
            Passage::Last(more) => return Ok(more),
        }
    }
    Err(Refusal::at(FaultKind::Unclosed, begin))
}

// Writes an item, or the bracket where there is none.
#[cycle(value)]
fn write_item<'a>(
    out: &mut Output,
    depth: usize,
    begin: usize,
    text: &'a str,
) -> Result<Passage<'a>, ReadError>
    ensures ok { IfOk result (λ p. ItemTurned
        (λ more. items_step (flow_value depth) more text.now) p
        out.old.writer.tokens out.new.writer.tokens) }
    ensures before { IfOk result (λ p. KeepsBefore out.old.writer out.new.writer) }
    ensures refused { (f : Refusal) → result ≡ Err (ReadError.Refused f) → (more : Reading Items)
        → items_step (flow_value depth) more text.now ≡ None }
{
    match text.as_bytes() {
        [] => Err(Refusal::at(FaultKind::Unclosed, begin)),
        [b']', ..] => {
            out.writer.end_array()?;
            Ok(Passage::Last(tail(text)))
        }
        _ => write_one_item(out, depth, begin, text),
    }
}

// Writes an item and what follows it.
#[cycle(value)]
fn write_one_item<'a>(
    out: &mut Output,
    depth: usize,
    begin: usize,
    text: &'a str,
) -> Result<Passage<'a>, ReadError>
    ensures ok { IfOk result (λ p. ItemTurned (λ more. one_item more (flow_value depth text.now)) p
        out.old.writer.tokens out.new.writer.tokens) }
    ensures before { IfOk result (λ p. KeepsBefore out.old.writer out.new.writer) }
    ensures refused { (f : Refusal) → result ≡ Err (ReadError.Refused f) → (more : Reading Items)
        → one_item more (flow_value depth text.now) ≡ None }
{
    let rest = write_flow(out, depth, text)?;
    end_item(out, begin, pass(rest))
}

// What follows an item: a comma, or the closing bracket, which is written.
fn end_item<'a>(out: &mut Output, begin: usize, text: &'a str) -> Result<Passage<'a>, ReadError>
    ensures ok { IfOk result
        (λ p. ItemEnded p out.old.writer.tokens out.new.writer.tokens text.now) }
    ensures before { IfOk result (λ p. KeepsBefore out.old.writer out.new.writer) }
    ensures refused { (f : Refusal) → result ≡ Err (ReadError.Refused f)
        → (more : Reading Items) → (j : Json) → item_behind more j text.now ≡ None }
{
    match text.as_bytes() {
        [] => Err(Refusal::at(FaultKind::Unclosed, begin)),
        [b',', ..] => Ok(Passage::More(tail(text))),
        [b']', ..] => {
            out.writer.end_array()?;
            Ok(Passage::Last(tail(text)))
        }
        [b':', ..] => Err(Refusal::here(FaultKind::Pair, text)),
        _ => Err(Refusal::here(FaultKind::Flow, text)),
    }
}

// Writes a map, whose bracket begins a text.
#[cycle(value)]
fn write_map<'a>(out: &mut Output, depth: usize, text: &'a str) -> Result<&'a str, ReadError>
    requires some { 0 < length text.now }
    requires ascii { slice_index text.now 0 < 128 }
    ensures ok { IfOk result (λ rest. written out.old.writer.tokens
        (found_map object (members_in flow_value depth (drop 1 text.now)))
        ≡ Some (out.new.writer.tokens, rest.now)) }
    ensures before { IfOk result (λ rest. KeepsBefore out.old.writer out.new.writer) }
    ensures refused { (f : Refusal) → result ≡ Err (ReadError.Refused f)
        → members_in flow_value depth (drop 1 text.now) ≡ None }
{
    if depth == 0 {
        return Err(Refusal::here(FaultKind::TooDeep, text));
    }
    out.writer.begin_object()?;
    write_members(out, depth - 1, text.len(), tail(text))
}

// Writes members, and the bracket behind them, where so many bytes were left at the bracket before.
#[cycle(value)]
fn write_members<'a>(
    out: &mut Output,
    depth: usize,
    begin: usize,
    text: &'a str,
) -> Result<&'a str, ReadError>
    ensures ok { IfOk result (λ rest. written_members out.old.writer.tokens
        (flow_members (flow_value depth) (length text.now) text.now)
        ≡ Some (out.new.writer.tokens, rest.now)) }
    ensures before { IfOk result (λ rest. KeepsBefore out.old.writer out.new.writer) }
    ensures refused { (f : Refusal) → result ≡ Err (ReadError.Refused f)
        → flow_members (flow_value depth) (length text.now) text.now ≡ None }
{
    let mut turns = text.len();
    let mut rest = text;
    'turns: while turns > 0 {
        turns -= 1;
        match write_member(out, depth, begin, pass(rest))? {
            Passage::More(more) => rest = more,
            Passage::Last(more) => return Ok(more),
        }
    }
    Err(Refusal::at(FaultKind::Unclosed, begin))
}

// Writes a member, or the bracket where there is none.
#[cycle(value)]
fn write_member<'a>(
    out: &mut Output,
    depth: usize,
    begin: usize,
    text: &'a str,
) -> Result<Passage<'a>, ReadError>
    ensures ok { IfOk result (λ p. MemberTurned
        (λ more. members_step (flow_value depth) more text.now) p
        out.old.writer.tokens out.new.writer.tokens) }
    ensures before { IfOk result (λ p. KeepsBefore out.old.writer out.new.writer) }
    ensures refused { (f : Refusal) → result ≡ Err (ReadError.Refused f) → (more : Reading Members)
        → members_step (flow_value depth) more text.now ≡ None }
{
    match text.as_bytes() {
        [] => Err(Refusal::at(FaultKind::Unclosed, begin)),
        [b'}', ..] => {
            out.writer.end_object()?;
            Ok(Passage::Last(tail(text)))
        }
        _ => write_one_member(out, depth, begin, text),
    }
}

// Writes a member and what follows it.
#[cycle(value)]
fn write_one_member<'a>(
    out: &mut Output,
    depth: usize,
    begin: usize,
    text: &'a str,
) -> Result<Passage<'a>, ReadError>
    ensures ok { IfOk result (λ p. MemberTurned
        (λ more. one_member (flow_value depth) more (key_scalar true text.now)) p
        out.old.writer.tokens out.new.writer.tokens) }
    ensures before { IfOk result (λ p. KeepsBefore out.old.writer out.new.writer) }
    ensures refused { (f : Refusal) → result ≡ Err (ReadError.Refused f) → (more : Reading Members)
        → one_member (flow_value depth) more (key_scalar true text.now) ≡ None }
{
    let rest = write_key(out, text)?;
    let (colon, value) = at_colon(skip(true, rest));
    let rest = write_value_behind(out, depth, colon, value)?;
    end_member(out, begin, text.len(), colon, pass(rest))
}

// Whether a colon follows a key in braces, and what stands behind it.
fn at_colon(text: &str) -> (bool, &str)
    ensures { (result.0, result.1.now) ≡ at_colon text.now }
{
    match text.as_bytes() {
        [b':', ..] => (true, tail(text)),
        _ => (false, text),
    }
}

// Writes the value of a key, which is null where none stands.
#[cycle(value)]
fn write_value_behind<'a>(
    out: &mut Output,
    depth: usize,
    colon: bool,
    text: &'a str,
) -> Result<&'a str, ReadError>
    ensures ok { IfOk result (λ rest. written out.old.writer.tokens
        (value_behind (flow_value depth) colon text.now) ≡ Some (out.new.writer.tokens, rest.now)) }
    ensures before { IfOk result (λ rest. KeepsBefore out.old.writer out.new.writer) }
    ensures refused { (f : Refusal) → result ≡ Err (ReadError.Refused f)
        → value_behind (flow_value depth) colon text.now ≡ None }
{
    if !colon {
        out.writer.null()?;
        return Ok(text);
    }
    let value = pass(text);
    if ends_member(value.as_bytes()) {
        out.writer.null()?;
        return Ok(value);
    }
    write_flow(out, depth, value)
}

// Whether a comma or the closing brace stands here.
fn ends_member(bytes: &[u8]) -> bool
    ensures { result ≡ ends_member bytes.now }
{
    begins_with(b',', bytes) || begins_with(b'}', bytes)
}

// Writes a key in braces, and returns what follows it.
fn write_key<'a>(out: &mut Output, text: &'a str) -> Result<&'a str, ReadError>
    ensures ok { IfOk result (λ rest. MatchOption (key_scalar true text.now) (⊥)
        (λ k. (out.new.writer.tokens ≡ out.old.writer.tokens ++ key k.0 ∷ []) × (rest.now ≡ k.1))) }
    ensures before { IfOk result (λ rest. KeepsBefore out.old.writer out.new.writer) }
    ensures refused { (f : Refusal) → result ≡ Err (ReadError.Refused f)
        → key_scalar true text.now ≡ None }
{
    let mut name = room_for(out.alloc, text)?;
    let rest = match read_key(&mut name, true, text) {
        Ok(rest) => rest,
        Err(error) => return Err(in_key(error, text)),
    };
    out.keys.push(Place {
        line: 0,
        left: text.len(),
    })?;
    out.writer.key(name.as_str())?;
    Ok(rest)
}

// A quote that isn't closed on the line of a key goes on over lines.
fn in_key(error: ReadError, text: &str) -> ReadError
    ensures { (f : Refusal) → result ≡ ReadError.Refused f → IsRefused error }
{
    match error {
        ReadError::Refused(refusal) => {
            if refusal.kind == FaultKind::Unclosed {
                return Refusal::here(FaultKind::KeyOverLines, text);
            }
            error
        }
        ReadError::OutOfMemory => error,
    }
}

// What follows a member: a comma, or the closing bracket, which is written.
fn end_member<'a>(
    out: &mut Output,
    begin: usize,
    key: usize,
    colon: bool,
    text: &'a str,
) -> Result<Passage<'a>, ReadError>
    ensures ok { IfOk result
        (λ p. MemberEnded p out.old.writer.tokens out.new.writer.tokens text.now) }
    ensures before { IfOk result (λ p. KeepsBefore out.old.writer out.new.writer) }
    ensures refused { (f : Refusal) → result ≡ Err (ReadError.Refused f)
        → (more : Reading Members) → (k : List ℕ) → (j : Json)
        → member_behind more k j text.now ≡ None }
{
    match text.as_bytes() {
        [] => Err(Refusal::at(FaultKind::Unclosed, begin)),
        [b',', ..] => Ok(Passage::More(tail(text))),
        [b'}', ..] => {
            out.writer.end_object()?;
            Ok(Passage::Last(tail(text)))
        }
        [b':', ..] if colon => Err(Refusal::here(FaultKind::NestedKey, text)),
        _ => {
            if colon {
                return Err(Refusal::here(FaultKind::Flow, text));
            }
            Err(Refusal::at(FaultKind::KeyOverLines, key))
        }
    }
}
