//! Values that are no list and no map over lines.
ghost use Rattle.std.specs.Prelude.{◌≡◌, ◌++◌, drop, length, option_map, string_bytes, OnOk, IfOk};
ghost use Rattle.std.specs.Prelude.{Err, None, Some, if◌then◌else◌};
ghost use Rattle.haya_yaml_text.specs.Faults.{IsRefused};
ghost use Rattle.haya_yaml_text.specs.Flow.{flow_value, plain, whole};
ghost use Rattle.haya_yaml_text.specs.Signs.{begins_plain};
ghost use Rattle.haya_yaml_text.specs.Writing.{KeepsBefore};
ghost use Rattle.haya_yaml_text.specs.declared.scalar.Style.TheVariants as Style;
ghost use Rattle.haya_yaml.specs.Block.{form_of, value};
ghost use Rattle.haya_yaml.specs.Line.{joined, texts};
ghost use Rattle.haya_yaml.specs.Saying.{said};
ghost use Rattle.haya_yaml.specs.Values.{flat};

use crate::line::{are_deeper, fault, is_deeper, is_skipped, joined};
use crate::literal::write_block;
use haya_yaml_text::fault::{FaultKind, ReadError, Refusal};
use haya_yaml_text::flow::{write_flow, write_plain};
use haya_yaml_text::output::{Output, Place};
use haya_yaml_text::scalar::Style;
use haya_yaml_text::white::{begins_plain, blanks, pass, skip};

/// How a value on a line is written.
#[derive(Clone, Copy, Debug, Drop, PartialEq, Eq)]
pub enum Form {
    /// In brackets.
    Bracket,
    /// In quotes.
    Quote,
    /// As a block scalar.
    Block,
    /// As a plain scalar.
    Bare,
}

// What begins here.
fn form_of(text: &str) -> Form
    ensures { result ≡ form_of text.now }
{
    match text.as_bytes() {
        [b'[' | b'{', ..] => Form::Bracket,
        [b'"' | b'\'', ..] => Form::Quote,
        [b'|' | b'>', ..] => Form::Block,
        _ => Form::Bare,
    }
}

// What stands behind the end of a value.
fn behind_fault(bare: bool, text: &str) -> ReadError {
    let kind = match text.as_bytes() {
        [b':', ..] if bare => FaultKind::NestedKey,
        _ => FaultKind::Behind,
    };
    Refusal::here(kind, text)
}

// Writes a value in brackets or quotes, or a plain scalar, behind which nothing stands.
fn write_whole(out: &mut Output, bare: bool, depth: usize, text: &str) -> Result<(), ReadError>
    ensures ok { OnOk result (said out.old.writer.tokens (flat bare depth text.now)
        ≡ Some out.new.writer.tokens) }
    ensures before { OnOk result (KeepsBefore out.old.writer out.new.writer) }
    ensures refused { (f : Refusal) → result ≡ Err (ReadError.Refused f)
        → flat bare depth text.now ≡ None }
{
    let rest = if bare {
        write_plain(out, Style::Plain, text)?
    } else {
        write_flow(out, depth, text)?
    };
    let more = pass(rest);
    if !more.is_empty() {
        return Err(behind_fault(bare, more));
    }
    Ok(())
}

/// A place in a text that is walked from its end: how many bytes are left there, the number of its
/// line, and how many bytes are left at the end of that line.
#[derive(Clone, Copy, Drop)]
pub(crate) struct Walk {
    left: usize,
    line: usize,
    end: usize,
}

/// The end of a text whose first line has this number.
pub(crate) fn last(head: usize, text: &str) -> Walk {
    let mut line = head;
    'bytes: for byte in text.as_bytes() {
        if *byte == b'\n' {
            line = line.saturating_add(1);
        }
    }
    Walk {
        left: 0,
        line,
        end: 0,
    }
}

/// The place of a walk over a text where so many bytes are left.
pub(crate) fn walk_to(walk: Walk, left: usize, text: &str) -> Walk {
    let bytes = text.as_bytes();
    let mut at = walk;
    'bytes: while at.left < left && at.left < bytes.len() {
        at.left += 1;
        if bytes[bytes.len() - at.left] == b'\n' {
            at.line = at.line.saturating_sub(1);
            at.end = at.left;
        }
    }
    at
}

impl Walk {
    /// The place in its line.
    pub(crate) fn place(&self) -> Place {
        Place {
            line: self.line,
            left: self.left.saturating_sub(self.end),
        }
    }
}

// A fault in a text with its own lines, whose first line has this number.
fn settled(error: ReadError, head: usize, text: &str) -> ReadError
    ensures { (f : Refusal) → result ≡ ReadError.Refused f → IsRefused error }
{
    match error {
        ReadError::Refused(refusal) => {
            let place = walk_to(last(head, text), refusal.left, text).place();
            ReadError::Refused(Refusal {
                kind: refusal.kind,
                line: place.line,
                left: place.left,
            })
        }
        ReadError::OutOfMemory => error,
    }
}

// Writes a value whose text has lines behind it.
fn write_flat(
    out: &mut Output,
    bare: bool,
    depth: usize,
    head: usize,
    text: &str,
) -> Result<(), ReadError>
    ensures ok { OnOk result (said out.old.writer.tokens (flat bare depth text.now)
        ≡ Some out.new.writer.tokens) }
    ensures before { OnOk result (KeepsBefore out.old.writer out.new.writer) }
    ensures refused { (f : Refusal) → result ≡ Err (ReadError.Refused f)
        → flat bare depth text.now ≡ None }
{
    let before = out.keys.len();
    match write_whole(out, bare, depth, text) {
        Ok(()) => {
            settle_keys(&mut out.keys, before, head, text);
            Ok(())
        }
        Err(error) => Err(settled(error, head, text)),
    }
}

// Gives the keys of a text with its own lines their places.
fn settle_keys(keys: &mut Vec<Place>, before: usize, head: usize, text: &str) {
    if keys.len() == before {
        return;
    }
    let mut walk = last(head, text);
    let mut index = keys.len();
    'keys: while index > before {
        index -= 1;
        walk = walk_to(walk, keys[index].left, text);
        keys[index] = walk.place();
    }
}

// Writes a value with the lines behind its text.
fn write_joined(
    out: &mut Output,
    bare: bool,
    depth: usize,
    head: usize,
    text: &str,
    lines: &[&str],
) -> Result<(), ReadError>
    ensures ok { OnOk result (said out.old.writer.tokens
        (flat bare depth (joined text.now (texts lines.now))) ≡ Some out.new.writer.tokens) }
    ensures before { OnOk result (KeepsBefore out.old.writer out.new.writer) }
    ensures refused { (f : Refusal) → result ≡ Err (ReadError.Refused f)
        → flat bare depth (joined text.now (texts lines.now)) ≡ None }
{
    if lines.is_empty() {
        write_flat(out, bare, depth, head, text)?;
        return Ok(());
    }
    let all = joined(out.alloc, text, lines)?;
    write_flat(out, bare, depth, head, all.as_str())?;
    Ok(())
}

// The first line that isn't indented deeper than the entry: a quote may not go on there.
fn shallow(edge: Option<usize>, form: Form, head: usize, text: &str, lines: &[&str]) -> ReadError {
    if form == Form::Quote {
        return fault(FaultKind::Unclosed, head, text);
    }
    let mut number = head;
    'lines: for line in lines {
        number = number.saturating_add(1);
        if !is_skipped(line) && !is_deeper(edge, blanks(false, line)) {
            return fault(FaultKind::Indent, number, skip(false, line));
        }
    }
    fault(FaultKind::Indent, head, text)
}

// What a sign is that begins no value.
fn value_fault(head: usize, text: &str) -> ReadError {
    let kind = match text.as_bytes() {
        [b'&', ..] => FaultKind::Anchor,
        [b'*', ..] => FaultKind::Alias,
        [b'!', ..] => FaultKind::Tag,
        [b'-', ..] => FaultKind::Indent,
        [b'\t', ..] => FaultKind::Tab,
        _ => FaultKind::Indicator,
    };
    fault(kind, head, text)
}

/// Writes a value that is no list and no map over lines: its text, which appears in the line of
/// this number, and the lines behind it.
///
/// `Refused`: they are no such value. `OutOfMemory`: there was no memory for it.
pub(crate) fn write_value(
    out: &mut Output,
    depth: usize,
    edge: Option<usize>,
    head: usize,
    text: &str,
    lines: &[&str],
) -> Result<(), ReadError>
    ensures ok { OnOk result (said out.old.writer.tokens
        (value depth edge text.now (texts lines.now)) ≡ Some out.new.writer.tokens) }
    ensures before { OnOk result (KeepsBefore out.old.writer out.new.writer) }
    ensures refused { (f : Refusal) → result ≡ Err (ReadError.Refused f)
        → value depth edge text.now (texts lines.now) ≡ None }
{
    let form = form_of(text);
    if form != Form::Bracket && !are_deeper(edge, lines) {
        return Err(shallow(edge, form, head, text, lines));
    }
    match form {
        Form::Bracket | Form::Quote => write_joined(out, false, depth, head, text, lines),
        Form::Block => write_block(out, edge, head, text, lines),
        Form::Bare => {
            if !begins_plain(false, text.as_bytes()) {
                return Err(value_fault(head, text));
            }
            write_joined(out, true, depth, head, text, lines)
        }
    }
}
