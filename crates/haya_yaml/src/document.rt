//! The document of a text.
ghost use Rattle.std.specs.Prelude.{◌≡◌, ◌&&◌, ◌||◌, ◌<◌, ◌≤◌, ◌∷◌, length, take, drop, option_map};
ghost use Rattle.std.specs.Prelude.{IfOk, OnOk, MatchOption, Ok, Err, None, Some, true, false};
ghost use Rattle.haya_yaml_text.specs.Writing.{KeepsBefore};
ghost use Rattle.haya_yaml.specs.Documents.{are_ended, behind_mark, behind_sign, behind_start};
ghost use Rattle.haya_yaml.specs.Documents.{behind_stop, body, document_of, document_value};
ghost use Rattle.haya_yaml.specs.Documents.{is_clear, is_clear_behind, is_clear_if};
ghost use Rattle.haya_yaml.specs.Documents.{is_digit, is_directive};
ghost use Rattle.haya_yaml.specs.Documents.{is_version, is_version_if, started, with_front};
ghost use Rattle.haya_yaml.specs.Line.{is_skipped, texts};
ghost use Rattle.haya_yaml.specs.Saying.{said};

use crate::block::write_lines;
use crate::line::{fault, is_skipped};
use crate::value::write_value;
use haya_yaml_text::fault::{FaultKind, ReadError, Refusal};
use haya_yaml_text::output::Output;
use haya_yaml_text::white::{begins_with, is_end, is_gap, skip, tail};

// What follows this sign, where it stands here.
fn behind_sign(sign: u8, text: &str) -> Option<&str>
    requires { sign < 128 }
    ensures { option_map (λ t. t.now) result ≡ behind_sign sign text.now }
{
    match text.as_bytes() {
        [] => None,
        [byte, ..] => {
            if *byte != sign {
                return None;
            }
            Some(tail(text))
        }
    }
}

// What follows three of this sign that stand before a gap.
fn behind_mark(sign: u8, line: &str) -> Option<&str>
    requires { sign < 128 }
    ensures { option_map (λ t. t.now) result ≡ behind_mark sign line.now }
{
    let two = behind_sign(sign, line)?;
    let one = behind_sign(sign, two)?;
    let rest = behind_sign(sign, one)?;
    if is_gap(rest.as_bytes()) {
        Some(rest)
    } else {
        None
    }
}

/// What follows `---` on a line that begins a document, or `None` on another.
pub(crate) fn behind_start(line: &str) -> Option<&str>
    ensures { option_map (λ t. t.now) result ≡ behind_start line.now }
{
    behind_mark(b'-', line)
}

/// What follows `...` on a line that ends a document, or `None` on another.
pub(crate) fn behind_stop(line: &str) -> Option<&str>
    ensures { option_map (λ t. t.now) result ≡ behind_stop line.now }
{
    behind_mark(b'.', line)
}

fn is_digit(byte: u8) -> bool
    ensures { result ≡ is_digit byte }
{
    b'0' <= byte && byte <= b'9'
}

/// Whether nothing stands here but a comment.
pub(crate) fn is_clear(text: &str) -> bool
    ensures { result ≡ is_clear text.now }
{
    is_gap(text.as_bytes()) && is_end(skip(true, text))
}

// Whether nothing stands behind digits.
#[tactic(auto, unfolding(crate::specs::Documents::is_clear_behind))]
fn is_clear_behind(text: &str) -> bool
    ensures { result ≡ is_clear_behind text.now }
{
    let mut rest = text;
    'digits: loop {
        match rest.as_bytes() {
            [] => return true,
            [byte, ..] => {
                if !is_digit(*byte) {
                    return is_clear(rest);
                }
            }
        }
        rest = tail(rest);
    }
}

fn is_version(text: &str) -> bool
    ensures { result ≡ is_version text.now }
{
    match text.as_bytes() {
        [] => false,
        [byte, ..] => {
            if !is_digit(*byte) {
                return false;
            }
            is_clear_behind(tail(text))
        }
    }
}

// What follows `%YAML 1.`, where a line begins so.
fn behind_directive(line: &str) -> Option<&str>
    ensures { is_version_if (option_map (λ t. t.now) result) ≡ is_directive line.now }
{
    let rest = behind_sign(b'%', line)?;
    let rest = behind_sign(b'Y', rest)?;
    let rest = behind_sign(b'A', rest)?;
    let rest = behind_sign(b'M', rest)?;
    let rest = behind_sign(b'L', rest)?;
    let rest = behind_sign(b' ', rest)?;
    let rest = behind_sign(b'1', rest)?;
    behind_sign(b'.', rest)
}

/// Whether a line is a directive that is read.
pub(crate) fn is_directive(line: &str) -> bool
    ensures { result ≡ is_directive line.now }
{
    match behind_directive(line) {
        None => false,
        Some(rest) => is_version(rest),
    }
}

// Whether nothing but what ends a document stands on a line.
fn is_ended(line: &str) -> bool
    ensures { result ≡ (is_skipped line.now || is_clear_if (behind_stop line.now)) }
{
    if is_skipped(line) {
        return true;
    }
    match behind_stop(line) {
        None => false,
        Some(rest) => is_clear(rest),
    }
}

/// Whether nothing but what ends a document stands on the lines.
pub(crate) fn are_ended(lines: &[&str]) -> bool
    ensures { result ≡ are_ended (texts lines.now) }
{
    'lines: for line in lines {
        if !is_ended(line) {
            return false;
        }
    }
    true
}

// A line behind the end of a document on which something stands.
fn second(number: usize, line: &str) -> ReadError {
    match behind_stop(line) {
        Some(rest) => fault(FaultKind::Behind, number, skip(true, rest)),
        None => fault(FaultKind::SecondDocument, number, skip(false, line)),
    }
}

// The first of the lines behind the end of a document on which something stands.
fn first_behind(number: usize, lines: &[&str]) -> ReadError {
    let mut at = number;
    'lines: for line in lines {
        at = at.saturating_add(1);
        if !is_ended(line) {
            return second(at, line);
        }
    }
    fault(FaultKind::SecondDocument, number, "")
}

// Whether nothing stands behind the mark of this line, and but marks on the lines behind it.
fn end_document(number: usize, rest: &str, lines: &[&str]) -> Result<(), ReadError>
    ensures ok { OnOk result ((is_clear rest.now && are_ended (texts lines.now)) ≡ true) }
    ensures refused { (f : Refusal) → result ≡ Err (ReadError.Refused f)
        → (is_clear rest.now && are_ended (texts lines.now)) ≡ false }
{
    if !is_clear(rest) {
        return Err(fault(FaultKind::Behind, number, skip(true, rest)));
    }
    if !are_ended(lines) {
        return Err(first_behind(number, lines));
    }
    Ok(())
}

// How many of the lines behind the line of this number belong to the document.
fn body_len(head: usize, lines: &[&str]) -> Result<usize, ReadError>
    ensures ok { IfOk result (λ n. body (texts lines.now) ≡ Some (texts (take n lines.now))) }
    ensures within { IfOk result (λ n. n ≤ length lines.now) }
    ensures refused { (f : Refusal) → result ≡ Err (ReadError.Refused f)
        → body (texts lines.now) ≡ None }
{
    let mut count = 0;
    'lines: while count < lines.len() {
        let line = lines[count];
        let number = head.saturating_add(count).saturating_add(1);
        if behind_start(line).is_some() {
            return Err(fault(FaultKind::SecondDocument, number, line));
        }
        if let Some(rest) = behind_stop(line) {
            let (_, more) = lines.split_at(count + 1);
            end_document(number, rest, more)?;
            return Ok(count);
        }
        count += 1;
    }
    Ok(count)
}

/// A document.
#[derive(Clone, Copy, Drop)]
pub(crate) struct Document<'l, 'a> {
    /// The number of the line before its lines, or 0 where they are all.
    pub(crate) head: usize,
    /// What stands behind `---` on that line, or nothing without it.
    pub(crate) front: &'a str,
    /// Its lines.
    pub(crate) lines: &'l [&'a str],
}

// The document whose lines stand behind the line of this number.
fn document_behind<'l, 'a>(
    head: usize,
    front: &'a str,
    lines: &'l [&'a str],
) -> Result<Document<'l, 'a>, ReadError>
    ensures ok { IfOk result (λ d. with_front front.now (body (texts lines.now))
        ≡ Some (record { front = d.front.now; lines = texts d.lines.now })) }
    ensures refused { (f : Refusal) → result ≡ Err (ReadError.Refused f)
        → with_front front.now (body (texts lines.now)) ≡ None }
{
    let (own, _) = lines.split_at(body_len(head, lines)?);
    Ok(Document {
        head,
        front,
        lines: own,
    })
}

/// The document of lines. `Refused`: they aren't one, as where a second begins or a directive isn't
/// read.
pub(crate) fn find_document<'l, 'a>(lines: &'l [&'a str]) -> Result<Document<'l, 'a>, ReadError>
    ensures ok { IfOk result (λ d. document_of false (texts lines.now)
        ≡ Some (record { front = d.front.now; lines = texts d.lines.now })) }
    ensures refused { (f : Refusal) → result ≡ Err (ReadError.Refused f)
        → document_of false (texts lines.now) ≡ None }
{
    let mut told = false;
    let mut place = 0;
    'lines: while place < lines.len() {
        let line = lines[place];
        if !is_skipped(line) {
            if !begins_with(b'%', line.as_bytes()) {
                let (_, from) = lines.split_at(place);
                let (_, behind) = lines.split_at(place + 1);
                return start_document(told, place, line, from, behind);
            }
            if !is_directive(line) || told {
                return Err(fault(FaultKind::Directive, place.saturating_add(1), line));
            }
            told = true;
        }
        place += 1;
    }
    if told {
        return Err(fault(FaultKind::Directive, place.saturating_add(1), ""));
    }
    let (_, none) = lines.split_at(place);
    document_behind(place, "", none)
}

// The document that begins with a line, which stands behind so many: all lines from it on, or
// those behind it.
fn start_document<'l, 'a>(
    told: bool,
    before: usize,
    line: &'a str,
    from: &'l [&'a str],
    behind: &'l [&'a str],
) -> Result<Document<'l, 'a>, ReadError>
    requires { texts from.now ≡ line.now ∷ texts behind.now }
    ensures ok { IfOk result (λ d. started (behind_start line.now) told line.now (texts behind.now)
        ≡ Some (record { front = d.front.now; lines = texts d.lines.now })) }
    ensures refused { (f : Refusal) → result ≡ Err (ReadError.Refused f)
        → started (behind_start line.now) told line.now (texts behind.now) ≡ None }
{
    match behind_start(line) {
        Some(front) => document_behind(before.saturating_add(1), front, behind),
        None => {
            if told {
                return Err(fault(FaultKind::Directive, before.saturating_add(1), line));
            }
            document_behind(before, "", from)
        }
    }
}

/// Writes what a document says. `Refused`: it says no value. `OutOfMemory`: there was no memory for
/// it.
pub(crate) fn write_document(out: &mut Output, document: Document<'_, '_>) -> Result<(), ReadError>
    ensures ok { OnOk result (said out.old.writer.tokens (document_value
        (record { front = document.entry.front.now; lines = texts document.entry.lines.now }))
        ≡ Some out.new.writer.tokens) }
    ensures before { OnOk result (KeepsBefore out.old.writer out.new.writer) }
    ensures refused { (f : Refusal) → result ≡ Err (ReadError.Refused f) → document_value
        (record { front = document.entry.front.now; lines = texts document.entry.lines.now })
        ≡ None }
{
    let value = skip(true, document.front);
    if is_end(value) {
        write_lines(out, document.head, document.lines)?;
        return Ok(());
    }
    write_value(out, 128, None, document.head, value, document.lines)?;
    Ok(())
}
