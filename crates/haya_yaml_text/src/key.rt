//! Keys.
ghost use Rattle.std.specs.Prelude.{◌≡◌, ◌<◌, drop, length, option_map, string_bytes, [], IfOk};
ghost use Rattle.std.specs.Prelude.{Err, None, Some, false};
ghost use Rattle.haya_yaml_text.specs.Scalars.{behind, scalar_of};
ghost use Rattle.haya_yaml_text.specs.Keys.{IsPlainKey, key, key_scalar, plain_style};
ghost use Rattle.haya_yaml_text.specs.Keys.{unmerged};

use crate::fault::{FaultKind, ReadError, Refusal};
use crate::scalar::{Style, plain_length, read_scalar};
use crate::white::{begins_plain, ends_key, tail};

// How a plain scalar is written, in brackets or not.
fn plain_style(flow: bool) -> Style
    ensures { result ≡ plain_style flow }
{
    if flow {
        Style::PlainInBrackets
    } else {
        Style::Plain
    }
}

/// The fault of a sign that begins no key, and no value in brackets.
pub(crate) fn begin_fault(text: &str) -> ReadError {
    let kind = match text.as_bytes() {
        [b'&', ..] => FaultKind::Anchor,
        [b'*', ..] => FaultKind::Alias,
        [b'!', ..] => FaultKind::Tag,
        [b'?', ..] => FaultKind::ExplicitKey,
        [b':', ..] => FaultKind::EmptyKey,
        [b',' | b']' | b'}', ..] => FaultKind::Flow,
        _ => FaultKind::Indicator,
    };
    Refusal::here(kind, text)
}

/// What is seen of the key that begins a line, without brackets, in the signs that stand for
/// themselves.
#[derive(Clone, Copy, Drop)]
pub enum PlainKey<'a> {
    /// The key, and what stands behind its colon.
    Found(&'a str, &'a str),
    /// There is no key.
    Missing,
    /// These signs don't tell.
    Unclear,
}

/// The key that begins a line, where its signs tell it as they are: then it needs no memory. How
/// often they do is no part of the contract.
pub fn plain_key(text: &str) -> PlainKey<'_>
    ensures { IsPlainKey text.now result }
{
    if !begins_plain(false, text.as_bytes()) {
        return PlainKey::Unclear;
    }
    let (name, rest) = text.split_at(plain_length(Style::Plain, text.as_bytes()));
    if rest.is_empty() {
        return PlainKey::Missing;
    }
    if name == "<<" || !ends_key(false, rest.as_bytes()) {
        return PlainKey::Unclear;
    }
    PlainKey::Found(name, tail(rest))
}

/// Reads the scalar on one line that a key is, in brackets or not, and returns what follows it.
/// The name is empty before.
///
/// `Refused`: no key begins the text, or it is `<<`. `OutOfMemory`: there was no memory for the
/// name.
pub fn read_key<'a>(name: &mut String, flow: bool, text: &'a str) -> Result<&'a str, ReadError>
    requires { string_bytes name.old ≡ [] }
    ensures ok { IfOk result (λ rest. key_scalar flow text.now
        ≡ Some (string_bytes name.new, rest.now)) }
    ensures refused { (f : Refusal) → result ≡ Err (ReadError.Refused f)
        → key_scalar flow text.now ≡ None }
{
    match text.as_bytes() {
        [] => Err(Refusal::here(FaultKind::Unclosed, text)),
        [b'"', ..] => read_scalar(name, false, Style::DoubleQuoted, tail(text)),
        [b'\'', ..] => read_scalar(name, false, Style::SingleQuoted, tail(text)),
        bytes => {
            if !begins_plain(flow, bytes) {
                return Err(begin_fault(text));
            }
            read_plain_key(name, flow, text)
        }
    }
}

fn read_plain_key<'a>(name: &mut String, flow: bool, text: &'a str) -> Result<&'a str, ReadError>
    requires { string_bytes name.old ≡ [] }
    ensures ok { IfOk result (λ rest. unmerged (scalar_of false (plain_style flow) text.now)
        ≡ Some (string_bytes name.new, rest.now)) }
    ensures refused { (f : Refusal) → result ≡ Err (ReadError.Refused f)
        → unmerged (scalar_of false (plain_style flow) text.now) ≡ None }
{
    let rest = read_scalar(name, false, plain_style(flow), text)?;
    if name.as_str() == "<<" {
        return Err(Refusal::here(FaultKind::MergeKey, text));
    }
    Ok(rest)
}
