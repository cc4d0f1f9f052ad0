//! The items of a text.
ghost use Rattle.std.specs.Prelude.{◌≡◌, ◌≤◌, ◌<◌, ◌∷◌, [], List, Ok, Err, IfOk, IfErr, IfNone};
ghost use Rattle.std.specs.Prelude.{IfSome, length};
ghost use Rattle.haya_bibtex_text.specs.ItemViews.{item_view};
ghost use Rattle.haya_bibtex_text.specs.Items.{Fails, FailsItem, IsItem, RawItem, Says};
ghost use Rattle.haya_bibtex_text.specs.Items.{key_at, comment_at};
ghost use Rattle.haya_bibtex_text.specs.Stops.{StopsBy};
ghost use Rattle.haya_bibtex_text.specs.declared.fault.Refusal.{Refusal as FirstFault};

use crate::blanks::behind_blank;
use crate::classes::Class;
use crate::fault::{FaultKind, Refusal, Stop, stop_at};
use crate::fields::{Front, WrittenField, front_of, read_fields};
use crate::groups::{End, end_of};
use crate::opening::{behind_at, is_remark, is_skipped, is_strings, read_opening};
use std::alloc::Global;

/// An entry as it is written: its type, its key, and its fields in order.
#[derive(Drop)]
pub(crate) struct WrittenEntry<'a> {
    pub(crate) kind: &'a [char],
    pub(crate) key: &'a [char],
    pub(crate) fields: Vec<WrittenField<'a>>,
}

/// An item of a text.
#[derive(Drop)]
pub(crate) enum Item<'a> {
    /// A sign `@` that begins no entry.
    Sign,
    /// Fields that define strings.
    Strings(Vec<WrittenField<'a>>),
    /// An entry.
    Entry(WrittenEntry<'a>),
}

// The key, and what is left behind it and a blank.
fn read_key<'a>(
    entry: usize,
    close: char,
    text: &'a [char],
) -> Result<(&'a [char], &'a [char]), Refusal>
    ensures ok { IfOk result (λ p. key_at entry close text.now ≡ Ok (p.0.now, p.1.now)) }
    ensures fault { IfErr result (λ f. key_at entry close text.now ≡ Err f) }
    ensures shorter { IfOk result (λ p. length p.1.now ≤ length text.now) }
{
    if text.is_empty() {
        return Err(Refusal {
            kind: FaultKind::Open,
            left: entry,
        });
    }
    let count = Class::Key(close).prefix_len(text);
    if count == 0 {
        return Err(Refusal {
            kind: FaultKind::Key,
            left: text.len(),
        });
    }
    let (key, behind) = text.split_at(count);
    Ok((key, behind_blank(behind)))
}

// How many characters a comment or a preamble has, and what is left behind it.
fn skip<'a>(entry: usize, close: char, text: &'a [char]) -> Result<(usize, &'a [char]), Refusal>
    ensures ok { IfOk result (λ p. comment_at entry close text.now ≡ Ok (p.0, p.1.now)) }
    ensures fault { IfErr result (λ f. comment_at entry close text.now ≡ Err f) }
    ensures shorter { IfOk result (λ p. length p.1.now ≤ length text.now) }
{
    match end_of(close, text) {
        End::Closed(count) => Ok((count, &text[count + 1..])),
        End::Stray(count) => Err(Refusal {
            kind: FaultKind::Brace,
            left: text.len() - count,
        }),
        End::Nowhere => Err(Refusal {
            kind: FaultKind::Open,
            left: entry,
        }),
    }
}

// The item behind an opening bracket and a blank, and what is left behind it.
fn read_item<'a>(
    alloc: Global,
    entry: usize,
    close: char,
    kind: &'a [char],
    text: &'a [char],
) -> Result<(Item<'a>, &'a [char]), Stop>
    ensures ok { IfOk result (λ v. IsItem entry close kind.now text.now (item_view v.0) v.1.now) }
    ensures fault { IfErr result (StopsBy (FailsItem entry close kind.now text.now)) }
    ensures shorter { IfOk result (λ v. length v.1.now < length text.now) }
{
    if is_strings(kind) {
        return match read_fields(alloc, entry, close, text) {
            Ok((fields, rest)) => Ok((Item::Strings(fields), rest)),
            Err(stop) => Err(stop),
        };
    }
    let (key, left) = match read_key(entry, close, text) {
        Ok(read) => read,
        Err(fault) => return Err(Stop::Refused(fault)),
    };
    match front_of(close, left) {
        Front::Ended(rest) => {
            let fields = Vec::new(alloc);
            Ok((Item::Entry(WrittenEntry { kind, key, fields }), rest))
        }
        Front::More(next) => match read_fields(alloc, entry, close, next) {
            Ok((fields, rest)) => Ok((Item::Entry(WrittenEntry { kind, key, fields }), rest)),
            Err(stop) => Err(stop),
        },
        Front::Nothing => Err(stop_at(FaultKind::Open, entry)),
        Front::Other => Err(stop_at(FaultKind::Comma, left.len())),
    }
}

/// The next item of a text, and what is left behind it. Nothing where there is none.
pub(crate) fn next_item<'a>(
    alloc: Global,
    text: &'a [char],
) -> Result<Option<(Item<'a>, &'a [char])>, Stop>
    ensures item { IfOk result (λ o. IfSome o (λ v. (is : List RawItem) →
        Says v.1.now is → Says text.now (item_view v.0 ∷ is))) }
    ensures behind { IfOk result (λ o. IfSome o (λ v. (f : FirstFault) →
        Fails v.1.now f → Fails text.now f)) }
    ensures none { IfOk result (λ o. IfNone o (Says text.now [])) }
    ensures fault { IfErr result (StopsBy (Fails text.now)) }
    ensures shorter { IfOk result (λ o. IfSome o (λ v. length v.1.now < length text.now)) }
{
    let mut left = text;
    'items: loop {
        let Some(next) = behind_at(left) else {
            return Ok(None);
        };
        let Some(opening) = read_opening(next) else {
            if !is_remark(next) {
                return Ok(Some((Item::Sign, next)));
            }
            left = next;
            continue 'items;
        };
        let entry = next.len() + 1;
        if is_skipped(opening.kind) {
            match skip(entry, opening.close, opening.rest) {
                Ok((_, rest)) => left = rest,
                Err(fault) => return Err(Stop::Refused(fault)),
            }
            continue 'items;
        }
        let inside = behind_blank(opening.rest);
        return match read_item(alloc, entry, opening.close, opening.kind, inside) {
            Ok((item, rest)) => Ok(Some((item, rest))),
            Err(stop) => Err(stop),
        };
    }
}
