//! The elements of an input asked one after another, as they are read.
ghost use Rattle.std.specs.Prelude.{◌≡◌, ◌⊎◌, ◌++◌, ◌<◌, ◌↔◌, [], ℕ, List, IfErr, IfOk, IsTrue};
ghost use Rattle.std.specs.Prelude.{OnErr, OnOk};
ghost use Rattle.std.specs.Io.KnownBytes.{Appends};
ghost use Rattle.haya_parts.specs.Divided.{Begins, IsRefused};
ghost use Rattle.haya_source_stream.specs.Asked.{AsksFirst, AsksPart, AsksSource};
ghost use Rattle.haya_source_stream.specs.Parts.{AreParts, BeginParts, IsRefusedPart};
ghost use Rattle.haya_source_stream.specs.Printed.{last_text};

use crate::asker::SourceAsker;
use crate::error::PartError;
use crate::kind::StreamedKind;
use crate::printing::last;
use haya_line_slices::EntryParts;
use haya_line_stream::{StreamError, write_text};
use haya_parts::{Divider, InCurly, InSquare, LineParts, ListParts, answer_parts};
use std::io::{Read, Write};

/// Asks each element of the input as it is read, and prints those of the hits that are asked for, as
/// they are in it. No more is read than it takes to find as many as are wanted, or, where nothing is
/// printed, one. Keys that come again are not looked for: each element is asked.
///
/// At a fault the elements in front of it are asked, and those of their hits stay printed.
pub fn ask_elements<R: Read, W: Write>(
    asker: &mut SourceAsker<'_>,
    input: &mut R,
    out: &mut W,
) -> Result<(), StreamError<PartError>>
    ensures asks { OnOk result (
        AsksSource asker.old.asking asker.old.hits asker.new (R.remaining input.old)
        (R.remaining input.new) (W.contents out.old) (W.contents out.new)
        ⊎ AsksFirst asker.old.asking asker.old.hits asker.new (R.remaining input.old)
        (R.remaining input.new) (W.contents out.old) (W.contents out.new)) }
    ensures part { IfErr result (AsksPart asker.old.asking asker.old.hits asker.new
        (R.remaining input.old) (R.remaining input.new) (W.contents out.old) (W.contents out.new)) }
{
    match asker.asking.kind {
        StreamedKind::Items(_) => ask_parts(asker, ListParts::<InSquare>::new(), input, out),
        StreamedKind::Members => ask_parts(asker, ListParts::<InCurly>::new(), input, out),
        StreamedKind::JsonLines => ask_parts(asker, LineParts::new(), input, out),
        StreamedKind::Lines => ask_parts(asker, EntryParts::new(), input, out),
    }
}

// Asks each part of the input.
fn ask_parts<D: Divider + Drop, R: Read, W: Write>(
    asker: &mut SourceAsker<'_>,
    divider: D,
    input: &mut R,
    out: &mut W,
) -> Result<(), StreamError<PartError>>
    requires begins { Begins D.divides divider [] [] [] }
    requires whole { (text : List ℕ) (parts : List (List ℕ)) → D.are_parts divider text parts →
        AreParts asker.old.asking.kind text parts }
    requires begin { (d : D) (taken held : List ℕ) (parts : List (List ℕ)) →
        Begins D.divides d taken parts held → BeginParts asker.old.asking.kind taken parts held }
    requires refused { (d : D) (held part : List ℕ) → IsRefused D.divides D.are_parts d held part →
        IsRefusedPart asker.old.asking.kind held part }
    ensures asks { OnOk result (
        AsksSource asker.old.asking asker.old.hits asker.new (R.remaining input.old)
        (R.remaining input.new) (W.contents out.old) (W.contents out.new)
        ⊎ AsksFirst asker.old.asking asker.old.hits asker.new (R.remaining input.old)
        (R.remaining input.new) (W.contents out.old) (W.contents out.new)) }
    ensures part { IfErr result (AsksPart asker.old.asking asker.old.hits asker.new
        (R.remaining input.old) (R.remaining input.new) (W.contents out.old) (W.contents out.new)) }
{
    let alloc = asker.alloc;
    let mut divider = divider;
    asker.begin();
    answer_parts(alloc, &mut divider, asker, input, out)
}

/// Prints what is behind the elements of all hits, or their number, where that is asked for. The
/// answer is whether there is one. Where a write fails, a first part is printed.
pub fn end_elements<W: Write>(
    asker: &SourceAsker<'_>,
    out: &mut W,
) -> Result<bool, StreamError<PartError>>
    ensures found { IfOk result (λ found. IsTrue found ↔ (0 < asker.now.hits)) }
    ensures printed { OnOk result (Appends (W.contents out.old) (W.contents out.new)
        (last_text asker.now.asking.shown asker.now.asking.kind asker.now.hits)) }
    ensures begun { OnErr result ((first : List ℕ) × (rest : List ℕ)
        × (last_text asker.now.asking.shown asker.now.asking.kind asker.now.hits ≡ first ++ rest)
        × Appends (W.contents out.old) (W.contents out.new) first) }
{
    let Ok(text) = last(
        asker.alloc,
        asker.asking.shown,
        asker.asking.kind,
        asker.hits,
    ) else {
        return Err(StreamError::OutOfMemory);
    };
    match write_text(out, text.as_str()) {
        Ok(()) => Ok(asker.hits > 0),
        Err(fault) => Err(StreamError::CannotWrite(fault)),
    }
}
