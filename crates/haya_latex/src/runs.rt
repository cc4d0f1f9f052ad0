//! Runs of characters of a kind.
ghost use Rattle.std.specs.Prelude.{◌≡◌, ◌++◌, ◌∷◌, [], true, All, IfOk, OnOk, Some};
ghost use Rattle.std.specs.Prelude.{flat_map, map, reverse};
ghost use Rattle.haya_latex.specs.RunViews.{HasText, run_bytes, run_kind};
ghost use Rattle.haya_latex.specs.Texts.{alternates, behind_blanks, blank_of, char_bytes};
ghost use Rattle.haya_latex.specs.Texts.{first_blank, trimmed};

use crate::kinds::Kind;
use std::alloc::{AllocError, Global};
use std::mem::replace;

/// Characters of a kind that follow one another.
#[derive(Drop)]
pub struct Run {
    /// Their kind.
    pub kind: Kind,
    /// The characters.
    pub text: String,
}

// What is left behind blanks.
fn behind_blanks(chars: &[(char, Kind)]) -> &[(char, Kind)]
    ensures { result.now ≡ behind_blanks chars.now }
{
    let mut left = chars;
    'chars: while let Some(((c, _), behind)) = left.split_first() {
        if *c != ' ' {
            return left;
        }
        left = behind;
    }
    left
}

// The blank that stays of two, of which the first may be missing.
fn first_blank(blank: Option<Kind>, kind: Kind) -> Option<Kind>
    ensures { result ≡ Some (first_blank blank kind) }
{
    match blank {
        Some(first) => Some(first),
        None => Some(kind),
    }
}

/// The runs of characters, without blanks at both ends and without each behind another one.
pub(crate) fn trimmed_runs(alloc: Global, chars: &[(char, Kind)]) -> Result<Vec<Run>, AllocError>
    ensures bytes { IfOk result (λ v.
        flat_map run_bytes v.items ≡ flat_map char_bytes (trimmed chars.now)) }
    ensures kinds { IfOk result (λ v. alternates (reverse (map run_kind v.items)) ≡ true) }
    ensures texts { IfOk result (λ v. All HasText v.items) }
{
    let mut runs = Vec::new(alloc);
    let Some(((first, first_kind), behind)) = behind_blanks(chars).split_first() else {
        return Ok(runs);
    };
    let mut last = new_run(alloc, *first, *first_kind)?;
    let mut blank = None;
    'chars: for (c, kind) in behind {
        if *c == ' ' {
            blank = first_blank(blank, *kind);
            continue 'chars;
        }
        push_blank(&mut runs, &mut last, alloc, blank)?;
        push_char(&mut runs, &mut last, alloc, *c, *kind)?;
        blank = None;
    }
    runs.push(last)?;
    Ok(runs)
}

// Puts a blank behind runs and the last one, if there is one.
fn push_blank(
    runs: &mut Vec<Run>,
    last: &mut Run,
    alloc: Global,
    blank: Option<Kind>,
) -> Result<(), AllocError>
    requires kinds { alternates (reverse (map run_kind (runs.old.items ++ last.old ∷ []))) ≡ true }
    requires texts { All HasText (runs.old.items ++ last.old ∷ []) }
    ensures bytes { OnOk result (flat_map run_bytes (runs.new.items ++ last.new ∷ [])
        ≡ flat_map run_bytes (runs.old.items ++ last.old ∷ [])
        ++ flat_map char_bytes (blank_of blank)) }
    ensures kinds { OnOk result
        (alternates (reverse (map run_kind (runs.new.items ++ last.new ∷ []))) ≡ true) }
    ensures texts { OnOk result (All HasText (runs.new.items ++ last.new ∷ [])) }
{
    match blank {
        Some(kind) => push_char(runs, last, alloc, ' ', kind),
        None => Ok(()),
    }
}

// Puts a character behind runs and the last one.
fn push_char(
    runs: &mut Vec<Run>,
    last: &mut Run,
    alloc: Global,
    c: char,
    kind: Kind,
) -> Result<(), AllocError>
    requires kinds { alternates (reverse (map run_kind (runs.old.items ++ last.old ∷ []))) ≡ true }
    requires texts { All HasText (runs.old.items ++ last.old ∷ []) }
    ensures bytes { OnOk result (flat_map run_bytes (runs.new.items ++ last.new ∷ [])
        ≡ flat_map run_bytes (runs.old.items ++ last.old ∷ []) ++ char_bytes (c, kind)) }
    ensures kinds { OnOk result
        (alternates (reverse (map run_kind (runs.new.items ++ last.new ∷ []))) ≡ true) }
    ensures texts { OnOk result (All HasText (runs.new.items ++ last.new ∷ [])) }
{
    if last.kind == kind {
        last.text.push(c)?;
    } else {
        let next = new_run(alloc, c, kind)?;
        runs.push(replace(last, next))?;
    }
    Ok(())
}

// How many bytes a run has room for at first.
const FIRST_ROOM: usize = 32;

// A run of one character.
fn new_run(alloc: Global, c: char, kind: Kind) -> Result<Run, AllocError>
    ensures bytes { IfOk result (λ r. run_bytes r ≡ char_bytes (c, kind)) }
    ensures kind { IfOk result (λ r. r.kind ≡ kind) }
    ensures text { IfOk result HasText }
{
    let mut text = String::with_capacity(alloc, FIRST_ROOM)?;
    text.push(c)?;
    Ok(Run { kind, text })
}
