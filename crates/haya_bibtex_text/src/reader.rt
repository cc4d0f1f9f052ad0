//! The reader of a text.
ghost use Rattle.std.specs.Prelude.{◌≡◌, IfOk, IfErr};
ghost use Rattle.std.specs.Str.{chars};
ghost use Rattle.haya_bibtex_text.specs.Bibliography.{BibliographyTexts};
ghost use Rattle.haya_bibtex_text.specs.BibliographyViews.{bibliography_view};
ghost use Rattle.haya_bibtex_text.specs.Outcomes.{ErrsBy, HasFault, Reads, error_of};

use crate::collected::collect;
use crate::entry::Bibliography;
use crate::fault::{ReadError, Stop};
use crate::position::fault_of;
use haya_characters::chars_of;
use std::alloc::Global;

// The error of a stop at a fault of a text.
fn error_of(text: &[char], stop: Stop) -> ReadError
    ensures { result ≡ error_of text.now stop }
{
    match stop {
        Stop::Refused(refusal) => ReadError::Refused(fault_of(text, refusal)),
        Stop::OutOfMemory => ReadError::OutOfMemory,
    }
}

// What the characters of a text say.
fn read_characters(alloc: Global, text: &[char]) -> Result<Bibliography, ReadError>
    ensures ok { IfOk result (λ b. Reads text.now (bibliography_view b)) }
    ensures fault { IfErr result (ErrsBy (HasFault text.now)) }
{
    match collect(alloc, text) {
        Ok(bibliography) => Ok(bibliography),
        Err(stop) => Err(error_of(text, stop)),
    }
}

/// The entries of a text in the format of `.bib` files, and what is passed over in it: exactly what
/// it says. A text that isn't by the grammar is refused with its first fault, and then it says
/// nothing; the only other error is out of memory.
pub fn read_bibliography(alloc: Global, text: &str) -> Result<Bibliography, ReadError>
    ensures ok { IfOk result (λ b. Reads (chars text.now) (bibliography_view b)) }
    ensures only { IfOk result (λ b. (c : BibliographyTexts) → Reads (chars text.now) c →
        c ≡ bibliography_view b) }
    ensures fault { IfErr result (ErrsBy (HasFault (chars text.now))) }
    ensures none { IfErr result (ErrsBy (λ _. (c : BibliographyTexts) →
        Reads (chars text.now) c → ⊥)) }
{
    let characters = chars_of(alloc, text)?;
    match read_characters(alloc, characters.as_slice()) {
        Ok(bibliography) => Ok(bibliography),
        Err(error) => Err(error),
    }
}
