//! Numbers of archives.
ghost use Rattle.std.specs.Prelude.{◌≡◌, IfOk, encode_utf8_all, string_bytes};
ghost use Rattle.std.specs.Str.{chars};
ghost use Rattle.haya_bibtex_values.specs.Archives.{arxiv_number, is_of_arxiv};

use crate::addresses::without_blanks;
use crate::fronts::{begins_in_any_case, behind};
use haya_characters::{chars_of, string_of};
use std::alloc::{AllocError, Global};

/// Whether a number begins with `arXiv:`, in any case.
pub fn is_of_arxiv(alloc: Global, text: &str) -> Result<bool, AllocError>
    ensures { IfOk result (λ b. b ≡ is_of_arxiv (chars text.now)) }
{
    let chars = chars_of(alloc, text)?;
    Ok(begins_in_any_case(b"arxiv:", chars.as_slice()))
}

// The number of characters.
fn number_of(text: &[char]) -> &[char]
    ensures { result.now ≡ arxiv_number text.now }
{
    if begins_in_any_case(b"arxiv:", text) {
        without_blanks(behind(6, text))
    } else {
        text
    }
}

/// A number of arXiv without `arXiv:` in front, and the blanks behind that: `arXiv:1234.5678` is
/// `1234.5678`.
pub fn arxiv_number(alloc: Global, text: &str) -> Result<String, AllocError>
    ensures { IfOk result (λ s. string_bytes s ≡ encode_utf8_all (arxiv_number (chars text.now))) }
{
    let chars = chars_of(alloc, text)?;
    string_of(alloc, number_of(chars.as_slice()))
}
