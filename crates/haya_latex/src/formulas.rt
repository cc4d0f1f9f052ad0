//! Formulas.
ghost use Rattle.std.specs.Prelude.{◌≡◌, ◌+◌, ◌<◌, ◌≤◌, ◌^◌, length, IfSome, OnOk, ◌++◌};
ghost use Rattle.haya_latex.specs.Tokens.{closing, is_end};
ghost use Rattle.haya_latex.specs.Reading.{formula};

use crate::kinds::Kind;
use std::alloc::AllocError;

// Whether a character ends math that this sign closes, behind a backslash or not.
fn is_end(closer: char, escaped: bool, c: char) -> bool
    ensures { result ≡ is_end closer escaped c }
{
    c == closer && (escaped != (closer == '$'))
}

/// Where math ends that this sign closes, and how many braces are open there that begin no group.
pub(crate) fn closing(
    closer: char,
    depth: usize,
    inside: bool,
    text: &[char],
) -> Option<(usize, usize)>
    requires { depth + length text.now < 2 ^ 64 }
    ensures found { result ≡ closing closer depth inside text.now }
    ensures within { IfSome result (λ p. p.0 < length text.now) }
    ensures below { IfSome result (λ p. p.1 ≤ depth + p.0) }
{
    let mut braces = depth;
    let mut escaped = false;
    let mut count: usize = 0;
    'chars: for c in text {
        if *c == '}' && inside && braces == 0 {
            return None;
        }
        if is_end(closer, escaped, *c) {
            return Some((count, braces));
        }
        escaped = *c == '\\' && !escaped;
        if *c == '{' {
            braces += 1;
        } else if *c == '}' {
            braces = braces.saturating_sub(1);
        }
        count += 1;
    }
    None
}

/// Writes a formula: as it is, but for white characters.
pub(crate) fn push_formula(chars: &mut Vec<(char, Kind)>, text: &[char]) -> Result<(), AllocError>
    ensures { OnOk result (chars.new.items ≡ chars.old.items ++ formula text.now) }
{
    let mut started = false;
    let mut white = false;
    'chars: for c in text {
        if c.is_whitespace() {
            white = true;
        } else {
            if started && white {
                chars.push((' ', Kind::Math))?;
            }
            chars.push((*c, Kind::Math))?;
            started = true;
            white = false;
        }
    }
    Ok(())
}
