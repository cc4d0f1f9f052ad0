//! Where a fault is.
ghost use Rattle.std.specs.Prelude.{◌≡◌};
ghost use Rattle.haya_bibtex_text.specs.Position.{behind_char, fault_of, position_behind};

use crate::fault::{Fault, Refusal};

/// A line and a column of a text, both from 1 on.
#[derive(Clone, Copy)]
pub(crate) struct Position {
    pub(crate) line: usize,
    pub(crate) column: usize,
}

// The position behind characters that begin a text.
fn position_behind(front: &[char]) -> Position
    ensures { result ≡ position_behind front.now }
{
    let mut position = Position { line: 1, column: 1 };
    'characters: for c in front {
        if *c == '\n' {
            position.line += 1;
            position.column = 1;
        } else {
            position.column += 1;
        }
    }
    position
}

/// A fault with its line and column.
pub(crate) fn fault_of(text: &[char], refusal: Refusal) -> Fault
    ensures { result ≡ fault_of text.now refusal }
{
    let position = position_behind(&text[..text.len().saturating_sub(refusal.left)]);
    Fault {
        kind: refusal.kind,
        line: position.line,
        column: position.column,
    }
}
