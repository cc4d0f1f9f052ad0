//! Why a text in YAML isn't read.
use haya_yaml_text::fault::{FaultKind, Refusal};
use std::alloc::AllocError;

/// A fault, and where it is.
#[derive(Clone, Copy, Debug, Drop, PartialEq, Eq)]
pub struct Fault {
    /// What is wrong.
    pub kind: FaultKind,
    /// The number of its line, from 1 on.
    pub line: usize,
    /// The number of its character in the line, from 1 on.
    pub column: usize,
}

/// Why a text isn't read.
#[derive(Clone, Copy, Debug, Drop, PartialEq, Eq)]
pub enum YamlError {
    /// It says no value, and this is why.
    Refused(Fault),
    /// There was no memory.
    OutOfMemory,
}

impl From<AllocError> for YamlError {
    ghost use Rattle.haya_yaml.specs.declared.error.YamlError.TheVariants.{OutOfMemory};
    ghost use Rattle.std.specs.Prelude.{◌≡◌};

    ghost from_gives = { λ _ e. e ≡ OutOfMemory };

    fn from(_refused: AllocError) -> YamlError {
        YamlError::OutOfMemory
    }
}

// The column of a place in a line where so many of its bytes are left.
fn column(line: &str, left: usize) -> usize {
    let mut column: usize = 1;
    let mut after = line.len();
    'bytes: for byte in line.as_bytes() {
        if after <= left {
            return column;
        }
        after = after.saturating_sub(1);
        if *byte < 128 || *byte >= 192 {
            column = column.saturating_add(1);
        }
    }
    column
}

/// A fault with its column in the lines of a text.
pub(crate) fn in_lines(refusal: Refusal, lines: &[&str]) -> Fault {
    let index = refusal.line.saturating_sub(1);
    let column = if index < lines.len() {
        column(lines[index], refusal.left)
    } else {
        1
    };
    Fault {
        kind: refusal.kind,
        line: refusal.line,
        column,
    }
}
