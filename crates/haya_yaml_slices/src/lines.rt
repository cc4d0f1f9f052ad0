//! What the lines of a text are to the map that it is.
ghost use Rattle.std.specs.Prelude.{◌≤◌, length};

/// What a line is to a map whose members begin at a column.
#[derive(Clone, Copy, Debug, Drop, PartialEq, Eq)]
pub(crate) enum LineKind {
    /// A member begins there.
    Member,
    /// A comment that isn't deeper than the members.
    Comment,
    /// The end of the document.
    End,
    /// Any other.
    Other,
}

/// How many spaces begin bytes.
pub(crate) fn indent_of(bytes: &[u8]) -> usize
    ensures { result ≤ length bytes.now }
{
    let mut count = 0;
    'spaces: while count < bytes.len() && bytes[count] == b' ' {
        count += 1;
    }
    count
}

// Whether white space is here, or the end of a line.
fn is_gap(bytes: &[u8]) -> bool {
    match bytes {
        [] => true,
        [byte, ..] => matches!(*byte, b' ' | b'\t' | b'\n' | b'\r'),
    }
}

// Whether three of this sign are here, before a gap.
fn is_mark(sign: u8, bytes: &[u8]) -> bool {
    match bytes {
        [first, second, third, rest @ ..] => {
            *first == sign && *second == sign && *third == sign && is_gap(rest)
        }
        _ => false,
    }
}

// Whether something other than a member is behind the indent of a line.
fn is_other(rest: &[u8]) -> bool {
    match rest {
        [] => true,
        [b'#' | b'%' | b'\t' | b'\n' | b'\r', ..] => true,
        [b'[' | b']' | b'{' | b'}', ..] => true,
        [b'-', more @ ..] => is_gap(more),
        _ => false,
    }
}

/// What the line at the front of bytes is to a map whose members begin at this column.
pub(crate) fn kind_of(column: usize, bytes: &[u8]) -> LineKind {
    if is_mark(b'.', bytes) {
        return LineKind::End;
    }
    let indent = indent_of(bytes);
    let (_, rest) = bytes.split_at(indent);
    match rest {
        [b'#', ..] if indent <= column => LineKind::Comment,
        _ if indent != column || is_other(rest) || is_mark(b'-', bytes) => LineKind::Other,
        _ => LineKind::Member,
    }
}
