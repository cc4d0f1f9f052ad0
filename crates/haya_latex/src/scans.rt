//! Characters, and runs and groups at the front of a text.
ghost use Rattle.std.specs.Prelude.{◌≡◌, ◌≤◌, ◌<◌, ◌+◌, ◌^◌, length};
ghost use Rattle.std.specs.Char.{is_ascii_alphabetic};
ghost use Rattle.haya_latex.specs.Scans.{argument_length, arguments_length, begins, begins_white};
ghost use Rattle.haya_latex.specs.Scans.{group_length, inner_length, is_blank_sign, is_empty_sign};
ghost use Rattle.haya_latex.specs.Scans.{is_escaped, run_length, white_length, with_brace};

/// Whether a backslash makes a sign plain.
pub(crate) fn is_escaped(c: char) -> bool
    ensures { result ≡ is_escaped c }
{
    matches!(c, '&' | '%' | '$' | '#' | '_' | '|')
}

/// Whether a sign is a blank behind a backslash.
pub(crate) fn is_blank_sign(c: char) -> bool
    ensures { result ≡ is_blank_sign c }
{
    matches!(c, '\\' | ';' | ':' | '>')
}

/// Whether a sign is nothing behind a backslash.
pub(crate) fn is_empty_sign(c: char) -> bool
    ensures { result ≡ is_empty_sign c }
{
    matches!(c, '-' | '/' | '@' | '!')
}

/// Whether a text begins with a character.
pub(crate) fn begins(c: char, text: &[char]) -> bool
    ensures { result ≡ begins c text.now }
{
    match text.split_first() {
        Some((first, _)) => *first == c,
        None => false,
    }
}

/// Whether a text begins with a white character.
pub(crate) fn begins_white(text: &[char]) -> bool
    ensures { result ≡ begins_white text.now }
{
    match text.split_first() {
        Some((first, _)) => first.is_whitespace(),
        None => false,
    }
}

/// How many white characters are first.
pub(crate) fn white_length(text: &[char]) -> usize
    ensures length { result ≡ white_length text.now }
    ensures within { result ≤ length text.now }
{
    let mut count = 0;
    'chars: for c in text {
        if !c.is_whitespace() {
            return count;
        }
        count += 1;
    }
    count
}

/// How many letters are first.
pub(crate) fn word_length(text: &[char]) -> usize
    ensures length { result ≡ run_length is_ascii_alphabetic text.now }
    ensures within { result ≤ length text.now }
{
    let mut count = 0;
    'chars: for c in text {
        if !c.is_ascii_alphabetic() {
            return count;
        }
        count += 1;
    }
    count
}

/// How much text is before the brace that closes the group around, where so many braces are open
/// that begin no group.
pub(crate) fn inner_length(depth: usize, text: &[char]) -> usize
    requires { depth + length text.now < 2 ^ 64 }
    ensures length { result ≡ inner_length depth text.now }
    ensures within { result ≤ length text.now }
{
    let mut count = 0;
    let mut braces = depth;
    'chars: for c in text {
        if *c == '}' {
            if braces == 0 {
                return count;
            }
            braces -= 1;
        } else if *c == '{' {
            braces += 1;
        }
        count += 1;
    }
    count
}

// How long a text is with the brace behind it, if there is one.
fn with_brace(count: usize, text: &[char]) -> usize
    requires { count ≤ length text.now }
    ensures length { result ≡ with_brace count text.now }
    ensures within { result ≤ length text.now }
{
    let (_, rest) = text.split_at(count);
    if begins('}', rest) { count + 1 } else { count }
}

/// How long the group is that is first, its braces too.
pub(crate) fn group_length(text: &[char]) -> usize
    ensures length { result ≡ group_length text.now }
    ensures within { result ≤ length text.now }
{
    match text.split_first() {
        Some(('{', inside)) => with_brace(inner_length(0, inside), inside) + 1,
        _ => 0,
    }
}

// How long white and a group behind it are.
fn argument_length(text: &[char]) -> usize
    ensures length { result ≡ argument_length text.now }
    ensures within { result ≤ length text.now }
{
    let white = white_length(text);
    let (_, group) = text.split_at(white);
    if begins('{', group) {
        white + group_length(group)
    } else {
        0
    }
}

/// How long so many arguments are, or as many as there are.
pub(crate) fn arguments_length(arguments: usize, text: &[char]) -> usize
    ensures length { result ≡ arguments_length arguments text.now }
    ensures within { result ≤ length text.now }
{
    let mut count = 0;
    let mut left = text;
    'arguments: for _ in 0..arguments {
        let length = argument_length(left);
        let (_, rest) = left.split_at(length);
        left = rest;
        count += length;
    }
    count
}
