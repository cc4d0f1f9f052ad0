//! What a text begins with.
ghost use Rattle.std.specs.Prelude.{◌≡◌, ◌≤◌, drop, length};
ghost use Rattle.haya_bibtex_values.specs.Fronts.{begins_in_any_case, begins_letter, begins_white};
ghost use Rattle.haya_bibtex_values.specs.Fronts.{begins_with};

/// Whether a text begins with another, which is of ASCII.
pub(crate) fn begins_with(front: &[u8], text: &[char]) -> bool
    ensures { result ≡ begins_with front.now text.now }
{
    let mut left = text;
    'bytes: for byte in front {
        let Some((c, rest)) = left.split_first() else {
            return false;
        };
        if *c as u32 != u32::from(*byte) {
            return false;
        }
        left = rest;
    }
    true
}

/// Whether it does so in any case: the other text is in lower case.
pub(crate) fn begins_in_any_case(front: &[u8], text: &[char]) -> bool
    ensures { result ≡ begins_in_any_case front.now text.now }
{
    let mut left = text;
    'bytes: for byte in front {
        let Some((c, rest)) = left.split_first() else {
            return false;
        };
        if c.to_ascii_lowercase() as u32 != u32::from(*byte) {
            return false;
        }
        left = rest;
    }
    true
}

/// What is behind so many characters, if there is anything.
pub(crate) fn behind(count: usize, text: &[char]) -> &[char]
    ensures rest { result.now ≡ drop count text.now }
    ensures within { length result.now ≤ length text.now }
{
    if count <= text.len() {
        &text[count..]
    } else {
        &[]
    }
}

/// Whether a text begins with a white character.
pub(crate) fn begins_white(text: &[char]) -> bool
    ensures { result ≡ begins_white text.now }
{
    match text.split_first() {
        Some((first, _)) => first.is_whitespace(),
        None => false,
    }
}

/// Whether a text begins with a letter of ASCII.
pub(crate) fn begins_letter(text: &[char]) -> bool
    ensures { result ≡ begins_letter text.now }
{
    match text.split_first() {
        Some((first, _)) => first.is_ascii_alphabetic(),
        None => false,
    }
}

/// How many characters of a text are read without a list of them in memory.
pub(crate) const ROOM: usize = 64;
