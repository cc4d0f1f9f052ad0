//! Classes of characters.
ghost use Rattle.std.specs.Prelude.{◌≡◌, ◌≤◌, drop, length};
ghost use Rattle.std.specs.List.{prefix_len, take_while};
ghost use Rattle.haya_bibtex_text.specs.Classes.{contains, in_key, in_name};
ghost use Rattle.haya_bibtex_text.specs.Classes.{is_digit, is_mark, is_white};

/// The characters that white space, numbers, names and keys are made of.
#[derive(Clone, Copy)]
pub(crate) enum Class {
    /// White space.
    White,
    /// The digits `0` to `9`.
    Digit,
    /// The characters of the names of types, fields and strings.
    Name,
    /// The characters of the key of an entry that this bracket closes.
    Key(char),
}

impl Class {
    /// Whether the character belongs to the class.
    pub(crate) fn contains(self, c: char) -> bool
        ensures { result ≡ contains self c }
    {
        match self {
            Class::White => is_white(c),
            Class::Digit => is_digit(c),
            Class::Name => in_name(c),
            Class::Key(close) => in_key(close, c),
        }
    }

    /// How many characters of the class begin a text.
    pub(crate) fn prefix_len(self, text: &[char]) -> usize
        ensures len { result ≡ prefix_len (contains self) text.now }
        ensures within { result ≤ length text.now }
    {
        let mut count = 0;
        'characters: for c in text {
            if !self.contains(*c) {
                return count;
            }
            count += 1;
        }
        count
    }

    /// The characters of the class that begin a text, and what is left behind them.
    pub(crate) fn split(self, text: &[char]) -> (&[char], &[char])
        ensures front { result.0.now ≡ take_while (contains self) text.now }
        ensures rest { result.1.now ≡ drop (prefix_len (contains self) text.now) text.now }
        ensures shorter { length result.1.now ≤ length text.now }
    {
        text.split_at(self.prefix_len(text))
    }
}

/// Whether the character has the property White_Space of Unicode.
#[tactic(auto, unfolding(crate::specs::Classes::is_white))]
pub(crate) fn is_white(c: char) -> bool
    ensures { result ≡ is_white c }
{
    c.is_whitespace()
}

#[tactic(auto, unfolding(crate::specs::Classes::is_digit))]
fn is_digit(c: char) -> bool
    ensures { result ≡ is_digit c }
{
    '0' <= c && c <= '9'
}

// Whether the character is one of those that end a name.
fn is_mark(c: char) -> bool
    ensures { result ≡ is_mark c }
{
    match c {
        '"' | '#' | '%' | '\'' | '(' | ')' | ',' | '=' => true,
        '@' | '\\' | '{' | '}' => true,
        _ => false,
    }
}

#[tactic(auto, unfolding(crate::specs::Classes::in_name))]
fn in_name(c: char) -> bool
    ensures { result ≡ in_name c }
{
    match c {
        'a'..='z' => true,
        _ => !is_mark(c) && !is_white(c),
    }
}

#[tactic(auto, unfolding(crate::specs::Classes::in_key))]
fn in_key(close: char, c: char) -> bool
    ensures { result ≡ in_key close c }
{
    !(is_white(c) || c == ',' || c == close)
}
