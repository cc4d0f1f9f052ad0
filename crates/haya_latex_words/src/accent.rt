//! Accents, and the letters that they compose with.
ghost use Rattle.std.specs.Prelude.{◌≡◌};
ghost use Rattle.haya_latex_words.specs.Accents.{accent_of, alone, composed, dotted, mark};

use crate::letters::letters_of;

/// An accent.
#[derive(Clone, Copy)]
pub enum Accent {
    /// `` \` ``, as in À.
    Grave,
    /// `\'`, as in Á.
    Acute,
    /// `\^`, as in Â.
    Circumflex,
    /// `\"`, as in Ä.
    Diaeresis,
    /// `\~`, as in Ã.
    Tilde,
    /// `\=`, as in Ā.
    Macron,
    /// `\.`, as in Ȧ.
    Dot,
    /// `\u`, as in Ă.
    Breve,
    /// `\v`, as in Ǎ.
    Caron,
    /// `\H`, as in Ő.
    DoubleAcute,
    /// `\r`, as in Å.
    Ring,
    /// `\c`, as in Ç.
    Cedilla,
    /// `\k`, as in Ą.
    Ogonek,
    /// `\d`, as in Ạ.
    DotBelow,
    /// `\b`, as in Ḇ.
    MacronBelow,
    /// `\t`, as in o͡o.
    Tie,
}

impl Accent {
    /// The accent whose command is a backslash and this sign: `\u` and its like are words.
    pub fn of_sign(sign: char) -> Option<Self>
        ensures { result ≡ accent_of sign }
    {
        match sign {
            '`' => Some(Accent::Grave),
            '\'' => Some(Accent::Acute),
            '^' => Some(Accent::Circumflex),
            '"' => Some(Accent::Diaeresis),
            '~' => Some(Accent::Tilde),
            '=' => Some(Accent::Macron),
            '.' => Some(Accent::Dot),
            _ => None,
        }
    }

    /// The combining mark, which is behind its letter.
    pub fn mark(self) -> char
        ensures { result ≡ mark self }
    {
        match self {
            Accent::Grave => '\u{300}',
            Accent::Acute => '\u{301}',
            Accent::Circumflex => '\u{302}',
            Accent::Diaeresis => '\u{308}',
            Accent::Tilde => '\u{303}',
            Accent::Macron => '\u{304}',
            Accent::Dot => '\u{307}',
            Accent::Breve => '\u{306}',
            Accent::Caron => '\u{30c}',
            Accent::DoubleAcute => '\u{30b}',
            Accent::Ring => '\u{30a}',
            Accent::Cedilla => '\u{327}',
            Accent::Ogonek => '\u{328}',
            Accent::DotBelow => '\u{323}',
            Accent::MacronBelow => '\u{331}',
            Accent::Tie => '\u{361}',
        }
    }

    /// The accent alone. `None` where it isn't written without a letter.
    pub fn alone(self) -> Option<char>
        ensures { result ≡ alone self }
    {
        match self {
            Accent::Grave => Some('`'),
            Accent::Acute => Some('´'),
            Accent::Circumflex => Some('^'),
            Accent::Diaeresis => Some('¨'),
            Accent::Tilde => Some('~'),
            Accent::Macron => Some('¯'),
            Accent::Dot => Some('˙'),
            Accent::Breve => Some('˘'),
            Accent::Caron => Some('ˇ'),
            Accent::DoubleAcute => Some('˝'),
            Accent::Ring => Some('˚'),
            Accent::Cedilla => Some('¸'),
            Accent::Ogonek => Some('˛'),
            Accent::DotBelow | Accent::MacronBelow | Accent::Tie => None,
        }
    }

    /// The letter with this accent. `None` where only the mark says it.
    pub fn composed(self, letter: char) -> Option<char>
        ensures { result ≡ composed self letter }
    {
        'letters: for (plain, whole) in letters_of(self) {
            if letter == *plain {
                return Some(*whole);
            }
        }
        None
    }
}

/// The letter that carries an accent: `ı` and `ȷ` do as `i` and `j`.
pub fn dotted(letter: char) -> char
    ensures { result ≡ dotted letter }
{
    match letter {
        'ı' => 'i',
        'ȷ' => 'j',
        _ => letter,
    }
}
