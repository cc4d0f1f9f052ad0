//! The tokens of a selector's text.
ghost use Rattle.std.specs.Prelude.{◌≡◌, ◌∷◌, ◌++◌, [], List, MatchOption, MatchBool};
ghost use Rattle.std.specs.Str.{chars};
ghost use Rattle.haya_text.specs.Cursor.{text_len};
ghost use Rattle.haya_selectors.specs.Cut.{sign_of, token};
ghost use Rattle.haya_selectors.specs.declared.token.Sign.TheVariants.{Colon};
ghost use Rattle.haya_selectors.specs.Reading.{EndsBeforeLeft};
ghost use Rattle.haya_selectors.specs.Token.{AreTokens, BeginsNot, BeginsNoName, BeginsNoWord};
ghost use Rattle.haya_selectors.specs.Token.{SignToken, Takes, Token, Word, in_word, starts_word};

use haya_text::cursor::Cursor;
use std::marker::Model;

// A character that is a token by itself.
#[derive(Clone, Copy, PartialEq, Eq)]
pub(crate) enum Sign {
    LeftBracket,
    RightBracket,
    LeftParen,
    RightParen,
    Star,
    Comma,
    Chevron,
    Colon,
    Pipe,
    Ampersand,
    ExclamationMark,
}

// A token, as it appears in the text.
#[derive(Clone, Copy, PartialEq, Eq)]
pub(crate) enum Lexeme<'a> {
    Sign(Sign),
    // An identifier.
    Word(&'a str),
    // Any other character.
    Invalid(char),
}

// The tokens that are left of a text.
#[derive(Drop)]
pub(crate) struct Tokens<'a> {
    cursor: Cursor<'a>,
}

impl<'a> Model for Tokens<'a> {
    ghost use Rattle.std.specs.Prelude.{List, None};
    ghost use Rattle.haya_selectors.specs.Token.{Token};
    ghost use Rattle.haya_selectors.specs.Cut.{cut};

    ghost Value = { List Token };

    ghost view = { λ t. cut None t.cursor.rest };
}

impl<'a> Tokens<'a> {
    // All tokens of a text.
    pub(crate) fn new(text: &'a str) -> Self
        ensures { AreTokens result (chars text.now) }
    {
        Tokens {
            cursor: Cursor::new(text),
        }
    }

    // The same tokens, to be taken apart from these.
    fn fork(&self) -> Self
        ensures { result ≡ self.now }
    {
        Tokens {
            cursor: self.cursor.fork(),
        }
    }

    // How many bytes of the text stand before what is left.
    pub(crate) fn place(&self) -> usize {
        self.cursor.place()
    }

    // How many bytes of the text stand before the next token, or before the end.
    pub(crate) fn place_of_next(&mut self) -> usize {
        self.cursor.eat_whitespace();
        self.cursor.place()
    }

    // Takes the next token. `None` at the end.
    fn next(&mut self) -> Option<Lexeme<'a>>
        ensures { MatchOption result ((self.old ≡ []) × (self.new ≡ []))
            (λ t. self.old ≡ token t ∷ self.new) }
    {
        next_lexeme(&mut self.cursor)
    }

    // Takes the next token if it is this sign.
    pub(crate) fn eat_sign(&mut self, wanted: Sign) -> bool
        ensures { MatchBool result (self.old ≡ SignToken wanted ∷ self.new)
            (BeginsNot wanted self.old × (self.new ≡ self.old)) }
    {
        let mut ahead = self.fork();
        if let Some(Lexeme::Sign(sign)) = ahead.next() {
            if sign == wanted {
                *self = ahead;
                return true;
            }
        }
        false
    }

    // Takes the next token if it is an identifier.
    pub(crate) fn eat_word(&mut self) -> Option<&'a str>
        ensures { MatchOption result (BeginsNoWord self.old × (self.new ≡ self.old))
            (λ w. self.old ≡ Word w.now ∷ self.new) }
    {
        let mut ahead = self.fork();
        if let Some(Lexeme::Word(word)) = ahead.next() {
            *self = ahead;
            return Some(word);
        }
        None
    }

    // Takes an identifier and the `:` behind it, if both stand next.
    pub(crate) fn eat_name(&mut self) -> Option<&'a str>
        ensures { MatchOption result (BeginsNoName self.old × (self.new ≡ self.old))
            (λ w. self.old ≡ Word w.now ∷ SignToken Colon ∷ self.new) }
    {
        let mut ahead = self.fork();
        let name = ahead.eat_word()?;
        if !ahead.eat_sign(Sign::Colon) {
            return None;
        }
        *self = ahead;
        Some(name)
    }
}

// The byte at which the tokens of a text end before those that are left.
pub(crate) fn end_before(text: &str, left: &Tokens<'_>) -> usize
    requires { (taken : List Token) × AreTokens (taken ++ left.now) (chars text.now) }
    ensures { EndsBeforeLeft left.now text.now result }
{
    // Behind as many tokens as are left, so that it has as many as were taken.
    let mut ahead = Tokens::new(text);
    let mut counted = left.fork();
    'counted: while counted.next().is_some() {
        ahead.next();
    }
    let mut cursor = Cursor::new(text);
    'taken: while ahead.next().is_some() {
        next_lexeme(&mut cursor);
    }
    cursor.place()
}

// Takes the next token. `None` where only white space is left.
fn next_lexeme<'a>(cursor: &mut Cursor<'a>) -> Option<Lexeme<'a>>
    ensures taken { MatchOption result
        (AreTokens [] cursor.old.rest × (cursor.new.rest ≡ []))
        (λ t. Takes (token t) cursor.old.rest cursor.new.rest) }
    ensures same_text { text_len cursor.new ≡ text_len cursor.old }
{
    cursor.eat_whitespace();
    let first = cursor.peek()?;
    if starts_word(first) {
        return Some(Lexeme::Word(cursor.eat_while(in_word)));
    }
    cursor.eat();
    let Some(sign) = sign_of(first) else {
        return Some(Lexeme::Invalid(first));
    };
    Some(Lexeme::Sign(sign))
}

// Whether an identifier may begin so.
fn starts_word(c: char) -> bool
    ensures { result ≡ starts_word c }
{
    c.is_ascii_alphabetic() || c == '-'
}

// Whether an identifier may go on so.
fn in_word(c: char) -> bool
    ensures { result ≡ in_word c }
{
    c.is_ascii_alphanumeric() || c == '-'
}

// The sign that a character is.
fn sign_of(c: char) -> Option<Sign>
    ensures { result ≡ sign_of c }
{
    match c {
        '[' => Some(Sign::LeftBracket),
        ']' => Some(Sign::RightBracket),
        '(' => Some(Sign::LeftParen),
        ')' => Some(Sign::RightParen),
        '*' => Some(Sign::Star),
        ',' => Some(Sign::Comma),
        '>' => Some(Sign::Chevron),
        ':' => Some(Sign::Colon),
        '|' => Some(Sign::Pipe),
        '&' => Some(Sign::Ampersand),
        '!' => Some(Sign::ExclamationMark),
        _ => None,
    }
}
