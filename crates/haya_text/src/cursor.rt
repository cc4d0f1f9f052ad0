//! A place in a text, from which its reader takes character after character.
ghost use Rattle.std.specs.Prelude.{◌≡◌, ◌≤◌, ◌++◌, [], ◌∷◌, All, IfNone, IfSome, MatchOption};
ghost use Rattle.std.specs.Prelude.{length, slice_get, false, true};
ghost use Rattle.std.specs.Char.{encode_utf8};
ghost use Rattle.std.specs.Str.{chars, encode_utf8_all, skip_leading_whitespace};
ghost use Rattle.haya_text.specs.Cursor.{Eats, EatsIf, IsBehind, text_len};

use crate::chars::split_char;
use std::marker::Model;

/// A place in a text. It knows how many bytes stand before it, and what is left.
#[derive(Drop)]
pub struct Cursor<'a> {
    place: usize,
    rest: &'a str,
}

impl<'a> Model for Cursor<'a> {
    ghost use Rattle.std.specs.Prelude.{◌+◌, ◌<◌, ◌^◌, length};
    ghost use Rattle.std.specs.Str.{chars, encode_utf8_all};
    ghost use Rattle.haya_text.specs.Cursor.{Left};

    ghost Value = { Left };

    ghost view = { λ c. record { place = c.place; rest = chars c.rest.now } };

    ghost invariant = { λ c. c.place + length (encode_utf8_all (chars c.rest.now)) < 2 ^ 64 };
}

impl<'a> Cursor<'a> {
    /// The start of a text.
    pub fn new(text: &'a str) -> Self
        ensures { result ≡ record { place = 0; rest = chars text.now } }
    {
        Cursor {
            place: 0,
            rest: text,
        }
    }

    /// A second cursor at this place.
    pub fn fork(&self) -> Cursor<'a>
        ensures { result ≡ self.now }
    {
        Cursor {
            place: self.place,
            rest: self.rest,
        }
    }

    /// How many bytes of the text stand before this place.
    pub fn place(&self) -> usize
        ensures { result ≡ self.now.place }
    {
        self.place
    }

    /// The text from this place on.
    pub fn rest(&self) -> &'a str
        ensures { chars result.now ≡ self.now.rest }
    {
        self.rest
    }

    /// The next character, or `None` at the end. Nothing is taken.
    pub fn peek(&self) -> Option<char>
        ensures { result ≡ slice_get self.now.rest 0 }
    {
        self.rest.chars().next()
    }

    /// Takes the next character. `None` at the end, and then nothing moves.
    pub fn eat(&mut self) -> Option<char>
        ensures taken { Eats result self.old self.new }
        ensures same_text { text_len self.new ≡ text_len self.old }
    {
        let (next, behind) = split_char(self.rest)?;
        self.place += next.len_utf8();
        self.rest = behind;
        Some(next)
    }

    /// Takes the next character if it is this one.
    pub fn eat_if(&mut self, wanted: char) -> bool
        ensures taken { EatsIf wanted result self.old self.new }
        ensures same_text { text_len self.new ≡ text_len self.old }
    {
        if self.peek() == Some(wanted) {
            self.eat();
            return true;
        }
        false
    }

    /// Takes the white space that stands next.
    pub fn eat_whitespace(&mut self)
        ensures taken { self.new.rest ≡ skip_leading_whitespace self.old.rest }
        ensures same_text { text_len self.new ≡ text_len self.old }
    {
        let left = self.rest().trim_start();
        self.go_to(left);
    }

    /// Takes the characters that are accepted, up to the first that isn't.
    pub fn eat_while<P: Fn(char) -> bool>(&mut self, accepts: P) -> &'a str
        requires { P.IsAlwaysCallable accepts }
        ensures taken { self.old.rest ≡ chars result.now ++ self.new.rest }
        ensures accepted { All (λ c. P.post accepts c true) (chars result.now) }
        ensures stops { IfSome (slice_get self.new.rest 0) (λ c. P.post accepts c false) }
        ensures same_text { text_len self.new ≡ text_len self.old }
    {
        let (taken, left) = split_while(self.rest(), accepts);
        self.go_to(left);
        taken
    }

    // Goes on to where only `left` is left.
    fn go_to(&mut self, left: &'a str)
        requires { length left.now ≤ length (encode_utf8_all self.old.rest) }
        ensures rest { self.new.rest ≡ chars left.now }
        ensures same_text { text_len self.new ≡ text_len self.old }
    {
        self.place += self.rest().len() - left.len();
        self.rest = left;
    }
}

// The text cut before its first character that isn't accepted.
fn split_while<P: Fn(char) -> bool>(text: &str, accepts: P) -> (&str, &str)
    requires { P.IsAlwaysCallable accepts }
    ensures parts { text.now ≡ result.0.now ++ result.1.now }
    ensures chars { chars text.now ≡ chars result.0.now ++ chars result.1.now }
    ensures accepted { All (λ c. P.post accepts c true) (chars result.0.now) }
    ensures stops { IfSome (slice_get (chars result.1.now) 0) (λ c. P.post accepts c false) }
{
    let mut left = text;
    'accepted: while let Some(behind) = behind_accepted(left, &accepts) {
        left = behind;
    }
    text.split_at(text.len() - left.len())
}

// The text behind its first character, if that is accepted.
fn behind_accepted<'t, P: Fn(char) -> bool>(text: &'t str, accepts: &P) -> Option<&'t str>
    requires { P.IsAlwaysCallable accepts.now }
    ensures { MatchOption result
        (IfSome (slice_get (chars text.now) 0) (λ c. P.post accepts.now c false))
        (λ behind. IsBehind (λ c. P.post accepts.now c true) text.now behind.now) }
{
    let (next, behind) = split_char(text)?;
    if accepts(next) { Some(behind) } else { None }
}
