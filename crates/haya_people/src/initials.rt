//! The initials of a given name.
ghost use Rattle.std.specs.Prelude.{◌≡◌, [], List, Some, option_map, string_bytes, OnOk, unwrap_or};
ghost use Rattle.std.specs.Fmt.{WritesText};
ghost use Rattle.ucd_category.specs.GeneralCategory.{general_category};
ghost use Rattle.haya_people.specs.Initials.{Grapheme, Style, begins_with_hyphen, initials};
ghost use Rattle.haya_people.specs.Initials.{is_separator, is_upper, is_upper_letter, lead};
ghost use Rattle.haya_people.specs.Initials.{style_with};
ghost use Rattle.haya_people.specs.InitialsLeft.{initials_left, one_more, style_of, written_with};
ghost use Rattle.haya_people.specs.Words.{Word, onto_gap, onto_word};

use crate::Person;
use std::fmt;
use std::fmt::Write;
use unicode::properties::GeneralCategory;
use unicode_segmentation::UnicodeSegmentation;

impl Person {
    /// Writes the initials of the given name: of each word the part up to its first letter of the
    /// Unicode category Lu or Lt, or the whole word where it has none. The delimiter stands behind
    /// each initial, as `. ` in `C. D.`; a hyphen between two words stays if hyphens are asked for,
    /// as in `H.-J.`. Without a given name nothing is written. The writer's fault ends the call.
    pub fn initials<W: fmt::Write>(
        &self,
        buf: &mut W,
        delimiter: Option<&str>,
        with_hyphen: bool,
    ) -> fmt::Result
        ensures { OnOk result (WritesText W.write_str_gives buf.old (Some (initials
            (style_with delimiter.entry with_hyphen)
            (option_map string_bytes self.now.given_name))) buf.new) }
    {
        match &self.given_name {
            Some(given_name) => buf.write(Initials {
                given_name: given_name.as_str(),
                delimiter: delimiter.unwrap_or(""),
                with_hyphen,
            }),
            None => Ok(()),
        }
    }
}

// A given name that is written by its initials.
#[derive(Clone, Copy)]
pub(crate) struct Initials<'a> {
    pub(crate) given_name: &'a str,
    pub(crate) delimiter: &'a str,
    pub(crate) with_hyphen: bool,
}

// Where a grapheme appears in a given name.
#[derive(Clone, Copy, PartialEq, Eq)]
enum Place {
    // Before the first word, or among separators behind a word with an initial.
    Apart,
    // In a word that has had no upper grapheme so far.
    Plain,
    // In a word, behind its first upper grapheme.
    Initial,
    // Among the separators behind a word without an upper grapheme.
    BehindPlain,
}

// What a grapheme writes, in two parts, and the place behind it.
struct Step<'a> {
    front: &'a str,
    back: &'a str,
    next: Place,
}

impl fmt::Display for Initials<'_> {
    ghost use Rattle.std.specs.Prelude.{Some};
    ghost use Rattle.haya_people.specs.Initials.{initials_of};
    ghost use Rattle.haya_people.specs.InitialsLeft.{style_of};

    ghost output = { λ s. Some (initials_of (style_of s) s.given_name.now) };

    fn fmt<W: fmt::Write>(&self, f: &mut fmt::Formatter<W>) -> fmt::Result {
        let mut place = Place::Apart;
        for grapheme in self.given_name.graphemes(true) {
            let Step { front, back, next } = self.step(place, grapheme);
            write!(f, "{front}{back}")?;
            place = next;
        }
        match place {
            Place::Initial => write!(f, "{}", self.delimiter.trim_end()),
            Place::Apart | Place::Plain | Place::BehindPlain => Ok(()),
        }
    }
}

impl<'a> Initials<'a> {
    // What a grapheme at a place writes.
    fn step(&self, place: Place, grapheme: &'a str) -> Step<'a>
        ensures { (left : List (Word Grapheme)) → initials_left (style_of self.now) place
            (one_more grapheme.now left) ≡ written_with (style_of self.now) result left }
    {
        if is_separator(grapheme) {
            self.separator(place, grapheme)
        } else {
            self.letter(place, grapheme)
        }
    }

    // What a separator at a place writes.
    fn separator(&self, place: Place, grapheme: &str) -> Step<'a>
        ensures { (left : List (Word Grapheme)) → initials_left (style_of self.now) place
            (onto_gap grapheme.now left) ≡ written_with (style_of self.now) result left }
    {
        let hyphened = self.with_hyphen && begins_with_hyphen(grapheme);
        match place {
            Place::Apart => Step {
                front: "",
                back: "",
                next: Place::Apart,
            },
            Place::Plain | Place::BehindPlain if hyphened => Step {
                front: "-",
                back: "",
                next: Place::BehindPlain,
            },
            Place::Plain | Place::BehindPlain => Step {
                front: " ",
                back: "",
                next: Place::BehindPlain,
            },
            Place::Initial if hyphened => Step {
                front: self.delimiter.trim_end(),
                back: "-",
                next: Place::Apart,
            },
            Place::Initial => Step {
                front: self.delimiter,
                back: "",
                next: Place::Apart,
            },
        }
    }

    // What a grapheme of a word writes.
    fn letter(&self, place: Place, grapheme: &'a str) -> Step<'a>
        ensures { (left : List (Word Grapheme)) → initials_left (style_of self.now) place
            (onto_word grapheme.now left) ≡ written_with (style_of self.now) result left }
    {
        let next = if is_upper(grapheme) {
            Place::Initial
        } else {
            Place::Plain
        };
        match place {
            Place::Apart | Place::BehindPlain => Step {
                front: self.lead(grapheme),
                back: grapheme,
                next,
            },
            Place::Plain => Step {
                front: "",
                back: grapheme,
                next,
            },
            Place::Initial => Step {
                front: "",
                back: "",
                next: Place::Initial,
            },
        }
    }

    // What stands before a word that begins with the grapheme: a blank, or nothing.
    fn lead(&self, grapheme: &str) -> &'static str
        ensures { result.now ≡ lead (style_of self.now) grapheme.now }
    {
        if is_upper(grapheme) || self.delimiter.trim_end().len() < self.delimiter.len() {
            ""
        } else {
            " "
        }
    }
}

// Whether a grapheme stands between words.
#[tactic(auto, unfolding(crate::specs::Initials::is_separator))]
fn is_separator(grapheme: &str) -> bool
    ensures { result ≡ is_separator grapheme.now }
{
    grapheme
        .chars()
        .next()
        .is_some_and(|c| c.is_whitespace() || c == '-')
}

// Whether a grapheme begins with a hyphen.
#[tactic(auto, unfolding(crate::specs::Initials::begins_with_hyphen))]
fn begins_with_hyphen(grapheme: &str) -> bool
    ensures { result ≡ begins_with_hyphen grapheme.now }
{
    grapheme.chars().next().is_some_and(|c| c == '-')
}

// Whether a grapheme holds an upper case or title case letter.
#[tactic(auto, unfolding(crate::specs::Initials::is_upper))]
fn is_upper(grapheme: &str) -> bool
    ensures { result ≡ is_upper grapheme.now }
{
    grapheme.chars().any(is_upper_letter)
}

// Whether a character is an upper case or title case letter.
fn is_upper_letter(c: char) -> bool
    ensures { result ≡ is_upper_letter (general_category c) }
{
    matches!(
        GeneralCategory::for_char(c),
        GeneralCategory::UppercaseLetter | GeneralCategory::TitlecaseLetter
    )
}
