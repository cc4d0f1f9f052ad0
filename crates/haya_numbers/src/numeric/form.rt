//! Numbers in words and letters.
ghost use Rattle.std.specs.Prelude.{◌≡◌, ◌<◌, ℤ, List, ℕ, Option, Some, OnOk, option_map};
ghost use Rattle.std.specs.Fmt.{DisplaysOnOk, WritesText};
ghost use Rattle.haya_numbers.specs.Numeric.{value_view};
ghost use Rattle.haya_numbers.specs.NumericForms.{copies, formed_number, formed_value};
ghost use Rattle.haya_numbers.specs.NumericForms.{ordinal_text, roman_text};
ghost use Rattle.haya_numbers.specs.declared.numeric.form.GrammarGender.{GrammarGender as Gender};

use super::delimiter::text_after;
use crate::{Numeric, NumericValue};
use std::fmt;
use std::fmt::Write;

/// How a number is written.
#[derive(Clone, Copy, Debug, PartialEq, Eq, Hash)]
pub enum NumberForm {
    /// In digits.
    Numeric,
    /// In digits with an ordinal suffix, as `2nd`.
    Ordinal,
    /// As an ordinal word, as `second`.
    LongOrdinal,
    /// In lower case Roman letters.
    Roman,
}

/// The grammatical gender of what a number stands beside.
#[derive(Clone, Copy, Debug, PartialEq, Eq, Hash)]
pub enum GrammarGender {
    /// Neither masculine nor feminine.
    Neuter,
    /// Masculine.
    Masculine,
    /// Feminine.
    Feminine,
}

/// A language's ordinal numbers.
pub trait Ordinals {
    // The bytes of what `lookup` and `lookup_long` answer.
    ghost ordinal_suffix: { Self → ℤ → Option Gender → Option (List ℕ) };

    ghost ordinal_word: { Self → ℤ → Option (List ℕ) };

    /// What follows the digits of an ordinal number, as `nd` in `2nd`.
    fn lookup(&self, n: i32, gender: Option<GrammarGender>) -> Option<&str>
        ensures { option_map (λ s. s.now) result ≡ ordinal_suffix self.now n gender };

    /// The word of an ordinal number, as `second`.
    fn lookup_long(&self, n: i32) -> Option<&str>
        ensures { option_map (λ s. s.now) result ≡ ordinal_word self.now n };
}

impl Numeric {
    /// Writes the numbers in that form, without affixes. What ordinal numbers look like, perhaps by
    /// gender, is asked of `ordinals`; where there is no word, the digits and the suffix are
    /// written. Roman letters write 1 to 3999, any other number is written in digits. The
    /// writer's fault ends the call.
    pub fn with_form<W: fmt::Write, O: Ordinals>(
        &self,
        buf: &mut W,
        form: NumberForm,
        gender: Option<GrammarGender>,
        ordinals: &O,
    ) -> fmt::Result
        ensures { OnOk result (WritesText W.write_str_gives buf.old
            (Some (formed_value
            (formed_number form
            (λ n. O.ordinal_suffix ordinals.now n gender)
            (O.ordinal_word ordinals.now))
            (value_view self.now.value)))
            buf.new) }
    {
        let style = Style {
            form,
            gender,
            ordinals,
        };
        buf.write(Formed {
            value: &self.value,
            style: &style,
        })
    }
}

// How numbers are written.
#[derive(Drop)]
struct Style<'a, O> {
    form: NumberForm,
    gender: Option<GrammarGender>,
    ordinals: &'a O,
}

// The numbers of a value in a style.
#[derive(Drop)]
struct Formed<'a, O> {
    value: &'a NumericValue,
    style: &'a Style<'a, O>,
}

impl<O: Ordinals> fmt::Display for Formed<'_, O> {
    ghost output = { λ s. Some (formed_value
        (formed_number s.style.now.form
        (λ n. O.ordinal_suffix s.style.now.ordinals.now n s.style.now.gender)
        (O.ordinal_word s.style.now.ordinals.now))
        (value_view s.value.now)) };

    fn fmt<W: fmt::Write>(&self, f: &mut fmt::Formatter<W>) -> fmt::Result {
        let style = self.style;
        let set = match self.value {
            NumericValue::Number(n) => return write!(f, "{}", FormedNumber { n: *n, style }),
            NumericValue::Set(set) => set,
        };
        for (n, delimiter) in set {
            let number = FormedNumber { n: *n, style };
            write!(f, "{number}{}", text_after(*delimiter))?;
        }
        Ok(())
    }
}

// A number in a style.
#[derive(Drop)]
struct FormedNumber<'a, O> {
    n: i32,
    style: &'a Style<'a, O>,
}

impl<O: Ordinals> fmt::Display for FormedNumber<'_, O> {
    ghost output = { λ s. Some (formed_number s.style.now.form
        (λ n. O.ordinal_suffix s.style.now.ordinals.now n s.style.now.gender)
        (O.ordinal_word s.style.now.ordinals.now)
        s.n) };

    fn fmt<W: fmt::Write>(&self, f: &mut fmt::Formatter<W>) -> fmt::Result {
        let n = self.n;
        match self.style.form {
            NumberForm::Numeric => write!(f, "{n}"),
            NumberForm::Ordinal => self.fmt_ordinal(f),
            NumberForm::LongOrdinal => match self.style.ordinals.lookup_long(n) {
                Some(word) => write!(f, "{word}"),
                None => self.fmt_ordinal(f),
            },
            NumberForm::Roman if n > 0 && n < 4000 => write!(f, "{}", Roman(n as u16)),
            NumberForm::Roman => write!(f, "{n}"),
        }
    }
}

impl<O: Ordinals> FormedNumber<'_, O> {
    // Writes the digits and the suffix, if there is one.
    fn fmt_ordinal<W: fmt::Write>(&self, f: &mut fmt::Formatter<W>) -> fmt::Result
        ensures { let style = self.now.style.now in
            let text = ordinal_text
            (λ n. O.ordinal_suffix style.ordinals.now n style.gender) self.now.n in
            DisplaysOnOk W.write_str_gives f.old result (Some text) f.new }
    {
        let n = self.n;
        let suffix = self
            .style
            .ordinals
            .lookup(n, self.style.gender)
            .unwrap_or("");
        write!(f, "{n}{suffix}")
    }
}

// A number from 1 to 3999 in Roman letters.
#[derive(Clone, Copy)]
struct Roman(u16);

// What Roman letters are worth, greatest first.
const LETTERS: &[(u16, &str)] = &[
    (1000, "m"),
    (900, "cm"),
    (500, "d"),
    (400, "cd"),
    (100, "c"),
    (90, "xc"),
    (50, "l"),
    (40, "xl"),
    (10, "x"),
    (9, "ix"),
    (5, "v"),
    (4, "iv"),
    (1, "i"),
];

impl fmt::Display for Roman {
    ghost output = { λ s. Some (roman_text s.0) };

    fn fmt<W: fmt::Write>(&self, f: &mut fmt::Formatter<W>) -> fmt::Result {
        let mut left = self.0;
        'letters: for (value, letters) in LETTERS {
            write_copies(f, letters, left / *value)?;
            left %= *value;
        }
        Ok(())
    }
}

// Writes the letters so many times.
fn write_copies<W: fmt::Write>(f: &mut fmt::Formatter<W>, letters: &str, times: u16) -> fmt::Result
    ensures { DisplaysOnOk W.write_str_gives f.old result (Some (copies times letters.now)) f.new }
{
    'copies: for _ in 0..times {
        write!(f, "{letters}")?;
    }
    Ok(())
}
