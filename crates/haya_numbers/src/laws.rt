//! Laws of the definitions. A call of one, as `equal_by_value();`, gives its statement to the
//! caller's proof.
ghost use Rattle.std.specs.Prelude.{◌≡◌, ◌↔◌, ◌<◌, ℕ, ℤ, List, true, Ok, Err};
ghost use Rattle.std.specs.Str.{IsUtf8, chars};
ghost use Rattle.std.specs.Cmp.{IsTotalOrder};
ghost use Rattle.haya_text.specs.Equality.{EqualsByValue, EqualsByView, HashesAlike};
ghost use Rattle.haya_numbers.specs.Numeric.{NumericView, Single, value_view, numeric_view};
ghost use Rattle.haya_numbers.specs.Numeric.{csl_order};
ghost use Rattle.haya_numbers.specs.NumericBack.{is_kept, is_readable, reads_back as is_back};
ghost use Rattle.haya_numbers.specs.NumericForms.{roman_text};
ghost use Rattle.haya_numbers.specs.NumericGrammar.{IsFault, ReadsAs};
ghost use Rattle.haya_numbers.specs.NumericPrinted.{shown_numeric};
ghost use Rattle.haya_numbers.specs.NumericReading.{numeric_read};
ghost use Rattle.haya_numbers.specs.NumericRoundTrip.{round_trip_text};
ghost use Rattle.haya_numbers.specs.Romans.{letters_by_place, letters_value};
ghost use Rattle.haya_numbers.specs.declared.numeric.NumericError.{NumericError};

pub mod pages;

use crate::{GrammarGender, NumberForm, Numeric, NumericDelimiter, NumericError, NumericValue};
use std::hash::Hash;

/// `==` of numbers and of their values holds exactly where both are equal by value.
pub fn equal_by_value()
    ensures numeric { EqualsByView ⟦<Numeric as PartialEq>⟧.eq numeric_view }
    ensures value { EqualsByView ⟦<NumericValue as PartialEq>⟧.eq value_view }
{}

/// `==` of delimiters, forms, genders and faults of numbers holds exactly where both are the same.
pub fn kinds_equal_by_value()
    ensures delimiter { EqualsByValue ⟦<NumericDelimiter as PartialEq>⟧.eq }
    ensures form { EqualsByValue ⟦<NumberForm as PartialEq>⟧.eq }
    ensures gender { EqualsByValue ⟦<GrammarGender as PartialEq>⟧.eq }
    ensures fault { EqualsByValue ⟦<NumericError as PartialEq>⟧.eq }
{}

/// Numbers and what they hold, and forms and genders, that are equal by `==` hash alike.
pub fn equal_numbers_hash_alike()
    ensures numeric { HashesAlike ⟦<Numeric as PartialEq>⟧.eq ⟦<Numeric as Hash>⟧.hash_input }
    ensures value { HashesAlike ⟦<NumericValue as PartialEq>⟧.eq
        ⟦<NumericValue as Hash>⟧.hash_input }
    ensures delimiter { HashesAlike ⟦<NumericDelimiter as PartialEq>⟧.eq
        ⟦<NumericDelimiter as Hash>⟧.hash_input }
    ensures form { HashesAlike ⟦<NumberForm as PartialEq>⟧.eq ⟦<NumberForm as Hash>⟧.hash_input }
    ensures gender { HashesAlike ⟦<GrammarGender as PartialEq>⟧.eq
        ⟦<GrammarGender as Hash>⟧.hash_input }
{}

/// The order of numbers is total: of any two one is first or they tie, and it goes on along chains.
pub fn order()
    ensures { IsTotalOrder csl_order }
{}

/// A number without affixes reads back from its print as itself, where it is one number above the
/// least `i32`, or a set of two or more of them, all but the last with a delimiter, and no negative
/// number behind a hyphen.
pub fn reads_back()
    ensures { (n : NumericView) → is_back n ≡ true → numeric_read (shown_numeric n) ≡ Ok n }
{}

/// A number that was read from a text, with affixes or without, is read again from its print, where
/// it is one number, or a set with no negative number behind a hyphen, and with no suffix or one
/// that begins as its print lets it: with the white space that is shown behind the first number,
/// and then with neither white space nor a delimiter. One number that was read is above the least
/// `i32`.
pub fn read_numbers_read_back()
    ensures kept { (text : List ℕ) (n : NumericView) → IsUtf8 text → numeric_read text ≡ Ok n
        → is_kept n ≡ true → numeric_read (shown_numeric n) ≡ Ok n }
    ensures bounds { (text : List ℕ) (n : NumericView) (z : ℤ) → numeric_read text ≡ Ok n
        → n.value ≡ Single z → is_readable z ≡ true }
{}

/// A number that was read from a text is read again from its round-trip text, whatever its affixes
/// and its numbers.
pub fn read_numbers_round_trip()
    ensures { (text : List ℕ) (n : NumericView) → IsUtf8 text → numeric_read text ≡ Ok n
        → numeric_read (round_trip_text n) ≡ Ok n }
{}

/// A text reads as a number exactly where its parts are those of one, and has a fault exactly where
/// its parts show it. So each text has one value or one fault.
pub fn reads_its_parts()
    ensures value { (text : List ℕ) (v : NumericView) → ReadsAs text v
        ↔ (numeric_read text ≡ Ok v) }
    ensures fault { (text : List ℕ) (e : NumericError) → IsFault (chars text) e
        ↔ (numeric_read text ≡ Err e) }
{}

/// Roman letters from 1 to 3999 are those of each decimal place, and their values give the number
/// back. For 0 there are none.
pub fn roman_letters()
    ensures places { (n : ℕ) → n < 4000 → roman_text n ≡ letters_by_place n }
    ensures value { (n : ℕ) → n < 4000 → letters_value (roman_text n) ≡ n }
{}
