//! What a call answers: 0 where it did what it was asked, otherwise why not.
ghost use Rattle.std.specs.Prelude.{◌≡◌, codes};
ghost use Rattle.hayagriva_c.specs.Codes.{error_code, message_of};

use hayagriva::SelectorError;

/// It is done.
pub const OK: u32 = 0;

/// No more hits come.
pub const END: u32 = 1;

/// There is no such entry.
pub const NO_ENTRY: u32 = 2;

/// The entry has no such field, or a selector no such name.
pub const NO_FIELD: u32 = 3;

/// What the pointer leads to is of another kind.
pub const WRONG_KIND: u32 = 4;

/// The input, a selector or a name isn't UTF-8.
pub const NOT_TEXT: u32 = 5;

/// An allocation failed, which says nothing of what was asked.
pub const OUT_OF_MEMORY: u32 = 6;

/// No format or form has this number.
pub const NO_FORMAT: u32 = 7;

/// More than a thousand parentheses of a selector are open somewhere.
pub const TOO_DEEP: u32 = 8;

/// A text says no entry, or several.
pub const NOT_ONE: u32 = 9;

/// The person has no such part.
pub const NO_PART: u32 = 10;

/// A field is set, and isn't numbers alone.
pub const NOT_NUMBER: u32 = 11;

/// A selector lacks a value.
pub const MISSING_VALUE: u32 = 101;

/// After `[` or `,` in a selector's list there is neither a name nor `]`.
pub const MALFORMED_ATTRIBUTE: u32 = 102;

/// After a name in a selector's list there is neither `,` nor `]`.
pub const MISSING_COMMA: u32 = 103;

/// A `(` of the selector isn't closed.
pub const UNBALANCED_PARENTHESES: u32 = 104;

/// A selector has the name of no type.
pub const UNKNOWN_TYPE: u32 = 105;

/// The input is no JSON.
pub const NOT_JSON: u32 = 201;

/// An object of the input has a member twice.
pub const NAME_TWICE: u32 = 202;

/// A value of the input is refused.
pub const REFUSED_VALUE: u32 = 203;

/// A line has fewer than three items, a field without `=`, or a role and a person without `:`.
pub const LINE_SHAPE: u32 = 204;

/// A line has no depth of 0 to 500, or one that is no place for an entry.
pub const LINE_DEPTH: u32 = 205;

/// A line has the name of no type.
pub const LINE_TYPE: u32 = 206;

/// A line has the name of no field.
pub const LINE_FIELD: u32 = 207;

/// A line has a value that isn't read as its field's type.
pub const LINE_VALUE: u32 = 208;

/// The input is no YAML.
pub const NOT_YAML: u32 = 209;

/// The input is no `.bib` file.
pub const NOT_BIBTEX: u32 = 210;

/// The code of a selector's error.
pub fn of_selector(error: &SelectorError) -> u32
    ensures { result ≡ error_code error.now }
{
    match error {
        SelectorError::MissingValue => MISSING_VALUE,
        SelectorError::MalformedAttribute => MALFORMED_ATTRIBUTE,
        SelectorError::MissingComma => MISSING_COMMA,
        SelectorError::UnbalancedParens => UNBALANCED_PARENTHESES,
        SelectorError::UnknownEntryType(_) => UNKNOWN_TYPE,
        SelectorError::OutOfMemory => OUT_OF_MEMORY,
    }
}

/// What a code says, in words.
pub fn message(code: u32) -> &'static str
    ensures { result.now ≡ message_of code }
{
    match code {
        OK => "done",
        END => "no more hits",
        NO_ENTRY => "no such entry",
        NO_FIELD => "no such field",
        WRONG_KIND => "another kind of pointer",
        NOT_TEXT => "not UTF-8",
        OUT_OF_MEMORY => "out of memory",
        NO_FORMAT => "no such format or form",
        TOO_DEEP => "parentheses that nest too deep",
        NOT_ONE => "not one entry",
        NO_PART => "no such part",
        NOT_NUMBER => "not a number",
        MISSING_VALUE => "missing value",
        MALFORMED_ATTRIBUTE => "malformed attribute",
        MISSING_COMMA => "missing comma",
        UNBALANCED_PARENTHESES => "unbalanced parentheses",
        UNKNOWN_TYPE => "unknown entry type",
        NOT_JSON => "invalid JSON",
        NAME_TWICE => "duplicate member",
        REFUSED_VALUE => "a value is refused",
        LINE_SHAPE => "shape",
        LINE_DEPTH => "depth",
        LINE_TYPE => "type",
        LINE_FIELD => "field",
        LINE_VALUE => "value",
        NOT_YAML => "invalid YAML",
        NOT_BIBTEX => "invalid BibTeX",
        _ => "no such code",
    }
}
