//! The kinds of characters.
ghost use Rattle.std.specs.Prelude.{◌≡◌};
ghost use Rattle.haya_latex.specs.Kinds.{argument_kind, group_kind, sign_kind};

use haya_latex_words::Accent;

/// What a character is.
///
/// A text has those that are `Normal`, `Verbatim` and `Math`; names have those that are `Free`,
/// `Verbatim`, `Special` and `Math`.
#[derive(Clone, Copy, Debug, PartialEq, Eq)]
pub enum Kind {
    /// A character whose case may change.
    Normal,
    /// A character that braces protect: its case is kept.
    Verbatim,
    /// A character of a formula.
    Math,
    /// A character of names that nothing protects.
    Free,
    /// A character of names that is protected, and shows its case: one in a group that begins with
    /// a command, or that a command stands for.
    Special,
}

/// What a token does with groups.
#[derive(Clone, Copy)]
pub(crate) enum Turn {
    /// It changes none.
    Stay,
    /// It begins a group of this kind, with a sign to be written at its end.
    Enter(Kind, Option<char>),
    /// So many braces are open then that begin no group.
    Open(usize),
    /// It closes a brace.
    Close,
    /// This accent is on the next token.
    Wait(Accent),
    /// It begins a group of this kind, which this accent is on.
    Under(Accent, Kind),
}

/// The kind of a group by itself, which begins with a backslash or doesn't.
pub(crate) fn group_kind(kind: Kind, backslash: bool) -> Kind
    ensures { result ≡ group_kind kind backslash }
{
    match kind {
        Kind::Normal if !backslash => Kind::Verbatim,
        Kind::Free => argument_kind(kind, backslash),
        _ => kind,
    }
}

/// The kind of the group of a command or an accent.
pub(crate) fn argument_kind(kind: Kind, backslash: bool) -> Kind
    ensures { result ≡ argument_kind kind backslash }
{
    match kind {
        Kind::Free if backslash => Kind::Special,
        Kind::Free => Kind::Verbatim,
        _ => kind,
    }
}

/// The kind of a character that a command stands for.
pub(crate) fn sign_kind(kind: Kind, c: char) -> Kind
    ensures { result ≡ sign_kind kind c }
{
    match kind {
        Kind::Free if !c.is_whitespace() => Kind::Special,
        _ => kind,
    }
}
